//! Laws over every run of a drained tree without failure: what its nodes say reaches the others, and counts there.
//!
//! Each is the contract of a function with an empty body.
ghost use Rattle.std.specs.Prelude.{List};
ghost use Rattle.tp_model.specs.Happenings.{Happening, run};
ghost use Rattle.tp_failure_free.specs.DrainedWorlds.{NobodyRolls, AllCame, AllTaken, WordsAreTaken, FramesDrain, NoFailureInTree, BranchesAreThere, AnswersAreTaken, OrdersAreTaken, DonesDecided, DonesAreTaken};

// Promise 16.43: Nobody rolls in a tree in which nothing failed
/// In every run, nobody rolls in a tree in which nothing failed while it was current at its nodes.
pub fn nobody_rolls_in_a_tree_without_failure()
    ensures { (es : List Happening) → NobodyRolls (run es) }
{}

// Promise 16.44: In a drained tree each word of it was taken at its place with its pair of marks;
//   where no node of it ever failed and every frame of them was taken, all that they sent to a node
//   that is there came to it, and with each pair of marks the other end took just what was sent
/// In every run, where no node of a tree ever failed and each of their frames was taken, what they sent to a node that is there came
/// to it, and on each pair of marks the other end took just what was sent, record by record. Of a tree that is drained in its own
/// time each word was taken at its place.
pub fn what_a_drained_tree_says_is_taken()
    ensures came { (es : List Happening) → AllCame (run es) }
    ensures taken { (es : List Happening) → AllTaken (run es) }
    ensures words { (es : List Happening) → WordsAreTaken (run es) }
{}

// Promise 16.60, part 2
/// In every run, a tree whose nodes never failed, and whose frames were all taken, is drained and without failure in its own time.
pub fn frames_that_are_taken_drain_a_tree()
    ensures drained { (es : List Happening) → FramesDrain (run es) }
    ensures unfailed { (es : List Happening) → NoFailureInTree (run es) }
{}

// Promise 16.45: In a drained tree each branch that a node began is a node of the tree
/// In every run, each branch that a node of a drained tree began is a node of the tree.
pub fn branches_of_a_drained_tree_are_there()
    ensures { (es : List Happening) → BranchesAreThere (run es) }
{}

// Promise 16.47: In a drained tree what was said over associations was taken where the tree is
//   current still: by a superior its branch's answer, by a branch its superior's order and, where
//   nothing failed in the tree, by a superior its branch's Done
/// In every run, in a drained tree a branch's answer is taken, by Ready or by leaving, while the tree is current
/// at its superior, where it is current still.
pub fn answers_of_branches_are_taken()
    ensures { (es : List Happening) → AnswersAreTaken (run es) }
{}

// Promise 16.47, part 3
/// In every run, in a drained tree a branch takes its superior's order to commit while the tree is current at
/// the branch, where it is current still.
pub fn orders_of_superiors_are_taken()
    ensures { (es : List Happening) → OrdersAreTaken (run es) }
{}

// Promise 16.46: A superior takes a branch's Done over an association only where it has logged
//   Commit itself by then, of the tree whose Begin the Done answers
/// In every run, a superior takes a branch's Done over an association only where it has logged Commit itself by then, of the
/// tree whose Begin the Done answers.
pub fn dones_come_behind_the_decision()
    ensures { (es : List Happening) → DonesDecided (run es).nodes }
{}

// Promise 16.47, part 2
/// In every run, in a drained tree without failure a branch's Done that went over an association is taken in committing, by a
/// superior that has the branch, where the tree is current there still.
pub fn dones_of_branches_are_taken()
    ensures { (es : List Happening) → DonesAreTaken (run es) }
{}
