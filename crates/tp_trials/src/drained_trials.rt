//! Worked examples of what a drained tree has done, and of what waits for a frame.
//!
//! Each function has an empty body; its clauses are the example.
ghost use Rattle.std.specs.Prelude.{◌≡◌, ◌&&◌, ◌||◌, not, true, false, length};
ghost use Rattle.tp_trials.specs.Trials.{deep, holds};
ghost use Rattle.tp_steps.specs.Facts.{is_order};
ghost use Rattle.tp_steps.specs.Heeding.{is_answer};
ghost use Rattle.tp_failure_free.specs.Drained.{is_done};
ghost use Rattle.tp_failure_free.specs.DrainedTrees.{IsSettled};
ghost use Rattle.tp_names.specs.declared.outcome.Outcome.{Outcome};
ghost use Rattle.tp_model.specs.declared.out_line.OutLine.{OutLine};
ghost use Rattle.tp_trials.specs.DrainedTrials.{drained, waiting, ordering, finishing, outlasting, interrupted, tree_of_four, world_after, closing_of, is_each, is_emptied, is_inside, is_unowing, is_unfailed, has_answered, has_departed, has_completed, waits_in_active, says_to, took_answer, took_order, took_done, is_in_it, has_not_rolled, sent_by, taken_by};

/// Four nodes in one tree without a failure: each user asked for commitment, or left, each frame was taken, and no user owes
/// its done. The one that left apart, each logged Commit and was told that it is complete, with no report.
pub fn a_drained_tree_commits()
    ensures inside { is_each is_inside drained ≡ true }
    ensures emptied { is_emptied drained ≡ true }
    ensures settled { is_each is_unowing drained ≡ true }
    ensures unfailed { is_each is_unfailed drained ≡ true }
    ensures answered { is_each has_answered drained ≡ true }
    ensures leaves { (holds has_departed drained 3 && not (holds has_completed drained 3)) ≡ true }
    ensures commits { (holds has_completed drained 1 && holds has_completed drained 2 && holds has_completed drained 4) ≡ true }
{}

/// The same four nodes while the order to the last of them is not taken: all else holds, and three of them have not completed.
pub fn a_frame_that_waits_holds_the_tree_up()
    ensures inside { is_each is_inside waiting ≡ true }
    ensures waits { is_emptied waiting ≡ false }
    ensures settled { is_each is_unowing waiting ≡ true }
    ensures unfailed { is_each is_unfailed waiting ≡ true }
    ensures answered { is_each has_answered waiting ≡ true }
    ensures incomplete { (holds has_completed waiting 1 || holds has_completed waiting 2 || holds has_completed waiting 4) ≡ false }
{}

/// The drained tree of four nodes is one that is settled, as the law of the closing line asks for it: the law is of something.
pub fn a_drained_tree_is_settled()
    ensures { IsSettled (world_after drained) tree_of_four }
{}

/// The drained tree's closing line says that all agree on commitment; while the frame waits, the tree is open.
pub fn a_drained_tree_closes()
    ensures agreed { closing_of drained ≡ OutLine.Agreed tree_of_four Outcome.Commit }
    ensures open_yet { closing_of waiting ≡ OutLine.Open tree_of_four }
{}

/// The same tree while the user of its root owes its done: each frame was taken, nothing failed and each user asked, or left; but
/// the root has not completed. Each node that stays was told commit, so the closing line says already that all agree.
pub fn a_user_that_owes_its_done_holds_the_tree_up()
    ensures emptied { is_emptied finishing ≡ true }
    ensures owes { is_each is_unowing finishing ≡ false }
    ensures unfailed { is_each is_unfailed finishing ≡ true }
    ensures answered { is_each has_answered finishing ≡ true }
    ensures incomplete { holds has_completed finishing 1 ≡ false }
    ensures agreed { closing_of finishing ≡ OutLine.Agreed tree_of_four Outcome.Commit }
{}

/// Two of the four nodes crash after the tree was settled: they have failed now, and the closing line still says that all agree on
/// commitment. Where they crash while the last order is not taken, the tree is open.
pub fn a_settled_tree_outlasts_a_crash()
    ensures failed { (holds is_unfailed outlasting 2 || holds is_unfailed outlasting 4) ≡ false }
    ensures complete { (holds has_completed outlasting 1 && holds has_completed outlasting 2 && holds has_completed outlasting 4) ≡ true }
    ensures agreed { closing_of outlasting ≡ OutLine.Agreed tree_of_four Outcome.Commit }
    ensures open_yet { closing_of interrupted ≡ OutLine.Open tree_of_four }
{}

/// A node that has asked for commitment waits for its branch in active, and leaves nothing undone.
pub fn a_node_waits_for_its_branch()
    ensures { holds waits_in_active deep 1 ≡ true }
{}

/// The four nodes while the tree is current at the root: the answers of its branches, one of which leaves, were taken, and so
/// was the order to the first one, which has ordered its own branch; later the root takes Done. Nobody rolls, and what the root
/// and its first branch sent each other was taken.
pub fn words_in_a_drained_tree()
    ensures current { (holds is_in_it ordering 1 && holds is_in_it ordering 2 && holds is_in_it finishing 1) ≡ true }
    ensures answers { (holds (says_to 1 is_answer) ordering 2 && holds (took_answer 2) ordering 1) ≡ true }
    ensures leaves { (holds (says_to 1 is_answer) ordering 3 && holds (took_answer 3) ordering 1) ≡ true }
    ensures orders { (holds (says_to 2 is_order) ordering 1 && holds (took_order 1) ordering 2) ≡ true }
    ensures waits { (holds (says_to 4 is_order) ordering 2 && not (holds (took_order 2) ordering 4)) ≡ true }
    ensures dones { (holds (says_to 1 is_done) finishing 2 && holds (took_done 2) finishing 1) ≡ true }
    ensures unrolled { is_each has_not_rolled drained ≡ true }
    ensures down { sent_by 1 2 ≡ taken_by 2 1 }
    ensures up { sent_by 2 1 ≡ taken_by 1 2 }
    ensures some { length (sent_by 1 2) ≡ 3 }
{}
