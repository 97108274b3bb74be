//! What users are told of one tree, and that it stays: in every run no two users of a tree are told different outcomes, what
//! was told, decided, left or completed is so after every further event, and the world lists and closes each tree once.
//!
//! Each law is the contract of a function with an empty body.
#![tactic(auto)]

ghost use Rattle.std.specs.Prelude.{List};
ghost use Rattle.tp_model.specs.Happenings.{Happening, run};
ghost use Rattle.tp_outcomes.specs.Shown.{OneIsShown, ToldOfTrees, LeftIsUntold};
ghost use Rattle.tp_outcomes.specs.Staying.{NodesStay, OutcomesStay};
ghost use Rattle.tp_outcomes.specs.Starting.{BelongsSo, ListedOnce, ClosesOnce};
ghost use Rattle.tp_outcomes.specs.Agreement.{TreesAgree};
ghost use Rattle.tp_outcomes.specs.Counting.{CountedIsThere};

/// In every run, whatever nodes decided by themselves: where the user of one node of a tree was told commit, or that the
/// commitment is complete, no user of the tree was told rollback, or that a rollback is complete. And each of these four is
/// told while a transaction is current, so it is told of that one's tree.
pub fn one_outcome_is_shown()
    // Promise 16.27 [tp_outcomes/specs/Shown.antt]: **No two users of one tree are told different
    //   outcomes, whatever was decided**
    ensures shown { (es : List Happening) → OneIsShown (run es) }
    // Promise 16.28 [tp_outcomes/specs/Shown.antt]: A user is told an outcome of a tree only while
    //   a transaction is current
    ensures trees { (es : List Happening) → ToldOfTrees (run es) }
{}

// Promise 16.33: A node that left a tree has no outcome in it
/// In every run, a node that left a tree has no outcome in it.
pub fn leaving_has_no_outcome()
    ensures { (es : List Happening) → LeftIsUntold (run es) }
{}

/// Whatever happens after a run, each of its nodes is still there, with the same site, number and superior, and its history goes
/// on; and in each tree its outcome, its own decision, that it logged Commit, rolled, left, was complete with no report, or is
/// in the tree, and what its user was told, are so as before.
pub fn what_was_told_stays_told()
    // Promise 16.34 [tp_outcomes/specs/Staying.antt, clauses nodes outcomes]: **What was told stays
    //   told**: whatever happens after a run, what a node was told, decided, logged, left or
    //   completed in a tree is so as before
    ensures nodes { (more es : List Happening) → NodesStay more es }
    ensures outcomes { (more es : List Happening) → OutcomesStay more es }
{}

// Promise 16.15: A node is in a tree exactly where it started it, or took a Begin of it
/// In every run, a node is in a tree exactly where it started it, or took a Begin of it.
pub fn a_node_is_in_a_tree_that_it_started_or_took()
    ensures { (es : List Happening) → BelongsSo (run es) }
{}

/// In every run, the world lists each tree that has a node once, and each tree that it lists has its root; so of the lines
/// that close the transcript exactly one speaks of a tree that has a node.
pub fn a_tree_has_one_closing_line()
    // Promise 16.17 [clauses listed closed]: The world lists each tree that has a node once, with
    //   its root, and exactly one closing line speaks of it
    ensures listed { (es : List Happening) → ListedOnce (run es) }
    ensures closed { (es : List Happening) → ClosesOnce (run es) }
{}

// Promise 16.55 [tp_outcomes/specs/Agreement.antt]: What the nodes of a tree are promised together:
//   16.14 to 16.16, 16.27, 16.30 and 16.31; that the world lists the tree once, with its root
//   (16.17); and that every staying node committed where the root's commitment was complete with no
//   report (16.38)
/// In every run, what the nodes of a tree are promised together, whatever was decided, given up or lost: Commit stands alone,
/// at nodes and in logs; one outcome is shown; a completion with no report at the root means that every node that stays logged
/// Commit and was complete with none; and a tree is entered once, hangs together, and is listed once.
pub fn the_nodes_of_a_tree_agree()
    ensures { (es : List Happening) → TreesAgree (run es) }
{}

// Promise 16.19: Where a node counts a branch, there is a node at its end, which is in the tree as
//   that branch of it and logged Ready for it
/// In every run, where a node counts a branch, there is a node at its end: it is in the tree as that branch of the node, and
/// logged Ready for it.
pub fn a_counted_branch_is_there()
    ensures { (es : List Happening) → CountedIsThere (run es) }
{}
