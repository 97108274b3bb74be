//! Laws over every run of what a commitment with no report tells of a tree.
//!
//! Each is the contract of a function with an empty body.
#![tactic(auto)]

ghost use Rattle.std.specs.Prelude.{List};
ghost use Rattle.tp_model.specs.Happenings.{Happening, run};
ghost use Rattle.tp_reports.specs.Reports.{ClearIsCommitted, ClearBelow, BranchFate};

// Promise 16.35: A node whose user was told that a commitment is complete with no report was told
//   commit
/// In every run, a node whose user was told that a tree's commitment is complete with no report was told commit: it logged
/// Commit, and never decided to roll back.
pub fn a_clear_completion_is_a_commit()
    ensures { (es : List Happening) → ClearIsCommitted (run es) }
{}

// Promise 16.36: Where a node's commitment was complete with no report, each of its branches left,
//   or was complete with no report itself
/// In every run, where a node's commitment was complete with no report, each branch that it began left, or was complete with no
/// report itself.
pub fn a_clear_completion_answers_for_its_branches()
    ensures { (es : List Happening) → ClearBelow (run es) }
{}

// Promise 16.40: At a node that took the Begin of a branch the tree is current still, or the node
//   rolled, left, ended its commitment with no report, keeps it for its damage, or took its
//   superior's Forget of the branch
/// In every run, at a node that took the Begin of a branch the tree is current still, or the node rolled, left, ended its
/// commitment with no report, keeps it for its damage, or took its superior's Forget of the branch.
pub fn a_branch_keeps_its_tree_until_it_ends()
    ensures { (es : List Happening) → BranchFate (run es) }
{}
