//! That no report is a false alarm: a completion that tells mix or hazard has its cause at the node, or a branch told it; and down the
//! tree mix has behind it a decision of the other outcome, and hazard a branch that was given up.
//!
//! Each law is the contract of a function with an empty body.
#![tactic(auto)]

ghost use Rattle.std.specs.Prelude.{List};
ghost use Rattle.tp_model.specs.Happenings.{Happening, run};
ghost use Rattle.tp_report_causes.specs.Alarms.{NoFalseAlarm};
ghost use Rattle.tp_report_causes.specs.Apart.{CommitmentsAreApart, RollbacksAreApart};
ghost use Rattle.tp_report_causes.specs.Causes.{ReportsHaveCauses};

// Promise 16.41: Where a user was told that a commitment or a rollback is complete with mix, the
//   node logged a decision of the other outcome or heeded a branch's word with mix; with hazard, it
//   gave up a branch or heeded such a word with hazard
/// In every run, where a node's user was told that a commitment, or a rollback, is complete with mix, the node decided the
/// other outcome by itself in the tree, or took such a word of a branch, which was neither done nor left, with mix: that it is
/// done, while the tree was committing, over an association or as a reply, or that it rolled back, while the tree rolled. And
/// with hazard, the node gave up a branch while the tree was current, or took such a word with hazard.
pub fn reports_have_causes()
    ensures { (es : List Happening) → ReportsHaveCauses (run es) }
{}

// Promise 16.42: **No report of a commitment is a false alarm**: where a user was told that a
//   commitment is complete with a report, a node of the tree, that one or one below it, decided to
//   roll back, or gave up a branch while the tree was current; also where reports came as replies
/// In every run, where a node's user was told that a commitment is complete with a report, a node of the tree, at that node or
/// below it, decided by itself to roll back, or gave up a branch while the tree was current: whether its branches' reports came
/// over their associations, or as replies after one was lost.
pub fn no_report_is_a_false_alarm()
    ensures { (es : List Happening) → NoFalseAlarm (run es) }
{}

// Promise 16.59: Where a user was told that a rollback is complete with mix, a node of the tree,
//   that one or one below it, decided to commit; no rollback is complete with hazard
/// In every run, where a node's user was told that a rollback is complete with mix, a node of the tree, at that node or below it,
/// decided by itself to commit. And no rollback is ever complete with hazard.
pub fn a_rollback_tells_no_false_mix()
    ensures { (es : List Happening) → RollbacksAreApart (run es) }
{}

// Promise 16.58: **A commitment tells mix and hazard apart**: where a user was told that a
//   commitment is complete with mix, a node of the tree, that one or one below it, decided to roll
//   back; and with hazard, such a node gave up a branch while the tree was current; also where
//   reports came as replies
/// In every run, where a node's user was told that a commitment is complete with mix, a node of the tree, at that node or below it,
/// decided by itself to roll back; and with hazard, such a node gave up a branch while the tree was current: whether its branches'
/// reports came over their associations, or as replies after one was lost, and also where a branch learned of its own branch's mix
/// only after its user was told hazard.
pub fn a_commitment_tells_mix_and_hazard_apart()
    ensures { (es : List Happening) → CommitmentsAreApart (run es) }
{}
