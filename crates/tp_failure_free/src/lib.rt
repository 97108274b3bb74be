//! One node and a tree in which nothing failed there: where it stands, what it says and what it heeds. The history is a legal one
//! whose log was empty at first, which enters each tree once, and in which no failure of the tree came while it was current: none
//! of the node itself, and none of a dialogue with its superior or with a branch of it that had neither left nor, once counted,
//! ended. What failed before the tree or after it, or of another dialogue, does not count.
//!
//! Each function has an empty body; its clauses are the law.
#![tactic(auto)]

pub mod worlds;

ghost use Rattle.std.specs.Prelude.{Option, List, ◌∷◌};
ghost use Rattle.tp_names.specs.declared.identifiers.Aaid.{Aaid};
ghost use Rattle.tp_names.specs.declared.identifiers.Addr.{Addr};
ghost use Rattle.tp_model.specs.Parts.{Origin, Entry};
ghost use Rattle.tp_failure_free.specs.Drained.{IsUnfailed, BranchLive, SuperiorLive, StaysCounted, StaysEnded, HeedsReady, HeedsCommit, HeedsDone, SaysReady, SaysCommit, SaysDone, SaysLeaving, ClearReport};
ghost use Rattle.tp_model.specs.Happenings.{Happening, run};
ghost use Rattle.tp_model.specs.Promises.{DrainedCommits};
ghost use Rattle.tp_failure_free.specs.DrainedTrees.{SettledTreeCommits, SettledTreeCloses, SettledInItsTime, SettledCloses};

// Promise 12.30: While the tree is current, a branch that has neither ended nor left is on a live
//   arc, and so is the superior
/// While a tree in which nothing failed is current, each branch of it that has neither ended nor left is on a live arc, and so is
/// the superior that it came from.
pub fn an_open_branch_has_a_live_arc()
    ensures branches { (t : Aaid) (o : Origin) (up : Option Addr) (h : List Entry) → IsUnfailed t o up h → BranchLive t o h }
    ensures superior { (t : Aaid) (o : Origin) (up : Option Addr) (h : List Entry) → IsUnfailed t o up h → SuperiorLive t o h }
{}

// Promise 12.31: That a branch has answered or left stays while the tree is current, and so does
//   that it has ended or left
/// Of a tree in which nothing failed a branch that is counted or has left stays so, and so does one that has ended or left, while
/// the tree is current.
pub fn what_is_noted_of_a_branch_stays()
    ensures answered { (t : Aaid) (o : Origin) (up : Option Addr) (h : List Entry) (e : Entry) → IsUnfailed t o up (e ∷ h) → StaysCounted t o h e }
    ensures ended { (t : Aaid) (o : Origin) (up : Option Addr) (h : List Entry) (e : Entry) → IsUnfailed t o up (e ∷ h) → StaysEnded t o h e }
{}

// Promise 12.32: What is taken of the tree is heeded: if it did not roll, a branch whose Ready or
//   Left was taken has answered while it is current, and where the superior's Commit was taken
//   Commit is logged; a branch whose Done was taken in committing has ended, or left, while it is
//   current
/// What is taken of a tree in which nothing failed, and that did not roll, is heeded: a branch whose answer was taken has answered
/// as long as the tree is current; where the superior's Commit was taken, Commit is logged; and a branch whose Done was taken in
/// committing has ended as long as the tree is current.
pub fn what_a_node_takes_it_heeds()
    ensures answers { (t : Aaid) (o : Origin) (up : Option Addr) (h : List Entry) → IsUnfailed t o up h → HeedsReady t o h }
    ensures orders { (t : Aaid) (o : Origin) (up : Option Addr) (h : List Entry) → IsUnfailed t o up h → HeedsCommit t o h }
    ensures ends { (t : Aaid) (o : Origin) (up : Option Addr) (h : List Entry) → IsUnfailed t o up h → HeedsDone t o h }
{}

// Promise 12.33: What is decided of the tree goes out on the live arcs: Ready, Commit to each
//   branch that has not left, Done where its commitment is complete with no report, and that it
//   leaves
/// What is decided of a tree in which nothing failed goes out on the live arcs: an entry of the tree that logs Ready says so to the
/// superior; one that logs Commit orders it to each branch that has not left; one that tells the user that the commitment is
/// complete with no report says Done with no report; and one that leaves says so.
pub fn what_a_node_decides_it_says()
    ensures ready { (t : Aaid) (o : Origin) (up : Option Addr) (h : List Entry) (e : Entry) → IsUnfailed t o up (e ∷ h) → SaysReady t o h e }
    ensures commit { (t : Aaid) (o : Origin) (up : Option Addr) (h : List Entry) (e : Entry) → IsUnfailed t o up (e ∷ h) → SaysCommit t o h e }
    ensures done { (t : Aaid) (o : Origin) (up : Option Addr) (h : List Entry) (e : Entry) → IsUnfailed t o up (e ∷ h) → SaysDone t o h e }
    ensures leaving { (t : Aaid) (o : Origin) (up : Option Addr) (h : List Entry) (e : Entry) → IsUnfailed t o up (e ∷ h) → SaysLeaving t o h e }
{}

// Promise 12.34: Its commitment, once complete, is so with no report, where no Done that came on an
//   association and no reply done of the tree, while it was current, had one
/// A commitment in a tree in which nothing failed, once it is complete, is so with no report, where no Done that came while the
/// tree was current had one.
pub fn branches_without_a_report_leave_none()
    ensures { (t : Aaid) (o : Origin) (up : Option Addr) (h : List Entry) → IsUnfailed t o up h → ClearReport t o h }
{}
