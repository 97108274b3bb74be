//! Worked examples of what users of a tree are told, and of how a tree is listed and closed.
//!
//! Each function has an empty body; its clauses are the example.
ghost use Rattle.std.specs.Prelude.{◌≡◌, ◌&&◌, not, true, Some, None};
ghost use Rattle.tp_names.specs.declared.outcome.Outcome.{Outcome};
ghost use Rattle.tp_trials.specs.Trials.{begun, readied, committed, damaged, mixed, forgotten, deep_completed, holds, in_tree, told_after, decision_after};
ghost use Rattle.tp_outcome_trials.specs.Telling.{is_told_commit, is_told_rollback, has_started, took_begin, listed_after, closed_after};

/// A branch decides to roll back by itself and its superior commits: their outcomes differ, and yet both users are told that
/// the commitment is complete, and neither is told rollback. That no two nodes of a tree have different outcomes would be false.
pub fn a_mixed_tree_shows_one_outcome()
    ensures differ { told_after forgotten 1 ≡ Some Outcome.Commit }
    ensures decided { told_after forgotten 2 ≡ Some Outcome.Rollback }
    ensures told { (holds is_told_commit forgotten 1 && holds is_told_commit forgotten 2) ≡ true }
    ensures never { (not (holds is_told_rollback forgotten 1) && not (holds is_told_rollback forgotten 2)) ≡ true }
{}

/// A branch that decided to commit rolls with its superior: its user is told rollback, and nobody is told commit.
pub fn a_damaged_tree_shows_one_outcome()
    ensures decided { decision_after damaged 2 ≡ Some Outcome.Commit }
    ensures told { holds is_told_rollback damaged 2 ≡ true }
    ensures never { (not (holds is_told_commit damaged 1) && not (holds is_told_commit damaged 2)) ≡ true }
{}

/// An outcome comes and stays: a ready branch has none, and commits later. That a node with no outcome stays so would be false.
pub fn an_outcome_comes_and_stays()
    ensures before { told_after readied 2 ≡ None }
    ensures after { told_after committed 2 ≡ Some Outcome.Commit }
    ensures decided { told_after mixed 2 ≡ Some Outcome.Rollback }
    ensures later { told_after forgotten 2 ≡ Some Outcome.Rollback }
{}

/// The root started the tree, and each other node took a Begin of it. That every node of a tree took one would be false.
pub fn nodes_are_in_the_tree()
    ensures root { (holds in_tree deep_completed 1 && holds has_started deep_completed 1 && not (holds took_begin deep_completed 1)) ≡ true }
    ensures middle { (holds in_tree deep_completed 2 && not (holds has_started deep_completed 2) && holds took_begin deep_completed 2) ≡ true }
    ensures last { (holds in_tree deep_completed 3 && not (holds has_started deep_completed 3) && holds took_begin deep_completed 3) ≡ true }
{}

/// A tree of three nodes is listed and closed once, while it goes on and when it is over.
pub fn a_tree_is_listed_once()
    ensures begun { listed_after begun ≡ 1 }
    ensures listed { listed_after deep_completed ≡ 1 }
    ensures closed { closed_after deep_completed ≡ 1 }
{}
