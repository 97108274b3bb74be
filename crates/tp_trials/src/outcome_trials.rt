//! Worked examples of how a tree ends: runs in which the laws of outcomes say something.
//!
//! Each function has an empty body; its clauses are the example.
ghost use Rattle.std.specs.Prelude.{◌≡◌, ◌&&◌, not, true, false, Some, [], ◌∷◌, reverse};
ghost use Rattle.tp_names.specs.declared.outcome.Outcome.{Outcome};
ghost use Rattle.tp_model.specs.declared.out_line.OutLine.{OutLine};
ghost use Rattle.tp_model.specs.Happenings.{run};
ghost use Rattle.tp_model.specs.Trees.{closing};
ghost use Rattle.tp_trials.specs.Trials.{tree, told_unknown, deep_departed, deep_readied, deep_counted, rolled_back, damaged, committed, mixed, holds, in_tree, has_logs, has_committed, has_backed, has_rolled, has_gone, has_voted, has_voted_below, counts_below, is_branch_of_first, is_branch_of_second, told_after, decision_after};

/// The root rolls back. Its ready branch stops before it hears so, asks, is told that the root knows of nothing, and rolls.
pub fn a_ready_branch_asks_in_vain()
    ensures voted { (is_branch_of_first told_unknown && holds has_voted told_unknown 2) ≡ true }
    ensures rolls { (holds has_rolled told_unknown 1 && holds has_rolled told_unknown 2) ≡ true }
    ensures told { told_after told_unknown 2 ≡ Some Outcome.Rollback }
{}

/// A node with a branch leaves, when that branch has left.
pub fn a_node_leaves_behind_its_branch()
    ensures family { (is_branch_of_first deep_departed && is_branch_of_second deep_departed && holds in_tree deep_departed 3) ≡ true }
    ensures leaves { (holds has_gone deep_departed 2 && holds has_gone deep_departed 3) ≡ true }
{}

/// A node with a branch is ready, when that branch is.
pub fn a_node_is_ready_behind_its_branch()
    ensures family { (is_branch_of_first deep_readied && is_branch_of_second deep_readied) ≡ true }
    ensures voted { (holds has_voted deep_readied 2 && holds has_voted_below deep_readied 3) ≡ true }
    ensures stays { (not (holds has_gone deep_readied 2) && not (holds has_gone deep_readied 3)) ≡ true }
{}

/// A node counts its ready branch, and has logged nothing itself.
pub fn a_node_counts_its_branch()
    ensures family { (is_branch_of_first deep_counted && is_branch_of_second deep_counted) ≡ true }
    ensures counts { (holds counts_below deep_counted 2 && holds has_voted_below deep_counted 3) ≡ true }
    ensures silent { holds has_logs deep_counted 2 ≡ false }
{}

/// Two nodes of one tree are told different outcomes, and one of them decided by itself.
pub fn a_decision_divides_a_tree()
    ensures family { (is_branch_of_first mixed && holds in_tree mixed 1 && holds in_tree mixed 2) ≡ true }
    ensures first { told_after mixed 1 ≡ Some Outcome.Commit }
    ensures second { told_after mixed 2 ≡ Some Outcome.Rollback }
    ensures decided { decision_after mixed 2 ≡ Some Outcome.Rollback }
    ensures named { closing (run (reverse mixed)) ≡ OutLine.Mixed tree (2 ∷ []) ∷ [] }
{}

/// A ready branch that rolls logs its end with rollback.
pub fn a_rollback_is_logged()
    ensures ends { holds has_backed rolled_back 2 ≡ true }
    ensures rolls { (holds has_rolled rolled_back 1 && holds has_rolled rolled_back 2) ≡ true }
    ensures none { (not (holds has_committed rolled_back 1) && not (holds has_committed rolled_back 2)) ≡ true }
{}

/// One that decided to commit by itself logs its damage with rollback, and no Commit; one that commits logs no rollback.
pub fn a_decision_is_no_commit()
    ensures decides { decision_after damaged 2 ≡ Some Outcome.Commit }
    ensures damage { (holds has_backed damaged 2 && holds has_rolled damaged 2) ≡ true }
    ensures none { (not (holds has_committed damaged 1) && not (holds has_committed damaged 2)) ≡ true }
    ensures commits { (holds has_committed committed 1 && holds has_committed committed 2) ≡ true }
    ensures alone { (not (holds has_backed committed 1) && not (holds has_backed committed 2)) ≡ true }
{}
