//! Worked examples of the laws: runs in which they say something.
//!
//! Each function has an empty body; its clauses are the example.
ghost use Rattle.std.specs.Prelude.{◌≡◌, ◌&&◌, not, true, false, Some, None};
ghost use Rattle.tp_names.specs.declared.outcome.Outcome.{Outcome};
ghost use Rattle.tp_trials.specs.Trials.{committed, recovered, rolled_back, mixed, departed, polarized, granting, granted, regained, holds, in_tree, has_committed, has_rolled, has_gone, has_voted, has_logs, is_linked, is_branch_of_first, took_order, sent_vote, has_control, gave_behind, took_behind, sent_end, told_after, decision_after};

/// Both ends are live, and the branch commits by an order that came over the association.
pub fn a_branch_commits()
    ensures linked { (holds (is_linked 2) committed 1 && holds (is_linked 1) committed 2) ≡ true }
    ensures family { (is_branch_of_first committed && holds in_tree committed 1 && holds in_tree committed 2) ≡ true }
    ensures commits { (holds has_committed committed 1 && holds has_committed committed 2) ≡ true }
    ensures ordered { holds took_order committed 2 ≡ true }
    ensures voted { holds sent_vote committed 2 ≡ true }
    ensures logs { holds has_logs committed 2 ≡ true }
    ensures told { told_after committed 2 ≡ Some Outcome.Commit }
{}

/// The branch stops when it is ready, and commits by a reply.
pub fn a_branch_recovers()
    ensures family { (is_branch_of_first recovered && holds in_tree recovered 1 && holds in_tree recovered 2) ≡ true }
    ensures commits { (holds has_committed recovered 1 && holds has_committed recovered 2) ≡ true }
    ensures unordered { holds took_order recovered 2 ≡ false }
{}

/// The root rolls back, and the ready branch with it.
pub fn a_tree_rolls_back()
    ensures voted { (is_branch_of_first rolled_back && holds has_voted rolled_back 2) ≡ true }
    ensures rolls { (holds has_rolled rolled_back 1 && holds has_rolled rolled_back 2) ≡ true }
    ensures commits { holds has_committed rolled_back 2 ≡ false }
    ensures told { told_after rolled_back 2 ≡ Some Outcome.Rollback }
{}

/// The tree is mixed by the decision of its branch, which logs Commit all the same.
pub fn a_tree_is_mixed()
    ensures commits { (holds has_committed mixed 1 && holds has_committed mixed 2) ≡ true }
    ensures decided { decision_after mixed 2 ≡ Some Outcome.Rollback }
    ensures told { told_after mixed 1 ≡ Some Outcome.Commit }
    ensures differs { told_after mixed 2 ≡ Some Outcome.Rollback }
{}

/// The branch leaves: it is in the tree, and neither commits nor rolls.
pub fn a_branch_leaves()
    ensures leaves { (holds in_tree departed 2 && holds has_gone departed 2) ≡ true }
    ensures commits { holds has_committed departed 2 ≡ false }
    ensures rolls { holds has_rolled departed 2 ≡ false }
    ensures silent { holds has_logs departed 2 ≡ false }
    ensures ended { (holds sent_end departed 2 && not (holds sent_vote departed 2)) ≡ true }
    ensures told { told_after departed 2 ≡ None }
{}

/// Control goes to the branch with a Grant, and is back at the superior end when the transaction is over at both ends; while
/// it is on its way neither end holds it.
pub fn control_is_passed()
    ensures linked { (holds (is_linked 2) granted 1 && holds (is_linked 1) granted 2 && holds (is_linked 2) regained 1
        && holds (is_linked 1) regained 2) ≡ true }
    ensures first { (holds has_control polarized 1 && not (holds has_control polarized 2)) ≡ true }
    ensures underway { (not (holds has_control granting 1) && not (holds has_control granting 2)) ≡ true }
    ensures granted { (not (holds has_control granted 1) && holds has_control granted 2) ≡ true }
    ensures regained { (holds has_control regained 1 && not (holds has_control regained 2)) ≡ true }
    ensures counted { (holds (took_behind 0 1) granted 2 && holds (gave_behind 0 1) granted 1 && holds (gave_behind 1 0) regained 1) ≡ true }
{}
