//! Worked examples of what a commitment with no report tells: runs in which the laws of reports say something, and ones that
//! are near to them.
//!
//! Each function has an empty body; its clauses are the example.
ghost use Rattle.std.specs.Prelude.{◌≡◌, ◌&&◌, true, false, Some, [], ◌∷◌, reverse};
ghost use Rattle.tp_names.specs.declared.outcome.Outcome.{Outcome};
ghost use Rattle.tp_model.specs.declared.out_line.OutLine.{OutLine};
ghost use Rattle.tp_model.specs.Happenings.{run};
ghost use Rattle.tp_model.specs.Trees.{closing};
ghost use Rattle.tp_trials.specs.Trials.{tree, deep_completed, deep_done, deep_replied, deep_reported, forgotten, holds, in_tree, has_said_done, has_said_done_below, is_branch_of_first, is_branch_of_second, is_clear, is_complete, is_first_root, told_after};

/// A root over two levels of branches completes with no report, and all three nodes are told commit.
pub fn a_tree_completes_with_no_report()
    ensures family { (is_branch_of_first deep_completed && is_branch_of_second deep_completed && holds in_tree deep_completed 3) ≡ true }
    ensures root { (holds is_first_root deep_completed 1 && holds is_clear deep_completed 1) ≡ true }
    ensures first { told_after deep_completed 1 ≡ Some Outcome.Commit }
    ensures second { told_after deep_completed 2 ≡ Some Outcome.Commit }
    ensures third { told_after deep_completed 3 ≡ Some Outcome.Commit }
{}

/// The last node decided to roll back: not all are told commit. The root completes too, but with a report.
pub fn a_decision_is_reported_at_the_root()
    ensures family { (is_branch_of_first deep_reported && is_branch_of_second deep_reported && holds is_first_root deep_reported 1) ≡ true }
    ensures decides { told_after deep_reported 3 ≡ Some Outcome.Rollback }
    ensures completes { holds is_complete deep_reported 1 ≡ true }
    ensures reports { holds is_clear deep_reported 1 ≡ false }
{}

/// The same where the last node stopped, and its Done comes as a reply, beside the associations: no report either, and all three
/// nodes are told commit, as the closing line says.
pub fn a_tree_completes_by_a_reply()
    ensures family { (is_branch_of_first deep_replied && is_branch_of_second deep_replied && holds in_tree deep_replied 3) ≡ true }
    ensures root { (holds is_first_root deep_replied 1 && holds is_clear deep_replied 1) ≡ true }
    ensures below { (holds is_clear deep_replied 2 && holds is_clear deep_replied 3 && holds has_said_done_below deep_replied 3) ≡ true }
    ensures third { told_after deep_replied 3 ≡ Some Outcome.Commit }
    ensures agreed { closing (run (reverse deep_replied)) ≡ OutLine.Agreed tree Outcome.Commit ∷ [] }
{}

/// A branch with a branch of its own says Done with no report, and its superior has not completed: both are told commit.
pub fn a_done_speaks_for_two_nodes()
    ensures family { (is_branch_of_first deep_done && is_branch_of_second deep_done && holds in_tree deep_done 3) ≡ true }
    ensures goes_on { holds is_complete deep_done 1 ≡ false }
    ensures said { holds has_said_done deep_done 2 ≡ true }
    ensures second { told_after deep_done 2 ≡ Some Outcome.Commit }
    ensures third { told_after deep_done 3 ≡ Some Outcome.Commit }
{}

/// A branch that rolled back by its own decision says Done with no report too, when it has forgotten: not all are told commit. By
/// then its superior has completed, with a report.
pub fn a_forgotten_branch_says_done()
    ensures family { (is_branch_of_first forgotten && holds in_tree forgotten 2) ≡ true }
    ensures said { holds has_said_done forgotten 2 ≡ true }
    ensures told { told_after forgotten 2 ≡ Some Outcome.Rollback }
    ensures completes { holds is_complete forgotten 1 ≡ true }
    ensures reports { holds is_clear forgotten 1 ≡ false }
{}
