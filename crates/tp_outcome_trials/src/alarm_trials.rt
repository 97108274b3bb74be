//! Worked examples of where reports come from.
//!
//! Each function has an empty body; its clauses are the example.
ghost use Rattle.std.specs.Prelude.{◌≡◌, ◌&&◌, not, true, false, Some, None};
ghost use Rattle.tp_names.specs.declared.outcome.Outcome.{Outcome};
ghost use Rattle.tp_names.specs.declared.outcome.Report.{Report};
ghost use Rattle.tp_trials.specs.Trials.{deep_reported, deep_completed, holds, decision_after};
ghost use Rattle.tp_outcome_trials.specs.Telling.{given_up, deep_mixed, late_mix, backed, commits_with, rolls_with, hears_of, gave_up, was_replied};

/// The last of three nodes decides to roll back by itself: it completes with mix, and so do those above it, who heard of it.
/// That mix is told only where the node itself decided would be false; and so would it that mix comes from a branch that was given
/// up, as none was.
pub fn mix_comes_from_below()
    ensures last { (holds (commits_with Report.Mix) deep_reported 3 && not (holds (hears_of Report.Mix) deep_reported 3)) ≡ true }
    ensures decided { decision_after deep_reported 3 ≡ Some Outcome.Rollback }
    ensures middle { (holds (commits_with Report.Mix) deep_reported 2 && holds (hears_of Report.Mix) deep_reported 2) ≡ true }
    ensures undecided { decision_after deep_reported 2 ≡ None }
    ensures root { (holds (commits_with Report.Mix) deep_reported 1 && not (holds gave_up deep_reported 1) && not (holds was_replied deep_reported 1)) ≡ true }
    ensures kept { (not (holds gave_up deep_reported 1) && not (holds gave_up deep_reported 2) && not (holds gave_up deep_reported 3)) ≡ true }
    ensures none { (not (holds (commits_with Report.Mix) deep_completed 1) && not (holds (hears_of Report.Mix) deep_completed 1)) ≡ true }
{}

/// The last of three nodes decides to roll back by itself and stops: its report comes to the second as a reply, and goes on to
/// the root. That a report which came as a reply has no cause among the nodes would be false; and so would it that the node which
/// took the reply, or the one above it, decided anything itself or gave up a branch.
pub fn mix_comes_as_a_reply()
    ensures last { (holds (commits_with Report.Mix) deep_mixed 3 && not (holds (hears_of Report.Mix) deep_mixed 3)) ≡ true }
    ensures decided { decision_after deep_mixed 3 ≡ Some Outcome.Rollback }
    ensures middle { (holds (commits_with Report.Mix) deep_mixed 2 && holds was_replied deep_mixed 2 && not (holds gave_up deep_mixed 2)) ≡ true }
    ensures undecided { decision_after deep_mixed 2 ≡ None }
    ensures root { (holds (commits_with Report.Mix) deep_mixed 1 && not (holds was_replied deep_mixed 1) && not (holds gave_up deep_mixed 1)) ≡ true }
    ensures above { decision_after deep_mixed 1 ≡ None }
{}

/// The second of three nodes gives up its branch: it completes with hazard, and so does the root, which heard of it and gave
/// up nothing. That hazard is told only where the node itself gave up a branch would be false; and so would it that hazard comes from
/// a decision, as no node decided.
pub fn hazard_comes_from_below()
    ensures middle { (holds (commits_with Report.Hazard) given_up 2 && holds gave_up given_up 2) ≡ true }
    ensures root { (holds (commits_with Report.Hazard) given_up 1 && holds (hears_of Report.Hazard) given_up 1) ≡ true }
    ensures kept { holds gave_up given_up 1 ≡ false }
    ensures first { decision_after given_up 1 ≡ None }
    ensures second { decision_after given_up 2 ≡ None }
    ensures third { decision_after given_up 3 ≡ None }
{}

/// The second of three nodes gives up the last, which decided to roll back by itself, and its user is told hazard alone; then it learns
/// of the mix and says so to the root, whose commitment is complete with mix. That a branch says no report but the one that its user
/// was told would be false.
pub fn mix_comes_late()
    ensures last { holds (commits_with Report.Mix) late_mix 3 ≡ true }
    ensures decided { decision_after late_mix 3 ≡ Some Outcome.Rollback }
    ensures middle { (holds (commits_with Report.Hazard) late_mix 2 && not (holds (commits_with Report.Mix) late_mix 2) && holds gave_up late_mix 2) ≡ true }
    ensures undecided { decision_after late_mix 2 ≡ None }
    ensures root { (holds (commits_with Report.Mix) late_mix 1 && not (holds gave_up late_mix 1)) ≡ true }
    ensures above { decision_after late_mix 1 ≡ None }
{}

/// A branch that decided to commit by itself rolls with its superior: its rollback is complete with mix, and so is that of its
/// superior, which decided nothing. That a rollback is complete with mix only where the node itself decided would be false.
pub fn a_rollback_is_mixed()
    ensures mixed { holds (rolls_with Report.Mix) backed 2 ≡ true }
    ensures decided { decision_after backed 2 ≡ Some Outcome.Commit }
    ensures root { (holds (rolls_with Report.Mix) backed 1 && holds (hears_of Report.Mix) backed 1) ≡ true }
    ensures undecided { decision_after backed 1 ≡ None }
    ensures hazard { (not (holds (rolls_with Report.Hazard) backed 1) && not (holds (rolls_with Report.Hazard) backed 2)) ≡ true }
{}
