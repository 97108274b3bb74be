//! Worked examples of what nodes force of a tree, and of what they take of an association.
//!
//! Each function has an empty body; its clauses are the example.
ghost use Rattle.std.specs.Prelude.{◌≡◌, ◌&&◌, true, Some, [], ◌∷◌};
ghost use Rattle.tp_names.specs.declared.outcome.Outcome.{Outcome};
ghost use Rattle.tp_names.specs.declared.outcome.Report.{Report};
ghost use Rattle.tp_model.specs.declared.out_line.LogWords.{LogWords};
ghost use Rattle.tp_trials.specs.Trials.{begun, deep_completed, deep_reported, forgotten, rolled_back, departed, told_unknown, holds, is_clear, is_complete, has_rolled, has_gone};
ghost use Rattle.tp_outcome_trials.specs.Telling.{begun_twice, asked_twice, forced_after, root_key, first_key, second_key, taken_after, questions_after};

/// Each of three nodes commits and is complete with no report: the branches forced Ready, Commit and the end, the root Commit
/// and the end.
pub fn a_clear_tree_forces_eight_records()
    ensures clear { (holds is_clear deep_completed 1 && holds is_clear deep_completed 2 && holds is_clear deep_completed 3) ≡ true }
    ensures root { forced_after deep_completed 1 ≡ LogWords.End 1 root_key Outcome.Commit ∷ LogWords.Commit 1 root_key ∷ [] }
    ensures middle { forced_after deep_completed 2 ≡ LogWords.End 2 first_key Outcome.Commit ∷ LogWords.Commit 2 first_key ∷ LogWords.Ready 2 first_key ∷ [] }
    ensures last { forced_after deep_completed 3 ≡ LogWords.End 3 second_key Outcome.Commit ∷ LogWords.Commit 3 second_key ∷ LogWords.Ready 3 second_key ∷ [] }
{}

/// It would be false of each node whose commitment is complete: one that decided by itself forced its decision and its damage.
pub fn a_decided_commitment_forces_more()
    ensures complete { holds is_complete deep_reported 3 ≡ true }
    ensures last { forced_after deep_reported 3
        ≡ LogWords.Damage 3 second_key Outcome.Commit Report.Mix ∷ LogWords.Commit 3 second_key ∷ LogWords.Heuristic 3 second_key
        Outcome.Rollback ∷ LogWords.Ready 3 second_key ∷ [] }
{}

/// That nothing follows damage would be false: the end does, when the superior has told the branch to forget.
pub fn an_end_follows_damage()
    ensures { forced_after forgotten 2
        ≡ LogWords.End 2 first_key Outcome.Commit ∷ LogWords.Damage 2 first_key Outcome.Commit Report.Mix ∷ LogWords.Commit 2
        first_key ∷ LogWords.Heuristic 2 first_key Outcome.Rollback ∷ LogWords.Ready 2 first_key ∷ [] }
{}

/// A root that rolls, and a branch that left, forced nothing; a branch that rolled after its Ready did.
pub fn an_early_rollback_forces_nothing()
    ensures rolls { (holds has_rolled rolled_back 1 && holds has_rolled rolled_back 2) ≡ true }
    ensures root { forced_after rolled_back 1 ≡ [] }
    ensures leaves { holds has_gone departed 2 ≡ true }
    ensures departed { forced_after departed 2 ≡ [] }
    ensures ready { forced_after rolled_back 2 ≡ LogWords.End 2 first_key Outcome.Rollback ∷ LogWords.Ready 2 first_key ∷ [] }
{}

/// A frame of an association that is delivered twice is taken once. Of the records beside associations it would be false: the
/// root takes one question twice.
pub fn a_frame_is_delivered_twice()
    ensures first { taken_after begun 0 ≡ 1 }
    ensures second { taken_after begun_twice 0 ≡ 1 }
    ensures asked { questions_after told_unknown 1 ≡ 1 }
    ensures again { questions_after asked_twice 1 ≡ 2 }
{}
