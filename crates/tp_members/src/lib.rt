//! Laws of schedules with members: against the schedule in which members' answers are written out, and against runs.
//! Each is the contract of a function with an empty body; two worked examples stand after them.
#![tactic(auto)]

ghost use Rattle.std.specs.Prelude.{◌≡◌, ◌∷◌, Some, None, [], true, map};
ghost use Rattle.tp_names.specs.declared.outcome.Outcome.{Outcome};
ghost use Rattle.tp_model.specs.World.{empty_world};
ghost use Rattle.tp_model.specs.Trees.{closing};
ghost use Rattle.tp_model.specs.Transcript.{transcript_with, Done};
ghost use Rattle.tp_model.specs.Lines.{Name};
ghost use Rattle.tp_model.specs.Expand.{played_all, expanded};
ghost use Rattle.tp_members.specs.Expansion.{lines_in};
ghost use Rattle.tp_members.specs.Schedules.{as_text, driven_branch, its_answers, written_out, has_refusal, agreed_on};

/// A member drives a branch, which commits. One of its answers is refused, and stands in the expansion all the same. The
/// worlds differ in the members alone.
pub fn a_member_drives_a_branch()
    ensures reads { lines_in as_text ≡ driven_branch }
    ensures ends { (transcript_with 1 as_text its_answers).ending ≡ Done }
    ensures expands { expanded 1 driven_branch its_answers ≡ written_out }
    ensures goes_on { (played_all 1 its_answers empty_world driven_branch).fault ≡ None }
    ensures shown { (played_all 0 [] empty_world written_out).lines ≡ (played_all 1 its_answers empty_world driven_branch).lines }
    ensures refused { has_refusal (played_all 0 [] empty_world written_out).lines ≡ true }
    ensures commits { map agreed_on (closing (played_all 1 its_answers empty_world driven_branch).world) ≡ Some Outcome.Commit ∷ [] }
    ensures dropped { (played_all 1 its_answers empty_world driven_branch).world.dropped ≡ 1 ∷ [] }
    ensures nobody { (played_all 0 [] empty_world written_out).world.dropped ≡ [] }
{}

/// Without that member the line that names it ends the run. The expansion does not have that line, and goes on to its end.
pub fn no_member_is_there()
    ensures ends { (played_all 0 its_answers empty_world driven_branch).fault ≡ Some Name }
    ensures goes_on { (played_all 0 [] empty_world (expanded 0 driven_branch its_answers)).fault ≡ None }
{}
