//! Control of dialogues over whole runs: who holds it, by the words that the two ends said.
//!
//! Each function has an empty body; its clause is the law, or, of the last one, a run in which the laws say something.
ghost use Rattle.std.specs.Prelude.{◌≡◌, ◌&&◌, not, true};
ghost use Rattle.tp_control.specs.Control.{returned};
ghost use Rattle.tp_trials.specs.Trials.{granted, handed_back, holds, has_control, gave_behind, gave_back};

/// The branch grants control back in the transaction in which it was given: the superior end holds it, has given once and
/// taken once in the round that is not answered, and the other end holds none.
pub fn control_is_handed_back()
    ensures given { (holds has_control granted 2 && not (holds has_control granted 1)) ≡ true }
    ensures returned { (holds has_control handed_back 1 && not (holds has_control handed_back 2)) ≡ true }
    ensures counted { (holds (gave_behind 0 1) handed_back 1 && holds (gave_back 1) handed_back 1) ≡ true }
{}
