//! The two calls of a dialogue that answer, with their answers as a character.
ghost use Rattle.std.specs.Prelude.{IsSome};
ghost use Rattle.tp_model.specs.Dialogues.{asked_of, heard_of};

use tp_dialogue::{Dialogue, OutOfPhase, Refusal, Seen};
use tp_model::{Act, Situation};

// The number of a refusal in base 16, 0 where there is none.
fn digit(answer: Result<(), Refusal>) -> u8 {
    match answer {
        Ok(()) => b'0',
        Err(Refusal::TooMany) => b'd',
        Err(refusal) => refusal.number().saturating_add(b'0'),
    }
}

/// The number of the refusal in base 16, 0 where the request is not refused, and `?` where there is none of that code.
pub(crate) fn request(arc: &mut Dialogue, s: Situation, act: Act) -> u8 {
    if act.code < 4 || act.code > 16 {
        return b'?';
    }
    digit(arc.request(s, act))
}

fn sight(answer: Result<Seen, OutOfPhase>) -> u8 {
    match answer {
        Ok(Seen::Told) => b'a',
        Ok(Seen::Nothing) => b'n',
        Err(OutOfPhase) => b'x',
    }
}

/// `a` where the record acts, `n` where nothing happens, `x` where it is out of phase, and `?` where there is none of
/// that code.
pub(crate) fn arrive(arc: &mut Dialogue, s: Situation, act: Act) -> u8 {
    if act.code < 1 || act.code > 11 || act.code == 4 {
        return b'?';
    }
    sight(arc.arrive(s, act))
}
