//! Laws of the definitions. The bodies are empty: each contract is the law.
ghost use Rattle.std.specs.Prelude.{◌≡◌, ℕ, List};
ghost use Rattle.tp_framing.specs.Frames.{Rest};
ghost use Rattle.tp_model.specs.NodeTranscript.{input_from};
ghost use Rattle.tp_streams.specs.Events.{events_from};

// Promise 2.31, part 2
/// With at most a million events the input is the model's.
pub fn a_million_events()
    ensures { (at declares : ℕ) (bodies : List (List ℕ)) (rest : Rest) → events_from 1000000 at declares bodies rest ≡ input_from at declares bodies rest }
{}
