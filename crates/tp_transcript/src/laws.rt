//! The law of the texts of lines.
//!
//! The function has an empty body; its clause is the law.
ghost use Rattle.std.specs.Prelude.{◌≡◌, true};
ghost use Rattle.tp_model.specs.declared.out_line.OutLine.{OutLine};
ghost use Rattle.tp_model.specs.OutText.{out_text};
ghost use Rattle.tp_transcript.specs.OutHasText.{out_has_text};

// Promise 2.25: No two lines of a transcript that have a text have the same one
/// The text of a line of a transcript has one value: no two such lines that have a text have the same.
pub fn an_out_text_has_one_value()
    ensures { (o p : OutLine) → out_has_text o ≡ true → out_has_text p ≡ true → out_text o ≡ out_text p → o ≡ p }
{}
