//! The law of the texts of lines.
//!
//! The function has an empty body; its clause is the law.
ghost use Rattle.std.specs.Prelude.{◌≡◌, true};
ghost use Rattle.tp_model.specs.declared.line.Line.{Line};
ghost use Rattle.tp_model.specs.LineText.{line_text};
ghost use Rattle.tp_model.specs.LineReading.{read_line, Says};
ghost use Rattle.tp_schedule.specs.HasText.{line_has_text};

// Promise 2.23: The text of a line of a schedule that has one reads back to the line
/// The text of a line of a schedule reads back to that line, where the line has a text: so no two
/// such lines have one text.
pub fn lines_read_back()
    ensures { (l : Line) → line_has_text l ≡ true → read_line (line_text l) ≡ Says l }
{}
