//! The lines of schedules as text.
//!
//! Lines are written here and read, to the byte as tp_model defines them, and a schedule is cut into its
//! lines as a stream gives it. `cutting`, `value` and `keyword` read words, for transcripts too. What a line
//! does is no matter of this crate.
#![tactic(auto)]

pub mod cutting;
pub mod keyword;
pub mod laws;
mod line_end;
mod line_fault;
mod line_reading;
mod lines;
mod lines_fault;
mod schedule_line;
mod schedule_words;
pub mod value;
mod window;

pub use line_fault::LineFault;
pub use line_reading::{read_line, read_line_into};
pub use lines::Lines;
pub use lines_fault::LinesFault;
pub use schedule_line::{put_line, write_line};
