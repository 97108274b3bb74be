//! The words of the command line, and what they ask for.
//!
//! `read` makes a `Command` of the words after the name of `tpnode`, by the kit's `clap`, and `read_drive` a `Drive` of those
//! after the name of `tpdrive`. `complaint` and `drive_complaint` say what is wrong with words that are neither. `USAGE` and
//! `DRIVE_USAGE` are the texts that say what can be typed. What is done then is no matter of this crate.
#![tactic(auto)]

mod command;
mod command_line;
mod complaints;
mod drive;
mod drive_line;
mod fault;
mod laws;
mod usage;

pub use command::{Command, Plan};
pub use command_line::read;
pub use complaints::{complaint, drive_complaint};
pub use drive::Drive;
pub use drive_line::read_drive;
pub use fault::WordsFault;
pub use laws::plain_words_are_taken;
pub use usage::{DRIVE_USAGE, USAGE};
