//! The lines of transcripts as text, and the records of a log as their words show them.
//!
//! Both are written here, and the lines read, to the byte as tp_model defines them. What a line says of a
//! world is no matter of this crate.
#![tactic(auto)]

mod cutting;
pub mod laws;
mod log_words;
mod out_kinds;
mod out_line;
mod out_reading;
mod out_values;
mod sent_words;
mod told_words;

pub use log_words::{put_key, put_rec, write_aaid, write_key, write_rec};
pub use out_line::{put_out, write_out};
pub use out_reading::read_out;
