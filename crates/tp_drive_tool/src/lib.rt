//! Workers on one locked log that are given the events of a stream of frames, and write the outputs as frames: what `tpdrive`
//! does.
//!
//! [`run_drive`] reads the whole stream, starts a site on the log of a disk, has its workers do the events, and then writes
//! the outputs of all. What one thread puts out is defined by `tp_model`, and what workers leave of a log by `tp_drive`.
#![tactic(auto)]

mod driving;
mod reading;
mod running;
mod status;
mod text;

pub use running::run_drive;
pub use status::Status;
