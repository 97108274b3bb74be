//! The audit of logs that come in frames: each log is read on a disk of its own, and the verdict over all of them and the fate
//! of each node that is in doubt are written as lines.
#![tactic(auto)]

mod adding;
mod command;
mod frame;
mod hearing;
mod lines;

pub use command::{Audited, audit};
