//! The loop of a site that is given events by a stream of frames, and writes its outputs as frames: what `node` does.
//!
//! [`serve`] starts a site on the log of a disk and answers each event that the source says, in order. The record of an event
//! is forced before any byte of its outputs is written; the records of all events that are at hand are forced at once. `tp_model` defines what is written, what ends it and which log is
//! left; `specs` says what a crash leaves of the log. It takes memory for the log and for the nodes, and none by the length
//! of its input.
#![tactic(auto)]

mod answering;
mod outgoing;
mod serving;
mod starting;

pub use outgoing::put_outputs;
pub use serving::{serve, write_settled};
pub use starting::start;
