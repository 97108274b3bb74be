//! The loop of a face that is given calls and events by a stream of frames: what `tx` does.
//!
//! [`transact`] starts a site on the log of a disk, makes a face of its node 1, and answers each frame of the source in order. Each
//! answer ends with where the program stands and the code of the last completion. The record of an event is forced before any byte of
//! its outputs is written.
#![tactic(auto)]

mod admission;
mod answering;
mod frame;
mod serving;

pub use frame::Frame;
pub use serving::transact;
