//! Workers on one log: each has the nodes of one lane, and the outputs are those of one thread.
#![tactic(auto)]

mod answering;
mod begun;
mod crew;
mod driven;
mod ending;
mod event_nodes;
mod finish;
mod gate;
mod lane;
pub mod laws;
mod merge;
mod outputs;
mod queue;
mod run;
mod stop;
mod workers;
mod workers_on_log;

pub use driven::{DriveFault, Driven};
pub use gate::{Gate, OpenGate};
pub use outputs::OutputsByEvent;
pub use stop::{Cause, Stop};
pub use workers_on_log::drive;
