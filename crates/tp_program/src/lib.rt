//! What the programs share: how they come to their words, and how they end. No clause here says what the system does.
#![tactic(auto)]

mod no_run;
mod program;

pub use no_run::NoRun;
pub use program::Program;
