//! Worked examples of what nodes force, start and take, and of what their users are told, computed by the prover from the
//! definitions: runs in which those laws say something, and where a stronger statement would be false. Each is the contract
//! of a function with an empty body.
#![tactic(auto)]

pub mod alarm_trials;
pub mod forced_trials;
pub mod told_trials;
