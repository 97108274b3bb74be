//! Worked examples of the laws, computed by the prover from the definitions: that their premises can be met, and where a
//! stronger statement would be false. Each is the contract of a function with an empty body.
#![tactic(auto)]

pub mod arc_trials;
pub mod control_trials;
pub mod drained_node_trials;
pub mod drained_trials;
pub mod known_trials;
pub mod outcome_trials;
pub mod report_trials;
pub mod seen_trials;
pub mod site_log_trials;
pub mod trials;
pub mod troubled_trials;
