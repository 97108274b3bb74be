//! What the programs of a site do at its log: its seals, and what it starts with, in a line for whoever watches. What is counted is told
//! of the list of records; no clause speaks of the line.
#![tactic(auto)]

mod beginning;
mod doubts;
mod log_files;
mod watched;

pub use beginning::Beginning;
pub use log_files::{LOG, SEALS, bar, greet, renew};
