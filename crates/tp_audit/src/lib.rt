//! A judge of logs: whether two nodes of one tree ended apart, what awaits each node that is still in doubt, and which logs do not
//! belong together, by the records that the logs of several sites have.
#![tactic(auto)]

mod audit;
mod fate;
mod fates;
mod faults;
mod firsts;
mod keys;
pub mod laws;
mod ledger;
mod mismatch;
mod mismatches;
mod roots;
mod site_told;
mod summary;
mod verdict;

pub use audit::Audit;
pub use fate::{Fate, FateState};
pub use faults::AddFault;
pub use mismatch::Mismatch;
pub use verdict::Verdict;
