//! One log that threads take in turn, and shares of it that force records from several threads.
//!
//! It starts no thread, and says nothing of the order of different shares' records.
#![tactic(auto)]

mod closing;
mod locked;
mod share;
mod shared_log;
mod slip;
mod spent;
mod stood;
mod unfit;

pub use share::LogShare;
pub use shared_log::SharedLog;
pub use slip::Slip;
pub use spent::Spent;
pub use stood::Stood;
pub use unfit::Unfit;
