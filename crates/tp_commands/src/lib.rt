//! The commands of `tpnode`, over source, sink and disk: which one the words ask for, what it does, and how it ends.
#![tactic(auto)]

mod auditing;
mod listing;
mod logs;
mod serving;
mod top;
mod transacting;

pub use auditing::audit_logs;
pub use top::run;
