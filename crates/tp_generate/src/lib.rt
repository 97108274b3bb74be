//! Schedules that are made of a number.
//!
//! [`schedule_of`] gives the schedule of a number, with so many nodes and so many rounds, and [`make`] writes it.
//! [`write_summary`] puts into words what its replay came to; how it is replayed is no matter of this crate.
#![tactic(auto)]

mod draws;
mod lines;
mod making;
mod part;
mod schedule;
mod summary;
mod writing;

pub use making::schedule_of;
pub use schedule::Schedule;
pub use summary::write_summary;
pub use writing::make;
