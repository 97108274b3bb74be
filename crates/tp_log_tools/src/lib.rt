//! Commands over the log on a disk: what is shown and checked of it, and what is left when it is compacted or brought to
//! version 2.
//!
//! `tp_model` defines what each of them writes and leaves. A log whose records do not follow each other is foreign at the
//! first that does not. [`laws`] says that a start of a log finds what the definitions read.
#![tactic(auto)]

mod checking;
mod compacting;
pub mod laws;
mod migrating;
mod opening;
mod output;
mod showing;

pub use checking::check;
pub use compacting::compact;
pub use migrating::migrate;
pub use opening::open_log;
pub use showing::show;
