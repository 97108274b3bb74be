//! The records of a site's log: their texts in both versions of a log, which record may follow
//! which, and what of a list still stands.
//!
//! The text of a whole log is defined in specs, with its laws. How it reaches a disk is no matter
//! of this crate.
#![tactic(auto)]

mod bindings;
mod decode;
mod encode;
pub mod laws;
mod lives;
mod order;
mod order_check;
mod owner;
mod recent;
mod recent_keys;
mod record;
mod rules;
mod same;
mod summary;

pub use decode::decode_log;
pub use encode::encode_log;
pub use order::follows;
pub use order_check::OrderCheck;
pub use owner::Owner;
pub use record::{LogRec, LogVersion};
pub use summary::brief;
