//! One end of an association between two nodes.
//!
//! An association is named by two marks: the caller's and the answerer's. It knows in which state its
//! end is and how many records went each way, and so which record it takes next. It knows nothing of
//! what records say, of who the peer is, nor of when records are sent.
#![tactic(auto)]

mod dropped;
mod link;
mod state;

pub use dropped::Dropped;
pub use link::Link;
pub use state::LinkState;
