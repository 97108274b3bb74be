//! Demarcation for a root's program, after the TX interface in outline: begin, commit, rollback and finish, over a site.
//!
//! A face holds the site, and stands for one node of it, which has no superior. It keeps the order of the calls: each is taken where
//! the node's current transaction stands as it asks for, and then is one event of the site; else nothing changes. It tells where the
//! transaction stands, and how the last one that was complete ended.
#![tactic(auto)]

mod code;
mod face;
mod fault;
mod stand;

pub use code::Code;
pub use face::Face;
pub use fault::FaceFault;
pub use stand::Stand;
