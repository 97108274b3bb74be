//! The dialogues of one node: its superior, its arcs in the order in which they were asked for, and
//! their associations.
//!
//! Memory for every subordinate is taken at the start, and none later; a copy has memory for its arcs alone. It finds, adds and takes away arcs;
//! what is said on them, and when an arc goes, it is told by its caller.
#![tactic(auto)]

mod invocation;
mod tie;

pub use invocation::Invocation;
pub use tie::Tie;
