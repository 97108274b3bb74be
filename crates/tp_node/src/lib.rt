//! One node of a site: what it keeps, what it refuses, and each change of it.
//!
//! A node keeps its arcs, its current transaction and the transactions that are kept for their damage. By them
//! it judges an event before anything is tried, and says what comes of a record; and it changes them one step at
//! a time. It knows nothing of the order of these steps in an event, of a log's place, nor of other nodes.
#![tactic(auto)]

mod disposition;
mod event;
mod halt;
mod look;
mod named;
mod node;
mod passage;
mod refusing;
mod spare;
mod state;

pub use event::NodeEvent;
pub use halt::Halt;
pub use named::key_of;
pub use node::Node;
pub use passage::{Passage, is_leaving};
pub use spare::Spare;
pub use state::{NodeState, NodeTree};
