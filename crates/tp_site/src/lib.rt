//! The nodes of one site, over a keeper of its log.
//!
//! An event is prepared, and then it is carried out, for every caller by the same two functions. `Site::prepare` works out what
//! it says and what it changes, on a draft: a copy of its node, and the record that is to be forced. All memory is taken
//! there, before anything is so. `Site::carry_out` forces the record, and the draft takes the node's place. A Ready or a Done
//! that is only noted, and a Begin, force no record: they run on the node itself, which takes no memory.
#![tactic(auto)]

mod faults;
mod in_place;
mod nodes;
mod outputs;
mod prepared;
mod recalled;
mod site;

pub use faults::{SiteFault, StartFault};
pub use recalled::Recalled;
pub use site::{Played, Site};
pub use tp_node::{NodeEvent, NodeState, NodeTree};
pub use tp_node_state::{Out, Outs};
