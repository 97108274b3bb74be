//! A world of nodes under a written schedule: sites with their logs in memory, frames between nodes, and trees. What a line does
//! stands with the definitions. No history is kept, but the few facts that the closing lines ask; and no member is there.
#![tactic(auto)]

mod event;
mod play;
mod restart;
mod stop;
mod world;

pub use tp_world_sites::WorldFault;
pub use world::{World, is_silent};
