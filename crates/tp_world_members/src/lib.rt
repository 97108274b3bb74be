//! A world in which members drive nodes: what a line tells the nodes that are driven is put to their members, and what they
//! ask for is run as lines of its own.
#![tactic(auto)]

mod answers;
mod driven_world;
mod members;
mod requests;

pub use driven_world::DrivenWorld;
pub use tp_world::is_silent;
