//! What a node keeps, but for its current transaction: its arcs and its kept transactions, which copies of the node share
//! with it, the outputs of an event, and copies of what they say.
//!
//! An arc is found by its peer's number, and a kept transaction by its key. Each change is that of the definitions, and
//! stands aside until no copy has the rest. Nothing here knows of other nodes, nor of a log's place.
#![tactic(auto)]

mod ages;
mod arc_step;
mod arcs;
mod change;
pub mod copies;
mod directory;
pub mod kept;
mod kept_map;
mod kept_table;
mod outs;
mod shared_arcs;
mod tree_key;

pub use arc_step::{ArcStep, is_granting};
pub use kept_table::KeptTable;
pub use outs::{Next, Out, Outs};
pub use shared_arcs::{SharedArcs, next_on, release, sent};
