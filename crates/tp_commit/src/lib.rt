//! The current transaction of a node.
//!
//! It keeps the transaction's key, its phase and its branches, and says of each event what it asks for: at
//! most one record of the log, and outputs in order. It sees of its arcs only whether they are live and
//! whether they end with it; it numbers nothing, sends nothing and forces nothing.
#![tactic(auto)]

mod branch;
mod change;
mod course;
mod disposition;
pub mod laws;
mod plan;
mod refusal;
mod row;
mod row_list;
mod rows;
mod rule;
mod step;

pub use branch::Branch;
