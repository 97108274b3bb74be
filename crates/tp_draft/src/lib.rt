//! What an event makes of a node, before any of it is so.
//!
//! An event runs on a draft: a copy of its node, the record that is to be forced, and the outputs. All
//! memory is taken there. What a rule does stands with the definitions of the service, and a draft is what
//! they call a move.
#![tactic(auto)]

mod answer;
mod arrival;
mod draft;
mod loss;
mod recovery;

pub use answer::breaks;
pub use draft::Draft;
