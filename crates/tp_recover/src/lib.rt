//! Recovery: answers to questions after a loss, and transactions that are kept for their damage.
//!
//! It knows of its node only what is handed in, one transaction at a time. It keeps nothing, and knows
//! nothing of associations, of a log's place, nor of who may ask.
#![tactic(auto)]

mod kept;
mod question;

pub use kept::{forget_to, owed, refused, settle, step};
pub use question::answer;
