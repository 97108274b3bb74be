//! A value that threads take in turn, and what each of them has put there.
#![tactic(auto)]

mod knows;
mod turns;

pub use knows::{Claim, Knows};
pub use turns::{InTurn, Lists, Pass, Turns};
