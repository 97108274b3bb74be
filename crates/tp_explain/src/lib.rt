//! Why a line of a schedule is bad, in words: which word is wrong and what is due there, or what it names that is not there.
//!
//! What is said is worked out from the bytes that were read, by the same reading of words; the verdict itself is never made
//! here. No clause speaks of what is said.
#![tactic(auto)]

mod absent;
mod declared;
mod due;
mod explanation;
mod lines;
mod remembering;
mod walk;

pub use absent::Absent;
pub use due::Due;
pub use explanation::{Explanation, explain};
pub use remembering::Remembering;
