//! Text that is written piece by piece, and fails at its end.
//!
//! A `Text` takes the bytes that are to stay first, then words, numbers, octets and names, each to the byte as tp_model defines
//! it. None of these calls fails: where memory was wanting, `done` says so, and gives back the bytes that were there before.
#![tactic(auto)]

mod names;
mod numbers;
mod text;

pub use text::Text;
