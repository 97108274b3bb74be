//! What a store of keys and values holds, written as lines of text.
#![tactic(auto)]

mod line;
mod listing;
mod print;

pub use listing::keys;
