//! Functional units of a dialogue, and which of them go together.
//!
//! It knows nothing of dialogues, nor of what a unit allows.
#![tactic(auto)]

mod units;

pub use units::{
    BadUnits, CHAINED, COMMIT, HANDSHAKE, POLARIZED, SHARED, UNCHAINED, Units, choose,
    refused_exactly_where_not_permitted,
};
