//! One dialogue, at one of its ends: control, handshake, deferral and rest.
//!
//! It judges what its user asks and what its peer sends, by the tables of the service, and keeps what
//! they change. It knows of its node only the situation that is handed in; it sends nothing, numbers
//! nothing, and knows nothing of transactions.
#![tactic(auto)]

mod dialogue;
mod kinds;
mod refused;

pub use dialogue::{Dialogue, Seen};
pub use kinds::{Asked, Heard};
pub use refused::OutOfPhase;
pub use tp_model::Refusal;
