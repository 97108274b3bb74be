//! The definitions of the service, and the types that several crates share.
//!
//! The definitions stand in `specs/`: what a node is, what a world of nodes does under a written
//! schedule, and which bytes its transcript has, as functions that compute. `examples`,
//! `byte_examples` and `node_examples` compute them on worked examples; `laws` says what holds of them
//! by their form. No code of the service stands here, and no journal: what code does is to equal these
//! definitions.
#![tactic(auto)]

mod arc;
pub mod byte_examples;
mod disposition;
pub mod examples;
pub mod laws;
mod line;
pub mod node_examples;
mod node_numbers;
mod out_line;
mod out_lines;
mod recovery;
mod refusal;
mod transaction;
mod tx_outs;
mod verdict;

pub use arc::{Act, Deferral, Phase, Side, Situation};
pub use disposition::Disposition;
pub use line::{Action, Line, LineRequest};
pub use node_numbers::NodeNumbers;
pub use out_line::{LogWords, OutLine, PhaseWord, RecordFate, SentWords};
pub use out_lines::OutLines;
pub use recovery::{Kept, KeptEvent, Known, Question};
pub use refusal::Refusal;
pub use transaction::{Step, TxEvent, TxFault, TxOut};
pub use tx_outs::TxOuts;
pub use verdict::{What, Why};
