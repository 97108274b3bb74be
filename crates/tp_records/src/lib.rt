//! What passes between users, nodes and peers: requests, indications, records, events, outputs.
//!
//! The types and their bytes, both ways. What a record does at a node is no matter of this crate.
#![tactic(auto)]

mod body;
mod coding;
mod dialogue;
mod fields;
mod indication;
mod member;
mod outputs;
mod peer;
mod request;
mod votes;

pub use body::bytes::write_output;
pub use body::{Body, Event, Output};
pub use coding::{decode_body, decode_peer, encode_body, encode_peer, texts_are_grammars};
pub use dialogue::{DialogueRecord, Holder};
pub use indication::Indication;
pub use member::Member;
pub use outputs::Outputs;
pub use peer::{PeerRecord, RecState};
pub use request::Request;
pub use tp_names::RecordFault;
pub use votes::{Unwilling, Willing};
