//! Which records have a text: those of a log in a version of it, and those that go from node to node.
//!
//! A value is read back from its bytes if its numbers, its names and its lists are within their bounds. The types of most
//! values allow no others, and a function that answers nothing shows that of its type; what is left is tested.
#![tactic(auto)]

mod log_texts;
mod parts;
mod peer_reading;
mod peer_texts;
mod peer_writing;
mod shaped_texts;

pub use log_texts::has_text;
pub use peer_reading::read_whole_peer;
pub use peer_texts::few_has_text;
pub use peer_writing::peer_octets;
pub use shaped_texts::shaped_has_text;
