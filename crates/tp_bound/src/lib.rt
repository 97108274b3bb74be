//! A store of keys and values that is bound to the transactions of one node.
//!
//! What a transaction writes stands in a log before its outcome is known, and is made once the log says that it is kept.
#![tactic(auto)]

mod body;
mod bound;
mod content;
mod current;
mod decode;
mod encode;
mod laws;
mod store;
mod write;

pub use bound::Bound;
pub use laws::{
    a_file_opens_to_one_content, a_write_changes_its_key_alone, bodies_have_texts,
    the_content_is_of_the_committed_branches, the_content_is_what_was_kept,
};
