//! A network of nodes: who is declared where, the frames between them, and what each node did in each tree.
//!
//! A world keeps this beside its sites. Nothing is known here of a site's log, nor of the lines of a schedule; of a node's
//! history only that is kept which the closing lines ask.
#![tactic(auto)]

mod fault;
mod frame_record;
mod frames;
mod nodes;
mod queue;
mod run;
mod tree_key;
mod tree_outcomes;
mod tree_summaries;
mod tree_summary;
mod waiting;

pub use fault::SendFault;
pub use frame_record::{DialogueWord, FrameRecord};
pub use frames::{Frame, Frames};
pub use nodes::{NodeSlot, Nodes};
pub use tree_outcomes::{OutcomesByTree, TreeOutcomes};
pub use tree_summaries::TreeSummaries;
pub use tree_summary::{TreeChange, TreeSummary, is_in};
