//! What awaits a node that is in doubt.
use tp_names::{Addr, NodeKey};

/// What the log of a superior's site tells a node that is in doubt.
#[derive(Clone, Copy, Debug, PartialEq, Eq)]
pub enum FateState {
    /// The superior committed: the node will be told commit.
    Commit,
    /// The superior is in doubt itself: the node is to ask again later.
    RetryLater,
    /// The superior knows of no commitment: the node will roll back.
    Unknown,
    /// The log of the superior's site was not added.
    Absent,
}

/// A node whose last record of a key is a Ready or a Heuristic, and what awaits it there.
#[derive(Clone, Copy, Debug, PartialEq, Eq)]
pub struct Fate {
    pub node: Addr,
    pub key: NodeKey,
    pub state: FateState,
}
