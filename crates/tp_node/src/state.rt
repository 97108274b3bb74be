//! What is shown of a node.
use tp_model::Phase;
use tp_names::Aaid;

/// What is shown of a node: where it stands in its current transaction, whether it has asked, whether its
/// user owes done, and how many transactions are kept.
#[derive(Clone, Copy, Debug, PartialEq, Eq)]
pub struct NodeState {
    pub phase: Phase,
    pub asked: bool,
    pub owes: bool,
    pub kept: u64,
}

/// The tree of a node's current transaction, whether the node is its root, and where it stands there.
#[derive(Clone, Copy, Debug, PartialEq, Eq)]
pub struct NodeTree {
    pub aaid: Aaid,
    pub is_root: bool,
    pub phase: Phase,
}
