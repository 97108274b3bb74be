//! Numbers of nodes.
use tp_names::Sequence;

/// A list of numbers of nodes.
pub type NodeNumbers = Sequence<u16>;
