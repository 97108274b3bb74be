//! The states of a link.

/// In which state an end of an association is.
#[derive(Clone, Copy, Debug, PartialEq, Eq)]
pub enum LinkState {
    /// There is no association.
    Idle,
    /// This end has called, and waits for the answer.
    Opening,
    /// The peer has called, and waits for the answer.
    Offered,
    /// Both marks are known; records go both ways.
    Live,
}
