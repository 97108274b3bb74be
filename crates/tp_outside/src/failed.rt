//! The one way in which a call of the outside fails.

/// A call that failed. The count of faults of what was called rose in it.
#[derive(Clone, Copy, Debug, PartialEq, Eq)]
pub struct Failed;
