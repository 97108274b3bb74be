//! Lanes beside each other.

/// Lanes beside each other: the places of the first and of the last, counted from 0.
#[derive(Clone, Copy)]
pub(crate) struct Places {
    pub first: usize,
    pub last: usize,
}
