//! Where a line ends.

/// How the line at the front of the bytes at hand ends.
#[derive(Clone, Copy)]
pub(crate) enum LineEnd {
    /// A line feed, after so many bytes.
    Feed(usize),
    /// The input is at its end.
    Input,
    /// Not among the bytes at hand, which are more than a line may have.
    Far,
}
