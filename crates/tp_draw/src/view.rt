//! The part of a transcript that a picture shows.

/// The part of a transcript that a picture shows, and the text beside it.
#[derive(Clone, Copy)]
pub(crate) struct View {
    /// The row of the first line that is shown, counted from 0.
    pub from: usize,
    /// The row after the last one.
    pub to: usize,
    /// All lines have their text; else the events of the schedule and the outcomes of trees alone.
    pub all: bool,
    /// How wide the text is.
    pub left: u64,
    /// How many bytes of a line are shown.
    pub most: usize,
}
