//! Where a frame comes to its end.

/// Where a frame comes to its end: the row of the line that says so, counted from 0.
#[derive(Clone, Copy)]
pub(crate) enum End {
    /// No line says that it was taken or lost.
    Never,
    /// The first line that says either says that it was taken.
    Taken { row: usize },
    /// So it was, and the line after it says that the frame was dropped or refused.
    Refused { row: usize },
    /// The first line that says either says that it was lost.
    Lost { row: usize },
}
