//! Why no line is handed out.

/// Why no line of a schedule is handed out.
#[derive(Clone, Copy, Debug, PartialEq, Eq)]
pub enum LinesFault {
    /// A call of the source failed; so many have by now.
    ReadFault { faults: u64 },
    /// The line has more than 8,192 bytes without its end.
    Long,
    /// Byte 1,048,577 of the schedule stands in the line or in its end.
    Limit,
}
