//! A stream that goes on with no frame.
use std::error::Error;
use std::fmt;

/// At this place of the stream, counted in bytes from 0, stands a length outside 1 to 2,048.
#[derive(Clone, Copy, Debug, PartialEq, Eq)]
pub struct BadFrame {
    pub at: u64,
}

impl fmt::Display for BadFrame {
    fn fmt<W: fmt::Write>(&self, f: &mut fmt::Formatter<W>) -> fmt::Result {
        write!(f, "bad length of a frame at byte {}", self.at)
    }
}

impl Error for BadFrame {}
