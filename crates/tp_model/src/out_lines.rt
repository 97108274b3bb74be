//! The lines of a transcript.
use crate::OutLine;
use tp_names::Sequence;

/// A list of lines of a transcript.
pub type OutLines = Sequence<OutLine>;
