//! The pieces that the text of a picture is made of.
use crate::Tone;
use tp_model::OutLine;

/// A piece of text.
#[derive(Clone, Copy)]
pub(crate) enum Piece<'a> {
    /// As it is.
    Text(&'a str),
    /// In decimal.
    Number(u64),
    /// The name of a tone.
    Tone(Tone),
    /// The words beside the shape of a line.
    Label(&'a OutLine),
    /// So that it is text in an SVG file, whatever its octets are.
    Escaped(&'a [u8]),
    /// The same of so many octets at most, with two dots for what is left out.
    Cut(&'a [u8], usize),
    /// So that it is text in Mermaid text.
    Plain(&'a [u8]),
}
