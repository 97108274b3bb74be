//! Why an input is bad, and which count reaches its limit.
use std::fmt;

/// Why a line or a frame is bad.
#[derive(Clone, Copy, Debug, PartialEq, Eq)]
pub enum Why {
    Long,
    Word,
    Number,
    Name,
    Short,
    Length,
    Body,
}

/// What is limited.
#[derive(Clone, Copy, Debug, PartialEq, Eq)]
pub enum What {
    Schedule,
    Sites,
    Nodes,
    Frames,
    Answers,
    Events,
    Log,
    Boots,
}

impl fmt::Display for Why {
    fn fmt<W: fmt::Write>(&self, f: &mut fmt::Formatter<W>) -> fmt::Result {
        match self {
            Why::Long => f.write_str("long"),
            Why::Word => f.write_str("word"),
            Why::Number => f.write_str("number"),
            Why::Name => f.write_str("name"),
            Why::Short => f.write_str("short"),
            Why::Length => f.write_str("length"),
            Why::Body => f.write_str("body"),
        }
    }
}

impl fmt::Display for What {
    fn fmt<W: fmt::Write>(&self, f: &mut fmt::Formatter<W>) -> fmt::Result {
        match self {
            What::Schedule => f.write_str("schedule"),
            What::Sites => f.write_str("sites"),
            What::Nodes => f.write_str("nodes"),
            What::Frames => f.write_str("frames"),
            What::Answers => f.write_str("answers"),
            What::Events => f.write_str("events"),
            What::Log => f.write_str("log"),
            What::Boots => f.write_str("boots"),
        }
    }
}
