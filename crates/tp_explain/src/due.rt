//! What a word of a line has to be.
use std::alloc::Global;
use std::fmt::{self, Display, Formatter};
use tp_schedule::LineFault;
use tp_schedule::value::{
    is_word, read_call, read_fill, read_number, read_octets, read_outcome, read_site, read_units,
};

/// What a word of a line has to be.
#[derive(Clone, Copy)]
pub enum Due {
    At,
    Call,
    /// The first word of a line of an event.
    Event,
    /// The word before an octet.
    Fill,
    In,
    /// The first word of a line.
    Line,
    Number,
    Octet,
    Octets,
    Outcome,
    Request,
    Site,
    Under,
    Units,
}

fn keyword(word: &[u8], text: &str) -> Option<LineFault> {
    if is_word(word, text) {
        None
    } else {
        Some(LineFault::Word)
    }
}

impl Due {
    /// What is wrong with the word; nothing is said of first words and of requests.
    pub(crate) fn fault(&self, alloc: Global, word: &[u8]) -> Option<LineFault> {
        match self {
            Due::Line | Due::Event | Due::Request => None,
            Due::At => keyword(word, "at"),
            Due::Call => read_call(word).err(),
            Due::Fill => keyword(word, "fill"),
            Due::In => keyword(word, "in"),
            Due::Number => read_number(word).err(),
            Due::Octet => read_fill(word).err(),
            Due::Octets => read_octets(alloc, word).err(),
            Due::Outcome => read_outcome(word).err(),
            Due::Site => read_site(word).err(),
            Due::Under => keyword(word, "under"),
            Due::Units => read_units(word).err(),
        }
    }
}

impl Display for Due {
    fn fmt<W: fmt::Write>(&self, f: &mut Formatter<W>) -> fmt::Result {
        f.write_str(match self {
            Due::At => "`at`",
            Due::Call => "a number from 1 to 99",
            Due::Event => "the first word of an event's line",
            Due::Fill => "`fill`",
            Due::In => "`in`",
            Due::Line => "the first word of a line",
            Due::Number => "a number from 1 to 65535",
            Due::Octet => "two digits of 0 to 9 and a to f",
            Due::Octets =>
                "octets: `-`, up to 2000 pairs of digits of 0 to 9 and a to f, or a pair, `*` and 1 to 2000",
            Due::Outcome => "`commit` or `rollback`",
            Due::Request => "a request",
            Due::Site => "a site's name, of 1 to 16 of a to z and 0 to 9",
            Due::Under => "`under`",
            Due::Units => "units, of `sphcku` in this order",
        })
    }
}
