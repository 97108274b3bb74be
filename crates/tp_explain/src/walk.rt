//! The words of a bad line, one after the other.
use crate::due::Due;
use crate::lines::{EVENTS, OTHERS, REQUESTS, Tail};
use std::alloc::Global;
use tp_schedule::LineFault;
use tp_schedule::cutting::next_word;
use tp_schedule::keyword::find;

/// What was found: words are told by their number, from 1.
#[derive(Clone, Copy)]
pub(crate) enum Finding {
    /// The word is not what is due.
    Wrong { place: usize, due: Due },
    /// A word is due after the last one.
    Missing { due: Due },
    /// No word is due where that one stands.
    Extra { place: usize },
}

/// What is left of a line's words, and how many stand before it.
#[derive(Clone, Copy)]
struct Rest<'a> {
    bytes: &'a [u8],
    taken: usize,
}

// There is no further word.
fn end(rest: Rest) -> Result<(), Finding> {
    match next_word(rest.bytes) {
        None => Ok(()),
        Some(_) => Err(Finding::Extra {
            place: rest.taken.saturating_add(1),
        }),
    }
}

// The next word, where such a one is due.
fn next(rest: Rest, due: Due) -> Result<(&[u8], Rest), Finding> {
    match next_word(rest.bytes) {
        None => Err(Finding::Missing { due }),
        Some((word, bytes)) => {
            let taken = rest.taken.saturating_add(1);
            Ok((word, Rest { bytes, taken }))
        }
    }
}

// The last word before the rest is not what is due.
fn wrong(rest: &Rest, due: Due) -> Finding {
    Finding::Wrong {
        place: rest.taken,
        due,
    }
}

/// The fault of a word that is looked for.
#[derive(Drop)]
struct Search {
    alloc: Global,
    sought: LineFault,
}

impl Search {
    fn take<'a>(&self, rest: Rest<'a>, due: Due) -> Result<Rest<'a>, Finding> {
        let (word, rest) = next(rest, due)?;
        match due.fault(self.alloc, word) {
            Some(fault) if fault == self.sought => Err(wrong(&rest, due)),
            _ => Ok(rest),
        }
    }

    fn last<'a>(&self, rest: Rest<'a>, due: Due) -> Result<(), Finding> {
        end(self.take(rest, due)?)
    }

    fn pair<'a>(&self, rest: Rest<'a>, first: Due, second: Due) -> Result<(), Finding> {
        self.last(self.take(rest, first)?, second)
    }

    fn line<'a>(&self, rest: Rest<'a>) -> Result<(), Finding> {
        let (word, rest) = next(rest, Due::Line)?;
        if let Some(tail) = find(&EVENTS, word) {
            return self.event(rest, tail);
        }
        match find(&OTHERS, word) {
            Some(Tail::Node) => self.node(rest),
            Some(Tail::Crash) => self.crash(rest),
            Some(tail) => self.words(rest, tail),
            None => Err(wrong(&rest, Due::Line)),
        }
    }

    fn event<'a>(&self, rest: Rest<'a>, tail: Tail) -> Result<(), Finding> {
        match tail {
            Tail::Request => self.request(rest),
            tail => self.words(rest, tail),
        }
    }

    fn request<'a>(&self, rest: Rest<'a>) -> Result<(), Finding> {
        let rest = self.take(rest, Due::Number)?;
        let (word, rest) = next(rest, Due::Request)?;
        match find(&REQUESTS, word) {
            Some(tail) => self.words(rest, tail),
            None => Err(wrong(&rest, Due::Request)),
        }
    }

    fn words<'a>(&self, rest: Rest<'a>, tail: Tail) -> Result<(), Finding> {
        match tail {
            Tail::Nothing => end(rest),
            Tail::Number => self.last(rest, Due::Number),
            Tail::Numbers => self.pair(rest, Due::Number, Due::Number),
            Tail::NumberAndOctets => self.pair(rest, Due::Number, Due::Octets),
            Tail::NumberAndOutcome => self.pair(rest, Due::Number, Due::Outcome),
            Tail::NumberAndUnits => self.pair(rest, Due::Number, Due::Units),
            Tail::Site => self.last(rest, Due::Site),
            Tail::Units => self.last(rest, Due::Units),
            Tail::Request | Tail::Node | Tail::Crash => Ok(()),
        }
    }

    fn node<'a>(&self, rest: Rest<'a>) -> Result<(), Finding> {
        let rest = self.take(rest, Due::Number)?;
        let rest = self.take(rest, Due::Site)?;
        if next_word(rest.bytes).is_none() {
            return Ok(());
        }
        self.pair(rest, Due::Under, Due::Number)
    }

    fn crash<'a>(&self, rest: Rest<'a>) -> Result<(), Finding> {
        let rest = self.take(rest, Due::Site)?;
        if next_word(rest.bytes).is_none() {
            return Ok(());
        }
        let rest = self.take(rest, Due::At)?;
        let rest = self.take(rest, Due::Call)?;
        let rest = self.take(rest, Due::Fill)?;
        let rest = self.take(rest, Due::Octet)?;
        let rest = self.take(rest, Due::In)?;
        let (word, rest) = next(rest, Due::Event)?;
        match find(&EVENTS, word) {
            Some(tail) => self.event(rest, tail),
            None => Err(wrong(&rest, Due::Event)),
        }
    }
}

/// The first word of the line that has that fault, or that is missing or too much.
pub(crate) fn first_fault(alloc: Global, line: &[u8], sought: LineFault) -> Option<Finding> {
    let search = Search { alloc, sought };
    let whole = Rest {
        bytes: line,
        taken: 0,
    };
    search.line(whole).err()
}

/// The word of that number, from 1.
pub(crate) fn word_at(line: &[u8], place: usize) -> Option<&[u8]> {
    let mut rest = line;
    for _ in 1..place {
        (_, rest) = next_word(rest)?;
    }
    let (word, _) = next_word(rest)?;
    Some(word)
}
