//! Why a line is bad.
use crate::absent::Absent;
use crate::declared::Declared;
use crate::due::Due;
use crate::walk::{Finding, first_fault, word_at};
use memchr::memchr;
use std::alloc::Global;
use std::fmt::{self, Display, Formatter, Write};
use tp_model::Why;
use tp_schedule::{LineFault, read_line};

/// The most bytes of a word that are shown.
const MOST_SHOWN: usize = 40;

/// Why a line is bad.
#[derive(Clone, Copy)]
pub enum Explanation<'a> {
    /// It has too many bytes.
    Long,
    /// That word, of that number from 1, is not what is due.
    Wrong {
        place: usize,
        word: &'a [u8],
        due: Due,
    },
    /// A word is due after the last one.
    Missing {
        due: Due,
    },
    /// No word is due where that one stands.
    Extra {
        word: &'a [u8],
    },
    /// It names what is taken or not there.
    Name(Absent),
}

/// Why the line of that number is bad, in the text of a schedule; none where it cannot be told.
pub fn explain(alloc: Global, text: &[u8], at: u64, why: Why) -> Option<Explanation<'_>> {
    let sought = match why {
        Why::Long => return Some(Explanation::Long),
        Why::Word => LineFault::Word,
        Why::Number => LineFault::Number,
        Why::Name => return Some(Explanation::Name(missing(alloc, text, at)?)),
        Why::Short | Why::Length | Why::Body => return None,
    };
    let mut rest = text;
    for _ in 1..at {
        (_, rest) = next_line(rest)?;
    }
    let (line, _) = next_line(rest)?;
    match first_fault(alloc, line, sought)? {
        Finding::Wrong { place, due } => {
            let word = word_at(line, place)?;
            Some(Explanation::Wrong { place, word, due })
        }
        Finding::Missing { due } => Some(Explanation::Missing { due }),
        Finding::Extra { place } => {
            let word = word_at(line, place)?;
            Some(Explanation::Extra { word })
        }
    }
}

// What the line of that number names that is taken or not there.
fn missing(alloc: Global, text: &[u8], at: u64) -> Option<Absent> {
    let mut declared = Declared::new(alloc);
    let mut rest = text;
    for _ in 1..at {
        let (bytes, others) = next_line(rest)?;
        if let Some(line) = read_line(alloc, bytes).ok()? {
            declared.take(&line).ok()?;
        }
        rest = others;
    }
    let (bytes, _) = next_line(rest)?;
    let line = read_line(alloc, bytes).ok()??;
    Some(declared.missing(&line))
}

// The first line without its end, and what stands after it.
fn next_line(text: &[u8]) -> Option<(&[u8], &[u8])> {
    if text.is_empty() {
        return None;
    }
    let Some(end) = memchr(b'\n', text) else {
        return Some((text, &[]));
    };
    let (line, rest) = (&text[..end], &text[end + 1..]);
    match line.split_last() {
        Some((b'\r', before)) => Some((before, rest)),
        _ => Some((line, rest)),
    }
}

// A word in quotes, with a dot for each byte that is none of a text, and cut where it is long.
#[derive(Drop)]
struct Shown<'a>(&'a [u8]);

impl Display for Shown<'_> {
    fn fmt<W: fmt::Write>(&self, f: &mut Formatter<W>) -> fmt::Result {
        f.write_char('`')?;
        for byte in self.0.iter().take(MOST_SHOWN) {
            let shown = if byte.is_ascii_graphic() { *byte } else { b'.' };
            f.write_char(char::from(shown))?;
        }
        f.write_str(if self.0.len() > MOST_SHOWN {
            "..`"
        } else {
            "`"
        })
    }
}

impl Display for Explanation<'_> {
    fn fmt<W: fmt::Write>(&self, f: &mut Formatter<W>) -> fmt::Result {
        match self {
            Explanation::Long => f.write_str("it has more than 8192 bytes"),
            Explanation::Wrong { place, word, due } => {
                write!(f, "word {place}, {}, is not {due}", Shown(word))
            }
            Explanation::Missing { due } => write!(f, "it ends where {due} is due"),
            Explanation::Extra { word } => write!(f, "{} is a word too much", Shown(word)),
            Explanation::Name(absent) => write!(f, "{absent}"),
        }
    }
}
