//! Schedules out of streams.
ghost use Rattle.std.specs.Prelude.{◌<◌, Some};

use crate::values::octets;
use std::alloc::Global;
use tp_names::Octets;
use tp_outside::{Failed, MemSource, Source};
use tp_schedule::{Lines, LinesFault};

/// Bytes in memory, each call so many at most.
#[derive(Drop)]
pub struct Pieces {
    source: MemSource,
    most: usize,
    ghost some: { 0 < most },
}

impl Source for Pieces {
    ghost left = { λ s. Some s.source.left };

    ghost fault_count = { λ s. s.source.faults };

    fn read(&mut self, buf: &mut [u8]) -> Result<usize, Failed> {
        let n = buf.len().min(self.most);
        self.source.read(&mut buf[..n])
    }

    fn faults(&self) -> u64 {
        self.source.faults()
    }
}

/// A source of these bytes, one at a time, whose calls with the listed numbers fail.
fn one_by_one(alloc: Global, bytes: Octets, fails: &[u8]) -> Option<Pieces> {
    let fails = octets(alloc, fails)?;
    Some(Pieces {
        source: MemSource::new(alloc, bytes, fails),
        most: 1,
    })
}

/// A source of these bytes, 8 kB at a time.
pub fn by_pages(alloc: Global, bytes: Octets) -> Pieces {
    Pieces {
        source: MemSource::new(alloc, bytes, Octets::new(alloc)),
        most: 8192,
    }
}

/// These lines, each with its end.
pub fn joined(alloc: Global, lines: &[&str]) -> Option<Octets> {
    let mut text = Octets::new(alloc);
    for line in lines {
        text.extend_from_slice(alloc, line.as_bytes()).ok()?;
        text.push(alloc, b'\n').ok()?;
    }
    Some(text)
}

/// So many bytes that begin so, all others alike.
pub fn line_of_length(alloc: Global, front: &[u8], filling: u8, length: usize) -> Option<Octets> {
    let mut line = octets(alloc, front)?;
    for _ in front.len()..length {
        line.push(alloc, filling).ok()?;
    }
    Some(line)
}

/// Whether a stream is cut into these lines.
fn is_cut(source: &mut Pieces, texts: &[&str]) -> Option<bool> {
    let mut lines = Lines::new();
    for text in texts {
        let line = lines.next(source).ok()??;
        if line != text.as_bytes() {
            return Some(false);
        }
    }
    Some(lines.next(source).ok()?.is_none())
}

/// Lines that come a byte at a time are those that come by pages.
pub fn are_cut_alike(alloc: Global, texts: &[&str]) -> Option<bool> {
    let mut small = one_by_one(alloc, joined(alloc, texts)?, &[])?;
    let mut large = by_pages(alloc, joined(alloc, texts)?);
    Some(is_cut(&mut small, texts)? && is_cut(&mut large, texts)?)
}

/// The lines of a text, each after a bar.
fn cut_of(alloc: Global, text: &str) -> Option<Octets> {
    let mut source = one_by_one(alloc, octets(alloc, text.as_bytes())?, &[])?;
    let mut lines = Lines::new();
    let mut out = Octets::new(alloc);
    for _ in 0..=text.len() {
        let Some(line) = lines.next(&mut source).ok()? else {
            break;
        };
        out.push(alloc, b'|').ok()?;
        out.extend_from_slice(alloc, line).ok()?;
    }
    Some(out)
}

fn is_cut_as(alloc: Global, text: &str, cut: &str) -> bool {
    match cut_of(alloc, text) {
        Some(found) => found.as_slice() == cut.as_bytes(),
        None => false,
    }
}

const CUTS: &[(&str, &str)] = &[
    ("", ""),
    ("\n", "|"),
    ("a", "|a"),
    ("a\n", "|a"),
    ("a\r\n", "|a"),
    ("a\r\r\n", "|a\r"),
    ("a\r", "|a\r"),
    ("\r\n\n\r", "|||\r"),
    ("a\rb\nc", "|a\rb|c"),
];

#[test]
fn ends_of_lines(rt: HostRuntime) {
    for (text, cut) in CUTS {
        assert!(rt; is_cut_as(rt.alloc(), text, cut), "{text:?}");
    }
}

/// How many of three calls answer lines; those after answer that one call failed.
fn lines_before_fault(source: &mut Pieces) -> Option<u8> {
    let mut lines = Lines::new();
    let mut read = 0;
    for call in 1..4 {
        match lines.next(source) {
            Ok(Some(_)) => read = call,
            Err(LinesFault::ReadFault { faults: 1 }) => {}
            _ => return None,
        }
    }
    Some(read)
}

/// The same of a stream of two lines whose call with that number fails.
fn lines_before(alloc: Global, fails: u8) -> Option<u8> {
    let bytes = octets(alloc, b"ab\nc\n")?;
    let mut source = one_by_one(alloc, bytes, &[fails])?;
    lines_before_fault(&mut source)
}

const FAILING: &[(u8, u8)] = &[(1, 0), (2, 0), (3, 0), (4, 1), (5, 1), (6, 2)];

#[test]
fn one_failing_read_at_each_place(rt: HostRuntime) {
    for (fails, whole) in FAILING {
        let read = lines_before(rt.alloc(), *fails);
        assert!(rt; read.is_some_and(|read| read == *whole), "call {fails}");
    }
}

fn is_read_fault(lines: &mut Lines, source: &mut Pieces) -> bool {
    matches!(lines.next(source), Err(LinesFault::ReadFault { faults: 1 }))
}

/// The number of bytes that a read gives, and the first.
fn read(source: &mut Pieces) -> Option<(usize, u8)> {
    let mut buf = [0; 8];
    let count = source.read(&mut buf).ok()?;
    Some((count, buf[0]))
}

#[test]
fn nothing_is_read_after_a_fault(rt: HostRuntime) {
    let Some(bytes) = octets(rt.alloc(), b"a\n") else {
        panic!(rt; "no memory")
    };
    let Some(mut source) = one_by_one(rt.alloc(), bytes, &[2]) else {
        panic!(rt; "no memory")
    };
    let mut lines = Lines::new();
    assert!(rt; is_read_fault(&mut lines, &mut source));
    assert!(rt; is_read_fault(&mut lines, &mut source));
    assert!(rt; matches!(read(&mut source), Some((1, b'\n'))));
}

/// The length of the first line that is handed out.
fn first_length(alloc: Global, bytes: Octets) -> Result<Option<usize>, LinesFault> {
    let mut source = by_pages(alloc, bytes);
    let mut lines = Lines::new();
    match lines.next(&mut source)? {
        None => Ok(None),
        Some(line) => Ok(Some(line.len())),
    }
}

/// A line of that length with that end.
fn line_with_end(alloc: Global, length: usize, end: &str) -> Option<Octets> {
    let mut line = line_of_length(alloc, b"", b'x', length)?;
    line.extend_from_slice(alloc, end.as_bytes()).ok()?;
    Some(line)
}

fn is_whole(alloc: Global, length: usize, end: &str) -> Option<bool> {
    match first_length(alloc, line_with_end(alloc, length, end)?) {
        Ok(Some(found)) => Some(found == length),
        _ => Some(false),
    }
}

fn fault(alloc: Global, length: usize, end: &str) -> Option<LinesFault> {
    first_length(alloc, line_with_end(alloc, length, end)?).err()
}

const ENDS: &[&str] = &["", "\n", "\r\n"];

#[test]
fn the_longest_lines(rt: HostRuntime) {
    for end in ENDS {
        assert!(rt;
            matches!(is_whole(rt.alloc(), 8192, end), Some(true)),
            "{end:?}"
        );
    }
}

const LONG: &[(usize, &str)] = &[
    (8192, "\r"),
    (8193, ""),
    (8193, "\n"),
    (8193, "\r\n"),
    (100000, "\na\n"),
    (1048575, "\n"),
    (1048576, ""),
];

#[test]
fn lines_that_are_too_long(rt: HostRuntime) {
    for (length, end) in LONG {
        let fault = fault(rt.alloc(), *length, end);
        assert!(rt; matches!(fault, Some(LinesFault::Long)), "{length}");
    }
}

#[test]
fn a_line_past_the_limit(rt: HostRuntime) {
    let with_end = fault(rt.alloc(), 1048576, "\n");
    assert!(rt; matches!(with_end, Some(LinesFault::Limit)));
    let longer = fault(rt.alloc(), 1048577, "");
    assert!(rt; matches!(longer, Some(LinesFault::Limit)));
}

/// Lines of 1,023 bytes and a line feed, a mebibyte in all, and then these bytes.
fn schedule_of(alloc: Global, last: &[u8]) -> Option<Octets> {
    let line = line_with_end(alloc, 1023, "\n")?;
    let mut text = Octets::new(alloc);
    for _ in 0..1024 {
        text.extend_from_slice(alloc, line.as_slice()).ok()?;
    }
    text.extend_from_slice(alloc, last).ok()?;
    Some(text)
}

/// How the call after 1,024 lines ends: whether there is no line.
fn ends_after(alloc: Global, last: &[u8]) -> Option<Result<bool, LinesFault>> {
    let mut source = by_pages(alloc, schedule_of(alloc, last)?);
    let mut lines = Lines::new();
    for _ in 0..1024 {
        lines.next(&mut source).ok()??;
    }
    match lines.next(&mut source) {
        Ok(line) => Some(Ok(line.is_none())),
        Err(fault) => Some(Err(fault)),
    }
}

#[test]
fn bytes_of_a_schedule(rt: HostRuntime) {
    let whole = ends_after(rt.alloc(), b"");
    assert!(rt; matches!(whole, Some(Ok(true))));
    let with_byte = ends_after(rt.alloc(), b"a");
    assert!(rt; matches!(with_byte, Some(Err(LinesFault::Limit))));
    let with_end = ends_after(rt.alloc(), b"\n");
    assert!(rt; matches!(with_end, Some(Err(LinesFault::Limit))));
}
