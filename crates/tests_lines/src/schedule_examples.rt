//! Lines of schedules, of which the worked examples have most, there and back.
use crate::streams::{by_pages, joined};
use crate::values::octets;
use std::alloc::Global;
use tp_model::Line;
use tp_names::Octets;
use tp_schedule::{Lines, read_line, write_line};

/// Nodes and what is shown of them.
const WORLD: &[&str] = &[
    "node 1 a",
    "node 10 c under 1",
    "show 2",
    "image b",
    "auto 2 1",
    "leave 1",
    "image a",
    "node 2 b under 1",
    "node 3 c under 2",
    "node 4 d under 2",
    "show 3",
    "node 3 c under 1",
    "auto 3 1",
];

/// Frames.
const FRAMES: &[&str] = &[
    "pass 1 2", "skip 2 1", "again 3", "drain", "lose 1 2", "pass 3 2", "pass 2 1", "pass 4 2",
    "pass 2 3", "again 8", "again 9", "skip 1 2", "lose 2 7", "again 1",
];

/// Sites.
const SITES: &[&str] = &[
    "heur 2 rollback",
    "giveup 2 1",
    "retry 2",
    "purge 2",
    "crash b",
    "crash b at 1 fill 00 in pass 1 2",
    "crash b at 99 fill ff in do 2 commit",
    "crash b at 3 fill 5a in heur 2 commit",
    "crash z",
    "retry 3",
    "heur 2 commit",
    "purge 1",
    "retry 1",
    "giveup 1 2",
    "crash a at 4 fill 01 in pass 2 1",
    "crash a at 4 fill 00 in pass 2 1",
    "crash a at 2 fill 00 in pass 2 1",
];

/// Requests that begin and answer dialogues.
const BEGINNINGS: &[&str] = &[
    "do 1 begin-dialogue 2 ck",
    "do 2 accept ck",
    "do 2 reject",
    "do 1 begin-transaction 2",
    "do 1 begin-dialogue 2 scu",
    "do 2 begin-dialogue 3 scu",
    "do 2 begin-dialogue 4 scu",
    "do 2 accept scu",
    "do 3 accept scu",
    "do 4 accept scu",
    "do 2 begin-transaction 3",
    "do 2 begin-transaction 4",
    "do 1 begin-dialogue 2 ph",
    "do 2 accept ph",
    "do 1 begin-dialogue 2 pck",
    "do 1 begin-dialogue 3 pck",
];

/// Requests that end a transaction.
const ENDINGS: &[&str] = &[
    "do 1 end-dialogue 2",
    "do 1 u-abort 2",
    "do 1 deferred-end 2",
    "do 1 prepare 2",
    "do 1 commit",
    "do 1 done",
    "do 1 rollback",
    "do 2 unchanged",
    "do 2 commit",
    "do 3 commit",
    "do 4 rollback",
    "do 3 done",
    "do 2 done",
    "do 4 commit",
];

/// Requests within a dialogue.
const WITHIN: &[&str] = &[
    "do 1 data 2 -",
    "do 1 data 2 00ff",
    "do 2 u-error 1",
    "do 1 grant-control 2",
    "do 2 request-control 1",
    "do 1 handshake 2",
    "do 2 respond 1",
    "do 1 handshake-and-grant 2",
    "do 1 deferred-grant 2",
    "do 2 data 1 41",
    "do 1 data 2 41",
    "do 2 data 1 42",
    "do 1 data 2 64656269742037",
    "do 1 data 3 aa*1025",
    "do 1 data 3 bb*1024",
    "do 2 data 1 6f6b",
];

/// The line that a text has, which is not blank.
pub fn line_of(alloc: Global, text: &[u8]) -> Option<Line> {
    read_line(alloc, text).ok()?
}

/// What a line is echoed as.
pub fn echo_of(alloc: Global, text: &[u8]) -> Option<Octets> {
    let line = line_of(alloc, text)?;
    let mut echo = Octets::new(alloc);
    write_line(alloc, &line, &mut echo).ok()?;
    Some(echo)
}

/// Whether the line is echoed so.
pub fn has_echo(alloc: Global, text: &[u8], wanted: &[u8]) -> bool {
    match echo_of(alloc, text) {
        Some(echo) => echo.as_slice() == wanted,
        None => false,
    }
}

/// The line is echoed as it stands, but that octets have their digits in full; the echo reads as it does.
fn is_echoed(alloc: Global, text: &[u8]) -> Option<bool> {
    let echo = echo_of(alloc, text)?;
    let is_same = text.contains(&b'*') || echo.as_slice() == text;
    Some(is_same && has_echo(alloc, echo.as_slice(), echo.as_slice()))
}

/// A schedule of these lines is cut into them, and each is echoed.
fn are_echoed(alloc: Global, texts: &[&str]) -> Option<bool> {
    let mut source = by_pages(alloc, joined(alloc, texts)?);
    let mut lines = Lines::new();
    for wanted in texts {
        let text = lines.next(&mut source).ok()??;
        if text != wanted.as_bytes() || !is_echoed(alloc, text)? {
            return Some(false);
        }
    }
    Some(lines.next(&mut source).ok()?.is_none())
}

const OF_THE_WORLD: &[&[&str]] = &[WORLD, FRAMES, SITES];

#[test]
fn of_the_world(rt: HostRuntime) {
    for texts in OF_THE_WORLD {
        assert!(rt; matches!(are_echoed(rt.alloc(), texts), Some(true)));
    }
}

const OF_USERS: &[&[&str]] = &[BEGINNINGS, WITHIN, ENDINGS];

#[test]
fn of_users(rt: HostRuntime) {
    for texts in OF_USERS {
        assert!(rt; matches!(are_echoed(rt.alloc(), texts), Some(true)));
    }
}

const ECHOES: &[(&str, &str)] = &[
    ("  pass   1  2 ", "pass 1 2"),
    ("do 1 data 2 aa*3", "do 1 data 2 aaaaaa"),
    ("again 65535", "again 65535"),
];

#[test]
fn spaces_and_repeated_octets(rt: HostRuntime) {
    for (text, echo) in ECHOES {
        assert!(rt; has_echo(rt.alloc(), text.as_bytes(), echo.as_bytes()));
    }
}

/// A line with so many octets of user data, each written `aa`.
pub fn data_line(alloc: Global, count: u16) -> Option<Octets> {
    let mut line = octets(alloc, b"do 1 data 2 ")?;
    for _ in 0..count {
        line.extend_from_slice(alloc, b"aa").ok()?;
    }
    Some(line)
}

#[test]
fn the_most_octets(rt: HostRuntime) {
    let Some(longest) = data_line(rt.alloc(), 2000) else {
        panic!(rt; "no memory")
    };
    assert!(rt; has_echo(rt.alloc(), b"do 1 data 2 aa*2000", longest.as_slice()));
    assert!(rt; has_echo(rt.alloc(), longest.as_slice(), longest.as_slice()));
}
