//! Blank lines, and each fault of a line with the smallest lines that have it.
use crate::schedule_examples::{data_line, has_echo};
use crate::streams::line_of_length;
use std::alloc::Global;
use tp_schedule::{LineFault, read_line};

fn fault_of(alloc: Global, line: &[u8]) -> Option<LineFault> {
    read_line(alloc, line).err()
}

fn all_have_fault(alloc: Global, lines: &[&str], wanted: LineFault) -> bool {
    for line in lines {
        match fault_of(alloc, line.as_bytes()) {
            Some(fault) if fault == wanted => {}
            _ => return false,
        }
    }
    true
}

fn is_blank(alloc: Global, line: &[u8]) -> bool {
    match read_line(alloc, line) {
        Ok(line) => line.is_none(),
        Err(_) => false,
    }
}

const BLANK: &[&str] = &["", "   ", "#", "# pass 0 0"];

#[test]
fn lines_with_nothing_to_do(rt: HostRuntime) {
    for line in BLANK {
        assert!(rt; is_blank(rt.alloc(), line.as_bytes()), "{line}");
    }
    assert!(rt; all_have_fault(rt.alloc(), &[" #"], LineFault::Word));
}

/// Whether a comment of that length is blank.
fn is_comment(alloc: Global, length: usize) -> Option<bool> {
    let comment = line_of_length(alloc, b"#", b'x', length)?;
    Some(is_blank(alloc, comment.as_slice()))
}

/// Whether `drain`, with spaces up to that length, is echoed.
fn is_drain(alloc: Global, length: usize) -> Option<bool> {
    let drain = line_of_length(alloc, b"drain", b' ', length)?;
    Some(has_echo(alloc, drain.as_slice(), b"drain"))
}

/// Whether a line with that front is too long at that length.
fn is_long(alloc: Global, front: &[u8], filling: u8, length: usize) -> Option<bool> {
    let line = line_of_length(alloc, front, filling, length)?;
    Some(matches!(fault_of(alloc, line.as_slice()), Some(LineFault::Long)))
}

#[test]
fn length_of_a_line(rt: HostRuntime) {
    let alloc = rt.alloc();
    assert!(rt; matches!(is_comment(alloc, 8192), Some(true)));
    assert!(rt; matches!(is_long(alloc, b"#", b'x', 8193), Some(true)));
    assert!(rt; matches!(is_drain(alloc, 8192), Some(true)));
    assert!(rt; matches!(is_long(alloc, b"drain", b' ', 8193), Some(true)));
}

#[test]
fn one_octet_too_many(rt: HostRuntime) {
    let Some(line) = data_line(rt.alloc(), 2001) else {
        panic!(rt; "no memory")
    };
    let fault = fault_of(rt.alloc(), line.as_slice());
    assert!(rt; matches!(fault, Some(LineFault::Word)));
}

/// Words of a wrong form, one too many, and one too few.
const WRONG_WORDS: &[&str] = &[
    "pas 1 2",
    "pass 1",
    "pass 1 2 3",
    "pass\t1 2",
    "pass 1 2\r",
    "pass 01 2",
    "pass +1 2",
    "pass 0 x",
    "drain 1",
    "node 1 A",
    "node 1 aaaaaaaaaaaaaaaaa",
    "node 2 b below 1",
    "do 1 accept",
    "do 1 accept kc",
    "do 1 accept cc",
];

/// Octets, outcomes and stops of a wrong form.
const WRONG_VALUES: &[&str] = &[
    "do 1 data 2 a",
    "do 1 data 2 AA",
    "do 1 data 2 aa*01",
    "do 1 data 2 aa*",
    "do 1 data 2 aaa*2",
    "heur 1 maybe",
    "crash b at 1 fill 0 in drain",
    "crash b at 1 fill 00 in drain",
    "crash b at 0 fill 00 in drain",
    "crash b at 1 fill 00",
    "crash b at 1 fill 00 in",
    "crash b at 1",
];

#[test]
fn words_of_a_wrong_form(rt: HostRuntime) {
    assert!(rt; all_have_fault(rt.alloc(), WRONG_WORDS, LineFault::Word));
    assert!(rt; all_have_fault(rt.alloc(), WRONG_VALUES, LineFault::Word));
}

const WRONG_NUMBERS: &[&str] = &[
    "again 0",
    "again 65536",
    "again 100000000000000000000000",
    "pass 0 0",
    "do 1 data 2 aa*0",
    "do 1 data 2 aa*2001",
    "crash b at 0 fill 00 in retry 1",
    "crash b at 100 fill 00 in retry 1",
    "crash b at 1 fill 00 in retry 0",
];

#[test]
fn numerals_outside_their_range(rt: HostRuntime) {
    assert!(rt; all_have_fault(rt.alloc(), WRONG_NUMBERS, LineFault::Number));
}
