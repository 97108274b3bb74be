//! Texts that no line of a transcript has.
use std::alloc::Global;
use tp_schedule::LineFault;
use tp_transcript::read_out;

fn is_no_line(alloc: Global, text: &[u8]) -> bool {
    matches!(read_out(alloc, text), Err(LineFault::Word))
}

const WORDS: &[&str] = &[
    "",
    ">",
    ">drain",
    " nothing",
    "nothing ",
    "take  1",
    "take 01",
    "take 0",
    "take 65536",
    "refused 256",
    "image a",
    "image a 4F",
    "image a  ",
];

const VALUES: &[&str] = &[
    "tell 1 data 2 aa*2",
    "tell 0 prepare",
    "tell 1 prepared",
    "send 1 1 2 open 1.1.1 sp",
    "send 1 1 2 open 1.1.18446744073709551616 scu",
    "send 1 1 2 data 00 ready",
    "state 1 nil kept",
    "log A boot 1",
    "log a commit 65536 a.1.1.2 -",
    "tree a.1.1.2 mixed by ",
    "tree a.1.1.2 mixed by 2,",
    "tree a.1.1.2 agreed",
    "stopped a keep",
];

#[test]
fn words(rt: HostRuntime) {
    for text in WORDS {
        assert!(rt; is_no_line(rt.alloc(), text.as_bytes()), "{text}");
    }
}

#[test]
fn values(rt: HostRuntime) {
    for text in VALUES {
        assert!(rt; is_no_line(rt.alloc(), text.as_bytes()), "{text}");
    }
}
