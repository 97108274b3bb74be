//! Lines of transcripts, those of the worked examples, there and back.
use crate::streams::are_cut_alike;
use crate::values::octets;
use std::alloc::Global;
use tp_names::Octets;
use tp_transcript::{read_out, write_out};

/// Records of logs.
const LOGS: &[&str] = &[
    "log a boot 1",
    "log b boot 1",
    "log c boot 1",
    "log d boot 1",
    "log c ready 3 a.1.1.2 b.1.2.4",
    "log d ready 4 a.1.1.2 b.1.2.5",
    "log b ready 2 a.1.1.2 a.1.1.3",
    "log b boot 2",
    "log a commit 1 a.1.1.2 -",
    "log b commit 2 a.1.1.2 a.1.1.3",
    "log a boot 2",
    "log b ready 2 a.1.1.3 a.1.1.4",
    "log c ready 3 a.1.1.3 a.1.1.5",
    "log a commit 1 a.1.1.3 -",
    "log b commit 2 a.1.1.3 a.1.1.4",
    "log c commit 3 a.1.1.3 a.1.1.5",
];

/// Records of logs that end a transaction or tell of damage.
const LAST_LOGS: &[&str] = &[
    "log c end 3 a.1.1.2 b.1.2.4 rollback",
    "log b end 2 a.1.1.2 a.1.1.3 commit",
    "log a end 1 a.1.1.2 - commit",
    "log b heuristic 2 a.1.1.2 a.1.1.3 commit",
    "log b heuristic 2 a.1.1.2 a.1.1.3 rollback",
    "log b damage 2 a.1.1.2 a.1.1.3 commit mix",
    "log a damage 1 a.1.1.2 - commit mix",
    "log a damage 1 a.1.1.2 - commit hazard",
    "log b end 2 a.1.1.2 a.1.1.3 rollback",
    "log b end 2 a.1.1.3 a.1.1.4 commit",
    "log c end 3 a.1.1.3 a.1.1.5 commit",
    "log a end 1 a.1.1.3 - commit",
];

/// Records that open associations and shut them.
const ASSOCIATIONS: &[&str] = &[
    "send 1 1 2 open 1.1.1 scu",
    "send 2 2 3 open 1.2.1 scu",
    "send 3 2 4 open 1.2.2 scu",
    "send 4 2 1 accept 1.1.1 1.2.3 scu",
    "send 5 3 2 accept 1.2.1 1.3.1 scu",
    "send 6 4 2 accept 1.2.2 1.4.1 scu",
    "send 2 2 1 accept 1.1.1 1.2.1 scu",
    "send 1 1 2 open 1.1.1 ph",
    "send 2 2 1 accept 1.1.1 1.2.1 ph",
    "send 7 1 2 shut 1.1.1 1.2.1",
    "send 4 2 1 accept 1.1.1 2.2.1 scu",
    "send 1 1 2 open 1.1.1 pck",
    "send 2 1 3 open 1.1.2 pck",
    "send 3 2 1 accept 1.1.1 1.2.1 pck",
    "send 4 3 1 accept 1.1.2 1.3.1 pck",
];

/// Records of recovery.
const RECOVERY: &[&str] = &[
    "send 16 3 2 rec-ready a.1.1.2 b.1.2.4",
    "send 17 2 3 rec-reply a.1.1.2 b.1.2.4 retry-later",
    "send 7 2 1 rec-ready a.1.1.2 a.1.1.3",
    "send 8 1 2 rec-reply a.1.1.2 a.1.1.3 commit",
    "send 9 2 1 rec-reply a.1.1.2 a.1.1.3 done none",
    "send 8 1 2 forget a.1.1.2 a.1.1.3",
    "send 8 1 2 rec-commit a.1.1.2 a.1.1.3",
    "send 9 2 1 rec-reply a.1.1.2 a.1.1.3 done mix",
    "send 10 1 2 forget a.1.1.2 a.1.1.3",
    "send 11 2 1 rec-reply a.1.1.2 a.1.1.3 done none",
    "send 12 1 2 forget a.1.1.2 a.1.1.3",
    "send 8 2 1 rec-ready a.1.1.2 a.1.1.3",
    "send 9 1 2 rec-reply a.1.1.2 a.1.1.3 commit",
    "send 10 2 1 rec-reply a.1.1.2 a.1.1.3 done none",
    "send 6 2 1 rec-ready a.1.1.2 a.1.1.3",
    "send 7 1 2 rec-reply a.1.1.2 a.1.1.3 commit",
    "send 9 1 2 rec-commit a.1.1.2 a.1.1.3",
    "send 7 1 2 rec-reply a.1.1.2 a.1.1.3 unknown",
];

/// Records that begin transactions and vote.
const VOTES: &[&str] = &[
    "send 7 1 2 data 0 begin a.1.1.2 a.1.1.3 none",
    "send 8 2 3 data 0 begin a.1.1.2 b.1.2.4 none",
    "send 9 2 4 data 0 begin a.1.1.2 b.1.2.5 none",
    "send 10 1 2 data 1 prepare",
    "send 11 2 3 data 1 prepare",
    "send 12 2 4 data 1 prepare",
    "send 13 3 2 data 0 ready",
    "send 3 1 2 data 0 begin a.1.1.2 a.1.1.3 none",
    "send 14 4 2 data 0 ready",
    "send 15 2 1 data 0 ready",
    "send 4 1 2 data 1 prepare",
    "send 5 2 1 data 0 ready",
    "send 5 2 1 data 0 left",
    "send 5 1 2 data 0 begin a.1.1.3 a.1.1.4 superior",
    "send 6 1 3 data 0 begin a.1.1.3 a.1.1.5 superior",
    "send 10 1 2 data 3 prepare",
    "send 11 1 3 data 2 prepare",
    "send 12 2 1 data 0 ready",
    "send 13 3 1 data 0 ready",
    "send 18 1 2 data 5 begin a.1.1.6 a.1.1.7 subordinate",
    "send 19 1 3 data 4 begin a.1.1.6 a.1.1.8 superior",
];

/// Records that end transactions.
const ENDS: &[&str] = &[
    "send 14 4 2 data 0 rollback",
    "send 15 2 1 data 0 rollback",
    "send 16 2 3 data 2 rollback",
    "send 17 2 4 data 2 rollback",
    "send 18 1 2 data 2 rollback",
    "send 19 3 2 data 1 rollback",
    "send 20 4 2 data 1 rolled-back none",
    "send 21 3 2 data 2 rolled-back none",
    "send 22 2 1 data 1 rolled-back none",
    "send 6 1 2 data 2 commit",
    "send 7 2 1 data 1 done none",
    "send 7 2 1 data 1 done mix",
    "send 6 1 2 data 2 rollback",
    "send 8 2 1 data 1 done none",
    "send 8 2 1 data 1 rollback",
    "send 9 2 1 data 2 rolled-back none",
    "send 14 1 2 data 4 commit",
    "send 15 1 3 data 3 commit",
    "send 16 2 1 data 1 done none",
    "send 17 3 1 data 1 done none",
];

/// Records within a dialogue.
const WITHIN: &[&str] = &[
    "send 3 1 2 data 0 handshake-grant",
    "send 4 2 1 data 0 response",
    "send 5 2 1 data 1 user 41",
    "send 6 1 2 data 2 user 41",
    "send 7 2 1 data 1 user 42",
    "send 7 1 2 data 1 user 64656269742037",
    "send 9 1 2 data 2 deferred-grant",
    "send 20 2 1 data 2 user 6f6b",
];

/// Indications of dialogues.
const DIALOGUES: &[&str] = &[
    "tell 2 begin-dialogue 1 scu",
    "tell 3 begin-dialogue 2 scu",
    "tell 4 begin-dialogue 2 scu",
    "tell 1 begun-dialogue 2 scu",
    "tell 2 begun-dialogue 3 scu",
    "tell 2 begun-dialogue 4 scu",
    "tell 2 begin-dialogue 1 ph",
    "tell 1 begun-dialogue 2 ph",
    "tell 2 handshake-and-grant 1",
    "tell 1 handshake-confirm 2",
    "tell 1 data 2 41",
    "tell 2 p-abort 1",
    "tell 2 data 1 41",
    "tell 2 begin-dialogue 1 pck",
    "tell 3 begin-dialogue 1 pck",
    "tell 1 begun-dialogue 2 pck",
    "tell 1 begun-dialogue 3 pck",
    "tell 2 data 1 64656269742037",
    "tell 2 deferred-grant 1",
];

/// Indications of transactions.
const TRANSACTIONS: &[&str] = &[
    "tell 2 begin-transaction 1 a.1.1.2",
    "tell 3 begin-transaction 2 a.1.1.2",
    "tell 4 begin-transaction 2 a.1.1.2",
    "tell 2 prepare",
    "tell 3 prepare",
    "tell 4 prepare",
    "tell 2 ready 3",
    "tell 2 rollback",
    "tell 1 rollback",
    "tell 3 rollback",
    "tell 2 ready 4",
    "tell 1 ready 2",
    "tell 1 commit",
    "tell 2 commit",
    "tell 1 left 2",
    "tell 2 begin-transaction 1 a.1.1.3",
    "tell 3 begin-transaction 1 a.1.1.3",
    "tell 1 ready 3",
    "tell 3 commit",
    "tell 2 begin-transaction 1 a.1.1.6",
    "tell 3 begin-transaction 1 a.1.1.6",
];

/// Indications that tell of the end.
const COMPLETIONS: &[&str] = &[
    "tell 4 rollback-complete none",
    "tell 3 rollback-complete none",
    "tell 2 rollback-complete none",
    "tell 1 rollback-complete none",
    "tell 2 commit-complete none",
    "tell 1 commit-complete none",
    "tell 2 commit-complete mix",
    "tell 1 heuristic-report 2 mix",
    "tell 1 commit-complete mix",
    "tell 1 commit-complete hazard",
    "tell 3 commit-complete none",
];

/// Trees, states, refusals and losses.
const OTHERS: &[&str] = &[
    "image a 4f54504c01010002070201000901000000000000000100",
    "tree a.1.1.2 agreed rollback",
    "dropped 22",
    "tree a.1.1.2 open",
    "state 3 ready kept 0",
    "refused 3",
    "dropped 21",
    "tree a.1.1.2 agreed commit",
    "tree a.1.1.2 mixed by 2",
    "lost 7",
    "refused 15",
    "lost 6",
    "refused 2",
    "nothing",
    "stopped a kept",
    "stopped a lost",
    "refused 8",
    "state 2 active kept 0",
    "refused 12",
    "refused 13",
    "tree a.1.1.3 agreed commit",
    "tree a.1.1.6 open",
];

/// What is written of the line that a text has.
fn written(alloc: Global, text: &[u8]) -> Option<Octets> {
    let line = read_out(alloc, text).ok()?;
    let mut again = Octets::new(alloc);
    write_out(alloc, &line, &mut again).ok()?;
    Some(again)
}

/// The line is written as it was read.
fn reads_back(alloc: Global, text: &[u8]) -> bool {
    match written(alloc, text) {
        Some(again) => again.as_slice() == text,
        None => false,
    }
}

/// Also after `> `.
fn reads_back_as_echo(alloc: Global, text: &[u8]) -> Option<bool> {
    let mut echo = octets(alloc, b"> ")?;
    echo.extend_from_slice(alloc, text).ok()?;
    Some(reads_back(alloc, echo.as_slice()))
}

/// A transcript of these lines is cut into them, and each is written as it was read, after `> ` too.
fn all_read_back(alloc: Global, texts: &[&str]) -> Option<bool> {
    for text in texts {
        let bytes = text.as_bytes();
        if !reads_back(alloc, bytes) || !reads_back_as_echo(alloc, bytes)? {
            return Some(false);
        }
    }
    are_cut_alike(alloc, texts)
}

const RECORDS_OF_LOGS: &[&[&str]] = &[LOGS, LAST_LOGS];

#[test]
fn records_of_logs(rt: HostRuntime) {
    for texts in RECORDS_OF_LOGS {
        assert!(rt; matches!(all_read_back(rt.alloc(), texts), Some(true)));
    }
}

const RECORDS_OF_PEERS: &[&[&str]] = &[ASSOCIATIONS, RECOVERY, VOTES, ENDS, WITHIN];

#[test]
fn records_of_peers(rt: HostRuntime) {
    for texts in RECORDS_OF_PEERS {
        assert!(rt; matches!(all_read_back(rt.alloc(), texts), Some(true)));
    }
}

const INDICATIONS: &[&[&str]] = &[DIALOGUES, TRANSACTIONS, COMPLETIONS];

#[test]
fn indications(rt: HostRuntime) {
    for texts in INDICATIONS {
        assert!(rt; matches!(all_read_back(rt.alloc(), texts), Some(true)));
    }
}

#[test]
fn other_lines(rt: HostRuntime) {
    assert!(rt; matches!(all_read_back(rt.alloc(), OTHERS), Some(true)));
}

fn is_taken(alloc: Global, frame: u16) -> bool {
    match format!(in alloc; "take {frame}") {
        Ok(text) => reads_back(alloc, text.as_bytes()),
        Err(_) => false,
    }
}

#[test]
fn frames_taken(rt: HostRuntime) {
    for frame in 1..23 {
        assert!(rt; is_taken(rt.alloc(), frame), "{frame}");
    }
}

const EDGES: &[&str] = &[
    "image a ",
    "image a 4f54",
    "tell 3 data 1 -",
    "> ",
    "log a damage 0 a.1.0.2 - rollback mix",
    "state 65535 asked kept 18446744073709551615",
    "tree a.1.1.2 mixed by 2,10,65535",
];

#[test]
fn empty_and_great_values(rt: HostRuntime) {
    assert!(rt; matches!(all_read_back(rt.alloc(), EDGES), Some(true)));
}

/// A record with so many octets of user data, with a digit each.
fn of_octets(alloc: Global, digits: u16) -> Option<Octets> {
    let mut user = octets(alloc, b"send 8 1 3 data 1 user ")?;
    for _ in 0..digits {
        user.push(alloc, b'b').ok()?;
    }
    Some(user)
}

#[test]
fn many_octets(rt: HostRuntime) {
    let Some(user) = of_octets(rt.alloc(), 2048) else {
        panic!(rt; "no memory")
    };
    assert!(rt; reads_back(rt.alloc(), user.as_slice()));
}
