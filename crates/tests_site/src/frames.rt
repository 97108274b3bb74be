//! Whole runs over frames, with ample memory: of a site, of the face of a root, and of an audit of logs.
use std::alloc::Global;
use tp_audit_tool::audit;
use tp_names::{Octets, SiteName};
use tp_outside::{MemDisk, MemSink, MemSource};
use tp_serve::serve;
use tp_tx::transact;

// A log of version 2 with no records.
const FRESH: &[u8] = &[0x4f, 0x54, 0x50, 0x4c, 1, 1, 0, 2, 7, 2, 0];

// Node 1 of site a, and node 2 of site b.
const A: &[u8] = &[1, b'a', 0, 1];

const B: &[u8] = &[1, b'b', 0, 2];

// The marks of their association.
const PAIR: &[u8] = &[
    0, 0, 0, 0, 0, 0, 0, 1, 0, 1, 0, 0, 0, 0, 0, 0, 0, 1, 0, 0, 0, 0, 0, 0, 0, 1, 0, 2, 0, 0, 0, 0,
    0, 0, 0, 1,
];

// The mark 1.1.1 up to its last octet, the count.
const OF_1: &[u8] = &[0, 0, 0, 0, 0, 0, 0, 1, 0, 1, 0, 0, 0, 0, 0, 0, 0];

// The tree a.1.1.2, and the branch a.1.1.3 of it.
const BRANCH_2: &[u8] = &[
    1, b'a', 0, 0, 0, 0, 0, 0, 0, 1, 0, 1, 0, 0, 0, 0, 0, 0, 0, 2, 1, b'a', 0, 0, 0, 0, 0, 0, 0, 1,
    0, 1, 0, 0, 0, 0, 0, 0, 0, 3,
];

// The branches a.1.1.2 and a.1.1.3 of the tree a.1.1.1.
const AUDITED_2: &[u8] = &[
    1, b'a', 0, 0, 0, 0, 0, 0, 0, 1, 0, 1, 0, 0, 0, 0, 0, 0, 0, 1, 1, 1, b'a', 0, 0, 0, 0, 0, 0, 0,
    1, 0, 1, 0, 0, 0, 0, 0, 0, 0, 2,
];

const AUDITED_3: &[u8] = &[
    1, b'a', 0, 0, 0, 0, 0, 0, 0, 1, 0, 1, 0, 0, 0, 0, 0, 0, 0, 1, 1, 1, b'a', 0, 0, 0, 0, 0, 0, 0,
    1, 0, 1, 0, 0, 0, 0, 0, 0, 0, 3,
];

// A log of version 1 with boot 1, up to its last gate.
const BOOT: &[u8] = &[
    b'O', b'T', b'P', b'L', 1, 1, 0, 9, 1, 0, 0, 0, 0, 0, 0, 0, 1,
];

// A number on the association, up to its last octet.
const NUMBER: &[u8] = &[0, 0, 0, 0, 0, 0, 0];

/// Frames, each in pieces.
type Frames = &'static [&'static [&'static [u8]]];

/// What node 2 is given: its superior's dialogue, which it accepts; a branch, data, and the order to prepare; its user is ready, and
/// decides for rollback; the tree commits, the user is done, and its superior forgets the damage.
const BRANCH: Frames = &[
    &[&[0, 8, 1, 0, 2, 1], A],
    &[&[0, 0x1f, 3], A, B, &[0, 0x14, 1], OF_1, &[1, 0x29]],
    &[&[0, 5, 2, 0, 2, 2, 0x29]],
    &[
        &[0, 0x62, 3],
        A,
        B,
        &[0, 0x57, 4],
        PAIR,
        NUMBER,
        &[0, 0x0c],
        BRANCH_2,
        &[0],
    ],
    &[
        &[0, 0x3c, 3],
        A,
        B,
        &[0, 0x31, 4],
        PAIR,
        NUMBER,
        &[1, 2, 0, 1, b'x'],
    ],
    &[&[0, 0x39, 3], A, B, &[0, 0x2e, 4], PAIR, NUMBER, &[2, 0x0d]],
    &[&[0, 4, 2, 0, 2, 0x11]],
    &[&[0, 4, 5, 0, 2, 2]],
    &[&[0, 0x39, 3], A, B, &[0, 0x2e, 4], PAIR, NUMBER, &[3, 0x0f]],
    &[&[0, 4, 2, 0, 2, 0x12]],
    &[&[0, 0x34, 3], A, B, &[0, 0x29, 8], BRANCH_2],
];

/// What a root's program is given: it opens a dialogue, which node 2 accepts; it begins, asks for commitment, node 2 is ready; it
/// finishes, and node 2 is done; it begins once more and asks for rollback, then for commitment, which is not taken, and where it is.
const CALLS: Frames = &[
    &[&[0, 9, 2, 0, 1, 1], B, &[0x29]],
    &[&[0, 0x31, 3], B, A, &[0, 0x26, 2], PAIR, &[0x29]],
    &[&[0, 3, 0x20, 0, 2]],
    &[&[0, 1, 0x21]],
    &[&[0, 0x39, 3], B, A, &[0, 0x2e, 4], PAIR, NUMBER, &[0, 0x0e]],
    &[&[0, 1, 0x23]],
    &[
        &[0, 0x3a, 3],
        B,
        A,
        &[0, 0x2f, 4],
        PAIR,
        NUMBER,
        &[1, 0x10, 0],
    ],
    &[&[0, 3, 0x20, 0, 2]],
    &[&[0, 1, 0x22]],
    &[&[0, 1, 0x21]],
    &[&[0, 1, 0x24]],
];

/// Logs of three sites: the root's has nothing of the tree; node 2 is ready as the one branch of it, and node 3 as the other, which
/// has committed.
const LOGS: Frames = &[
    &[&[0, 3, 0x40, 1, b'a']],
    &[&[0, 0x15, 0x41, 0, 0x12], BOOT, &[0]],
    &[&[0, 3, 0x40, 1, b'b']],
    &[
        &[0, 0x49, 0x41, 0, 0x46],
        BOOT,
        &[1, 0, 0x31, 2, 0, 2],
        AUDITED_2,
        A,
        &[0, 0],
    ],
    &[&[0, 3, 0x40, 1, b'c']],
    &[
        &[0, 0x7d, 0x41, 0, 0x7a],
        BOOT,
        &[1, 0, 0x31, 2, 0, 3],
        AUDITED_3,
        A,
        &[0],
        &[1, 0, 0x31, 4, 0, 3],
        AUDITED_3,
        A,
        &[0, 0],
    ],
];

fn append(alloc: Global, octets: &mut Octets, pieces: &[&[u8]]) -> Option<()> {
    for piece in pieces {
        octets.extend_from_slice(alloc, piece).ok()?;
    }
    Some(())
}

fn source_of(alloc: Global, frames: Frames) -> Option<MemSource> {
    let mut octets = Octets::new(alloc);
    for pieces in frames {
        append(alloc, &mut octets, pieces)?;
    }
    Some(MemSource::new(alloc, octets, Octets::new(alloc)))
}

fn fresh_disk(alloc: Global) -> Option<MemDisk> {
    Some(MemDisk::from(alloc, Octets::from_slice(alloc, FRESH).ok()?))
}

// What site b writes of these frames, if it ends well.
fn served(alloc: Global) -> Option<MemSink> {
    let mut source = source_of(alloc, BRANCH)?;
    let mut sink = MemSink::new(alloc, Octets::new(alloc));
    let disk = fresh_disk(alloc)?;
    let (_disk, served) = serve(alloc, SiteName::new(b"b")?, &mut source, &mut sink, disk);
    served.ok()?;
    Some(sink)
}

#[test]
fn a_branch_commits_with_damage(rt: HostRuntime) {
    let sink = served(rt.alloc()).expect(&rt, "it ends well");
    assert!(rt;
        sink.bytes()
            .ends_with(&[0, 5, 0x10, 0, 2, 0x14, 2, 0, 1, 0x13, 0, 1, 0x13])
    );
}

// What a face at site a writes of these frames, if it ends well.
fn transacted(alloc: Global) -> Option<MemSink> {
    let mut source = source_of(alloc, CALLS)?;
    let mut sink = MemSink::new(alloc, Octets::new(alloc));
    let disk = fresh_disk(alloc)?;
    let (_disk, served) = transact(alloc, SiteName::new(b"a")?, &mut source, &mut sink, disk);
    served.ok()?;
    Some(sink)
}

#[test]
fn a_root_commits_and_rolls_back(rt: HostRuntime) {
    let sink = transacted(rt.alloc()).expect(&rt, "it ends well");
    assert!(rt;
        sink.bytes().ends_with(&[
            0, 3, 0x30, 4, 1, 0, 2, 0x31, 4, 0, 3, 0x30, 4, 1, 0, 3, 0x30, 4, 1
        ])
    );
}

// How many mismatches an audit of these logs names, if it finds nothing and writes that line.
fn audited(alloc: Global) -> Option<usize> {
    let mut source = source_of(alloc, LOGS)?;
    let mut sink = MemSink::new(alloc, Octets::new(alloc));
    let audited = audit(alloc, &mut source, &mut sink).ok()?;
    let same = sink.bytes() == b"yes\nfate b 2 a.1.1.1 a.1.1.2 unknown\n".as_slice();
    (same && audited.findings == 0).then_some(audited.mismatches.len())
}

#[test]
fn a_branch_in_doubt_has_a_fate(rt: HostRuntime) {
    assert!(rt; audited(rt.alloc()) == Some(1));
}
