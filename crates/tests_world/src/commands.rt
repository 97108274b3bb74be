//! Whole runs of commands, with expected bytes from outside, and the texts of endings.
use std::alloc::Global;
use tp_commands::run;
use tp_model::{What, Why};
use tp_names::Octets;
use tp_outside::{MemDisk, MemSink, MemSource};
use tp_replay::{Status, open_store, participants};

/// The node of the store that is member 3.
const STORE_NODE: u16 = 2;

fn octets(alloc: Global, bytes: &[u8]) -> Option<Octets> {
    Octets::from_slice(alloc, bytes).ok()
}

// The calls of a source that fail, and those of a sink.
type Fails = (&'static [u8], &'static [u8]);

const NO_FAILS: Fails = (&[], &[]);

// The status of a run on these bytes, and what it wrote.
fn ran(alloc: Global, words: &[&str], bytes: &[u8], fails: Fails) -> Option<(Status, MemSink)> {
    let bytes = octets(alloc, bytes)?;
    let (reads, writes) = fails;
    let reads = octets(alloc, reads)?;
    let writes = octets(alloc, writes)?;
    let mut source = MemSource::new(alloc, bytes, reads);
    let mut sink = MemSink::new(alloc, writes);
    let disk = MemDisk::from(alloc, Octets::new(alloc));
    let members = participants::<MemDisk>(alloc, None).ok()?;
    let (status, _disk) = run(alloc, words, &mut source, &mut sink, disk, members);
    Some((status, sink))
}

#[test]
fn a_schedule_is_made(rt: HostRuntime) {
    let (status, sink) = ran(rt.alloc(), &["make"], b"", NO_FAILS).expect(&rt, "in memory");
    assert!(rt; status == Status::Ok && sink.bytes().len() == 181);
    let (status, sink) = ran(rt.alloc(), &["make"], b"", (&[], &[1])).expect(&rt, "in memory");
    assert!(rt; status == Status::WriteFault { faults: 1 } && sink.bytes().is_empty());
}

#[test]
fn a_schedule_is_tried(rt: HostRuntime) {
    let (status, sink) = ran(rt.alloc(), &["trial"], b"", NO_FAILS).expect(&rt, "in memory");
    assert!(rt;
        status == Status::Ok
            && sink.bytes()
                == b"lines 16\nframes 7\ncommit 1\nrollback 0\nmixed 0\nopen 0\n".as_slice()
    );
    let (status, sink) = ran(rt.alloc(), &["trial"], b"", (&[], &[1])).expect(&rt, "in memory");
    assert!(rt; status == Status::WriteFault { faults: 1 } && sink.bytes().is_empty());
}

// A log of boot 1 and boot 2, and the same of boot 2 alone in versions 1 and 2.
const BOOTS: &[u8] =
    b"OTPL\x01\x01\x00\x09\x01\0\0\0\0\0\0\0\x01\x01\x00\x09\x01\0\0\0\0\0\0\0\x02\x00";

const BOOT_2: &[u8] = b"OTPL\x01\x01\x00\x09\x01\0\0\0\0\0\0\0\x02\x00";

const BOOT_2_WIDE: &[u8] = b"OTPL\x01\x01\x00\x02\x07\x02\x01\x00\x09\x01\0\0\0\0\0\0\0\x02\x00";

// A fresh log.
const FRESH: &[u8] = b"OTPL\x01\x01\x00\x02\x07\x02\x00";

// A log of a boot, a commitment and its damage.
const DAMAGE: &[u8] =
    b"OTPL\x01\x01\x00\x09\x01\0\0\0\0\0\0\0\x01\x01\x00\x31\x04\x00\x01\x01a\0\0\0\0\0\0\0\x01\x00\x01\0\0\0\0\0\0\0\x02\x00\x01\x01b\x00\x02\x01a\0\0\0\0\0\0\0\x01\x00\x01\0\0\0\0\0\0\0\x03\x01\x00\x1b\x05\x00\x01\x01a\0\0\0\0\0\0\0\x01\x00\x01\0\0\0\0\0\0\0\x02\x00\x01\x01\x00\x00";

// A store of one key.
const STORE: &[u8] =
    b"OTPL\x01\x01\x00\x1d\x01\x01a\0\0\0\0\0\0\0\x01\x00\x01\0\0\0\0\0\0\0\x02\x00\x01\x01\x01k\x00\x01v\x01\x00\x15\x02\x01a\0\0\0\0\0\0\0\x01\x00\x01\0\0\0\0\0\0\0\x02\x00";

// Commands, the disks they work on, how they end, what they write, and what they leave.
const ON_DISKS: &[(&str, &[u8], Status, &str, &[u8])] = &[
    ("format", b"what stood there", Status::Ok, "", FRESH),
    ("show", BOOTS, Status::Ok, "5 boot 1\n17 boot 2\n", BOOTS),
    ("check", BOOTS, Status::Ok, "", BOOTS),
    (
        "check",
        DAMAGE,
        Status::Findings { n: 1 },
        "69 damage 1 a.1.1.2 - commit hazard\n",
        DAMAGE,
    ),
    ("compact", BOOTS, Status::Ok, "", BOOT_2),
    ("migrate", BOOTS, Status::Ok, "", BOOT_2_WIDE),
    ("keys", STORE, Status::Ok, "6b 76\n", STORE),
    ("compact", b"", Status::Foreign { at: 0 }, "", b""),
    ("keys", b"", Status::Foreign { at: 0 }, "", b""),
];

// How a run of that command ends on a disk with these bytes whose listed changing calls fail, what it wrote, and the disk.
fn on_disk(
    alloc: Global,
    command: &str,
    bytes: &[u8],
    fails: &[u8],
) -> Option<(Status, MemSink, MemDisk)> {
    let mut source = MemSource::new(alloc, Octets::new(alloc), Octets::new(alloc));
    let mut sink = MemSink::new(alloc, Octets::new(alloc));
    let disk = MemDisk::failing(alloc, octets(alloc, bytes)?, octets(alloc, fails)?);
    let members = participants::<MemDisk>(alloc, None).ok()?;
    let (status, disk) = run(alloc, &[command], &mut source, &mut sink, disk, members);
    Some((status, sink, disk))
}

#[test]
fn commands_over_a_disk(rt: HostRuntime) {
    for (command, bytes, wanted, text, left) in ON_DISKS {
        let ended = on_disk(rt.alloc(), command, bytes, &[]);
        let (status, sink, disk) = ended.expect(&rt, "in memory");
        assert!(rt; status == *wanted, "{command}");
        assert!(rt; sink.bytes() == text.as_bytes(), "{command}");
        assert!(rt; disk.bytes() == *left, "{command}");
    }
}

// Node 1 gives node 2 a write, or what is none, and asks for commitment; member 3 drives node 2.
const GIVES_A_WRITE: &str =
    "node 1 a\nnode 2 b under 1\nauto 2 3\ndo 1 begin-dialogue 2 scu\ndrain\ndrain\ndo 1 begin-transaction 2\ndo 1 data 2 01016b000176\ndo 1 commit\ndrain\ndrain\ndo 1 done\ndrain\n";

const GIVES_NO_WRITE: &str =
    "node 1 a\nnode 2 b under 1\nauto 2 3\ndo 1 begin-dialogue 2 scu\ndrain\ndrain\ndo 1 begin-transaction 2\ndo 1 data 2 ff\ndo 1 commit\ndrain\ndrain\ndo 1 done\ndrain\n";

// What a replay writes where member 3 is a store of node 2 whose disk was empty.
fn with_store(alloc: Global, schedule: &str) -> Option<(Status, MemSink)> {
    let disk = MemDisk::from(alloc, Octets::new(alloc));
    let Ok(store) = open_store(alloc, disk, STORE_NODE) else {
        return None;
    };
    let members = participants(alloc, Some(store)).ok()?;
    let bytes = octets(alloc, schedule.as_bytes())?;
    let mut source = MemSource::new(alloc, bytes, Octets::new(alloc));
    let mut sink = MemSink::new(alloc, Octets::new(alloc));
    let disk = MemDisk::from(alloc, Octets::new(alloc));
    let (status, _disk) = run(alloc, &["replay"], &mut source, &mut sink, disk, members);
    Some((status, sink))
}

#[test]
fn a_store_drives_a_node(rt: HostRuntime) {
    let (status, sink) = with_store(rt.alloc(), GIVES_A_WRITE).expect(&rt, "in memory");
    assert!(rt; status == Status::Ok && sink.bytes().ends_with(b"tree a.1.1.2 agreed commit\n"));
    let (status, sink) = with_store(rt.alloc(), GIVES_NO_WRITE).expect(&rt, "in memory");
    assert!(rt; status == Status::Ok && sink.bytes().ends_with(b"tree a.1.1.2 agreed rollback\n"));
}

fn is_shown_as(alloc: Global, status: Status, text: &str) -> bool {
    match status.to_string(alloc) {
        Ok(shown) => shown.as_str() == text,
        Err(_) => false,
    }
}

const ENDINGS: &[(Status, &str, u8)] = &[
    (Status::Findings { n: 3 }, "findings 3", 1),
    (Status::Usage, "usage", 2),
    (
        Status::BadInput {
            at: 2,
            why: Why::Word,
        },
        "bad input at 2: word",
        3,
    ),
    (
        Status::Limit {
            what: What::Schedule,
            at: 7,
        },
        "limit schedule at 7",
        4,
    ),
    (Status::Foreign { at: 5 }, "foreign log at 5", 5),
    (Status::ReadFault { faults: 1 }, "read fault", 6),
    (Status::WriteFault { faults: 1 }, "write fault", 7),
    (Status::DiskFault { faults: 1 }, "disk fault", 8),
    (Status::NoMemory, "no memory", 9),
];

#[test]
fn endings_have_texts_and_codes(rt: HostRuntime) {
    for (status, text, code) in ENDINGS {
        assert!(rt; is_shown_as(rt.alloc(), *status, text));
        assert!(rt; status.code() == *code);
    }
}
