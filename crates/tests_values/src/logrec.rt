//! The texts of records both ways, each rule of their order, and what a brief leaves.
ghost use Rattle.std.specs.Prelude.{◌≡◌, true};
ghost use Rattle.tp_logrec.specs.Order.{all_follow};

use std::alloc::Global;
use tp_logrec::{LogRec, LogVersion, OrderCheck, brief, decode_log, encode_log, follows};
use tp_names::{
    Aaid, Addr, BranchId, Child, Children, Mark, NoMemory, NodeKey, Octets, Outcome, RecordFault,
    Report, SiteName,
};

/// Which record a test makes: of a branch, or of a root.
enum Made {
    Boot,
    Ready,
    Heuristic(Outcome),
    Commit,
    RootCommit,
    Damage(Outcome),
    RootDamage,
    End(Outcome),
    RootEnd(Outcome),
}

/// A record, with its number: that of the boot, or the last of the branch's mark; of a root, the
/// boot in which it began. And the nodes of its children.
type Row = (Made, u64, &'static [u16]);

fn addr(name: &[u8], node: u16) -> Option<Addr> {
    let site = SiteName::new(name)?;
    Some(Addr { site, node })
}

/// The mark of node 1 in that boot, with that count.
fn mark(boot: u64, count: u64) -> Mark {
    Mark {
        boot,
        node: 1,
        count,
    }
}

fn branch(count: u64) -> Option<BranchId> {
    let superior = SiteName::new(b"a")?;
    let mark = mark(1, count);
    Some(BranchId { superior, mark })
}

/// The key of a transaction that site a began in that boot, with that count, at its root or at a branch of it.
fn key(boot: u64, count: u64, branch: Option<BranchId>) -> Option<NodeKey> {
    let owner = SiteName::new(b"a")?;
    let mark = mark(boot, count);
    let aaid = Aaid { owner, mark };
    Some(NodeKey { aaid, branch })
}

fn child(node: u16) -> Option<Child> {
    let addr = addr(b"c", node)?;
    let branch = branch(u64::from(node))?;
    Some(Child { addr, branch })
}

fn children(alloc: Global, nodes: &[u16]) -> Option<Children> {
    let mut list = Children::new(alloc);
    for node in nodes {
        list.push(alloc, child(*node)?).ok()?;
    }
    Some(list)
}

fn commit(key: NodeKey, superior: Option<Addr>, children: Children) -> LogRec {
    LogRec::Commit {
        node: 2,
        key,
        superior,
        children,
    }
}

fn damage(key: NodeKey, superior: Option<Addr>, side: Outcome, owed: Children) -> LogRec {
    LogRec::Damage {
        node: 2,
        key,
        superior,
        side,
        report: Report::Mix,
        owed,
    }
}

/// A record of node 2: of a root with that key, or of a branch, whose superior has that address.
fn of_node_2(
    made: &Made,
    number: u64,
    keys: (NodeKey, NodeKey),
    superior: Addr,
    children: Children,
) -> LogRec {
    let (root, key) = keys;
    let node = 2;
    match made {
        Made::Boot => LogRec::Boot { boot: number },
        Made::Ready => LogRec::Ready {
            node,
            key,
            superior,
            children,
        },
        Made::Heuristic(outcome) => LogRec::Heuristic {
            node,
            key,
            outcome: *outcome,
        },
        Made::Commit => commit(key, Some(superior), children),
        Made::RootCommit => commit(root, None, children),
        Made::Damage(side) => damage(key, Some(superior), *side, children),
        Made::RootDamage => damage(root, None, Outcome::Commit, children),
        Made::End(outcome) => LogRec::End {
            node,
            key,
            outcome: *outcome,
        },
        Made::RootEnd(outcome) => LogRec::End {
            node,
            key: root,
            outcome: *outcome,
        },
    }
}

/// The superior of a branch stands at node 1 of site a.
fn record(alloc: Global, row: &Row) -> Option<LogRec> {
    let (which, number, nodes) = row;
    let root = key(*number, 1, None)?;
    let part = key(1, *number, Some(branch(*number)?))?;
    let superior = addr(b"a", 1)?;
    let children = children(alloc, nodes)?;
    Some(of_node_2(which, *number, (root, part), superior, children))
}

/// Whether two records are printed alike.
fn are_alike(alloc: Global, one: &LogRec, other: &LogRec) -> Option<bool> {
    let one = format!(in alloc; "{one:?}").ok()?;
    let other = format!(in alloc; "{other:?}").ok()?;
    Some(one.as_str() == other.as_str())
}

fn joined(alloc: Global, pieces: &[&[u8]]) -> Result<Octets, NoMemory> {
    let mut all = Octets::new(alloc);
    for piece in pieces {
        all.extend_from_slice(alloc, piece)?;
    }
    Ok(all)
}

/// What is decoded, its length, and its text again.
fn again(alloc: Global, ver: LogVersion, bytes: &[u8]) -> Option<(LogRec, usize, Octets)> {
    let (read, len) = decode_log(alloc, ver, bytes).ok()?;
    let mut out = Octets::new(alloc);
    encode_log(alloc, ver, &read, &mut out).ok()?;
    Some((read, len, out))
}

/// Whether the bytes are the whole text of the record, whatever stands after them, and it is
/// written so.
fn is_text_of(alloc: Global, ver: LogVersion, bytes: &[u8], rec: &LogRec) -> Option<bool> {
    let mut longer = Octets::from_slice(alloc, bytes).ok()?;
    longer.extend_from_slice(alloc, b"\x09\x09").ok()?;
    let (read, len, text) = again(alloc, ver, longer.as_slice())?;
    Some(len == bytes.len() && text.as_slice() == bytes && are_alike(alloc, &read, rec)?)
}

// The identifiers a.1.1.1, of a transaction or of a branch, and a.1.1.2.
const FIRST: &[u8] = b"\x01a\0\0\0\0\0\0\0\x01\0\x01\0\0\0\0\0\0\0\x01";

const SECOND: &[u8] = b"\x01a\0\0\0\0\0\0\0\x01\0\x01\0\0\0\0\0\0\0\x02";
// The child at node 5 of site c.
const CHILD: &[u8] = b"\x01c\0\x05\x01a\0\0\0\0\0\0\0\x01\0\x01\0\0\0\0\0\0\0\x05";
// Node 1 of site a, and what of a record of a branch stands before and after its key.
const ABOVE: &[u8] = b"\x01a\0\x01";

const BOOT: &[&[u8]] = &[b"\x01\0\0\0\0\0\0\0\x07"];

const HEURISTIC: &[&[u8]] = &[b"\x03\0\x02", SECOND, b"\x01", SECOND, b"\x01"];

const READY: &[&[u8]] = &[b"\x02\0\x02", FIRST, b"\x01", FIRST, ABOVE];

const COMMIT: &[&[u8]] = &[b"\x04\0\x02", FIRST, b"\x01", FIRST, ABOVE];

const ROOT_COMMIT: &[&[u8]] = &[b"\x04\0\x02", FIRST, b"\0"];

const DAMAGE: &[&[u8]] = &[b"\x05\0\x02", FIRST, b"\x01", FIRST, ABOVE, b"\x01\x02"];

const ROOT_END: &[&[u8]] = &[b"\x06\0\x02", FIRST, b"\0\x02"];

/// The length of the text that the pieces, the count of the children where there is one, and the children
/// are, where it is that of the record in that version.
fn text_length(
    alloc: Global,
    ver: LogVersion,
    row: &Row,
    pieces: &[&[u8]],
    count: &[u8],
) -> Option<usize> {
    let (_, _, nodes) = row;
    let rec = record(alloc, row)?;
    let mut bytes = joined(alloc, pieces).ok()?;
    bytes.extend_from_slice(alloc, count).ok()?;
    for _node in *nodes {
        bytes.extend_from_slice(alloc, CHILD).ok()?;
    }
    let is_text = is_text_of(alloc, ver, bytes.as_slice(), &rec)?;
    is_text.then_some(bytes.len())
}

// Records whose texts have no count of children: with the pieces of them.
const WITHOUT_CHILDREN: &[(Row, &[&[u8]])] = &[
    ((Made::Boot, 7, &[]), BOOT),
    ((Made::Heuristic(Outcome::Commit), 2, &[]), HEURISTIC),
    ((Made::RootEnd(Outcome::Rollback), 1, &[]), ROOT_END),
];

#[test]
fn records_without_children_both_ways(rt: HostRuntime) {
    let alloc = rt.alloc();
    for (row, pieces) in WITHOUT_CHILDREN {
        for ver in [LogVersion::One, LogVersion::Two] {
            let length = text_length(alloc, ver, row, pieces, &[]);
            assert!(rt; length.is_some());
        }
    }
}

// Records with the number of their children, with the pieces before the count, and the length in version 1. The
// first is the ready of a plain commitment.
const WITH_CHILDREN: &[(Row, u8, &[&[u8]], usize)] = &[
    ((Made::Ready, 1, &[]), 0, READY, 49),
    ((Made::Ready, 1, &[5, 5]), 2, READY, 97),
    ((Made::RootCommit, 1, &[5]), 1, ROOT_COMMIT, 49),
    ((Made::Commit, 1, &[]), 0, COMMIT, 49),
    ((Made::Damage(Outcome::Commit), 1, &[5]), 1, DAMAGE, 75),
];

// In version 1 the count is one byte, and in version 2 two.
#[test]
fn records_with_children_both_ways(rt: HostRuntime) {
    let alloc = rt.alloc();
    for (row, count, pieces, length) in WITH_CHILDREN {
        let one = text_length(alloc, LogVersion::One, row, pieces, &[*count]);
        assert!(rt; matches!(one, Some(found) if found == *length));
        let two = text_length(alloc, LogVersion::Two, row, pieces, &[0, *count]);
        assert!(rt; matches!(two, Some(found) if found > *length && found - 1 == *length));
    }
}

fn bad_at(alloc: Global, ver: LogVersion, pieces: &[&[u8]]) -> Option<usize> {
    let bytes = joined(alloc, pieces).ok()?;
    match decode_log(alloc, ver, bytes.as_slice()) {
        Err(RecordFault::BadRecord { at }) => Some(at),
        _ => None,
    }
}

// What stands before the key of a commitment.
const HEAD: &[u8] = b"\x04\0\x02";

// Pieces, and the place at which they are bad in version 1.
const BAD: &[(&[&[u8]], usize)] = &[
    // No code 7, and no code at all.
    (&[b"\x07\x02"], 0),
    (&[], 0),
    // The text breaks off.
    (
        &[
            HEAD,
            FIRST,
            b"\0\x01",
            b"\x01c\0\x05\x01a\0\0\0\0\0\0\0\x01\0\x01\0\0\0\0\0\0\0",
        ],
        48,
    ),
    // 33 children.
    (&[HEAD, FIRST, b"\0\x21\x01"], 24),
    // Neither 00 nor 01 where a branch may come.
    (&[HEAD, FIRST, b"\x02"], 23),
];

#[test]
fn where_bytes_are_bad(rt: HostRuntime) {
    for (pieces, at) in BAD {
        let place = bad_at(rt.alloc(), LogVersion::One, pieces);
        assert!(rt; place.is_some_and(|place| place == *at), "at {at}");
    }
}

#[test]
fn version_2_counts_no_more_than_256_children(rt: HostRuntime) {
    let place = bad_at(rt.alloc(), LogVersion::Two, &[HEAD, FIRST, b"\0\x01\x01"]);
    assert!(rt; matches!(place, Some(25)));
}

/// The records that were taken, and the check that took them.
#[derive(Drop)]
struct Log {
    list: Vec<LogRec>,
    check: OrderCheck,
}

impl Log {
    fn new(alloc: Global) -> Log {
        Log {
            list: Vec::new(alloc),
            check: OrderCheck::new(alloc),
        }
    }

    /// Whether the record follows, where both ways to ask agree.
    fn may_follow(&self, rec: &LogRec) -> Option<bool> {
        let may = follows(self.list.as_slice(), rec);
        if self.check.follows(rec) == may {
            Some(may)
        } else {
            None
        }
    }

    fn take(&mut self, alloc: Global, rec: LogRec) -> Result<(), NoMemory> {
        self.check.take(alloc, &rec)?;
        self.list.push(rec)?;
        Ok(())
    }

    /// Whether the record follows. Where it does, it is taken.
    fn takes(&mut self, alloc: Global, row: &Row) -> Option<bool> {
        let rec = record(alloc, row)?;
        let may = self.may_follow(&rec)?;
        if may {
            self.take(alloc, rec).ok()?;
        }
        Some(may)
    }
}

/// Whether each of the records is taken, or refused, as the row says.
fn are_judged(alloc: Global, rows: &[(Row, bool)]) -> bool {
    let mut log = Log::new(alloc);
    for (row, wanted) in rows {
        match log.takes(alloc, row) {
            Some(taken) if taken == *wanted => {}
            _ => return false,
        }
    }
    true
}

const BOOTS_RISE: &[(Row, bool)] = &[
    ((Made::Ready, 1, &[]), false),
    ((Made::Boot, 3, &[]), true),
    ((Made::Boot, 3, &[]), false),
    ((Made::Boot, 4, &[]), true),
];

const A_READY_NEEDS_A_FREE_NODE: &[(Row, bool)] = &[
    ((Made::Boot, 1, &[]), true),
    ((Made::Ready, 1, &[]), true),
    ((Made::Ready, 2, &[]), false),
    ((Made::End(Outcome::Rollback), 1, &[]), true),
    ((Made::Ready, 1, &[]), true),
];

// A key that is not at its end does not begin again, though it no longer binds its node.
const A_KEY_BEGINS_AGAIN_BEHIND_ITS_END: &[(Row, bool)] = &[
    ((Made::Boot, 1, &[]), true),
    ((Made::Ready, 1, &[3]), true),
    ((Made::Commit, 1, &[3]), true),
    ((Made::Damage(Outcome::Commit), 1, &[]), true),
    ((Made::Ready, 1, &[3]), false),
    ((Made::End(Outcome::Commit), 1, &[]), true),
    ((Made::Ready, 1, &[3]), true),
];

const A_DECISION_NEEDS_A_READY: &[(Row, bool)] = &[
    ((Made::Boot, 1, &[]), true),
    ((Made::Heuristic(Outcome::Commit), 1, &[]), false),
    ((Made::Ready, 1, &[]), true),
    ((Made::Heuristic(Outcome::Commit), 1, &[]), true),
];

const A_COMMIT_MATCHES_ITS_READY: &[(Row, bool)] = &[
    ((Made::Boot, 1, &[]), true),
    ((Made::Ready, 1, &[3]), true),
    ((Made::Commit, 1, &[4]), false),
    ((Made::Commit, 1, &[3]), true),
];

const A_ROOT_COMMITS_IN_A_BOOT_THAT_WAS: &[(Row, bool)] = &[
    ((Made::Boot, 1, &[]), true),
    ((Made::RootCommit, 2, &[3]), false),
    ((Made::RootCommit, 1, &[3]), true),
];

const DAMAGE_AND_END_WITH_COMMIT_NEED_A_COMMIT: &[(Row, bool)] = &[
    ((Made::Boot, 1, &[]), true),
    ((Made::Ready, 1, &[3]), true),
    ((Made::Damage(Outcome::Commit), 1, &[]), false),
    ((Made::End(Outcome::Commit), 1, &[]), false),
    ((Made::Commit, 1, &[3]), true),
    ((Made::Damage(Outcome::Commit), 1, &[]), true),
    ((Made::End(Outcome::Commit), 1, &[]), true),
];

const DAMAGE_OF_A_COMMIT_OWES_EVER_LESS: &[(Row, bool)] = &[
    ((Made::Boot, 1, &[]), true),
    ((Made::RootCommit, 1, &[3, 4, 5]), true),
    ((Made::RootDamage, 1, &[5, 3]), false),
    ((Made::RootDamage, 1, &[3, 5]), true),
    ((Made::RootDamage, 1, &[4]), false),
    ((Made::RootDamage, 1, &[5]), true),
];

const DAMAGE_OF_A_ROLLBACK_OWES_NOTHING: &[(Row, bool)] = &[
    ((Made::Boot, 1, &[]), true),
    ((Made::Ready, 1, &[3]), true),
    ((Made::Heuristic(Outcome::Commit), 1, &[]), true),
    ((Made::Damage(Outcome::Rollback), 1, &[3]), false),
    ((Made::Damage(Outcome::Rollback), 1, &[]), true),
];

const AN_END_FITS_WHAT_IT_ENDS: &[(Row, bool)] = &[
    ((Made::Boot, 1, &[]), true),
    ((Made::RootCommit, 1, &[]), true),
    ((Made::RootEnd(Outcome::Rollback), 1, &[]), false),
    ((Made::RootEnd(Outcome::Commit), 1, &[]), true),
];

const RULES: &[(&str, &[(Row, bool)])] = &[
    ("boots rise", BOOTS_RISE),
    ("a ready needs a free node", A_READY_NEEDS_A_FREE_NODE),
    (
        "a key begins again behind its end",
        A_KEY_BEGINS_AGAIN_BEHIND_ITS_END,
    ),
    ("a decision needs a ready", A_DECISION_NEEDS_A_READY),
    ("a commit matches its ready", A_COMMIT_MATCHES_ITS_READY),
    (
        "a root commits in a boot that was",
        A_ROOT_COMMITS_IN_A_BOOT_THAT_WAS,
    ),
    (
        "damage and end need a commit",
        DAMAGE_AND_END_WITH_COMMIT_NEED_A_COMMIT,
    ),
    (
        "damage of a commit owes ever less",
        DAMAGE_OF_A_COMMIT_OWES_EVER_LESS,
    ),
    (
        "damage of a rollback owes nothing",
        DAMAGE_OF_A_ROLLBACK_OWES_NOTHING,
    ),
    ("an end fits what it ends", AN_END_FITS_WHAT_IT_ENDS),
];

#[test]
fn each_rule_of_the_order(rt: HostRuntime) {
    for (rule, rows) in RULES {
        assert!(rt; are_judged(rt.alloc(), rows), "{rule}");
    }
}

// A log whose first key ended and whose second was damaged twice, and what is left of it.
const LONG: &[Row] = &[
    (Made::Boot, 1, &[]),
    (Made::RootCommit, 1, &[]),
    (Made::RootEnd(Outcome::Commit), 1, &[]),
    (Made::Boot, 2, &[]),
    (Made::Ready, 2, &[3, 4]),
    (Made::Heuristic(Outcome::Rollback), 2, &[]),
    (Made::Commit, 2, &[3, 4]),
    (Made::Damage(Outcome::Commit), 2, &[3, 4]),
    (Made::Damage(Outcome::Commit), 2, &[4]),
];

const LEFT: &[Row] = &[
    (Made::Boot, 2, &[]),
    (Made::Ready, 2, &[3, 4]),
    (Made::Heuristic(Outcome::Rollback), 2, &[]),
    (Made::Commit, 2, &[3, 4]),
    (Made::Damage(Outcome::Commit), 2, &[4]),
];

fn are_those(alloc: Global, found: &[LogRec], rows: &[Row]) -> Option<bool> {
    for (rec, row) in found.iter().zip(rows) {
        if !are_alike(alloc, rec, &record(alloc, row)?)? {
            return Some(false);
        }
    }
    Some(found.len() == rows.len())
}

/// The brief of records, where each follows those before it.
fn brief_in_order(alloc: Global, list: &[LogRec]) -> Option<Vec<LogRec>> {
    for i in 0..list.len() {
        if !follows(&list[..i], &list[i]) {
            return None;
        }
    }
    brief(alloc, list).ok()
}

/// Whether the one list of records is taken, and the other is its brief.
fn is_brief(alloc: Global, long: &[Row], left: &[Row]) -> Option<bool> {
    let mut log = Log::new(alloc);
    for row in long {
        if !log.takes(alloc, row)? {
            return Some(false);
        }
    }
    let brief = brief_in_order(alloc, log.list.as_slice())?;
    are_those(alloc, brief.as_slice(), left)
}

#[test]
fn a_brief(rt: HostRuntime) {
    assert!(rt; matches!(is_brief(rt.alloc(), LONG, LEFT), Some(true)));
}

fn brief_count(alloc: Global, list: &[LogRec]) -> Option<usize>
    requires { all_follow list.now ≡ true }
{
    Some(brief(alloc, list).ok()?.len())
}

#[test]
fn briefs_of_short_lists(rt: HostRuntime) {
    assert!(rt; matches!(brief_count(rt.alloc(), &[]), Some(0)));
    assert!(rt;
        matches!(
            brief_count(rt.alloc(), &[LogRec::Boot { boot: 3 }]),
            Some(1)
        )
    );
}
