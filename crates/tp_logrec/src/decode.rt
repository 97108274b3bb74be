//! Reading a record from the front of bytes.
ghost use Rattle.std.specs.Prelude.{◌≡◌, ◌≤◌, length, IfOk, IfErr, take};
ghost use Rattle.tp_names.specs.Scanning.{Gives, GivesUnlessFull, scan_many, scan_child};
ghost use Rattle.tp_names.specs.Grammar.{Begins};
ghost use Rattle.tp_logrec.specs.RecordReading.{record_grammar};
ghost use Rattle.tp_logrec.specs.RecordScanning.{scan_child_count, scan_children, scan_some_branch, scan_branch_key, scan_branch_and_superior, scan_key_and_superior, scan_harm, scan_judgement, scan_boot, scan_ready, scan_heuristic, scan_commit, scan_damage, scan_end, scan_record};
ghost use Rattle.tp_logrec.specs.Decoding.{IfBad};

use crate::{LogRec, LogVersion};
use std::alloc::Global;
use tp_names::{
    Addr, BadBytes, BranchId, Children, Cursor, NodeKey, Outcome, ReadFault, RecordFault, Report,
};

// Promise 2.13, part 3
/// The record whose text in that version stands at the front of the bytes, and the text's length.
///
/// `BadRecord {at}` says that no text stands there; `at` is how many of the bytes, and no more,
/// are the front of some text.
pub fn decode_log(
    alloc: Global,
    ver: LogVersion,
    bytes: &[u8],
) -> Result<(LogRec, usize), RecordFault>
    ensures found { IfOk result (λ read. Begins (record_grammar ver) read.0 read.1 bytes.now) }
    ensures bad { IfErr result (IfBad (record_grammar ver) bytes.now) }
{
    let mut cursor = Cursor::new(bytes);
    match record(alloc, ver, &mut cursor) {
        Ok(rec) => Ok((rec, bytes.len() - cursor.left())),
        Err(fault) => match fault {
            ReadFault::Bad(bad) => Err(RecordFault::BadRecord {
                at: bytes.len() - bad.left,
            }),
            ReadFault::NoMemory => Err(RecordFault::NoMemory),
        },
    }
}

#[tactic(auto, unfolding(crate::specs::RecordScanning::scan_record))]
fn record(alloc: Global, ver: LogVersion, cursor: &mut Cursor) -> Result<LogRec, ReadFault>
    ensures { GivesUnlessFull result cursor.new (scan_record ver cursor.old) }
{
    let left = cursor.left();
    match cursor.code()? {
        1 => boot(cursor),
        2 => ready(alloc, ver, cursor),
        3 => heuristic(cursor),
        4 => commit(alloc, ver, cursor),
        5 => damage(alloc, ver, cursor),
        6 => end(cursor),
        _ => Err(ReadFault::Bad(BadBytes { left })),
    }
}

#[tactic(auto, unfolding(crate::specs::RecordScanning::scan_boot))]
fn boot(cursor: &mut Cursor) -> Result<LogRec, ReadFault>
    ensures { GivesUnlessFull result cursor.new (scan_boot cursor.old) }
{
    let boot = cursor.long()?;
    Ok(LogRec::Boot { boot })
}

#[tactic(auto, unfolding(crate::specs::RecordScanning::scan_ready))]
fn ready(alloc: Global, ver: LogVersion, cursor: &mut Cursor) -> Result<LogRec, ReadFault>
    ensures { GivesUnlessFull result cursor.new (scan_ready ver cursor.old) }
{
    let node = cursor.short()?;
    let key = branch_key(cursor)?;
    let superior = cursor.addr()?;
    let children = children(alloc, ver, cursor)?;
    Ok(LogRec::Ready {
        node,
        key,
        superior,
        children,
    })
}

#[tactic(auto, unfolding(crate::specs::RecordScanning::scan_heuristic))]
fn heuristic(cursor: &mut Cursor) -> Result<LogRec, ReadFault>
    ensures { GivesUnlessFull result cursor.new (scan_heuristic cursor.old) }
{
    let node = cursor.short()?;
    let key = branch_key(cursor)?;
    let outcome = cursor.outcome()?;
    Ok(LogRec::Heuristic { node, key, outcome })
}

#[tactic(auto, unfolding(crate::specs::RecordScanning::scan_commit))]
fn commit(alloc: Global, ver: LogVersion, cursor: &mut Cursor) -> Result<LogRec, ReadFault>
    ensures { GivesUnlessFull result cursor.new (scan_commit ver cursor.old) }
{
    let node = cursor.short()?;
    let (key, superior) = key_and_superior(cursor)?;
    let children = children(alloc, ver, cursor)?;
    Ok(LogRec::Commit {
        node,
        key,
        superior,
        children,
    })
}

#[tactic(auto, unfolding(crate::specs::RecordScanning::scan_damage))]
fn damage(alloc: Global, ver: LogVersion, cursor: &mut Cursor) -> Result<LogRec, ReadFault>
    ensures { GivesUnlessFull result cursor.new (scan_damage ver cursor.old) }
{
    let node = cursor.short()?;
    let (key, superior) = key_and_superior(cursor)?;
    let (side, report) = judgement(cursor)?;
    let owed = children(alloc, ver, cursor)?;
    Ok(LogRec::Damage {
        node,
        key,
        superior,
        side,
        report,
        owed,
    })
}

#[tactic(auto, unfolding(crate::specs::RecordScanning::scan_end))]
fn end(cursor: &mut Cursor) -> Result<LogRec, ReadFault>
    ensures { GivesUnlessFull result cursor.new (scan_end cursor.old) }
{
    let node = cursor.short()?;
    let key = cursor.key()?;
    let outcome = cursor.outcome()?;
    Ok(LogRec::End { node, key, outcome })
}

#[tactic(auto, unfolding(crate::specs::RecordScanning::scan_some_branch))]
fn some_branch(cursor: &mut Cursor) -> Result<Option<BranchId>, BadBytes>
    ensures { Gives result cursor.new (scan_some_branch cursor.old) }
{
    let left = cursor.left();
    match cursor.code()? {
        1 => {
            let branch = cursor.branch()?;
            Ok(Some(branch))
        }
        _ => Err(BadBytes { left }),
    }
}

/// A key with a branch.
#[tactic(auto, unfolding(crate::specs::RecordScanning::scan_branch_key))]
fn branch_key(cursor: &mut Cursor) -> Result<NodeKey, BadBytes>
    ensures { Gives result cursor.new (scan_branch_key cursor.old) }
{
    let aaid = cursor.aaid()?;
    let branch = some_branch(cursor)?;
    Ok(NodeKey { aaid, branch })
}

#[tactic(auto, unfolding(crate::specs::RecordScanning::scan_branch_and_superior))]
fn branch_and_superior(cursor: &mut Cursor) -> Result<(Option<BranchId>, Option<Addr>), BadBytes>
    ensures { Gives result cursor.new (scan_branch_and_superior cursor.old) }
{
    let left = cursor.left();
    match cursor.code()? {
        0 => Ok((None, None)),
        1 => {
            let branch = cursor.branch()?;
            let superior = cursor.addr()?;
            Ok((Some(branch), Some(superior)))
        }
        _ => Err(BadBytes { left }),
    }
}

/// A key, and the superior's address where it has a branch.
#[tactic(auto, unfolding(crate::specs::RecordScanning::scan_key_and_superior))]
fn key_and_superior(cursor: &mut Cursor) -> Result<(NodeKey, Option<Addr>), BadBytes>
    ensures { Gives result cursor.new (scan_key_and_superior cursor.old) }
{
    let aaid = cursor.aaid()?;
    let (branch, superior) = branch_and_superior(cursor)?;
    Ok((NodeKey { aaid, branch }, superior))
}

#[tactic(auto, unfolding(crate::specs::RecordScanning::scan_harm))]
fn harm(cursor: &mut Cursor) -> Result<Report, BadBytes>
    ensures { Gives result cursor.new (scan_harm cursor.old) }
{
    let left = cursor.left();
    match cursor.code()? {
        1 => Ok(Report::Hazard),
        2 => Ok(Report::Mix),
        _ => Err(BadBytes { left }),
    }
}

#[tactic(auto, unfolding(crate::specs::RecordScanning::scan_judgement))]
fn judgement(cursor: &mut Cursor) -> Result<(Outcome, Report), BadBytes>
    ensures { Gives result cursor.new (scan_judgement cursor.old) }
{
    let side = cursor.outcome()?;
    let report = harm(cursor)?;
    Ok((side, report))
}

/// How many children follow.
fn child_count(ver: LogVersion, cursor: &mut Cursor) -> Result<u16, BadBytes>
    ensures { Gives result cursor.new (scan_child_count ver cursor.old) }
{
    match ver {
        LogVersion::One => small_count(cursor),
        LogVersion::Two => cursor.count(256),
    }
}

fn small_count(cursor: &mut Cursor) -> Result<u16, BadBytes>
    ensures { Gives result cursor.new (scan_child_count LogVersion.One cursor.old) }
{
    let left = cursor.left();
    let count = cursor.code()?;
    if count > 32 {
        return Err(BadBytes { left });
    }
    Ok(u16::from(count))
}

#[tactic(auto, unfolding(crate::specs::RecordScanning::scan_children))]
fn children(alloc: Global, ver: LogVersion, cursor: &mut Cursor) -> Result<Children, ReadFault>
    ensures { GivesUnlessFull result cursor.new (scan_children ver cursor.old) }
{
    let count = child_count(ver, cursor)?;
    so_many_children(alloc, count, cursor)
}

fn so_many_children(alloc: Global, count: u16, cursor: &mut Cursor) -> Result<Children, ReadFault>
    ensures { GivesUnlessFull result cursor.new (scan_many scan_child count cursor.old) }
{
    let mut list = Children::new(alloc);
    for _round in 0..count {
        let child = cursor.child()?;
        list.push(alloc, child)?;
    }
    Ok(list)
}
