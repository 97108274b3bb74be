//! The bytes of indications.
ghost use Rattle.std.specs.Prelude.{◌≡◌, ◌++◌, OnOk, OnErr};
ghost use Rattle.tp_names.specs.Scanning.{GivesUnlessFull, scan_make, ◌with◌, scan_short, scan_aaid, scan_report, scan_octets};
ghost use Rattle.tp_names.specs.Writing.{Keeps};
ghost use Rattle.tp_records.specs.Bodies.{indication_bytes};
ghost use Rattle.tp_records.specs.BodyScanning.{scan_units, scan_indication};
ghost use Rattle.tp_records.specs.declared.indication.Indication.{Indication};

use super::Indication;
use crate::fields::{read_units, write_counted, write_numbered};
use std::alloc::Global;
use tp_names::{
    BadBytes, Cursor, NoMemory, Octets, ReadFault, write_aaid, write_byte, write_report,
};

/// Reads an indication.
#[tactic(auto, unfolding(crate::specs::BodyScanning::scan_indication))]
pub(crate) fn read_indication(alloc: Global, from: &mut Cursor) -> Result<Indication, ReadFault>
    ensures { GivesUnlessFull result from.new (scan_indication from.old) }
{
    let left = from.left();
    match from.code()? {
        1 => begin_dialogue(from),
        2 => begun_dialogue(from),
        3 => Ok(Indication::Rejected {
            peer: from.short()?,
        }),
        4 => Ok(Indication::EndDialogue {
            peer: from.short()?,
        }),
        5 => user_data(alloc, from),
        6 => Ok(Indication::UError {
            peer: from.short()?,
        }),
        7 => Ok(Indication::UAbort {
            peer: from.short()?,
        }),
        8 => Ok(Indication::PAbort {
            peer: from.short()?,
        }),
        9 => Ok(Indication::Grant {
            peer: from.short()?,
        }),
        10 => Ok(Indication::AskControl {
            peer: from.short()?,
        }),
        11 => Ok(Indication::Handshake {
            peer: from.short()?,
        }),
        12 => Ok(Indication::HandshakeConfirm {
            peer: from.short()?,
        }),
        13 => Ok(Indication::HandshakeGrant {
            peer: from.short()?,
        }),
        14 => begin_transaction(from),
        15 => Ok(Indication::DeferEnd {
            peer: from.short()?,
        }),
        16 => Ok(Indication::DeferGrant {
            peer: from.short()?,
        }),
        17 => Ok(Indication::Prepare),
        18 => Ok(Indication::Ready {
            peer: from.short()?,
        }),
        19 => Ok(Indication::Commit),
        20 => Ok(Indication::CommitComplete {
            report: from.report()?,
        }),
        21 => Ok(Indication::Rollback),
        22 => Ok(Indication::RollbackComplete {
            report: from.report()?,
        }),
        23 => heuristic_report(from),
        24 => Ok(Indication::Left {
            peer: from.short()?,
        }),
        _ => Err(ReadFault::Bad(BadBytes { left })),
    }
}

fn begin_dialogue(from: &mut Cursor) -> Result<Indication, ReadFault>
    ensures { GivesUnlessFull result from.new ((scan_make (λ p u. Indication.BeginDialogue p u) with scan_short with scan_units) from.old) }
{
    let peer = from.short()?;
    let units = read_units(from)?;
    Ok(Indication::BeginDialogue { peer, units })
}

fn begun_dialogue(from: &mut Cursor) -> Result<Indication, ReadFault>
    ensures { GivesUnlessFull result from.new ((scan_make (λ p u. Indication.BegunDialogue p u) with scan_short with scan_units) from.old) }
{
    let peer = from.short()?;
    let units = read_units(from)?;
    Ok(Indication::BegunDialogue { peer, units })
}

fn user_data(alloc: Global, from: &mut Cursor) -> Result<Indication, ReadFault>
    ensures { GivesUnlessFull result from.new ((scan_make (λ p xs. Indication.UserData p xs) with scan_short with scan_octets 1024) from.old) }
{
    let peer = from.short()?;
    let octets = from.octets(alloc, 1024)?;
    Ok(Indication::UserData { peer, octets })
}

fn begin_transaction(from: &mut Cursor) -> Result<Indication, ReadFault>
    ensures { GivesUnlessFull result from.new ((scan_make (λ p a. Indication.BeginTransaction p a) with scan_short with scan_aaid) from.old) }
{
    let peer = from.short()?;
    let aaid = from.aaid()?;
    Ok(Indication::BeginTransaction { peer, aaid })
}

fn heuristic_report(from: &mut Cursor) -> Result<Indication, ReadFault>
    ensures { GivesUnlessFull result from.new ((scan_make (λ p r. Indication.HeuristicReport p r) with scan_short with scan_report) from.old) }
{
    let peer = from.short()?;
    let report = from.report()?;
    Ok(Indication::HeuristicReport { peer, report })
}

/// Writes an indication.
pub(crate) fn write_indication(
    alloc: Global,
    indication: &Indication,
    out: &mut Octets,
) -> Result<(), NoMemory>
    ensures ok { OnOk result (out.new ≡ out.old ++ indication_bytes indication.now) }
    ensures err { OnErr result (Keeps out.old out.new) }
{
    match indication {
        Indication::BeginDialogue { peer, units } => {
            write_numbered(alloc, 1, *peer, out)?;
            write_byte(alloc, units.bits(), out)
        }
        Indication::BegunDialogue { peer, units } => {
            write_numbered(alloc, 2, *peer, out)?;
            write_byte(alloc, units.bits(), out)
        }
        Indication::Rejected { peer } => write_numbered(alloc, 3, *peer, out),
        Indication::EndDialogue { peer } => write_numbered(alloc, 4, *peer, out),
        Indication::UserData { peer, octets } => {
            write_numbered(alloc, 5, *peer, out)?;
            write_counted(alloc, octets, out)
        }
        Indication::UError { peer } => write_numbered(alloc, 6, *peer, out),
        Indication::UAbort { peer } => write_numbered(alloc, 7, *peer, out),
        Indication::PAbort { peer } => write_numbered(alloc, 8, *peer, out),
        Indication::Grant { peer } => write_numbered(alloc, 9, *peer, out),
        Indication::AskControl { peer } => write_numbered(alloc, 10, *peer, out),
        Indication::Handshake { peer } => write_numbered(alloc, 11, *peer, out),
        Indication::HandshakeConfirm { peer } => write_numbered(alloc, 12, *peer, out),
        Indication::HandshakeGrant { peer } => write_numbered(alloc, 13, *peer, out),
        Indication::BeginTransaction { peer, aaid } => {
            write_numbered(alloc, 14, *peer, out)?;
            write_aaid(alloc, aaid, out)
        }
        Indication::DeferEnd { peer } => write_numbered(alloc, 15, *peer, out),
        Indication::DeferGrant { peer } => write_numbered(alloc, 16, *peer, out),
        Indication::Prepare => out.push(alloc, 17),
        Indication::Ready { peer } => write_numbered(alloc, 18, *peer, out),
        Indication::Commit => out.push(alloc, 19),
        Indication::CommitComplete { report } => {
            out.push(alloc, 20)?;
            write_report(alloc, *report, out)
        }
        Indication::Rollback => out.push(alloc, 21),
        Indication::RollbackComplete { report } => {
            out.push(alloc, 22)?;
            write_report(alloc, *report, out)
        }
        Indication::HeuristicReport { peer, report } => {
            write_numbered(alloc, 23, *peer, out)?;
            write_report(alloc, *report, out)
        }
        Indication::Left { peer } => write_numbered(alloc, 24, *peer, out),
    }
}
