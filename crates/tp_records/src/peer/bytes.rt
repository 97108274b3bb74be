//! The bytes of peer records.
ghost use Rattle.std.specs.Prelude.{◌≡◌, ◌++◌, ◌∷◌, OnOk, OnErr};
ghost use Rattle.tp_names.specs.Bytes.{aaid_bytes, branch_bytes};
ghost use Rattle.tp_names.specs.Scanning.{Gives, GivesUnlessFull, scan_make, ◌with◌, scan_maybe, scan_mark, scan_long, scan_aaid, scan_branch, scan_report};
ghost use Rattle.tp_names.specs.Writing.{Keeps};
ghost use Rattle.tp_records.specs.Bodies.{state_bytes, peer_bytes};
ghost use Rattle.tp_records.specs.BodyScanning.{scan_units, scan_dialogue, scan_state, scan_peer};
ghost use Rattle.tp_records.specs.Octets.{IsShortPeer};
ghost use Rattle.tp_records.specs.Openings.{opening, pair};
ghost use Rattle.tp_records.specs.declared.peer.PeerRecord.{PeerRecord};

use super::{PeerRecord, RecState};
use crate::dialogue::bytes::{read_dialogue, write_dialogue};
use crate::fields::read_units;
use std::alloc::Global;
use tp_names::{
    Aaid, BadBytes, BranchId, Cursor, Mark, NoMemory, Octets, ReadFault, write_aaid, write_branch,
    write_byte, write_long, write_mark, write_maybe_mark, write_report,
};

/// Reads a peer record.
#[tactic(auto, unfolding(crate::specs::BodyScanning::scan_peer))]
pub(crate) fn read_peer(alloc: Global, from: &mut Cursor) -> Result<PeerRecord, ReadFault>
    ensures { GivesUnlessFull result from.new (scan_peer from.old) }
{
    let left = from.left();
    match from.code()? {
        1 => open_assoc(from),
        2 => accept_assoc(from),
        3 => shut_assoc(from),
        4 => on_assoc(alloc, from),
        5 => Ok(PeerRecord::RecReady {
            aaid: from.aaid()?,
            branch: from.branch()?,
        }),
        6 => Ok(PeerRecord::RecCommit {
            aaid: from.aaid()?,
            branch: from.branch()?,
        }),
        7 => rec_reply(from),
        8 => Ok(PeerRecord::Forget {
            aaid: from.aaid()?,
            branch: from.branch()?,
        }),
        _ => Err(ReadFault::Bad(BadBytes { left })),
    }
}

fn open_assoc(from: &mut Cursor) -> Result<PeerRecord, ReadFault>
    ensures { GivesUnlessFull result from.new ((scan_make (λ x u. PeerRecord.OpenAssoc x u) with scan_mark with scan_units) from.old) }
{
    let x = from.mark()?;
    let units = read_units(from)?;
    Ok(PeerRecord::OpenAssoc { x, units })
}

fn accept_assoc(from: &mut Cursor) -> Result<PeerRecord, ReadFault>
    ensures { GivesUnlessFull result from.new ((scan_make (λ x y u. PeerRecord.AcceptAssoc x y u) with scan_mark with scan_mark with scan_units) from.old) }
{
    let x = from.mark()?;
    let y = from.mark()?;
    let units = read_units(from)?;
    Ok(PeerRecord::AcceptAssoc { x, y, units })
}

fn shut_assoc(from: &mut Cursor) -> Result<PeerRecord, ReadFault>
    ensures { GivesUnlessFull result from.new ((scan_make (λ x y. PeerRecord.ShutAssoc x y) with scan_mark with scan_maybe scan_mark) from.old) }
{
    let x = from.mark()?;
    let y = from.maybe_mark()?;
    Ok(PeerRecord::ShutAssoc { x, y })
}

fn on_assoc(alloc: Global, from: &mut Cursor) -> Result<PeerRecord, ReadFault>
    ensures { GivesUnlessFull result from.new
        ((scan_make (λ x y s r. PeerRecord.OnAssoc x y s r) with scan_mark with scan_mark with scan_long with scan_dialogue) from.old) }
{
    let x = from.mark()?;
    let y = from.mark()?;
    let seq = from.long()?;
    let rec = read_dialogue(alloc, from)?;
    Ok(PeerRecord::OnAssoc { x, y, seq, rec })
}

fn rec_reply(from: &mut Cursor) -> Result<PeerRecord, ReadFault>
    ensures { GivesUnlessFull result from.new ((scan_make (λ a b s. PeerRecord.RecReply a b s) with scan_aaid with scan_branch with scan_state) from.old) }
{
    let aaid = from.aaid()?;
    let branch = from.branch()?;
    let state = read_state(from)?;
    Ok(PeerRecord::RecReply {
        aaid,
        branch,
        state,
    })
}

#[tactic(auto, unfolding(crate::specs::BodyScanning::scan_state))]
fn read_state(from: &mut Cursor) -> Result<RecState, BadBytes>
    ensures { Gives result from.new (scan_state from.old) }
{
    let left = from.left();
    match from.code()? {
        1 => Ok(RecState::Commit),
        2 => {
            let report = from.report()?;
            Ok(RecState::Done(report))
        }
        3 => Ok(RecState::Unknown),
        4 => Ok(RecState::RetryLater),
        _ => Err(BadBytes { left }),
    }
}

/// Writes a peer record.
pub(crate) fn write_peer_record(
    alloc: Global,
    rec: &PeerRecord,
    out: &mut Octets,
) -> Result<(), NoMemory>
    requires { IsShortPeer rec.now }
    ensures ok { OnOk result (out.new ≡ out.old ++ peer_bytes rec.now) }
    ensures err { OnErr result (Keeps out.old out.new) }
{
    match rec {
        PeerRecord::OpenAssoc { x, units } => {
            write_opening(alloc, 1, x, out)?;
            write_byte(alloc, units.bits(), out)?;
        }
        PeerRecord::AcceptAssoc { x, y, units } => {
            write_pair(alloc, 2, x, y, out)?;
            write_byte(alloc, units.bits(), out)?;
        }
        PeerRecord::ShutAssoc { x, y } => {
            write_opening(alloc, 3, x, out)?;
            write_maybe_mark(alloc, y, out)?;
        }
        PeerRecord::OnAssoc { x, y, seq, rec } => {
            write_pair(alloc, 4, x, y, out)?;
            write_long(alloc, *seq, out)?;
            write_dialogue(alloc, rec, out)?;
        }
        PeerRecord::RecReady { aaid, branch } => write_question(alloc, 5, aaid, branch, out)?,
        PeerRecord::RecCommit { aaid, branch } => write_question(alloc, 6, aaid, branch, out)?,
        PeerRecord::RecReply {
            aaid,
            branch,
            state,
        } => {
            write_question(alloc, 7, aaid, branch, out)?;
            write_state(alloc, *state, out)?;
        }
        PeerRecord::Forget { aaid, branch } => write_question(alloc, 8, aaid, branch, out)?,
    }
    Ok(())
}

#[tactic(auto, unfolding(crate::specs::Openings::opening))]
fn write_opening(alloc: Global, code: u8, x: &Mark, out: &mut Octets) -> Result<(), NoMemory>
    ensures ok { OnOk result (out.new ≡ out.old ++ opening code x.now) }
    ensures err { OnErr result (Keeps out.old out.new) }
{
    out.push(alloc, code)?;
    write_mark(alloc, x, out)?;
    Ok(())
}

#[tactic(auto, unfolding(crate::specs::Openings::pair))]
fn write_pair(alloc: Global, code: u8, x: &Mark, y: &Mark, out: &mut Octets) -> Result<(), NoMemory>
    ensures ok { OnOk result (out.new ≡ out.old ++ pair code x.now y.now) }
    ensures err { OnErr result (Keeps out.old out.new) }
{
    write_opening(alloc, code, x, out)?;
    write_mark(alloc, y, out)?;
    Ok(())
}

fn write_question(
    alloc: Global,
    code: u8,
    aaid: &Aaid,
    branch: &BranchId,
    out: &mut Octets,
) -> Result<(), NoMemory>
    ensures ok { OnOk result (out.new ≡ out.old ++ (code ∷ aaid_bytes aaid.now ++ branch_bytes branch.now)) }
    ensures err { OnErr result (Keeps out.old out.new) }
{
    out.push(alloc, code)?;
    write_aaid(alloc, aaid, out)?;
    write_branch(alloc, branch, out)?;
    Ok(())
}

fn write_state(alloc: Global, state: RecState, out: &mut Octets) -> Result<(), NoMemory>
    ensures ok { OnOk result (out.new ≡ out.old ++ state_bytes state) }
    ensures err { OnErr result (Keeps out.old out.new) }
{
    match state {
        RecState::Commit => out.push(alloc, 1),
        RecState::Done(report) => {
            out.push(alloc, 2)?;
            write_report(alloc, report, out)
        }
        RecState::Unknown => out.push(alloc, 3),
        RecState::RetryLater => out.push(alloc, 4),
    }
}
