//! The bytes of requests.
ghost use Rattle.std.specs.Prelude.{◌≡◌, ◌++◌, OnOk, OnErr};
ghost use Rattle.tp_names.specs.Scanning.{GivesUnlessFull, scan_make, ◌with◌, scan_byte, scan_short, scan_addr, scan_octets};
ghost use Rattle.tp_names.specs.Writing.{Keeps};
ghost use Rattle.tp_records.specs.Bodies.{request_bytes};
ghost use Rattle.tp_records.specs.BodyScanning.{scan_request};
ghost use Rattle.tp_records.specs.declared.request.Request.{Request};

use super::Request;
use crate::fields::{write_counted, write_numbered};
use std::alloc::Global;
use tp_names::{BadBytes, Cursor, NoMemory, Octets, ReadFault, write_addr, write_byte};

/// Reads a request.
#[tactic(auto, unfolding(crate::specs::BodyScanning::scan_request))]
pub(crate) fn read_request(alloc: Global, from: &mut Cursor) -> Result<Request, ReadFault>
    ensures { GivesUnlessFull result from.new (scan_request from.old) }
{
    let left = from.left();
    match from.code()? {
        1 => begin_dialogue(from),
        2 => Ok(Request::Accept {
            units: from.byte()?,
        }),
        3 => Ok(Request::Reject),
        4 => Ok(Request::EndDialogue {
            peer: from.short()?,
        }),
        5 => user_data(alloc, from),
        6 => Ok(Request::UError {
            peer: from.short()?,
        }),
        7 => Ok(Request::UAbort {
            peer: from.short()?,
        }),
        8 => Ok(Request::Grant {
            peer: from.short()?,
        }),
        9 => Ok(Request::AskControl {
            peer: from.short()?,
        }),
        10 => Ok(Request::Handshake {
            peer: from.short()?,
        }),
        11 => Ok(Request::Respond {
            peer: from.short()?,
        }),
        12 => Ok(Request::HandshakeGrant {
            peer: from.short()?,
        }),
        13 => Ok(Request::BeginTransaction {
            peer: from.short()?,
        }),
        14 => Ok(Request::DeferEnd {
            peer: from.short()?,
        }),
        15 => Ok(Request::DeferGrant {
            peer: from.short()?,
        }),
        16 => Ok(Request::Prepare {
            peer: from.short()?,
        }),
        17 => Ok(Request::Commit),
        18 => Ok(Request::Done),
        19 => Ok(Request::Rollback),
        20 => Ok(Request::Unchanged),
        _ => Err(ReadFault::Bad(BadBytes { left })),
    }
}

fn begin_dialogue(from: &mut Cursor) -> Result<Request, ReadFault>
    ensures { GivesUnlessFull result from.new ((scan_make (λ a u. Request.BeginDialogue a u) with scan_addr with scan_byte) from.old) }
{
    let addr = from.addr()?;
    let units = from.byte()?;
    Ok(Request::BeginDialogue { addr, units })
}

fn user_data(alloc: Global, from: &mut Cursor) -> Result<Request, ReadFault>
    ensures { GivesUnlessFull result from.new ((scan_make (λ p xs. Request.UserData p xs) with scan_short with scan_octets 2000) from.old) }
{
    let peer = from.short()?;
    let octets = from.octets(alloc, 2000)?;
    Ok(Request::UserData { peer, octets })
}

/// Writes a request.
pub(crate) fn write_request(
    alloc: Global,
    request: &Request,
    out: &mut Octets,
) -> Result<(), NoMemory>
    ensures ok { OnOk result (out.new ≡ out.old ++ request_bytes request.now) }
    ensures err { OnErr result (Keeps out.old out.new) }
{
    match request {
        Request::BeginDialogue { addr, units } => {
            out.push(alloc, 1)?;
            write_addr(alloc, addr, out)?;
            write_byte(alloc, *units, out)
        }
        Request::Accept { units } => {
            out.push(alloc, 2)?;
            write_byte(alloc, *units, out)
        }
        Request::Reject => out.push(alloc, 3),
        Request::EndDialogue { peer } => write_numbered(alloc, 4, *peer, out),
        Request::UserData { peer, octets } => {
            write_numbered(alloc, 5, *peer, out)?;
            write_counted(alloc, octets, out)
        }
        Request::UError { peer } => write_numbered(alloc, 6, *peer, out),
        Request::UAbort { peer } => write_numbered(alloc, 7, *peer, out),
        Request::Grant { peer } => write_numbered(alloc, 8, *peer, out),
        Request::AskControl { peer } => write_numbered(alloc, 9, *peer, out),
        Request::Handshake { peer } => write_numbered(alloc, 10, *peer, out),
        Request::Respond { peer } => write_numbered(alloc, 11, *peer, out),
        Request::HandshakeGrant { peer } => write_numbered(alloc, 12, *peer, out),
        Request::BeginTransaction { peer } => write_numbered(alloc, 13, *peer, out),
        Request::DeferEnd { peer } => write_numbered(alloc, 14, *peer, out),
        Request::DeferGrant { peer } => write_numbered(alloc, 15, *peer, out),
        Request::Prepare { peer } => write_numbered(alloc, 16, *peer, out),
        Request::Commit => out.push(alloc, 17),
        Request::Done => out.push(alloc, 18),
        Request::Rollback => out.push(alloc, 19),
        Request::Unchanged => out.push(alloc, 20),
    }
}
