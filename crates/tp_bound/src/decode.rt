//! Reading a body.
ghost use Rattle.std.specs.Prelude.{◌≡◌, IfOk, IfSome};
ghost use Rattle.tp_names.specs.Grammar.{HasText};
ghost use Rattle.tp_names.specs.Scanning.{Gives, GivesUnlessFull, scan_many};
ghost use Rattle.tp_bound.specs.Bodies.{write_bytes, body_in};
ghost use Rattle.tp_bound.specs.Gathered.{write_grammar, write_in};
ghost use Rattle.tp_bound.specs.BodyScanning.{scan_key_length, scan_key, scan_put, scan_remove, scan_write, scan_writes, scan_bind, scan_keep, scan_drop, scan_body};

use crate::body::Body;
use crate::write::{Write, Writes};
use std::alloc::Global;
use tp_names::{BadBytes, Cursor, NoMemory, Octets, ReadFault};

/// The body of which these bytes are the whole text.
pub fn decode(alloc: Global, bytes: &[u8]) -> Result<Option<Body>, NoMemory>
    ensures { IfOk result (λ found. found ≡ body_in bytes.now) }
{
    let mut cursor = Cursor::new(bytes);
    match body(alloc, &mut cursor) {
        Ok(body) if cursor.left() == 0 => Ok(Some(body)),
        Ok(_) => Ok(None),
        Err(fault) => match fault {
            ReadFault::Bad(_) => Ok(None),
            ReadFault::NoMemory => Err(NoMemory),
        },
    }
}

/// The write of which these bytes are the whole text.
pub fn decode_write(alloc: Global, bytes: &[u8]) -> Result<Option<Write>, NoMemory>
    ensures is { IfOk result (λ found. found ≡ write_in bytes.now) }
    ensures text { IfOk result (λ found. IfSome found (λ w. HasText write_grammar w × (bytes.now ≡ write_bytes w))) }
{
    let mut cursor = Cursor::new(bytes);
    match write(alloc, &mut cursor) {
        Ok(write) if cursor.left() == 0 => Ok(Some(write)),
        Ok(_) => Ok(None),
        Err(fault) => match fault {
            ReadFault::Bad(_) => Ok(None),
            ReadFault::NoMemory => Err(NoMemory),
        },
    }
}

#[tactic(auto, unfolding(crate::specs::BodyScanning::scan_body))]
fn body(alloc: Global, cursor: &mut Cursor) -> Result<Body, ReadFault>
    ensures { GivesUnlessFull result cursor.new (scan_body cursor.old) }
{
    let left = cursor.left();
    match cursor.code()? {
        1 => bind(alloc, cursor),
        2 => keep(cursor),
        3 => drop_body(cursor),
        _ => Err(ReadFault::Bad(BadBytes { left })),
    }
}

#[tactic(auto, unfolding(crate::specs::BodyScanning::scan_bind))]
fn bind(alloc: Global, cursor: &mut Cursor) -> Result<Body, ReadFault>
    ensures { GivesUnlessFull result cursor.new (scan_bind cursor.old) }
{
    let aaid = cursor.aaid()?;
    let writes = writes(alloc, cursor)?;
    Ok(Body::Bind { aaid, writes })
}

#[tactic(auto, unfolding(crate::specs::BodyScanning::scan_keep))]
fn keep(cursor: &mut Cursor) -> Result<Body, ReadFault>
    ensures { GivesUnlessFull result cursor.new (scan_keep cursor.old) }
{
    let aaid = cursor.aaid()?;
    Ok(Body::Keep { aaid })
}

#[tactic(auto, unfolding(crate::specs::BodyScanning::scan_drop))]
fn drop_body(cursor: &mut Cursor) -> Result<Body, ReadFault>
    ensures { GivesUnlessFull result cursor.new (scan_drop cursor.old) }
{
    let aaid = cursor.aaid()?;
    Ok(Body::Drop { aaid })
}

#[tactic(auto, unfolding(crate::specs::BodyScanning::scan_writes))]
fn writes(alloc: Global, cursor: &mut Cursor) -> Result<Writes, ReadFault>
    ensures { GivesUnlessFull result cursor.new (scan_writes cursor.old) }
{
    let count = cursor.short()?;
    so_many_writes(alloc, count, cursor)
}

fn so_many_writes(alloc: Global, count: u16, cursor: &mut Cursor) -> Result<Writes, ReadFault>
    ensures { GivesUnlessFull result cursor.new (scan_many scan_write count cursor.old) }
{
    let mut list = Writes::new(alloc);
    for _round in 0..count {
        let write = write(alloc, cursor)?;
        list.push(alloc, write)?;
    }
    Ok(list)
}

#[tactic(auto, unfolding(crate::specs::BodyScanning::scan_write))]
fn write(alloc: Global, cursor: &mut Cursor) -> Result<Write, ReadFault>
    ensures { GivesUnlessFull result cursor.new (scan_write cursor.old) }
{
    let left = cursor.left();
    match cursor.code()? {
        1 => put(alloc, cursor),
        2 => remove(alloc, cursor),
        _ => Err(ReadFault::Bad(BadBytes { left })),
    }
}

#[tactic(auto, unfolding(crate::specs::BodyScanning::scan_put))]
fn put(alloc: Global, cursor: &mut Cursor) -> Result<Write, ReadFault>
    ensures { GivesUnlessFull result cursor.new (scan_put cursor.old) }
{
    let key = key(alloc, cursor)?;
    let value = cursor.octets(alloc, 900)?;
    Ok(Write::Put { key, value })
}

#[tactic(auto, unfolding(crate::specs::BodyScanning::scan_remove))]
fn remove(alloc: Global, cursor: &mut Cursor) -> Result<Write, ReadFault>
    ensures { GivesUnlessFull result cursor.new (scan_remove cursor.old) }
{
    let key = key(alloc, cursor)?;
    Ok(Write::Remove { key })
}

#[tactic(auto, unfolding(crate::specs::BodyScanning::scan_key))]
fn key(alloc: Global, cursor: &mut Cursor) -> Result<Octets, ReadFault>
    ensures { GivesUnlessFull result cursor.new (scan_key cursor.old) }
{
    let len = key_length(cursor)?;
    cursor.bytes(alloc, usize::from(len))
}

fn key_length(cursor: &mut Cursor) -> Result<u8, BadBytes>
    ensures { Gives result cursor.new (scan_key_length cursor.old) }
{
    let left = cursor.left();
    let len = cursor.code()?;
    if len < 1 || len > 64 {
        return Err(BadBytes { left });
    }
    Ok(len)
}
