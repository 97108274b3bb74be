//! Peer records of a given length, looked through without keeping them.
ghost use Rattle.std.specs.Prelude.{◌≡◌, ◌<◌, IfOk};
ghost use Rattle.tp_names.specs.Scanning.{Gives, GivesUnlessFull, then_scan, scan_make, ◌with◌, scan_mark, scan_long, scan_this};
ghost use Rattle.tp_records.specs.BodyReading.{is_peer_text};
ghost use Rattle.tp_records.specs.BodyScanning.{scan_units};
ghost use Rattle.tp_records.specs.SentScanning.{scan_names_of, scan_state_of, scan_reply_of, scan_octets_of, is_bare, scan_dialogue_of, is_peer_length, scan_peer_of, scan_peer_count, sent_place, scan_sent};

use crate::dialogue::bytes::read_holder;
use crate::fields::read_units;
use crate::peer::bytes::read_peer;
use std::alloc::Global;
use tp_names::{BadBytes, Cursor, NoMemory, Octets, ReadFault};

/// Reads octets that are the text of one peer record, after their count.
pub(crate) fn read_peer_octets(alloc: Global, from: &mut Cursor) -> Result<Octets, ReadFault>
    ensures { GivesUnlessFull result from.new (scan_sent from.old) }
{
    let left = place(from);
    match from.octets(alloc, 2000) {
        Ok(octets) => {
            if is_peer_text(alloc, octets.as_slice())? {
                Ok(octets)
            } else {
                Err(ReadFault::Bad(BadBytes { left }))
            }
        }
        Err(ReadFault::Bad(_)) => Err(ReadFault::Bad(BadBytes { left })),
        Err(ReadFault::NoMemory) => Err(ReadFault::NoMemory),
    }
}

fn is_peer_text(alloc: Global, octets: &[u8]) -> Result<bool, NoMemory>
    ensures { IfOk result (λ is. is ≡ is_peer_text octets.now) }
{
    let mut from = Cursor::new(octets);
    match read_peer(alloc, &mut from) {
        Ok(_) => {}
        Err(ReadFault::Bad(_)) => return Ok(false),
        Err(ReadFault::NoMemory) => return Err(NoMemory),
    }
    Ok(from.left() == 0)
}

#[tactic(auto, unfolding(crate::specs::SentScanning::sent_place))]
fn place(from: &Cursor) -> usize
    ensures { result ≡ sent_place from.now }
{
    let mut probe = from.fork();
    match look_through(&mut probe) {
        Ok(()) => 0,
        Err(bad) => from.left().min(bad.left),
    }
}

fn look_through(from: &mut Cursor) -> Result<(), BadBytes>
    ensures { Gives result from.new (then_scan (scan_peer_count from.old) scan_peer_of) }
{
    let count = peer_count(from)?;
    peer_of(count, from)
}

#[tactic(auto, unfolding(crate::specs::SentScanning::scan_peer_count))]
fn peer_count(from: &mut Cursor) -> Result<usize, BadBytes>
    ensures { Gives result from.new (scan_peer_count from.old) }
{
    let left = from.left();
    let high = usize::from(from.code()?);
    if high > 4 {
        return Err(BadBytes { left });
    }
    let left = from.left();
    let count = high * 256 + usize::from(from.code()?);
    if count == 20 || count == 38 || (41 <= count && count <= 1072) {
        Ok(count)
    } else {
        Err(BadBytes { left })
    }
}

#[tactic(auto, unfolding(crate::specs::SentScanning::scan_peer_of))]
fn peer_of(len: usize, from: &mut Cursor) -> Result<(), BadBytes>
    ensures { Gives result from.new (scan_peer_of len from.old) }
{
    let left = from.left();
    let code = from.code()?;
    if len == 20 && code == 1 {
        open_of(from)
    } else if len == 38 && code == 2 {
        accept_of(from)
    } else if len == 20 && code == 3 {
        shut_by_one_of(from)
    } else if len == 38 && code == 3 {
        shut_by_both_of(from)
    } else if 46 <= len && len <= 1072 && code == 4 {
        on_assoc_of(len - 45, from)
    } else if 41 <= len && len <= 71 && (code == 5 || code == 6 || code == 8) {
        names_of(len - 39, from)
    } else if 42 <= len && len <= 73 && code == 7 {
        reply_of(len - 39, from)
    } else {
        Err(BadBytes { left })
    }
}

fn open_of(from: &mut Cursor) -> Result<(), BadBytes>
    ensures { Gives result from.new ((scan_make (λ x u. tt) with scan_mark with scan_units) from.old) }
{
    let _ = from.mark()?;
    let _ = read_units(from)?;
    Ok(())
}

fn accept_of(from: &mut Cursor) -> Result<(), BadBytes>
    ensures { Gives result from.new ((scan_make (λ x y u. tt) with scan_mark with scan_mark with scan_units) from.old) }
{
    let _ = from.mark()?;
    let _ = from.mark()?;
    let _ = read_units(from)?;
    Ok(())
}

fn shut_by_one_of(from: &mut Cursor) -> Result<(), BadBytes>
    ensures { Gives result from.new ((scan_make (λ x f. tt) with scan_mark with scan_this 0) from.old) }
{
    let _ = from.mark()?;
    from.byte_that_is(0)
}

fn shut_by_both_of(from: &mut Cursor) -> Result<(), BadBytes>
    ensures { Gives result from.new ((scan_make (λ x f y. tt) with scan_mark with scan_this 1 with scan_mark) from.old) }
{
    let _ = from.mark()?;
    from.byte_that_is(1)?;
    let _ = from.mark()?;
    Ok(())
}

fn on_assoc_of(len: usize, from: &mut Cursor) -> Result<(), BadBytes>
    ensures { Gives result from.new ((scan_make (λ x y s r. tt) with scan_mark with scan_mark with scan_long with scan_dialogue_of len) from.old) }
{
    let _ = from.mark()?;
    let _ = from.mark()?;
    let _ = from.long()?;
    dialogue_of(len, from)
}

#[tactic(auto, unfolding(crate::specs::SentScanning::scan_dialogue_of))]
fn dialogue_of(len: usize, from: &mut Cursor) -> Result<(), BadBytes>
    ensures { Gives result from.new (scan_dialogue_of len from.old) }
{
    let left = from.left();
    let code = from.code()?;
    if len == 1 && is_bare(code) {
        Ok(())
    } else if len == 2 && (code == 16 || code == 18) {
        let _ = from.report()?;
        Ok(())
    } else if 3 <= len && len <= 1027 && code == 2 {
        octets_of(len - 3, from)
    } else if 42 <= len && len <= 72 && code == 12 {
        names_of(len - 40, from)?;
        let _ = read_holder(from)?;
        Ok(())
    } else {
        Err(BadBytes { left })
    }
}

#[tactic(auto, unfolding(crate::specs::SentScanning::is_bare))]
fn is_bare(code: u8) -> bool
    ensures { result ≡ is_bare code }
{
    matches!(code, 1 | 3..=11 | 13..=15 | 17 | 19 | 20)
}

#[tactic(auto, unfolding(crate::specs::SentScanning::scan_octets_of))]
fn octets_of(count: usize, from: &mut Cursor) -> Result<(), BadBytes>
    requires { count < 65536 }
    ensures { Gives result from.new (scan_octets_of count from.old) }
{
    from.byte_that_is((count / 256) as u8)?;
    from.byte_that_is((count % 256) as u8)?;
    from.skip(count)?;
    Ok(())
}

#[tactic(auto, unfolding(crate::specs::SentScanning::scan_names_of))]
fn names_of(letters: usize, from: &mut Cursor) -> Result<(), BadBytes>
    ensures { Gives result from.new (scan_names_of letters from.old) }
{
    let owner = from.site_within(letters.saturating_sub(16), letters.saturating_sub(1))?;
    let _ = from.mark()?;
    let rest = letters.saturating_sub(owner.bytes().len());
    let _ = from.site_within(rest, rest)?;
    let _ = from.mark()?;
    Ok(())
}

#[tactic(auto, unfolding(crate::specs::SentScanning::scan_reply_of))]
fn reply_of(len: usize, from: &mut Cursor) -> Result<(), BadBytes>
    ensures { Gives result from.new (scan_reply_of len from.old) }
{
    let owner = from.site_within(len.saturating_sub(18), len.saturating_sub(2))?;
    let _ = from.mark()?;
    let rest = len.saturating_sub(owner.bytes().len());
    let superior = from.site_within(rest.saturating_sub(2), rest.saturating_sub(1))?;
    let _ = from.mark()?;
    state_of(rest.saturating_sub(superior.bytes().len()), from)?;
    Ok(())
}

#[tactic(auto, unfolding(crate::specs::SentScanning::scan_state_of))]
fn state_of(len: usize, from: &mut Cursor) -> Result<(), BadBytes>
    ensures { Gives result from.new (scan_state_of len from.old) }
{
    let left = from.left();
    let code = from.code()?;
    if len == 1 && (code == 1 || code == 3 || code == 4) {
        Ok(())
    } else if len == 2 && code == 2 {
        let _ = from.report()?;
        Ok(())
    } else {
        Err(BadBytes { left })
    }
}
