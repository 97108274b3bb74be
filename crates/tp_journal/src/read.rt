//! Reading the bytes of a log: the bodies one after the other, up to the closing gate or to where the log breaks off.
ghost use Rattle.std.specs.Prelude.{◌≡◌, ◌≢◌, ◌+◌, ◌≤◌, ◌<◌, ◌^◌, ◌++◌, ◌∷◌, [], ℕ, List, length, IfOk, IfSome, IfNone};
ghost use Rattle.std.specs.Int.{to_be_bytes, w64};
ghost use Rattle.tp_journal.specs.Log.{IsBody, counted, head};
ghost use Rattle.tp_journal.specs.Read.{EndsAs, IsReading};

use crate::shelf::Shelf;
use std::alloc::AllocError;

/// What the bytes of a log say: the place of the closing gate, and of the first gate where that isn't in front;
/// or the place at which they show that they are no log.
#[derive(Clone, Copy)]
pub enum Reading {
    Front { gate: u64 },
    Behind { place: u64, gate: u64 },
    Foreign { at: u64 },
}

/// Where the bodies of a text end: at a closed gate, or at a place that begins no body.
#[derive(Clone, Copy)]
pub enum End {
    Closed(usize),
    Broken(usize),
}

// A whole body and what follows it, after an open gate.
fn split_body(after: &[u8]) -> Option<(&[u8], &[u8])>
    ensures found { IfSome result (λ parts. IsBody parts.0.now × (after.now ≡ counted parts.0.now ++ parts.1.now)) }
    ensures none { IfNone result ((body rest : List ℕ) → IsBody body → after.now ≡ counted body ++ rest → ⊥) }
{
    let [high, low, rest @ ..] = after else {
        return None;
    };
    let len = usize::from(*high) * 256 + usize::from(*low);
    if len == 0 || rest.len() < len {
        return None;
    }
    Some(rest.split_at(len))
}

/// Reads bodies onto an empty shelf. Where the text ends is counted from its start. Without memory the shelf is thrown away.
pub fn read_bodies<S: Shelf>(text: &[u8], shelf: &mut S) -> Result<End, AllocError>
    requires empty { S.bodies shelf.old ≡ [] }
    requires fits { 5 + length text.now < 2 ^ 64 }
    ensures { IfOk result (EndsAs S.accepts text.now (S.bodies shelf.new)) }
{
    let mut rest = text;
    while let [1, after @ ..] = rest {
        let at = text.len() - rest.len();
        let Some((body, behind)) = split_body(after) else {
            return Ok(End::Broken(at));
        };
        if !shelf.take(5 + at as u64, body)? {
            return Ok(End::Broken(at));
        }
        rest = behind;
    }
    let at = text.len() - rest.len();
    if rest.is_empty() {
        return Ok(End::Broken(at));
    }
    Ok(End::Closed(at))
}

// The place that eight bytes tell.
fn place_of(tail: &[u8]) -> Option<u64>
    ensures found { IfSome result (λ place. tail.now ≡ to_be_bytes w64 place) }
    ensures none { IfNone result (length tail.now ≢ 8) }
{
    let [a, b, c, d, e, f, g, h] = tail else {
        return None;
    };
    Some(u64::from_be_bytes([*a, *b, *c, *d, *e, *f, *g, *h]))
}

fn read_front<S: Shelf>(text: &[u8], shelf: &mut S) -> Result<Reading, AllocError>
    requires empty { S.bodies shelf.old ≡ [] }
    requires fits { 5 + length text.now < 2 ^ 64 }
    ensures { IfOk result (λ reading. (selector : ℕ) → selector ≢ 2 → IsReading S.accepts (head selector ++ text.now) (S.bodies shelf.new) reading) }
{
    match read_bodies(text, shelf)? {
        End::Closed(at) => Ok(Reading::Front {
            gate: 5 + at as u64,
        }),
        End::Broken(at) => Ok(Reading::Foreign { at: 5 + at as u64 }),
    }
}

// The bodies stand at the place that the last eight bytes tell. The text is what follows the selector.
fn read_behind<S: Shelf>(text: &[u8], shelf: &mut S) -> Result<Reading, AllocError>
    requires empty { S.bodies shelf.old ≡ [] }
    requires fits { 5 + length text.now < 2 ^ 64 }
    ensures { IfOk result (IsReading S.accepts (head 2 ++ text.now) (S.bodies shelf.new)) }
{
    if text.len() < 8 {
        return Ok(Reading::Foreign { at: 4 });
    }
    let (bytes, tail) = text.split_at(text.len() - 8);
    let Some(place) = place_of(tail) else {
        return Ok(Reading::Foreign { at: 4 });
    };
    if place < 5 || place - 5 >= bytes.len() as u64 {
        return Ok(Reading::Foreign { at: 4 });
    }
    let (front, rest) = bytes.split_at((place - 5) as usize);
    read_at(front, rest, place, shelf)
}

fn read_at<S: Shelf>(
    front: &[u8],
    rest: &[u8],
    place: u64,
    shelf: &mut S,
) -> Result<Reading, AllocError>
    requires empty { S.bodies shelf.old ≡ [] }
    requires some { 0 < length rest.now }
    requires place { place ≡ 5 + length front.now }
    requires fits { place + length rest.now < 2 ^ 64 }
    ensures { IfOk result (IsReading S.accepts (head 2 ++ front.now ++ rest.now ++ to_be_bytes w64 place) (S.bodies shelf.new)) }
{
    match read_bodies(rest, shelf)? {
        End::Broken(at) => Ok(Reading::Foreign {
            at: place + at as u64,
        }),
        End::Closed(at) if at >= front.len() => Ok(Reading::Foreign { at: 4 }),
        End::Closed(at) => Ok(Reading::Behind {
            place,
            gate: place + at as u64,
        }),
    }
}

/// Reads the bytes of a log onto an empty shelf. Without memory the shelf is thrown away.
pub fn read_log<S: Shelf>(file: &[u8], shelf: &mut S) -> Result<Reading, AllocError>
    requires empty { S.bodies shelf.old ≡ [] }
    requires fits { length file.now < 2 ^ 64 }
    ensures { IfOk result (IsReading S.accepts file.now (S.bodies shelf.new)) }
{
    let [79, 84, 80, 76, selector, text @ ..] = file else {
        return Ok(Reading::Foreign { at: 0 });
    };
    if *selector == 2 {
        return read_behind(text, shelf);
    }
    read_front(text, shelf)
}
