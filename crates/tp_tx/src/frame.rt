//! What the frames of a root's program say.
ghost use Rattle.std.specs.Prelude.{◌≡◌};
ghost use Rattle.tp_records.specs.BodyReading.{event_in};
ghost use Rattle.tp_tx.specs.Frames.{alone, begin_in, frame_in};
ghost use Rattle.tp_tx.specs.Said.{IsFound, IsRead};

use std::alloc::Global;
use tp_model::Why;
use tp_names::RecordFault;
use tp_records::{Body, Event, decode_body};
use tp_streams::Stop;

/// What a frame asks for.
#[derive(Drop)]
pub enum Frame {
    /// An event of the site.
    Event(Event),
    /// That a transaction is begun at the dialogue with that peer.
    Begin { peer: u16 },
    /// Commitment.
    Commit,
    /// Rollback.
    Rollback,
    /// Nothing: the program has finished.
    Finish,
    /// Where the program stands, and nothing else.
    Ask,
}

// A call that has no more bytes.
fn alone(call: Frame, rest: &[u8]) -> Option<Frame>
    ensures { result ≡ alone call rest.now }
{
    if rest.is_empty() { Some(call) } else { None }
}

// A peer's number, the higher byte first.
fn begin(rest: &[u8]) -> Option<Frame>
    ensures { result ≡ begin_in rest.now }
{
    if rest.len() == 2 {
        Some(Frame::Begin {
            peer: u16::from(rest[0]) * 256 + u16::from(rest[1]),
        })
    } else {
        None
    }
}

// The event of which the body is the whole text.
fn read_event(alloc: Global, body: &[u8]) -> Result<Option<Event>, Stop>
    ensures { IsFound (event_in body.now) result }
{
    let (said, len) = match decode_body(alloc, body) {
        Ok(found) => found,
        Err(RecordFault::BadRecord { .. }) => return Ok(None),
        Err(RecordFault::NoMemory) => return Err(Stop::NoMemory),
    };
    match said {
        Body::Event(event) => {
            if len == body.len() {
                Ok(Some(event))
            } else {
                Ok(None)
            }
        }
        Body::Output(_) => Ok(None),
    }
}

// What the body says, if anything.
fn find_frame(alloc: Global, body: &[u8]) -> Result<Option<Frame>, Stop>
    ensures { IsFound (frame_in body.now) result }
{
    let Some((code, rest)) = body.split_first() else {
        return Ok(None);
    };
    match *code {
        0x20 => Ok(begin(rest)),
        0x21 => Ok(alone(Frame::Commit, rest)),
        0x22 => Ok(alone(Frame::Rollback, rest)),
        0x23 => Ok(alone(Frame::Finish, rest)),
        0x24 => Ok(alone(Frame::Ask, rest)),
        _ => match read_event(alloc, body)? {
            Some(event) => Ok(Some(Frame::Event(event))),
            None => Ok(None),
        },
    }
}

/// What the body of the frame with that number says.
pub(crate) fn read_frame(alloc: Global, body: &[u8], at: u64) -> Result<Frame, Stop>
    ensures { IsRead at body.now result }
{
    match find_frame(alloc, body)? {
        Some(frame) => Ok(frame),
        None => Err(Stop::BadInput { at, why: Why::Body }),
    }
}
