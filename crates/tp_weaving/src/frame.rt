//! The frames of a recording.
ghost use Rattle.std.specs.Prelude.{◌≡◌, IfOk};
ghost use Rattle.tp_records.specs.BodyReading.{event_in};
ghost use Rattle.tp_weaving.specs.Frames.{site_in, place_in, place_under_in, start_in, taking_in, frame_in};

use std::alloc::Global;
use tp_names::{NoMemory, RecordFault, SiteName};
use tp_records::{Body, Event, decode_body};

/// What a frame tells.
#[derive(Drop)]
pub enum Frame {
    /// A node has its place at that site, under the node of that number where one is given.
    Place {
        node: u16,
        under: Option<u16>,
        site: SiteName,
    },
    /// A process of that site starts.
    Starts(SiteName),
    /// The process that started last is given that event.
    Takes(Event),
}

fn site_of(len: u8, name: &[u8]) -> Option<SiteName>
    ensures { result ≡ site_in len name.now }
{
    if name.len() != usize::from(len) {
        return None;
    }
    SiteName::new(name)
}

// A node's number and its site.
fn place_in(rest: &[u8]) -> Option<Frame>
    ensures { result ≡ place_in rest.now }
{
    match rest {
        [high, low, len, name @ ..] => Some(Frame::Place {
            node: u16::from_be_bytes([*high, *low]),
            under: None,
            site: site_of(*len, name)?,
        }),
        _ => None,
    }
}

// The same, with its superior's number before the site.
fn place_under_in(rest: &[u8]) -> Option<Frame>
    ensures { result ≡ place_under_in rest.now }
{
    match rest {
        [high, low, above, below, len, name @ ..] => Some(Frame::Place {
            node: u16::from_be_bytes([*high, *low]),
            under: Some(u16::from_be_bytes([*above, *below])),
            site: site_of(*len, name)?,
        }),
        _ => None,
    }
}

fn start_in(rest: &[u8]) -> Option<Frame>
    ensures { result ≡ start_in rest.now }
{
    match rest {
        [len, name @ ..] => Some(Frame::Starts(site_of(*len, name)?)),
        _ => None,
    }
}

// The event of which the body is the whole text.
fn read_event(alloc: Global, body: &[u8]) -> Result<Option<Event>, NoMemory>
    ensures { IfOk result (λ event. event ≡ event_in body.now) }
{
    let (said, len) = match decode_body(alloc, body) {
        Ok(found) => found,
        Err(RecordFault::BadRecord { .. }) => return Ok(None),
        Err(RecordFault::NoMemory) => return Err(NoMemory),
    };
    match said {
        Body::Event(event) => {
            if len == body.len() {
                Ok(Some(event))
            } else {
                Ok(None)
            }
        }
        Body::Output(_) => Ok(None),
    }
}

fn taking_in(alloc: Global, body: &[u8]) -> Result<Option<Frame>, NoMemory>
    ensures { IfOk result (λ frame. frame ≡ taking_in body.now) }
{
    match read_event(alloc, body)? {
        Some(event) => Ok(Some(Frame::Takes(event))),
        None => Ok(None),
    }
}

/// What the body of a frame tells, where it is one of a recording.
pub fn read_frame(alloc: Global, body: &[u8]) -> Result<Option<Frame>, NoMemory>
    ensures { IfOk result (λ frame. frame ≡ frame_in body.now) }
{
    match body {
        [0x50, rest @ ..] => Ok(place_in(rest)),
        [0x51, rest @ ..] => Ok(place_under_in(rest)),
        [0x52, rest @ ..] => Ok(start_in(rest)),
        _ => taking_in(alloc, body),
    }
}
