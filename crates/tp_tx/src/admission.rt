//! Which frames are let in.
ghost use Rattle.std.specs.Prelude.{◌≡◌, ◌≤◌};
ghost use Rattle.tp_tx.specs.Frames.{declared_by_frame};
ghost use Rattle.tp_tx.specs.Admitted.{Admits};

use crate::frame::{Frame, read_frame};
use std::alloc::Global;
use tp_model::What;
use tp_records::Event;
use tp_streams::Stop;

/// The most frames that are read.
const MOST_FRAMES: u64 = 1_000_000;

/// The most frames that declare a node.
const MOST_NODES: u16 = 256;

// How many nodes the frame declares.
fn declared_by(frame: &Frame) -> u16
    ensures { result ≡ declared_by_frame frame.now }
{
    match frame {
        Frame::Event(Event::Declare { .. }) => 1,
        _ => 0,
    }
}

/// What the body of the frame with that number says, within the limits; where it declares a node it is counted.
pub(crate) fn admit(alloc: Global, body: &[u8], at: u64, declares: &mut u16) -> Result<Frame, Stop>
    requires { declares.old ≤ 256 }
    ensures admits { Admits at declares.old body.now result declares.new }
    ensures few { declares.new ≤ 256 }
{
    let frame = read_frame(alloc, body, at)?;
    if at > MOST_FRAMES {
        return Err(Stop::Limit {
            what: What::Events,
            at,
        });
    }
    let more = declared_by(&frame);
    if *declares + more > MOST_NODES {
        return Err(Stop::Limit {
            what: What::Nodes,
            at,
        });
    }
    *declares += more;
    Ok(frame)
}
