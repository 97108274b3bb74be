//! Events out of a source.
ghost use Rattle.std.specs.Prelude.{◌≡◌, ◌≤◌};
ghost use Rattle.tp_model.specs.NodeTranscript.{is_declare as declares};
ghost use Rattle.tp_streams.specs.Said.{IsRead};

use crate::{Intake, Stop};
use std::alloc::Global;
use std::marker::Model;
use tp_model::{What, Why};
use tp_names::RecordFault;
use tp_outside::Source;
use tp_records::{Body, Event, decode_body};

/// The most nodes that are declared.
const MOST_NODES: u16 = 256;

/// Reads a stream of frames event by event, up to the first that is bad or passes a limit. Contracts see where it stands
/// among the frames, how many nodes were declared, and how many events there may be.
#[derive(Drop)]
pub struct EventIntake {
    intake: Intake,
    declares: u16,
    most: u64,
}

impl Model for EventIntake {
    ghost use Rattle.std.specs.Prelude.{◌≤◌};
    ghost use Rattle.tp_streams.specs.Events.{EventPlace};

    ghost Value = { EventPlace };

    ghost view = { λ s. record { place = s.intake; declares = s.declares; most = s.most } };

    ghost invariant = { λ s. s.declares ≤ 256 };
}

impl EventIntake {
    ghost use Rattle.std.specs.Prelude.{◌≡◌, ◌≤◌, ℕ, suc, true, [], Some, None, Err, length, IfErr};
    ghost use Rattle.tp_streams.specs.Stops.{IsEventStop};
    ghost use Rattle.tp_streams.specs.Taken.{bytes_left, is_at_hand, IsFor, IsCutOff};
    ghost use Rattle.tp_streams.specs.Events.{answer_event, LeavesEvents};
    ghost use Rattle.tp_streams.specs.Admitted.{Admits};

    /// A reader at the start of a stream, of so many events at most.
    pub fn new(alloc: Global, most: u64) -> EventIntake
        ensures { result ≡ record { place = record { held = []; at = 0; stop = None }; declares = 0; most = most } }
    {
        EventIntake {
            intake: Intake::new(alloc),
            declares: 0,
            most,
        }
    }

    /// The number of the frame that was read last, which counts from 1; 0 where none was.
    pub fn at(&self) -> u64
        ensures { result ≡ self.now.place.at }
    {
        self.intake.at()
    }

    // Promise 2.40, part 3
    /// Whether the next call reads nothing of the source: the next frame is at hand, or a bad length, or a stop from before.
    pub fn is_ready(&self) -> bool
        ensures { result ≡ is_at_hand self.now.place }
    {
        self.intake.is_ready()
    }

    /// The next event; None where the stream ends between two frames. The frame that is no frame or says no event is bad;
    /// then comes the limit of events, and then that of 256 nodes declared, each at the first frame that passes it. A
    /// declaration counts whatever a site makes of it. After a stop each call answers the same stop and reads nothing.
    /// Every call is to be given the same source.
    pub fn next<S: Source>(&mut self, alloc: Global, source: &mut S) -> Result<Option<Event>, Stop>
        // Promise 2.31 [clauses event leaves]: So are the events that the bodies say, up to the
        //   first that says none or passes the limit of events or of 256 nodes declared
        ensures event { IsFor (answer_event self.old) (bytes_left self.old.place (S.left source.old)) result }
        ensures leaves { LeavesEvents self.old (S.left source.old) result self.new (S.left source.new) }
        // Promise 2.32, part 2 [clauses stops cut_off again unread]
        ensures stops { self.old.place.stop ≡ None → IfErr result (IsEventStop (suc self.old.place.at) (S.fault_count source.old) (S.fault_count source.new)) }
        ensures cut_off { (n : ℕ) → self.old.place.stop ≡ None → result ≡ Err (Stop.ReadFault n)
            → IsCutOff self.old.place (S.left source.old) self.new.place (S.left source.new) }
        ensures again { (stop : Stop) → self.old.place.stop ≡ Some stop → result ≡ Err stop }
        // Promise 2.39, part 2
        ensures unread { is_at_hand self.old.place ≡ true → source.new ≡ source.old }
        // Promise 2.33, part 2
        ensures few { length self.new.place.held ≤ 10241 }
        ensures kept { S.fault_count source.old ≤ S.fault_count source.new }
    {
        let Some(body) = self.intake.next(alloc, source)? else {
            return Ok(None);
        };
        match self.admit(alloc, body.as_slice()) {
            Ok(event) => Ok(Some(event)),
            Err(stop) => Err(self.intake.end(stop)),
        }
    }

    /// The event that the last body says, and what it counts for; or why it is not let in.
    fn admit(&mut self, alloc: Global, body: &[u8]) -> Result<Event, Stop>
        ensures { Admits self.old body.now result self.new }
    {
        let at = self.intake.at();
        let event = read_event(alloc, body, at)?;
        if at > self.most {
            return Err(Stop::Limit {
                what: What::Events,
                at,
            });
        }
        if is_declare(&event) {
            if self.declares == MOST_NODES {
                return Err(Stop::Limit {
                    what: What::Nodes,
                    at,
                });
            }
            self.declares += 1;
        }
        Ok(event)
    }
}

// The event of which the body is the whole text; the body's frame has that number.
fn read_event(alloc: Global, body: &[u8], at: u64) -> Result<Event, Stop>
    ensures { IsRead at body.now result }
{
    let bad = Stop::BadInput { at, why: Why::Body };
    let (said, len) = match decode_body(alloc, body) {
        Ok(found) => found,
        Err(RecordFault::BadRecord { .. }) => return Err(bad),
        Err(RecordFault::NoMemory) => return Err(Stop::NoMemory),
    };
    match said {
        Body::Event(event) => {
            if len == body.len() {
                Ok(event)
            } else {
                Err(bad)
            }
        }
        Body::Output(_) => Err(bad),
    }
}

fn is_declare(event: &Event) -> bool
    ensures { result ≡ declares event.now }
{
    matches!(event, Event::Declare { .. })
}
