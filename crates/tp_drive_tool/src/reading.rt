//! The whole input, before anything is done of it.
ghost use Rattle.std.specs.Prelude.{◌≡◌, ◌≤◌, ◌∷◌, ◌++◌, [], ℕ, List, Some, IfOk, IfErr, OnOk};
ghost use Rattle.tp_streams.specs.declared.stop.Stop.{Stop as TheStop};
ghost use Rattle.tp_drive_tool.specs.Reading.{HasRead, IsInputStop, IsReadCause};

use std::alloc::Global;
use tp_outside::Source;
use tp_records::Event;
use tp_streams::{EventIntake, Stop};

/// The most events that are read.
const MOST_EVENTS: u64 = 100_000;

/// The events that the frames of the source say, to its end.
pub(crate) fn read_events<S: Source>(alloc: Global, source: &mut S) -> Result<Vec<Event>, Stop>
    ensures reads { IfOk result (λ events. (bytes : List ℕ) → S.left source.old ≡ Some bytes → HasRead bytes events.items (S.left source.new)) }
    ensures stops { IfErr result (λ stop. (bytes : List ℕ) → S.left source.old ≡ Some bytes → IsInputStop bytes (S.left source.new) stop) }
    ensures cause { IfErr result (IsReadCause (S.fault_count source.old) (S.fault_count source.new)) }
    ensures kept { S.fault_count source.old ≤ S.fault_count source.new }
{
    let mut intake = EventIntake::new(alloc, MOST_EVENTS);
    let mut events = Vec::new(alloc);
    'events: for _ in 0..u64::MAX {
        let Some(event) = intake.next(alloc, source)? else {
            return Ok(events);
        };
        push(&mut events, event)?;
    }
    Err(Stop::NoMemory)
}

// One event more.
fn push(events: &mut Vec<Event>, event: Event) -> Result<(), Stop>
    ensures ok { OnOk result (events.new.items ≡ events.old.items ++ event ∷ []) }
    ensures err { IfErr result (λ stop. stop ≡ TheStop.NoMemory) }
{
    match events.push(event) {
        Ok(()) => Ok(()),
        Err(_) => Err(Stop::NoMemory),
    }
}
