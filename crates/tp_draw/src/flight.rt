//! Where a frame comes from.
ghost use Rattle.std.specs.Prelude.{◌≡◌, ◌<◌, ℕ, None, Some, length, slice_index_or, IfOk};
ghost use Rattle.tp_draw.specs.Flights.{sent_at, flight_at, flight_in, flight_or};
ghost use Rattle.tp_draw.specs.declared.flight.Flight.{Flight};

use crate::Tone;
use crate::ends::FRAMES;
use crate::tone::tone_of_sent;
use std::alloc::Global;
use tp_model::OutLine;
use tp_names::NoMemory;

/// Where a frame comes from, and goes to: the row of the line that says that it was sent, and the nodes. Its arrow has
/// the tone of that line.
#[derive(Clone, Copy)]
pub(crate) struct Flight {
    pub row: usize,
    pub from: u16,
    pub to: u16,
    pub tone: Tone,
}

/// A table in which no frame was sent.
pub(crate) fn no_flights(alloc: Global) -> Result<Vec<Option<Flight>>, NoMemory>
    ensures many { IfOk result (λ flights. length flights.items ≡ 65536) }
    ensures none { IfOk result (λ flights. (k : ℕ) → slice_index_or flights.items k None ≡ None) }
{
    let mut flights = Vec::with_capacity(alloc, FRAMES)?;
    for _i in 0..FRAMES {
        flights.push(None)?;
    }
    Ok(flights)
}

/// Notes the flights that the lines tell, of the frames that have none yet, in a table by the frames' numbers.
pub(crate) fn note_flights(flights: &mut Vec<Option<Flight>>, lines: &[OutLine])
    requires { length flights.old.items ≡ 65536 }
    ensures many { length flights.new.items ≡ 65536 }
    ensures flights { (k : ℕ) → k < 65536
        → slice_index_or flights.new.items k None ≡ flight_or (slice_index_or flights.old.items k None) (flight_in k 0 lines.now) }
{
    for (row, line) in lines.iter().enumerate() {
        if let Some((frame, flight)) = sent_at(row, line) {
            note(flights, frame, flight);
        }
    }
}

// The frame that is sent at this line, in that row, and its flight.
fn sent_at(row: usize, line: &OutLine) -> Option<(u16, Flight)>
    ensures { result ≡ sent_at row line.now }
{
    match line {
        OutLine::Send {
            frame,
            from,
            to,
            rec,
        } => {
            let flight = Flight {
                row,
                from: *from,
                to: *to,
                tone: tone_of_sent(rec),
            };
            Some((*frame, flight))
        }
        _ => None,
    }
}

// The frame has that flight, if it has none yet.
fn note(flights: &mut Vec<Option<Flight>>, frame: u16, flight: Flight)
    requires { length flights.old.items ≡ 65536 }
    ensures many { length flights.new.items ≡ 65536 }
    ensures flights { (k : ℕ) → k < 65536
        → slice_index_or flights.new.items k None ≡ flight_or (slice_index_or flights.old.items k None) (flight_at k (Some (frame, flight))) }
{
    let at = usize::from(frame);
    if let None = flights[at] {
        flights[at] = Some(flight);
    }
}
