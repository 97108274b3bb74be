//! The event of the schedule that a line tells.
ghost use Rattle.std.specs.Prelude.{◌≡◌, IfOk};
ghost use Rattle.tp_draw.specs.Events.{event_of};

use std::alloc::Global;
use tp_model::{Line, OutLine};
use tp_names::NoMemory;
use tp_schedule::{LineFault, read_line};

/// The event; None where the line tells none.
pub(crate) fn event_of(alloc: Global, line: &OutLine) -> Result<Option<Line>, NoMemory>
    ensures { IfOk result (λ event. event ≡ event_of line.now) }
{
    let OutLine::Echo(text) = line else {
        return Ok(None);
    };
    match read_line(alloc, text.as_slice()) {
        Ok(Some(event)) => Ok(Some(event)),
        Ok(None) => Ok(None),
        Err(LineFault::NoMemory) => Err(NoMemory),
        Err(_) => Ok(None),
    }
}
