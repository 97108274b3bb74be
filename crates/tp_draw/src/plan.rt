//! A transcript, with what was found in it for its picture.
ghost use Rattle.std.specs.Prelude.{◌≡◌, ◌<◌, ℕ, None, length, slice_index_or, IfOk};
ghost use Rattle.tp_draw.specs.Ends.{end_of};
ghost use Rattle.tp_draw.specs.Flights.{flight_of};
ghost use Rattle.tp_draw.specs.declared.end.End.{End};

use crate::ends::{no_ends, note_ends};
use crate::flight::{no_flights, note_flights};
use crate::lanes::{lanes_of, place_in, places_in};
use crate::{End, Flight, Lane, Places};
use std::alloc::Global;
use std::marker::Model;
use tp_model::OutLine;
use tp_names::{NoMemory, SiteName};

/// The lines of a transcript, with the lanes of their nodes and, by the frames' numbers, the flights and the ends of
/// their frames.
/// Contracts see the lines.
#[derive(Drop)]
pub(crate) struct Plan<'a> {
    lines: &'a [OutLine],
    lanes: Vec<Lane>,
    flights: Vec<Option<Flight>>,
    ends: Vec<End>,
}

impl<'a> Model for Plan<'a> {
    ghost use Rattle.std.specs.Prelude.{List};
    ghost use Rattle.tp_model.specs.declared.out_line.OutLine.{OutLine};

    ghost Value = { List OutLine };

    ghost use Rattle.tp_draw.specs.Plans.{IsPlan};

    ghost view = { λ p. p.lines.now };

    ghost invariant = { IsPlan };
}

impl<'a> Plan<'a> {
    ghost use Rattle.std.specs.Prelude.{◌≡◌, IfOk};
    ghost use Rattle.tp_draw.specs.Lanes.{lanes_of};
    ghost use Rattle.tp_draw.specs.Shapes.{place_of, places_of};
    ghost use Rattle.tp_draw.specs.Ends.{end_of};
    ghost use Rattle.tp_draw.specs.Flights.{flight_of};

    /// The plan of these lines.
    pub(crate) fn new(alloc: Global, lines: &'a [OutLine]) -> Result<Plan<'a>, NoMemory>
        ensures { IfOk result (λ plan. plan ≡ lines.now) }
    {
        let lanes = lanes_of(alloc, lines)?;
        let flights = flights_of(alloc, lines)?;
        let ends = ends_of(alloc, lines)?;
        Ok(Plan {
            lines,
            lanes,
            flights,
            ends,
        })
    }

    /// The lines.
    pub(crate) fn lines(&self) -> &[OutLine]
        ensures { result.now ≡ self.now }
    {
        self.lines
    }

    /// The lanes, in order.
    pub(crate) fn lanes(&self) -> &[Lane]
        ensures { result.now ≡ lanes_of self.now }
    {
        self.lanes.as_slice()
    }

    /// The place of the node's lane.
    pub(crate) fn place_of(&self, node: u16) -> usize
        ensures { result ≡ place_of self.now node }
    {
        place_in(self.lanes.as_slice(), node)
    }

    /// The places of the site's lanes.
    pub(crate) fn places_of(&self, site: &SiteName) -> Places
        ensures { result ≡ places_of self.now site.now }
    {
        places_in(self.lanes.as_slice(), site)
    }

    /// The flight of the frame; None where no line says that it was sent.
    pub(crate) fn flight_of(&self, frame: u16) -> Option<Flight>
        ensures { result ≡ flight_of self.now frame }
    {
        self.flights[usize::from(frame)]
    }

    /// Where the frame comes to its end.
    pub(crate) fn end_of(&self, frame: u16) -> End
        ensures { result ≡ end_of self.now frame }
    {
        self.ends[usize::from(frame)]
    }
}

fn flights_of(alloc: Global, lines: &[OutLine]) -> Result<Vec<Option<Flight>>, NoMemory>
    ensures many { IfOk result (λ flights. length flights.items ≡ 65536) }
    ensures flights { IfOk result (λ flights. (k : ℕ) → k < 65536 → slice_index_or flights.items k None ≡ flight_of lines.now k) }
{
    let mut flights = no_flights(alloc)?;
    note_flights(&mut flights, lines);
    Ok(flights)
}

fn ends_of(alloc: Global, lines: &[OutLine]) -> Result<Vec<End>, NoMemory>
    ensures many { IfOk result (λ ends. length ends.items ≡ 65536) }
    ensures ends { IfOk result (λ ends. (k : ℕ) → k < 65536 → slice_index_or ends.items k End.Never ≡ end_of lines.now k) }
{
    let mut ends = no_ends(alloc)?;
    note_ends(&mut ends, lines);
    Ok(ends)
}
