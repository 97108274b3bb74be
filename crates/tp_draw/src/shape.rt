//! The shape of a line.
ghost use Rattle.std.specs.Prelude.{◌≡◌, ◌-◌, IfOk};
ghost use Rattle.tp_draw.specs.Lanes.{node_of};
ghost use Rattle.tp_draw.specs.Ends.{line_at};
ghost use Rattle.tp_draw.specs.Shapes.{shape_of, mark_of, end_shape, ending, asked_by, refused_request, refused_frame, refusal_after};

use crate::ends::{ended_at, is_in_row};
use crate::event::event_of;
use crate::lanes::node_of;
use crate::plan::Plan;
use crate::{End, Flight, Places, Tone};
use std::alloc::Global;
use tp_model::{Line, LogWords, OutLine};
use tp_names::{NoMemory, SiteName};

/// What a picture has in the row of a line, beside the line's own text. Lanes are told by their places.
#[derive(Clone, Copy)]
pub(crate) enum Shape {
    /// Nothing.
    Bare,
    /// A stripe: an event of the schedule begins.
    Event,
    /// A stripe in the color of a tree's outcome.
    Tree,
    /// A bar over the lanes of a site that starts.
    Boot {
        over: Places,
    },
    /// Words at the lanes of a site that stops in an event.
    Stop {
        over: Places,
    },
    /// A mark for a record of a node in the log.
    Mark {
        place: usize,
    },
    /// A ring for what a user is told.
    Told {
        place: usize,
    },
    /// The state of a node.
    State {
        place: usize,
    },
    /// An arrow for a frame, from this row to the one where the frame ends.
    Arrow {
        frame: u16,
        from: usize,
        to: usize,
        end: End,
    },
    /// An arrow for a frame that had an end before, from the row in which it was sent to this one.
    Again {
        frame: u16,
        from: usize,
        to: usize,
        sent: usize,
        tone: Tone,
        end: End,
    },
    /// Words at the end of an arrow whose frame is lost.
    Lost {
        from: usize,
        to: usize,
    },
    /// A cross for a request or a local event that is refused.
    Refused {
        place: usize,
    },
    /// Words at the end of an arrow whose frame is dropped or refused.
    Dropped {
        place: usize,
    },
}

/// The shape of the line in that row of the picture.
pub(crate) fn shape_of(
    alloc: Global,
    plan: &Plan,
    row: usize,
    line: &OutLine,
) -> Result<Shape, NoMemory>
    ensures { IfOk result (λ shape. shape ≡ shape_of plan.now row line.now) }
{
    match line {
        OutLine::Echo(_) => Ok(Shape::Event),
        OutLine::Log { site, rec } => Ok(mark_of(plan, site, rec)),
        OutLine::Take { .. } => Ok(ending(plan, row, ended_at(plan.lines(), row, line))),
        OutLine::Send {
            frame,
            from,
            to,
            ..
        } => Ok(Shape::Arrow {
            frame: *frame,
            from: plan.place_of(*from),
            to: plan.place_of(*to),
            end: plan.end_of(*frame),
        }),
        OutLine::Tell { node, .. } => Ok(Shape::Told {
            place: plan.place_of(*node),
        }),
        OutLine::Refused { .. } => refusal_at(alloc, plan, row),
        OutLine::Dropped { .. } => refusal_at(alloc, plan, row),
        OutLine::Nothing => Ok(Shape::Bare),
        OutLine::Lost { .. } => Ok(ending(plan, row, ended_at(plan.lines(), row, line))),
        OutLine::Stopped { site, .. } => Ok(Shape::Stop {
            over: plan.places_of(site),
        }),
        OutLine::State { node, .. } => Ok(Shape::State {
            place: plan.place_of(*node),
        }),
        OutLine::Image { .. } => Ok(Shape::Bare),
        OutLine::Agreed { .. } => Ok(Shape::Tree),
        OutLine::Mixed { .. } => Ok(Shape::Tree),
        OutLine::Open { .. } => Ok(Shape::Tree),
    }
}

fn mark_of(plan: &Plan, site: &SiteName, rec: &LogWords) -> Shape
    ensures { result ≡ mark_of plan.now site.now (node_of rec.now) }
{
    match node_of(rec) {
        None => Shape::Boot {
            over: plan.places_of(site),
        },
        Some(node) => Shape::Mark {
            place: plan.place_of(node),
        },
    }
}

// The shape of a line that says that a frame ends.
fn ending(plan: &Plan, row: usize, ended: Option<(u16, End)>) -> Shape
    ensures { result ≡ ending plan.now row ended }
{
    match ended {
        None => Shape::Bare,
        Some((frame, end)) => {
            let first = is_in_row(row, plan.end_of(frame));
            end_shape(plan, frame, first, end, plan.flight_of(frame))
        }
    }
}

fn end_shape(plan: &Plan, frame: u16, first: bool, end: End, flight: Option<Flight>) -> Shape
    ensures { result ≡ end_shape plan.now frame first end flight }
{
    let Some(flight) = flight else {
        return Shape::Bare;
    };
    let (from, to) = (plan.place_of(flight.from), plan.place_of(flight.to));
    if !first {
        let (sent, tone) = (flight.row, flight.tone);
        return Shape::Again {
            frame,
            from,
            to,
            sent,
            tone,
            end,
        };
    }
    match end {
        End::Lost { .. } => Shape::Lost { from, to },
        _ => Shape::Bare,
    }
}

// The shape of a refusal in that row, by the line before it.
fn refusal_at(alloc: Global, plan: &Plan, row: usize) -> Result<Shape, NoMemory>
    ensures { IfOk result (λ shape. shape ≡ refusal_after plan.now (line_at plan.now (row - 1))) }
{
    let before = row.saturating_sub(1);
    if before < plan.lines().len() {
        refusal_after(alloc, plan, &plan.lines()[before])
    } else {
        Ok(Shape::Bare)
    }
}

fn refusal_after(alloc: Global, plan: &Plan, line: &OutLine) -> Result<Shape, NoMemory>
    ensures { IfOk result (λ shape. shape ≡ refusal_after plan.now line.now) }
{
    match line {
        OutLine::Take { frame } => match plan.flight_of(*frame) {
            None => Ok(Shape::Bare),
            Some(flight) => Ok(Shape::Dropped {
                place: plan.place_of(flight.to),
            }),
        },
        _ => {
            let event = event_of(alloc, line)?;
            match asked_by(&event) {
                None => Ok(Shape::Bare),
                Some(node) => Ok(Shape::Refused {
                    place: plan.place_of(node),
                }),
            }
        }
    }
}

// The node of a request or of a local event.
fn asked_by(event: &Option<Line>) -> Option<u16>
    ensures { result ≡ asked_by event.now }
{
    match event {
        Some(Line::Do { node, .. }) => Some(*node),
        Some(Line::Lose { node, .. }) => Some(*node),
        Some(Line::Heur { node, .. }) => Some(*node),
        Some(Line::GiveUp { node, .. }) => Some(*node),
        Some(Line::Retry { node }) => Some(*node),
        Some(Line::Purge { node }) => Some(*node),
        _ => None,
    }
}
