//! Shapes in an SVG file.
ghost use Rattle.std.specs.Prelude.{◌≡◌, ◌++◌, OnOk};
ghost use Rattle.tp_draw.specs.Svg.{ground, sign, mark_kind, again_text, shape_text};

use crate::arrow::write_arrow;
use crate::coordinates::{along, down};
use crate::figure::{write_bar, write_figure, write_words_at};
use crate::tone::tone_of;
use crate::{End, Picture, Shape, Tone, View};
use tp_model::{LogWords, OutLine};
use tp_names::NoMemory;

/// From the left edge to the right one, as high as a row.
const STRIPE: &str = "h999999v20H0z";

const SQUARE: &str = "h8v8h-8z";

const CIRCLE: &str = "m0 4a4 4 0 1 1 8 0a4 4 0 1 1 -8 0z";

const CROSS: &str = "l8 8m0-8l-8 8";

/// What the shape has behind the lanes.
pub(crate) fn write_ground(
    view: View,
    row: usize,
    shape: Shape,
    line: &OutLine,
    out: &mut Picture,
) -> Result<(), NoMemory>
    ensures { OnOk result (out.new ≡ out.old ++ ground view row shape line.now) }
{
    let corner = (0, down(view, 0, row));
    match shape {
        Shape::Event => write_figure("e", Tone::Plain, corner, STRIPE, out),
        Shape::Tree => write_figure("t", tone_of(line), corner, STRIPE, out),
        Shape::Boot { over } => {
            let y = down(view, 2, row);
            write_bar(view, "s", y, "16", over, out)
        }
        _ => Ok(()),
    }
}

/// What it has before them.
pub(crate) fn write_shape(
    view: View,
    row: usize,
    shape: Shape,
    line: &OutLine,
    out: &mut Picture,
) -> Result<(), NoMemory>
    ensures { OnOk result (out.new ≡ out.old ++ shape_text view row shape line.now) }
{
    let y = down(view, 14, row);
    match shape {
        Shape::Bare => Ok(()),
        Shape::Event => Ok(()),
        Shape::Tree => Ok(()),
        Shape::Boot { over } => write_words_at(view, (false, over.first), y, "", line, out),
        Shape::Stop { over } => {
            let bold = " font-weight='bold'";
            write_words_at(view, (false, over.first), y, bold, line, out)
        }
        Shape::Mark { place } => {
            let bold = " font-weight='bold'";
            write_sign(view, (row, place), mark_kind(line), SQUARE, bold, line, out)
        }
        Shape::Told { place } => {
            let italic = " font-style='italic'";
            write_sign(view, (row, place), "h", CIRCLE, italic, line, out)
        }
        Shape::State { place } => { write_sign(view, (row, place), "m", CIRCLE, "", line, out) }
        Shape::Arrow { from, to, end, .. } => {
            write_arrow(view, row, (from, to), "", (tone_of(line), end), out)?;
            let side = (!(from <= to), from);
            write_words_at(view, side, down(view, 13, row), "", line, out)
        }
        Shape::Again {
            from,
            to,
            sent,
            tone,
            end,
            ..
        } => {
            let (rows, lanes) = ((row, sent), (from, to));
            write_again(view, rows, lanes, (tone, end), line, out)
        }
        Shape::Lost { from, to } => { write_words_at(view, (from <= to, to), y, "", line, out) }
        Shape::Refused { place } => { write_sign(view, (row, place), "x", CROSS, "", line, out) }
        Shape::Dropped { place } => write_words_at(view, (false, place), y, "", line, out),
    }
}

// An arrow from the row in which the frame was sent, with words at its end, in the other row.
#[tactic(auto, unfolding(crate::specs::Svg::again_text))]
fn write_again(
    view: View,
    rows: (usize, usize),
    lanes: (usize, usize),
    end: (Tone, End),
    line: &OutLine,
    out: &mut Picture,
) -> Result<(), NoMemory>
    ensures { OnOk result (out.new ≡ out.old ++ again_text view rows.0 rows.1 lanes.0 lanes.1 end.0 end.1 line.now) }
{
    let (row, sent) = rows;
    let dash = " stroke-dasharray='6 3'";
    write_arrow(view, sent, lanes, dash, end, out)?;
    let side = (lanes.0 <= lanes.1, lanes.1);
    write_words_at(view, side, down(view, 14, row), "", line, out)
}

// A figure of a kind in the middle of a lane, with its words, which have that look.
#[tactic(auto, unfolding(crate::specs::Svg::sign))]
fn write_sign<'a>(
    view: View,
    at: (usize, usize),
    kind: &'a str,
    way: &'a str,
    look: &'a str,
    line: &'a OutLine,
    out: &mut Picture,
) -> Result<(), NoMemory>
    ensures { OnOk result (out.new ≡ out.old ++ sign view at.0 at.1 kind.now way.now look.now line.now) }
{
    let (row, place) = at;
    let corner = (along(view, 106, place), down(view, 6, row));
    write_figure(kind, tone_of(line), corner, way, out)?;
    write_words_at(view, (false, place), down(view, 14, row), look, line, out)
}

// A decision is hollow.
fn mark_kind(line: &OutLine) -> &'static str
    ensures { result.now ≡ mark_kind line.now }
{
    match line {
        OutLine::Log { rec, .. } => match rec {
            LogWords::Heuristic { .. } => "h",
            _ => "m",
        },
        _ => "m",
    }
}
