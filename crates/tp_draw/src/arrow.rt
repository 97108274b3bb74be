//! Arrows in an SVG file.
ghost use Rattle.std.specs.Prelude.{◌≡◌, ◌++◌, nat_le, OnOk};
ghost use Rattle.tp_draw.specs.Svg.{arrow_start, hop, passed, hops, between, arrow_stop, turn_side, edge_side, arrow_end, arrow};

use crate::coordinates::{along, down};
use crate::piece::Piece;
use crate::tone::tone_name;
use crate::{End, Picture, Tone, View};
use tp_names::NoMemory;

/// An arrow from the row of a send to the frame's end, between these lanes.
#[tactic(auto, unfolding(crate::specs::Svg::arrow))]
pub(crate) fn write_arrow(
    view: View,
    row: usize,
    lanes: (usize, usize),
    dash: &str,
    end: (Tone, End),
    out: &mut Picture,
) -> Result<(), NoMemory>
    ensures { OnOk result (out.new ≡ out.old ++ arrow view row lanes.0 lanes.1 dash.now end.0 end.1) }
{
    let (from, to) = lanes;
    let right = from <= to;
    let at = (along(view, 110, from), down(view, 17, row));
    write_start(end.0, at, out)?;
    write_hops(view, right, from, between(from, to), out)?;
    let turn = along(view, if right { 96 } else { 124 }, to);
    let edge = along(view, if right { 102 } else { 118 }, to);
    write_end(view, row, (turn, edge), dash, end, out)
}

#[tactic(auto, unfolding(crate::specs::Svg::arrow_start))]
fn write_start(tone: Tone, at: (u64, u64), out: &mut Picture) -> Result<(), NoMemory>
    ensures { OnOk result (out.new ≡ out.old ++ arrow_start tone at.0 at.1) }
{
    out.put(&[
        Piece::Text("<path class='a "),
        Piece::Tone(tone),
        Piece::Text("' d='M"),
        Piece::Number(at.0),
        Piece::Text(" "),
        Piece::Number(at.1),
    ])
}

// How many lanes are between two.
fn between(from: usize, to: usize) -> usize
    ensures { result ≡ between from to }
{
    if from <= to {
        to.saturating_sub(from).saturating_sub(1)
    } else {
        from.saturating_sub(to).saturating_sub(1)
    }
}

// Bows over so many lanes on one side of a lane.
fn write_hops(
    view: View,
    right: bool,
    from: usize,
    count: usize,
    out: &mut Picture,
) -> Result<(), NoMemory>
    ensures { OnOk result (out.new ≡ out.old ++ hops view right from count) }
{
    for i in 0..count {
        write_hop(view, right, passed(right, from, i + 1), out)?;
    }
    Ok(())
}

// The lane that is so far from another.
fn passed(right: bool, from: usize, lanes: usize) -> usize
    ensures { result ≡ passed right from lanes }
{
    if right {
        from.saturating_add(lanes)
    } else {
        from.saturating_sub(lanes)
    }
}

#[tactic(auto, unfolding(crate::specs::Svg::hop))]
fn write_hop(view: View, right: bool, place: usize, out: &mut Picture) -> Result<(), NoMemory>
    ensures { OnOk result (out.new ≡ out.old ++ hop view right place) }
{
    let x = along(view, if right { 104 } else { 116 }, place);
    let bow = if right {
        "a6 6 0 0 1 12 0"
    } else {
        "a6 6 0 0 0 -12 0"
    };
    out.put(&[Piece::Text("H"), Piece::Number(x), Piece::Text(bow)])
}

// The end of an arrow from that row, beside a lane or at its edge.
fn write_end(
    view: View,
    row: usize,
    lane: (u64, u64),
    dash: &str,
    end: (Tone, End),
    out: &mut Picture,
) -> Result<(), NoMemory>
    ensures { OnOk result (out.new ≡ out.old ++ arrow_end view row lane.0 lane.1 dash.now end.0 end.1) }
{
    let (turn, edge) = lane;
    let (tone, end) = end;
    match end {
        End::Never => {
            let dots = " stroke-dasharray='2 4'";
            write_stop(turn, (turn, down(view, 17, row)), dots, "n", out)
        }
        End::Taken { row: last } => {
            let tip = tone_name(tone);
            write_stop(turn, (edge, down(view, 10, last)), dash, tip, out)
        }
        End::Refused { row: last } => {
            write_stop(turn, (edge, down(view, 10, last)), dash, "x", out)
        }
        End::Lost { row: last } => {
            write_stop(turn, (turn, down(view, 10, last)), dash, "x", out)
        }
    }
}

// From where an arrow turns to its tip.
#[tactic(auto, unfolding(crate::specs::Svg::arrow_stop))]
fn write_stop<'a>(
    x: u64,
    to: (u64, u64),
    dash: &'a str,
    tip: &'a str,
    out: &mut Picture,
) -> Result<(), NoMemory>
    ensures { OnOk result (out.new ≡ out.old ++ arrow_stop x to.0 to.1 dash.now tip.now) }
{
    out.put(&[
        Piece::Text("H"),
        Piece::Number(x),
        Piece::Text("L"),
        Piece::Number(to.0),
        Piece::Text(" "),
        Piece::Number(to.1),
        Piece::Text("'"),
        Piece::Text(dash),
        Piece::Text(" marker-end='url(#"),
        Piece::Text(tip),
        Piece::Text(")'/>\n"),
    ])
}
