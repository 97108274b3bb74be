//! Figures and words in an SVG file.
ghost use Rattle.std.specs.Prelude.{◌≡◌, ◌++◌, OnOk};
ghost use Rattle.tp_draw.specs.Svg.{figure, bar, words_text, words_at};

use crate::coordinates::along;
use crate::piece::Piece;
use crate::tone::tone_of;
use crate::{Picture, Places, Tone, View};
use tp_model::OutLine;
use tp_names::NoMemory;

/// A figure of a kind, in a tone: a path from a point.
#[tactic(auto, unfolding(crate::specs::Svg::figure))]
pub(crate) fn write_figure<'a>(
    kind: &'a str,
    tone: Tone,
    at: (u64, u64),
    way: &'a str,
    out: &mut Picture,
) -> Result<(), NoMemory>
    ensures { OnOk result (out.new ≡ out.old ++ figure kind.now tone at.0 at.1 way.now) }
{
    out.put(&[
        Piece::Text("<path class='"),
        Piece::Text(kind),
        Piece::Text(" "),
        Piece::Tone(tone),
        Piece::Text("' d='M"),
        Piece::Number(at.0),
        Piece::Text(" "),
        Piece::Number(at.1),
        Piece::Text(way),
        Piece::Text("'/>\n"),
    ])
}

/// A bar of a kind over these lanes, from that height and so high.
#[tactic(auto, unfolding(crate::specs::Svg::bar))]
pub(crate) fn write_bar<'a>(
    view: View,
    kind: &'a str,
    y: u64,
    high: &'a str,
    over: Places,
    out: &mut Picture,
) -> Result<(), NoMemory>
    ensures { OnOk result (out.new ≡ out.old ++ bar view kind.now y high.now over) }
{
    let (from, to) = (along(view, 14, over.first), along(view, 206, over.last));
    out.put(&[
        Piece::Text("<path class='"),
        Piece::Text(kind),
        Piece::Text("' d='M"),
        Piece::Number(from),
        Piece::Text(" "),
        Piece::Number(y),
        Piece::Text("H"),
        Piece::Number(to),
        Piece::Text("v"),
        Piece::Text(high),
        Piece::Text("H"),
        Piece::Number(from),
        Piece::Text("z'/>\n"),
    ])
}

/// The words of the line on the left of a lane, or on its right in that look, at that height.
pub(crate) fn write_words_at(
    view: View,
    lane: (bool, usize),
    y: u64,
    look: &str,
    line: &OutLine,
    out: &mut Picture,
) -> Result<(), NoMemory>
    ensures { OnOk result (out.new ≡ out.old ++ words_at view lane.0 lane.1 y look.now line.now) }
{
    let (left, place) = lane;
    if left {
        let anchor = " text-anchor='end'";
        write_words_text((along(view, 90, place), y), anchor, line, out)
    } else {
        write_words_text((along(view, 130, place), y), look, line, out)
    }
}

#[tactic(auto, unfolding(crate::specs::Svg::words_text))]
fn write_words_text<'a>(
    at: (u64, u64),
    look: &'a str,
    line: &'a OutLine,
    out: &mut Picture,
) -> Result<(), NoMemory>
    ensures { OnOk result (out.new ≡ out.old ++ words_text at.0 at.1 look.now line.now) }
{
    let tone = tone_of(line);
    out.put(&[
        Piece::Text("<text class='l "),
        Piece::Tone(tone),
        Piece::Text("' x='"),
        Piece::Number(at.0),
        Piece::Text("' y='"),
        Piece::Number(at.1),
        Piece::Text("'"),
        Piece::Text(look),
        Piece::Text(">"),
        Piece::Label(line),
        Piece::Text("</text>\n"),
    ])
}
