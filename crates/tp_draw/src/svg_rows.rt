//! The rows of an SVG file.
ghost use Rattle.std.specs.Prelude.{◌≡◌, ◌++◌, OnOk};
ghost use Rattle.tp_model.specs.OutText.{out_text};
ghost use Rattle.tp_draw.specs.Svg.{band_kind, is_quiet, track_text, tracks_text, is_bold, text_at, line_text, shown_row, is_later, hidden_row, row_text};
ghost use Rattle.tp_draw.specs.Views.{down};

use crate::arrow::write_arrow;
use crate::coordinates::{along, down, is_shown};
use crate::figure::write_figure;
use crate::piece::Piece;
use crate::svg_shapes::{write_ground, write_shape};
use crate::tone::tone_of;
use crate::{Band, End, Picture, Shape, Tone, Track, View};
use tp_model::OutLine;
use tp_names::{NoMemory, Octets};
use tp_transcript::write_out;

/// A row: a line with its shape, and the lanes after it. Its text is made in `text`.
pub(crate) fn write_row(
    view: View,
    at: (usize, Shape),
    tracks: &[Track],
    line: &OutLine,
    text: &mut Octets,
    out: &mut Picture,
) -> Result<(), NoMemory>
    ensures { OnOk result (out.new ≡ out.old ++ row_text view at.0 at.1 tracks.now line.now) }
{
    if is_shown(view, at.0) {
        write_shown(view, at, tracks, line, text, out)
    } else {
        write_hidden(view, at, line, out)
    }
}

fn write_shown(
    view: View,
    at: (usize, Shape),
    tracks: &[Track],
    line: &OutLine,
    text: &mut Octets,
    out: &mut Picture,
) -> Result<(), NoMemory>
    ensures { OnOk result (out.new ≡ out.old ++ shown_row view at.0 at.1 tracks.now line.now) }
{
    let (row, shape) = at;
    write_ground(view, row, shape, line, out)?;
    write_tracks(view, down(view, 0, row), tracks, out)?;
    write_shape(view, row, shape, line, out)?;
    text.truncate(0);
    write_out(out.alloc(), line, text)?;
    write_line(view, row, line, text.as_slice(), out)
}

// The arrow of a frame that was sent before the lines that are shown, and ends later.
fn write_hidden(
    view: View,
    at: (usize, Shape),
    line: &OutLine,
    out: &mut Picture,
) -> Result<(), NoMemory>
    ensures { OnOk result (out.new ≡ out.old ++ hidden_row view at.0 at.1 line.now) }
{
    let (row, shape) = at;
    match shape {
        Shape::Arrow { from, to, end, .. } => {
            if row < view.from && is_later(view, end) {
                write_arrow(view, row, (from, to), "", (tone_of(line), end), out)
            } else {
                Ok(())
            }
        }
        _ => Ok(()),
    }
}

// The end is at the first line that is shown, or after it.
fn is_later(view: View, end: End) -> bool
    ensures { result ≡ is_later view end }
{
    match end {
        End::Never => false,
        End::Taken { row: last } => view.from <= last,
        End::Refused { row: last } => view.from <= last,
        End::Lost { row: last } => view.from <= last,
    }
}

// The bands on the lanes, from that height on.
fn write_tracks(view: View, y: u64, tracks: &[Track], out: &mut Picture) -> Result<(), NoMemory>
    ensures { OnOk result (out.new ≡ out.old ++ tracks_text view y 0 tracks.now) }
{
    for (place, track) in tracks.iter().enumerate() {
        write_track((along(view, 105, place), y), *track, out)?;
    }
    Ok(())
}

fn write_track(at: (u64, u64), track: Track, out: &mut Picture) -> Result<(), NoMemory>
    ensures { OnOk result (out.new ≡ out.old ++ track_text at.0 at.1 track) }
{
    let way = "h10v20h-10z";
    if track.down {
        let crossed = "h10v20h-10zl10 20m0-20l-10 20";
        return write_figure("k", Tone::Plain, at, crossed, out);
    }
    match track.band {
        Band::Quiet => Ok(()),
        Band::InDoubt => write_figure("i", Tone::Plain, at, way, out),
        Band::Committed => write_figure("y", Tone::Plain, at, way, out),
        Band::RolledBack => write_figure("o", Tone::Plain, at, way, out),
        Band::Rolling => write_figure("o", Tone::Plain, at, way, out),
    }
}

// The line's own text, on the left.
fn write_line(
    view: View,
    row: usize,
    line: &OutLine,
    text: &[u8],
    out: &mut Picture,
) -> Result<(), NoMemory>
    requires { text.now ≡ out_text line.now }
    ensures { OnOk result (out.new ≡ out.old ++ line_text view row line.now) }
{
    let y = down(view, 14, row);
    if is_bold(line) {
        write_text((y, view.most), " font-weight='bold'", line, text, out)
    } else if view.all {
        write_text((y, view.most), "", line, text, out)
    } else {
        Ok(())
    }
}

#[tactic(auto, unfolding(crate::specs::Svg::text_at))]
fn write_text<'a>(
    at: (u64, usize),
    weight: &'a str,
    line: &'a OutLine,
    text: &'a [u8],
    out: &mut Picture,
) -> Result<(), NoMemory>
    requires { text.now ≡ out_text line.now }
    ensures { OnOk result (out.new ≡ out.old ++ text_at at.0 at.1 weight.now line.now) }
{
    let tone = tone_of(line);
    out.put(&[
        Piece::Text("<text class='"),
        Piece::Tone(tone),
        Piece::Text("' x='8' y='"),
        Piece::Number(at.0),
        Piece::Text("'"),
        Piece::Text(weight),
        Piece::Text(">"),
        Piece::Cut(text, at.1),
        Piece::Text("</text>\n"),
    ])
}

fn is_bold(line: &OutLine) -> bool
    ensures { result ≡ is_bold line.now }
{
    match line {
        OutLine::Echo(_) => true,
        OutLine::Agreed { .. } => true,
        OutLine::Mixed { .. } => true,
        OutLine::Open { .. } => true,
        _ => false,
    }
}
