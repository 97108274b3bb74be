//! A picture as text from which Mermaid makes a sequence diagram.
ghost use Rattle.std.specs.Prelude.{◌≡◌, ◌++◌, false, OnOk};
ghost use Rattle.tp_model.specs.OutText.{out_text};
ghost use Rattle.tp_draw.specs.Mermaid.{first_line, site_words, lane_words, lanes_words, comment, note, stroke, message, shape_words, crash_words, event_words, row_words, some_in_doubt, ground, rows_words, mermaid};
ghost use Rattle.tp_draw.specs.Bands.{first_tracks};
ghost use Rattle.tp_draw.specs.Labels.{label};
ghost use Rattle.tp_draw.specs.Pieces.{piece_text};

use crate::coordinates::is_shown;
use crate::news::news_of;
use crate::piece::Piece;
use crate::plan::Plan;
use crate::shape::shape_of;
use crate::track::{first_tracks, move_all};
use crate::{Band, End, Lane, News, Picture, Shape, Track, View};
use tp_model::OutLine;
use tp_names::{NoMemory, Octets};
use tp_transcript::write_out;

/// Puts the picture at the end of `out`.
pub(crate) fn write_mermaid(view: View, plan: &Plan, out: &mut Picture) -> Result<(), NoMemory>
    ensures { OnOk result (out.new ≡ out.old ++ mermaid view plan.now) }
{
    write_first_line(out)?;
    write_lanes(plan.lanes(), out)?;
    write_rows(view, plan, out)
}

#[tactic(auto, unfolding(crate::specs::Mermaid::first_line))]
fn write_first_line(out: &mut Picture) -> Result<(), NoMemory>
    ensures { OnOk result (out.new ≡ out.old ++ first_line) }
{
    out.put_all(&["sequenceDiagram\n"])
}

fn write_lanes(lanes: &[Lane], out: &mut Picture) -> Result<(), NoMemory>
    ensures { OnOk result (out.new ≡ out.old ++ lanes_words 0 lanes.now) }
{
    for (place, lane) in lanes.iter().enumerate() {
        write_lane(place, lane, out)?;
    }
    Ok(())
}

#[tactic(auto, unfolding(crate::specs::Mermaid::lane_words))]
fn write_lane(place: usize, lane: &Lane, out: &mut Picture) -> Result<(), NoMemory>
    ensures { OnOk result (out.new ≡ out.old ++ lane_words place lane.now) }
{
    let (before, name): (&str, &[u8]) = match &lane.site {
        None => ("", b""),
        Some(site) => (", site ", site.bytes()),
    };
    out.put(&[
        Piece::Text("    participant p"),
        Piece::Number(place as u64),
        Piece::Text(" as node "),
        Piece::Number(u64::from(lane.node)),
        Piece::Text(before),
        Piece::Plain(name),
        Piece::Text("\n"),
    ])
}

fn write_rows(view: View, plan: &Plan, out: &mut Picture) -> Result<(), NoMemory>
    ensures { OnOk result (out.new ≡ out.old ++ rows_words view plan.now (first_tracks plan.now) false 0 plan.now) }
{
    let mut tracks = first_tracks(out.alloc(), plan.lanes())?;
    let mut was = false;
    let mut text = Octets::new(out.alloc());
    let lines = plan.lines();
    for (row, line) in lines.iter().enumerate() {
        let news = news_of(out.alloc(), line)?;
        move_all(tracks.as_mut_slice(), &news);
        if is_shown(view, row) {
            let is = some_in_doubt(tracks.as_slice());
            write_ground(was, is, out)?;
            let shape = shape_of(out.alloc(), plan, row, line)?;
            write_row(plan, shape, line, &mut text, out)?;
            was = is;
        }
    }
    write_ground(was, false, out)
}

fn some_in_doubt(tracks: &[Track]) -> bool
    ensures { result ≡ some_in_doubt tracks.now }
{
    for track in tracks {
        if let Band::InDoubt = track.band {
            return true;
        }
    }
    false
}

// The ground begins or ends between two rows, where some node is in doubt in one of them alone.
#[tactic(auto, unfolding(crate::specs::Mermaid::ground_begins, crate::specs::Mermaid::ground_ends))]
fn write_ground(was: bool, is: bool, out: &mut Picture) -> Result<(), NoMemory>
    ensures { OnOk result (out.new ≡ out.old ++ ground was is) }
{
    match (was, is) {
        (false, true) => {
            let begins = "    rect rgba(128, 128, 128, 0.2)\n";
            out.put_all(&[begins])
        }
        (true, false) => out.put_all(&["    end\n"]),
        _ => Ok(()),
    }
}

// A row, whose text is made in `text`.
fn write_row(
    plan: &Plan,
    shape: Shape,
    line: &OutLine,
    text: &mut Octets,
    out: &mut Picture,
) -> Result<(), NoMemory>
    ensures { OnOk result (out.new ≡ out.old ++ row_words plan.now shape line.now) }
{
    text.truncate(0);
    write_out(out.alloc(), line, text)?;
    let last = plan.lanes().len().saturating_sub(1);
    write_shape(last, shape, line, text.as_slice(), out)?;
    match shape {
        Shape::Event => match news_of(out.alloc(), line)? {
            News::Stops { site } => {
                let over = plan.places_of(&site);
                write_note((over.first, over.last), "", &Piece::Text("crash"), out)
            }
            _ => Ok(()),
        },
        _ => Ok(()),
    }
}

// The shape of a line, whose text it is; `end` is the place of the last lane.
fn write_shape(
    end: usize,
    shape: Shape,
    line: &OutLine,
    text: &[u8],
    out: &mut Picture,
) -> Result<(), NoMemory>
    requires { text.now ≡ out_text line.now }
    ensures { OnOk result (out.new ≡ out.old ++ shape_words end shape line.now) }
{
    let words = Piece::Label(line);
    match shape {
        Shape::Bare => write_comment(text, out),
        Shape::Event => write_comment(text, out),
        Shape::Tree => write_note((0, end), "", &Piece::Plain(text), out),
        Shape::Boot { over } => write_note((over.first, over.last), "", &words, out),
        Shape::Stop { over } => write_note((over.first, over.last), "", &words, out),
        Shape::Mark { place } => write_note((place, place), "log ", &words, out),
        Shape::Told { place } => write_note((place, place), "tell ", &words, out),
        Shape::State { place } => write_note((place, place), "state ", &words, out),
        Shape::Arrow { from, to, end, .. } => { write_message((from, to), "", end, line, out) }
        Shape::Again { from, to, end, .. } => { write_message((from, to), "-", end, line, out) }
        Shape::Lost { .. } => write_comment(text, out),
        Shape::Refused { place } => write_note((place, place), "", &words, out),
        Shape::Dropped { place } => write_note((place, place), "", &words, out),
    }
}

#[tactic(auto, unfolding(crate::specs::Mermaid::comment))]
fn write_comment(text: &[u8], out: &mut Picture) -> Result<(), NoMemory>
    ensures { OnOk result (out.new ≡ out.old ++ comment text.now) }
{
    out.put(&[
        Piece::Text("    %% "),
        Piece::Plain(text),
        Piece::Text("\n"),
    ])
}

// A piece of text over the lanes from one to another, after a word.
#[tactic(auto, unfolding(crate::specs::Mermaid::note))]
fn write_note<'a>(
    over: (usize, usize),
    word: &'a str,
    words: &Piece<'a>,
    out: &mut Picture,
) -> Result<(), NoMemory>
    ensures { OnOk result (out.new ≡ out.old ++ note over.0 over.1 word.now (piece_text words.now)) }
{
    out.put(&[
        Piece::Text("    Note over p"),
        Piece::Number(over.0 as u64),
        Piece::Text(",p"),
        Piece::Number(over.1 as u64),
        Piece::Text(": "),
        Piece::Text(word),
        *words,
        Piece::Text("\n"),
    ])
}

#[tactic(auto, unfolding(crate::specs::Mermaid::message))]
fn write_message<'a>(
    lanes: (usize, usize),
    dash: &'a str,
    end: End,
    line: &'a OutLine,
    out: &mut Picture,
) -> Result<(), NoMemory>
    ensures { OnOk result (out.new ≡ out.old ++ message lanes.0 lanes.1 dash.now end (label line.now)) }
{
    out.put(&[
        Piece::Text("    p"),
        Piece::Number(lanes.0 as u64),
        Piece::Text(dash),
        Piece::Text(stroke(end)),
        Piece::Number(lanes.1 as u64),
        Piece::Text(": "),
        Piece::Label(line),
        Piece::Text("\n"),
    ])
}

fn stroke(end: End) -> &'static str
    ensures { result.now ≡ stroke end }
{
    match end {
        End::Never => "-)p",
        End::Taken { .. } => "->>p",
        End::Refused { .. } => "-xp",
        End::Lost { .. } => "-xp",
    }
}
