//! A picture as an SVG file.
ghost use Rattle.std.specs.Prelude.{◌≡◌, ◌++◌, OnOk};
ghost use Rattle.tp_draw.specs.Svg.{lanes_wide, head, site_name, site_at, lane_line, lanes_text, rows_text, note_line, note, notes, foot, svg};
ghost use Rattle.tp_draw.specs.Bands.{first_tracks};

use crate::coordinates::{along, below, rows_seen, seen_at};
use crate::figure::write_bar;
use crate::lanes::places_in;
use crate::news::news_of;
use crate::piece::Piece;
use crate::plan::Plan;
use crate::shape::shape_of;
use crate::style::{write_legend, write_style, write_tips};
use crate::svg_rows::write_row;
use crate::track::{first_tracks, move_all};
use crate::{Lane, Picture, View};
use tp_names::{NoMemory, Octets, SiteName};

/// Puts the picture at the end of `out`.
pub(crate) fn write_svg(view: View, plan: &Plan, out: &mut Picture) -> Result<(), NoMemory>
    ensures { OnOk result (out.new ≡ out.old ++ svg view plan.now) }
{
    let (lanes, lines) = (plan.lanes(), plan.lines().len());
    let rows = rows_seen(view, lines);
    let size = (along(view, 100, lanes_wide(lanes.len())), below(180, rows));
    write_head(size, (lanes.len() as u64, lines as u64), out)?;
    write_style(out)?;
    write_tips(out)?;
    write_lanes(view, lanes, below(0, rows), out)?;
    write_rows(view, plan, out)?;
    write_notes(view, lines, out)?;
    write_foot(below(20, rows), out)
}

// So many lanes wide is a picture: the legend needs the room of one.
fn lanes_wide(lanes: usize) -> usize
    ensures { result ≡ lanes_wide lanes }
{
    if lanes == 0 { 1 } else { lanes }
}

#[tactic(auto, unfolding(crate::specs::Svg::head))]
fn write_head(size: (u64, u64), counts: (u64, u64), out: &mut Picture) -> Result<(), NoMemory>
    ensures { OnOk result (out.new ≡ out.old ++ head size.0 size.1 counts.0 counts.1) }
{
    out.put(&[
        Piece::Text("<svg xmlns='http://www.w3.org/2000/svg' width='"),
        Piece::Number(size.0),
        Piece::Text("' height='"),
        Piece::Number(size.1),
        Piece::Text("' viewBox='0 0 "),
        Piece::Number(size.0),
        Piece::Text(" "),
        Piece::Number(size.1),
        Piece::Text("' font-family='monospace' font-size='12'>\n<title>A run of "),
        Piece::Number(counts.0),
        Piece::Text(" nodes in "),
        Piece::Number(counts.1),
        Piece::Text(
            " lines</title>\n<desc>Time goes down. Each node has a lane, each line of the transcript a row, ",
        ),
        Piece::Text("and each frame an arrow from its send to its take.</desc>\n"),
    ])
}

// The lanes, down to that height.
fn write_lanes(view: View, lanes: &[Lane], high: u64, out: &mut Picture) -> Result<(), NoMemory>
    ensures { OnOk result (out.new ≡ out.old ++ lanes_text view lanes.now high 0 lanes.now) }
{
    for (place, lane) in lanes.iter().enumerate() {
        write_site_at(view, lanes, place, &lane.site, out)?;
        let to = (along(view, 110, place), high);
        write_lane_line(to, u64::from(lane.node), out)?;
    }
    Ok(())
}

// The box of a site, at the first of its lanes.
fn write_site_at(
    view: View,
    lanes: &[Lane],
    place: usize,
    site: &Option<SiteName>,
    out: &mut Picture,
) -> Result<(), NoMemory>
    ensures { OnOk result (out.new ≡ out.old ++ site_at view lanes.now place site.now) }
{
    match site {
        None => Ok(()),
        Some(site) => {
            let over = places_in(lanes, site);
            if over.first == place {
                write_bar(view, "b", 6, "46", over, out)?;
                write_site_name(along(view, 24, place), site.bytes(), out)
            } else {
                Ok(())
            }
        }
    }
}

#[tactic(auto, unfolding(crate::specs::Svg::site_name))]
fn write_site_name(x: u64, site: &[u8], out: &mut Picture) -> Result<(), NoMemory>
    ensures { OnOk result (out.new ≡ out.old ++ site_name x site.now) }
{
    out.put(&[
        Piece::Text("<text class='f' x='"),
        Piece::Number(x),
        Piece::Text("' y='22'>site "),
        Piece::Escaped(site),
        Piece::Text("</text>\n"),
    ])
}

// A node's number, and its line down to that point.
#[tactic(auto, unfolding(crate::specs::Svg::lane_line))]
fn write_lane_line(to: (u64, u64), node: u64, out: &mut Picture) -> Result<(), NoMemory>
    ensures { OnOk result (out.new ≡ out.old ++ lane_line to.0 to.1 node) }
{
    out.put(&[
        Piece::Text("<text class='p' x='"),
        Piece::Number(to.0),
        Piece::Text("' y='44' text-anchor='middle' font-weight='bold'>node "),
        Piece::Number(node),
        Piece::Text("</text>\n<path class='v' d='M"),
        Piece::Number(to.0),
        Piece::Text(" 54V"),
        Piece::Number(to.1),
        Piece::Text("'/>\n"),
    ])
}

fn write_rows(view: View, plan: &Plan, out: &mut Picture) -> Result<(), NoMemory>
    ensures { OnOk result (out.new ≡ out.old ++ rows_text view plan.now (first_tracks plan.now) 0 plan.now) }
{
    let mut tracks = first_tracks(out.alloc(), plan.lanes())?;
    let mut text = Octets::new(out.alloc());
    let lines = plan.lines();
    for (row, line) in lines.iter().enumerate() {
        let news = news_of(out.alloc(), line)?;
        move_all(tracks.as_mut_slice(), &news);
        let shape = shape_of(out.alloc(), plan, row, line)?;
        write_row(view, (row, shape), tracks.as_slice(), line, &mut text, out)?;
    }
    Ok(())
}

// Which lines are not shown, before those that are and after them.
fn write_notes(view: View, lines: usize, out: &mut Picture) -> Result<(), NoMemory>
    ensures { OnOk result (out.new ≡ out.old ++ notes view lines) }
{
    write_note(below(14, 0), 1, view.from as u64, out)?;
    if view.to < lines {
        let y = below(14, seen_at(view, view.to));
        write_note(y, view.to as u64 + 1, lines as u64, out)
    } else {
        Ok(())
    }
}

#[tactic(auto, unfolding(crate::specs::Svg::note_line))]
fn write_note(y: u64, first: u64, last: u64, out: &mut Picture) -> Result<(), NoMemory>
    ensures { OnOk result (out.new ≡ out.old ++ note y first last) }
{
    if last < first {
        return Ok(());
    }
    out.put(&[
        Piece::Text("<text class='f' x='8' y='"),
        Piece::Number(y),
        Piece::Text("'>lines "),
        Piece::Number(first),
        Piece::Text(" to "),
        Piece::Number(last),
        Piece::Text(" are not shown</text>\n"),
    ])
}

#[tactic(auto, unfolding(crate::specs::Svg::foot))]
fn write_foot(y: u64, out: &mut Picture) -> Result<(), NoMemory>
    ensures { OnOk result (out.new ≡ out.old ++ foot y) }
{
    out.put(&[
        Piece::Text("<g transform='translate(0 "),
        Piece::Number(y),
        Piece::Text(")'>\n"),
    ])?;
    write_legend(out)
}
