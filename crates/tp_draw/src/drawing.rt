//! Drawing a transcript.
ghost use Rattle.std.specs.Prelude.{◌≡◌, ◌++◌, IfOk, OnOk};
ghost use Rattle.tp_draw.specs.Pictures.{begins, first_begin, row_from, row_to, view_from, view_of, picture_in, picture};

use crate::chosen::chosen;
use crate::event::event_of;
use crate::mermaid::write_mermaid;
use crate::page::write_page;
use crate::plan::Plan;
use crate::svg::write_svg;
use crate::{Nodes, Picture, View};
use std::alloc::Global;
use tp_model::{Line, LineRequest, OutLine, OutLines};
use tp_names::{NoMemory, Octets};

/// How many lines are shown where nothing says which is the last.
const MOST_ROWS: usize = 200;

/// What is written.
#[derive(Clone, Copy)]
pub enum Kind {
    /// An SVG file.
    Svg,
    /// Text from which Mermaid makes a sequence diagram.
    Mermaid,
    /// A page with an SVG file in it, which steps through the lines.
    Html,
}

/// The form in which a picture is written.
#[derive(Drop)]
pub struct Form {
    pub kind: Kind,
    /// The text of the lines is left out, except the events of the schedule and the outcomes of trees.
    pub lanes: bool,
    /// What comes before the first transaction is one row.
    pub fold: bool,
    /// The first line that is shown, from 1.
    pub from: Option<u16>,
    /// The last one. Without it at most 200 lines are shown.
    pub to: Option<u16>,
    /// The nodes that are drawn; lines that speak of others are left out, and the rest are numbered anew.
    pub nodes: Nodes,
}

// Promise 21.1 [tp_draw/specs/Pictures.antt, tp_draw/specs/Page.antt]: The picture that is written
//   is that of the definitions, to the byte, as SVG, as Mermaid text and as a page, of the lines
//   and in the form that are asked for; what a browser makes of the page's script is not promised
/// The picture of a transcript with these lines. Time goes with their number and text, and with that of the nodes for
/// each of them; memory with the picture's text, and three megabytes for the frames.
pub fn draw(alloc: Global, lines: OutLines, form: &Form) -> Result<Octets, NoMemory>
    ensures { IfOk result (λ text. text ≡ picture form.now lines) }
{
    let lines = chosen(alloc, form.nodes.numbers(), lines)?;
    let plan = Plan::new(alloc, lines.as_slice())?;
    let view = view_of(alloc, form, lines.as_slice())?;
    let mut out = Picture::new(alloc);
    write_picture(form.kind, view, &plan, &mut out)?;
    Ok(out.into_text())
}

fn write_picture(kind: Kind, view: View, plan: &Plan, out: &mut Picture) -> Result<(), NoMemory>
    ensures { OnOk result (out.new ≡ out.old ++ picture_in kind view plan.now) }
{
    match kind {
        Kind::Svg => write_svg(view, plan, out),
        Kind::Mermaid => write_mermaid(view, plan, out),
        Kind::Html => write_page(view, plan, out),
    }
}

// The part that is shown.
fn view_of(alloc: Global, form: &Form, lines: &[OutLine]) -> Result<View, NoMemory>
    ensures { IfOk result (λ view. view ≡ view_of form.now lines.now) }
{
    let from = match form.from {
        Some(number) => usize::from(number).saturating_sub(1),
        None if form.fold => first_begin(alloc, lines)?,
        None => 0,
    };
    Ok(view_from(form, from, lines.len()))
}

fn view_from(form: &Form, from: usize, lines: usize) -> View
    ensures { result ≡ view_from form.now from lines }
{
    let to = match form.to {
        Some(number) => usize::from(number),
        None => from.saturating_add(MOST_ROWS),
    };
    View {
        from: from.min(lines),
        to: to.min(lines),
        all: !form.lanes,
        left: if form.lanes { 230 } else { 460 },
        most: if form.lanes { 28 } else { 60 },
    }
}

// The row of the first line that tells an event that begins a transaction; 0 where none does.
fn first_begin(alloc: Global, lines: &[OutLine]) -> Result<usize, NoMemory>
    ensures { IfOk result (λ row. row ≡ first_begin 0 lines.now) }
{
    for (row, line) in lines.iter().enumerate() {
        if begins(event_of(alloc, line)?) {
            return Ok(row);
        }
    }
    Ok(0)
}

fn begins(event: Option<Line>) -> bool
    ensures { result ≡ begins event }
{
    match &event {
        Some(Line::Do { request, .. }) => {
            matches!(request, LineRequest::BeginTransaction { .. })
        }
        _ => false,
    }
}
