//! The lines that speak of chosen nodes.
ghost use Rattle.std.specs.Prelude.{◌≡◌, [], true, IfOk, OnOk};
ghost use Rattle.tp_draw.specs.Lanes.{lanes_of};
ghost use Rattle.tp_draw.specs.Subjects.{subject_of};
ghost use Rattle.tp_draw.specs.Chosen.{is_among, has_site, with_frame, is_left, left_of, chosen};

use crate::Lane;
use crate::lanes::{is_of_site, lanes_of};
use crate::subject::{Subject, subject_of};
use std::alloc::Global;
use tp_model::{OutLine, OutLines};
use tp_names::{NoMemory, SiteName};

/// The lines that speak of these nodes alone, or of none; all lines, where there are no nodes. Each take of a frame is sought
/// among the frames that were sent between these nodes before it.
pub(crate) fn chosen(alloc: Global, nodes: &[u16], lines: OutLines) -> Result<OutLines, NoMemory>
    ensures { IfOk result (λ left. left ≡ chosen nodes.now lines) }
{
    if nodes.is_empty() {
        return Ok(lines);
    }
    let lanes = lanes_of(alloc, lines.as_slice())?;
    left_of(alloc, nodes, lanes.as_slice(), lines)
}

#[tactic(auto, using(crate::proofs::LeftLines::one_left))]
fn left_of(
    alloc: Global,
    nodes: &[u16],
    lanes: &[Lane],
    lines: OutLines,
) -> Result<OutLines, NoMemory>
    ensures { IfOk result (λ left. left ≡ left_of nodes.now lanes.now [] true lines) }
{
    let mut left = OutLines::new(alloc);
    let mut frames = Vec::new(alloc);
    let mut before = true;
    for line in lines.into_vec() {
        let subject = subject_of(alloc, &line)?;
        before = is_left(nodes, lanes, frames.as_slice(), before, subject);
        if before {
            note_frame(&mut frames, &line)?;
            left.push(alloc, line)?;
        }
    }
    Ok(left)
}

fn is_left(nodes: &[u16], lanes: &[Lane], frames: &[u16], before: bool, subject: Subject) -> bool
    ensures { result ≡ is_left nodes.now lanes.now frames.now before subject }
{
    match subject {
        Subject::Nobody => true,
        Subject::Node(node) => is_among(node, nodes),
        Subject::Pair(from, to) => is_among(from, nodes) && is_among(to, nodes),
        Subject::Frame(frame) => is_among(frame, frames),
        Subject::Site(site) => has_site(nodes, &site, lanes),
        Subject::Before => before,
    }
}

fn is_among(number: u16, numbers: &[u16]) -> bool
    ensures { result ≡ is_among number numbers.now }
{
    for it in numbers {
        if *it == number {
            return true;
        }
    }
    false
}

// A chosen node has one of these lanes, and is of the site.
fn has_site(nodes: &[u16], site: &SiteName, lanes: &[Lane]) -> bool
    ensures { result ≡ has_site nodes.now site.now lanes.now }
{
    for lane in lanes {
        if is_of_site(lane, site) && is_among(lane.node, nodes) {
            return true;
        }
    }
    false
}

// Notes the frame that is sent at the line.
fn note_frame(frames: &mut Vec<u16>, line: &OutLine) -> Result<(), NoMemory>
    ensures { OnOk result (frames.new.items ≡ with_frame line.now frames.old.items) }
{
    if let OutLine::Send { frame, .. } = line {
        frames.push(*frame)?;
    }
    Ok(())
}
