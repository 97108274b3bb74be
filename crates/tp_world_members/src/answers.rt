//! The answers of members, run one after the other. The lines that are shown are the queue: what they tell is put to members
//! from a place on, and what is shown of the answers comes after all that waits.
ghost use Rattle.std.specs.Prelude.{◌≡◌, ◌++◌, ◌∷◌, [], OnOk};
ghost use Rattle.tp_model.specs.LineText.{line_text};
ghost use Rattle.tp_model.specs.World.{World as WorldValue};
ghost use Rattle.tp_world.specs.World.{Stands as WorldStands};
ghost use Rattle.tp_members.specs.Expansion.{memberless};
ghost use Rattle.tp_world_members.specs.Standing.{MembersStand};
ghost use Rattle.tp_world_members.specs.Running.{RunsAnswer, RunsNext, RunsAll};

use crate::members::{Asked, Members, next_request};
use crate::requests::line_request;
use std::alloc::Global;
use tp_model::{Line, LineRequest, OutLine, OutLines, What};
use tp_names::{NoMemory, Octets};
use tp_records::Member;
use tp_schedule::write_line;
use tp_world::{World, WorldFault};

/// The most answers of members that are requests, after one line.
const MOST_ANSWERS: u64 = 4096;

/// More answers than are run.
const PAST_ANSWERS: u64 = 4097;

/// The line itself is shown.
pub(crate) fn echo(alloc: Global, line: &Line, lines: &mut OutLines) -> Result<(), NoMemory>
    ensures { OnOk result (lines.new ≡ lines.old ++ OutLine.Echo (line_text line.now) ∷ []) }
{
    let mut text = Octets::new(alloc);
    write_line(alloc, line, &mut text)?;
    lines.push(alloc, OutLine::Echo(text))
}

// A member's answer is run as a line, after so many others of the same line.
fn answer(
    alloc: Global,
    world: &mut World,
    before: u64,
    node: u16,
    request: LineRequest,
    lines: &mut OutLines,
) -> Result<(), WorldFault>
    ensures { (w : WorldValue) → WorldStands w world.old → RunsAnswer before w node request lines.old result lines.new world.new }
{
    if before >= MOST_ANSWERS {
        return Err(if world.is_named(node, &request) {
            WorldFault::Limit {
                what: What::Answers,
            }
        } else {
            WorldFault::Name
        });
    }
    let line = Line::Do { node, request };
    echo(alloc, &line, lines)?;
    world.play(alloc, &line, lines)
}

// What the lines tell from that place on is put to members, up to the first answer that is a request, which is run. It is
// answered where the rest of the queue begins; nothing where all was put and no member asked for a thing.
fn answer_next<M: Member>(
    alloc: Global,
    world: &mut World,
    members: &mut Members<M>,
    before: u64,
    from: usize,
    lines: &mut OutLines,
) -> Result<Option<usize>, WorldFault>
    ensures { (w : WorldValue) → WorldStands (memberless w) world.old → MembersStand w members.old.slots.items members.old.drivers.entries
        → RunsNext M.allowed before w from lines.old result lines.new world.new members.old.slots.items members.new.slots.items members.new.drivers.entries }
{
    let Some((asked, next)) = next_request(alloc, members, lines.as_slice(), from)? else {
        return Ok(None);
    };
    let Asked { node, request } = asked;
    answer(alloc, world, before, node, line_request(request), lines)?;
    Ok(Some(next))
}

// What the lines tell from that place on is put to members, and what they ask for is run; what is shown of it joins the lines.
fn answer_queue<M: Member>(
    alloc: Global,
    world: &mut World,
    members: &mut Members<M>,
    from: usize,
    lines: &mut OutLines,
) -> Result<(), WorldFault>
    ensures { (w : WorldValue) → WorldStands (memberless w) world.old → MembersStand w members.old.slots.items members.old.drivers.entries
        → RunsAll M.allowed w from lines.old result lines.new world.new members.old.slots.items members.new.slots.items members.new.drivers.entries }
{
    let mut from = from;
    for before in 0..PAST_ANSWERS {
        let Some(next) = answer_next(alloc, world, members, before, from, lines)? else {
            return Ok(());
        };
        from = next;
    }
    Err(WorldFault::Limit {
        what: What::Answers,
    })
}

/// What the lines tell from that place on is put to members, and what they ask for is run; what is shown of it joins the lines. Mostly
/// no member drives a node.
pub(crate) fn answer_all<M: Member>(
    alloc: Global,
    world: &mut World,
    members: &mut Members<M>,
    from: usize,
    lines: &mut OutLines,
) -> Result<(), WorldFault>
    ensures { (w : WorldValue) → WorldStands (memberless w) world.old → MembersStand w members.old.slots.items members.old.drivers.entries
        → RunsAll M.allowed w from lines.old result lines.new world.new members.old.slots.items members.new.slots.items members.new.drivers.entries }
{
    if members.drive_none() {
        return Ok(());
    }
    answer_queue(alloc, world, members, from, lines)
}
