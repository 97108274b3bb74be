//! A made schedule, replayed in memory, and what it came to.
ghost use Rattle.std.specs.Prelude.{◌≡◌, ◌≤◌, [], IfOk, IfErr, OnOk};
ghost use Rattle.tp_model.specs.World.{World as WorldValue, empty_world};
ghost use Rattle.tp_model.specs.Generator.{schedule, summary, summary_of};
ghost use Rattle.tp_world_members.specs.DrivenWorld.{members_of, Stands};
ghost use Rattle.tp_replay.specs.declared.stop.InputStop.{InputStop as TheInputStop};
ghost use Rattle.tp_replay.specs.Stops.{IsInputStop, IsTrialStop};
ghost use Rattle.tp_replay.specs.Trying.{alone, IsPlayed, StopsAt, TriesSchedule};

use crate::held::Held;
use crate::output::write_all;
use crate::replaying::{PAST_LINES, play_next_unwritten};
use crate::stop::{InputStop, LineStop, TrialStop, WriteFault};
use crate::voter::Voter;
use std::alloc::Global;
use tp_generate::{schedule_of, write_summary};
use tp_model::{OutLines, What};
use tp_names::{NoMemory, Octets};
use tp_outside::Sink;
use tp_schedule::Lines;
use tp_world_members::DrivenWorld;

/// Replays the schedule that `make_schedule` writes of these, with no members, and writes what it came to.
#[tactic(auto, using(crate::proofs::Tried::stops_numbered))]
pub fn try_schedule<K: Sink>(
    alloc: Global,
    number: u64,
    nodes: u16,
    rounds: u8,
    sink: &mut K,
) -> Result<(), TrialStop>
    requires { nodes ≤ 256 }
    ensures stop { IfErr result (IsTrialStop (K.fault_count sink.old) (K.fault_count sink.new)) }
    ensures tries { TriesSchedule number nodes rounds (K.written sink.old) (K.written sink.new) (sink.new ≡ sink.old) result }
{
    match replayed(alloc, number, nodes, rounds) {
        Ok(summary) => match write_all(sink, summary.as_slice()) {
            Ok(()) => Ok(()),
            Err(WriteFault { faults }) => Err(TrialStop::WriteFault { faults }),
        },
        Err(stop) => Err(TrialStop::Line(stop)),
    }
}

// The summary of the replay of that schedule; or what stops the replay at one of its lines.
#[tactic(auto, using(crate::proofs::Tried::stopped_of))]
fn replayed(alloc: Global, number: u64, nodes: u16, rounds: u8) -> Result<Octets, LineStop>
    requires { nodes ≤ 256 }
    ensures summary { IfOk result (λ text. text ≡ summary number nodes rounds) }
    ensures stopped { IfErr result (StopsAt (alone (schedule number nodes rounds))) }
{
    let made = match schedule_of(alloc, number, nodes, rounds) {
        Ok(made) => made,
        Err(NoMemory) => return Err(LineStop::NoMemory),
    };
    let lines = made.lines;
    let nobody: Vec<Voter> = Vec::new(alloc);
    let Ok(mut world) = DrivenWorld::new(alloc, nobody) else {
        return Err(LineStop::NoMemory);
    };
    if let Err(stop) = play_made(alloc, made.text, &mut world) {
        return Err(stop);
    }
    match sum_up(alloc, lines, &world) {
        Ok(summary) => Ok(summary),
        Err(NoMemory) => Err(LineStop::NoMemory),
    }
}

// What stops the reading of a source that never fails.
fn of_lines(stop: InputStop) -> LineStop
    requires { IsInputStop 0 0 stop }
    ensures { stop ≡ TheInputStop.Line result }
{
    match stop {
        InputStop::Line(stop) => stop,
        InputStop::ReadFault { .. } => unreachable!(),
    }
}

// Plays a schedule in memory over a world with nothing in it and no member, and writes nothing of what its lines show.
fn play_made(alloc: Global, text: Octets, world: &mut DrivenWorld<Voter>) -> Result<(), LineStop>
    requires empty { Stands empty_world world.old }
    requires alone { members_of world.old ≡ [] }
    ensures played { OnOk result (IsPlayed (alone text) world.new) }
    ensures stopped { IfErr result (StopsAt (alone text)) }
{
    let mut source = Held::new(alloc, text);
    let mut lines = Lines::new();
    let mut shown = OutLines::new(alloc);
    for at in 1..PAST_LINES {
        match play_next_unwritten(alloc, &mut lines, &mut source, world, at, &mut shown) {
            Ok(true) => {}
            Ok(false) => return Ok(()),
            Err(stop) => return Err(of_lines(stop)),
        }
    }
    Err(LineStop::Limit {
        what: What::Schedule,
        at: PAST_LINES,
    })
}

// The summary of a replay of so many lines that left this world.
fn sum_up(alloc: Global, lines: u64, world: &DrivenWorld<Voter>) -> Result<Octets, NoMemory>
    ensures { IfOk result (λ text. (w : WorldValue) → Stands w world.now → text ≡ summary_of lines w) }
{
    let closing = world.closing(alloc)?;
    let frames = world.frames_sent() as u64;
    let mut summary = Octets::new(alloc);
    write_summary(alloc, lines, frames, closing.as_slice(), &mut summary)?;
    Ok(summary)
}
