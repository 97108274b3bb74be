//! A schedule out of a source, played in a world with members, and its transcript into a sink, line by line.
ghost use Rattle.std.specs.Prelude.{◌≡◌, ◌<◌, ◌≤◌, ◌++◌, ℕ, true, false, length, List, Some, None, [], IfErr, IfOk, OnErr, OnOk};
ghost use Rattle.tp_model.specs.OutText.{out_texts};
ghost use Rattle.tp_model.specs.Transcript.{RawLine};
ghost use Rattle.tp_model.specs.Trees.{closing};
ghost use Rattle.tp_model.specs.World.{World as WorldValue};
ghost use Rattle.tp_schedule.specs.LinesLeft.{lines_left};
ghost use Rattle.tp_world_members.specs.DrivenWorld.{Stands};
ghost use Rattle.tp_streams.specs.Stops.{IsFaultOf};
ghost use Rattle.tp_replay.specs.Stops.{IsInputStop, IsReplayStop};
ghost use Rattle.tp_replay.specs.Certain.{AreCertain, IsOne};
ghost use Rattle.tp_replay.specs.Playing.{PlaysNext, PlaysNextUnwritten, unheard_as};
ghost use Rattle.tp_replay.specs.Transcribing.{may_of, replay_of, Reads, ReadsInput, Tells, TranscribesOn};
ghost use Rattle.tp_replay.specs.Written.{Writes};

use crate::output::{write_all, write_long};
use crate::playing::{play_text, play_unwritten, write_texts};
use crate::stop::{InputStop, LineStop, ReplayStop, WriteFault};
use std::alloc::Global;
use tp_model::{OutLines, What, Why};
use tp_names::{NoMemory, Octets};
use tp_outside::{Sink, Source};
use tp_records::Member;
use tp_schedule::{Lines, LinesFault};
use tp_world_members::DrivenWorld;

/// One more than the number of the line that is after the last one in any schedule.
pub const PAST_LINES: u64 = 1_048_578;

// What stops a run at the line of that number, since it is not handed out.
fn unheard(fault: LinesFault, at: u64) -> InputStop
    ensures { result ≡ unheard_as at fault }
{
    match fault {
        LinesFault::ReadFault { faults } => InputStop::ReadFault { faults },
        LinesFault::Long => InputStop::Line(LineStop::BadInput { at, why: Why::Long }),
        LinesFault::Limit => InputStop::Line(LineStop::Limit {
            what: What::Schedule,
            at,
        }),
    }
}

/// Puts what the next line of the source shows, which has that number, at the end of `out`, and answers whether there was
/// one; or tells what stops the run there, and `out` stays as it was.
pub fn play_next<S: Source, M: Member>(
    alloc: Global,
    lines: &mut Lines,
    source: &mut S,
    world: &mut DrivenWorld<M>,
    at: u64,
    shown: &mut OutLines,
    out: &mut Octets,
) -> Result<bool, InputStop>
    requires numbered { 0 < at }
    requires unfaulted { lines.old.fault ≡ None }
    ensures kept { S.fault_count source.old ≤ S.fault_count source.new }
    ensures ending { IfErr result (IsInputStop (S.fault_count source.old) (S.fault_count source.new)) }
    ensures unfaulted { result ≡ Ok true → lines.new.fault ≡ None }
    ensures same { OnErr result (out.new ≡ out.old) }
    ensures ended { result ≡ Ok false → out.new ≡ out.old }
    ensures plays { (w : WorldValue) (ls : List RawLine) → Stands w world.old → lines_left lines.old (S.left source.old) ≡ Some ls
        → PlaysNext world.old world.new M.allowed at lines.old.before w ls result out.old out.new lines.new (S.left source.new) }
{
    match lines.next(source) {
        Ok(None) => Ok(false),
        Ok(Some(text)) => match play_text(alloc, world, text, at, shown, out) {
            Ok(()) => Ok(true),
            Err(stop) => Err(InputStop::Line(stop)),
        },
        Err(fault) => Err(unheard(fault, at)),
    }
}

/// Plays the next line of the source, which has that number, writes nothing of what it shows, and answers whether there was
/// one; or tells what stops the run there. The lines `shown` are room for what it shows.
pub fn play_next_unwritten<S: Source, M: Member>(
    alloc: Global,
    lines: &mut Lines,
    source: &mut S,
    world: &mut DrivenWorld<M>,
    at: u64,
    shown: &mut OutLines,
) -> Result<bool, InputStop>
    requires numbered { 0 < at }
    requires unfaulted { lines.old.fault ≡ None }
    ensures ending { IfErr result (IsInputStop (S.fault_count source.old) (S.fault_count source.new)) }
    ensures unfaulted { result ≡ Ok true → lines.new.fault ≡ None }
    ensures plays { (w : WorldValue) (ls : List RawLine) → Stands w world.old → lines_left lines.old (S.left source.old) ≡ Some ls
        → PlaysNextUnwritten world.old world.new M.allowed at lines.old.before w ls result lines.new (S.left source.new) }
{
    match lines.next(source) {
        Ok(None) => Ok(false),
        Ok(Some(text)) => match play_unwritten(alloc, world, text, at, shown) {
            Ok(()) => Ok(true),
            Err(stop) => Err(InputStop::Line(stop)),
        },
        Err(fault) => Err(unheard(fault, at)),
    }
}

// Puts the closing lines at the end of `out`. Without memory `out` stays as it was.
fn close<M: Member>(alloc: Global, world: &DrivenWorld<M>, out: &mut Octets) -> Result<(), NoMemory>
    ensures ok { (w : WorldValue) → Stands w world.now → OnOk result (out.new ≡ out.old ++ out_texts (closing w)) }
    ensures err { OnErr result (out.new ≡ out.old) }
{
    let lines = world.closing(alloc)?;
    write_texts(alloc, &lines, out)
}

// Plays the schedule in a world with these members, and answers what stops its reading, if anything does. What it shows is put at the end of `out`, and
// written as it gets long: what is in `out` in the end is still to be written.
fn play_all<S: Source, K: Sink, M: Member>(
    alloc: Global,
    source: &mut S,
    sink: &mut K,
    members: Vec<M>,
    out: &mut Octets,
) -> Result<Result<(), InputStop>, WriteFault>
    requires { out.old ≡ [] }
    ensures kept { K.fault_count sink.old ≤ K.fault_count sink.new }
    ensures ending { IfOk result (λ input. IfErr input (IsInputStop (S.fault_count source.old) (S.fault_count source.new))) }
    ensures fault { IfErr result (λ f. IsFaultOf f.faults (K.fault_count sink.old) (K.fault_count sink.new)) }
    ensures reads { (bytes : List ℕ) → S.left source.old ≡ Some bytes → IfOk result (λ input. ReadsInput bytes input (S.left source.new)) }
    ensures plays { (bytes : List ℕ) → S.left source.old ≡ Some bytes
        → TranscribesOn (may_of M.allowed members.items) (length members.items) bytes result (S.left source.new) out.new
        (K.written sink.old) (K.written sink.new) }
{
    let Ok(mut world) = DrivenWorld::new(alloc, members) else {
        return Ok(Err(InputStop::Line(LineStop::NoMemory)));
    };
    let mut lines = Lines::new();
    let mut shown = OutLines::new(alloc);
    for at in 1..PAST_LINES {
        match play_next(alloc, &mut lines, source, &mut world, at, &mut shown, out) {
            Ok(true) => {
                if let Err(fault) = write_long(sink, out) {
                    return Err(fault);
                }
            }
            Ok(false) => {
                return match close(alloc, &world, out) {
                    Ok(()) => Ok(Ok(())),
                    Err(NoMemory) => Ok(Err(InputStop::Line(LineStop::NoMemory))),
                };
            }
            Err(stop) => return Ok(Err(stop)),
        }
    }
    Ok(Err(InputStop::Line(LineStop::Limit {
        what: What::Schedule,
        at: PAST_LINES,
    })))
}

// What stops a replay whose bytes are all written.
fn all_written(input: Result<(), InputStop>) -> Result<(), ReplayStop>
    ensures { result ≡ replay_of input }
{
    match input {
        Ok(()) => Ok(()),
        Err(stop) => Err(ReplayStop::Input(stop)),
    }
}

/// Reads a schedule from the source, and writes its transcript with these members to the sink as it goes, in long pieces.
pub fn replay<S: Source, K: Sink, M: Member>(
    alloc: Global,
    source: &mut S,
    sink: &mut K,
    members: Vec<M>,
) -> Result<(), ReplayStop>
    ensures stop { IfErr result (IsReplayStop (S.fault_count source.old) (S.fault_count source.new) (K.fault_count sink.old) (K.fault_count sink.new)) }
    ensures reads { (bytes : List ℕ) → S.left source.old ≡ Some bytes → Reads bytes result (S.left source.new) }
    ensures transcript { (bytes : List ℕ) → S.left source.old ≡ Some bytes
        → Writes (Tells (may_of M.allowed members.items) (length members.items) bytes result (S.left source.new)) (K.written sink.old) (K.written sink.new) }
    // Where each member has one answer to what it is told, there are no two transcripts.
    // Promise 18.19 [tp_replay/specs/Certain.antt]: Where after the same answers each member has
    //   one answer to what it is told, a schedule has no two transcripts: no two lists of answers
    //   fit it. So it is of the members of the program, the store among them, over a disk that
    //   never fails, where the store is not shut
    ensures one { AreCertain (may_of M.allowed members.items) → (bytes : List ℕ) → IsOne (may_of M.allowed members.items) (length members.items) bytes }
{
    let mut out = Octets::new(alloc);
    let input = match play_all(alloc, source, sink, members, &mut out) {
        Ok(input) => input,
        Err(WriteFault { faults }) => return Err(ReplayStop::WriteFault { faults }),
    };
    match write_all(sink, out.as_slice()) {
        Ok(()) => all_written(input),
        Err(WriteFault { faults }) => Err(ReplayStop::WriteFault { faults }),
    }
}
