//! One line of a schedule, from its bytes to the bytes that it shows.
ghost use Rattle.std.specs.Prelude.{◌≡◌, ◌<◌, ◌++◌, ◌∷◌, [], IfErr, OnErr, OnOk};
ghost use Rattle.tp_text_builder.specs.Written.{Adds};
ghost use Rattle.tp_model.specs.LineReading.{Says, read_line};
ghost use Rattle.tp_model.specs.declared.out_line.OutLine.{OutLine};
ghost use Rattle.tp_model.specs.LineText.{line_text};
ghost use Rattle.tp_model.specs.OutText.{out_texts};
ghost use Rattle.tp_model.specs.Transcript.{echo};
ghost use Rattle.tp_model.specs.World.{World as WorldValue};
ghost use Rattle.tp_world_members.specs.DrivenWorld.{Stands};
ghost use Rattle.tp_replay.specs.Stops.{IsNumbered};
ghost use Rattle.tp_replay.specs.Playing.{ShowsReading, PlaysUnwritten, unread_as, unplayed_as};

use crate::stop::LineStop;
use std::alloc::Global;
use tp_model::{Line, OutLines, Why};
use tp_names::{NoMemory, Octets};
use tp_records::Member;
use tp_schedule::{LineFault, put_line, read_line_into};
use tp_text_builder::Text;
use tp_transcript::put_out;
use tp_world::WorldFault;
use tp_world_members::{DrivenWorld, is_silent};

/// Puts the text of these lines, each with its end, at the end of `out`. Without memory `out` stays as it was.
pub fn write_texts(alloc: Global, lines: &OutLines, out: &mut Octets) -> Result<(), NoMemory>
    ensures ok { OnOk result (out.new ≡ out.old ++ out_texts lines.now) }
    ensures err { OnErr result (out.new ≡ out.old) }
{
    let mut text = Text::after(alloc, out);
    put_texts(lines, &mut text);
    text.done(out)
}

fn put_texts(lines: &OutLines, text: &mut Text)
    ensures { Adds text.old (out_texts lines.now) text.new }
{
    for line in lines.as_slice() {
        put_out(line, text);
        text.byte(b'\n');
    }
}

// What stops a run in the line of that number, since it does not read.
fn unread(fault: LineFault, at: u64) -> LineStop
    ensures { result ≡ unread_as at fault }
{
    let why = match fault {
        LineFault::Long => Why::Long,
        LineFault::Word => Why::Word,
        LineFault::Number => Why::Number,
        LineFault::NoMemory => return LineStop::NoMemory,
    };
    LineStop::BadInput { at, why }
}

// What stops a run in the line of that number, since the world does not play it.
fn unplayed(fault: WorldFault, at: u64) -> LineStop
    ensures { result ≡ unplayed_as at fault }
{
    match fault {
        WorldFault::Name => LineStop::BadInput { at, why: Why::Name },
        WorldFault::Limit { what } => LineStop::Limit { what, at },
        WorldFault::NoMemory => LineStop::NoMemory,
    }
}

// Puts the echo of a line and the text of what it shows at the end of `out`. Without memory `out` stays as it was.
fn write_shown(
    alloc: Global,
    line: &Line,
    lines: &OutLines,
    out: &mut Octets,
) -> Result<(), NoMemory>
    ensures ok { OnOk result (out.new ≡ out.old ++ out_texts (OutLine.Echo (line_text line.now) ∷ lines.now)) }
    ensures err { OnErr result (out.new ≡ out.old) }
{
    let mut text = Text::after(alloc, out);
    put_shown(line, lines, &mut text);
    text.done(out)
}

fn put_shown(line: &Line, lines: &OutLines, text: &mut Text)
    ensures { Adds text.old (out_texts (OutLine.Echo (line_text line.now) ∷ lines.now)) text.new }
{
    text.word("> ");
    put_line(line, text);
    text.byte(b'\n');
    put_texts(lines, text);
}

// Puts the echo of a line, where it is shown, and the text of what it shows at the end of `out`. Without memory `out` stays
// as it was.
#[tactic(auto, using(crate::proofs::Ended::echo_and, crate::proofs::Ended::no_echo_and))]
fn write_played(
    alloc: Global,
    line: &Line,
    lines: &OutLines,
    out: &mut Octets,
) -> Result<(), NoMemory>
    ensures ok { OnOk result (out.new ≡ out.old ++ out_texts (echo line.now ++ lines.now)) }
    ensures err { OnErr result (out.new ≡ out.old) }
{
    if is_silent(line) {
        write_texts(alloc, lines, out)
    } else {
        write_shown(alloc, line, lines, out)
    }
}

// Plays a line: the lines are what it shows, its echo apart; or tells what stops the run in it.
#[tactic(auto, using(crate::proofs::Ended::unplayed_numbered))]
fn run_line<M: Member>(
    alloc: Global,
    world: &mut DrivenWorld<M>,
    line: &Line,
    at: u64,
    lines: &mut OutLines,
) -> Result<(), LineStop>
    requires numbered { 0 < at }
    ensures ending { IfErr result IsNumbered }
    ensures shows { (w : WorldValue) → Stands w world.old
        → ShowsReading world.old world.new M.allowed at w (Says line.now) result [] (out_texts (echo line.now ++ lines.new)) }
{
    lines.clear();
    match world.play(alloc, line, lines) {
        Ok(()) => Ok(()),
        Err(fault) => Err(unplayed(fault, at)),
    }
}

// Puts what a line shows at the end of `out`; or tells what stops the run in it, and `out` stays as it was. The lines are
// room for what it shows.
fn play_line<M: Member>(
    alloc: Global,
    world: &mut DrivenWorld<M>,
    line: &Line,
    at: u64,
    lines: &mut OutLines,
    out: &mut Octets,
) -> Result<(), LineStop>
    requires numbered { 0 < at }
    ensures ending { IfErr result IsNumbered }
    ensures same { OnErr result (out.new ≡ out.old) }
    ensures shown { (w : WorldValue) → Stands w world.old → ShowsReading world.old world.new M.allowed at w (Says line.now) result out.old out.new }
{
    match run_line(alloc, world, line, at, lines) {
        Ok(()) => match write_played(alloc, line, lines, out) {
            Ok(()) => Ok(()),
            Err(NoMemory) => Err(LineStop::NoMemory),
        },
        Err(stop) => Err(stop),
    }
}

/// Puts what the line of that number, without its end, shows at the end of `out`; or tells what stops the run
/// in it, and `out` stays as it was. The lines are room for what it shows.
#[tactic(auto, using(crate::proofs::Ended::unread_ends, crate::proofs::Ended::unread_numbered))]
pub fn play_text<M: Member>(
    alloc: Global,
    world: &mut DrivenWorld<M>,
    text: &[u8],
    at: u64,
    lines: &mut OutLines,
    out: &mut Octets,
) -> Result<(), LineStop>
    requires numbered { 0 < at }
    ensures ending { IfErr result IsNumbered }
    ensures same { OnErr result (out.new ≡ out.old) }
    ensures shown { (w : WorldValue) → Stands w world.old → ShowsReading world.old world.new M.allowed at w (read_line text.now) result out.old out.new }
{
    let mut line = Line::Drain;
    match read_line_into(alloc, text, &mut line) {
        Ok(false) => Ok(()),
        Ok(true) => play_line(alloc, world, &line, at, lines, out),
        Err(fault) => Err(unread(fault, at)),
    }
}

/// Plays the line of that number, without its end, and writes nothing of what it shows; or tells what stops the run in it.
/// The lines are room for what it shows.
#[tactic(auto, using(crate::proofs::Ended::unread_ends, crate::proofs::Ended::unread_numbered))]
pub fn play_unwritten<M: Member>(
    alloc: Global,
    world: &mut DrivenWorld<M>,
    text: &[u8],
    at: u64,
    lines: &mut OutLines,
) -> Result<(), LineStop>
    requires numbered { 0 < at }
    ensures ending { IfErr result IsNumbered }
    ensures played { (w : WorldValue) → Stands w world.old → PlaysUnwritten world.old world.new M.allowed at w (read_line text.now) result }
{
    let mut line = Line::Drain;
    match read_line_into(alloc, text, &mut line) {
        Ok(false) => Ok(()),
        Ok(true) => run_line(alloc, world, &line, at, lines),
        Err(fault) => Err(unread(fault, at)),
    }
}
