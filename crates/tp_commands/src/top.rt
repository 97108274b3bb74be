//! The one call of the program `tpnode`. For `audit`, of which more is said than a status, `main` calls what it calls there.
ghost use Rattle.std.specs.Prelude.{◌≡◌, ◌⊎◌, ℕ, List, Option, Some, [], false, map, length};
ghost use Rattle.tp_records.specs.declared.request.Request.{Request};
ghost use Rattle.tp_outside.specs.Faults.{HasRisen};
ghost use Rattle.tp_laws.specs.Whole.{AllPromised};
ghost use Rattle.tp_model.specs.Transcript.{transcript_with};
ghost use Rattle.tp_words.specs.Asked.{is_line};
ghost use Rattle.tp_words.specs.CommandLine.{said};
ghost use Rattle.tp_replay.specs.Certain.{AreCertain, IsOne};
ghost use Rattle.tp_replay.specs.Status.{IsEnding};
ghost use Rattle.tp_replay.specs.Transcribing.{may_of, IsComplete, ReadsSo, Transcribes};
ghost use Rattle.tp_commands.specs.Commands.{Runs, Answers};
ghost use Rattle.tp_commands.specs.Words.{replay_words};

use crate::auditing::audit_logs;
use crate::listing::list_keys;
use crate::logs::{check_log, compact_log, format_log, migrate_log, show_log};
use crate::serving::serve_site;
use crate::transacting::serve_face;
use std::alloc::Global;
use tp_outside::{Disk, Sink, Source};
use tp_records::Member;
use tp_replay::{Status, make_schedule, replay, try_schedule};
use tp_words::{Command, WordsFault, read};

/// Runs the command that the words after the program's name ask for, and hands the disk back. Each leaves the source, the
/// sink and the disk as it was, where it has no fault status for it.
///
/// `replay` reads a schedule from the source and writes its transcript to the sink, for some answers that the members may
/// give, who are numbered from 1. Where each member has one answer to what it is told, a schedule has no two transcripts.
/// Where the sink fails or memory is wanting, what is written is a prefix of that; where the source fails, it is the
/// transcript of the lines whose ends were read, without closing lines. The world of each transcript keeps all that is
/// promised of runs. `make` writes the schedule that is made by the plan, and `trial` replays it and writes what it came
/// to. `format` makes the disk hold a fresh log. `show` writes each record of the disk's log with its place, and `check`
/// each Damage that is its key's last record, of which it answers the number. `compact` and `migrate` put the log's brief
/// in its place. `keys` writes what the store on the disk holds. `node` is a site on the disk's log, which is given the
/// events that the frames of the source say, and writes its outputs as frames. `tx` is a face of node 1 of such a site,
/// which is given calls and events, and ends each answer with its stand and its code. `audit` reads the logs of several
/// sites, and writes whether two nodes of one tree ended apart, and what awaits each node that is in doubt.
pub fn run<S: Source, K: Sink, D: Disk, M: Member>(
    alloc: Global,
    words: &[&str],
    source: &mut S,
    sink: &mut K,
    disk: D,
    members: Vec<M>,
) -> (Status, D)
    // Promise 18.1 [clauses usage answers]: Usage comes exactly where the words are no command
    //   line, unless memory runs out; then source, sink and disk are as they were
    ensures usage { result.0 ≡ Status.Usage → is_line (said (map (λ w. w.now) words.now)) ≡ false }
    // Promise 18.17: A fault comes only where that object's count rose in the call, with the count;
    //   a line's number is above 0, and a limit before the first line is the log's or the boots'
    ensures ending { IsEnding (S.fault_count source.old) (S.fault_count source.new) (K.fault_count sink.old) (K.fault_count sink.new)
        (D.fault_count disk) (D.fault_count result.1) result.0 }
    // Promise 18.2 [tp_commands/specs/Commands.antt]: A command gives its own statuses alone, and leaves
    //   of source, sink and disk each as it was for which it has no fault status
    // Promise 18.9 [tp_replay/specs/Making.antt]: `make` writes the schedule of its plan, or a
    //   prefix of it where the sink fails
    // Promise 18.10 [tp_replay/specs/Trying.antt]: `trial` writes the summary of the replay of that
    //   schedule, or a prefix of it where the sink fails; where a line ends that replay, it ends as
    //   the replay does and writes nothing
    // Promise 18.11 [tp_commands/specs/Logs.antt]: `show` and `check` write and leave what chapter 4
    //   says, `compact` and `migrate` leave it, and an image at any moment is as said there
    // Promise 18.12 [tp_commands/specs/Sites.antt]: `node` does on the log what the loop of a site
    //   over frames does (13.1 to 13.6)
    // Promise 18.13 [tp_commands/specs/Faces.antt]: `tx` does on the log what the loop of a face
    //   over frames does (14.8, 14.9, 14.11)
    // Promise 18.14 [tp_commands/specs/Keys.antt]: `keys` writes a line for each key of the store;
    //   nothing where there is no store or the disk fails, and a prefix where the sink fails
    // Promise 18.15 [tp_commands/specs/Auditing.antt]: `audit` writes the verdict and the fates of the
    //   logs of its frames, or ends with what stops it
    // Promise 18.16 [tp_commands/specs/Commands.antt]: After Ok of `format` a disk holds a log of
    //   version 2 with no records, and nothing else
    ensures answers { Answers (may_of M.allowed members.items) (length members.items) (said (map (λ w. w.now) words.now))
        (record {
          status = result.0;
          left = S.left source.old;
          unread = S.left source.new;
          written = K.written sink.old;
          output = K.written sink.new;
          told = D.told disk;
          story = D.told result.1;
        }) (source.new ≡ source.old) (sink.new ≡ sink.old) (result.1 ≡ disk) }
    // Promise 18.6: A run of `replay` that ends with Ok has read its source to the end; one that
    //   ends at a line has read at most 12,288 bytes past that line's start, or past its end where
    //   the line is too long or passes the schedule's limit
    ensures reads { map (λ w. w.now) words.now ≡ replay_words → (bytes : List ℕ) → S.left source.old ≡ Some bytes → ReadsSo bytes result.0 (S.left source.new) }
    // Promise 18.18 [clauses disk answers]: `replay`, `make` and `trial` hand the disk back as it
    //   came
    ensures disk { map (λ w. w.now) words.now ≡ replay_words → result.1 ≡ disk }
    // Promise 18.3 [tp_replay/specs/Transcribing.antt, clauses transcript answers]: **`replay`
    //   writes the transcript of the definitions, for every schedule and every list of members**,
    //   unless the source or the sink fails: there are answers, one to each indication that is put
    //   to a member and each as that member may answer, and the run ends as the transcript for them
    //   ends
    // Promise 18.4 [tp_replay/specs/Transcribing.antt, clauses transcript answers]: Where a fault
    //   of the source ends the run, what is written is the transcript of whole lines of the
    //   schedule, without closing lines, and of the lines after them no line's end was read
    // Promise 18.5 [tp_replay/specs/Transcribing.antt, clauses transcript answers]: Where the sink
    //   fails or memory runs out, what is written is a prefix of the transcript for some answers
    //   that the members may give
    ensures transcript { map (λ w. w.now) words.now ≡ replay_words → (bytes : List ℕ) → S.left source.old ≡ Some bytes
        → Transcribes (may_of M.allowed members.items) (length members.items) bytes result.0 (S.left source.new) (K.written sink.old) (K.written sink.new) }
    // Promise 18.19, part 3
    ensures one { AreCertain (may_of M.allowed members.items) → (bytes : List ℕ) → IsOne (may_of M.allowed members.items) (length members.items) bytes }
    // Promise 18.8: The world of each transcript keeps all that is promised of runs (16.57), the
    //   headline with it, also where the source or the sink failed
    ensures promised { (bytes : List ℕ) (answers : List (Option Request)) → AllPromised (transcript_with (length members.items) bytes answers).world }
    // Promise 18.7: A schedule whose transcript comes to its end, whatever the members answer of
    //   what they may, is replayed to its end where neither source nor sink fails and memory does
    //   not run out
    ensures complete { map (λ w. w.now) words.now ≡ replay_words → (bytes : List ℕ) → S.left source.old ≡ Some bytes
        → IsComplete (may_of M.allowed members.items) (length members.items) bytes
        → ¬ (HasRisen (S.fault_count source.old) (S.fault_count source.new))
        → ¬ (HasRisen (K.fault_count sink.old) (K.fault_count sink.new)) → (result.0 ≡ Status.Ok) ⊎ (result.0 ≡ Status.NoMemory) }
{
    match read(alloc, words) {
        Ok(command) => run_command(alloc, command, source, sink, disk, members),
        Err(WordsFault::Usage) => (Status::Usage, disk),
        Err(WordsFault::NoMemory) => (Status::NoMemory, disk),
    }
}

fn run_command<S: Source, K: Sink, D: Disk, M: Member>(
    alloc: Global,
    command: Command,
    source: &mut S,
    sink: &mut K,
    disk: D,
    members: Vec<M>,
) -> (Status, D)
    ensures ending { IsEnding (S.fault_count source.old) (S.fault_count source.new) (K.fault_count sink.old) (K.fault_count sink.new)
        (D.fault_count disk) (D.fault_count result.1) result.0 }
    ensures runs { Runs (may_of M.allowed members.items) (length members.items) command
        (record {
          status = result.0;
          left = S.left source.old;
          unread = S.left source.new;
          written = K.written sink.old;
          output = K.written sink.new;
          told = D.told disk;
          story = D.told result.1;
        }) (source.new ≡ source.old) (sink.new ≡ sink.old) (result.1 ≡ disk) }
{
    let mut disk = disk;
    match command {
        Command::Replay => {
            let answer = replay(alloc, source, sink, members);
            (Status::of_replay(answer), disk)
        }
        Command::Format => (format_log(&mut disk), disk),
        Command::Show => show_log(alloc, disk, sink),
        Command::Check => check_log(alloc, disk, sink),
        Command::Make(plan) => (
            make_schedule(alloc, plan.number, plan.nodes, plan.rounds, sink),
            disk,
        ),
        Command::Trial(plan) => {
            let answer = try_schedule(alloc, plan.number, plan.nodes, plan.rounds, sink);
            (Status::of_trial(answer), disk)
        }
        Command::Compact => compact_log(alloc, disk),
        Command::Migrate => migrate_log(alloc, disk),
        Command::Keys => list_keys(alloc, disk, sink),
        Command::Node(name) => serve_site(alloc, name, source, sink, disk),
        Command::Audit => {
            let (status, _mismatches) = audit_logs(alloc, source, sink);
            (status, disk)
        }
        Command::Tx(name) => serve_face(alloc, name, source, sink, disk),
    }
}
