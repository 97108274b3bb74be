//! The one call of `tpdrive`.
ghost use Rattle.std.specs.Prelude.{◌≡◌, ℕ, map, false};
ghost use Rattle.tp_model.specs.NodeTranscript.{written_of};
ghost use Rattle.tp_words.specs.DriveLine.{drive_said, is_drive};
ghost use Rattle.tp_drive_tool.specs.declared.status.Status.{Status as TheStatus};
ghost use Rattle.tp_drive_tool.specs.Running.{Answers, Completes, Does, IsEnding, IsSilent, Writes};

use crate::Status;
use crate::driving::drive_on;
use crate::reading::read_events;
use crate::text::text_of;
use std::alloc::Global;
use std::sync::Wait;
use std::thread::Threads;
use tp_drive::{Gate, OutputsByEvent};
use tp_outside::{Disk, Sink, Source};
use tp_streams::write_all;
use tp_words::{Drive, WordsFault, read_drive};

/// Reads all events of the source, 100,000 at most, then starts the site that the words name on the log of the disk, has as
/// many workers as they ask for do the events, writes the outputs of all events, and hands the disk back. What is written is
/// what `node` writes, whatever the number of workers.
///
/// An input that is bad, or that passes a limit, ends the run before the disk is touched. Then comes `Foreign`, and a `Limit` at
/// 0 where no boot number is left or the boot has no room, and then the faults of the drive. With every status but `Ok` and
/// `WriteFault` nothing is written. Where nothing outside fails and there is room, it ends with `Ok`, unless memory runs out.
/// `LogDiffers` never comes.
pub fn run_drive<R: Threads + Wait + Sync, S: Source, K: Sink, D: Disk + Send, G: Gate + Sync>(
    rt: &R,
    alloc: Global,
    words: &[&str],
    source: &mut S,
    sink: &mut K,
    disk: D,
    gate: &G,
) -> (Status, D)
    ensures usage { result.0 ≡ TheStatus.Usage → is_drive (drive_said (map (λ w. w.now) words.now)) ≡ false }
    // Promise 7.2: The whole input is read before the disk is touched: the first frame that is bad
    //   or passes a limit ends the run exactly there, unless the source fails or memory runs out
    //   before, and the disk is as it was
    // Promise 7.3: **On Ok what is written is, to the byte, what `node` writes of the same input on
    //   the log that the file has**: the frames of the outputs of all events, with Over after those
    //   of each
    // Promise 7.4: On Ok the log has, after the boot, an interleaving of the records of each lane's
    //   own events: of each node those that the log of `node` has, in their order. A crash then
    //   leaves all of them
    // Promise 7.5: A crash at any moment since the first sync left the log on which the site began,
    //   with its boot or without, or one with the first of those records. So it is where memory
    //   runs out once the site began, and then the log has, after the boot, an interleaving of the
    //   first records of each lane; before that the log stays as it was
    // Promise 7.6 [clauses answers silent]: Where the sink fails a prefix was written and the log
    //   is as on Ok; with every status but Ok and the sink's fault nothing is written
    // Promise 7.7: Of an input that is good to its end, where nothing outside fails, Foreign comes
    //   exactly where the bytes are no log in order. A limit at 0 comes only where no boot number
    //   is left or the boot has no room, and there no run ends with Ok
    // Promise 7.8: A limit of the log in a frame, and a fault of the disk once the site began, come
    //   as `drive` says, with the log that is then left; `LogDiffers` never comes
    ensures answers { Answers (drive_said (map (λ w. w.now) words.now))
        (record {
          told = D.told disk;
          story = D.told result.1;
          left = S.left source.old;
          unread = S.left source.new;
          written = K.written sink.old;
          output = K.written sink.new;
        }) result.0 (source.new ≡ source.old) (sink.new ≡ sink.old) (result.1 ≡ disk) }
    // Promise 22.23, part 2
    ensures silent { IsSilent result.0 → sink.new ≡ sink.old }
    // Promise 7.9: A fault comes only where that object's count rose in the call
    ensures ending { IsEnding (S.fault_count source.old) (S.fault_count source.new) (K.fault_count sink.old) (K.fault_count sink.new)
        (D.fault_count disk) (D.fault_count result.1) result.0 }
    // Promise 7.10: Where no count rises, the words are a command line, the input is good to its
    //   end and within the limits, and the log is in order, leaves a boot number, and has room for
    //   all records and one more of the greatest length, a run ends with Ok; or memory runs out
    ensures complete { Completes (drive_said (map (λ w. w.now) words.now))
        (record {
          told = D.told disk;
          story = D.told result.1;
          left = S.left source.old;
          unread = S.left source.new;
          written = K.written sink.old;
          output = K.written sink.new;
        }) (S.fault_count source.old) (S.fault_count source.new)
        (K.fault_count sink.old) (K.fault_count sink.new) (D.fault_count disk) (D.fault_count result.1) result.0 }
{
    match read_drive(alloc, words) {
        Ok(asked) => run_asked(rt, alloc, asked, source, sink, disk, gate),
        Err(WordsFault::Usage) => (Status::Usage, disk),
        Err(WordsFault::NoMemory) => (Status::NoMemory, disk),
    }
}

// The same for a site and a number of workers.
fn run_asked<R: Threads + Wait + Sync, S: Source, K: Sink, D: Disk + Send, G: Gate + Sync>(
    rt: &R,
    alloc: Global,
    asked: Drive,
    source: &mut S,
    sink: &mut K,
    disk: D,
    gate: &G,
) -> (Status, D)
    ensures does { Does asked (record {
      told = D.told disk;
      story = D.told result.1;
      left = S.left source.old;
      unread = S.left source.new;
      written = K.written sink.old;
      output = K.written sink.new;
    }) (result.1 ≡ disk) result.0 }
    ensures silent { IsSilent result.0 → sink.new ≡ sink.old }
    ensures ending { IsEnding (S.fault_count source.old) (S.fault_count source.new) (K.fault_count sink.old) (K.fault_count sink.new)
        (D.fault_count disk) (D.fault_count result.1) result.0 }
{
    let events = match read_events(alloc, source) {
        Ok(events) => events,
        Err(stop) => return (Status::of_stop(stop), disk),
    };
    let (disk, driven) = drive_on(
        rt,
        alloc,
        asked.name,
        asked.workers,
        events.as_slice(),
        disk,
        gate,
    );
    match driven {
        Ok(outs) => (write_outputs(alloc, &outs, sink), disk),
        Err(status) => (status, disk),
    }
}

// Writes the frames of the outputs of each event, and that of Over after each.
fn write_outputs<K: Sink>(alloc: Global, outs: &OutputsByEvent, sink: &mut K) -> Status
    ensures writes { Writes (written_of outs.now) (K.written sink.old) (K.written sink.new) result }
    ensures silent { IsSilent result → sink.new ≡ sink.old }
    ensures cause { (n : ℕ) → IsEnding n n (K.fault_count sink.old) (K.fault_count sink.new) n n result }
{
    let Ok(text) = text_of(alloc, outs.as_slice()) else {
        return Status::NoMemory;
    };
    match write_all(sink, text.as_slice()) {
        Ok(()) => Status::Ok,
        Err(stop) => Status::of_stop(stop),
    }
}
