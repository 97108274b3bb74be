//! The records of a log, each with its place.
ghost use Rattle.std.specs.Prelude.{◌≡◌, ◌<◌, ◌≤◌, ◌^◌, ◌++◌, ℕ, List, length, Some, Err, IfErr, OnErr, OnOk};
ghost use Rattle.tp_outside.specs.Story.{Story, seen};
ghost use Rattle.tp_logrec.specs.declared.record.LogRec.{LogRec};
ghost use Rattle.tp_logrec.specs.LogText.{IsLog};
ghost use Rattle.tp_model.specs.LogCommands.{placed_texts};
ghost use Rattle.tp_streams.specs.declared.stop.Stop.{Stop as TheStop};
ghost use Rattle.tp_streams.specs.Written.{WritesPrefix};
ghost use Rattle.tp_log_tools.specs.Readings.{IsFile, as_placed};
ghost use Rattle.tp_log_tools.specs.Opening.{HoldsThroughout};
ghost use Rattle.tp_log_tools.specs.Output.{IsSinkStop};
ghost use Rattle.tp_log_tools.specs.Showing.{Shows, StopsShow, IsShowStop};

use crate::opening::open_log;
use crate::output::{put_line, write_rest};
use std::alloc::Global;
use tp_journal::Keeper;
use tp_names::Octets;
use tp_outside::{Disk, Sink};
use tp_streams::Stop;

// Writes all that the keeper tells.
fn write_records<J: Keeper, K: Sink>(alloc: Global, log: &J, sink: &mut K) -> Result<(), Stop>
    ensures kept { K.fault_count sink.old ≤ K.fault_count sink.new }
    ensures stops { IfErr result (IsSinkStop (K.fault_count sink.old) (K.fault_count sink.new)) }
    ensures ok { OnOk result ((before : List ℕ) → K.written sink.old ≡ Some before
        → K.written sink.new ≡ Some (before ++ placed_texts (as_placed (J.standing log.now).told))) }
    ensures err { OnErr result ((before : List ℕ) → K.written sink.old ≡ Some before
        → WritesPrefix before (placed_texts (as_placed (J.standing log.now).told)) (K.written sink.new)) }
{
    let mut out = Octets::new(alloc);
    for i in 0..log.count() {
        put_line(alloc, log.place(i), log.rec(i), &mut out, sink)?;
    }
    write_rest(sink, &out)
}

/// Writes each record of the disk's log as a line, with its place in bytes, and hands the disk back, started. The whole
/// log is read before the first byte is written. `Foreign` tells the place at which the bytes are no log, or at which the
/// first record stands, after the start, that does not follow those before it; then, and where the disk fails, nothing is
/// written.
pub fn show<D: Disk, K: Sink>(alloc: Global, disk: D, sink: &mut K) -> (D, Result<(), Stop>)
    // Promise 4.3: Where it ends Ok, `show` has written each record of a log in order with its
    //   place, to the byte
    // Promise 4.6: Where `show` and `check` end Ok the disk has what a start leaves, to the byte
    ensures shows { OnOk result.1 ((s : Story) → D.told disk ≡ Some s → IsFile (seen s)
        → Shows (seen s) placed_texts (K.written sink.old) (K.written sink.new) (D.told result.0)) }
    // Promise 4.2 [clauses shows stopped]: Of a file that is no log, or out of order, `Foreign` is
    //   answered, at the definitions' place, unless the disk fails or memory runs out; and of no
    //   other file
    ensures stopped { IfErr result.1 (λ stop. (s : Story) → D.told disk ≡ Some s → IsFile (seen s)
        → StopsShow (seen s) placed_texts (K.written sink.old) (K.written sink.new) (D.told result.0) stop) }
    // A crash at any moment from the first sync on leaves a log of the records that stood.
    // Promise 4.9: At every moment from the first sync on an image is a log of the records that
    //   stood, or for `compact` and `migrate` of their brief
    ensures moments { (s : Story) (rs : List LogRec) → D.told disk ≡ Some s → length (seen s) < 2 ^ 64 → IsLog (seen s) rs
        → HoldsThroughout (λ c. IsLog c rs) s (D.told result.0) }
    // Promise 4.10: A fault of the disk or of the sink comes only where its count rose, with the
    //   new count
    ensures stops { IfErr result.1 (IsShowStop (D.fault_count disk) (D.fault_count result.0) (K.fault_count sink.old) (K.fault_count sink.new)) }
    // Promise 4.5 [clauses foreign disk_fault stopped]: Where the log is foreign or the disk fails
    //   `show` and `check` write nothing, and where the sink fails or memory runs out a prefix
    ensures foreign { (at : ℕ) → result.1 ≡ Err (TheStop.Foreign at) → sink.new ≡ sink.old }
    ensures disk_fault { (faults : ℕ) → result.1 ≡ Err (TheStop.DiskFault faults) → sink.new ≡ sink.old }
    ensures kept { K.fault_count sink.old ≤ K.fault_count sink.new }
{
    let journal = match open_log(alloc, disk) {
        Ok(journal) => journal,
        Err((disk, stop)) => return (disk, Err(stop)),
    };
    let shown = write_records(alloc, &journal, sink);
    (journal.disk(), shown)
}
