//! The damage that stands in a log.
ghost use Rattle.std.specs.Prelude.{◌≡◌, ◌<◌, ◌≤◌, ◌^◌, ◌++◌, ℕ, List, length, slice_index, Some, Err, IfErr, IfOk, OnErr, OnOk};
ghost use Rattle.tp_outside.specs.Story.{Story, seen};
ghost use Rattle.tp_logrec.specs.declared.record.LogRec.{LogRec as TheRecord};
ghost use Rattle.tp_logrec.specs.LogText.{IsLog};
ghost use Rattle.tp_model.specs.LogCommands.{placed_texts, findings as finds};
ghost use Rattle.tp_journal.specs.Records.{placed};
ghost use Rattle.tp_streams.specs.declared.stop.Stop.{Stop as TheStop};
ghost use Rattle.tp_streams.specs.Written.{WritesPrefix};
ghost use Rattle.tp_log_tools.specs.Readings.{IsFile, as_placed};
ghost use Rattle.tp_log_tools.specs.Opening.{HoldsThroughout};
ghost use Rattle.tp_log_tools.specs.Output.{IsSinkStop};
ghost use Rattle.tp_log_tools.specs.Findings.{found_from, picked};
ghost use Rattle.tp_log_tools.specs.Showing.{Checks, StopsShow, IsShowStop, finding_texts};

use crate::opening::open_log;
use crate::output::{put_line, write_rest};
use indexmap::IndexSet;
use std::alloc::Global;
use tp_journal::{Journal, Keeper};
use tp_logrec::LogRec;
use tp_names::{NoMemory, Octets};
use tp_outside::{Disk, Sink};
use tp_streams::Stop;

// The indices of each Damage that is its key's last record, in order. This goes over the list once, from its end, with the
// keys that have a later record.
fn find(alloc: Global, list: &[LogRec]) -> Result<Vec<usize>, NoMemory>
    ensures { IfOk result (λ found. found.items ≡ found_from 0 list.now) }
{
    let mut later = IndexSet::new(alloc);
    let mut found = Vec::new(alloc);
    let mut i = list.len();
    while i > 0 {
        i -= 1;
        let rec = &list[i];
        if let Some(owner) = rec.owner() {
            let is_last = later.insert(owner)?;
            if is_last && rec.is_damage() {
                found.push(i)?;
            }
        }
    }
    found.reverse();
    Ok(found)
}

// Writes those that the keeper tells at these indices.
fn write_found<J: Keeper, K: Sink>(
    alloc: Global,
    log: &J,
    found: &[usize],
    sink: &mut K,
) -> Result<(), Stop>
    requires { (k : ℕ) → k < length found.now → slice_index found.now k < length (J.standing log.now).told }
    ensures kept { K.fault_count sink.old ≤ K.fault_count sink.new }
    ensures stops { IfErr result (IsSinkStop (K.fault_count sink.old) (K.fault_count sink.new)) }
    ensures ok { OnOk result ((before : List ℕ) → K.written sink.old ≡ Some before
        → K.written sink.new ≡ Some (before ++ placed_texts (picked (as_placed (J.standing log.now).told) found.now))) }
    ensures err { OnErr result ((before : List ℕ) → K.written sink.old ≡ Some before
        → WritesPrefix before (placed_texts (picked (as_placed (J.standing log.now).told) found.now)) (K.written sink.new)) }
{
    let mut out = Octets::new(alloc);
    for i in found {
        put_line(alloc, log.place(*i), log.rec(*i), &mut out, sink)?;
    }
    write_rest(sink, &out)
}

// Writes the findings of a journal, and answers how many there are.
fn check_log<D: Disk, K: Sink>(
    alloc: Global,
    journal: &Journal<D>,
    sink: &mut K,
) -> Result<u64, Stop>
    ensures kept { K.fault_count sink.old ≤ K.fault_count sink.new }
    ensures stops { IfErr result (IsSinkStop (K.fault_count sink.old) (K.fault_count sink.new)) }
    ensures count { IfOk result (λ n. n ≡ length (finds (as_placed (placed journal.now.wide journal.now.list)))) }
    ensures ok { OnOk result ((before : List ℕ) → K.written sink.old ≡ Some before
        → K.written sink.new ≡ Some (before ++ finding_texts (as_placed (placed journal.now.wide journal.now.list)))) }
    ensures err { OnErr result ((before : List ℕ) → K.written sink.old ≡ Some before
        → WritesPrefix before (finding_texts (as_placed (placed journal.now.wide journal.now.list))) (K.written sink.new)) }
{
    let found = find(alloc, journal.list())?;
    write_found(alloc, journal, found.as_slice(), sink)?;
    Ok(found.len() as u64)
}

/// Writes, as `show` does, each Damage of the disk's log that is the last record of its node and key, and answers how many
/// there are.
pub fn check<D: Disk, K: Sink>(alloc: Global, disk: D, sink: &mut K) -> (D, Result<u64, Stop>)
    // Promise 4.4: Where it ends Ok, `check` has written each Damage after which no record of its
    //   node and key comes, to the byte, and answers their number
    // Promise 4.6, part 2
    ensures checks { IfOk result.1
        (λ n. (s : Story) → D.told disk ≡ Some s → IsFile (seen s) → Checks (seen s) n (K.written sink.old) (K.written sink.new) (D.told result.0)) }
    // Promise 4.2, part 2 [clauses checks stopped]
    ensures stopped { IfErr result.1 (λ stop. (s : Story) → D.told disk ≡ Some s → IsFile (seen s)
        → StopsShow (seen s) finding_texts (K.written sink.old) (K.written sink.new) (D.told result.0) stop) }
    // A crash at any moment from the first sync on leaves a log of the records that stood.
    // Promise 4.9, part 2
    ensures moments { (s : Story) (rs : List TheRecord) → D.told disk ≡ Some s → length (seen s) < 2 ^ 64 → IsLog (seen s) rs
        → HoldsThroughout (λ c. IsLog c rs) s (D.told result.0) }
    // Promise 4.10, part 2
    ensures stops { IfErr result.1 (IsShowStop (D.fault_count disk) (D.fault_count result.0) (K.fault_count sink.old) (K.fault_count sink.new)) }
    // Promise 4.5, part 2 [clauses foreign disk_fault stopped]
    ensures foreign { (at : ℕ) → result.1 ≡ Err (TheStop.Foreign at) → sink.new ≡ sink.old }
    ensures disk_fault { (faults : ℕ) → result.1 ≡ Err (TheStop.DiskFault faults) → sink.new ≡ sink.old }
    ensures kept { K.fault_count sink.old ≤ K.fault_count sink.new }
{
    let journal = match open_log(alloc, disk) {
        Ok(journal) => journal,
        Err((disk, stop)) => return (disk, Err(stop)),
    };
    let checked = check_log(alloc, &journal, sink);
    (journal.disk(), checked)
}
