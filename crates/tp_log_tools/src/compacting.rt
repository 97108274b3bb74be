//! A log that is made short.
ghost use Rattle.std.specs.Prelude.{◌≡◌, ◌⊎◌, ◌<◌, ◌^◌, ℕ, List, length, Some, IfErr, OnOk};
ghost use Rattle.tp_outside.specs.Story.{Story, seen};
ghost use Rattle.tp_logrec.specs.declared.record.LogRec.{LogRec};
ghost use Rattle.tp_logrec.specs.LogText.{IsLog};
ghost use Rattle.tp_logrec.specs.Order.{brief};
ghost use Rattle.tp_log_tools.specs.Readings.{IsFile};
ghost use Rattle.tp_log_tools.specs.Opening.{HoldsThroughout};
ghost use Rattle.tp_log_tools.specs.Shortening.{compacted_by, Compacts, StopsCompact, IsCompactStop};

use crate::opening::open_log;
use std::alloc::Global;
use tp_journal::CompactFault;
use tp_outside::Disk;
use tp_streams::Stop;

fn stop_of(fault: CompactFault) -> Stop
    ensures { result ≡ compacted_by fault }
{
    match fault {
        CompactFault::DiskFault { faults } | CompactFault::Shut { faults } => {
            Stop::DiskFault { faults }
        }
        CompactFault::NoMemory => Stop::NoMemory,
    }
}

/// Puts the brief of the disk's log in its place, in the version that it has, and hands the disk back. `Foreign` is as for
/// `show`, and nothing more is done then than a start does.
pub fn compact<D: Disk>(alloc: Global, disk: D) -> (D, Result<(), Stop>)
    // Promise 4.7: Where they end Ok, `compact` has left the brief in the log's version, and
    //   `migrate` the brief in version 2, to the byte
    ensures compacts { OnOk result.1 ((s : Story) → D.told disk ≡ Some s → IsFile (seen s) → Compacts (seen s) (D.told result.0)) }
    // Promise 4.2, part 3 [clauses compacts stopped]
    ensures stopped { IfErr result.1 (λ stop. (s : Story) → D.told disk ≡ Some s → IsFile (seen s) → StopsCompact (seen s) (D.told result.0) stop) }
    // A crash at any moment from the first sync on leaves a log of the records that stood, or of their brief.
    // Promise 4.9, part 3
    ensures moments { (s : Story) (rs : List LogRec) → D.told disk ≡ Some s → length (seen s) < 2 ^ 64 → IsLog (seen s) rs
        → HoldsThroughout (λ c. IsLog c rs ⊎ IsLog c (brief rs)) s (D.told result.0) }
    // Promise 4.10, part 3
    ensures stops { IfErr result.1 (IsCompactStop (D.fault_count disk) (D.fault_count result.0)) }
{
    let mut journal = match open_log(alloc, disk) {
        Ok(journal) => journal,
        Err((disk, stop)) => return (disk, Err(stop)),
    };
    let compacted = match journal.compact(alloc) {
        Ok(()) => Ok(()),
        Err(fault) => Err(stop_of(fault)),
    };
    (journal.disk(), compacted)
}
