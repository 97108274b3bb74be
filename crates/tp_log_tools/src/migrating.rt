//! A log that is brought to version 2.
ghost use Rattle.std.specs.Prelude.{◌≡◌, ◌⊎◌, ◌<◌, ◌^◌, ℕ, List, length, Some, IfErr, OnOk};
ghost use Rattle.tp_outside.specs.Story.{Story, seen};
ghost use Rattle.tp_logrec.specs.declared.record.LogRec.{LogRec};
ghost use Rattle.tp_logrec.specs.LogText.{IsLog};
ghost use Rattle.tp_logrec.specs.Order.{brief};
ghost use Rattle.tp_log_tools.specs.Readings.{IsFile};
ghost use Rattle.tp_log_tools.specs.Opening.{HoldsThroughout};
ghost use Rattle.tp_log_tools.specs.Shortening.{migrated_by, Migrates, StopsMigrate, IsMigrateStop};

use crate::opening::open_log;
use std::alloc::Global;
use tp_journal::ForceFault;
use tp_model::What;
use tp_outside::Disk;
use tp_streams::Stop;

fn stop_of(fault: ForceFault) -> Stop
    ensures { result ≡ migrated_by fault }
{
    match fault {
        ForceFault::Full { .. } => Stop::Limit {
            what: What::Log,
            at: 0,
        },
        ForceFault::DiskFault { faults } | ForceFault::Shut { faults } => {
            Stop::DiskFault { faults }
        }
        ForceFault::NoMemory => Stop::NoMemory,
    }
}

/// Makes the disk's log of version 2, puts its brief in its place, and hands the disk back. Where that log would have more
/// than 268,435,456 bytes, `Limit` of the log comes at 0; `Foreign` is as for `show`. In both cases nothing more is done
/// than a start does.
pub fn migrate<D: Disk>(alloc: Global, disk: D) -> (D, Result<(), Stop>)
    // Promise 4.7, part 2
    // Promise 4.8 [clauses migrates stopped stops]: `migrate` ends Ok only where the brief in
    //   version 2 is no longer than a log may be. The limit of the log, at 0, is answered only
    //   where it is longer, and the disk then has what a start leaves
    ensures migrates { OnOk result.1 ((s : Story) → D.told disk ≡ Some s → IsFile (seen s) → Migrates (seen s) (D.told result.0)) }
    // Promise 4.2, part 4 [clauses migrates stopped]
    ensures stopped { IfErr result.1 (λ stop. (s : Story) → D.told disk ≡ Some s → IsFile (seen s) → StopsMigrate (seen s) (D.told result.0) stop) }
    // A crash at any moment from the first sync on leaves a log of the records that stood, or of their brief.
    // Promise 4.9, part 4
    ensures moments { (s : Story) (rs : List LogRec) → D.told disk ≡ Some s → length (seen s) < 2 ^ 64 → IsLog (seen s) rs
        → HoldsThroughout (λ c. IsLog c rs ⊎ IsLog c (brief rs)) s (D.told result.0) }
    // Promise 4.10, part 4
    ensures stops { IfErr result.1 (IsMigrateStop (D.fault_count disk) (D.fault_count result.0)) }
{
    let mut journal = match open_log(alloc, disk) {
        Ok(journal) => journal,
        Err((disk, stop)) => return (disk, Err(stop)),
    };
    let migrated = match journal.migrate(alloc) {
        Ok(()) => Ok(()),
        Err(fault) => Err(stop_of(fault)),
    };
    (journal.disk(), migrated)
}
