//! A log that is started, with its records in order.
ghost use Rattle.std.specs.Prelude.{◌≡◌, ◌≤◌, ◌<◌, ◌^◌, ℕ, List, length, true, Some, None, IfErr, IfOk};
ghost use Rattle.std.specs.List.{AllByRecursion};
ghost use Rattle.tp_outside.specs.Story.{Story, seen};
ghost use Rattle.tp_logrec.specs.declared.record.LogRec.{LogRec};
ghost use Rattle.tp_logrec.specs.LogText.{IsLog};
ghost use Rattle.tp_logrec.specs.Order.{all_follow};
ghost use Rattle.tp_journal.specs.Records.{HasText};
ghost use Rattle.tp_log_tools.specs.Readings.{IsFile};
ghost use Rattle.tp_log_tools.specs.Opening.{stopped_by, Opens, LeavesLog, StopsOpening, HoldsThroughout, IsDiskStop};

use std::alloc::Global;
use tp_journal::{Journal, Keeper, StartFault};
use tp_names::NoMemory;
use tp_outside::Disk;
use tp_streams::Stop;

fn stop_of(fault: StartFault) -> Stop
    ensures { result ≡ stopped_by fault }
{
    match fault {
        StartFault::Foreign { at } => Stop::Foreign { at },
        StartFault::DiskFault { faults } => Stop::DiskFault { faults },
        StartFault::NoMemory => Stop::NoMemory,
    }
}

/// Starts the log of a disk, whose records are to follow each other; or answers why there is none.
pub fn open_log<D: Disk>(alloc: Global, disk: D) -> Result<Journal<D>, (D, Stop)>
    ensures unshut { IfOk result (λ j. j.shut ≡ None) }
    ensures ordered { IfOk result (λ j. all_follow j.list ≡ true) }
    ensures counted { IfOk result (λ j. D.fault_count disk ≤ D.fault_count j.disk) }
    ensures texts { IfOk result (λ j. AllByRecursion (HasText j.wide) j.list) }
    ensures opens { IfOk result (λ j. (s : Story) → D.told disk ≡ Some s → IsFile (seen s) → Opens (seen s) j.wide j.list (D.told j.disk)) }
    ensures moments { IfOk result (λ j. (s : Story) (rs : List LogRec) → D.told disk ≡ Some s → length (seen s) < 2 ^ 64 → IsLog (seen s) rs
        → LeavesLog s rs j.list (D.told j.disk)) }
    ensures refused { IfErr result (λ e. (s : Story) → D.told disk ≡ Some s → IsFile (seen s) → StopsOpening (seen s) (D.told e.0) e.1) }
    ensures stops { IfErr result (λ e. IsDiskStop (D.fault_count disk) (D.fault_count e.0) e.1) }
    ensures left { IfErr result (λ e. (s : Story) (rs : List LogRec) → D.told disk ≡ Some s → length (seen s) < 2 ^ 64 → IsLog (seen s) rs
        → HoldsThroughout (λ c. IsLog c rs) s (D.told e.0)) }
{
    let journal = match Journal::start(alloc, disk) {
        Ok(journal) => journal,
        Err((disk, fault)) => return Err((disk, stop_of(fault))),
    };
    match journal.first_out_of_order(alloc) {
        Ok(None) => Ok(journal),
        Ok(Some(i)) => {
            let at = journal.place(i);
            Err((journal.disk(), Stop::Foreign { at }))
        }
        Err(NoMemory) => Err((journal.disk(), Stop::NoMemory)),
    }
}
