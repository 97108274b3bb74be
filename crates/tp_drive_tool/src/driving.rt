//! The workers over the log of a disk.
ghost use Rattle.std.specs.Prelude.{◌≡◌, ◌≤◌, Some, IfOk, IfErr};
ghost use Rattle.tp_outside.specs.Story.{Story, seen};
ghost use Rattle.tp_log_tools.specs.Readings.{IsFile};
ghost use Rattle.tp_drive_tool.specs.Driving.{HasDriven, IsDriveCause, NotDriven};

use crate::Status;
use std::alloc::Global;
use std::sync::Wait;
use std::thread::Threads;
use tp_drive::{Gate, OutputsByEvent, drive};
use tp_journal::Journal;
use tp_names::SiteName;
use tp_outside::Disk;
use tp_records::Event;

/// Starts a site of that name on the log of the disk, and has so many workers do the events. Hands back the outputs of each
/// event, or why not all were done.
pub(crate) fn drive_on<R: Threads + Wait + Sync, D: Disk + Send, G: Gate + Sync>(
    rt: &R,
    alloc: Global,
    name: SiteName,
    workers: u16,
    events: &[Event],
    disk: D,
    gate: &G,
) -> (D, Result<OutputsByEvent, Status>)
    requires { (1 ≤ workers) × (workers ≤ 16) }
    ensures driven { IfOk result.1 (λ outs. (s : Story) → D.told disk ≡ Some s → IsFile (seen s) → HasDriven name workers events.now s (D.told result.0) outs) }
    ensures stops { IfErr result.1
        (λ status. (s : Story) → D.told disk ≡ Some s → IsFile (seen s) → NotDriven name workers events.now s (D.told result.0) status) }
    ensures cause { IfErr result.1 (IsDriveCause (D.fault_count disk) (D.fault_count result.0)) }
{
    let journal = match Journal::start(alloc, disk) {
        Ok(journal) => journal,
        Err((disk, fault)) => return (disk, Err(Status::of_journal(fault))),
    };
    match drive(rt, alloc, journal, name, events, workers, gate) {
        Ok(driven) => {
            let _records = driven.journal.list();
            (driven.journal.disk(), Ok(driven.outs))
        }
        Err((journal, fault)) => {
            let _shut = journal.shut();
            let _records = journal.list();
            (journal.disk(), Err(Status::of_drive(fault)))
        }
    }
}
