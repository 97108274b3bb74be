//! A site that is started on the log of a disk.
ghost use Rattle.std.specs.Prelude.{◌≡◌, Some, IfOk, IfErr};
ghost use Rattle.tp_outside.specs.Story.{Story, seen};
ghost use Rattle.tp_log_tools.specs.Readings.{IsFile};
ghost use Rattle.tp_serve.specs.Progress.{journal_of};
ghost use Rattle.tp_serve.specs.Starting.{unread_by as unread_of, unstarted_by as unstarted_of, HasStarted, NotStarted, IsStartStop};

use std::alloc::Global;
use tp_journal::{Journal, StartFault as JournalFault};
use tp_model::What;
use tp_names::SiteName;
use tp_outside::Disk;
use tp_site::{Site, StartFault};
use tp_streams::Stop;

fn unread_by(fault: JournalFault) -> Stop
    ensures { result ≡ unread_of fault }
{
    match fault {
        JournalFault::Foreign { at } => Stop::Foreign { at },
        JournalFault::DiskFault { faults } => Stop::DiskFault { faults },
        JournalFault::NoMemory => Stop::NoMemory,
    }
}

fn unstarted_by(fault: StartFault) -> Stop
    ensures { result ≡ unstarted_of fault }
{
    match fault {
        StartFault::Foreign { at } => Stop::Foreign { at },
        StartFault::BootsSpent => Stop::Limit {
            what: What::Boots,
            at: 0,
        },
        StartFault::Full { .. } => Stop::Limit {
            what: What::Log,
            at: 0,
        },
        StartFault::DiskFault { faults } | StartFault::Shut { faults } => {
            Stop::DiskFault { faults }
        }
        StartFault::NoMemory => Stop::NoMemory,
    }
}

/// Starts a site of that name on the log of a disk, and forces its boot; or hands the disk back with the cause.
pub fn start<D: Disk>(alloc: Global, disk: D, name: SiteName) -> Result<Site<Journal<D>>, (D, Stop)>
    ensures started { IfOk result (HasStarted (journal_of D.fault_count D.told D.fuse) name (D.told disk) (D.fault_count disk)) }
    ensures refused { IfErr result (λ e. (s : Story) → D.told disk ≡ Some s → IsFile (seen s) → NotStarted name s (D.told e.0) e.1) }
    ensures stops { IfErr result (λ e. IsStartStop (D.fault_count disk) (D.fault_count e.0) e.1) }
{
    let journal = match Journal::start(alloc, disk) {
        Ok(journal) => journal,
        Err((disk, fault)) => return Err((disk, unread_by(fault))),
    };
    match Site::start(alloc, journal, name) {
        Ok(site) => Ok(site),
        Err((journal, fault)) => Err((journal.disk(), unstarted_by(fault))),
    }
}
