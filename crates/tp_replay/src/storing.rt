//! The store that member 3 is.
ghost use Rattle.std.specs.Prelude.{◌≡◌, ◌≤◌, IfOk, IfErr, OnOk, OnErr};
ghost use Rattle.tp_outside.specs.Faults.{HasRisen};
ghost use Rattle.tp_replay.specs.Storing.{status_at, IsMade, OpensAt, RefusesStore};

use crate::status::Status;
use std::alloc::Global;
use tp_bound::Bound;
use tp_journal::{Gates, StartFault};
use tp_outside::{Disk, Failed};

// A disk that is empty gets a log of no bodies.
fn make_log<D: Disk>(disk: &mut D) -> Result<(), Failed>
    ensures made { OnOk result (IsMade (D.told disk.old) (D.told disk.new)) }
    ensures kept { D.fault_count disk.old ≤ D.fault_count disk.new }
    ensures risen { OnErr result (HasRisen (D.fault_count disk.old) (D.fault_count disk.new)) }
{
    if disk.len()? == 0 {
        Gates::format(disk)?;
    }
    Ok(())
}

/// Starts the store of a node on a disk, which gets a log of no bodies first where it is empty. With a fault the disk comes back;
/// Foreign and DiskFault are as `Bound::open` tells them, and DiskFault comes also of a call that made the log.
pub fn open_store<D: Disk>(alloc: Global, disk: D, node: u16) -> Result<Bound<D>, (D, StartFault)>
    // Promise 8.18: `open_store`, by which main of `tpnode` starts member 3 of `replay`, opens the
    //   store on what its disk has or, where that is empty, on a log of no bodies
    ensures opened { IfOk result (λ bound. OpensAt (D.told disk) (D.told bound.disk) node bound) }
    // Promise 8.19: Where it does not open the store, Foreign is as the store's opening tells it,
    //   and DiskFault comes only where the disk's count rose
    ensures refused { IfErr result (λ e. RefusesStore (D.told disk) (D.told e.0) (D.fault_count disk) (D.fault_count e.0) e.1) }
{
    let mut disk = disk;
    match make_log(&mut disk) {
        Ok(()) => Bound::open(alloc, disk, node),
        Err(Failed) => {
            let faults = disk.faults();
            Err((disk, StartFault::DiskFault { faults }))
        }
    }
}

/// How a run ends before it began, where its store was not opened.
pub fn status_of(fault: StartFault) -> Status
    ensures { result ≡ status_at fault }
{
    match fault {
        StartFault::Foreign { at } => Status::Foreign { at },
        StartFault::DiskFault { faults } => Status::DiskFault { faults },
        StartFault::NoMemory => Status::NoMemory,
    }
}
