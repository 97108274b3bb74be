//! After the joins: the fault is found, and the receipts and the outputs are put in order.
ghost use Rattle.std.specs.Prelude.{◌≡◌, ◌≤◌, ◌<◌, ◌||◌, ℕ, true, List, [], None, drop, is_some, IfOk, IfErr, IfNone, IfSome, length, map};
ghost use Rattle.std.specs.List.{All, sum_by};
ghost use Rattle.tp_journal.specs.Log.{most_bytes};
ghost use Rattle.tp_journal.specs.Records.{placed};
ghost use Rattle.tp_model.specs.Lanes.{IsInterleaving};
ghost use Rattle.tp_shared_log.specs.Locks.{Extends, ShutRose, HadNoRoom};
ghost use Rattle.tp_drive.specs.Begun.{booted};
ghost use Rattle.tp_drive.specs.Endings.{IsLeastStop};
ghost use Rattle.tp_drive.specs.Runs.{AreRun};
ghost use Rattle.tp_drive.specs.Drives.{IsCause, IsDriven, Stops};

use crate::begun::Begun;
use crate::crew::Left;
use crate::driven::{DriveFault, Driven};
use crate::ending::{Ended, ending_of};
use crate::merge::merge;
use crate::outputs::by_event;
use crate::stop::Stop;
use std::alloc::Global;
use tp_journal::Journal;
use tp_outside::Disk;
use tp_records::Event;
use tp_shared_log::Unfit;

/// What the workers of a closed log did, or why they did not.
pub fn finish<D: Disk, L: Begun>(
    alloc: Global,
    journal: Journal<D>,
    unfit: Option<Unfit>,
    count: u16,
    events: &[Event],
    left: Left,
) -> Result<Driven<D>, (Journal<D>, DriveFault)>
    requires some { 1 ≤ count }
    requires begun { L.stood ≡ placed L.wide (booted L.opening) }
    requires wide { journal.wide ≡ L.wide }
    requires list { Extends L.stood (sum_by (λ q. length q) left.queues.items) (placed journal.wide journal.list) }
    requires woven { IsInterleaving (drop (length L.stood) (placed journal.wide journal.list)) left.queues.items }
    requires run { AreRun L.opening count events.now (map (λ o. o.items) left.outs.items) left.queues.items left.stops.items }
    requires cause { (event : ℕ) → IsLeastStop left.stops.items event → (is_some journal.shut || is_some unfit) ≡ true }
    requires shut { ShutRose L.faults journal.shut (D.fault_count journal.disk) }
    requires unfit { HadNoRoom journal.gate unfit }
    requires room { 0 < sum_by (λ q. length q) left.queues.items → journal.gate < most_bytes }
    ensures done { IfOk result (λ d. IsDriven L.opening count events.now d.outs d.receipts d.journal.wide d.journal.list) }
    ensures open { IfOk result (λ d. d.journal.shut ≡ None) }
    ensures stops { IfErr result (λ e. Stops L.opening count events.now L.faults e.0 (D.fault_count e.0.disk) e.1) }
    ensures journal { (IfErr result (λ e. e.0 ≡ journal)) × (IfOk result (λ d. d.journal ≡ journal)) }
{
    let Left {
        mut outs,
        mut queues,
        stops,
    } = left;
    if let Some(fault) = fault_of(stops.as_slice(), journal.shut(), unfit) {
        return Err((journal, fault));
    }
    let Ok(receipts) = merge(alloc, queues.as_mut_slice()) else {
        return Err((journal, DriveFault::NoMemory));
    };
    let Ok(outs) = by_event(alloc, events, outs.as_mut_slice()) else {
        return Err((journal, DriveFault::NoMemory));
    };
    Ok(Driven {
        outs,
        receipts,
        journal,
    })
}

// Why not all events were done: the log is shut, or else lanes stopped.
fn fault_of(stops: &[Option<Stop>], shut: Option<u64>, unfit: Option<Unfit>) -> Option<DriveFault>
    requires { (event : ℕ) → IsLeastStop stops.now event → (is_some shut || is_some unfit) ≡ true }
    ensures none { IfNone result (All (λ s. s ≡ None) stops.now) }
    ensures open { IfNone result (shut ≡ None) }
    ensures some { IfSome result (λ f. IsCause stops.now shut unfit f) }
{
    if let Some(faults) = shut {
        return Some(DriveFault::DiskFault { faults });
    }
    let event = match ending_of(stops) {
        Ended::All => return None,
        Ended::NoMemory => return Some(DriveFault::NoMemory),
        Ended::Stopped(event) => event,
    };
    let Some(unfit) = unfit else {
        unreachable!();
    };
    Some(DriveFault::Full {
        size: unfit.size,
        event,
    })
}
