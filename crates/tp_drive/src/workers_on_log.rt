//! Workers on one log: the boot, the workers, and their receipts.
ghost use Rattle.std.specs.Prelude.{◌≡◌, ◌≤◌, None, IfOk, IfErr, length};
ghost use Rattle.tp_journal.specs.Records.{placed};
ghost use Rattle.tp_journal.specs.Journals.{standing_of};
ghost use Rattle.tp_drive.specs.Begun.{IsBegun};
ghost use Rattle.tp_drive.specs.Drives.{Fails, HasBootText, HasStarted, IsDriven, LeavesBooted, Stops, opening_on};
ghost use Rattle.tp_shared_log.specs.Images.{Leaves};

use crate::Gate;
use crate::begun::Begun;
use crate::crew::Left;
use crate::driven::{DriveFault, Driven};
use crate::finish::finish;
use crate::run::run_workers;
use std::alloc::Global;
use std::marker::Brand;
use std::sync::Wait;
use std::sync::ledger::{Blank, Ledger};
use std::thread::Threads;
use tp_journal::{Journal, Keeper};
use tp_names::SiteName;
use tp_outside::Disk;
use tp_records::Event;
use tp_shared_log::SharedLog;
use tp_site::Site;

/// Starts a site of that name on the log, gives each worker the events of its own nodes, in order, and hands the journal back.
/// Worker `i` has the nodes whose number is `i` modulo `workers`; an arrival belongs to the node that it is for. The outputs
/// are those of one thread, whatever the number of workers.
pub fn drive<R: Threads + Wait + Sync, D: Disk + Send, G: Gate + Sync>(
    rt: &R,
    alloc: Global,
    journal: Journal<D>,
    name: SiteName,
    events: &[Event],
    workers: u16,
    gate: &G,
) -> Result<Driven<D>, (Journal<D>, DriveFault)>
    requires { (1 ≤ workers) × (workers ≤ 16) }
    // Promise 6.1: On Ok the outputs, event by event, are those of one thread, for 1 to 16 workers
    // Promise 6.2: On Ok the log's records after the boot are an interleaving of what each lane's
    //   own events force, each with one receipt, in order and with its place; with them it is
    //   within its limit
    ensures done { IfOk result (λ d. IsDriven (opening_on journal name) workers events.now d.outs d.receipts d.journal.wide d.journal.list) }
    ensures open { IfOk result (λ d. d.journal.shut ≡ None) }
    // Promise 6.8 [clauses images images_left]: Where the disk tells its story, a crash since the
    //   boot left the boot and the first of the records after it; one at the end leaves all of
    //   them, of a log that is shut the boot and the first of the others
    // Promise 6.9 [tp_drive/specs/Drives.antt, clauses images images_left open fails]: The records that
    //   the site started on follow one another, the log stays of its version, and on Ok it is open
    ensures images { IfOk result (λ d. LeavesBooted (λ j. standing_of j (D.fault_count j.disk) (D.told j.disk) (D.fuse j.disk)) journal name
        (D.told d.journal.disk) d.journal) }
    ensures images_left { IfErr result
        (λ e. HasStarted e.1 → LeavesBooted (λ j. standing_of j (D.fault_count j.disk) (D.told j.disk) (D.fuse j.disk)) journal name (D.told e.0.disk) e.0) }
    // Promise 6.4: A site that does not start ends the drive with its fault, as `Site::start` says
    // Promise 6.5: `DiskFault` comes only of a log that is shut, whose disk failed in the call;
    //   after the boot the journal's list has an interleaving of prefixes of the lanes' records
    // Promise 6.6: `Full` comes only of a log that is not shut, in which one more record of the
    //   greatest length would have had no room; after the boot the journal's list has an
    //   interleaving of the lanes' records, of each lane all or those before some event; the event
    //   that is told is the least of these that is not for want of memory
    // Promise 6.7: `LogDiffers` never comes
    // Promise 6.10: Where memory runs out after the boot, the journal's list has after it an
    //   interleaving of prefixes of the lanes' records
    ensures fails { IfErr result (λ e. Fails (λ j. standing_of j (D.fault_count j.disk) (D.told j.disk) (D.fuse j.disk)) journal name
        workers events.now e.0 e.1) }
    ensures text { IfErr result (λ e. HasBootText (λ j. standing_of j (D.fault_count j.disk) (D.told j.disk) (D.fuse j.disk)) journal name e.0 e.1) }
{
    let site = match Site::start(alloc, journal, name) {
        Ok(site) => site,
        Err((journal, fault)) => return Err((journal, DriveFault::Start { fault })),
    };
    let boot = site.boot();
    let journal = site.keeper();
    let first = Blank::new(u64::from(workers));
    let second = Blank::new(u64::from(workers));
    on_log::<D, Brand, Brand, R, G>(
        rt, alloc, journal, first, second, name, boot, events, workers, gate,
    )
}

// The same on a log on which the site has started, for whatever two ledgers.
fn on_log<
    D: Disk + Send,
    L: Begun + Send + Sync,
    M: Ledger + Send + Sync,
    R: Threads + Wait + Sync,
    G: Gate + Sync,
>(
    rt: &R,
    alloc: Global,
    journal: Journal<D>,
    first: Blank,
    second: Blank,
    name: SiteName,
    boot: u64,
    events: &[Event],
    count: u16,
    gate: &G,
) -> Result<Driven<D>, (Journal<D>, DriveFault)>
    requires open { journal.shut ≡ None }
    requires count { (1 ≤ count) × (count ≤ 16) }
    requires stood { (L.stood ≡ placed journal.wide journal.list) × (L.faults ≡ D.fault_count journal.disk) × (L.wide ≡ journal.wide)
        × (L.shares ≡ count) × (L.story ≡ D.told journal.disk) }
    requires begun { IsBegun L.stood L.wide L.opening name boot }
    requires first { (first.name ≡ L.name) × (first.parts ≡ L.parts) × (first.parts ≡ count) }
    requires second { (second.name ≡ M.name) × (second.parts ≡ M.parts) × (second.parts ≡ count) }
    ensures done { IfOk result (λ d. IsDriven L.opening count events.now d.outs d.receipts d.journal.wide d.journal.list) }
    ensures open { IfOk result (λ d. d.journal.shut ≡ None) }
    ensures wide { IfOk result (λ d. d.journal.wide ≡ L.wide) }
    ensures wide_left { IfErr result (λ e. e.0.wide ≡ L.wide) }
    ensures images { IfOk result (λ d. Leaves L.story (length L.stood) d.journal.wide d.journal.list d.journal.shut (D.told d.journal.disk)) }
    ensures images_left { IfErr result (λ e. Leaves L.story (length L.stood) e.0.wide e.0.list e.0.shut (D.told e.0.disk)) }
    ensures stops { IfErr result (λ e. Stops L.opening count events.now L.faults e.0 (D.fault_count e.0.disk) e.1) }
{
    // A crash now leaves the records that stand, as long as the log is not shut.
    let _shut = journal.shut();
    let Ok(mut left) = Left::with_room(alloc, count) else {
        return Err((journal, DriveFault::NoMemory));
    };
    let (log, mut part, mut stake) = match SharedLog::<D, L, M>::new(
        alloc, journal, first, second, count,
    ) {
        Ok(made) => made,
        Err((journal, _)) => return Err((journal, DriveFault::NoMemory)),
    };
    let ran = run_workers(
        rt, alloc, &log, name, boot, events, count, gate, &mut part, &mut stake, &mut left,
    );
    let Ok(slips) = ran else {
        let (journal, _) = log.close(part, stake);
        return Err((journal, DriveFault::NoMemory));
    };
    let (journal, unfit) = log.close_with(rt, part, stake, slips);
    finish::<D, L>(alloc, journal, unfit, count, events, left)
}
