//! One run of the workers over a locked log, from the two whole shares to the two whole shares.
ghost use Rattle.std.specs.Prelude.{◌≡◌, ◌≤◌, ◌<◌, ◌+◌, ℕ, [], IfOk, OnErr, OnOk, length, map, vec_len, vec_capacity};
ghost use Rattle.std.specs.List.{All, sum_by};
ghost use Rattle.atomic_table.specs.Seated.{TableId};
ghost use Rattle.tp_drive.specs.Begun.{IsBegun, recs, booted};
ghost use Rattle.tp_drive.specs.Crews.{AreFresh, IsOf, outs_of, receipts_of, stop_of, forced_by, stake_left};
ghost use Rattle.tp_drive.specs.Works.{HasOnePart};
ghost use Rattle.tp_drive.specs.Endings.{IsLeastStop};
ghost use Rattle.tp_drive.specs.Runs.{AreRun};

use crate::Gate;
use crate::begun::Begun;
use crate::crew::{Left, close_lanes, open_lanes};
use crate::lane::Lane;
use crate::workers::run_lanes;
use std::alloc::Global;
use std::sync::Wait;
use std::sync::ledger::{Ledger, Share};
use std::thread::Threads;
use tp_names::{NoMemory, SiteName};
use tp_outside::Disk;
use tp_records::Event;
use tp_shared_log::{SharedLog, Slip};

// Runs a worker for each of these lanes.
fn run_opened<
    'a,
    D: Disk + Send,
    R: Threads + Wait + Sync,
    L: Begun + Send + Sync,
    M: Ledger + Send + Sync,
    G: Gate + Sync,
>(rt: &R, alloc: Global, events: &[Event], gate: &G, lanes: &mut [Lane<'a, D, R, L, M>])
    requires some { 0 < length lanes.old }
    requires stood { recs L.stood ≡ booted L.opening }
    requires fresh { AreFresh L.stood L.wide L.opening (length lanes.old) lanes.old }
    ensures counted { length lanes.new ≡ length lanes.old }
    ensures one_part { All HasOnePart lanes.new }
    ensures of { (log : TableId) → All (IsOf log) lanes.old → All (IsOf log) lanes.new }
    ensures run { AreRun L.opening (length lanes.old) events.now (map outs_of lanes.new) (map receipts_of lanes.new) (map stop_of lanes.new) }
    ensures stopped { (event : ℕ) → IsLeastStop (map stop_of lanes.new) event → sum_by stake_left lanes.new < length lanes.old }
{
    run_lanes(rt, alloc, events, gate, lanes);
}

// Opens the lanes and runs a worker for each. Where memory runs out no worker runs.
fn open_and_run<
    'a,
    D: Disk + Send,
    R: Threads + Wait + Sync,
    L: Begun + Send + Sync,
    M: Ledger + Send + Sync,
    G: Gate + Sync,
>(
    rt: &'a R,
    alloc: Global,
    log: &'a SharedLog<D, L, M>,
    name: SiteName,
    boot: u64,
    events: &[Event],
    count: u16,
    gate: &G,
    part: &mut Share<L>,
    stake: &mut Share<M>,
    lanes: &mut Vec<Lane<'a, D, R, L, M>>,
) -> Result<(), NoMemory>
    requires begun { IsBegun L.stood L.wide L.opening name boot }
    requires some { 1 ≤ count }
    requires none { lanes.old.items ≡ [] }
    requires room { count ≤ vec_capacity lanes.old }
    requires part { (part.old.parts ≡ count) × (part.old.amount ≡ 0) }
    requires stake { (stake.old.parts ≡ count) × (stake.old.amount ≡ count) }
    ensures parts { (part.new.parts + vec_len lanes.new ≡ count) × (stake.new.parts + vec_len lanes.new ≡ count) }
    ensures amounts { (part.new.amount ≡ 0) × (stake.new.amount ≡ stake.new.parts) }
    ensures one_part { All HasOnePart lanes.new.items }
    ensures of { All (IsOf log.now) lanes.new.items }
    ensures few { vec_len lanes.new ≤ count }
    ensures all { OnOk result (vec_len lanes.new ≡ count) }
    ensures idle { OnErr result (sum_by forced_by lanes.new.items ≡ 0) }
    ensures run { OnOk result (AreRun L.opening count events.now (map outs_of lanes.new.items) (map receipts_of lanes.new.items)
        (map stop_of lanes.new.items)) }
    ensures stopped { OnOk result ((event : ℕ) → IsLeastStop (map stop_of lanes.new.items) event → sum_by stake_left lanes.new.items < count) }
{
    open_lanes(rt, alloc, log, name, boot, part, stake, lanes, count)?;
    run_opened(rt, alloc, events, gate, lanes.as_mut_slice());
    Ok(())
}

/// Runs so many workers, and leaves what each put out, its receipts, and where it stopped. It returns their slips. Where memory runs
/// out no worker runs.
pub fn run_workers<
    D: Disk + Send,
    R: Threads + Wait + Sync,
    L: Begun + Send + Sync,
    M: Ledger + Send + Sync,
    G: Gate + Sync,
>(
    rt: &R,
    alloc: Global,
    log: &SharedLog<D, L, M>,
    name: SiteName,
    boot: u64,
    events: &[Event],
    count: u16,
    gate: &G,
    part: &mut Share<L>,
    stake: &mut Share<M>,
    left: &mut Left,
) -> Result<Vec<Slip<D, L, M>>, NoMemory>
    requires begun { IsBegun L.stood L.wide L.opening name boot }
    requires some { 1 ≤ count }
    requires part { (part.old.parts ≡ count) × (part.old.amount ≡ 0) }
    requires stake { (stake.old.parts ≡ count) × (stake.old.amount ≡ count) }
    requires empty { (left.old.outs.items ≡ []) × (left.old.queues.items ≡ []) × (left.old.stops.items ≡ []) }
    requires room { (count ≤ vec_capacity left.old.outs) × (count ≤ vec_capacity left.old.queues) × (count ≤ vec_capacity left.old.stops) }
    ensures parts { (part.new.parts ≡ count) × (stake.new.parts ≡ count) }
    ensures receipts { OnOk result (part.new.amount ≡ sum_by (λ q. length q) left.new.queues.items) }
    ensures idle { OnErr result (part.new.amount ≡ 0) }
    ensures of { IfOk result (λ slips. All (λ s. s.of ≡ log.now) slips.items) }
    ensures slips { IfOk result (λ slips. map (λ s. s.receipts) slips.items ≡ left.new.queues.items) }
    ensures run { OnOk result (AreRun L.opening count events.now (map (λ o. o.items) left.new.outs.items) left.new.queues.items left.new.stops.items) }
    ensures stopped { OnOk result ((event : ℕ) → IsLeastStop left.new.stops.items event → stake.new.amount < count) }
{
    let mut lanes = Vec::with_capacity(alloc, usize::from(count))?;
    let mut slips = Vec::with_capacity(alloc, usize::from(count))?;
    let ran = open_and_run(
        rt, alloc, log, name, boot, events, count, gate, part, stake, &mut lanes,
    );
    close_lanes(lanes, part, stake, left, &mut slips);
    ran?;
    Ok(slips)
}
