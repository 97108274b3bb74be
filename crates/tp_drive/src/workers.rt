//! The workers: each does the events of its own lane, all of them beside one another.
ghost use Rattle.std.specs.Prelude.{ℕ, ◌≡◌, ◌<◌, length, slice_index_or};
ghost use Rattle.tp_drive.specs.Crews.{AreFresh};
ghost use Rattle.tp_drive.specs.Works.{IsFresh, Worked};

use crate::Gate;
use crate::begun::Begun;
use crate::lane::Lane;
use std::alloc::Global;
use std::sync::Wait;
use std::sync::ledger::Ledger;
use std::thread;
use std::thread::Threads;
use tp_outside::Disk;
use tp_records::Event;

/// Runs a worker for each lane, and returns when all have returned.
pub fn run_lanes<
    'a,
    D: Disk + Send,
    R: Threads + Wait + Sync,
    L: Begun + Send + Sync,
    M: Ledger + Send + Sync,
    G: Gate + Sync,
>(rt: &R, alloc: Global, events: &[Event], gate: &G, lanes: &mut [Lane<'a, D, R, L, M>])
    requires some { 0 < length lanes.old }
    requires fresh { AreFresh L.stood L.wide L.opening (length lanes.old) lanes.old }
    ensures worked { (i : ℕ) (d : _) → i < length lanes.old → Worked L.stood L.wide L.opening (length lanes.old) i events.now (slice_index_or lanes.new i d) }
    ensures of { (i : ℕ) (d : _) → i < length lanes.old → (slice_index_or lanes.new i d).site.keeper.of ≡ (slice_index_or lanes.old i d).site.keeper.of }
{
    let count = lanes.len();
    thread::for_each_mut(
        rt,
        lanes,
        count,
        &|own, lane|
            requires { (0 < count) × IsFresh L.stood L.wide L.opening count own lane.now }
            ensures { Worked L.stood L.wide L.opening count own events.entry.now lane.exit.now
                × (lane.exit.now.site.keeper.of ≡ lane.entry.now.site.keeper.of) }
        { lane.work(alloc, events, count, own, gate) },
    );
}
