//! The lanes of a log: made of its two shares, and taken apart into them again.
ghost use Rattle.std.specs.Prelude.{◌≡◌, ◌≤◌, ◌<◌, ◌+◌, ℕ, [], List, OnOk, OnErr, IfOk, map, length, vec_len, vec_capacity};
ghost use Rattle.std.specs.List.{All, sum_by};
ghost use Rattle.tp_drive.specs.Begun.{IsBegun};
ghost use Rattle.tp_drive.specs.Works.{Working, IsFresh, HasOnePart};
ghost use Rattle.tp_drive.specs.Crews.{AreFresh, IsOf, outs_of, receipts_of, slip_of, stop_of, forced_by, stake_left};

use crate::begun::Begun;
use crate::lane::Lane;
use crate::queue::Queue;
use crate::stop::Stop;
use std::alloc::Global;
use std::collections::VecDeque;
use std::sync::Wait;
use std::sync::ledger::{Ledger, Share};
use tp_names::{NoMemory, SiteName};
use tp_outside::Disk;
use tp_records::Outputs;
use tp_shared_log::{SharedLog, Slip};

/// What the lanes leave, lane by lane.
#[derive(Drop)]
pub struct Left {
    pub outs: Vec<VecDeque<Outputs>>,
    pub queues: Vec<Queue>,
    pub stops: Vec<Option<Stop>>,
}

impl Left {
    /// Nothing yet, with room for so many lanes.
    pub fn with_room(alloc: Global, lanes: u16) -> Result<Left, NoMemory>
        ensures empty { IfOk result (λ l. (l.outs.items ≡ []) × (l.queues.items ≡ []) × (l.stops.items ≡ [])) }
        ensures room { IfOk result (λ l. (lanes ≤ vec_capacity l.outs) × (lanes ≤ vec_capacity l.queues) × (lanes ≤ vec_capacity l.stops)) }
    {
        let lanes = usize::from(lanes);
        Ok(Left {
            outs: Vec::with_capacity(alloc, lanes)?,
            queues: Vec::with_capacity(alloc, lanes)?,
            stops: Vec::with_capacity(alloc, lanes)?,
        })
    }
}

// A lane over one part of each ledger. Where memory runs out the parts stay.
fn open_lane<'a, D: Disk, R: Wait + Sync, L: Begun, M: Ledger>(
    rt: &'a R,
    alloc: Global,
    log: &'a SharedLog<D, L, M>,
    name: SiteName,
    boot: u64,
    own: u16,
    lanes: u16,
    part: &mut Share<L>,
    stake: &mut Share<M>,
) -> Result<Lane<'a, D, R, L, M>, NoMemory>
    requires own { own < lanes }
    requires begun { IsBegun L.stood L.wide L.opening name boot }
    requires part { (1 ≤ part.old.parts) × (part.old.amount ≡ 0) }
    requires stake { (1 ≤ stake.old.parts) × (stake.old.amount ≡ stake.old.parts) }
    ensures fresh { IfOk result (λ l. IsFresh L.stood L.wide L.opening lanes own l) }
    ensures of { IfOk result (λ l. l.site.keeper.of ≡ log.now) }
    ensures ok { OnOk result ((part.new.parts + 1 ≡ part.old.parts) × (stake.new.parts + 1 ≡ stake.old.parts)) }
    ensures err { OnErr result ((part.new.parts ≡ part.old.parts) × (stake.new.parts ≡ stake.old.parts)) }
    ensures amounts { (part.new.amount ≡ 0) × (stake.new.amount ≡ stake.new.parts) }
{
    let share = log.share(rt, alloc, part.split_off(1, 0), stake.split_off(1, 1));
    match Lane::new(alloc, share, name, boot, own, lanes) {
        Ok(lane) => Ok(lane),
        Err((share, fault)) => {
            let (one, other, _) = share.close();
            part.merge(one);
            stake.merge(other);
            Err(fault)
        }
    }
}

/// Opens so many lanes.
pub fn open_lanes<'a, D: Disk, R: Wait + Sync, L: Begun, M: Ledger>(
    rt: &'a R,
    alloc: Global,
    log: &'a SharedLog<D, L, M>,
    name: SiteName,
    boot: u64,
    part: &mut Share<L>,
    stake: &mut Share<M>,
    lanes: &mut Vec<Lane<'a, D, R, L, M>>,
    count: u16,
) -> Result<(), NoMemory>
    requires begun { IsBegun L.stood L.wide L.opening name boot }
    requires none { lanes.old.items ≡ [] }
    requires room { count ≤ vec_capacity lanes.old }
    requires part { (part.old.parts ≡ count) × (part.old.amount ≡ 0) }
    requires stake { (stake.old.parts ≡ count) × (stake.old.amount ≡ count) }
    ensures fresh { AreFresh L.stood L.wide L.opening count lanes.new.items }
    ensures of { All (IsOf log.now) lanes.new.items }
    ensures ok { OnOk result (vec_len lanes.new ≡ count) }
    ensures parts { (part.new.parts + vec_len lanes.new ≡ count) × (stake.new.parts + vec_len lanes.new ≡ count) }
    ensures amounts { (part.new.amount ≡ 0) × (stake.new.amount ≡ stake.new.parts) }
{
    for own in 0..count {
        let lane = open_lane(rt, alloc, log, name, boot, own, count, part, stake)?;
        lanes.push_reserved(lane);
    }
    Ok(())
}

/// Takes the lanes apart: what each leaves, its slip, and both shares together.
pub fn close_lanes<'a, D: Disk, R: Wait + Sync, L: Begun, M: Ledger>(
    lanes: Vec<Lane<'a, D, R, L, M>>,
    part: &mut Share<L>,
    stake: &mut Share<M>,
    left: &mut Left,
    slips: &mut Vec<Slip<D, L, M>>,
)
    requires parts { All HasOnePart lanes.items }
    requires empty { (left.old.outs.items ≡ []) × (left.old.queues.items ≡ []) × (left.old.stops.items ≡ []) }
    requires room { (vec_len lanes ≤ vec_capacity left.old.outs) × (vec_len lanes ≤ vec_capacity left.old.queues)
        × (vec_len lanes ≤ vec_capacity left.old.stops) }
    requires slips { (slips.old.items ≡ []) × (vec_len lanes ≤ vec_capacity slips.old) }
    ensures outs { map (λ o. o.items) left.new.outs.items ≡ map outs_of lanes.entry.items }
    ensures receipts { left.new.queues.items ≡ map receipts_of lanes.entry.items }
    ensures stops { left.new.stops.items ≡ map stop_of lanes.entry.items }
    ensures slips { slips.new.items ≡ map slip_of lanes.entry.items }
    ensures parts { (part.new.parts ≡ part.old.parts + vec_len lanes.entry) × (stake.new.parts ≡ stake.old.parts + vec_len lanes.entry) }
    ensures forced { part.new.amount ≡ part.old.amount + sum_by forced_by lanes.entry.items }
    ensures stakes { stake.new.amount ≡ stake.old.amount + sum_by stake_left lanes.entry.items }
{
    for lane in lanes {
        let (out, stop, share) = lane.close();
        let (one, other, receipts, slip) = share.leave();
        part.merge(one);
        stake.merge(other);
        left.outs.push_reserved(out);
        left.queues.push_reserved(Queue::new(receipts));
        left.stops.push_reserved(stop);
        slips.push_reserved(slip);
    }
}
