//! How a log is closed with the slips of its shares.
ghost use Rattle.std.specs.Prelude.{◌≡◌, ◌<◌, ◌++◌, ◌||◌, true, [], length, drop, map, is_some};
ghost use Rattle.std.specs.List.{All, sum_by};
ghost use Rattle.tp_journal.specs.Log.{most_bytes};
ghost use Rattle.tp_journal.specs.Records.{placed};
ghost use Rattle.tp_model.specs.Lanes.{IsInterleaving};
ghost use Rattle.tp_shared_log.specs.Images.{Leaves};
ghost use Rattle.tp_shared_log.specs.Locks.{Extends, ShutRose, HadNoRoom};
ghost use Rattle.tp_turns.specs.Turns.{lists_of};

use crate::locked::Locked;
use crate::slip::Slip;
use crate::{SharedLog, Stood, Unfit};
use std::sync::Wait;
use std::sync::ledger::{Ledger, Share};
use tp_journal::{Journal, Receipt};
use tp_outside::Disk;
use tp_turns::{Pass, Turns};

impl<D: Disk, L: Stood, M: Ledger> SharedLog<D, L, M> {
    /// As `close`, with the slips of shares of this log that have left. If they note as many records as the log has got through
    /// shares, then these are an interleaving of what each slip notes: each receipt tells the place of its record.
    pub fn close_with<R: Wait>(
        self,
        rt: &R,
        all: Share<L>,
        stakes: Share<M>,
        slips: Vec<Slip<D, L, M>>,
    ) -> (Journal<D>, Option<Unfit>)
        requires all { all.parts ≡ L.parts }
        requires stakes { stakes.parts ≡ M.parts }
        requires slips { All (λ s. s.of ≡ self) slips.items }
        ensures list { Extends L.stood all.amount (placed result.0.wide result.0.list) }
        // Promise 5.11: Where the slips of shares note as many records as were noted, the records after
        //   those that stood are an interleaving of the shares' receipts: each tells its record, and the
        //   place that this has in the journal's list
        ensures woven { sum_by (λ s. length s.receipts) slips.items ≡ all.amount
            → IsInterleaving (drop (length L.stood) (placed result.0.wide result.0.list)) (map (λ s. s.receipts) slips.items) }
        ensures wide { result.0.wide ≡ L.wide }
        ensures shut { ShutRose L.faults result.0.shut (D.fault_count result.0.disk) }
        ensures images { Leaves L.story (length L.stood) result.0.wide result.0.list result.0.shut (D.told result.0.disk) }
        ensures spent { stakes.amount < L.shares → (is_some result.0.shut || is_some result.1) ≡ true }
        ensures unfit { HadNoRoom result.0.gate result.1 }
        ensures room { 0 < all.amount → result.0.gate < most_bytes }
    {
        let SharedLog {
            stood: _,
            wide: _,
            turns,
        } = self;
        let mut root = turns.enter();
        join_slips(&turns, &mut root, slips);
        turns.into_claimed(rt, root).close(all, stakes)
    }
}

// Puts the claims of all slips behind those of a pass.
fn join_slips<D: Disk, L: Stood, M: Ledger>(
    turns: &Turns<Locked<D, L, M>, Receipt>,
    root: &mut Pass<Locked<D, L, M>, Receipt>,
    slips: Vec<Slip<D, L, M>>,
)
    requires root { (root.old.table_id ≡ turns.now.table.shared.table_id) × (root.old.me.1 ≡ []) }
    requires slips { All (λ s. s.of ≡ turns.now.table.shared.table_id) slips.items }
    ensures id { root.new.table_id ≡ root.old.table_id }
    ensures none { root.new.me.1 ≡ [] }
    ensures lists { lists_of root.new.me.0.claims ≡ lists_of root.old.me.0.claims ++ map (λ s. s.receipts) slips.items }
{
    for slip in slips {
        turns.join(root, slip.into_pass());
    }
}
