//! A share of a log under a lock.
ghost use Rattle.std.specs.Prelude.{ℕ, ◌≡◌, ◌<◌, ◌≤◌, ◌+◌, ◌∷◌, ◌++◌, [], None, IfOk, IfErr, OnOk, OnErr, length};
ghost use Rattle.tp_journal.specs.Records.{HasText};
ghost use Rattle.tp_shared_log.specs.Locks.{told_by};
ghost use Rattle.tp_shared_log.specs.Spends.{spends};
ghost use Rattle.tp_turns.specs.Turns.{claim, grown, idle};

use crate::locked::Locked;
use crate::slip::Slip;
use crate::{SharedLog, Spent, Stood};
use std::alloc::Global;
use std::marker::Model;
use std::sync::Wait;
use std::sync::ledger::{Ledger, Share};
use tp_journal::{ForceFault, Keeper, Receipt, Receipts};
use tp_logrec::LogRec;
use tp_outside::Disk;
use tp_turns::{Pass, Turns};

// Promise 5.7: Without memory a share tells what it told before
// Promise 5.3, part 2
/// A keeper of the records of one log, beside others. It keeps its own receipts.
///
/// It counts one fault once its stake is spent, and none before.
#[derive(Drop)]
pub struct LogShare<'a, D: Disk, R: Wait + Sync, L: Stood, M: Ledger> {
    log: &'a SharedLog<D, L, M>,
    rt: &'a R,
    part: Share<L>,
    stake: Share<M>,
    receipts: Vec<Receipt>,
    spent: Option<Spent>,
    pass: Pass<Locked<D, L, M>, Receipt>,
}

impl<'a, D: Disk, R: Wait + Sync, L: Stood, M: Ledger> Model for LogShare<'a, D, R, L, M> {
    ghost use Rattle.std.specs.Prelude.{ℕ, ◌≡◌, ◌<◌, ◌∷◌, [], length};
    ghost use Rattle.tp_shared_log.specs.Shares.{Shared, stake_of};
    ghost use Rattle.tp_turns.specs.Turns.{claim, idle};

    ghost Value = { Shared };

    ghost view = { λ s. record { receipts = s.receipts.items; spent = s.spent; parts = s.part.parts; stake_parts = s.stake.parts; of = s.pass.table_id } };

    ghost invariant = { λ s. (0 < s.part.parts) × (s.part.amount ≡ length s.receipts.items) × (s.stake.amount ≡ stake_of s.spent)
        × (s.pass.table_id ≡ s.log.now) × ((t : ℕ) × (s.pass.me ≡ (idle (claim t s.receipts.items ∷ []), []))) };
}

impl<D: Disk, L: Stood, M: Ledger> SharedLog<D, L, M> {
    /// A share of the log, from a part without an amount and a stake of one.
    pub fn share<'a, R: Wait + Sync>(
        &'a self,
        rt: &'a R,
        alloc: Global,
        part: Share<L>,
        stake: Share<M>,
    ) -> LogShare<'a, D, R, L, M>
        requires part { (0 < part.parts) × (part.amount ≡ 0) }
        requires stake { stake.amount ≡ 1 }
        ensures { result ≡ record { receipts = []; spent = None; parts = part.parts; stake_parts = stake.parts; of = self.now } }
    {
        LogShare {
            log: self,
            rt,
            part,
            stake,
            receipts: Vec::new(alloc),
            spent: None,
            pass: self.turns.enter(),
        }
    }
}

impl<'a, D: Disk, R: Wait + Sync, L: Stood, M: Ledger> LogShare<'a, D, R, L, M> {
    ghost use Rattle.tp_shared_log.specs.Shares.{stake_of};

    /// Gives back both shares, and the receipts. The amount of the first is their number; that of the second is 0 where this
    /// share answered `Full`, `DiskFault` or `Shut`.
    pub fn close(self) -> (Share<L>, Share<M>, Receipts)
        // Promise 5.2: A share counts its receipts, and nothing else
        ensures part { (result.0.parts ≡ self.entry.parts) × (result.0.amount ≡ length self.entry.receipts) }
        // Promise 5.3: A share that answered `Full`, `DiskFault` or `Shut` gives back a spent stake
        ensures stake { (result.1.parts ≡ self.entry.stake_parts) × (result.1.amount ≡ stake_of self.entry.spent) }
        ensures receipts { result.2 ≡ self.entry.receipts }
    {
        let LogShare {
            log: _,
            rt: _,
            part,
            stake,
            receipts,
            spent: _,
            pass: _,
        } = self;
        (part, stake, Receipts::from_vec(receipts))
    }

    /// As `close`, and a slip that shows the log what was noted.
    pub fn leave(self) -> (Share<L>, Share<M>, Receipts, Slip<D, L, M>)
        ensures part { (result.0.parts ≡ self.entry.parts) × (result.0.amount ≡ length self.entry.receipts) }
        ensures stake { (result.1.parts ≡ self.entry.stake_parts) × (result.1.amount ≡ stake_of self.entry.spent) }
        ensures receipts { result.2 ≡ self.entry.receipts }
        // Promise 5.11, part 2
        ensures slip { result.3 ≡ record { of = self.entry.of; receipts = self.entry.receipts } }
    {
        let LogShare {
            log: _,
            rt: _,
            part,
            stake,
            receipts,
            spent: _,
            pass,
        } = self;
        (part, stake, Receipts::from_vec(receipts), Slip::new(pass))
    }
}

impl<'a, D: Disk, R: Wait + Sync, L: Stood, M: Ledger> Keeper for LogShare<'a, D, R, L, M> {
    ghost use Rattle.tp_shared_log.specs.Shares.{share_standing};

    ghost standing = { λ s. share_standing L.stood L.wide s };

    fn force(&mut self, alloc: Global, rec: &LogRec) -> Result<Receipt, ForceFault> {
        if let Some(spent) = self.spent {
            return Err(spent.fault());
        }
        let kept = rec.copy(alloc)?;
        self.receipts.reserve(1)?;
        let log = self.log;
        let rt = self.rt;
        match force_in_turn(
            &log.turns,
            rt,
            alloc,
            rec,
            &mut self.pass,
            &mut self.part,
            &mut self.stake,
        ) {
            Ok(receipt) => {
                let own = Receipt {
                    place: receipt.place,
                    rec: kept,
                };
                self.receipts.push_reserved(own);
                Ok(receipt)
            }
            Err(fault) => {
                self.spent = Spent::by(fault);
                Err(fault)
            }
        }
    }

    fn count(&self) -> usize {
        let log = self.log;
        log.stood.len()
    }

    fn rec(&self, i: usize) -> &LogRec {
        let log = self.log;
        &log.stood[i].rec
    }

    fn place(&self, i: usize) -> u64 {
        let log = self.log;
        log.stood[i].place
    }

    fn texts(&self) {
        let log = self.log;
        let _stood = &log.stood;
    }

    fn faults(&self) -> u64 {
        match self.spent {
            None => 0,
            Some(_) => 1,
        }
    }

    fn wide(&self) -> bool {
        let log = self.log;
        log.wide
    }
}

// Forces a record on the log that the pass has.
fn force_held<D: Disk, L: Stood, M: Ledger>(
    turns: &Turns<Locked<D, L, M>, Receipt>,
    alloc: Global,
    rec: &LogRec,
    pass: &mut Pass<Locked<D, L, M>, Receipt>,
    part: &mut Share<L>,
    stake: &mut Share<M>,
) -> Result<Receipt, ForceFault>
    requires text { HasText L.wide rec.now }
    requires part { 0 < part.old.parts }
    requires stake { 1 ≤ stake.old.amount }
    requires pass { pass.old.table_id ≡ turns.now.table.shared.table_id }
    requires held { (x : _) × (pass.old.me.1 ≡ (0, x) ∷ []) }
    ensures receipt { IfOk result (λ r. r.rec ≡ rec.now) }
    ensures part_counts { OnOk result (part.new.amount ≡ part.old.amount + 1) }
    ensures part_stays { OnErr result (part.new.amount ≡ part.old.amount) }
    ensures stake_stays { OnOk result (stake.new.amount ≡ stake.old.amount) }
    ensures stake_spent { IfErr result (λ fault. stake.new.amount + spends fault ≡ stake.old.amount) }
    ensures parts { (part.new.parts ≡ part.old.parts) × (stake.new.parts ≡ stake.old.parts) }
    ensures view { (pass.new.table_id ≡ pass.old.table_id) × (pass.new.me.0 ≡ pass.old.me.0) }
    ensures held { (x : _) → pass.old.me.1 ≡ (0, x) ∷ [] → (y : _) × (pass.new.me.1 ≡ (0, y) ∷ []) × (length L.stood ≤ length (told_by x))
        × IfOk result (λ r. told_by y ≡ told_by x ++ r ∷ []) × OnErr result (told_by y ≡ told_by x) }
{
    let held = pass.slot_mut(&turns.table.shared, 0);
    held.force(alloc, rec, part, stake)
}

// Takes the log, forces a record there, and gives the log back.
fn force_in_turn<D: Disk, R: Wait, L: Stood, M: Ledger>(
    turns: &Turns<Locked<D, L, M>, Receipt>,
    rt: &R,
    alloc: Global,
    rec: &LogRec,
    pass: &mut Pass<Locked<D, L, M>, Receipt>,
    part: &mut Share<L>,
    stake: &mut Share<M>,
) -> Result<Receipt, ForceFault>
    requires text { HasText L.wide rec.now }
    requires part { 0 < part.old.parts }
    requires stake { 1 ≤ stake.old.amount }
    requires pass { (pass.old.table_id ≡ turns.now.table.shared.table_id) × ((t : ℕ) × (l : _) × (pass.old.me ≡ (idle (claim t l ∷ []), []))) }
    ensures receipt { IfOk result (λ r. r.rec ≡ rec.now) }
    ensures part_counts { OnOk result (part.new.amount ≡ part.old.amount + 1) }
    ensures part_stays { OnErr result (part.new.amount ≡ part.old.amount) }
    ensures stake_stays { OnOk result (stake.new.amount ≡ stake.old.amount) }
    ensures stake_spent { IfErr result (λ fault. stake.new.amount + spends fault ≡ stake.old.amount) }
    ensures parts { (part.new.parts ≡ part.old.parts) × (stake.new.parts ≡ stake.old.parts) }
    ensures pass { pass.new.table_id ≡ pass.old.table_id }
    ensures noted { IfOk result (λ r. pass.new.me ≡ (idle (grown pass.old.me.0.claims (r ∷ [])), [])) }
    ensures stays { OnErr result (pass.new.me ≡ (idle (grown pass.old.me.0.claims []), [])) }
{
    let turn = turns.take(rt, pass);
    let result = force_held(turns, alloc, rec, pass, part, stake);
    turns.give(pass, turn);
    result
}
