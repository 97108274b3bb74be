//! What shares take in turn: a journal that notes, the books of two ledgers, and the first record that had no room.
//!
//! Nobody is answered before the log is closed, so a record is noted in turn, and settled with those after it: where
//! much waits, and at the end.
ghost use Rattle.std.specs.Prelude.{◌≡◌, ◌<◌, ◌≤◌, ◌+◌, ◌∷◌, ◌++◌, [], ◌||◌, true, length, is_some, None, Some, IfOk, IfErr, OnOk, OnErr};
ghost use Rattle.tp_journal.specs.Log.{most_bytes};
ghost use Rattle.tp_journal.specs.Records.{HasText, placed};
ghost use Rattle.tp_shared_log.specs.Locks.{Extends, ShutRose, HadNoRoom, told_by, added};
ghost use Rattle.tp_shared_log.specs.Images.{Leaves};
ghost use Rattle.tp_shared_log.specs.Spends.{spends};

use crate::unfit::first_unfit;
use crate::{Stood, Unfit};
use std::alloc::Global;
use std::marker::Model;
use std::sync::ledger::{Blank, Book, Ledger, Share};
use tp_journal::{ForceFault, Gathering, Journal, Keeper, Receipt};
use tp_logrec::LogRec;
use tp_outside::Disk;
use tp_turns::Lists;

/// How many bytes may wait when a record is noted.
const MOST_WAITING: usize = 65_536;

/// A journal that notes, the book of the records noted, the book of the stakes, and the first record that had no room.
#[derive(Drop)]
pub struct Locked<D: Disk, L: Stood, M: Ledger> {
    journal: Gathering<D>,
    forced: Book<L>,
    stakes: Book<M>,
    unfit: Option<Unfit>,
}

impl<D: Disk, L: Stood, M: Ledger> Model for Locked<D, L, M> {
    ghost use Rattle.tp_journal.specs.Gathering.{Gathered};
    ghost use Rattle.tp_shared_log.specs.Locks.{IsKept, stood_as};

    ghost Value = { Gathered D };

    ghost view = { λ s. s.journal };

    ghost invariant = { λ s. IsKept
        (stood_as L.stood L.faults L.wide L.shares L.story)
        s.journal (D.fault_count s.journal.journal.disk) (D.told s.journal.journal.disk)
        s.forced.total s.stakes.total s.unfit };
}

impl<D: Disk, L: Stood, M: Ledger> Lists<Receipt> for Locked<D, L, M> {
    ghost list = { added L.stood };
}

impl<D: Disk, L: Stood, M: Ledger> Locked<D, L, M> {
    /// Puts a journal beside two new ledgers. Each share has every part.
    pub fn new(
        journal: Gathering<D>,
        first: Blank,
        second: Blank,
        shares: u16,
    ) -> (Locked<D, L, M>, Share<L>, Share<M>)
        requires open { journal.journal.shut ≡ None }
        requires settled { journal.settled ≡ length journal.journal.list }
        requires stood { (L.stood ≡ placed journal.journal.wide journal.journal.list) × (L.faults ≡ D.fault_count journal.journal.disk)
            × (L.wide ≡ journal.journal.wide) × (L.shares ≡ shares) × (L.story ≡ D.told journal.journal.disk) }
        requires first { (first.name ≡ L.name) × (first.parts ≡ L.parts) }
        requires second { (second.name ≡ M.name) × (second.parts ≡ M.parts) × (0 < second.parts) }
        ensures same { result.0 ≡ journal }
        ensures part { (result.1.parts ≡ L.parts) × (result.1.amount ≡ 0) }
        ensures stake { (result.2.parts ≡ M.parts) × (result.2.amount ≡ shares) }
    {
        // The disk's bytes stand for the records on it, as long as the log is not shut.
        let _shut = journal.shut();
        let (forced, part) = first.open::<L>();
        let (mut stakes, mut stake) = second.open::<M>();
        stakes.add(&mut stake, shares as u64);
        let locked = Locked {
            journal,
            forced,
            stakes,
            unfit: None,
        };
        (locked, part, stake)
    }

    // Settles what is noted, where much waits. A fault takes one from the amount of the stake.
    fn settle_much(&mut self, stake: &mut Share<M>) -> Result<(), ForceFault>
        requires stake { 1 ≤ stake.old.amount }
        ensures stake_stays { OnOk result (stake.new.amount ≡ stake.old.amount) }
        ensures stake_spent { IfErr result (λ fault. stake.new.amount + spends fault ≡ stake.old.amount) }
        ensures parts { stake.new.parts ≡ stake.old.parts }
        ensures begins { length L.stood ≤ length (told_by self.old) }
        ensures told { told_by self.new ≡ told_by self.old }
    {
        let Locked {
            journal,
            forced: _,
            stakes,
            unfit: _,
        } = self;
        if journal.waiting() <= MOST_WAITING {
            return Ok(());
        }
        match journal.settle() {
            Ok(()) => Ok(()),
            Err(fault) => {
                stakes.sub(stake, 1);
                Err(fault)
            }
        }
    }

    /// Notes a record, after what waits is settled if that is much: so no record is noted by a call that answers with a fault
    /// of the disk. `Ok` adds one to the amount of the part, and each answer but `Ok` and `NoMemory` takes one from that of
    /// the stake.
    pub fn force(
        &mut self,
        alloc: Global,
        rec: &LogRec,
        part: &mut Share<L>,
        stake: &mut Share<M>,
    ) -> Result<Receipt, ForceFault>
        requires text { HasText L.wide rec.now }
        requires part { 0 < part.old.parts }
        requires stake { 1 ≤ stake.old.amount }
        ensures receipt { IfOk result (λ r. r.rec ≡ rec.now) }
        ensures begins { length L.stood ≤ length (told_by self.old) }
        ensures adds { IfOk result (λ r. told_by self.new ≡ told_by self.old ++ r ∷ []) }
        ensures stays { OnErr result (told_by self.new ≡ told_by self.old) }
        ensures part_counts { OnOk result (part.new.amount ≡ part.old.amount + 1) }
        ensures part_stays { OnErr result (part.new.amount ≡ part.old.amount) }
        ensures stake_stays { OnOk result (stake.new.amount ≡ stake.old.amount) }
        ensures stake_spent { IfErr result (λ fault. stake.new.amount + spends fault ≡ stake.old.amount) }
        ensures parts { (part.new.parts ≡ part.old.parts) × (stake.new.parts ≡ stake.old.parts) }
    {
        self.settle_much(stake)?;
        self.note(alloc, rec, part, stake)
    }

    // Notes a record.
    fn note(
        &mut self,
        alloc: Global,
        rec: &LogRec,
        part: &mut Share<L>,
        stake: &mut Share<M>,
    ) -> Result<Receipt, ForceFault>
        requires text { HasText L.wide rec.now }
        requires part { 0 < part.old.parts }
        requires stake { 1 ≤ stake.old.amount }
        ensures receipt { IfOk result (λ r. r.rec ≡ rec.now) }
        ensures begins { length L.stood ≤ length (told_by self.old) }
        ensures adds { IfOk result (λ r. told_by self.new ≡ told_by self.old ++ r ∷ []) }
        ensures stays { OnErr result (told_by self.new ≡ told_by self.old) }
        ensures part_counts { OnOk result (part.new.amount ≡ part.old.amount + 1) }
        ensures part_stays { OnErr result (part.new.amount ≡ part.old.amount) }
        ensures stake_stays { OnOk result (stake.new.amount ≡ stake.old.amount) }
        ensures stake_spent { IfErr result (λ fault. stake.new.amount + spends fault ≡ stake.old.amount) }
        ensures parts { (part.new.parts ≡ part.old.parts) × (stake.new.parts ≡ stake.old.parts) }
    {
        let Locked {
            journal,
            forced,
            stakes,
            unfit,
        } = self;
        match journal.force(alloc, rec) {
            Ok(receipt) => {
                forced.add(part, 1);
                Ok(receipt)
            }
            Err(ForceFault::NoMemory) => Err(ForceFault::NoMemory),
            Err(ForceFault::Full { size }) => {
                *unfit = first_unfit(alloc, *unfit, size, journal.wide(), rec)?;
                stakes.sub(stake, 1);
                Err(ForceFault::Full { size })
            }
            Err(ForceFault::DiskFault { faults }) => {
                stakes.sub(stake, 1);
                Err(ForceFault::DiskFault { faults })
            }
            Err(ForceFault::Shut { faults }) => {
                stakes.sub(stake, 1);
                Err(ForceFault::Shut { faults })
            }
        }
    }

    /// The journal, to which nothing was added.
    pub fn into_journal(self) -> Journal<D>
        requires { self.settled ≡ length self.journal.list }
        ensures { result ≡ self.journal }
    {
        let Locked {
            journal,
            forced: _,
            stakes: _,
            unfit: _,
        } = self;
        journal.into_journal()
    }

    /// Settles what is noted. The journal, and the first record that had no room, go to whoever has all parts again.
    pub fn close(self, all: Share<L>, stakes: Share<M>) -> (Journal<D>, Option<Unfit>)
        requires all { all.parts ≡ L.parts }
        requires stakes { stakes.parts ≡ M.parts }
        ensures list { Extends L.stood all.amount (placed result.0.wide result.0.list) }
        ensures same { placed result.0.wide result.0.list ≡ told_by self }
        ensures wide { result.0.wide ≡ L.wide }
        ensures shut { ShutRose L.faults result.0.shut (D.fault_count result.0.disk) }
        ensures images { Leaves L.story (length L.stood) result.0.wide result.0.list result.0.shut (D.told result.0.disk) }
        ensures spent { stakes.amount < L.shares → (is_some result.0.shut || is_some result.1) ≡ true }
        ensures unfit { HadNoRoom result.0.gate result.1 }
        ensures room { 0 < all.amount → result.0.gate < most_bytes }
    {
        let Locked {
            journal,
            mut forced,
            stakes: mut book,
            unfit,
        } = self;
        let (mut all, mut stakes) = (all, stakes);
        let mut journal = journal;
        let _settled = journal.settle();
        forced.audit(&mut all);
        book.audit(&mut stakes);
        let journal = journal.into_journal();
        // As above: of a journal that is shut, the lock has kept what a crash leaves.
        let _shut = journal.shut();
        (journal, unfit)
    }
}
