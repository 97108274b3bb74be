//! The journal: the records of a site on its disk.
ghost use Rattle.std.specs.Prelude.{◌≡◌, ◌≤◌, ◌<◌, ◌++◌, true, ◌∷◌, [], ℕ, List, length, Some, None, Err, IfOk, IfErr, OnOk, OnErr, slice_index_or};
ghost use Rattle.std.specs.List.{AllByRecursion};
ghost use Rattle.tp_outside.specs.Faults.{HasRisen};
ghost use Rattle.tp_outside.specs.Story.{Story};
ghost use Rattle.tp_journal.specs.Log.{most_bytes, StandsForEither};
ghost use Rattle.tp_journal.specs.Told.{IsOn, LeavesOnly, LeavesFront};
ghost use Rattle.tp_journal.specs.Start.{Starts, RefusesStart, SyncsAlone};
ghost use Rattle.tp_journal.specs.Started.{IsStarted, KeepsDisk, KeepsDiskInReplace};
ghost use Rattle.tp_logrec.specs.Order.{all_follow, brief};
ghost use Rattle.tp_journal.specs.Records.{HasText, AreRecords, bodies_of, log_bytes, record_body};
ghost use Rattle.tp_journal.specs.Journals.{bodies_in, kept_of, standing_of, ComesInOrder, Becomes, RefusesCompact, RefusesMigrate, size_of};
ghost use Rattle.tp_journal.specs.declared.faults.ForceFault.{ForceFault};
ghost use Rattle.tp_journal.specs.Keeping.{Forces, receipt_of};
ghost use Rattle.tp_journal.specs.Disorder.{IsFirstOutOfOrder};

use crate::lengths::text_len;
use crate::log::{Log, MOST_BYTES};
use crate::records::{Records, generation, write_piece};
use crate::{CompactFault, ForceFault, Keeper, Receipt, StartFault, disorder, tape};
use std::alloc::Global;
use std::marker::Model;
use tp_logrec::{LogRec, brief};
use tp_names::{NoMemory, Octets};
use tp_outside::{Disk, Failed};

// A log of version 2 with no records: four letters, the selector, the mark after an open gate, and a closed gate.
const EMPTY: [u8; 11] = [79, 84, 80, 76, 1, 1, 0, 2, 7, 2, 0];

/// Makes the disk hold a log of version 2 with no records alone, whatever it held.
pub fn format<D: Disk>(disk: &mut D) -> Result<(), Failed>
    // Promise 3.15: A log that is made, compacted or migrated has its records and nothing after its
    //   closing gate
    ensures formatted { OnOk result ((s : Story) → D.told disk.old ≡ Some s → IsOn (D.told disk.new) (log_bytes true [])) }
    ensures untold { D.told disk.old ≡ None → D.told disk.new ≡ None }
    ensures kept { D.fault_count disk.old ≤ D.fault_count disk.new }
    ensures risen { OnErr result (HasRisen (D.fault_count disk.old) (D.fault_count disk.new)) }
{
    tape::overwrite(disk, &EMPTY)
}

/// A started log of records, and the memory in which a record is written before it goes to the disk.
#[derive(Drop)]
pub struct Journal<D: Disk> {
    log: Log<D, Records>,
    piece: Octets,
}

impl<D: Disk> Model for Journal<D> {
    ghost use Rattle.tp_journal.specs.Journals.{Kept, kept_of};
    ghost use Rattle.tp_journal.specs.Records.{AreRecords};

    ghost Value = { Kept D };

    ghost view = { λ j. kept_of j.log };

    ghost invariant = { λ j. AreRecords j.log.shelf };
}

impl<D: Disk> Journal<D> {
    /// Reads the records of a log, and ends a change of generation that was cut short.
    pub fn start(alloc: Global, disk: D) -> Result<Journal<D>, (D, StartFault)>
        // Promise 3.11: A start that ends Ok has read what the bytes stand for, and ended what was
        //   cut short; what it leaves is told to the byte
        ensures started { IfOk result (λ j. Starts (D.told disk) (D.told j.disk) j.gate (bodies_in j) × (j.shut ≡ None)) }
        // Promise 4.1, part 2 [clauses started texts refused]
        ensures texts { IfOk result (λ j. AllByRecursion (HasText j.wide) j.list) }
        // Promise 3.12: Over a disk with a fuse, a start that ends Ok over a log whose records begin
        //   the file makes one changing call, the sync
        ensures passes { IfOk result (λ j. SyncsAlone (D.told disk) (D.fuse disk) (D.fuse j.disk)) }
        ensures kept { IfOk result (λ j. D.fault_count disk ≤ D.fault_count j.disk) }
        ensures refused { IfErr result (λ e. RefusesStart record_body (D.told disk) (D.told e.0) (D.fault_count disk) (D.fault_count e.0) e.1) }
    {
        let log = Log::start(alloc, disk, Records::new(alloc))?;
        let _records = log.shelf().list();
        Ok(Journal {
            log,
            piece: Octets::new(alloc),
        })
    }

    /// Forces one record: with the receipt it is on the disk, after all earlier ones. Where the log would have more than
    /// `MOST_BYTES` up to its closing gate, `Full` says how many, and nothing changes.
    pub fn force(&mut self, alloc: Global, rec: &LogRec) -> Result<Receipt, ForceFault>
        requires { HasText self.old.wide rec.now }
        // Promise 3.4: While a journal is not shut, at every moment of a force an image is the log
        //   before it or the log with the record, and after Ok it is the log with the record alone
        // Promise 3.6: After a force that ends Ok the file is what it was, but that the gate is
        //   open and the record and the next gate stand after it
        // Promise 3.7 [clauses forces untouched]: After `Full`, `Shut` and out of memory the disk
        //   is as it was before the force
        // Promise 3.8: Over a disk with a fuse that has not stopped, has made fewer than 2^64 - 4
        //   changing calls and fails at no other, a force that ends Ok makes four; one that ends
        //   with a fault of the disk stopped in one of them and leaves the fill in place of the
        //   record (calls 1 and 2) or of the gate (3 and 4), or there was no memory for one; one
        //   that ends otherwise makes none
        // Promise 3.9: A fault of the disk in a force carries the count of faults that the disk has
        //   when the force ends
        ensures forces { Forces (standing_of self.old (D.fault_count self.old.disk) (D.told self.old.disk) (D.fuse self.old.disk)) rec.now
            result (standing_of self.new (D.fault_count self.new.disk) (D.told self.new.disk) (D.fuse self.new.disk)) }
        // Promise 3.10 [clauses forces order]: Out of memory and a fault of the disk come of a
        //   force only where there is room for the record, and a journal that is shut answers
        //   `Shut` alone
        ensures order { IfErr result (ComesInOrder self.old rec.now) }
        ensures untouched { IfErr result (KeepsDisk self.old.disk self.new.disk) }
        // Promise 25.5: At every moment of a force, and of a settle, of a log that is all on its
        //   disk, an image has the bytes before the log's closing gate as they were
        ensures front { LeavesFront self.old.gate (D.told self.old.disk) (D.told self.new.disk) }
    {
        self.check(rec)?;
        let copy = rec.copy(alloc)?;
        let place = self.append(alloc, rec)?;
        Ok(Receipt { place, rec: copy })
    }

    // Is the log open, and has it room for the record? A fault says what it is not.
    fn check(&self, rec: &LogRec) -> Result<(), ForceFault>
        requires { HasText self.now.wide rec.now }
        ensures refused { IfErr result
            (λ fault. Forces (standing_of self.now (D.fault_count self.now.disk) (D.told self.now.disk) (D.fuse self.now.disk)) rec.now
            (Err fault) (standing_of self.now (D.fault_count self.now.disk) (D.told self.now.disk) (D.fuse self.now.disk))) }
        ensures order { IfErr result (ComesInOrder self.now rec.now) }
        ensures untouched { IfErr result (KeepsDisk self.now.disk self.now.disk) }
        ensures memory { OnOk result (ComesInOrder self.now rec.now ForceFault.NoMemory) }
    {
        if let Some(faults) = self.log.shut() {
            return Err(ForceFault::Shut { faults });
        }
        let len = text_len(self.log.shelf().wide(), rec);
        let size = self.log.gate() + 4 + len as u64;
        if size > MOST_BYTES {
            return Err(ForceFault::Full { size });
        }
        Ok(())
    }

    /// Forces one record as `force` does, and answers the place of its gate alone.
    pub fn append(&mut self, alloc: Global, rec: &LogRec) -> Result<u64, ForceFault>
        requires { HasText self.old.wide rec.now }
        // Promise 3.4, part 2
        // Promise 3.6, part 2
        // Promise 3.7, part 2 [clauses forces untouched]
        // Promise 3.8, part 2
        // Promise 3.9, part 2
        // Promise 3.10, part 2 [clauses forces order]
        ensures forces { Forces (standing_of self.old (D.fault_count self.old.disk) (D.told self.old.disk) (D.fuse self.old.disk)) rec.now
            (receipt_of rec.now result) (standing_of self.new (D.fault_count self.new.disk) (D.told self.new.disk) (D.fuse self.new.disk)) }
        ensures order { IfErr result (ComesInOrder self.old rec.now) }
        ensures untouched { IfErr result (KeepsDisk self.old.disk self.new.disk) }
        // Promise 25.5, part 3
        ensures front { LeavesFront self.old.gate (D.told self.old.disk) (D.told self.new.disk) }
    {
        if let Some(faults) = self.log.shut() {
            return Err(ForceFault::Shut { faults });
        }
        let wide = self.log.shelf().wide();
        let len = text_len(wide, rec);
        let size = self.log.gate() + 4 + len as u64;
        if size > MOST_BYTES {
            return Err(ForceFault::Full { size });
        }
        write_piece(alloc, wide, rec, len, &mut self.piece)?;
        let piece = self.piece.as_slice();
        let place = self.log.append_piece(&piece[2..2 + len], piece, rec)?;
        Ok(place)
    }

    // Promise 3.13: While a journal is not shut, at every moment of a compaction an image is the
    //   list before it or the brief
    /// Puts the brief of the list in its place, in the version that the log has. `first_out_of_order` tells whether the
    /// list is in order.
    pub fn compact(&mut self, alloc: Global) -> Result<(), CompactFault>
        requires { all_follow self.old.list ≡ true }
        ensures compacted { OnOk result
            (Becomes self.old.wide (brief self.old.list) self.old (D.fault_count self.old.disk) self.new (D.fault_count self.new.disk)) }
        ensures refused { IfErr result (RefusesCompact self.old (D.fault_count self.old.disk) self.new (D.fault_count self.new.disk)) }
        ensures untouched { IfErr result (KeepsDiskInReplace self.old.disk self.new.disk) }
        // A crash at any moment of the call leaves the records from before it, or their brief.
        ensures moments { self.old.shut ≡ None → (s : Story) → D.told self.old.disk ≡ Some s
            → LeavesOnly (StandsForEither (bodies_in self.old) (bodies_of self.old.wide (brief self.old.list))) (D.told self.old.disk) (D.told self.new.disk) }
        // Promise 3.15, part 2
        ensures bytes { OnOk result ((s : Story) → D.told self.old.disk ≡ Some s
            → IsOn (D.told self.new.disk) (log_bytes self.old.wide (brief self.old.list))) }
    {
        if let Some(faults) = self.log.shut() {
            return Err(CompactFault::Shut { faults });
        }
        let shelf = self.log.shelf();
        let short = brief(alloc, shelf.list())?;
        let (records, text) = generation(alloc, shelf.wide(), short.as_slice())?;
        self.log.replace(alloc, records, text.as_slice())?;
        Ok(())
    }

    // Promise 3.14: While a journal is not shut, at every moment of a migration an image is the
    //   list before it, or the brief in version 2
    /// Makes the log of version 2, and puts the brief of the list in its place, which is in order as for `compact`. Where
    /// that log would have more than `MOST_BYTES` up to its closing gate, `Full` says how many, and nothing changes.
    pub fn migrate(&mut self, alloc: Global) -> Result<(), ForceFault>
        requires { all_follow self.old.list ≡ true }
        ensures migrated { OnOk result (Becomes true (brief self.old.list) self.old (D.fault_count self.old.disk) self.new (D.fault_count self.new.disk)) }
        ensures room { OnOk result (size_of true (brief self.old.list) ≤ most_bytes) }
        ensures refused { IfErr result (RefusesMigrate self.old (D.fault_count self.old.disk) self.new (D.fault_count self.new.disk)) }
        ensures untouched { IfErr result (KeepsDisk self.old.disk self.new.disk) }
        // A crash at any moment of the call leaves the records from before it, or their brief in version 2.
        ensures moments { self.old.shut ≡ None → (s : Story) → D.told self.old.disk ≡ Some s
            → LeavesOnly (StandsForEither (bodies_in self.old) (bodies_of true (brief self.old.list))) (D.told self.old.disk) (D.told self.new.disk) }
        // Promise 3.15, part 3
        ensures bytes { OnOk result ((s : Story) → D.told self.old.disk ≡ Some s → IsOn (D.told self.new.disk) (log_bytes true (brief self.old.list))) }
    {
        if let Some(faults) = self.log.shut() {
            return Err(ForceFault::Shut { faults });
        }
        let short = brief(alloc, self.log.shelf().list())?;
        let (records, text) = generation(alloc, true, short.as_slice())?;
        let size = 5 + text.len() as u64;
        if size > MOST_BYTES {
            return Err(ForceFault::Full { size });
        }
        match self.log.replace(alloc, records, text.as_slice()) {
            Ok(()) => Ok(()),
            Err(CompactFault::DiskFault { faults }) => Err(ForceFault::DiskFault { faults }),
            Err(CompactFault::Shut { faults }) => Err(ForceFault::Shut { faults }),
            Err(CompactFault::NoMemory) => Err(ForceFault::NoMemory),
        }
    }

    /// The whole list, oldest first.
    pub fn list(&self) -> &[LogRec]
        ensures is { result.now ≡ self.now.list }
        ensures texts { AllByRecursion (HasText self.now.wide) self.now.list }
    {
        self.log.shelf().list()
    }

    // Promise 3.16: The first record out of order is found, and none exactly where the list is in
    //   order
    /// The index of the first record that may not follow those before it. There is none exactly where the list is in
    /// order, as `compact` and `migrate` ask.
    pub fn first_out_of_order(&self, alloc: Global) -> Result<Option<usize>, NoMemory>
        ensures { IfOk result (IsFirstOutOfOrder self.now.list) }
    {
        disorder::first_out_of_order(alloc, self.log.shelf().list())
    }

    /// The count of faults that every further call answers with, once a call has answered with a fault of the disk.
    /// Until then the bytes stand for the list.
    pub fn shut(&self) -> Option<u64>
        ensures is { result ≡ self.now.shut }
        // Promise 3.4, part 3
        ensures started { IsStarted (D.told self.now.disk) self.now.gate (bodies_in self.now) result }
    {
        self.log.shut()
    }

    /// The disk, which is let go of.
    pub fn disk(self) -> D
        ensures { result ≡ self.disk }
    {
        let Journal { log, piece: _ } = self;
        log.into_disk()
    }

    /// Its log of bodies, which are the texts of its records, and its memory for a record.
    pub(crate) fn into_log(self) -> (Log<D, Records>, Octets)
        ensures log { kept_of result.0 ≡ self }
        ensures records { AreRecords result.0.shelf }
    {
        let Journal { log, piece } = self;
        (log, piece)
    }

    /// The journal of such a log.
    pub(crate) fn of_log(log: Log<D, Records>, piece: Octets) -> Journal<D>
        requires { AreRecords log.shelf }
        ensures { result ≡ kept_of log }
    {
        Journal { log, piece }
    }

    /// The disk, lent.
    pub fn lent(&self) -> &D
        ensures { result.now ≡ self.now.disk }
    {
        self.log.disk()
    }
}

impl<D: Disk> Keeper for Journal<D> {
    ghost use Rattle.tp_journal.specs.Journals.{standing_of};

    ghost standing = { λ j. standing_of j (D.fault_count j.disk) (D.told j.disk) (D.fuse j.disk) };

    fn force(&mut self, alloc: Global, rec: &LogRec) -> Result<Receipt, ForceFault> {
        Journal::force(self, alloc, rec)
    }

    fn append(&mut self, alloc: Global, rec: &LogRec) -> Result<u64, ForceFault> {
        Journal::append(self, alloc, rec)
    }

    fn count(&self) -> usize {
        self.log.shelf().list().len()
    }

    fn rec(&self, i: usize) -> &LogRec {
        self.log.shelf().rec(i)
    }

    fn place(&self, i: usize) -> u64 {
        self.log.shelf().place(i)
    }

    #[tactic(auto, using(crate::proofs::RecordBodies::texts_placed))]
    fn texts(&self) {
        let _list = self.list();
    }

    fn faults(&self) -> u64 {
        self.log.disk().faults()
    }

    fn wide(&self) -> bool {
        self.log.shelf().wide()
    }
}
