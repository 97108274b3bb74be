//! A journal that runs ahead of its disk: what it is given is noted, and all that is noted is forced at once.
ghost use Rattle.std.specs.Prelude.{◌≡◌, ◌≤◌, ◌<◌, ◌++◌, ◌+◌, ◌∷◌, [], ℕ, List, length, vec_len, Some, None, IfOk, IfErr, OnOk, OnErr};
ghost use Rattle.tp_outside.specs.Story.{Story};
ghost use Rattle.tp_journal.specs.Log.{blocks, place_behind, settled_bytes, StandsFor, StandsForEither};
ghost use Rattle.tp_journal.specs.Told.{IsOn, LeavesOnly, LeavesNow, LeavesFront};
ghost use Rattle.tp_journal.specs.Started.{IsKept, KeepsDisk};
ghost use Rattle.tp_journal.specs.Stops.{body_piece};
ghost use Rattle.tp_journal.specs.Records.{HasText, text, wide_of};
ghost use Rattle.tp_journal.specs.Journals.{bodies_in, standing_of, ComesInOrder, Tells};
ghost use Rattle.tp_journal.specs.Keeping.{Forces, receipt_of};
ghost use Rattle.tp_journal.specs.Settling.{SettlesTo};
ghost use Rattle.tp_journal.specs.Gathering.{bodies_settled, bodies_noted, gathered_standing, IsSettled, IsShutBy, RefusesSettle, Stays};

use crate::lengths::text_len;
use crate::log::{Log, MOST_BYTES};
use crate::records::{Records, write_piece};
use crate::shelf::Shelf;
use crate::{ForceFault, Journal, Keeper, Receipt, Settles, tape};
use std::alloc::{AllocError, Global};
use std::marker::Model;
use tp_logrec::LogRec;
use tp_names::{NoMemory, Octets};
use tp_outside::{Disk, Failed};

// As many zeros are written after the closing gate, where the file has no room for what comes.
const AHEAD: usize = 65_536;

// A log that grows by less than this needs no zeros.
const LITTLE: u64 = 4_096;

/// A journal whose records are noted, and the memory in which a record is written before it waits.
#[derive(Drop)]
pub struct Gathering<D: Disk> {
    disk: D,
    shelf: Records,
    // The place of the closing gate after all records.
    gate: u64,
    shut: Option<u64>,
    // How many records are on the disk.
    settled: usize,
    // The log from the closing gate on the disk on: the noted records, each after an open gate, and a closed gate.
    waits: Vec<u8>,
    piece: Octets,
    // Once the closing gate is at this place, room is made for what comes.
    room: u64,
    // Are there zeros after the log?
    ahead: bool,
}

impl<D: Disk> Model for Gathering<D> {
    ghost use Rattle.tp_journal.specs.Records.{AreRecords};
    ghost use Rattle.tp_journal.specs.Gathering.{Gathered, gathered_of, IsGathered};

    ghost Value = { Gathered D };

    ghost view = { λ g. gathered_of (record { disk = g.disk; shelf = g.shelf; gate = g.gate; shut = g.shut }) g.settled };

    ghost invariant = { λ g. AreRecords g.shelf
        × IsGathered (D.told g.disk) (gathered_of (record { disk = g.disk; shelf = g.shelf; gate = g.gate; shut = g.shut }) g.settled) g.waits.items };
}

// Puts a piece behind what waits, whose last gate opens, and the record on the shelf; or changes nothing.
fn put_behind(
    waits: &mut Vec<u8>,
    shelf: &mut Records,
    place: u64,
    body: &[u8],
    piece: &[u8],
    rec: &LogRec,
) -> Result<(), AllocError>
    requires has { HasText (wide_of shelf.old) rec.now }
    requires body { body.now ≡ text (wide_of shelf.old) rec.now }
    requires place { place ≡ place_behind shelf.old }
    requires some { 0 < vec_len waits.old }
    ensures shelf { OnOk result (shelf.new ≡ shelf.old ++ text (wide_of shelf.old) rec.now ∷ []) }
    ensures waits { OnOk result ((front : List ℕ) → waits.old.items ≡ front ++ 0 ∷ [] → waits.new.items ≡ front ++ (1 ∷ piece.now)) }
    ensures err { OnErr result ((shelf.new ≡ shelf.old) × (waits.new.items ≡ waits.old.items)) }
{
    let last = waits.len() - 1;
    waits.extend_from_slice(piece)?;
    if shelf.put(place, body, rec).is_err() {
        waits.truncate(last + 1);
        return Err(AllocError);
    }
    waits[last] = 1;
    Ok(())
}

// What is written after the closing gate.
fn zeros_ahead(alloc: Global) -> Result<Vec<u8>, AllocError> {
    vec![in alloc; 0u8; AHEAD]
}

impl<D: Disk> Gathering<D> {
    /// A journal that notes from now on.
    pub fn new(alloc: Global, journal: Journal<D>) -> Result<Gathering<D>, (Journal<D>, NoMemory)>
        ensures ok { IfOk result (λ g. g ≡ record { journal = journal; settled = length journal.list }) }
        ensures err { IfErr result (λ e. e.0 ≡ journal) }
    {
        let Ok(waits) = Octets::from_slice(alloc, &[0]) else {
            return Err((journal, NoMemory));
        };
        let settled = journal.list().len();
        let (log, piece) = journal.into_log();
        let (disk, shelf, gate, shut) = log.into_parts();
        Ok(Gathering {
            disk,
            shelf,
            gate,
            shut,
            settled,
            waits: waits.into_vec(),
            piece,
            room: gate + LITTLE,
            ahead: false,
        })
    }

    /// The journal once more, when nothing is noted or the log is shut.
    pub fn into_journal(self) -> Journal<D>
        requires { IsSettled self }
        ensures { result ≡ self.journal }
    {
        let Gathering {
            disk,
            shelf,
            gate,
            shut,
            settled: _,
            waits: _,
            piece,
            room: _,
            ahead: _,
        } = self;
        Journal::of_log(Log::of_parts(disk, shelf, gate, shut), piece)
    }

    /// The disk. Records that are noted are on it only where they were settled.
    pub fn disk(self) -> D
        ensures { result ≡ self.journal.disk }
    {
        let Gathering { disk, .. } = self;
        disk
    }

    /// Notes one record: with the receipt it is on the disk once it is settled, after all earlier ones. Nothing is written, and
    /// the disk is what it was. `Full` and `Shut` come as they do of a journal that forces.
    pub fn force(&mut self, alloc: Global, rec: &LogRec) -> Result<Receipt, ForceFault>
        requires { HasText self.old.journal.wide rec.now }
        // Promise 3.20 [clauses notes disk]: A record that is noted changes nothing on the disk;
        //   `Full` and `Shut` come as they do of a force
        ensures notes { Forces (standing_of self.old.journal (D.fault_count self.old.journal.disk) None None) rec.now result
            (standing_of self.new.journal (D.fault_count self.new.journal.disk) None None) }
        ensures disk { self.new.journal.disk ≡ self.old.journal.disk }
        ensures settled { self.new.settled ≡ self.old.settled }
    {
        let copy = rec.copy(alloc)?;
        let place = self.append(alloc, rec)?;
        Ok(Receipt { place, rec: copy })
    }

    /// Notes one record as `force` does, and answers the place of its gate alone.
    pub fn append(&mut self, alloc: Global, rec: &LogRec) -> Result<u64, ForceFault>
        requires { HasText self.old.journal.wide rec.now }
        // Promise 3.20, part 2 [clauses notes disk]
        ensures notes { Forces (standing_of self.old.journal (D.fault_count self.old.journal.disk) None None) rec.now
            (receipt_of rec.now result) (standing_of self.new.journal (D.fault_count self.new.journal.disk) None None) }
        ensures order { IfErr result (ComesInOrder self.old.journal rec.now) }
        ensures disk { self.new.journal.disk ≡ self.old.journal.disk }
        ensures settled { self.new.settled ≡ self.old.settled }
    {
        if let Some(faults) = self.shut {
            return Err(ForceFault::Shut { faults });
        }
        let wide = self.shelf.wide();
        let len = text_len(wide, rec);
        let size = self.gate + 4 + len as u64;
        if size > MOST_BYTES {
            return Err(ForceFault::Full { size });
        }
        write_piece(alloc, wide, rec, len, &mut self.piece)?;
        let piece = self.piece.as_slice();
        let place = self.gate;
        put_behind(
            &mut self.waits,
            &mut self.shelf,
            place,
            &piece[2..2 + len],
            piece,
            rec,
        )?;
        self.gate = place + piece.len() as u64;
        Ok(place)
    }

    /// How many bytes wait to be written, the closing gate among them.
    pub fn waiting(&self) -> usize
        ensures { result ≡ length (blocks (bodies_noted self.now)) + 1 }
    {
        self.waits.len()
    }

    /// The count of faults that every further call answers with. Until there is one, the bytes stand for the settled records.
    pub fn shut(&self) -> Option<u64>
        ensures is { result ≡ self.now.journal.shut }
        ensures kept { IsKept (D.told self.now.journal.disk) (place_behind (bodies_settled self.now)) (bodies_settled self.now) result }
    {
        self.shut
    }

    /// Forces all that is noted, and wants no memory for it. Where the disk fails the log is shut, and the list keeps what was
    /// noted.
    pub fn settle(&mut self) -> Result<(), ForceFault>
        ensures tells { Tells self.old.journal (D.fault_count self.old.journal.disk) self.new.journal (D.fault_count self.new.journal.disk) }
        ensures ok { OnOk result ((self.old.journal.shut ≡ None) × (self.new.journal.shut ≡ None)) }
        // Promise 3.22 [clauses refused tells]: A settle fails only by a fault of the disk, which
        //   shuts the log, or because the log was shut before; the list keeps what was noted
        ensures refused { IfErr result
            (RefusesSettle self.old.journal (D.fault_count self.old.journal.disk) self.new.journal (D.fault_count self.new.journal.disk)) }
        ensures settled { IsSettled self.new }
        ensures grows { self.old.settled ≤ self.new.settled }
        ensures within { self.new.settled ≤ length self.new.journal.list }
        ensures stands { IfErr result (λ fault. self.new.settled ≡ self.old.settled) }
        ensures untouched { IfErr result (KeepsDisk self.old.journal.disk self.new.journal.disk) }
        // A crash at any moment of the call leaves the records that were on the disk, or these and all that were noted.
        // Promise 3.21 [clauses moments last bytes]: While the log is not shut, at every moment of
        //   a settle an image is the log without the noted records or with all of them; after Ok it
        //   is the log with all, and the file is to the byte what it would be if each had been
        //   forced alone
        ensures moments { self.old.journal.shut ≡ None → (s : Story) → D.told self.old.journal.disk ≡ Some s
            → LeavesOnly (StandsForEither (bodies_settled self.old) (bodies_in self.old.journal)) (D.told self.old.journal.disk)
            (D.told self.new.journal.disk) }
        ensures untold { D.told self.old.journal.disk ≡ None → D.told self.new.journal.disk ≡ None }
        // To the byte the file is what it would be if each record had been forced alone.
        ensures bytes { OnOk result ((file : List ℕ) → IsOn (D.told self.old.journal.disk) file
            → IsOn (D.told self.new.journal.disk) (settled_bytes (place_behind (bodies_settled self.old)) (bodies_noted self.old) file)) }
        // A crash after `Ok` leaves all records.
        ensures last { OnOk result (LeavesNow (λ file. StandsFor file (bodies_in self.old.journal)) (D.told self.new.journal.disk)) }
        // Promise 25.5, part 2
        ensures front { LeavesFront (place_behind (bodies_settled self.old)) (D.told self.old.journal.disk) (D.told self.new.journal.disk) }
    {
        if let Some(faults) = self.shut {
            return Err(ForceFault::Shut { faults });
        }
        let count = self.shelf.list().len();
        if self.settled == count {
            return Ok(());
        }
        let place = self.gate - (self.waits.len() - 1) as u64;
        let Ok(()) = tape::append(&mut self.disk, place, &self.waits[1..]) else {
            let faults = self.disk.faults();
            self.shut = Some(faults);
            return Err(ForceFault::DiskFault { faults });
        };
        self.settled = count;
        self.waits.truncate(1);
        self.waits[0] = 0;
        Ok(())
    }

    // Promise 3.24: Where zeros are written after the closing gate, and where they are cut off, an
    //   image at every moment is the log with the records that were forced, and its bytes up to
    //   the closing gate are as they were
    /// Where the log has come to the end of what is written of the file, writes zeros after its closing gate, so that the file does
    /// not grow with each settle that follows. Without memory for them it does nothing.
    pub fn make_room(&mut self) -> Result<(), Failed>
        ensures stays { Stays D.told D.fault_count self.old self.new }
        ensures ok { OnOk result (self.new.journal.shut ≡ self.old.journal.shut) }
        ensures fails { OnErr result (IsShutBy self.old.journal (D.fault_count self.old.journal.disk) self.new.journal (D.fault_count self.new.journal.disk)) }
    {
        if self.shut.is_some() || self.gate < self.room {
            return Ok(());
        }
        self.room = self.gate + 1;
        let long = self.waits.len() - 1;
        if long >= AHEAD {
            return Ok(());
        }
        let place = self.gate - long as u64;
        let alloc = *self.waits.allocator();
        let Ok(zeros) = zeros_ahead(alloc) else {
            return Ok(());
        };
        let Ok(()) = tape::widen(&mut self.disk, place, &zeros) else {
            self.shut = Some(self.disk.faults());
            return Err(Failed);
        };
        self.room = place + AHEAD as u64;
        self.ahead = true;
        Ok(())
    }

    // Promise 3.24, part 2
    /// Cuts off what was written after the closing gate.
    pub fn trim(&mut self) -> Result<(), Failed>
        ensures stays { Stays D.told D.fault_count self.old self.new }
        ensures ok { OnOk result (self.new.journal.shut ≡ self.old.journal.shut) }
        ensures fails { OnErr result (IsShutBy self.old.journal (D.fault_count self.old.journal.disk) self.new.journal (D.fault_count self.new.journal.disk)) }
    {
        if self.shut.is_some() || !self.ahead {
            return Ok(());
        }
        self.ahead = false;
        let place = self.gate - (self.waits.len() - 1) as u64;
        let Ok(()) = tape::trim(&mut self.disk, place) else {
            self.shut = Some(self.disk.faults());
            return Err(Failed);
        };
        Ok(())
    }

    // Settles once there is room.
    fn settle_ahead(&mut self) -> Result<(), ForceFault>
        ensures { SettlesTo (gathered_standing D.fault_count D.told self.old) result (gathered_standing D.fault_count D.told self.new) }
    {
        let Ok(()) = self.make_room() else {
            let faults = self.disk.faults();
            return Err(ForceFault::DiskFault { faults });
        };
        Gathering::settle(self)
    }

    // Settles, and cuts off what was written after the log.
    fn settle_last(&mut self) -> Result<(), ForceFault>
        ensures { SettlesTo (gathered_standing D.fault_count D.told self.old) result (gathered_standing D.fault_count D.told self.new) }
    {
        Gathering::settle(self)?;
        let Ok(()) = self.trim() else {
            let faults = self.disk.faults();
            return Err(ForceFault::DiskFault { faults });
        };
        Ok(())
    }
}

impl<D: Disk> Settles for Gathering<D> {
    fn settle(&mut self, last: bool) -> Result<(), ForceFault> {
        if last {
            self.settle_last()
        } else {
            self.settle_ahead()
        }
    }
}

impl<D: Disk> Keeper for Gathering<D> {
    ghost use Rattle.tp_journal.specs.Gathering.{gathered_standing};

    ghost standing = { λ g. gathered_standing D.fault_count D.told g };

    fn force(&mut self, alloc: Global, rec: &LogRec) -> Result<Receipt, ForceFault> {
        Gathering::force(self, alloc, rec)
    }

    fn append(&mut self, alloc: Global, rec: &LogRec) -> Result<u64, ForceFault> {
        Gathering::append(self, alloc, rec)
    }

    fn count(&self) -> usize {
        self.shelf.list().len()
    }

    fn rec(&self, i: usize) -> &LogRec {
        self.shelf.rec(i)
    }

    fn place(&self, i: usize) -> u64 {
        self.shelf.place(i)
    }

    #[tactic(auto, using(crate::proofs::RecordBodies::texts_placed))]
    fn texts(&self) {
        let _list = self.shelf.list();
    }

    fn faults(&self) -> u64 {
        self.disk.faults()
    }

    fn wide(&self) -> bool {
        self.shelf.wide()
    }
}
