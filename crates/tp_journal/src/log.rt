//! A started log: the one place that knows where the closing gate stands and whether the disk has failed.
//! What its bodies mean, its shelf knows.
ghost use Rattle.std.specs.Prelude.{◌≡◌, ◌≤◌, ◌<◌, ◌^◌, ◌+◌, ◌-◌, ◌++◌, ◌∷◌, [], ℕ, List, length, drop, Some, None, true, IfOk, IfErr, OnOk};
ghost use Rattle.tp_outside.specs.Story.{Story};
ghost use Rattle.tp_journal.specs.Log.{IsBody, counted, head, most_bytes, StandsForEither, forced_bytes};
ghost use Rattle.tp_journal.specs.Start.{Starts, RefusesStart, SyncsAlone};
ghost use Rattle.tp_journal.specs.Started.{IsStarted, Appends, RefusesAppend, Replaces, RefusesReplace, KeepsDisk, KeepsDiskInReplace};
ghost use Rattle.tp_outside.specs.FuseDisk.{OnFuse};
ghost use Rattle.tp_journal.specs.Stops.{body_piece, Opens, StopsForcing};
ghost use Rattle.tp_journal.specs.Told.{IsOn, LeavesOnly, LeavesFront, IsTextOf};

use crate::opening::open;
use crate::shelf::Shelf;
use crate::{CompactFault, ForceFault, StartFault, tape};
use std::alloc::{AllocError, Global};
use std::marker::Model;
use tp_outside::Disk;

/// The most bytes that a log may have up to its closing gate.
pub const MOST_BYTES: u64 = 268_435_456;

#[derive(Drop)]
pub struct Log<D: Disk, S: Shelf> {
    disk: D,
    shelf: S,
    gate: u64,
    shut: Option<u64>,
}

impl<D: Disk, S: Shelf> Model for Log<D, S> {
    ghost use Rattle.tp_journal.specs.Started.{Started, IsStarted};

    ghost Value = { Started D S };

    ghost view = { λ l. record { disk = l.disk; shelf = l.shelf; gate = l.gate; shut = l.shut } };

    ghost invariant = { λ l. IsStarted (D.told l.disk) l.gate (S.bodies l.shelf) l.shut };
}

// What is written after the closing gate: the body with its length before it, and a closed gate.
fn piece_of(alloc: Global, body: &[u8]) -> Result<Vec<u8>, AllocError>
    requires { IsBody body.now }
    ensures { IfOk result (λ piece. piece.items ≡ body_piece body.now) }
{
    let mut piece = Vec::with_capacity(alloc, body.len() + 3)?;
    let len = body.len();
    piece.extend_from_slice(&[(len / 256) as u8, (len % 256) as u8])?;
    piece.extend_from_slice(body)?;
    piece.extend_from_slice(&[0])?;
    Ok(piece)
}

impl<D: Disk, S: Shelf + Drop> Log<D, S> {
    /// Adds a body, of which a copy of the item is kept. At `Ok` it is on the disk, and the answer is the place of its gate.
    pub fn append(&mut self, alloc: Global, body: &[u8], item: &S::Item) -> Result<u64, ForceFault>
        requires body { IsBody body.now }
        requires says { S.says (S.bodies self.old.shelf) body.now item.now }
        ensures appended { IfOk result (λ place. Appends
            record { bodies = S.bodies self.old.shelf; gate = self.old.gate; shut = self.old.shut; faults = D.fault_count self.old.disk } body.now place
            record { bodies = S.bodies self.new.shelf; gate = self.new.gate; shut = self.new.shut; faults = D.fault_count self.new.disk }) }
        ensures refused { IfErr result (RefusesAppend
            record { bodies = S.bodies self.old.shelf; gate = self.old.gate; shut = self.old.shut; faults = D.fault_count self.old.disk } body.now
            record { bodies = S.bodies self.new.shelf; gate = self.new.gate; shut = self.new.shut; faults = D.fault_count self.new.disk }) }
        ensures untouched { IfErr result (KeepsDisk self.old.disk self.new.disk) }
        // A crash at any moment of the call leaves the bodies from before it, with the new one or without.
        ensures moments { self.old.shut ≡ None → (s : Story) → D.told self.old.disk ≡ Some s
            → LeavesOnly (StandsForEither (S.bodies self.old.shelf) (S.bodies self.old.shelf ++ body.now ∷ [])) (D.told self.old.disk) (D.told self.new.disk) }
        ensures untold { D.told self.old.disk ≡ None → D.told self.new.disk ≡ None }
        ensures started { OnOk result (IsStarted (D.told self.new.disk) self.new.gate (S.bodies self.new.shelf) self.new.shut) }
        ensures passes { OnOk result (OnFuse (Opens self.old.gate (body_piece body.now)) (D.fuse self.old.disk) (D.fuse self.new.disk)) }
        ensures stops { IfErr result (StopsForcing self.old.gate body.now (D.fuse self.old.disk) (D.fuse self.new.disk)) }
        ensures bytes { OnOk result ((file : List ℕ) → IsOn (D.told self.old.disk) file
            → IsOn (D.told self.new.disk) (forced_bytes self.old.gate body.now file)) }
        ensures front { LeavesFront self.old.gate (D.told self.old.disk) (D.told self.new.disk) }
    {
        if let Some(faults) = self.shut {
            return Err(ForceFault::Shut { faults });
        }
        let size = self.gate + 4 + body.len() as u64;
        if size > MOST_BYTES {
            return Err(ForceFault::Full { size });
        }
        let piece = piece_of(alloc, body)?;
        self.append_piece(body, &piece, item)
    }

    /// Adds a body that has room, from the piece that is written for it: its length, the body, and a closed gate.
    #[inline(always)]
    pub fn append_piece(
        &mut self,
        body: &[u8],
        piece: &[u8],
        item: &S::Item,
    ) -> Result<u64, ForceFault>
        requires body { IsBody body.now }
        requires piece { piece.now ≡ body_piece body.now }
        requires says { S.says (S.bodies self.old.shelf) body.now item.now }
        requires open { self.old.shut ≡ None }
        requires room { self.old.gate + 4 + length body.now ≤ most_bytes }
        ensures appended { IfOk result (λ place. Appends
            record { bodies = S.bodies self.old.shelf; gate = self.old.gate; shut = self.old.shut; faults = D.fault_count self.old.disk } body.now place
            record { bodies = S.bodies self.new.shelf; gate = self.new.gate; shut = self.new.shut; faults = D.fault_count self.new.disk }) }
        ensures refused { IfErr result (RefusesAppend
            record { bodies = S.bodies self.old.shelf; gate = self.old.gate; shut = self.old.shut; faults = D.fault_count self.old.disk } body.now
            record { bodies = S.bodies self.new.shelf; gate = self.new.gate; shut = self.new.shut; faults = D.fault_count self.new.disk }) }
        ensures untouched { IfErr result (KeepsDisk self.old.disk self.new.disk) }
        // A crash at any moment of the call leaves the bodies from before it, with the new one or without.
        ensures moments { self.old.shut ≡ None → (s : Story) → D.told self.old.disk ≡ Some s
            → LeavesOnly (StandsForEither (S.bodies self.old.shelf) (S.bodies self.old.shelf ++ body.now ∷ [])) (D.told self.old.disk) (D.told self.new.disk) }
        ensures untold { D.told self.old.disk ≡ None → D.told self.new.disk ≡ None }
        ensures started { OnOk result (IsStarted (D.told self.new.disk) self.new.gate (S.bodies self.new.shelf) self.new.shut) }
        ensures passes { OnOk result (OnFuse (Opens self.old.gate (body_piece body.now)) (D.fuse self.old.disk) (D.fuse self.new.disk)) }
        ensures stops { IfErr result (StopsForcing self.old.gate body.now (D.fuse self.old.disk) (D.fuse self.new.disk)) }
        ensures bytes { OnOk result ((file : List ℕ) → IsOn (D.told self.old.disk) file
            → IsOn (D.told self.new.disk) (forced_bytes self.old.gate body.now file)) }
        ensures front { LeavesFront self.old.gate (D.told self.old.disk) (D.told self.new.disk) }
    {
        let place = self.gate;
        self.shelf.put(place, body, item)?;
        let Ok(()) = tape::append(&mut self.disk, place, piece) else {
            self.shelf.forget();
            let faults = self.disk.faults();
            self.shut = Some(faults);
            return Err(ForceFault::DiskFault { faults });
        };
        self.gate = place + piece.len() as u64;
        Ok(place)
    }

    pub fn shelf(&self) -> &S
        ensures { result.now ≡ self.now.shelf }
    {
        &self.shelf
    }

    pub fn disk(&self) -> &D
        ensures { result.now ≡ self.now.disk }
    {
        &self.disk
    }

    /// The place of the closing gate.
    pub fn gate(&self) -> u64
        ensures is { result ≡ self.now.gate }
        ensures small { result < 2 ^ 63 }
    {
        self.gate
    }

    /// The count of faults that every further call answers with. Until there is one, the bytes stand for the bodies.
    pub fn shut(&self) -> Option<u64>
        ensures is { result ≡ self.now.shut }
        ensures started { IsStarted (D.told self.now.disk) self.now.gate (S.bodies self.now.shelf) result }
    {
        self.shut
    }

    /// The disk, which is let go of.
    pub fn into_disk(self) -> D
        ensures { result ≡ self.disk }
    {
        let Log {
            disk,
            shelf: _,
            gate: _,
            shut: _,
        } = self;
        disk
    }

    /// The disk, the shelf, the place of the closing gate, and the count of faults with which it is shut.
    pub fn into_parts(self) -> (D, S, u64, Option<u64>)
        ensures parts { self ≡ record { disk = result.0; shelf = result.1; gate = result.2; shut = result.3 } }
        ensures started { IsStarted (D.told result.0) result.2 (S.bodies result.1) result.3 }
    {
        let Log {
            disk,
            shelf,
            gate,
            shut,
        } = self;
        (disk, shelf, gate, shut)
    }

    /// The log of these parts.
    pub fn of_parts(disk: D, shelf: S, gate: u64, shut: Option<u64>) -> Log<D, S>
        requires { IsStarted (D.told disk) gate (S.bodies shelf) shut }
        ensures { result ≡ record { disk = disk; shelf = shelf; gate = gate; shut = shut } }
    {
        Log {
            disk,
            shelf,
            gate,
            shut,
        }
    }

    /// Reads the log of a disk onto an empty shelf. A change of generation that was cut short is ended.
    pub fn start(alloc: Global, disk: D, shelf: S) -> Result<Log<D, S>, (D, StartFault)>
        requires { S.bodies shelf ≡ [] }
        ensures started { IfOk result (λ log. Starts (D.told disk) (D.told log.disk) log.gate (S.bodies log.shelf) × (log.shut ≡ None)) }
        ensures passes { IfOk result (λ log. SyncsAlone (D.told disk) (D.fuse disk) (D.fuse log.disk)) }
        ensures kept { IfOk result (λ log. D.fault_count disk ≤ D.fault_count log.disk) }
        ensures refused { IfErr result (λ e. RefusesStart S.accepts (D.told disk) (D.told e.0) (D.fault_count disk) (D.fault_count e.0) e.1) }
    {
        let mut disk = disk;
        let mut shelf = shelf;
        match open(alloc, &mut disk, &mut shelf) {
            Ok(gate) => Ok(Log {
                disk,
                shelf,
                gate,
                shut: None,
            }),
            Err(fault) => Err((disk, fault)),
        }
    }

    /// Puts other bodies in the place of those that stand. The text is the new bodies after open gates, and a closed gate.
    pub fn replace(&mut self, alloc: Global, next: S, text: &[u8]) -> Result<(), CompactFault>
        requires text { IsTextOf (S.bodies next) text.now }
        requires fits { length text.now < 2 ^ 61 }
        ensures replaced { OnOk result (Replaces
            record { bodies = S.bodies self.old.shelf; gate = self.old.gate; shut = self.old.shut; faults = D.fault_count self.old.disk } (S.bodies next) (length text.now)
            record { bodies = S.bodies self.new.shelf; gate = self.new.gate; shut = self.new.shut; faults = D.fault_count self.new.disk }) }
        ensures refused { IfErr result (RefusesReplace
            record { bodies = S.bodies self.old.shelf; gate = self.old.gate; shut = self.old.shut; faults = D.fault_count self.old.disk }
            record { bodies = S.bodies self.new.shelf; gate = self.new.gate; shut = self.new.shut; faults = D.fault_count self.new.disk }) }
        ensures untouched { IfErr result (KeepsDiskInReplace self.old.disk self.new.disk) }
        // A crash at any moment of the call leaves the old bodies or the new.
        ensures moments { self.old.shut ≡ None → (s : Story) → D.told self.old.disk ≡ Some s
            → LeavesOnly (StandsForEither (S.bodies self.old.shelf) (S.bodies next)) (D.told self.old.disk) (D.told self.new.disk) }
        ensures bytes { OnOk result ((s : Story) → D.told self.old.disk ≡ Some s → IsOn (D.told self.new.disk) (head 1 ++ text.now)) }
    {
        if let Some(faults) = self.shut {
            return Err(CompactFault::Shut { faults });
        }
        let gate = self.gate;
        let zeros = zeros_before(gate, text.len());
        let padded = padded_text(alloc, zeros, text)?;
        let Ok(()) = tape::replace(&mut self.disk, gate, &padded, zeros) else {
            let faults = self.disk.faults();
            self.shut = Some(faults);
            return Err(CompactFault::DiskFault { faults });
        };
        self.shelf = next;
        self.gate = 4 + text.len() as u64;
        Ok(())
    }
}

// How many zeros stand before a new text after the closing gate, so that the text fits before its own place.
fn zeros_before(gate: u64, len: usize) -> usize
    requires gate { gate < 2 ^ 63 }
    requires len { len < 2 ^ 61 }
    ensures room { result + len ≤ gate + result + result - 4 }
    ensures least { result ≡ 4 + len - gate }
{
    let end = gate + 1;
    let need = 5 + len as u64;
    if need > end { (need - end) as usize } else { 0 }
}

fn padded_text(alloc: Global, zeros: usize, text: &[u8]) -> Result<Vec<u8>, AllocError>
    ensures whole { IfOk result (λ padded. drop zeros padded.items ≡ text.now) }
    ensures long { IfOk result (λ padded. length padded.items ≡ zeros + length text.now) }
{
    let mut padded = vec![in alloc; 0u8; zeros]?;
    padded.extend_from_slice(text)?;
    Ok(padded)
}
