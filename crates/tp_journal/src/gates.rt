//! A log of bodies of any bytes: the log as it is below its records.
ghost use Rattle.std.specs.Prelude.{◌≡◌, ◌+◌, ◌≤◌, ◌<◌, ◌++◌, ◌∷◌, [], ℕ, List, length, Some, None, true, false, IsTrue, ◌↔◌, IfOk, OnOk, OnErr, IfErr, slice_index_or};
ghost use Rattle.tp_outside.specs.Faults.{HasRisen};
ghost use Rattle.tp_outside.specs.Story.{Story};
ghost use Rattle.tp_journal.specs.Log.{IsBody, head, most_bytes, StandsForEither};
ghost use Rattle.tp_journal.specs.Start.{Starts, RefusesStart, SyncsAlone};
ghost use Rattle.tp_journal.specs.Started.{IsStarted, Appends, RefusesAppend, KeepsDisk};
ghost use Rattle.tp_journal.specs.Gates.{any_body, face};
ghost use Rattle.tp_journal.specs.Told.{IsOn, LeavesOnly};

use crate::log::Log;
use crate::shelf::Shelf;
use crate::{ForceFault, MOST_BYTES, StartFault, tape};
use std::alloc::{AllocError, Global};
use std::marker::Model;
use tp_names::Octets;
use tp_outside::{Disk, Failed};

/// Bodies in memory, in the order in which they stand.
#[derive(Drop)]
pub struct Bodies {
    items: Vec<Octets>,
}

impl Shelf for Bodies {
    ghost use Rattle.tp_journal.specs.Gates.{any_body, says_itself};

    ghost accepts = { any_body };

    type Item = ();

    ghost says = { says_itself };

    ghost bodies = { λ b. b.items.items };

    fn take(&mut self, _place: u64, body: &[u8]) -> Result<bool, AllocError> {
        let alloc = *self.items.allocator();
        let copy = body.to_vec(alloc)?;
        self.items.push(Octets::from_vec(copy))?;
        Ok(true)
    }

    fn put(&mut self, _place: u64, body: &[u8], _item: &()) -> Result<(), AllocError> {
        let alloc = *self.items.allocator();
        let copy = body.to_vec(alloc)?;
        self.items.push(Octets::from_vec(copy))?;
        Ok(())
    }

    fn forget(&mut self) {
        let _ = self.items.pop();
    }
}

/// A started log of bodies.
#[derive(Drop)]
pub struct Gates<D: Disk> {
    log: Log<D, Bodies>,
}

impl<D: Disk> Model for Gates<D> {
    ghost use Rattle.tp_journal.specs.Gates.{Gated};

    ghost Value = { Gated D };

    ghost view = { λ g. record { disk = g.log.disk; bodies = g.log.shelf.items.items; gate = g.log.gate; shut = g.log.shut } };
}

// A log of no bodies: four letters, the selector, and a closed gate.
const EMPTY: [u8; 6] = [79, 84, 80, 76, 1, 0];

impl<D: Disk> Gates<D> {
    /// Makes the disk hold a log of no bodies alone, whatever it held.
    pub fn format(disk: &mut D) -> Result<(), Failed>
        // Promise 3.15, part 4
        ensures formatted { OnOk result ((s : Story) → D.told disk.old ≡ Some s → IsOn (D.told disk.new) (head 1 ++ 0 ∷ [])) }
        ensures untold { D.told disk.old ≡ None → D.told disk.new ≡ None }
        ensures kept { D.fault_count disk.old ≤ D.fault_count disk.new }
        ensures risen { OnErr result (HasRisen (D.fault_count disk.old) (D.fault_count disk.new)) }
    {
        tape::overwrite(disk, &EMPTY)
    }

    // Promise 3.11, part 2
    /// Reads the bodies of a log, and ends a change of generation that was cut short.
    pub fn start(alloc: Global, disk: D) -> Result<Gates<D>, (D, StartFault)>
        ensures started { IfOk result (λ gates. gates.shut ≡ None) }
        ensures bodies { IfOk result (λ gates. Starts (D.told disk) (D.told gates.disk) gates.gate gates.bodies) }
        // Promise 3.12, part 2
        ensures passes { IfOk result (λ gates. SyncsAlone (D.told disk) (D.fuse disk) (D.fuse gates.disk)) }
        ensures refused { IfErr result (λ e. RefusesStart any_body (D.told disk) (D.told e.0) (D.fault_count disk) (D.fault_count e.0) e.1) }
    {
        let bodies = Bodies {
            items: Vec::new(alloc),
        };
        let log = Log::start(alloc, disk, bodies)?;
        Ok(Gates { log })
    }

    // Promise 3.4, part 4
    pub fn append(&mut self, alloc: Global, body: &[u8]) -> Result<u64, ForceFault>
        requires { IsBody body.now }
        ensures appended { IfOk result
            (λ place. Appends (face self.old (D.fault_count self.old.disk)) body.now place (face self.new (D.fault_count self.new.disk))) }
        ensures refused { IfErr result (RefusesAppend (face self.old (D.fault_count self.old.disk)) body.now (face self.new (D.fault_count self.new.disk))) }
        ensures untouched { IfErr result (KeepsDisk self.old.disk self.new.disk) }
        ensures moments { self.old.shut ≡ None → (s : Story) → D.told self.old.disk ≡ Some s
            → LeavesOnly (StandsForEither self.old.bodies (self.old.bodies ++ body.now ∷ [])) (D.told self.old.disk) (D.told self.new.disk) }
    {
        self.log.append(alloc, body, &())
    }

    /// How many bodies there are. Until a call of the disk fails, its bytes stand for them.
    pub fn count(&self) -> usize
        ensures is { result ≡ length self.now.bodies }
        // Promise 3.4, part 5
        ensures started { IsStarted (D.told self.now.disk) self.now.gate self.now.bodies self.now.shut }
    {
        let _shut = self.log.shut();
        self.log.shelf().items.len()
    }

    pub fn body(&self, i: usize) -> &[u8]
        requires { i < length self.now.bodies }
        ensures { result.now ≡ slice_index_or self.now.bodies i [] }
    {
        self.log.shelf().items[i].as_slice()
    }

    /// Could a body of so many bytes be added without the answer that the log is full?
    pub fn fits(&self, bytes: u64) -> bool
        requires { bytes < 65536 }
        ensures { IsTrue result ↔ (self.now.gate + 4 + bytes ≤ most_bytes) }
    {
        self.log.gate() + 4 + bytes <= MOST_BYTES
    }

    pub fn faults(&self) -> u64
        ensures { result ≡ D.fault_count self.now.disk }
    {
        self.log.disk().faults()
    }

    /// The disk, which is let go of.
    pub fn disk(self) -> D
        ensures { result ≡ self.disk }
    {
        let Gates { log } = self;
        log.into_disk()
    }
}
