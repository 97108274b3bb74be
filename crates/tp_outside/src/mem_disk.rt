//! A disk in memory, of up to 4 GiB less one byte. It keeps a record of its changing calls, from which its story follows,
//! and fails at listed calls and where there is no memory to grow, or no more than that fits.
ghost use Rattle.std.specs.Prelude.{◌≡◌, ◌≤◌, ◌⊎◌, ◌↔◌, [], IsTrue, IsOk, IfOk, OnOk, OnErr, Contains, Some, length, drop};
ghost use Rattle.tp_outside.specs.Faults.{HasRisen, one_more};
ghost use Rattle.tp_outside.specs.Disk.{HasLength, Reads, Writes, MayWrite, Resizes, MayResize, Syncs};

use crate::changes::{self, Changes};
use crate::{Disk, Failed, due};
use std::alloc::Global;
use tp_names::Octets;

/// What came of a changing call.
#[derive(Clone, Copy, Debug, PartialEq, Eq)]
pub enum Attempt {
    /// It was made.
    Done,
    /// It was listed to fail.
    Failed,
    /// There was no memory, and nothing has changed.
    Starved,
}

/// Bytes in memory as a disk.
#[derive(Drop)]
pub struct MemDisk {
    bytes: Vec<u8>,
    changes: Changes,
    fails: Vec<u8>,
    calls: u64,
    faults: u64,
    starved: u64,
    ghost unlisted: { fails.items ≡ [] → faults ≡ starved },
}

impl MemDisk {
    ghost use Rattle.tp_outside.specs.Story.{seen};
    ghost use Rattle.tp_outside.specs.MemDisk.{recorded, fresh, settled, outcome, counted, DiskWrites, DiskCuts, DiskSyncs};

    /// A disk with these contents, all of them on the disk, which fails where memory fails alone.
    pub fn from(alloc: Global, bytes: Octets) -> MemDisk
        ensures { recorded result ≡ fresh bytes [] }
    {
        MemDisk {
            bytes: bytes.into_vec(),
            changes: Changes::new(alloc),
            fails: Vec::new(alloc),
            calls: 0,
            faults: 0,
            starved: 0,
        }
    }

    /// One whose changing calls with the listed numbers, from 1, fail once each. A write or a cut that fails so is made,
    /// and a sync is not.
    pub fn failing(alloc: Global, bytes: Octets, calls: Octets) -> MemDisk
        ensures { recorded result ≡ fresh bytes calls }
    {
        MemDisk {
            bytes: bytes.into_vec(),
            changes: Changes::new(alloc),
            fails: calls.into_vec(),
            calls: 0,
            faults: 0,
            starved: 0,
        }
    }

    /// What reads give.
    pub fn bytes(&self) -> &[u8]
        ensures { result.now ≡ seen (recorded self.now).story }
    {
        &self.bytes
    }

    /// How many calls found no memory to grow. Where no call is listed to fail, no other call fails.
    pub fn starved(&self) -> u64
        ensures is { result ≡ (recorded self.now).starved }
        ensures alone { (recorded self.now).fails ≡ [] → (recorded self.now).faults ≡ result }
    {
        self.starved
    }

    pub(crate) fn allocator(&self) -> Global {
        *self.bytes.allocator()
    }

    /// The bytes themselves.
    pub(crate) fn into_bytes(self) -> Vec<u8>
        ensures { result.items ≡ seen (recorded self).story }
    {
        self.bytes
    }

    /// Takes what reads give as all on the disk.
    pub(crate) fn settle(&mut self)
        ensures { recorded self.new ≡ settled (recorded self.old) }
    {
        self.changes.clear();
    }

    /// A write, with what came of it.
    #[inline(always)]
    pub(crate) fn attempt_write(&mut self, at: u64, piece: &[u8]) -> Attempt
        ensures ends { DiskWrites at piece.now (recorded self.old) result (recorded self.new) }
        ensures kept { (recorded self.old).faults ≤ (recorded self.new).faults }
    {
        let due = self.is_next_due();
        let made = changes::write(&mut self.bytes, &mut self.changes, at, piece).is_ok();
        self.count(made, due)
    }

    /// A cut, with what came of it.
    pub(crate) fn attempt_cut(&mut self, len: u64) -> Attempt
        ensures ends { DiskCuts len (recorded self.old) result (recorded self.new) }
        ensures torn { MayResize len (Some (recorded self.old).story) (Some (recorded self.new).story) }
        ensures kept { (recorded self.old).faults ≤ (recorded self.new).faults }
    {
        let due = self.is_next_due();
        let made = changes::set_len(&mut self.bytes, &mut self.changes, len).is_ok();
        self.count(made, due)
    }

    /// A sync, with what came of it.
    #[inline(always)]
    pub(crate) fn attempt_sync(&mut self) -> Attempt
        ensures ends { DiskSyncs (recorded self.old) result (recorded self.new) }
        ensures kept { (recorded self.old).faults ≤ (recorded self.new).faults }
    {
        let due = self.is_next_due();
        let made = due || self.changes.sync().is_ok();
        self.count(made, due)
    }

    /// A changing call for which there was no memory elsewhere.
    pub(crate) fn starve(&mut self)
        ensures { recorded self.new ≡ counted Attempt.Starved (recorded self.old) }
    {
        let _starved = self.count(false, false);
    }

    // Is the next changing call listed to fail?
    fn is_next_due(&self) -> bool
        ensures { IsTrue result ↔ Contains (recorded self.now).fails (one_more (recorded self.now).calls) }
    {
        !self.fails.is_empty() && due::is_due(&self.fails, self.calls.saturating_add(1))
    }

    // Counts a call that found memory or did not, and that was due to fail or not.
    fn count(&mut self, made: bool, due: bool) -> Attempt
        requires { IsTrue due → Contains (recorded self.old).fails (one_more (recorded self.old).calls) }
        ensures counts { recorded self.new ≡ counted result (recorded self.old) }
        ensures came { result ≡ outcome made due }
        ensures kept { (recorded self.old).faults ≤ (recorded self.new).faults }
    {
        self.calls = self.calls.saturating_add(1);
        if !made {
            self.starved = self.starved.saturating_add(1);
            self.faults = self.faults.saturating_add(1);
            return Attempt::Starved;
        }
        if due {
            self.faults = self.faults.saturating_add(1);
            return Attempt::Failed;
        }
        Attempt::Done
    }
}

// What a caller is told.
fn told(came: Attempt) -> Result<(), Failed>
    ensures ok { OnOk result (came ≡ Attempt.Done) }
    ensures err { OnErr result ((came ≡ Attempt.Failed) ⊎ (came ≡ Attempt.Starved)) }
{
    match came {
        Attempt::Done => Ok(()),
        Attempt::Failed | Attempt::Starved => Err(Failed),
    }
}

impl Disk for MemDisk {
    ghost use Rattle.std.specs.Prelude.{None};
    ghost use Rattle.tp_outside.specs.MemDisk.{recorded, DiskWrites, DiskCuts, DiskSyncs};

    ghost told = { λ m. Some (recorded m).story };

    ghost fuse = { λ _. None };

    ghost fault_count = { λ m. (recorded m).faults };

    fn len(&mut self) -> Result<u64, Failed>
        ensures len { IfOk result (HasLength (Some (recorded self.old).story)) }
        ensures same { Some (recorded self.new).story ≡ Some (recorded self.old).story }
        ensures kept { (recorded self.old).faults ≤ (recorded self.new).faults }
        ensures risen { OnErr result (HasRisen (recorded self.old).faults (recorded self.new).faults) }

        ensures always { IsOk result }
        ensures unchanged { recorded self.new ≡ recorded self.old }
    {
        Ok(self.bytes.len() as u64)
    }

    fn read(&mut self, at: u64, buf: &mut [u8]) -> Result<usize, Failed>
        ensures fits { IfOk result (λ n. n ≤ length buf.old) }
        ensures bytes { IfOk result (Reads at (Some (recorded self.old).story) buf.new) }
        ensures rest { IfOk result (λ n. drop n buf.new ≡ drop n buf.old) }
        ensures same { Some (recorded self.new).story ≡ Some (recorded self.old).story }
        ensures kept { (recorded self.old).faults ≤ (recorded self.new).faults }
        ensures risen { OnErr result (HasRisen (recorded self.old).faults (recorded self.new).faults) }

        ensures always { IsOk result }
        ensures unchanged { recorded self.new ≡ recorded self.old }
    {
        let from = (at as usize).min(self.bytes.len());
        let n = buf.len().min(self.bytes.len() - from);
        buf[..n].copy_from_slice(&self.bytes[from..from + n]);
        Ok(n)
    }

    fn write_at(&mut self, at: u64, piece: &[u8]) -> Result<(), Failed>
        ensures written { OnOk result (Writes at piece.now (Some (recorded self.old).story) (Some (recorded self.new).story)) }
        ensures torn { OnErr result (MayWrite at (length piece.now) (Some (recorded self.old).story) (Some (recorded self.new).story)) }
        ensures kept { (recorded self.old).faults ≤ (recorded self.new).faults }
        ensures risen { OnErr result (HasRisen (recorded self.old).faults (recorded self.new).faults) }

        ensures done { OnOk result (DiskWrites at piece.now (recorded self.old) Attempt.Done (recorded self.new)) }
        ensures failed { OnErr result (DiskWrites at piece.now (recorded self.old) Attempt.Failed (recorded self.new)
            ⊎ DiskWrites at piece.now (recorded self.old) Attempt.Starved (recorded self.new)) }
    {
        told(self.attempt_write(at, piece))
    }

    fn cut(&mut self, len: u64) -> Result<(), Failed>
        ensures resized { OnOk result (Resizes len (Some (recorded self.old).story) (Some (recorded self.new).story)) }
        ensures torn { OnErr result (MayResize len (Some (recorded self.old).story) (Some (recorded self.new).story)) }
        ensures kept { (recorded self.old).faults ≤ (recorded self.new).faults }
        ensures risen { OnErr result (HasRisen (recorded self.old).faults (recorded self.new).faults) }

        ensures done { OnOk result (DiskCuts len (recorded self.old) Attempt.Done (recorded self.new)) }
        ensures failed { OnErr result (DiskCuts len (recorded self.old) Attempt.Failed (recorded self.new)
            ⊎ DiskCuts len (recorded self.old) Attempt.Starved (recorded self.new)) }
    {
        told(self.attempt_cut(len))
    }

    fn sync(&mut self) -> Result<(), Failed>
        ensures synced { OnOk result (Syncs (Some (recorded self.old).story) (Some (recorded self.new).story)) }
        ensures same { OnErr result (Some (recorded self.new).story ≡ Some (recorded self.old).story) }
        ensures kept { (recorded self.old).faults ≤ (recorded self.new).faults }
        ensures risen { OnErr result (HasRisen (recorded self.old).faults (recorded self.new).faults) }

        ensures done { OnOk result (DiskSyncs (recorded self.old) Attempt.Done (recorded self.new)) }
        ensures failed { OnErr result (DiskSyncs (recorded self.old) Attempt.Failed (recorded self.new)
            ⊎ DiskSyncs (recorded self.old) Attempt.Starved (recorded self.new)) }
    {
        told(self.attempt_sync())
    }

    fn faults(&self) -> u64 {
        self.faults
    }
}
