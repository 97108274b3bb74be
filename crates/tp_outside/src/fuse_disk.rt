//! A machine that stops at a changing call of its disk, for tests of what is on the disk then.
ghost use Rattle.std.specs.Prelude.{◌≡◌, ◌≤◌, ◌==◌, [], false, true, ◌≢◌, ◌⊎◌, IfOk, OnOk, OnErr, Some, length, drop};
ghost use Rattle.tp_outside.specs.Faults.{HasRisen};
ghost use Rattle.tp_outside.specs.Fill.{filled, filled_range, filled_end, prepared};
ghost use Rattle.tp_outside.specs.Story.{seen};
ghost use Rattle.tp_outside.specs.Disk.{HasLength, Reads, Writes, MayWrite, Resizes, MayResize, Syncs};
ghost use Rattle.tp_outside.specs.MemDisk.{recorded, fresh, settled, counted, DiskWrites, DiskCuts, DiskSyncs};

use crate::mem_disk::Attempt;
use crate::{Disk, Failed, MemDisk};
use std::alloc::{AllocError, Global};
use tp_names::Octets;

/// Passes changing calls on to a disk in memory, up to the one with a given number, from 1. That one is made, unless it
/// is a sync, and yet fails, and so do all calls from then on. What a crash is to leave is prepared with each call, so
/// that it can be handed out with no memory.
#[derive(Drop)]
pub struct FuseDisk {
    inner: MemDisk,
    fill: u8,
    last: u64,
    calls: u64,
    stopped: bool,
    refused: u64,
    /// The bytes as a crash leaves them, where anything was written since the last sync.
    loose: Option<Vec<u8>>,
    ghost ready: { prepared loose (seen (recorded inner).story) ≡ filled fill (recorded inner).story },
}

fn fill_range(
    alloc: Global,
    file: &[u8],
    at: u64,
    n: usize,
    fill: u8,
) -> Result<Vec<u8>, AllocError>
    ensures { IfOk result (λ v. v.items ≡ filled_range fill at n file.now) }
{
    let from = (at as usize).min(file.len());
    let end = (at as usize).checked_add(n).ok_or(AllocError)?;
    let mut next = file[..from].to_vec(alloc)?;
    next.resize(end, fill)?;
    if end < file.len() {
        next.extend_from_slice(&file[end..])?;
    }
    Ok(next)
}

fn fill_end(alloc: Global, file: &[u8], len: u64, fill: u8) -> Result<Vec<u8>, AllocError>
    ensures { IfOk result (λ v. v.items ≡ filled_end fill len file.now) }
{
    let mut next = file.to_vec(alloc)?;
    next.resize(len as usize, fill)?;
    Ok(next)
}

impl FuseDisk {
    ghost use Rattle.tp_outside.specs.FuseDisk.{fused, refuse, step, fault_count_of};

    /// A machine that stops at the changing call with the number `k`. What reads give of the disk handed in counts as
    /// all on the disk.
    pub fn new(inner: MemDisk, k: u64, fill: u8) -> FuseDisk
        ensures { fused result ≡ record { disk = settled (recorded inner); last = k; fill = fill; calls = 0; stopped = false; refused = 0 } }
    {
        let mut inner = inner;
        inner.settle();
        FuseDisk {
            inner,
            fill,
            last: k,
            calls: 0,
            stopped: false,
            refused: 0,
            loose: None,
        }
    }

    /// Has the call to stop in come?
    pub fn stopped(&self) -> bool
        ensures { result ≡ (fused self.now).stopped }
    {
        self.stopped
    }

    // Promise 3.3: A disk that stops at one call leaves one of these images
    /// The disk after a crash now, which leaves the fill in each range that was written since the last sync.
    pub fn image(self) -> MemDisk
        ensures { recorded result ≡ fresh (filled (fused self).fill (fused self).disk.story) [] }
    {
        let alloc = self.inner.allocator();
        let loose = self.loose;
        let inner = self.inner;
        match loose {
            Some(bytes) => MemDisk::from(alloc, Octets::from_vec(bytes)),
            None => MemDisk::from(alloc, Octets::from_vec(inner.into_bytes())),
        }
    }

    // What a crash leaves now.
    fn left(&self) -> &[u8]
        ensures { result.now ≡ filled (fused self.now).fill (fused self.now).disk.story }
    {
        match &self.loose {
            Some(bytes) => bytes.as_slice(),
            None => self.inner.bytes(),
        }
    }

    // A call that the stop refuses.
    fn refuse(&mut self) -> Failed
        ensures { fused self.new ≡ refuse (fused self.old) }
    {
        self.refused = self.refused.saturating_add(1);
        Failed
    }

    // One more changing call, of which this came below.
    fn end(&mut self, came: Attempt) -> Result<(), Failed>
        requires { came ≢ Attempt.Starved }
        ensures ok { OnOk result ((fused self.new ≡ step (fused self.old) (fused self.old).disk) × (came ≡ Attempt.Done) × ((fused self.new).stopped ≡ false)) }
        ensures err { OnErr result (((fused self.new).stopped ≡ true) × (fused self.new ≡ refuse (step (fused self.old) (fused self.old).disk))
            ⊎ ((fused self.new).stopped ≡ false) × (fused self.new ≡ step (fused self.old) (fused self.old).disk) × (came ≡ Attempt.Failed)) }
    {
        self.calls = self.calls.saturating_add(1);
        self.stopped = self.calls == self.last;
        if self.stopped {
            return Err(self.refuse());
        }
        if came == Attempt::Failed {
            return Err(Failed);
        }
        Ok(())
    }
}

impl Disk for FuseDisk {
    ghost use Rattle.tp_outside.specs.FuseDisk.{fused, refuse, fault_count_of, Passes, FuseFails, IsMade, OnFuse};

    ghost told = { λ f. Some (fused f).disk.story };

    ghost fuse = { λ f. Some (fused f) };

    ghost fault_count = { λ f. fault_count_of (fused f) };

    fn len(&mut self) -> Result<u64, Failed>
        ensures len { IfOk result (HasLength (Some (fused self.old).disk.story)) }
        ensures same { Some (fused self.new).disk.story ≡ Some (fused self.old).disk.story }
        ensures kept { fault_count_of (fused self.old) ≤ fault_count_of (fused self.new) }
        ensures risen { OnErr result (HasRisen (fault_count_of (fused self.old)) (fault_count_of (fused self.new))) }

        ensures passes { OnOk result (Some (fused self.new) ≡ Some (fused self.old)) }
        ensures running { OnOk result ((fused self.old).stopped ≡ false) }
        ensures refused { OnErr result (((fused self.old).stopped ≡ true) × (fused self.new ≡ refuse (fused self.old))) }
    {
        if self.stopped {
            return Err(self.refuse());
        }
        self.inner.len()
    }

    fn read(&mut self, at: u64, buf: &mut [u8]) -> Result<usize, Failed>
        ensures fits { IfOk result (λ n. n ≤ length buf.old) }
        ensures bytes { IfOk result (Reads at (Some (fused self.old).disk.story) buf.new) }
        ensures rest { IfOk result (λ n. drop n buf.new ≡ drop n buf.old) }
        ensures same { Some (fused self.new).disk.story ≡ Some (fused self.old).disk.story }
        ensures kept { fault_count_of (fused self.old) ≤ fault_count_of (fused self.new) }
        ensures risen { OnErr result (HasRisen (fault_count_of (fused self.old)) (fault_count_of (fused self.new))) }

        ensures passes { OnOk result (Some (fused self.new) ≡ Some (fused self.old)) }
        ensures running { OnOk result ((fused self.old).stopped ≡ false) }
        ensures refused { OnErr result (((fused self.old).stopped ≡ true) × (fused self.new ≡ refuse (fused self.old))) }
    {
        if self.stopped {
            return Err(self.refuse());
        }
        self.inner.read(at, buf)
    }

    fn write_at(&mut self, at: u64, piece: &[u8]) -> Result<(), Failed>
        ensures written { OnOk result (Writes at piece.now (Some (fused self.old).disk.story) (Some (fused self.new).disk.story)) }
        ensures torn { OnErr result (MayWrite at (length piece.now) (Some (fused self.old).disk.story) (Some (fused self.new).disk.story)) }
        ensures kept { fault_count_of (fused self.old) ≤ fault_count_of (fused self.new) }
        ensures risen { OnErr result (HasRisen (fault_count_of (fused self.old)) (fault_count_of (fused self.new))) }

        ensures passes { OnOk result (OnFuse (Passes (DiskWrites at piece.now)) (Some (fused self.old)) (Some (fused self.new))) }
        ensures stops { OnErr result (OnFuse (FuseFails (DiskWrites at piece.now) (IsMade (DiskWrites at piece.now)))
            (Some (fused self.old)) (Some (fused self.new))) }
    {
        if self.stopped {
            return Err(self.refuse());
        }
        let alloc = self.inner.allocator();
        let Ok(next) = fill_range(alloc, self.left(), at, piece.len(), self.fill) else {
            self.inner.starve();
            return Err(Failed);
        };
        let came = self.inner.attempt_write(at, piece);
        if came == Attempt::Starved {
            return Err(Failed);
        }
        self.loose = Some(next);
        self.end(came)
    }

    fn cut(&mut self, len: u64) -> Result<(), Failed>
        ensures resized { OnOk result (Resizes len (Some (fused self.old).disk.story) (Some (fused self.new).disk.story)) }
        ensures torn { OnErr result (MayResize len (Some (fused self.old).disk.story) (Some (fused self.new).disk.story)) }
        ensures kept { fault_count_of (fused self.old) ≤ fault_count_of (fused self.new) }
        ensures risen { OnErr result (HasRisen (fault_count_of (fused self.old)) (fault_count_of (fused self.new))) }

        ensures passes { OnOk result (OnFuse (Passes (DiskCuts len)) (Some (fused self.old)) (Some (fused self.new))) }
        ensures stops { OnErr result (OnFuse (FuseFails (DiskCuts len) (IsMade (DiskCuts len))) (Some (fused self.old)) (Some (fused self.new))) }
    {
        if self.stopped {
            return Err(self.refuse());
        }
        let alloc = self.inner.allocator();
        let Ok(next) = fill_end(alloc, self.left(), len, self.fill) else {
            self.inner.starve();
            return Err(Failed);
        };
        let came = self.inner.attempt_cut(len);
        if came == Attempt::Starved {
            return Err(Failed);
        }
        self.loose = Some(next);
        self.end(came)
    }

    fn sync(&mut self) -> Result<(), Failed>
        ensures synced { OnOk result (Syncs (Some (fused self.old).disk.story) (Some (fused self.new).disk.story)) }
        ensures same { OnErr result (Some (fused self.new).disk.story ≡ Some (fused self.old).disk.story) }
        ensures kept { fault_count_of (fused self.old) ≤ fault_count_of (fused self.new) }
        ensures risen { OnErr result (HasRisen (fault_count_of (fused self.old)) (fault_count_of (fused self.new))) }

        ensures passes { OnOk result (OnFuse (Passes DiskSyncs) (Some (fused self.old)) (Some (fused self.new))) }
        ensures stops { OnErr result (OnFuse (FuseFails DiskSyncs (λ old new. new ≡ old)) (Some (fused self.old)) (Some (fused self.new))) }
    {
        if self.stopped {
            return Err(self.refuse());
        }
        if self.calls.saturating_add(1) == self.last {
            self.calls = self.last;
            self.stopped = true;
            return Err(self.refuse());
        }
        let came = self.inner.attempt_sync();
        if came == Attempt::Starved {
            return Err(Failed);
        }
        if came == Attempt::Done {
            self.loose = None;
        }
        self.end(came)
    }

    fn faults(&self) -> u64 {
        self.inner.faults().saturating_add(self.refused)
    }
}
