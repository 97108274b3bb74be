//! A disk. What its calls do is said of the story that it tells, where it tells one; no clause says that it does.

use crate::Failed;

// Promise 3.1, part 3
// Promise 3.2: What a crash may leave of a disk is told by its story alone: its first content, and
//   its changes since, each with what reads gave after it
pub trait Disk {
    ghost use Rattle.std.specs.Prelude.{ℕ, Option, ◌≡◌, ◌≤◌, length, drop, IfOk, OnOk, OnErr};
    ghost use Rattle.tp_outside.specs.Faults.{HasRisen};
    ghost use Rattle.tp_outside.specs.Story.{Story};
    ghost use Rattle.tp_outside.specs.Disk.{HasLength, Reads, Writes, MayWrite, Resizes, MayResize, Syncs};
    ghost use Rattle.tp_outside.specs.MemDisk.{DiskWrites, DiskCuts, DiskSyncs};
    ghost use Rattle.tp_outside.specs.FuseDisk.{Fused, Passes, FuseFails, IsMade, OnFuse};

    /// What it has been through, where it tells that: what reads give, and what a crash would have left at each moment.
    ghost told: { Self → Option Story };

    /// The fuse that stops it at one of its changing calls, where it has one and tells it.
    ghost fuse: { Self → Option Fused };

    /// How many calls have failed, up to the greatest `u64`.
    ghost fault_count: { Self → ℕ };

    fn len(&mut self) -> Result<u64, Failed>
        ensures len { IfOk result (HasLength (told self.old)) }
        ensures same { told self.new ≡ told self.old }
        ensures passes { OnOk result (fuse self.new ≡ fuse self.old) }
        ensures kept { fault_count self.old ≤ fault_count self.new }
        ensures risen { OnErr result (HasRisen (fault_count self.old) (fault_count self.new)) };

    /// Reads from a place on, as many bytes as fit into the buffer and stand before the end, and answers how many.
    fn read(&mut self, at: u64, buf: &mut [u8]) -> Result<usize, Failed>
        ensures fits { IfOk result (λ n. n ≤ length buf.old) }
        ensures bytes { IfOk result (Reads at (told self.old) buf.new) }
        ensures rest { IfOk result (λ n. drop n buf.new ≡ drop n buf.old) }
        ensures same { told self.new ≡ told self.old }
        ensures passes { OnOk result (fuse self.new ≡ fuse self.old) }
        ensures kept { fault_count self.old ≤ fault_count self.new }
        ensures risen { OnErr result (HasRisen (fault_count self.old) (fault_count self.new)) };

    /// Writes over what is there, and past the end. Until a sync a crash may leave any bytes in the range.
    fn write_at(&mut self, at: u64, piece: &[u8]) -> Result<(), Failed>
        ensures written { OnOk result (Writes at piece.now (told self.old) (told self.new)) }
        ensures torn { OnErr result (MayWrite at (length piece.now) (told self.old) (told self.new)) }
        ensures passes { OnOk result (OnFuse (Passes (DiskWrites at piece.now)) (fuse self.old) (fuse self.new)) }
        ensures stops { OnErr result (OnFuse (FuseFails (DiskWrites at piece.now) (IsMade (DiskWrites at piece.now))) (fuse self.old) (fuse self.new)) }
        ensures kept { fault_count self.old ≤ fault_count self.new }
        ensures risen { OnErr result (HasRisen (fault_count self.old) (fault_count self.new)) };

    /// Sets the length.
    fn cut(&mut self, len: u64) -> Result<(), Failed>
        ensures resized { OnOk result (Resizes len (told self.old) (told self.new)) }
        ensures torn { OnErr result (MayResize len (told self.old) (told self.new)) }
        ensures passes { OnOk result (OnFuse (Passes (DiskCuts len)) (fuse self.old) (fuse self.new)) }
        ensures stops { OnErr result (OnFuse (FuseFails (DiskCuts len) (IsMade (DiskCuts len))) (fuse self.old) (fuse self.new)) }
        ensures kept { fault_count self.old ≤ fault_count self.new }
        ensures risen { OnErr result (HasRisen (fault_count self.old) (fault_count self.new)) };

    /// After it a crash leaves what a read gives. One that fails counts as not made.
    fn sync(&mut self) -> Result<(), Failed>
        ensures synced { OnOk result (Syncs (told self.old) (told self.new)) }
        ensures same { OnErr result (told self.new ≡ told self.old) }
        ensures passes { OnOk result (OnFuse (Passes DiskSyncs) (fuse self.old) (fuse self.new)) }
        ensures stops { OnErr result (OnFuse (FuseFails DiskSyncs (λ old new. new ≡ old)) (fuse self.old) (fuse self.new)) }
        ensures kept { fault_count self.old ≤ fault_count self.new }
        ensures risen { OnErr result (HasRisen (fault_count self.old) (fault_count self.new)) };

    fn faults(&self) -> u64
        ensures { result ≡ fault_count self.now };
}
