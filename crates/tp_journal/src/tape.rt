//! The moves on the bytes of a log, each a few calls of the disk. It keeps nothing: where the closing gate stands, and
//! which bodies stand before it, its callers know.
ghost use Rattle.std.specs.Prelude.{◌≡◌, ◌+◌, ◌-◌, ◌≤◌, ◌<◌, ◌^◌, ◌++◌, ◌∷◌, [], ℕ, List, length, drop, Some, None, OnOk, OnErr};
ghost use Rattle.std.specs.List.{AllByRecursion};
ghost use Rattle.tp_outside.specs.Faults.{HasRisen};
ghost use Rattle.tp_outside.specs.Story.{Story, Torn, Clipped};
ghost use Rattle.tp_journal.specs.Log.{IsBody, blocks, head, StandsBehind, StandsFor, StandsForEither};
ghost use Rattle.tp_outside.specs.FuseDisk.{OnFuse};
ghost use Rattle.tp_journal.specs.Stops.{Stores, StopsStoring, with_gate, Opens, StopsOpening};
ghost use Rattle.tp_journal.specs.Told.{IsOn, LeavesOnly, LeavesFront, HasStored, HasResized, RestsAt, IsTextOf, IsStaged};

use tp_outside::{Disk, Failed};

// Writes a piece and waits until it is on the disk.
#[inline(always)]
fn store<D: Disk>(disk: &mut D, at: u64, piece: &[u8]) -> Result<(), Failed>
    ensures moments { (file : List ℕ) → IsOn (D.told disk.old) file → LeavesOnly (Torn at (length piece.now) file) (D.told disk.old) (D.told disk.new) }
    ensures stored { OnOk result ((file : List ℕ) → IsOn (D.told disk.old) file → HasStored at piece.now file (D.told disk.new)) }
    ensures untold { D.told disk.old ≡ None → D.told disk.new ≡ None }
    ensures passes { OnOk result (OnFuse (Stores at piece.now) (D.fuse disk.old) (D.fuse disk.new)) }
    ensures stops { OnErr result (OnFuse (StopsStoring at piece.now) (D.fuse disk.old) (D.fuse disk.new)) }
    ensures kept { D.fault_count disk.old ≤ D.fault_count disk.new }
    ensures risen { OnErr result (HasRisen (D.fault_count disk.old) (D.fault_count disk.new)) }
{
    disk.write_at(at, piece)?;
    disk.sync()?;
    Ok(())
}

// Sets the length and waits until that is on the disk.
fn shorten<D: Disk>(disk: &mut D, len: u64) -> Result<(), Failed>
    ensures moments { (file : List ℕ) → IsOn (D.told disk.old) file → LeavesOnly (Clipped len file) (D.told disk.old) (D.told disk.new) }
    ensures resized { OnOk result ((file : List ℕ) → IsOn (D.told disk.old) file → HasResized len file (D.told disk.new)) }
    ensures untold { D.told disk.old ≡ None → D.told disk.new ≡ None }
    ensures kept { D.fault_count disk.old ≤ D.fault_count disk.new }
    ensures risen { OnErr result (HasRisen (D.fault_count disk.old) (D.fault_count disk.new)) }
{
    disk.cut(len)?;
    disk.sync()?;
    Ok(())
}

/// Adds bodies after the closing gate: the bodies and the next closing gate, and then the gate itself. Until that one is
/// written nothing after it is read, so a crash leaves none of the bodies or all of them.
/// The piece is their blocks, but for the first gate, and a closed gate.
pub fn append<D: Disk>(disk: &mut D, gate: u64, piece: &[u8]) -> Result<(), Failed>
    requires { gate + 1 < 2 ^ 64 }
    ensures moments { (bodies more : List (List ℕ)) → RestsAt (D.told disk.old) gate bodies → AllByRecursion IsBody more → 1 ∷ piece.now ≡ blocks more ++ 0 ∷ []
        → LeavesOnly (StandsForEither bodies (bodies ++ more)) (D.told disk.old) (D.told disk.new) }
    ensures rests { OnOk result ((bodies more : List (List ℕ)) → RestsAt (D.told disk.old) gate bodies → AllByRecursion IsBody more
        → 1 ∷ piece.now ≡ blocks more ++ 0 ∷ []
        → RestsAt (D.told disk.new) (gate + length piece.now) (bodies ++ more)) }
    ensures bytes { OnOk result ((file : List ℕ) → IsOn (D.told disk.old) file → gate < length file
        → IsOn (D.told disk.new) (with_gate gate piece.now file)) }
    // What was before the closing gate stays as it was, at each moment.
    ensures front { LeavesFront gate (D.told disk.old) (D.told disk.new) }
    ensures untold { D.told disk.old ≡ None → D.told disk.new ≡ None }
    ensures passes { OnOk result (OnFuse (Opens gate piece.now) (D.fuse disk.old) (D.fuse disk.new)) }
    ensures stops { OnErr result (OnFuse (StopsOpening gate piece.now) (D.fuse disk.old) (D.fuse disk.new)) }
    ensures kept { D.fault_count disk.old ≤ D.fault_count disk.new }
    ensures risen { OnErr result (HasRisen (D.fault_count disk.old) (D.fault_count disk.new)) }
{
    store(disk, gate + 1, piece)?;
    store(disk, gate, &[1])?;
    Ok(())
}

/// Writes bytes after the closing gate, where nothing is read.
pub fn widen<D: Disk>(disk: &mut D, gate: u64, bytes: &[u8]) -> Result<(), Failed>
    requires { gate + 1 < 2 ^ 64 }
    ensures front { LeavesFront (gate + 1) (D.told disk.old) (D.told disk.new) }
    ensures on { OnOk result ((file : List ℕ) → IsOn (D.told disk.old) file → HasStored (gate + 1) bytes.now file (D.told disk.new)) }
    ensures untold { D.told disk.old ≡ None → D.told disk.new ≡ None }
    ensures kept { D.fault_count disk.old ≤ D.fault_count disk.new }
    ensures risen { OnErr result (HasRisen (D.fault_count disk.old) (D.fault_count disk.new)) }
{
    store(disk, gate + 1, bytes)
}

/// Cuts off what is after the closing gate.
pub fn trim<D: Disk>(disk: &mut D, gate: u64) -> Result<(), Failed>
    requires { gate + 1 < 2 ^ 64 }
    ensures front { LeavesFront (gate + 1) (D.told disk.old) (D.told disk.new) }
    ensures on { OnOk result ((file : List ℕ) → IsOn (D.told disk.old) file → HasResized (gate + 1) file (D.told disk.new)) }
    ensures untold { D.told disk.old ≡ None → D.told disk.new ≡ None }
    ensures kept { D.fault_count disk.old ≤ D.fault_count disk.new }
    ensures risen { OnErr result (HasRisen (D.fault_count disk.old) (D.fault_count disk.new)) }
{
    shorten(disk, gate + 1)
}

/// Ends a change of generation: bodies that stand further back are written to the front too, the selector turns to
/// these, and what stands after them is cut off. The text is the bodies after open gates and a closed gate.
pub fn finish<D: Disk>(disk: &mut D, text: &[u8]) -> Result<(), Failed>
    requires { 5 + length text.now < 2 ^ 64 }
    ensures moments { (bodies : List (List ℕ)) (file : List ℕ) → IsOn (D.told disk.old) file → StandsBehind file bodies → IsTextOf bodies text.now
        → LeavesOnly (λ c. StandsFor c bodies) (D.told disk.old) (D.told disk.new) }
    ensures rests { OnOk result ((bodies : List (List ℕ)) (file : List ℕ) → IsOn (D.told disk.old) file → StandsBehind file bodies → IsTextOf bodies text.now
        → RestsAt (D.told disk.new) (4 + length text.now) bodies) }
    ensures bytes { OnOk result ((bodies : List (List ℕ)) (file : List ℕ) → IsOn (D.told disk.old) file → StandsBehind file bodies → IsTextOf bodies text.now
        → IsOn (D.told disk.new) (head 1 ++ text.now)) }
    ensures untold { D.told disk.old ≡ None → D.told disk.new ≡ None }
    ensures kept { D.fault_count disk.old ≤ D.fault_count disk.new }
    ensures risen { OnErr result (HasRisen (D.fault_count disk.old) (D.fault_count disk.new)) }
{
    store(disk, 5, text)?;
    store(disk, 4, &[1])?;
    shorten(disk, 5 + text.len() as u64)?;
    Ok(())
}

// Puts bytes and a place after the closing gate, which ends at `end`. The log stays what it is.
fn stage<D: Disk>(disk: &mut D, end: u64, behind: &[u8], place: u64) -> Result<(), Failed>
    requires { end + length behind.now < 2 ^ 64 }
    ensures moments { (bodies : List (List ℕ)) (gate : ℕ) → end ≡ gate + 1 → RestsAt (D.told disk.old) gate bodies
        → LeavesOnly (λ c. StandsFor c bodies) (D.told disk.old) (D.told disk.new) }
    ensures staged { OnOk result ((bodies : List (List ℕ)) (gate : ℕ) → end ≡ gate + 1 → RestsAt (D.told disk.old) gate bodies
        → IsStaged (D.told disk.new) bodies behind.now place) }
    ensures untold { D.told disk.old ≡ None → D.told disk.new ≡ None }
    ensures kept { D.fault_count disk.old ≤ D.fault_count disk.new }
    ensures risen { OnErr result (HasRisen (D.fault_count disk.old) (D.fault_count disk.new)) }
{
    disk.cut(end)?;
    disk.write_at(end, behind)?;
    disk.write_at(end + behind.len() as u64, &place.to_be_bytes())?;
    disk.sync()?;
    Ok(())
}

/// Changes the generation: the log stands for other bodies afterwards, and at each moment for the old or for the new.
/// What is written after the closing gate is so many zeros, that the new text fits before it, and the new text.
pub fn replace<D: Disk>(disk: &mut D, gate: u64, padded: &[u8], zeros: usize) -> Result<(), Failed>
    requires zeros { zeros ≤ length padded.now }
    requires fits { gate + 14 + length padded.now < 2 ^ 64 }
    ensures moments { (before after : List (List ℕ)) → RestsAt (D.told disk.old) gate before → IsTextOf after (drop zeros padded.now)
        → length padded.now ≤ gate + zeros + zeros - 4
        → LeavesOnly (StandsForEither before after) (D.told disk.old) (D.told disk.new) }
    ensures rests { OnOk result ((before after : List (List ℕ)) → RestsAt (D.told disk.old) gate before
        → IsTextOf after (drop zeros padded.now) → length padded.now ≤ gate + zeros + zeros - 4
        → RestsAt (D.told disk.new) (4 + length padded.now - zeros) after) }
    ensures bytes { OnOk result ((before after : List (List ℕ)) → RestsAt (D.told disk.old) gate before
        → IsTextOf after (drop zeros padded.now) → length padded.now ≤ gate + zeros + zeros - 4
        → IsOn (D.told disk.new) (head 1 ++ drop zeros padded.now)) }
    ensures untold { D.told disk.old ≡ None → D.told disk.new ≡ None }
    ensures kept { D.fault_count disk.old ≤ D.fault_count disk.new }
    ensures risen { OnErr result (HasRisen (D.fault_count disk.old) (D.fault_count disk.new)) }
{
    stage(disk, gate + 1, padded, gate + 1 + zeros as u64)?;
    store(disk, 4, &[2])?;
    finish(disk, &padded[zeros..])?;
    Ok(())
}

/// Makes the disk hold these bytes alone, whatever it held.
pub fn overwrite<D: Disk>(disk: &mut D, bytes: &[u8]) -> Result<(), Failed>
    ensures stored { OnOk result ((s : Story) → D.told disk.old ≡ Some s → IsOn (D.told disk.new) bytes.now) }
    ensures untold { D.told disk.old ≡ None → D.told disk.new ≡ None }
    ensures kept { D.fault_count disk.old ≤ D.fault_count disk.new }
    ensures risen { OnErr result (HasRisen (D.fault_count disk.old) (D.fault_count disk.new)) }
{
    disk.cut(0)?;
    disk.write_at(0, bytes)?;
    disk.sync()?;
    Ok(())
}
