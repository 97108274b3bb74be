//! What is done to the bytes of a disk in memory, and the record of it.
ghost use Rattle.std.specs.Prelude.{ℕ, List, [], ◌∷◌, false, ◌≡◌, ◌≤◌, ◌<◌, ◌+◌, ◌^◌, ◌++◌, length, take, drop, IfOk, OnOk, OnErr, Some, vec_len, vec_capacity};
ghost use Rattle.tp_outside.specs.Disk.{IsWritten, IsResized, Writes, Resizes};
ghost use Rattle.tp_outside.specs.Story.{Synced, Made};
ghost use Rattle.tp_outside.specs.Changes.{story_after, written_over};

use std::alloc::{AllocError, Global};

/// The most bytes that a disk in memory holds.
const MOST_BYTES: usize = u32::MAX as usize;

// A list of fewer items than its `FEW` grows to four times its length, and a longer one as `Vec` has it grow.
const FEW_BYTES: usize = 1 << 16;

const FEW_CALLS: usize = 1 << 12;

/// A call that changed the bytes, of which there were `was`.
#[derive(Clone, Copy)]
pub enum Call {
    Write { at: u32, len: u32, was: u32 },
    Resize { len: u32, was: u32 },
    /// Of a sync with no call before it.
    Nothing,
}

/// A call, and whether a sync came next.
#[derive(Clone, Copy)]
pub struct Change {
    pub call: Call,
    pub synced: bool,
}

/// What was done to the bytes of a disk, with what it takes to undo it: the bytes that each call wrote over or cut off.
/// The newest come last.
#[derive(Drop)]
pub struct Changes {
    pub items: Vec<Change>,
    pub lost: Vec<u8>,
}

// For how many more items a full list of so many is given room. In large steps few of its items are moved as it grows.
fn more(len: usize, first: usize, few: usize) -> usize
    requires some { 0 < first }
    requires first { first < 2 ^ 16 }
    requires few { few ≤ 2 ^ 16 }
    ensures some { 0 < result }
    ensures small { result < 2 ^ 20 }
{
    if len < few { 3 * len + first } else { 1 }
}

impl Changes {
    /// Nothing was done.
    pub fn new(alloc: Global) -> Changes
        ensures { (now : List ℕ) → story_after now result ≡ Made now }
    {
        Changes {
            items: Vec::new(alloc),
            lost: Vec::new(alloc),
        }
    }

    /// Forgets what was done.
    pub fn clear(&mut self)
        ensures { (now : List ℕ) → story_after now self.new ≡ Made now }
    {
        self.items.clear();
        self.lost.clear();
    }

    // Makes room for a call.
    fn make_room(&mut self) -> Result<(), AllocError>
        ensures items { self.new.items.items ≡ self.old.items.items }
        ensures room { OnOk result (vec_len self.new.items < vec_capacity self.new.items) }
        ensures lost { self.new.lost.items ≡ self.old.lost.items }
    {
        let count = self.items.len();
        if count == self.items.capacity() {
            self.items.reserve(more(count, 16, FEW_CALLS))?;
        }
        Ok(())
    }

    // Keeps the bytes that a call is to write over or cut off.
    fn keep(&mut self, lost: &[u8]) -> Result<(), AllocError>
        ensures items { self.new.items ≡ self.old.items }
        ensures ok { OnOk result (self.new.lost.items ≡ self.old.lost.items ++ lost.now) }
        ensures err { OnErr result (self.new.lost.items ≡ self.old.lost.items) }
    {
        self.lost.extend_from_slice(lost)
    }

    // A call was made, for which there is room.
    fn add(&mut self, call: Call)
        requires { vec_len self.old.items < vec_capacity self.old.items }
        ensures items { self.new.items.items ≡ self.old.items.items ++ record { call = call; synced = false } ∷ [] }
        ensures lost { self.new.lost.items ≡ self.old.lost.items }
    {
        self.items.push_reserved(Change {
            call,
            synced: false,
        });
    }

    /// A sync was made.
    #[inline(always)]
    pub fn sync(&mut self) -> Result<(), AllocError>
        ensures ok { OnOk result ((now : List ℕ) → story_after now self.new ≡ Synced (story_after now self.old)) }
        ensures err { OnErr result ((now : List ℕ) → story_after now self.new ≡ story_after now self.old) }
    {
        let count = self.items.len();
        if count > 0 && !self.items[count - 1].synced {
            self.items[count - 1].synced = true;
            return Ok(());
        }
        let alone = Change {
            call: Call::Nothing,
            synced: true,
        };
        self.items.push(alone)?;
        Ok(())
    }
}

// Puts a piece over what stands there.
fn put(file: &mut [u8], at: usize, piece: &[u8])
    requires { at + length piece.now ≤ length file.old }
    ensures { file.new ≡ take at file.old ++ (piece.now ++ drop (at + length piece.now) file.old) }
{
    file[at..at + piece.len()].copy_from_slice(piece);
}

pub(crate) fn overwrite(bytes: &mut Vec<u8>, at: usize, piece: &[u8]) -> Result<(), AllocError>
    ensures ok { OnOk result (IsWritten at piece.now bytes.old.items bytes.new.items) }
    ensures err { OnErr result (bytes.new.items ≡ bytes.old.items) }
{
    let end = at.checked_add(piece.len()).ok_or(AllocError)?;
    if end > bytes.len() {
        bytes.resize(end, 0)?;
    }
    put(bytes, at, piece);
    Ok(())
}

// Writes a piece at any place, and keeps the bytes that it writes over. Without memory nothing changes.
fn replace(
    bytes: &mut Vec<u8>,
    lost: &mut Vec<u8>,
    at: usize,
    piece: &[u8],
) -> Result<(), AllocError>
    requires { at + length piece.now < 2 ^ 32 }
    ensures written { OnOk result (IsWritten at piece.now bytes.old.items bytes.new.items) }
    ensures lost { OnOk result (lost.new.items ≡ lost.old.items ++ written_over at (length piece.now) bytes.old.items) }
    ensures same { OnErr result (bytes.new.items ≡ bytes.old.items) }
    ensures none_lost { OnErr result (lost.new.items ≡ lost.old.items) }
{
    let was = bytes.len();
    let kept = lost.len();
    lost.extend_from_slice(&bytes[at.min(was)..(at + piece.len()).min(was)])?;
    if let Err(fault) = overwrite(bytes, at, piece) {
        lost.truncate(kept);
        return Err(fault);
    }
    Ok(())
}

// Writes one byte in the place of another, which it keeps. Without memory nothing changes.
#[tactic(auto, using(crate::proofs::Torn::written_byte, crate::proofs::Records::one_over))]
fn replace_byte(
    bytes: &mut Vec<u8>,
    lost: &mut Vec<u8>,
    at: usize,
    byte: u8,
) -> Result<(), AllocError>
    requires { at < vec_len bytes.old }
    ensures written { OnOk result (IsWritten at (byte ∷ []) bytes.old.items bytes.new.items) }
    ensures lost { OnOk result (lost.new.items ≡ lost.old.items ++ written_over at 1 bytes.old.items) }
    ensures same { OnErr result (bytes.new.items ≡ bytes.old.items) }
    ensures none_lost { OnErr result (lost.new.items ≡ lost.old.items) }
{
    let count = lost.len();
    if count == lost.capacity() {
        lost.reserve(more(count, 64, FEW_BYTES))?;
    }
    lost.push_reserved(bytes[at]);
    bytes[at] = byte;
    Ok(())
}

// Puts a piece at the end. Without memory nothing changes.
fn append(bytes: &mut Vec<u8>, piece: &[u8]) -> Result<(), AllocError>
    requires { vec_len bytes.old + length piece.now < 2 ^ 32 }
    ensures ok { OnOk result (bytes.new.items ≡ bytes.old.items ++ piece.now) }
    ensures err { OnErr result (bytes.new.items ≡ bytes.old.items) }
{
    let was = bytes.len();
    if was + piece.len() > bytes.capacity() {
        bytes.reserve(piece.len() + more(was, 512, FEW_BYTES))?;
    }
    bytes.extend_from_slice(piece)
}

// Writes a piece and keeps the bytes that it writes over: none at the end, and mostly one before it. Without memory
// nothing changes.
#[tactic(auto, using(crate::proofs::Torn::written_after, crate::proofs::Records::none_over))]
fn put_piece(
    bytes: &mut Vec<u8>,
    lost: &mut Vec<u8>,
    at: usize,
    piece: &[u8],
) -> Result<(), AllocError>
    requires { at + length piece.now < 2 ^ 32 }
    ensures written { OnOk result (IsWritten at piece.now bytes.old.items bytes.new.items) }
    ensures lost { OnOk result (lost.new.items ≡ lost.old.items ++ written_over at (length piece.now) bytes.old.items) }
    ensures same { OnErr result (bytes.new.items ≡ bytes.old.items) }
    ensures none_lost { OnErr result (lost.new.items ≡ lost.old.items) }
{
    let was = bytes.len();
    if at == was {
        return append(bytes, piece);
    }
    if at < was && piece.len() == 1 {
        return replace_byte(bytes, lost, at, piece[0]);
    }
    replace(bytes, lost, at, piece)
}

// Where so many bytes at a place end, if a disk in memory may be that long.
fn end_of(at: usize, len: usize) -> Result<usize, AllocError>
    ensures { IfOk result (λ end. (end ≡ at + len) × (end < 2 ^ 32)) }
{
    let end = at.checked_add(len).ok_or(AllocError)?;
    if end > MOST_BYTES {
        return Err(AllocError);
    }
    Ok(end)
}

pub(crate) fn resize(bytes: &mut Vec<u8>, len: usize) -> Result<(), AllocError>
    ensures ok { OnOk result (IsResized len bytes.old.items bytes.new.items) }
    ensures err { OnErr result (bytes.new.items ≡ bytes.old.items) }
{
    bytes.resize(len, 0)
}

/// Writes a piece over what stands there, and past the end. Room for the record goes first, so that a write that is
/// made is told of.
#[inline(always)]
pub(crate) fn write(
    bytes: &mut Vec<u8>,
    changes: &mut Changes,
    at: u64,
    piece: &[u8],
) -> Result<(), AllocError>
    ensures ok { OnOk result (Writes at piece.now (Some (story_after bytes.old.items changes.old)) (Some (story_after bytes.new.items changes.new))) }
    ensures err { OnErr result (story_after bytes.new.items changes.new ≡ story_after bytes.old.items changes.old) }
{
    let was = bytes.len();
    let from = at as usize;
    let _end = end_of(from, piece.len())?;
    if was > MOST_BYTES {
        return Err(AllocError);
    }
    changes.make_room()?;
    put_piece(bytes, &mut changes.lost, from, piece)?;
    changes.add(Call::Write {
        at: from as u32,
        len: piece.len() as u32,
        was: was as u32,
    });
    Ok(())
}

/// Sets the length, with zeros after the old end.
pub(crate) fn set_len(
    bytes: &mut Vec<u8>,
    changes: &mut Changes,
    len: u64,
) -> Result<(), AllocError>
    ensures ok { OnOk result (Resizes len (Some (story_after bytes.old.items changes.old)) (Some (story_after bytes.new.items changes.new))) }
    ensures err { OnErr result (story_after bytes.new.items changes.new ≡ story_after bytes.old.items changes.old) }
{
    let was = bytes.len();
    let end = len as usize;
    if was > MOST_BYTES || end > MOST_BYTES {
        return Err(AllocError);
    }
    changes.make_room()?;
    let kept = changes.lost.len();
    changes.keep(&bytes[end.min(was)..])?;
    if let Err(fault) = resize(bytes, end) {
        changes.lost.truncate(kept);
        return Err(fault);
    }
    changes.add(Call::Resize {
        len: end as u32,
        was: was as u32,
    });
    Ok(())
}
