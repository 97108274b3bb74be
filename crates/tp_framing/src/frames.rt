//! A reader of frames.
ghost use Rattle.std.specs.Prelude.{◌≡◌, ◌+◌, ◌-◌, ◌*◌, ◌^◌, ◌<◌, ◌≤◌, length, drop, vec_len, OnOk, OnErr, IfOk, IfSome};
ghost use Rattle.std.specs.Borrow.{sem};
ghost use Rattle.std.specs.Io.BufRead.{Rests};
ghost use Rattle.tp_framing.specs.Frames.{BeginsBad, next_in, is_next};
ghost use Rattle.tp_framing.specs.Fed.{fresh, fed_so_far, with_piece, after_next, Answers, HandsOut};

use crate::BadFrame;
use crate::head::{HEAD, whole_length};
use std::alloc::Global;
use std::marker::Model;
use tp_names::NoMemory;

/// A stream of frames that comes in pieces. Contracts see how many bytes were handed out, and
/// which were fed and not handed out.
///
/// What was handed out is let go at the next `feed`, once it is at least as much as what is
/// pending. So a stream costs time in proportion to its bytes, and no more is kept than twice
/// what is pending, and the last piece.
#[derive(Drop)]
pub struct Frames {
    bytes: Vec<u8>,
    start: usize,
    handed: u64,
}

impl Model for Frames {
    ghost use Rattle.std.specs.Prelude.{◌+◌, ◌-◌, ◌^◌, ◌<◌, ◌≤◌, drop, vec_len};
    ghost use Rattle.tp_framing.specs.Fed.{Fed};

    ghost Value = { Fed };

    ghost view = { λ f. record { handed = f.handed; pending = drop f.start f.bytes.items } };

    ghost invariant = { λ f. (f.start ≤ vec_len f.bytes) × (f.handed + (vec_len f.bytes - f.start) < 2 ^ 64) };
}

impl Frames {
    ghost use Rattle.tp_framing.specs.contracts.frames.Frames.{the_row};

    /// A stream of which nothing has come.
    pub fn new(alloc: Global) -> Frames
        ensures { result ≡ fresh }
    {
        Frames {
            bytes: Vec::new(alloc),
            start: 0,
            handed: 0,
        }
    }

    // Promise 2.12, part 3
    /// Takes the next piece of the stream, of any length, where all bytes fed are fewer than 2^64.
    /// Without memory nothing changes.
    pub fn feed(&mut self, _alloc: Global, piece: &[u8]) -> Result<(), NoMemory>
        requires { fed_so_far self.old + length piece.now < 2 ^ 64 }
        ensures ok { OnOk result (self.new ≡ with_piece self.old piece.now) }
        ensures err { OnErr result (self.new ≡ self.old) }
    {
        self.start = let_go(&mut self.bytes, self.start);
        self.bytes.extend_from_slice(piece)?;
        Ok(())
    }

    // Promise 2.12, part 2
    /// The next body, which is handed out by this; or `None` where neither a whole frame nor a
    /// bad length comes next. A bad length is answered from then on, and changes nothing.
    pub fn next(&mut self) -> Result<Option<&[u8]>, BadFrame>
        ensures* rests { sem 𝓛 (Rests the_row self.entry (λ new. new ≡ after_next self.old)) }
        ensures answer { Answers self.old result }
        ensures body { IfOk result (λ next. IfSome next (λ body. HandsOut self.old body.now (after_next self.old))) }
        ensures bad { OnErr result (BeginsBad self.old.pending) }
        ensures kept { fed_so_far (after_next self.old) ≡ fed_so_far self.old }
    {
        match whole_length(&self.bytes[self.start..]) {
            Err(_) => Err(BadFrame { at: self.handed }),
            Ok(None) => Ok(None),
            Ok(Some(length)) => {
                let from = self.start + HEAD;
                let to = from + length;
                self.start = to;
                self.handed += (HEAD + length) as u64;
                Ok(Some(&self.bytes[from..to]))
            }
        }
    }

    // Promise 2.40: Whether that is so is told
    /// Whether the next call of `next` hands out a body, or answers a bad length: no more bytes
    /// are needed for it.
    pub fn is_ready(&self) -> bool
        ensures { result ≡ is_next (next_in self.now.pending) }
    {
        !matches!(whole_length(&self.bytes[self.start..]), Ok(None))
    }

    /// How many bytes were fed and not handed out.
    pub fn pending(&self) -> usize
        ensures { result ≡ length self.now.pending }
    {
        self.bytes.len() - self.start
    }
}

/// Takes the bytes before the place away, once they are as many as those after it, and tells the
/// place of these from then on. So what stays is at most twice what is pending.
fn let_go(bytes: &mut Vec<u8>, start: usize) -> usize
    requires { start ≤ vec_len bytes.old }
    ensures within { result ≤ vec_len bytes.new }
    ensures pending { drop result bytes.new.items ≡ drop start bytes.old.items }
    ensures few { vec_len bytes.new ≤ 2 * (vec_len bytes.old - start) }
{
    let rest = bytes.len() - start;
    if start < rest {
        return start;
    }
    bytes.copy_within(start.., 0);
    bytes.truncate(rest);
    0
}
