//! The bytes of a stream that are at hand.
ghost use Rattle.std.specs.Prelude.{◌≡◌, ◌+◌, ◌-◌, ◌<◌, ◌≤◌, List, [], length, take, drop, IfOk, OnErr};
ghost use Rattle.tp_outside.specs.Faults.{HasRisen};
ghost use Rattle.tp_schedule.specs.AtHand.{Gains};

use std::marker::Model;
use tp_outside::{Failed, Source};

/// Bytes that were read and are not passed over, 12,288 at most. Contracts see them as a list.
#[derive(Drop)]
pub(crate) struct Window {
    buffer: [u8; 12288],
    start: usize,
    end: usize,
}

impl Model for Window {
    ghost use Rattle.std.specs.Prelude.{ℕ, List, ◌-◌, ◌≤◌, take, drop};

    ghost Value = { List ℕ };

    ghost view = { λ w. take (w.end - w.start) (drop w.start w.buffer) };

    ghost invariant = { λ w. (w.start ≤ w.end) × (w.end ≤ 12288) };
}

impl Window {
    /// Nothing is at hand.
    pub(crate) fn new() -> Window
        ensures { result ≡ [] }
    {
        Window {
            buffer: [0; 12288],
            start: 0,
            end: 0,
        }
    }

    /// The bytes.
    pub(crate) fn bytes(&self) -> &[u8]
        ensures value { result.now ≡ self.now }
        ensures few { length self.now ≤ 12288 }
    {
        &self.buffer[self.start..self.end]
    }

    /// Passes over bytes at the front.
    pub(crate) fn pass(&mut self, count: usize)
        requires { count ≤ length self.old }
        ensures { self.new ≡ drop count self.old }
    {
        self.start += count;
    }

    /// Passes over all bytes.
    pub(crate) fn clear(&mut self)
        ensures { self.new ≡ [] }
    {
        self.start = 0;
        self.end = 0;
    }

    /// Reads more from the source, and answers how many bytes it gave. A call that fails changes nothing
    /// but the count of faults.
    pub(crate) fn pull<S: Source>(&mut self, source: &mut S) -> Result<usize, Failed>
        requires { length self.old < 12288 }
        ensures gains { IfOk result (Gains self.old self.new (S.left source.old) (S.left source.new)) }
        ensures same { OnErr result (self.new ≡ self.old) }
        ensures left { OnErr result (S.left source.new ≡ S.left source.old) }
        ensures kept { S.fault_count source.old ≤ S.fault_count source.new }
        ensures risen { OnErr result (HasRisen (S.fault_count source.old) (S.fault_count source.new)) }
    {
        let held = self.end - self.start;
        to_front(&mut self.buffer, self.start, held);
        self.start = 0;
        self.end = held;
        let count = source.read(&mut self.buffer[held..])?;
        self.end = held + count;
        Ok(count)
    }
}

// Moves bytes to the front of the buffer.
fn to_front(buffer: &mut [u8], from: usize, len: usize)
    requires { from + len ≤ length buffer.old }
    ensures { take len buffer.new ≡ take len (drop from buffer.old) }
{
    if from > 0 {
        for i in 0..len {
            buffer[i] = buffer[from + i];
        }
    }
}
