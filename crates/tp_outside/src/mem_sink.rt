//! A sink in memory, which fails at listed calls and where there is no memory to grow.
use crate::{Failed, Sink, due};
use std::alloc::Global;
use std::marker::Model;
use tp_names::Octets;

/// Bytes in memory that were written, each piece whole.
#[derive(Drop)]
pub struct MemSink {
    bytes: Vec<u8>,
    fails: Vec<u8>,
    calls: u64,
    faults: u64,
    starved: u64,
}

impl Model for MemSink {
    ghost use Rattle.std.specs.Prelude.{◌≡◌, []};
    ghost use Rattle.tp_outside.specs.MemSink.{Collected};

    ghost Value = { Collected };

    ghost view = { λ s. record { written = s.bytes.items; fails = s.fails.items; calls = s.calls; faults = s.faults; starved = s.starved } };
}

impl MemSink {
    ghost use Rattle.std.specs.Prelude.{◌≡◌, []};

    /// A sink with nothing written, whose calls of `write` with the listed numbers, from 1, fail.
    pub fn new(alloc: Global, fails: Octets) -> MemSink
        ensures { result ≡ record { written = []; fails = fails; calls = 0; faults = 0; starved = 0 } }
    {
        MemSink {
            bytes: Vec::new(alloc),
            fails: fails.into_vec(),
            calls: 0,
            faults: 0,
            starved: 0,
        }
    }

    /// What was written.
    pub fn bytes(&self) -> &[u8]
        ensures { result.now ≡ self.now.written }
    {
        &self.bytes
    }

    /// How many calls found no memory to grow.
    pub fn starved(&self) -> u64
        ensures { result ≡ self.now.starved }
    {
        self.starved
    }
}

impl Sink for MemSink {
    ghost use Rattle.std.specs.Prelude.{Some, ◌≡◌, ◌≤◌, ◌⊎◌, [], length, Contains, IfOk, OnErr, IsErr};
    ghost use Rattle.tp_outside.specs.Faults.{HasRisen};
    ghost use Rattle.tp_outside.specs.Sink.{WritesSome};
    ghost use Rattle.tp_outside.specs.MemSink.{after_write, after_failed_write, after_starved_write};

    ghost written = { λ s. Some s.written };

    ghost fault_count = { λ s. s.faults };

    fn write(&mut self, piece: &[u8]) -> Result<usize, Failed>
        ensures within { IfOk result (λ n. n ≤ length piece.now) }
        ensures some { IfOk result (λ n. n ≡ 0 → piece.now ≡ []) }
        ensures bytes { IfOk result (WritesSome (Some self.old.written) (Some self.new.written) piece.now) }
        ensures same { OnErr result (Some self.new.written ≡ Some self.old.written) }
        ensures kept { self.old.faults ≤ self.new.faults }
        ensures risen { OnErr result (HasRisen self.old.faults self.new.faults) }

        ensures whole { IfOk result (λ n. n ≡ length piece.now) }
        ensures due { Contains self.old.fails self.new.calls → IsErr result }
        ensures written { IfOk result (λ _. self.new ≡ after_write piece.now self.old) }
        ensures failed { OnErr result ((Contains self.old.fails self.new.calls × (self.new ≡ after_failed_write self.old))
            ⊎ (self.new ≡ after_starved_write self.old)) }
    {
        self.calls = self.calls.saturating_add(1);
        if due::is_due(&self.fails, self.calls) {
            self.faults = self.faults.saturating_add(1);
            return Err(Failed);
        }
        if self.bytes.extend_from_slice(piece).is_err() {
            self.starved = self.starved.saturating_add(1);
            self.faults = self.faults.saturating_add(1);
            return Err(Failed);
        }
        Ok(piece.len())
    }

    fn faults(&self) -> u64 {
        self.faults
    }
}
