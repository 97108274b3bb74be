//! A source in memory, which fails at listed calls alone.
ghost use Rattle.std.specs.Prelude.{◌≡◌, ◌++◌, length, take, drop, min};

use crate::{Failed, Source, due};
use std::alloc::Global;
use std::marker::Model;
use tp_names::Octets;

/// Bytes in memory to read, each call as many as fit.
#[derive(Drop)]
pub struct MemSource {
    bytes: Vec<u8>,
    at: usize,
    fails: Vec<u8>,
    calls: u64,
    faults: u64,
}

impl Model for MemSource {
    ghost use Rattle.std.specs.Prelude.{◌≤◌, drop, length};
    ghost use Rattle.tp_outside.specs.MemSource.{Supply};

    ghost Value = { Supply };

    ghost view = { λ s. record { left = drop s.at s.bytes.items; fails = s.fails.items; calls = s.calls; faults = s.faults } };

    ghost invariant = { λ s. s.at ≤ length s.bytes.items };
}

impl MemSource {
    ghost use Rattle.std.specs.Prelude.{◌≡◌};

    /// A source of these bytes, whose calls of `read` with the listed numbers, from 1, fail.
    pub fn new(_alloc: Global, bytes: Octets, fails: Octets) -> MemSource
        ensures { result ≡ record { left = bytes; fails = fails; calls = 0; faults = 0 } }
    {
        MemSource {
            bytes: bytes.into_vec(),
            at: 0,
            fails: fails.into_vec(),
            calls: 0,
            faults: 0,
        }
    }
}

// Copies as much as both have, from the front of the one to the front of the other.
pub(crate) fn copy_front(from: &[u8], to: &mut [u8]) -> usize
    ensures count { result ≡ min (length from.now) (length to.old) }
    ensures bytes { to.new ≡ take result from.now ++ drop result to.old }
{
    let n = from.len().min(to.len());
    to[..n].copy_from_slice(&from[..n]);
    n
}

impl Source for MemSource {
    ghost use Rattle.std.specs.Prelude.{Some, ◌≡◌, ◌≤◌, ◌↔◌, length, drop, min, Contains, IfOk, OnErr, IsErr};
    ghost use Rattle.tp_outside.specs.Faults.{HasRisen};
    ghost use Rattle.tp_outside.specs.Source.{ReadsSome};
    ghost use Rattle.tp_outside.specs.MemSource.{after_read, after_failed_read};

    ghost left = { λ s. Some s.left };

    ghost fault_count = { λ s. s.faults };

    fn read(&mut self, buf: &mut [u8]) -> Result<usize, Failed>
        ensures fits { IfOk result (λ n. n ≤ length buf.old) }
        ensures bytes { IfOk result (ReadsSome (Some self.old.left) (Some self.new.left) (length buf.old) buf.new) }
        ensures rest { IfOk result (λ n. drop n buf.new ≡ drop n buf.old) }
        ensures same { OnErr result (Some self.new.left ≡ Some self.old.left) }
        ensures kept { self.old.faults ≤ self.new.faults }
        ensures risen { OnErr result (HasRisen self.old.faults self.new.faults) }

        ensures when { IsErr result ↔ Contains self.old.fails (self.new.calls) }
        ensures most { IfOk result (λ n. n ≡ min (length buf.old) (length self.old.left)) }
        ensures read { IfOk result (λ n. self.new ≡ after_read n self.old) }
        ensures failed { OnErr result (self.new ≡ after_failed_read self.old) }
    {
        self.calls = self.calls.saturating_add(1);
        if due::is_due(&self.fails, self.calls) {
            self.faults = self.faults.saturating_add(1);
            return Err(Failed);
        }
        let n = copy_front(&self.bytes[self.at..], buf);
        self.at += n;
        Ok(n)
    }

    fn faults(&self) -> u64 {
        self.faults
    }
}
