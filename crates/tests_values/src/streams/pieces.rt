//! A source that gives its bytes in pieces, and fails where a test wants it.
ghost use Rattle.std.specs.Prelude.{◌≤◌, length};

use tp_outside::{Failed, Source};

/// The bytes of three frames: node 2 is declared under node 1 of site a; an association is opened from there; and a user
/// of node 2 accepts.
pub const STREAM: [u8; 50] = [
    0, 8, 1, 0, 2, 1, 1, 97, 0, 1, 0, 31, 3, 1, 97, 0, 1, 1, 98, 0, 2, 0, 20, 1, 0, 0, 0, 0, 0, 0,
    0, 1, 0, 1, 0, 0, 0, 0, 0, 0, 0, 1, 41, 0, 5, 2, 0, 2, 2, 41,
];

/// Where each of the three frames ends.
pub const ENDS: [usize; 3] = [10, 43, 50];

/// Gives a first piece, and then others of at most so many bytes. The call with the number `fails` fails, and takes
/// nothing. It does not tell what it has left.
#[derive(Drop)]
pub struct Pieces<'a> {
    pub bytes: &'a [u8],
    pub first: usize,
    pub then: usize,
    pub fails: u64,
    calls: u64,
    faults: u64,
}

impl<'a> Pieces<'a> {
    pub fn new(bytes: &'a [u8], first: usize, then: usize, fails: u64) -> Pieces<'a> {
        Pieces {
            bytes,
            first,
            then,
            fails,
            calls: 0,
            faults: 0,
        }
    }
}

// Copies as much as both have, and not more than that, from the front of the one to the front of the other.
fn copy_front(from: &[u8], to: &mut [u8], most: usize) -> usize
    ensures within { result ≤ length from.now }
    ensures fits { result ≤ length to.old }
{
    let n = from.len().min(to.len()).min(most);
    to[..n].copy_from_slice(&from[..n]);
    n
}

impl Source for Pieces<'_> {
    ghost use Rattle.std.specs.Prelude.{None};

    ghost left = { λ _. None };

    ghost fault_count = { λ s. s.faults };

    fn read(&mut self, buf: &mut [u8]) -> Result<usize, Failed> {
        self.calls = self.calls.saturating_add(1);
        if self.calls == self.fails {
            self.faults = self.faults.saturating_add(1);
            return Err(Failed);
        }
        let n = copy_front(self.bytes, buf, self.first);
        self.bytes = &self.bytes[n..];
        self.first = self.then;
        Ok(n)
    }

    fn faults(&self) -> u64 {
        self.faults
    }
}
