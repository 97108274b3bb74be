//! A list of octets.
ghost use Rattle.std.specs.Prelude.{◌≡◌, ◌==◌, ◌+◌, ◌≤◌, List, [], ◌∷◌, ◌++◌, length, take, drop, OnErr, OnOk, IfOk};
ghost use Rattle.tp_names.specs.Bytes.{short_bytes};

use crate::NoMemory;
use std::alloc::Global;
use std::marker::Model;

/// A list of bytes, which contracts see as that list.
#[derive(Clone, Debug, Drop)]
pub struct Octets {
    items: Vec<u8>,
}

impl Model for Octets {
    ghost use Rattle.std.specs.Prelude.{ℕ, List};

    ghost Value = { List ℕ };

    ghost view = { λ s. s.items.items };
}

impl Octets {
    /// A list with nothing in it.
    pub fn new(alloc: Global) -> Octets
        ensures { result ≡ [] }
    {
        Octets {
            items: Vec::new(alloc),
        }
    }

    /// A copy of these bytes.
    pub fn from_slice(alloc: Global, bytes: &[u8]) -> Result<Octets, NoMemory>
        ensures { IfOk result (λ octets. octets ≡ bytes.now) }
    {
        Ok(Octets {
            items: Vec::from_slice(alloc, bytes)?,
        })
    }

    /// The bytes of a vector, which takes no memory.
    pub fn from_vec(items: Vec<u8>) -> Octets
        ensures { result ≡ items.items }
    {
        Octets { items }
    }

    /// The vector with these bytes, which takes no memory.
    pub fn into_vec(self) -> Vec<u8>
        ensures { result.items ≡ self }
    {
        let Octets { items } = self;
        items
    }

    /// How many bytes there are.
    pub fn len(&self) -> usize
        ensures { result ≡ length self.now }
    {
        self.items.len()
    }

    /// Whether there are none.
    pub fn is_empty(&self) -> bool
        ensures { result ≡ (length self.now == 0) }
    {
        self.items.is_empty()
    }

    /// Puts a byte at the end; without memory the list stays as it was.
    pub fn push(&mut self, _alloc: Global, v: u8) -> Result<(), NoMemory>
        ensures ok { OnOk result (self.new ≡ self.old ++ v ∷ []) }
        ensures err { OnErr result (self.new ≡ self.old) }
    {
        if self.items.len() == self.items.capacity() {
            self.items.reserve(1)?;
        }
        self.items.push_reserved(v);
        Ok(())
    }

    /// Puts bytes at the end; without memory the list stays as it was.
    pub fn extend_from_slice(&mut self, _alloc: Global, bytes: &[u8]) -> Result<(), NoMemory>
        ensures ok { OnOk result (self.new ≡ self.old ++ bytes.now) }
        ensures err { OnErr result (self.new ≡ self.old) }
    {
        self.items.extend_from_slice(bytes)?;
        Ok(())
    }

    /// Keeps the first `len` bytes, and drops the rest.
    pub fn truncate(&mut self, len: usize)
        ensures { self.new ≡ take len self.old }
    {
        self.items.truncate(len);
    }

    /// Puts a number, the high byte first, in place of the two bytes at `at`.
    pub fn put_short(&mut self, at: usize, n: u16)
        requires { at + 2 ≤ length self.old }
        ensures { self.new ≡ take at self.old ++ short_bytes n ++ drop (at + 2) self.old }
    {
        self.items[at..at + 2].copy_from_slice(&n.to_be_bytes());
    }

    /// The bytes, in order.
    pub fn as_slice(&self) -> &[u8]
        ensures { result.now ≡ self.now }
    {
        self.items.as_slice()
    }
}
