//! A list of values of one type.
ghost use Rattle.std.specs.Prelude.{◌≡◌, ◌==◌, List, [], ◌∷◌, ◌++◌, length, OnErr, OnOk, IfOk};

use crate::NoMemory;
use std::alloc::Global;
use std::marker::Model;

/// A list of values, which contracts see as that list.
#[derive(Clone, Debug, Drop)]
pub struct Sequence<T> {
    items: Vec<T>,
}

impl<T> Model for Sequence<T> {
    ghost use Rattle.std.specs.Prelude.{List};

    ghost Value = { List T };

    ghost view = { λ s. s.items.items };
}

impl<T: Drop> Sequence<T> {
    /// A list with nothing in it.
    pub fn new(alloc: Global) -> Sequence<T>
        ensures { result ≡ [] }
    {
        Sequence {
            items: Vec::new(alloc),
        }
    }

    /// The values of a vector, which takes no memory.
    pub fn from_vec(items: Vec<T>) -> Sequence<T>
        ensures { result ≡ items.items }
    {
        Sequence { items }
    }

    /// The vector with these values, which takes no memory.
    pub fn into_vec(self) -> Vec<T>
        ensures { result.items ≡ self }
    {
        let Sequence { items } = self;
        items
    }

    /// How many values there are.
    pub fn len(&self) -> usize
        ensures { result ≡ length self.now }
    {
        self.items.len()
    }

    /// Whether there are none.
    pub fn is_empty(&self) -> bool
        ensures { result ≡ (length self.now == 0) }
    {
        self.items.is_empty()
    }

    /// Puts a value at the end; without memory the list stays as it was.
    #[inline(always)]
    pub fn push(&mut self, _alloc: Global, v: T) -> Result<(), NoMemory>
        ensures ok { IfOk result (λ _. self.new ≡ self.old ++ v ∷ []) }
        ensures err { OnErr result (self.new ≡ self.old) }
    {
        if self.items.len() == self.items.capacity() {
            self.items.reserve(1)?;
        }
        self.items.push_reserved(v);
        Ok(())
    }

    /// Nothing is left in the list, which keeps its memory.
    pub fn clear(&mut self)
        ensures { self.new ≡ [] }
    {
        self.items.truncate(0);
    }

    /// The values, in order.
    pub fn as_slice(&self) -> &[T]
        ensures { result.now ≡ self.now }
    {
        self.items.as_slice()
    }
}

impl<T: Copy> Sequence<T> {
    /// A copy of these values.
    pub fn from_slice(alloc: Global, values: &[T]) -> Result<Sequence<T>, NoMemory>
        ensures { IfOk result (λ list. list ≡ values.now) }
    {
        Ok(Sequence {
            items: Vec::from_slice(alloc, values)?,
        })
    }

    /// Puts values at the end; without memory the list stays as it was.
    pub fn extend_from_slice(&mut self, _alloc: Global, values: &[T]) -> Result<(), NoMemory>
        ensures ok { OnOk result (self.new ≡ self.old ++ values.now) }
        ensures err { OnErr result (self.new ≡ self.old) }
    {
        self.items.extend_from_slice(values)?;
        Ok(())
    }
}
