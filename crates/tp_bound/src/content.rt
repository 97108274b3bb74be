//! What a store holds.
ghost use Rattle.std.specs.Prelude.{◌≡◌, ◌<◌, [], length, map, Some, None, IfSome, IfNone, IfOk, OnOk, OnErr, slice_index_or};
ghost use Rattle.std.specs.Map.{keys_of};
ghost use Rattle.tp_bound.specs.Content.{Ascends, value_of, put, without, write_made, made};

use crate::write::{Write, Writes};
use std::alloc::Global;
use std::collections::BTreeMap;
use std::collections::btree_map::Iter;
use std::marker::Model;
use tp_names::{NoMemory, Octets};

/// Keys with their values, which contracts see as that list, in ascending order of the keys' bytes.
#[derive(Drop)]
pub struct Content {
    table: BTreeMap<Vec<u8>, Vec<u8>>,
}

impl Model for Content {
    ghost use Rattle.std.specs.Prelude.{ℕ, List, map};

    ghost Value = { List (List ℕ × List ℕ) };

    ghost view = { λ c. map (λ e. (e.0.items, e.1.items)) c.table.entries };
}

impl Content {
    /// No keys.
    pub fn new(alloc: Global) -> Content
        ensures { result ≡ [] }
    {
        Content {
            table: BTreeMap::new(alloc),
        }
    }

    /// How many keys there are.
    pub fn len(&self) -> usize
        ensures is { result ≡ length self.now }
        ensures ascends { Ascends self.now }
    {
        self.table.len()
    }

    /// The value of a key.
    pub fn get(&self, key: &[u8]) -> Option<&[u8]>
        ensures found { IfSome result (λ value. value_of self.now key.now ≡ Some value.now) }
        ensures none { IfNone result (value_of self.now key.now ≡ None) }
    {
        match self.table.get(key) {
            Some(value) => Some(value.as_slice()),
            None => None,
        }
    }

    /// The key with that number, in order.
    pub fn key(&self, i: usize) -> &[u8]
        requires { i < length self.now }
        ensures { result.now ≡ slice_index_or (keys_of self.now) i [] }
    {
        match self.table.keys().nth(i) {
            Some(key) => key.as_slice(),
            None => unreachable!(),
        }
    }

    /// The keys with their values, in order.
    pub fn iter(&self) -> Iter<'_, Vec<u8>, Vec<u8>>
        ensures { map (λ e. (e.0.items, e.1.items)) result ≡ self.now }
    {
        self.table.iter()
    }

    /// Gives a key its value; without memory nothing changes.
    pub fn put(&mut self, key: Octets, value: Octets) -> Result<(), NoMemory>
        ensures ok { OnOk result (self.new ≡ put self.old key value) }
        ensures err { OnErr result (self.new ≡ self.old) }
    {
        let _old = self.table.insert(key.into_vec(), value.into_vec())?;
        Ok(())
    }

    /// Takes a key out.
    pub fn remove(&mut self, key: &[u8])
        ensures { self.new ≡ without self.old key.now }
    {
        let _old = self.table.remove(key);
    }

    fn make_one(&mut self, write: Write) -> Result<(), NoMemory>
        ensures { OnOk result (self.new ≡ write_made self.old write) }
    {
        match write {
            Write::Put { key, value } => self.put(key, value),
            Write::Remove { key } => {
                self.remove(key.as_slice());
                Ok(())
            }
        }
    }

    fn copy(&self) -> Result<Content, NoMemory>
        ensures { IfOk result (λ copy. copy ≡ self.now) }
    {
        let table = self.table.clone()?;
        Ok(Content { table })
    }

    /// The content with the writes made, as a value of its own.
    pub fn with(&self, alloc: Global, writes: &[Write]) -> Result<Content, NoMemory>
        ensures { IfOk result (λ next. next ≡ made self.now writes.now) }
    {
        let mut next = self.copy()?;
        for write in writes {
            next.make_one(write.copy(alloc)?)?;
        }
        Ok(next)
    }

    /// Makes the writes, one after the other. Without memory some are made: who reads a log throws the content away then.
    pub fn make(&mut self, writes: Writes) -> Result<(), NoMemory>
        ensures { OnOk result (self.new ≡ made self.old writes) }
    {
        for write in writes.into_vec() {
            self.make_one(write)?;
        }
        Ok(())
    }
}
