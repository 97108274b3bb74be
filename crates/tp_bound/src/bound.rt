//! A started store.
ghost use Rattle.std.specs.Prelude.{◌≡◌, ◌<◌, [], length, map, Some, None, IfOk, IfErr, IfSome, IfNone, slice_index_or};
ghost use Rattle.std.specs.Map.{keys_of};
ghost use Rattle.tp_journal.specs.Started.{IsStarted};
ghost use Rattle.tp_bound.specs.Content.{Ascends, value_of};
ghost use Rattle.tp_bound.specs.Stores.{opened, Stands};
ghost use Rattle.tp_bound.specs.Bounds.{Opens, RefusesOpen, undecided_in};
ghost use Rattle.tp_bound.specs.Taking.{RefusesRead};

mod told;

use crate::current::Current;
use crate::store::Store;
use std::alloc::Global;
use std::collections::btree_map::Iter;
use std::marker::Model;
use tp_journal::{Gates, StartFault};
use tp_names::Aaid;
use tp_outside::Disk;

/// A store of keys and values over a log. It holds what the bodies of its log stand for.
#[derive(Drop)]
pub struct Bound<D: Disk> {
    node: u16,
    gates: Gates<D>,
    store: Store,
    current: Option<Current>,
}

impl<D: Disk> Model for Bound<D> {
    ghost use Rattle.std.specs.Prelude.{◌≡◌, Some, None};
    ghost use Rattle.tp_bound.specs.declared.store.Pending.{Pending};
    ghost use Rattle.tp_bound.specs.Stores.{opened, Stands};
    ghost use Rattle.tp_bound.specs.Bounds.{Standing};

    ghost Value = { Standing D };

    ghost view = { λ b. record {
      node = b.node;
      disk = b.gates.disk;
      bodies = b.gates.bodies;
      gate = b.gates.gate;
      shut = b.gates.shut;
      store = b.store;
      current = b.current;
    } };

    // What is read of the log is the store, and no transaction goes on while another is undecided.
    ghost invariant = { λ b. (opened b.gates.bodies ≡ Stands b.store) × ((p : Pending) → b.store.undecided ≡ Some p → b.current ≡ None) };
}

// What the bodies of a started log stand for.
fn read<D: Disk>(alloc: Global, gates: &Gates<D>) -> Result<Store, StartFault>
    ensures stands { IfOk result (λ store. opened gates.now.bodies ≡ Stands store) }
    ensures refused { IfErr result (RefusesRead gates.now.bodies) }
{
    let mut store = Store::new(alloc);
    let mut place: u64 = 5;
    for i in 0..gates.count() {
        let body = gates.body(i);
        let Ok(taken) = store.take(alloc, place, body) else {
            return Err(StartFault::NoMemory);
        };
        if !taken {
            return Err(StartFault::Foreign { at: place });
        }
        place += 3 + body.len() as u64;
    }
    Ok(store)
}

impl<D: Disk> Bound<D> {
    /// Starts the store of a node on a disk that has its log, and ends what was cut short in it. Foreign tells the place of
    /// the byte at which the disk has no log, or of the gate of the first body that breaks the rules; DiskFault the count of
    /// the disk's failed calls. With a fault the disk comes back.
    pub fn open(alloc: Global, disk: D, node: u16) -> Result<Bound<D>, (D, StartFault)>
        // Promise 8.1 [clauses opened refused]: A store opens exactly where its log starts and all
        //   of its bodies may stand, and then holds what they stand for
        ensures opened { IfOk result (λ bound. Opens (D.told disk) (D.told bound.disk) node bound) }
        // Promise 8.2: Foreign comes exactly as the log's, or at the first body that breaks the
        //   rules; DiskFault comes as the log's
        ensures refused { IfErr result (λ e. RefusesOpen (D.told disk) (D.told e.0) (D.fault_count disk) (D.fault_count e.0) e.1) }
    {
        let gates = Gates::start(alloc, disk)?;
        match read(alloc, &gates) {
            Ok(store) => Ok(Bound {
                node,
                gates,
                store,
                current: None,
            }),
            Err(fault) => Err((gates.disk(), fault)),
        }
    }

    /// The value of a key, or none where there is no such key.
    pub fn get(&self, key: &[u8]) -> Option<&[u8]>
        ensures found { IfSome result (λ value. value_of self.now.store.content key.now ≡ Some value.now) }
        ensures none { IfNone result (value_of self.now.store.content key.now ≡ None) }
    {
        self.store.content.get(key)
    }

    /// How many keys there are.
    pub fn len(&self) -> usize
        ensures is { result ≡ length self.now.store.content }
        ensures ascends { Ascends self.now.store.content }
        ensures stands { opened self.now.bodies ≡ Stands self.now.store }
        ensures started { IsStarted (D.told self.now.disk) self.now.gate self.now.bodies self.now.shut }
    {
        let _count = self.gates.count();
        self.store.content.len()
    }

    /// The key with that number, from 0 on, in ascending order of bytes.
    pub fn key(&self, i: usize) -> &[u8]
        requires { i < length self.now.store.content }
        ensures { result.now ≡ slice_index_or (keys_of self.now.store.content) i [] }
    {
        self.store.content.key(i)
    }

    /// The keys with their values, in ascending order of bytes.
    pub fn entries(&self) -> Iter<'_, Vec<u8>, Vec<u8>>
        ensures { map (λ e. (e.0.items, e.1.items)) result ≡ self.now.store.content }
    {
        self.store.content.iter()
    }

    /// The transaction whose writes are bound and not yet decided, or none.
    pub fn undecided(&self) -> Option<&Aaid>
        ensures found { IfSome result (λ aaid. undecided_in self.now.store ≡ Some aaid.now) }
        ensures none { IfNone result (undecided_in self.now.store ≡ None) }
    {
        match &self.store.undecided {
            Some(pending) => Some(&pending.aaid),
            None => None,
        }
    }

    /// How many calls of the disk have failed.
    pub fn faults(&self) -> u64
        ensures { result ≡ D.fault_count self.now.disk }
    {
        self.gates.faults()
    }

    /// The disk, which is let go of.
    pub fn disk(self) -> D
        ensures { result ≡ self.disk }
    {
        let Bound {
            node: _,
            gates,
            store: _,
            current: _,
        } = self;
        gates.disk()
    }
}
