//! The kept transactions of a node, which its copies share.
ghost use Rattle.std.specs.Prelude.{◌≡◌, ◌<◌, ◌^◌, ◌++◌, length, slice_get, [], IfOk, OnOk, OnErr};
ghost use Rattle.std.specs.Option.{option_copied, option_to_list};
ghost use Rattle.tp_model.specs.Recovery.{find_kept, without_kept};
ghost use Rattle.tp_node_state.specs.Kept.{with_kept, first_in, AreSingle};
ghost use Rattle.tp_node_state.specs.Changes.{changed, changed_all, newcomer, first_put, first_removed, AreSame};
ghost use Rattle.tp_node_state.specs.KeptTable.{shared_list};

use crate::change::Change;
use crate::kept;
use crate::kept_map::KeptMap;
use std::alloc::Global;
use std::marker::Model;
use std::sync::Arc;
use tp_model::Kept;
use tp_names::same::{is_aaid, is_key};
use tp_names::{Aaid, BranchId, NoMemory, NodeKey};

/// The kept transactions of a node, in the order of their age. A copy of the node shares them with it, whatever their
/// number: a change of one of them waits beside them, until nobody else has them and it is carried out. An event changes
/// one kept transaction, so one change that waits is enough.
#[derive(Debug, Drop)]
pub struct KeptTable {
    shared: Option<Arc<KeptMap>>,
    change: Option<Change>,
}

impl Model for KeptTable {
    ghost use Rattle.std.specs.Prelude.{List};
    ghost use Rattle.tp_model.specs.declared.recovery.Kept.{Kept as KeptValue};
    ghost use Rattle.tp_node_state.specs.KeptTable.{table_of};

    ghost Value = { List KeptValue };

    ghost view = { table_of };
}

impl KeptTable {
    /// None.
    pub fn new() -> KeptTable
        ensures { result ≡ [] }
    {
        KeptTable {
            shared: None,
            change: None,
        }
    }

    /// An equal one, which shares them.
    pub fn copy(&self, alloc: Global) -> Result<KeptTable, NoMemory>
        ensures { IfOk result (λ copy. copy ≡ self.now) }
    {
        let shared = match &self.shared {
            None => None,
            Some(all) => Some(Arc::try_clone(all)?),
        };
        let change = match &self.change {
            None => None,
            Some(change) => Some(copy_of(alloc, change)?),
        };
        Ok(KeptTable { shared, change })
    }

    /// How many there are.
    #[tactic(auto, using(crate::proofs::KeptPlaces::put_same, crate::proofs::KeptPlaces::put_longer, crate::proofs::KeptPlaces::removed_shorter, crate::proofs::KeptPlaces::removed_nowhere))]
    pub fn len(&self) -> usize
        ensures { result ≡ length self.now }
    {
        let len = shared_len(&self.shared);
        match &self.change {
            None => len,
            Some(Change::Put(kept)) => match shared_find(&self.shared, &kept.key) {
                None => len + 1,
                Some(_) => len,
            },
            Some(Change::Remove(key)) => match shared_find(&self.shared, key) {
                None => len,
                Some(_) => len - 1,
            },
        }
    }

    /// The oldest.
    #[tactic(auto, using(crate::proofs::KeptPlaces::put_first, crate::proofs::KeptPlaces::removed_first))]
    pub fn oldest(&self) -> Option<&Kept>
        ensures { option_copied result ≡ slice_get self.now 0 }
    {
        let first = shared_at(&self.shared, 0);
        match &self.change {
            None => first,
            Some(Change::Put(kept)) => first_put(first, kept),
            Some(Change::Remove(key)) => first_removed(first, shared_at(&self.shared, 1), key),
        }
    }

    /// The one with that key.
    #[tactic(auto, using(crate::proofs::KeptAges::put_own, crate::proofs::KeptAges::find_put, crate::proofs::KeptAges::removed_own, crate::proofs::KeptAges::removed_else))]
    pub fn find(&self, key: &NodeKey) -> Option<&Kept>
        ensures { option_copied result ≡ find_kept self.now key.now }
    {
        let found = shared_find(&self.shared, key);
        match &self.change {
            Some(Change::Put(kept)) if is_key(&kept.key, key) => Some(&**kept),
            Some(Change::Remove(own)) if is_key(own, key) => None,
            _ => found,
        }
    }

    /// The key of the first of the tree; where a branch is asked for, of the first that owes it.
    pub fn first_in(&self, aaid: &Aaid, branch: &Option<BranchId>) -> Option<NodeKey>
        ensures { result ≡ first_in self.now aaid.now branch.now }
    {
        first_of(&self.shared, &self.change, aaid, branch)
    }

    /// Equal ones, in order.
    pub fn copies(&self, alloc: Global) -> Result<Vec<Kept>, NoMemory>
        ensures { IfOk result (λ copies. copies.items ≡ self.now) }
    {
        copies_of(alloc, &self.shared, &self.change)
    }

    /// Takes the place of the one with its key, or stands after the others. Where a change of another key still waits for
    /// memory, there is none for this one.
    #[tactic(auto, using(crate::proofs::KeptPlaces::put_put))]
    pub(crate) fn put(&mut self, alloc: Global, kept: Kept) -> Result<(), NoMemory>
        ensures put { OnOk result (self.new ≡ with_kept self.old kept) }
        ensures same { OnErr result (self.new ≡ self.old) }
    {
        match &self.change {
            None => {}
            Some(Change::Put(own)) if is_key(&own.key, &kept.key) => {}
            Some(_) => return Err(NoMemory),
        }
        self.change = Some(Change::Put(Box::new(alloc, kept)?));
        Ok(())
    }

    /// Takes the one with that key away, where there is one. Where a change of another key still waits for memory, there is
    /// none for this one.
    #[tactic(auto, using(crate::proofs::KeptPlaces::put_removed))]
    pub(crate) fn remove(&mut self, key: &NodeKey) -> Result<(), NoMemory>
        ensures removed { OnOk result (self.new ≡ without_kept self.old key.now) }
        ensures same { OnErr result (self.new ≡ self.old) }
    {
        match &self.change {
            None => {}
            Some(Change::Put(own)) if is_key(&own.key, key) => {}
            Some(_) => return Err(NoMemory),
        }
        self.change = removal(&self.shared, key);
        Ok(())
    }

    // The change that waits is carried out where nobody else has them and there is memory.
    fn settle_change(&mut self, alloc: Global)
        ensures { self.new ≡ self.old }
    {
        if self.shared.is_none() {
            let Ok(all) = Arc::new(alloc, KeptMap::new(alloc)) else {
                return;
            };
            self.shared = Some(all);
        }
        let Some(shared) = &mut self.shared else {
            return;
        };
        let Some(all) = Arc::get_mut(shared) else {
            return;
        };
        self.change = carry_out(alloc, all, self.change.take());
    }

    /// A change that waits is carried out where nobody else has them and there is memory. They are the same.
    #[inline(always)]
    pub fn settle(&mut self, alloc: Global)
        ensures { self.new ≡ self.old }
    {
        if self.change.is_some() {
            self.settle_change(alloc);
        }
    }
}

// A change is carried out; without memory it waits on.
fn carry_out(alloc: Global, all: &mut KeptMap, change: Option<Change>) -> Option<Change>
    ensures { changed result all.new ≡ changed change all.old }
{
    match change? {
        Change::Put(kept) => match all.put(alloc, kept) {
            Ok(()) => None,
            Err(kept) => Some(Change::Put(kept)),
        },
        Change::Remove(key) => {
            all.remove(&key);
            None
        }
    }
}

fn copy_of(alloc: Global, change: &Change) -> Result<Change, NoMemory>
    ensures { IfOk result (λ copy. AreSame copy change.now) }
{
    Ok(match change {
        Change::Put(kept) => Change::Put(Box::new(alloc, kept::copy(alloc, kept)?)?),
        Change::Remove(key) => Change::Remove(*key),
    })
}

// The one with that key is taken away, where there is one.
#[tactic(auto, using(crate::proofs::KeptPlaces::removed_nowhere))]
fn removal(shared: &Option<Arc<KeptMap>>, key: &NodeKey) -> Option<Change>
    ensures { changed result (shared_list shared.now) ≡ without_kept (shared_list shared.now) key.now }
{
    match shared_find(shared, key) {
        None => None,
        Some(_) => Some(Change::Remove(*key)),
    }
}

// The one that is new.
fn newcomer<'a>(shared: &Option<Arc<KeptMap>>, change: &'a Option<Change>) -> Option<&'a Kept>
    ensures { option_copied result ≡ newcomer change.now (shared_list shared.now) }
{
    match change {
        Some(Change::Put(kept)) => match shared_find(shared, &kept.key) {
            None => Some(&**kept),
            Some(_) => None,
        },
        _ => None,
    }
}

// Its key, where it is of the tree and owes the branch.
fn key_of(one: Option<&Kept>, aaid: &Aaid, branch: &Option<BranchId>) -> Option<NodeKey>
    ensures { result ≡ first_in (option_to_list (option_copied one.entry)) aaid.now branch.now }
{
    match one {
        Some(one) if is_aaid(&one.key.aaid, aaid) && kept::owes(one, branch) => Some(one.key),
        _ => None,
    }
}

// The key of the first of the tree, or of the first that owes the branch, with the change.
fn first_of(
    shared: &Option<Arc<KeptMap>>,
    change: &Option<Change>,
    aaid: &Aaid,
    branch: &Option<BranchId>,
) -> Option<NodeKey>
    ensures { result ≡ first_in (changed change.now (shared_list shared.now)) aaid.now branch.now }
{
    match shared_first(shared, change, aaid, branch) {
        Some(key) => Some(key),
        None => key_of(newcomer(shared, change), aaid, branch),
    }
}

// Equal ones, in order, with the change.
#[tactic(auto, using(crate::proofs::KeptPlaces::copies_changed))]
fn copies_of(
    alloc: Global,
    shared: &Option<Arc<KeptMap>>,
    change: &Option<Change>,
) -> Result<Vec<Kept>, NoMemory>
    ensures { IfOk result (λ copies. copies.items ≡ changed change.now (shared_list shared.now)) }
{
    let mut copies = shared_copies(alloc, shared, change)?;
    push(alloc, &mut copies, newcomer(shared, change))?;
    Ok(copies)
}

// A copy of it more, where there is one.
fn push(alloc: Global, copies: &mut Vec<Kept>, one: Option<&Kept>) -> Result<(), NoMemory>
    ensures { OnOk result (copies.new.items ≡ copies.old.items ++ option_to_list (option_copied one.entry)) }
{
    if let Some(one) = one {
        copies.push(kept::copy(alloc, one)?)?;
    }
    Ok(())
}

fn shared_first(
    shared: &Option<Arc<KeptMap>>,
    change: &Option<Change>,
    aaid: &Aaid,
    branch: &Option<BranchId>,
) -> Option<NodeKey>
    ensures first { result ≡ first_in (changed_all change.now (shared_list shared.now)) aaid.now branch.now }
    ensures single { AreSingle (shared_list shared.now) }
{
    match shared {
        None => None,
        Some(all) => all.first_in(aaid, branch, change),
    }
}

fn shared_copies(
    alloc: Global,
    shared: &Option<Arc<KeptMap>>,
    change: &Option<Change>,
) -> Result<Vec<Kept>, NoMemory>
    ensures copies { IfOk result (λ copies. copies.items ≡ changed_all change.now (shared_list shared.now)) }
    ensures single { AreSingle (shared_list shared.now) }
{
    match shared {
        None => Ok(Vec::new(alloc)),
        Some(all) => all.copies(alloc, change),
    }
}

// The oldest with one that is put.
fn first_put<'a>(first: Option<&'a Kept>, kept: &'a Kept) -> Option<&'a Kept>
    ensures { option_copied result ≡ first_put (option_copied first.entry) kept.now }
{
    match first {
        Some(one) if !is_key(&one.key, &kept.key) => Some(one),
        _ => Some(kept),
    }
}

// The oldest without the one with that key, where the second is known.
fn first_removed<'a>(
    first: Option<&'a Kept>,
    second: Option<&'a Kept>,
    key: &NodeKey,
) -> Option<&'a Kept>
    ensures { option_copied result ≡ first_removed (option_copied first.entry) (option_copied second.entry) key.now }
{
    match first {
        Some(one) if is_key(&one.key, key) => second,
        other => other,
    }
}

fn shared_len(shared: &Option<Arc<KeptMap>>) -> usize
    ensures len { result ≡ length (shared_list shared.now) }
    ensures small { result < 2 ^ 63 }
    ensures single { AreSingle (shared_list shared.now) }
{
    match shared {
        None => 0,
        Some(all) => all.len(),
    }
}

fn shared_at(shared: &Option<Arc<KeptMap>>, place: usize) -> Option<&Kept>
    ensures { option_copied result ≡ slice_get (shared_list shared.now) place }
{
    match shared {
        None => None,
        Some(all) => all.get(place),
    }
}

fn shared_find<'a>(shared: &'a Option<Arc<KeptMap>>, key: &NodeKey) -> Option<&'a Kept>
    ensures found { option_copied result ≡ find_kept (shared_list shared.now) key.now }
    ensures single { AreSingle (shared_list shared.now) }
{
    match shared {
        None => None,
        Some(all) => all.find(key),
    }
}
