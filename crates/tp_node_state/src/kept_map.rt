//! Kept transactions by their age.
ghost use Rattle.std.specs.Prelude.{◌≡◌, ◌<◌, ◌^◌, length, slice_get, [], ◌∷◌, ◌++◌, IfSome, IfErr, IfOk, OnOk, OnErr};
ghost use Rattle.std.specs.BTreeMap.{is_at};
ghost use Rattle.std.specs.List.Sorted.{IsStrictlySortedBy};
ghost use Rattle.std.specs.Map.{set_value, keys_of};
ghost use Rattle.std.specs.Option.{option_copied};
ghost use Rattle.std.specs.Ordering.{nat_cmp};
ghost use Rattle.tp_model.specs.Recovery.{find_kept, without_kept};
ghost use Rattle.tp_node_state.specs.Kept.{with_kept, first_in, has_key, age_of, listed, IsIndexed, AreSingle, AreBelow};
ghost use Rattle.tp_node_state.specs.Changes.{changed_all, owing_at};

use crate::change::{Change, changed_one};
use crate::tree_key::TreeKey;
use crate::{ages, kept};
use std::alloc::Global;
use std::collections::{BTreeMap, HashMap};
use std::marker::Model;
use tp_model::Kept;
use tp_names::same::is_key;
use tp_names::{Aaid, BranchId, NoMemory, NodeKey};

/// Kept transactions in the order of their age, found by their trees.
#[derive(Debug, Drop)]
pub(crate) struct KeptMap {
    by_age: BTreeMap<u64, Box<Kept>>,
    trees: HashMap<TreeKey, Vec<u64>>,
}

impl Model for KeptMap {
    ghost use Rattle.std.specs.Prelude.{List};
    ghost use Rattle.tp_model.specs.declared.recovery.Kept.{Kept as KeptValue};
    ghost use Rattle.tp_node_state.specs.Kept.{listed, IsIndexed, AreSingle};

    ghost Value = { List KeptValue };

    ghost view = { λ m. listed m.by_age.entries };

    ghost invariant = { λ m. IsIndexed m.by_age.entries m.trees.entries × AreSingle (listed m.by_age.entries) };
}

impl KeptMap {
    /// None.
    pub(crate) fn new(alloc: Global) -> KeptMap
        ensures { result ≡ [] }
    {
        KeptMap {
            by_age: BTreeMap::new(alloc),
            trees: HashMap::new(alloc),
        }
    }

    /// How many there are.
    #[tactic(auto, using(crate::proofs::KeptAges::listed_length))]
    pub(crate) fn len(&self) -> usize
        ensures len { result ≡ length self.now }
        ensures small { result < 2 ^ 63 }
        ensures single { AreSingle self.now }
    {
        self.by_age.len()
    }

    /// The one at that place, which is found by going over those before it.
    pub(crate) fn get(&self, place: usize) -> Option<&Kept>
        ensures { option_copied result ≡ slice_get self.now place }
    {
        match self.by_age.values().nth(place) {
            None => None,
            Some(kept) => Some(&**kept),
        }
    }

    /// The one with that key.
    pub(crate) fn find(&self, key: &NodeKey) -> Option<&Kept>
        ensures found { option_copied result ≡ find_kept self.now key.now }
        ensures single { AreSingle self.now }
    {
        let Some(age) = age_of(&self.by_age, &self.trees, key) else {
            return None;
        };
        match self.by_age.get(&age) {
            None => None,
            Some(kept) => Some(&**kept),
        }
    }

    /// The key of the first of the tree with the change; where a branch is asked for, of the first that owes it.
    pub(crate) fn first_in(
        &self,
        aaid: &Aaid,
        branch: &Option<BranchId>,
        change: &Option<Change>,
    ) -> Option<NodeKey>
        ensures first { result ≡ first_in (changed_all change.now self.now) aaid.now branch.now }
        ensures single { AreSingle self.now }
    {
        first_of(&self.by_age, &self.trees, aaid, branch, change)
    }

    /// Equal ones with the change, in order.
    pub(crate) fn copies(
        &self,
        alloc: Global,
        change: &Option<Change>,
    ) -> Result<Vec<Kept>, NoMemory>
        ensures copies { IfOk result (λ copies. copies.items ≡ changed_all change.now self.now) }
        ensures single { AreSingle self.now }
    {
        copies_of(alloc, &self.by_age, change)
    }

    /// Takes the place of the one with its key, or stands after the others. Without memory it comes back.
    pub(crate) fn put(&mut self, alloc: Global, kept: Box<Kept>) -> Result<(), Box<Kept>>
        ensures put { OnOk result (self.new ≡ with_kept self.old kept.value) }
        ensures same { OnErr result (self.new ≡ self.old) }
        ensures back { IfErr result (λ k. k ≡ kept) }
    {
        match age_of(&self.by_age, &self.trees, &kept.key) {
            Some(age) => {
                replace(&mut self.by_age, age, kept);
                Ok(())
            }
            None => append(alloc, &mut self.by_age, &mut self.trees, kept),
        }
    }

    /// Takes the one with that key away.
    pub(crate) fn remove(&mut self, key: &NodeKey)
        ensures { self.new ≡ without_kept self.old key.now }
    {
        let Some(age) = age_of(&self.by_age, &self.trees, key) else {
            return;
        };
        self.by_age.remove(&age);
        ages::remove(&mut self.trees, &key.aaid, age);
    }
}

// Equal ones with the change, in order.
fn copies_of(
    alloc: Global,
    by_age: &BTreeMap<u64, Box<Kept>>,
    change: &Option<Change>,
) -> Result<Vec<Kept>, NoMemory>
    ensures { IfOk result (λ copies. copies.items ≡ changed_all change.now (listed by_age.now.entries)) }
{
    let mut copies = Vec::new(alloc);
    for kept in by_age.values() {
        if let Some(one) = changed_one(change, kept) {
            copies.push(kept::copy(alloc, one)?)?;
        }
    }
    Ok(copies)
}

// The one of that age has the key.
fn has_key(by_age: &BTreeMap<u64, Box<Kept>>, age: u64, key: &NodeKey) -> bool
    ensures { result ≡ has_key by_age.now.entries key.now age }
{
    match by_age.get(&age) {
        None => false,
        Some(kept) => is_key(&kept.key, key),
    }
}

// The age of the one with that key.
fn age_of(
    by_age: &BTreeMap<u64, Box<Kept>>,
    trees: &HashMap<TreeKey, Vec<u64>>,
    key: &NodeKey,
) -> Option<u64>
    requires { IsIndexed by_age.now.entries trees.now.entries }
    ensures { result ≡ age_of by_age.now.entries key.now }
{
    for age in ages::of(trees, &key.aaid) {
        if has_key(by_age, *age, key) {
            return Some(*age);
        }
    }
    None
}

// The key of the one of that age with the change, where it owes the branch.
fn owing_at(
    by_age: &BTreeMap<u64, Box<Kept>>,
    age: u64,
    branch: &Option<BranchId>,
    change: &Option<Change>,
) -> Option<NodeKey>
    ensures { result ≡ owing_at by_age.now.entries change.now branch.now age }
{
    let one = changed_one(change, by_age.get(&age)?)?;
    if kept::owes(one, branch) {
        Some(one.key)
    } else {
        None
    }
}

// The key of the first of the tree, or of the first that owes the branch, with the change.
fn first_of(
    by_age: &BTreeMap<u64, Box<Kept>>,
    trees: &HashMap<TreeKey, Vec<u64>>,
    aaid: &Aaid,
    branch: &Option<BranchId>,
    change: &Option<Change>,
) -> Option<NodeKey>
    requires { IsIndexed by_age.now.entries trees.now.entries }
    ensures { result ≡ first_in (changed_all change.now (listed by_age.now.entries)) aaid.now branch.now }
{
    for age in ages::of(trees, aaid) {
        if let Some(key) = owing_at(by_age, *age, branch, change) {
            return Some(key);
        }
    }
    None
}

// It takes the place of the one of that age.
fn replace(by_age: &mut BTreeMap<u64, Box<Kept>>, age: u64, kept: Box<Kept>)
    ensures entries { by_age.new.entries ≡ set_value (is_at (nat_cmp age)) by_age.old.entries kept }
    ensures ordered { IsStrictlySortedBy nat_cmp (keys_of by_age.new.entries) }
{
    if let Some(one) = by_age.get_mut(&age) {
        *one = kept;
    }
}

// An age above all.
fn next_age(by_age: &BTreeMap<u64, Box<Kept>>) -> Option<u64>
    ensures { IfSome result (AreBelow by_age.now.entries) }
{
    match by_age.last_key_value() {
        None => Some(0),
        Some((last, _)) if *last < u64::MAX => Some(*last + 1),
        Some(_) => None,
    }
}

// It stands after the others. Without memory it comes back.
fn append(
    alloc: Global,
    by_age: &mut BTreeMap<u64, Box<Kept>>,
    trees: &mut HashMap<TreeKey, Vec<u64>>,
    kept: Box<Kept>,
) -> Result<(), Box<Kept>>
    requires indexed { IsIndexed by_age.old.entries trees.old.entries × AreSingle (listed by_age.old.entries) }
    requires absent { age_of by_age.old.entries kept.value.key ≡ None }
    ensures more { OnOk result (listed by_age.new.entries ≡ with_kept (listed by_age.old.entries) kept.value) }
    ensures indexed { IsIndexed by_age.new.entries trees.new.entries × AreSingle (listed by_age.new.entries) }
    ensures same { OnErr result (by_age.new.entries ≡ by_age.old.entries) }
    ensures back { IfErr result (λ k. k ≡ kept) }
{
    let Some(age) = next_age(by_age) else {
        return Err(kept);
    };
    let aaid = kept.key.aaid;
    let Ok(()) = ages::push(alloc, trees, &aaid, age) else {
        return Err(kept);
    };
    let Err(failed) = by_age.insert(age, kept) else {
        return Ok(());
    };
    ages::remove(trees, &aaid, age);
    Err(failed.value.1)
}
