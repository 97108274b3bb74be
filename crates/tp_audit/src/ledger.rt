//! What the entries of all logs tell together.
ghost use Rattle.std.specs.Prelude.{◌≡◌, ◌+◌, ◌-◌, ◌<◌, ◌≤◌, ◌++◌, vec_len, vec_capacity};
ghost use Rattle.tp_audit.specs.Ledgers.{clash_by, is_before, first_of, other, doubts_by};

use crate::firsts::{Firsts, Place, note};
use crate::keys::TreeKey;
use crate::summary::Summary;
use crate::verdict::Verdict;
use std::alloc::Global;
use std::collections::HashMap;
use std::marker::Model;
use tp_names::{Aaid, Addr, BranchId, NoMemory, NodeKey, Outcome};

/// Two entries of a tree that ended apart, with the number of the first among all.
#[derive(Clone, Copy)]
pub(crate) struct Clash {
    number: u64,
    aaid: Aaid,
    first: Addr,
    second: Addr,
}

/// A node that is in doubt, and whom it is to ask.
#[derive(Clone, Copy)]
pub(crate) struct Doubt {
    pub(crate) node: Addr,
    pub(crate) key: NodeKey,
    pub(crate) superior: Addr,
}

/// What is kept of the entries of all logs.
#[derive(Drop)]
pub(crate) struct Ledger {
    count: u64,
    trees: HashMap<TreeKey, Firsts>,
    clash: Option<Clash>,
    doubts: Vec<Doubt>,
}

impl Model for Ledger {
    ghost use Rattle.std.specs.Prelude.{◌-◌, min, vec_len, vec_capacity};
    ghost use Rattle.std.specs.HashMap.{spare};
    ghost use Rattle.tp_audit.specs.Ledgers.{Ledger as LedgerValue};

    ghost Value = { LedgerValue };

    ghost view = { λ l. record {
      count = l.count;
      trees = l.trees.entries;
      clash = l.clash;
      doubts = l.doubts.items;
      room = min (spare l.trees) (vec_capacity l.doubts - vec_len l.doubts);
    } };
}

impl Ledger {
    ghost use Rattle.std.specs.Prelude.{◌^◌, ◌≤◌, ◌≡◌, ◌+◌, ◌<◌, ◌++◌, ◌∷◌, [], List, OnOk};
    ghost use Rattle.tp_audit.specs.Entries.{Entry, addr_of};
    ghost use Rattle.tp_audit.specs.Summaries.{summary_of};
    ghost use Rattle.tp_audit.specs.Ledgers.{IsLedgerOf, committed_at, verdict_of};

    /// That of no entries.
    pub(crate) fn new(alloc: Global) -> Ledger
        ensures { IsLedgerOf [] result }
    {
        Ledger {
            count: 0,
            trees: HashMap::new(alloc),
            clash: None,
            doubts: Vec::new(alloc),
        }
    }

    /// Makes room for so many entries more; it stays that of the same entries.
    pub(crate) fn reserve(&mut self, entries: usize) -> Result<(), NoMemory>
        ensures same { (es : List Entry) → IsLedgerOf es self.old → IsLedgerOf es self.new }
        ensures room { OnOk result (entries ≤ self.new.room) }
        ensures numbers { OnOk result (self.new.count + entries < 2 ^ 64) }
    {
        if self.count.checked_add(entries as u64).is_none() {
            return Err(NoMemory);
        }
        self.trees.reserve(entries)?;
        self.doubts.reserve(entries)?;
        Ok(())
    }

    /// Enters one key of a node more, with what its records tell.
    pub(crate) fn enter(&mut self, node: &Addr, key: &NodeKey, summary: &Summary)
        requires room { 0 < self.old.room }
        requires number { self.old.count + 1 < 2 ^ 64 }
        ensures entered { (es : List Entry) (e : Entry) → IsLedgerOf es self.old → addr_of e ≡ node.now → e.owner.key ≡ key.now
            → summary_of e.records ≡ summary.now → IsLedgerOf (es ++ e ∷ []) self.new }
        ensures count { self.new.count ≡ self.old.count + 1 }
        ensures room { self.old.room ≤ self.new.room + 1 }
    {
        add_doubt(&mut self.doubts, node, key, summary.doubted());
        if let Some(outcome) = summary.settled() {
            let place = Place {
                number: self.count,
                node: *node,
            };
            let before = note(&mut self.trees, &key.aaid, outcome, place);
            self.clash = clash_after(self.clash, &before, outcome, &key.aaid, node);
        }
        self.count += 1;
    }

    /// Whether two entries clash, and the first that do.
    pub(crate) fn verdict(&self) -> Verdict
        ensures { result ≡ verdict_of self.now.clash }
    {
        match self.clash {
            None => Verdict::Yes,
            Some(clash) => Verdict::Differ {
                aaid: clash.aaid,
                first: clash.first,
                second: clash.second,
            },
        }
    }

    /// The first node that committed in the tree and took no decision of its own.
    pub(crate) fn committed(&self, aaid: &Aaid) -> Option<Addr>
        ensures { result ≡ committed_at self.now.trees aaid.now }
    {
        let tree = TreeKey { aaid: *aaid };
        let Some(firsts) = self.trees.get(&tree) else {
            return None;
        };
        let place = firsts.of(Outcome::Commit)?;
        Some(place.node)
    }

    /// The nodes in doubt.
    pub(crate) fn doubts(&self) -> &[Doubt]
        ensures { result.now ≡ self.now.doubts }
    {
        self.doubts.as_slice()
    }
}

// One more node in doubt, where there is one whom it is to ask.
fn add_doubt(doubts: &mut Vec<Doubt>, node: &Addr, key: &NodeKey, superior: Option<Addr>)
    requires { vec_len doubts.old < vec_capacity doubts.old }
    ensures items { doubts.new.items ≡ doubts.old.items ++ doubts_by node.now key.now superior }
    ensures room { vec_capacity doubts.old - vec_len doubts.old ≤ vec_capacity doubts.new - vec_len doubts.new + 1 }
{
    let _branch: Option<BranchId> = key.branch;
    let Some(superior) = superior else {
        return;
    };
    doubts.push_reserved(Doubt {
        node: *node,
        key: *key,
        superior,
    });
}

// The first two that clash, with one more of the tree that ended so.
fn clash_after(
    clash: Option<Clash>,
    before: &Firsts,
    outcome: Outcome,
    aaid: &Aaid,
    node: &Addr,
) -> Option<Clash>
    ensures { result ≡ clash_by clash (first_of outcome before.now) (first_of (other outcome) before.now) aaid.now node.now }
{
    let Some(first) = before.of(other(outcome)) else {
        return clash;
    };
    if before.of(outcome).is_some() || !is_before(first.number, &clash) {
        return clash;
    }
    Some(Clash {
        number: first.number,
        aaid: *aaid,
        first: first.node,
        second: *node,
    })
}

fn other(outcome: Outcome) -> Outcome
    ensures { result ≡ other outcome }
{
    match outcome {
        Outcome::Commit => Outcome::Rollback,
        Outcome::Rollback => Outcome::Commit,
    }
}

fn is_before(number: u64, clash: &Option<Clash>) -> bool
    ensures { result ≡ is_before number clash.now }
{
    match clash {
        None => true,
        Some(clash) => number < clash.number,
    }
}
