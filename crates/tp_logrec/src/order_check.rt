//! A check of the order of a long log, one record after the other.
ghost use Rattle.std.specs.Prelude.{◌≡◌, ◌++◌, ◌∷◌, [], List, Some, OnErr, OnOk};
ghost use Rattle.tp_logrec.specs.declared.record.LogRec.{LogRec as TheRecord};
ghost use Rattle.tp_logrec.specs.Order.{follows, owner, owner_of};
ghost use Rattle.tp_logrec.specs.OrderCheck.{IsCheckOf, IsWith, IsSame, follows_by, before_by, greatest_by, is_above};
ghost use Rattle.tp_logrec.specs.Seen.{before_of};

use crate::bindings::Bindings;
use crate::recent_keys::RecentKeys;
use crate::rules::Seen;
use crate::{LogRec, Owner};
use std::alloc::Global;
use std::marker::Model;
use tp_names::{NoMemory, NodeKey};

/// Tells of each record of a long log whether it may follow those before it. A record costs the same whatever stands: its
/// key and its node are found by their hash, and a log in order has at most one key that binds a node. Of each key that is
/// not at its end a copy of its last record and of its Ready is kept, and of each node a list.
#[derive(Drop)]
pub struct OrderCheck {
    begun: bool,
    greatest: Option<u64>,
    boot: u64,
    keys: RecentKeys,
    nodes: Bindings,
}

impl Model for OrderCheck {
    ghost use Rattle.tp_logrec.specs.OrderCheck as checks;

    ghost Value = { checks.OrderCheck };

    ghost view = { λ c. record { begun = c.begun; greatest = c.greatest; boot = c.boot; keys = c.keys; nodes = c.nodes } };
}

impl OrderCheck {
    // Promise 2.14, part 4
    /// That of no records.
    pub fn new(alloc: Global) -> OrderCheck
        ensures { IsCheckOf [] result }
    {
        OrderCheck {
            begun: false,
            greatest: None,
            boot: 0,
            keys: RecentKeys::new(alloc),
            nodes: Bindings::new(alloc),
        }
    }

    // Promise 2.14: Which record may follow a list is told, also where the list is read record by
    //   record
    /// The record may follow those that were taken.
    pub fn follows(&self, next: &LogRec) -> bool
        ensures { (rs : List TheRecord) → IsCheckOf rs self.now → result ≡ follows rs next.now }
    {
        self.allows(next)
    }

    // Promise 2.14, part 2
    /// Takes the next record, whether it may follow or not. Without memory it is still that of the records before.
    pub fn take(&mut self, alloc: Global, rec: &LogRec) -> Result<(), NoMemory>
        ensures ok { OnOk result ((rs : List TheRecord) → IsCheckOf rs self.old → IsCheckOf (rs ++ rec.now ∷ []) self.new) }
        ensures err { OnErr result ((rs : List TheRecord) → IsCheckOf rs self.old → IsCheckOf rs self.new) }
    {
        self.grow(alloc, rec)?;
        Ok(())
    }

    fn allows(&self, next: &LogRec) -> bool
        ensures { result ≡ follows_by self.now next.now }
    {
        match next {
            LogRec::Boot { boot } => is_above(self.greatest, *boot),
            LogRec::Ready { node, key, .. }
            | LogRec::Commit { node, key, .. }
            | LogRec::Heuristic { node, key, .. }
            | LogRec::Damage { node, key, .. }
            | LogRec::End { node, key, .. } => self.seen(*node, *key).may_follow(next),
        }
    }

    /// What the rules read for a record of the key.
    fn seen(&self, node: u16, key: NodeKey) -> Seen<'_>
        ensures { before_of result ≡ before_by self.now (owner node key) }
    {
        let (last, ready) = match self.keys.get(&Owner { node, key }) {
            None => (None, None),
            Some(recent) => (Some(recent.last_record()), recent.last_ready()),
        };
        Seen {
            begun: self.begun,
            boot: self.boot,
            free: self.nodes.is_free(node),
            last,
            ready,
        }
    }

    fn grow(&mut self, alloc: Global, rec: &LogRec) -> Result<(), NoMemory>
        ensures ok { OnOk result (IsWith self.old rec.now self.new) }
        ensures err { OnErr result (IsSame self.old self.new) }
    {
        if let LogRec::Boot { boot } = rec {
            self.begun = true;
            self.greatest = Some(greater(self.greatest, *boot));
            self.boot = *boot;
            return Ok(());
        }
        let Some(owner) = rec.owner() else {
            return Ok(());
        };
        self.grow_at(alloc, &owner, rec)
    }

    /// Takes a record of the key.
    fn grow_at(&mut self, alloc: Global, owner: &Owner, rec: &LogRec) -> Result<(), NoMemory>
        requires { owner_of rec.now ≡ Some owner.now }
        ensures ok { OnOk result (IsWith self.old rec.now self.new) }
        ensures err { OnErr result (IsSame self.old self.new) }
    {
        let binding = self.nodes.prepare(alloc, owner, rec)?;
        self.keys.grow(alloc, owner, rec)?;
        self.nodes.set(owner.node, binding);
        self.begun = true;
        Ok(())
    }
}

// The number is above the greatest, if there is one.
fn is_above(greatest: Option<u64>, number: u64) -> bool
    ensures { result ≡ is_above greatest number }
{
    match greatest {
        None => true,
        Some(greatest) => greatest < number,
    }
}

/// The greater of two boot numbers, where the first may be missing.
pub(crate) fn greater(greatest: Option<u64>, boot: u64) -> u64
    ensures { result ≡ greatest_by greatest boot }
{
    match greatest {
        None => boot,
        Some(greatest) => greatest.max(boot),
    }
}
