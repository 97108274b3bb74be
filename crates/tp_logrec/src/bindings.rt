//! The keys that bind each node, found by the node's number.
ghost use Rattle.std.specs.Prelude.{ℕ, ◌≡◌, ◌++◌, ◌∷◌, OnOk, IfOk, cond, ◌==◌, true, []};
ghost use Rattle.tp_logrec.specs.Order.{bound_by, others};
ghost use Rattle.tp_logrec.specs.OrderCheck.{binding, has_node, is_none};

use crate::same::is_owner;
use crate::{LogRec, Owner};
use std::alloc::Global;
use std::collections::HashMap;
use std::marker::Model;
use tp_names::NoMemory;

/// The keys of one node whose last record is a Ready, a Heuristic or a Commit. In a list in order it is at most one.
#[derive(Drop)]
pub(crate) struct Binding {
    owners: Vec<Owner>,
}

impl Model for Binding {
    ghost use Rattle.std.specs.Prelude.{List};
    ghost use Rattle.tp_logrec.specs.declared.owner.Owner as owning;

    ghost Value = { List owning.Owner };

    ghost view = { λ b. b.owners.items };
}

impl Binding {
    fn new(alloc: Global) -> Binding
        ensures { result ≡ [] }
    {
        Binding {
            owners: Vec::new(alloc),
        }
    }

    fn is_free(&self) -> bool
        ensures { result ≡ is_none self.now }
    {
        self.owners.is_empty()
    }

    /// Those after a record of the key.
    fn behind(&self, alloc: Global, owner: &Owner, rec: &LogRec) -> Result<Binding, NoMemory>
        ensures { IfOk result (λ next. next ≡ bound_by self.now owner.now rec.now) }
    {
        let mut owners = others(alloc, self.owners.as_slice(), owner)?;
        if rec.is_bound() {
            owners.push(*owner)?;
        }
        Ok(Binding { owners })
    }
}

/// All but the key.
fn others(alloc: Global, owners: &[Owner], owner: &Owner) -> Result<Vec<Owner>, NoMemory>
    ensures { IfOk result (λ left. left.items ≡ others owners.now owner.now) }
{
    let mut left = Vec::new(alloc);
    for other in owners {
        if is_owner(other, owner) {
            continue;
        }
        left.push(*other)?;
    }
    Ok(left)
}

/// The keys that bind each node.
#[derive(Drop)]
pub(crate) struct Bindings {
    nodes: HashMap<u16, Binding>,
}

impl Model for Bindings {
    ghost use Rattle.std.specs.Prelude.{ℕ, List};
    ghost use Rattle.tp_logrec.specs.declared.owner.Owner as owning;

    ghost Value = { List (ℕ × List owning.Owner) };

    ghost view = { λ b. b.nodes.entries };
}

impl Bindings {
    /// No node is bound.
    pub(crate) fn new(alloc: Global) -> Bindings
        ensures { (n : ℕ) → binding result n ≡ [] }
    {
        Bindings {
            nodes: HashMap::new(alloc),
        }
    }

    /// No key binds the node.
    pub(crate) fn is_free(&self, node: u16) -> bool
        ensures { result ≡ is_none (binding self.now node) }
    {
        match self.nodes.get(&node) {
            None => true,
            Some(binding) => binding.is_free(),
        }
    }

    /// What binds the key's node after the record; the node gets an entry.
    pub(crate) fn prepare(
        &mut self,
        alloc: Global,
        owner: &Owner,
        rec: &LogRec,
    ) -> Result<Binding, NoMemory>
        ensures ok { IfOk result (λ next. next ≡ bound_by (binding self.old owner.now.node) owner.now rec.now) }
        ensures entry { OnOk result (has_node self.new owner.now.node ≡ true) }
        ensures same { (n : ℕ) → binding self.new n ≡ binding self.old n }
    {
        if let Some(binding) = self.nodes.get(&owner.node) {
            return binding.behind(alloc, owner, rec);
        }
        let none = Binding::new(alloc);
        let next = none.behind(alloc, owner, rec)?;
        self.nodes.insert(owner.node, none)?;
        Ok(next)
    }

    /// Puts what binds the node in place of what did.
    pub(crate) fn set(&mut self, node: u16, next: Binding)
        requires { has_node self.old node ≡ true }
        ensures { (n : ℕ) → binding self.new n ≡ cond (node == n) next (binding self.old n) }
    {
        let Some(binding) = self.nodes.get_mut(&node) else {
            return;
        };
        *binding = next;
    }
}
