//! The keys that are in doubt, found by their hash.
ghost use Rattle.std.specs.Prelude.{◌≡◌, cond, true, false, OnOk};
ghost use Rattle.tp_logrec.specs.declared.owner.Owner.{Owner as TheOwner};
ghost use Rattle.tp_logrec.specs.Order.{is_owner};
ghost use Rattle.tp_greeting.specs.Doubts.{doubted_by, is_in};

use std::alloc::{AllocError, Global};
use std::collections::HashSet;
use std::marker::Model;
use tp_logrec::{LogRec, Owner};
use tp_names::{BranchId, NodeKey};

/// The keys whose last record is a Ready: a node has voted, and its log does not say how the transaction ends.
#[derive(Drop)]
pub struct Doubts {
    keys: HashSet<Owner>,
}

impl Model for Doubts {
    ghost use Rattle.std.specs.Prelude.{List};
    ghost use Rattle.tp_logrec.specs.declared.owner.Owner as owners;

    ghost Value = { List owners.Owner };

    ghost view = { λ d. d.keys.keys };
}

impl Doubts {
    /// None.
    pub fn new(alloc: Global) -> Doubts
        ensures { (o : TheOwner) → is_in result o ≡ false }
    {
        Doubts {
            keys: HashSet::new(alloc),
        }
    }

    /// Takes the next record.
    #[tactic(auto, using(crate::proofs::Doubting::after_ready, crate::proofs::Doubting::after_other))]
    pub fn take(&mut self, rec: &LogRec) -> Result<(), AllocError>
        ensures { OnOk result ((o : TheOwner) → is_in self.new o ≡ doubted_by o (is_in self.old o) rec.now) }
    {
        let Some(owner) = rec.owner() else {
            return Ok(());
        };
        if !rec.is_ready() {
            self.end(&owner);
            return Ok(());
        }
        self.begin(&owner)
    }

    // The key is in doubt.
    fn begin(&mut self, owner: &Owner) -> Result<(), AllocError>
        ensures { OnOk result ((o : TheOwner) → is_in self.new o ≡ cond (is_owner owner.now o) true (is_in self.old o)) }
    {
        // (the compiler wants the types inside an owner to be named)
        let _branch: Option<BranchId> = None;
        let _key: Option<NodeKey> = None;
        self.keys.insert(*owner)?;
        Ok(())
    }

    // It is in doubt no more.
    fn end(&mut self, owner: &Owner)
        ensures { (o : TheOwner) → is_in self.new o ≡ cond (is_owner owner.now o) false (is_in self.old o) }
    {
        self.keys.remove(owner);
    }

    /// How many there are.
    pub fn len(&self) -> usize {
        self.keys.len()
    }
}
