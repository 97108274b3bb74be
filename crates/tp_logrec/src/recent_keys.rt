//! The keys that are not at their end, found by their hash.
ghost use Rattle.std.specs.Prelude.{◌≡◌, OnErr, OnOk, List, Option, cond, Some, None};
ghost use Rattle.std.specs.Option.{option_copied};
ghost use Rattle.tp_logrec.specs.declared.owner.Owner.{Owner as TheOwner};
ghost use Rattle.tp_logrec.specs.Order.{is_owner, owner_of};
ghost use Rattle.tp_logrec.specs.OrderCheck.{recent, recent_with, recent_after};

use crate::recent::Recent;
use crate::{LogRec, Owner};
use std::alloc::Global;
use std::collections::HashMap;
use std::marker::Model;
use tp_names::NoMemory;

/// What the order reads of each key that is not at its end.
#[derive(Drop)]
pub(crate) struct RecentKeys {
    keys: HashMap<Owner, Recent>,
}

impl Model for RecentKeys {
    ghost use Rattle.std.specs.Prelude.{List};
    ghost use Rattle.tp_logrec.specs.declared.owner.Owner as owners;
    ghost use Rattle.tp_logrec.specs.OrderCheck as checks;

    ghost Value = { List (owners.Owner × checks.Recent) };

    ghost view = { λ k. k.keys.entries };
}

impl RecentKeys {
    /// No keys.
    pub(crate) fn new(alloc: Global) -> RecentKeys
        ensures { (o : TheOwner) → recent result o ≡ None }
    {
        RecentKeys {
            keys: HashMap::new(alloc),
        }
    }

    /// That of the key, if it is not at its end.
    pub(crate) fn get(&self, owner: &Owner) -> Option<&Recent>
        ensures { option_copied result ≡ recent self.now owner.now }
    {
        self.keys.get(owner)
    }

    /// Takes the key's next record. Without memory nothing changes.
    #[tactic(auto, using(crate::proofs::OrderChecks::after_end, crate::proofs::OrderChecks::after_put))]
    pub(crate) fn grow(
        &mut self,
        alloc: Global,
        owner: &Owner,
        rec: &LogRec,
    ) -> Result<(), NoMemory>
        requires { owner_of rec.now ≡ Some owner.now }
        ensures ok { OnOk result ((o : TheOwner) → recent self.new o ≡ recent_after (recent self.old o) o rec.now) }
        ensures err { OnErr result ((o : TheOwner) → recent self.new o ≡ recent self.old o) }
    {
        if rec.is_end() {
            self.end(owner);
            return Ok(());
        }
        self.put(alloc, owner, rec)
    }

    /// Takes a copy of the key's next record, which is no End. Without memory nothing changes.
    fn put(&mut self, alloc: Global, owner: &Owner, rec: &LogRec) -> Result<(), NoMemory>
        ensures ok { OnOk result ((o : TheOwner)
            → recent self.new o ≡ cond (is_owner owner.now o) (Some (recent_with (recent self.old owner.now) rec.now)) (recent self.old o)) }
        ensures err { OnErr result ((o : TheOwner) → recent self.new o ≡ recent self.old o) }
    {
        let next = Recent::begin(alloc, rec)?;
        if let Some(recent) = self.keys.get_mut(owner) {
            recent.go_on(next);
            return Ok(());
        }
        self.keys.insert(*owner, next)?;
        Ok(())
    }

    /// Takes the key away.
    fn end(&mut self, owner: &Owner)
        ensures { (o : TheOwner) → recent self.new o ≡ cond (is_owner owner.now o) None (recent self.old o) }
    {
        self.keys.remove(owner);
    }
}
