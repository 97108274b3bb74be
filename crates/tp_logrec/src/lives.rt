//! The keys of a list that are not at their end, found by their hash.
ghost use Rattle.std.specs.Prelude.{◌≡◌, ◌++◌, cond, Some, None, IfOk, OnOk};
ghost use Rattle.tp_logrec.specs.declared.owner.Owner.{Owner as TheOwner};
ghost use Rattle.tp_logrec.specs.Order.{is_owner, brief_lives};
ghost use Rattle.tp_logrec.specs.Lives.{begun, begun_after, gone_on, with_more, life_at};

use crate::summary::add_life;
use crate::{LogRec, Owner};
use std::alloc::Global;
use std::collections::HashMap;
use std::marker::Model;
use tp_names::NoMemory;

/// A key that is not at its end: the index of its first record since its last End, and copies of its records since then.
#[derive(Drop)]
struct Begun {
    first: usize,
    records: Vec<LogRec>,
}

impl Model for Begun {
    ghost use Rattle.tp_logrec.specs.Lives as lives;

    ghost Value = { lives.Begun };

    ghost view = { λ b. record { first = b.first; records = b.records.items } };
}

impl Begun {
    fn with(alloc: Global, first: usize, rec: &LogRec) -> Result<Begun, NoMemory>
        ensures { IfOk result (λ begun. begun ≡ with_more first None rec.now) }
    {
        let mut records = Vec::new(alloc);
        records.push(rec.copy(alloc)?)?;
        Ok(Begun { first, records })
    }

    fn push(&mut self, alloc: Global, rec: &LogRec) -> Result<(), NoMemory>
        ensures { OnOk result (self.new ≡ gone_on self.old rec.now) }
    {
        self.records.push(rec.copy(alloc)?)?;
        Ok(())
    }
}

/// What is kept of each key that is not at its end.
#[derive(Drop)]
pub(crate) struct Lives {
    keys: HashMap<Owner, Begun>,
}

impl Model for Lives {
    ghost use Rattle.std.specs.Prelude.{List};
    ghost use Rattle.tp_logrec.specs.declared.owner.Owner as owners;
    ghost use Rattle.tp_logrec.specs.Lives as lives;

    ghost Value = { List (owners.Owner × lives.Begun) };

    ghost view = { λ l. l.keys.entries };
}

impl Lives {
    /// None.
    pub(crate) fn new(alloc: Global) -> Lives
        ensures { (o : TheOwner) → begun result o ≡ None }
    {
        Lives {
            keys: HashMap::new(alloc),
        }
    }

    /// Takes the next record of the list, which has that index.
    #[tactic(auto, using(crate::proofs::BegunLives::after_end, crate::proofs::BegunLives::after_put))]
    pub(crate) fn take(&mut self, alloc: Global, i: usize, rec: &LogRec) -> Result<(), NoMemory>
        ensures { OnOk result ((o : TheOwner) → begun self.new o ≡ begun_after i (begun self.old o) o rec.now) }
    {
        let Some(owner) = rec.owner() else {
            return Ok(());
        };
        if rec.is_end() {
            self.end(&owner);
            return Ok(());
        }
        self.put(alloc, i, &owner, rec)
    }

    // Takes the key's next record, which is no End.
    fn put(&mut self, alloc: Global, i: usize, owner: &Owner, rec: &LogRec) -> Result<(), NoMemory>
        ensures { OnOk result ((o : TheOwner)
            → begun self.new o ≡ cond (is_owner owner.now o) (Some (with_more i (begun self.old owner.now) rec.now)) (begun self.old o)) }
    {
        if let Some(begun) = self.keys.get_mut(owner) {
            begun.push(alloc, rec)?;
            return Ok(());
        }
        self.keys.insert(*owner, Begun::with(alloc, i, rec)?)?;
        Ok(())
    }

    // Takes the key away.
    fn end(&mut self, owner: &Owner)
        ensures { (o : TheOwner) → begun self.new o ≡ cond (is_owner owner.now o) None (begun self.old o) }
    {
        self.keys.remove(owner);
    }

    /// Puts what stands of the key that began with this record, if one did, at the end.
    pub(crate) fn add(
        &self,
        alloc: Global,
        i: usize,
        rec: &LogRec,
        short: &mut Vec<LogRec>,
    ) -> Result<(), NoMemory>
        ensures { OnOk result (short.new.items ≡ short.old.items ++ brief_lives (life_at (begun self.now) i rec.now)) }
    {
        let Some(owner) = rec.owner() else {
            return Ok(());
        };
        match self.keys.get(&owner) {
            Some(begun) if begun.first == i => add_life(alloc, short, begun.records.as_slice()),
            _ => Ok(()),
        }
    }
}
