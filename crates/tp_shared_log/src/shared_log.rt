//! A journal under a lock, with the records that stood when it was put there.
ghost use Rattle.std.specs.Prelude.{◌≡◌, ◌<◌, ◌≤◌, ◌||◌, true, length, is_some, None, IfOk, IfErr};
ghost use Rattle.tp_journal.specs.Log.{most_bytes};
ghost use Rattle.tp_journal.specs.Records.{placed};
ghost use Rattle.tp_shared_log.specs.Locks.{Extends, ShutRose, HadNoRoom};
ghost use Rattle.tp_shared_log.specs.Images.{Leaves};

use crate::locked::Locked;
use crate::{Stood, Unfit};
use std::alloc::Global;
use std::marker::Model;
use std::sync::ledger::{Blank, Ledger, Share};
use tp_journal::{Gathering, Journal, Keeper, Receipt};
use tp_names::NoMemory;
use tp_outside::Disk;
use tp_turns::Turns;

/// A journal under a lock. The records that stood when it was put there are kept beside the lock and never change; each has a
/// text.
#[derive(Drop)]
pub struct SharedLog<D: Disk, L: Stood, M: Ledger> {
    pub(crate) stood: Vec<Receipt>,
    pub(crate) wide: bool,
    pub(crate) turns: Turns<Locked<D, L, M>, Receipt>,
}

// Contracts see which log it is.
impl<D: Disk, L: Stood, M: Ledger> Model for SharedLog<D, L, M> {
    ghost use Rattle.atomic_table.specs.Seated.{TableId};
    ghost use Rattle.std.specs.Prelude.{◌≡◌};
    ghost use Rattle.std.specs.List.{All};
    ghost use Rattle.tp_journal.specs.Records.{HasText};

    ghost Value = { TableId };

    ghost view = { λ s. s.turns.table.shared.table_id };

    ghost invariant = { λ s. (s.stood.items ≡ L.stood) × (s.wide ≡ L.wide) × All (λ r. HasText L.wide r.rec) L.stood };
}

impl<D: Disk, L: Stood, M: Ledger> SharedLog<D, L, M> {
    /// Puts a journal under a lock, and opens both ledgers. Each share has every part.
    pub fn new(
        alloc: Global,
        journal: Journal<D>,
        first: Blank,
        second: Blank,
        shares: u16,
    ) -> Result<(SharedLog<D, L, M>, Share<L>, Share<M>), (Journal<D>, NoMemory)>
        requires open { journal.shut ≡ None }
        requires shares { (1 ≤ shares) × (shares ≤ 16) }
        requires stood { (L.stood ≡ placed journal.wide journal.list) × (L.faults ≡ D.fault_count journal.disk) × (L.wide ≡ journal.wide)
            × (L.shares ≡ shares) × (L.story ≡ D.told journal.disk) }
        requires first { (first.name ≡ L.name) × (first.parts ≡ L.parts) }
        requires second { (second.name ≡ M.name) × (second.parts ≡ M.parts) × (0 < second.parts) }
        ensures part { IfOk result (λ made. (made.1.parts ≡ L.parts) × (made.1.amount ≡ 0)) }
        ensures stake { IfOk result (λ made. (made.2.parts ≡ M.parts) × (made.2.amount ≡ shares)) }
        // Promise 5.8: A journal that could not be put under a lock comes back as it was
        ensures err { IfErr result (λ e. e.0 ≡ journal) }
    {
        let Ok(stood) = receipts_told(alloc, &journal) else {
            return Err((journal, NoMemory));
        };
        journal.texts();
        let wide = journal.wide();
        let journal = Gathering::new(alloc, journal)?;
        let (locked, part, stake) = Locked::<D, L, M>::new(journal, first, second, shares);
        let turns = match Turns::new(alloc, locked) {
            Ok(turns) => turns,
            Err(locked) => return Err((locked.into_journal(), NoMemory)),
        };
        let log = SharedLog { stood, wide, turns };
        Ok((log, part, stake))
    }

    /// Settles what is noted. The journal, and the first record that had no room, go to whoever has all parts again. The
    /// journal has the records that stood and as many more as the amount of the parts. Where the amount of the stakes is
    /// below the number of shares, the journal is shut, or a record had no room. A log that has got more records is within its
    /// limit. A crash now leaves the journal's records; of a shut one the first of them, at least those that stood.
    pub fn close(self, all: Share<L>, stakes: Share<M>) -> (Journal<D>, Option<Unfit>)
        requires all { all.parts ≡ L.parts }
        requires stakes { stakes.parts ≡ M.parts }
        // Promise 5.1: The journal's list begins with the records that stood, and has as many more
        //   as were noted through shares
        ensures list { Extends L.stood all.amount (placed result.0.wide result.0.list) }
        ensures wide { result.0.wide ≡ L.wide }
        // Promise 5.5: A journal that is shut has counted a fault since it was put under the lock
        ensures shut { ShutRose L.faults result.0.shut (D.fault_count result.0.disk) }
        // Promise 5.6: A crash at the close leaves the journal's records, or, of a shut one, those
        //   that stood and the first so many of the others; one at any moment since the journal was
        //   put under the lock left the first so many of them, at least those that stood
        ensures images { Leaves L.story (length L.stood) result.0.wide result.0.list result.0.shut (D.told result.0.disk) }
        // Promise 5.4 [clauses spent unfit]: A spent stake means a journal that is shut, or a
        //   record that had no room
        ensures spent { stakes.amount < L.shares → (is_some result.0.shut || is_some result.1) ≡ true }
        ensures unfit { HadNoRoom result.0.gate result.1 }
        // Promise 5.10: A log that has got records under its lock is within its limit
        ensures room { 0 < all.amount → result.0.gate < most_bytes }
    {
        let SharedLog {
            stood: _,
            wide: _,
            turns,
        } = self;
        turns.into_value().close(all, stakes)
    }
}

// The records that a keeper tells, with their places.
fn receipts_told<K: Keeper>(alloc: Global, keeper: &K) -> Result<Vec<Receipt>, NoMemory>
    ensures { IfOk result (λ told. told.items ≡ (K.standing keeper.now).told) }
{
    let mut told = Vec::new(alloc);
    for i in 0..keeper.count() {
        let rec = keeper.rec(i).copy(alloc)?;
        told.push(Receipt {
            place: keeper.place(i),
            rec,
        })?;
    }
    Ok(told)
}
