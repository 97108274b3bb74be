//! The branches of a transaction as it keeps them.
ghost use Rattle.std.specs.Prelude.{◌≡◌, ◌+◌, ◌<◌, ◌≤◌, ◌++◌, [], ◌∷◌, true, false, None, Ok, IfOk, OnOk, OnErr, IfSome, length, take, slice_index_or, slice_set, option_copied};
ghost use Rattle.tp_model.specs.Transactions.{Row as RowValue, find_row, all_prepared, fresh_branch, fresh_rows};
ghost use Rattle.tp_commit.specs.Row.{noted_at};
ghost use Rattle.tp_commit.specs.Branch.{standing_rows, seen_at};
ghost use Rattle.tp_commit.specs.RowList.{IsFirstWith};

use crate::row::{Note, Row};
use crate::rows;
use std::alloc::Global;
use std::marker::Model;
use tp_names::{Child, NoMemory};

/// For so many branches memory is taken at the start.
const ROOM: usize = 256;

/// So few branches are looked at one after another.
const FEW: usize = 4;

/// The branches of a transaction in the order in which they were begun, which contracts see as that list. It has the room for
/// 256 from its start on, and so has each copy. It knows whether the numbers of their peers ascend: a branch is then found at
/// once where the numbers follow one another.
#[derive(Debug, Drop)]
pub(crate) struct RowList {
    rows: Vec<Row>,
    ascends: bool,
}

impl Model for RowList {
    ghost use Rattle.std.specs.Prelude.{List};
    ghost use Rattle.tp_model.specs.Transactions.{Row as RowValue};
    ghost use Rattle.tp_commit.specs.RowList.{IsKept};

    ghost Value = { List RowValue };

    ghost view = { λ l. l.rows.items };

    ghost invariant = { IsKept };
}

impl RowList {
    /// No branch, and room for 256.
    pub(crate) fn new(alloc: Global) -> Result<RowList, NoMemory>
        ensures { IfOk result (λ rows. rows ≡ []) }
    {
        Ok(RowList {
            rows: Vec::with_capacity(alloc, ROOM)?,
            ascends: true,
        })
    }

    /// Equal branches, with their own room.
    pub(crate) fn copy(&self, alloc: Global) -> Result<RowList, NoMemory>
        ensures { IfOk result (λ rows. rows ≡ self.now) }
    {
        let mut rows = RowList::new(alloc)?;
        rows.copy_from(self)?;
        Ok(rows)
    }

    /// Becomes equal to that one, in the room that it has. Without memory it stays what it was.
    pub(crate) fn copy_from(&mut self, other: &RowList) -> Result<(), NoMemory>
        ensures copy { OnOk result (self.new ≡ other.now) }
        ensures same { OnErr result (self.new ≡ self.old) }
    {
        if self.rows.len() == other.rows.len() {
            if !other.rows.is_empty() {
                self.rows.copy_from_slice(other.rows.as_slice());
            }
        } else {
            if self.rows.capacity() < other.rows.len() {
                self.rows.reserve(other.rows.len())?;
            }
            self.rows.clear();
            self.rows.extend_from_slice(other.rows.as_slice())?;
        }
        self.ascends = other.ascends;
        Ok(())
    }

    /// No branch any more; the room stays.
    pub(crate) fn clear(&mut self)
        ensures { self.new ≡ [] }
    {
        self.rows.clear();
        self.ascends = true;
    }

    pub(crate) fn as_slice(&self) -> &[Row]
        ensures { result.now ≡ self.now }
    {
        self.rows.as_slice()
    }

    pub(crate) fn len(&self) -> usize
        ensures { result ≡ length self.now }
    {
        self.rows.len()
    }

    /// Adds a branch after the others, of which nothing is known but whether its arc is live. It takes no memory where there are
    /// fewer than 256; without memory nothing changes.
    #[tactic(auto, using(crate::proofs::Ascending::ascends_longer))]
    pub(crate) fn begin(&mut self, child: &Child, live: bool) -> Result<(), NoMemory>
        ensures added { OnOk result (self.new ≡ self.old ++ record { branch = fresh_branch child.now; live = live; ends = false } ∷ []) }
        ensures memory { length self.old < 256 → result ≡ Ok tt }
        ensures same { OnErr result (self.new ≡ self.old) }
    {
        if self.rows.len() == self.rows.capacity() {
            self.rows.reserve(1)?;
        }
        self.ascends = self.ascends && rows::ends_below(self.rows.as_slice(), child.addr.node);
        self.rows.push_reserved(Row::fresh(child, live));
        Ok(())
    }

    /// Branches are begun. It takes no memory where there is none to begin, or no more than 256 with them; without memory none
    /// is begun.
    pub(crate) fn begin_each(&mut self, arcs: &[Child]) -> Result<(), NoMemory>
        ensures begun { OnOk result (self.new ≡ self.old ++ fresh_rows arcs.now) }
        ensures memory { length arcs.now ≡ 0 → result ≡ Ok tt }
        ensures reserved { length self.old + length arcs.now ≤ 256 → result ≡ Ok tt }
        ensures same { OnErr result (self.new ≡ self.old) }
    {
        let before = self.rows.len();
        for child in arcs {
            if let Err(error) = self.begin(child, true) {
                self.keep_first(before);
                return Err(error);
            }
        }
        Ok(())
    }

    // The first so many stay.
    fn keep_first(&mut self, count: usize)
        ensures { self.new ≡ take count self.old }
    {
        self.rows.truncate(count);
        self.ascends = false;
    }

    // The place of the first branch with that peer, where the branches are not few, the numbers of the peers ascend, and those
    // from the first branch to this one follow one another.
    #[tactic(auto, using(crate::proofs::Ascending::first_with))]
    fn place(&self, peer: u16) -> Option<usize>
        ensures { IfSome result (λ place. IsFirstWith self.now peer place) }
    {
        if self.rows.len() < FEW || !self.ascends {
            return None;
        }
        let first = self.rows.first()?;
        let place = usize::from(peer.wrapping_sub(first.peer.node));
        if place < self.rows.len() && self.rows[place].peer.node == peer {
            Some(place)
        } else {
            None
        }
    }

    // The numbers of the peers ascend, and that number is above them all.
    #[tactic(auto, using(crate::proofs::Ascending::none_beyond))]
    fn ends_below(&self, peer: u16) -> bool
        ensures { result ≡ true → find_row self.now peer ≡ None }
    {
        self.ascends && rows::ends_below(self.rows.as_slice(), peer)
    }

    /// The first branch with that peer.
    #[tactic(auto, using(crate::proofs::Ascending::found_first))]
    pub(crate) fn find(&self, peer: u16) -> Option<&Row>
        ensures { option_copied result ≡ find_row self.now peer }
    {
        match self.place(peer) {
            Some(place) => Some(&self.rows[place]),
            None if self.ends_below(peer) => None,
            None => rows::find(self.rows.as_slice(), peer),
        }
    }

    /// Notes it on the first branch with that peer.
    #[tactic(auto, using(crate::proofs::Ascending::noted_first))]
    pub(crate) fn note_at(&mut self, peer: u16, note: Note)
        ensures { self.new ≡ noted_at self.old peer note }
    {
        match self.place(peer) {
            Some(place) => self.rows[place].note(note),
            None => rows::note_at(self.rows.as_mut_slice(), peer, note),
        }
    }

    /// Sees the arc of the branch at that place anew.
    #[tactic(auto, using(crate::proofs::Ascending::ascends_seen))]
    pub(crate) fn see(&mut self, place: usize, live: bool, ends: bool)
        requires { place < length self.old }
        ensures { (d : RowValue) → self.new ≡ slice_set self.old place (seen_at live ends (slice_index_or self.old place d)) }
    {
        self.rows[place].see(live, ends);
    }

    /// Prepare has been sent on each branch.
    pub(crate) fn prepare_all(&mut self)
        ensures { self.new ≡ all_prepared self.old }
    {
        rows::prepare_all(self.rows.as_mut_slice());
    }

    /// How the branches stand after an event.
    pub(crate) fn stand(&mut self, rolls: bool)
        ensures { self.new ≡ standing_rows rolls self.old }
    {
        rows::stand(self.rows.as_mut_slice(), rolls);
    }
}
