//! The current transaction of a node.
ghost use Rattle.std.specs.Prelude.{◌≡◌, ◌<◌, ◌&&◌, ◌++◌, [], ◌∷◌, true, false, IsTrue, Ok, IfOk, OnOk, OnErr, Some, length, slice_index_or, slice_set};
ghost use Rattle.tp_model.specs.Transactions.{Row as RowValue, node_key, superior_of, situation_of, row_holds, is_under, is_under_at, fresh_branch};
ghost use Rattle.tp_model.specs.Node.{branches_of};
ghost use Rattle.tp_commit.specs.Waiting.{waits_beside, owes_beside};
ghost use Rattle.tp_commit.specs.Branch.{key_from, has_superior, begun, found, found_by, tells_transaction, idle_rows, child_at, seen_at};

use crate::row_list::RowList;
use crate::rows;
use std::alloc::Global;
use std::marker::Model;
use tp_logrec::LogRec;
use tp_model::{Phase, Situation};
use tp_names::{Addr, BranchId, Child, NoMemory, NodeKey, Outcome, Report};

/// The current transaction of a node, which contracts see as the transaction of the definitions. It has the room for 256
/// branches from its start on, and so has each copy.
#[derive(Debug, Drop)]
pub struct Branch {
    pub(crate) node: u16,
    pub(crate) key: NodeKey,
    pub(crate) superior: Option<Addr>,
    pub(crate) phase: Phase,
    pub(crate) up: bool,
    pub(crate) up_ends: bool,
    pub(crate) rows: RowList,
    pub(crate) told_prepare: bool,
    pub(crate) asked: bool,
    pub(crate) owes: bool,
    pub(crate) superior_rolled: bool,
    pub(crate) decision: Option<Outcome>,
    pub(crate) own: Report,
}

impl Model for Branch {
    ghost use Rattle.tp_model.specs.Transactions.{Transaction};

    ghost Value = { Transaction };

    ghost use Rattle.tp_commit.specs.Branch.{transaction_of, IsKept};

    ghost view = { transaction_of };

    ghost invariant = { IsKept };
}

// Branches that a record of the log names.
fn idle_rows(alloc: Global, children: &[Child]) -> Result<RowList, NoMemory>
    ensures { IfOk result (λ rows. rows ≡ idle_rows children.now) }
{
    let mut rows = RowList::new(alloc)?;
    for child in children {
        rows.begin(child, false)?;
    }
    Ok(rows)
}

// A transaction as the log tells it.
fn found(
    node: u16,
    key: NodeKey,
    superior: Option<Addr>,
    phase: Phase,
    rows: RowList,
    decision: Option<Outcome>,
) -> Branch
    requires { IsTrue (has_superior key superior) }
    ensures { result ≡ record (found node (key_from key superior) phase [] decision) { rows = rows } }
{
    Branch {
        node,
        key,
        superior,
        phase,
        up: false,
        up_ends: false,
        rows,
        told_prepare: false,
        asked: false,
        owes: phase == Phase::Committing,
        superior_rolled: false,
        decision,
        own: Report::None,
    }
}

impl Branch {
    // Promise 10.11: A transaction begins, where its superior's arc is live and no end is deferred
    //   on it, and is found again in the log, as what is known of the node says
    /// A transaction of that node begins: active, without a branch. The superior is given where the key
    /// has a branch; a root's transaction has none, whatever is given. Takes the room for its branches.
    pub fn begin(
        alloc: Global,
        node: u16,
        key: NodeKey,
        superior: Option<Addr>,
    ) -> Result<Branch, NoMemory>
        requires { IsTrue (has_superior key superior) }
        ensures { IfOk result (λ branch. branch ≡ begun node (key_from key superior)) }
    {
        let is_under = key.branch.is_some();
        Ok(Branch {
            node,
            key,
            superior,
            phase: Phase::Active,
            up: is_under,
            up_ends: false,
            rows: RowList::new(alloc)?,
            told_prepare: false,
            asked: false,
            owes: false,
            superior_rolled: false,
            decision: None,
            own: Report::None,
        })
    }

    // Promise 10.11, part 5
    /// A transaction of that node begins in the room of this one, which is gone: active, without a branch. The superior is given
    /// as above.
    pub fn begin_anew(&mut self, node: u16, key: &NodeKey, superior: &Option<Addr>)
        requires { IsTrue (has_superior key.now superior.now) }
        ensures { self.new ≡ begun node (key_from key.now superior.now) }
    {
        let is_under = key.branch.is_some();
        self.node = node;
        self.key = *key;
        self.superior = *superior;
        self.phase = Phase::Active;
        self.up = is_under;
        self.up_ends = false;
        self.rows.clear();
        self.told_prepare = false;
        self.asked = false;
        self.owes = false;
        self.superior_rolled = false;
        self.decision = None;
        self.own = Report::None;
    }

    // Promise 10.11, part 2
    /// The transaction that a Ready or a Commit of the log tells, with the node's own decision: no arc of
    /// it is live, and where commit was ordered the user owes done. Takes the room for its branches. Where
    /// the key of a Commit has a branch, the record names the superior.
    pub fn again(alloc: Global, rec: &LogRec, decision: Option<Outcome>) -> Result<Branch, NoMemory>
        requires { IsTrue (tells_transaction rec.now) }
        ensures { IfOk result (λ branch. Some branch ≡ found_by rec.now decision) }
    {
        match rec {
            LogRec::Ready {
                node,
                key,
                superior,
                children,
            } => Ok(found(
                *node,
                *key,
                Some(*superior),
                Phase::Ready,
                idle_rows(alloc, children.as_slice())?,
                decision,
            )),
            LogRec::Commit {
                node,
                key,
                superior,
                children,
            } => Ok(found(
                *node,
                *key,
                *superior,
                Phase::Committing,
                idle_rows(alloc, children.as_slice())?,
                decision,
            )),
            LogRec::Boot { .. }
            | LogRec::Heuristic { .. }
            | LogRec::Damage { .. }
            | LogRec::End { .. } => unreachable!(),
        }
    }

    /// An equal transaction, with its own room.
    pub fn copy(&self, alloc: Global) -> Result<Branch, NoMemory>
        ensures { IfOk result (λ branch. branch ≡ self.now) }
    {
        Ok(Branch {
            node: self.node,
            key: self.key,
            superior: self.superior,
            phase: self.phase,
            up: self.up,
            up_ends: self.up_ends,
            rows: self.rows.copy(alloc)?,
            told_prepare: self.told_prepare,
            asked: self.asked,
            owes: self.owes,
            superior_rolled: self.superior_rolled,
            decision: self.decision,
            own: self.own,
        })
    }

    /// Becomes equal to that one, in the room that it has. Without memory it stays what it was.
    pub fn copy_from(&mut self, other: &Branch) -> Result<(), NoMemory>
        ensures copy { OnOk result (self.new ≡ other.now) }
        ensures same { OnErr result (self.new ≡ self.old) }
    {
        self.rows.copy_from(&other.rows)?;
        self.node = other.node;
        self.key = other.key;
        self.superior = other.superior;
        self.phase = other.phase;
        self.up = other.up;
        self.up_ends = other.up_ends;
        self.told_prepare = other.told_prepare;
        self.asked = other.asked;
        self.owes = other.owes;
        self.superior_rolled = other.superior_rolled;
        self.decision = other.decision;
        self.own = other.own;
        Ok(())
    }

    /// Where the transaction stands; `Nil` once it is over.
    pub fn phase(&self) -> Phase
        ensures { result ≡ self.now.phase }
    {
        self.phase
    }

    /// Whether the node has asked.
    pub fn has_asked(&self) -> bool
        ensures { result ≡ self.now.asked }
    {
        self.asked
    }

    /// The node's own decision, until it rolls.
    pub fn decision(&self) -> Option<Outcome>
        ensures { result ≡ self.now.decision }
    {
        self.decision
    }

    /// The log tells of a decision of the node's own.
    pub fn decide(&mut self, outcome: Outcome)
        ensures { self.new ≡ record self.old { decision = Some outcome } }
    {
        self.decision = Some(outcome);
    }

    /// Whether the user owes its done.
    pub fn owes(&self) -> bool
        ensures { result ≡ self.now.owes }
    {
        self.owes
    }

    /// The node's place in its tree.
    pub fn key(&self) -> &NodeKey
        ensures { result.now ≡ node_key self.now.key }
    {
        &self.key
    }

    /// The superior's address: none exactly where the key has no branch.
    pub fn superior(&self) -> Option<Addr>
        ensures { result ≡ superior_of self.now.key }
    {
        match self.key.branch {
            None => None,
            Some(_) => self.superior,
        }
    }

    /// How many branches it has.
    pub fn branches(&self) -> usize
        ensures { result ≡ length self.now.rows }
    {
        self.rows.len()
    }

    /// The address of the branch at that place, counted from 0.
    pub fn branch_peer(&self, place: usize) -> Addr
        requires { place < length self.now.rows }
        ensures { (d : RowValue) → result ≡ (slice_index_or self.now.rows place d).branch.peer }
    {
        let row = &self.rows.as_slice()[place];
        row.peer
    }

    /// Sees the superior's arc anew, as a transaction of that node: whether it is live, and whether an end
    /// is deferred on it. A root's transaction has none.
    pub fn see_superior(&mut self, node: u16, live: bool, ends: bool)
        ensures { self.new ≡ record self.old { node = node; up = is_under self.old.key && live; up_ends = is_under self.old.key && ends } }
    {
        let is_under = self.key.branch.is_some();
        self.node = node;
        self.up = is_under && live;
        self.up_ends = is_under && ends;
    }

    /// Sees the arc of the branch at that place anew. Whether it is live matters as long as the branch is
    /// neither ended nor left.
    pub fn see_branch(&mut self, place: usize, live: bool, ends: bool)
        requires { place < length self.old.rows }
        ensures { (d : RowValue) → self.new
            ≡ record self.old { rows = slice_set self.old.rows place (seen_at live ends (slice_index_or self.old.rows place d)) } }
    {
        self.rows.see(place, live, ends);
    }

    // Promise 10.10, part 2
    /// Adds a branch after the others, of which nothing is known but that its arc is live. It takes no memory where there are
    /// fewer than 256; without memory nothing changes.
    pub fn add(&mut self, child: &Child) -> Result<(), NoMemory>
        ensures added { OnOk result (self.new
            ≡ record self.old { rows = self.old.rows ++ record { branch = fresh_branch child.now; live = true; ends = false } ∷ [] }) }
        ensures memory { length self.old.rows < 256 → result ≡ Ok tt }
        ensures same { OnErr result (self.new ≡ self.old) }
    {
        self.rows.begin(child, true)
    }

    /// A branch with another peer is neither counted nor left.
    pub fn waits_beside(&self, peer: u16) -> bool
        ensures { result ≡ waits_beside (branches_of self.now.rows) peer }
    {
        rows::waits_beside(self.rows.as_slice(), peer)
    }

    /// A branch with another peer is neither done, left nor given up.
    pub fn owes_beside(&self, peer: u16) -> bool
        ensures { result ≡ owes_beside (branches_of self.now.rows) peer }
    {
        rows::owes_beside(self.rows.as_slice(), peer)
    }

    /// The transaction came over the arc with that peer.
    pub(crate) fn is_under_at(&self, arc: u16) -> bool
        ensures { result ≡ is_under_at self.now.key arc }
    {
        match (self.key.branch, self.superior) {
            (Some(_), Some(superior)) => superior.node == arc,
            _ => false,
        }
    }

    /// The arc with that peer is the transaction's: it came over it, or a branch is on it.
    #[tactic(auto, unfolding(tp_model::specs::Transactions::situation_of))]
    pub fn has_arc(&self, arc: u16) -> bool
        ensures { result ≡ (situation_of self.now arc).branch }
    {
        self.is_under_at(arc) || self.rows.find(arc).is_some()
    }

    /// What the dialogue with that peer is to know of the transaction.
    #[tactic(auto, unfolding(tp_model::specs::Transactions::situation_of))]
    pub fn situation(&self, arc: u16) -> Situation
        ensures { result ≡ situation_of self.now arc }
    {
        let row = self.rows.find(arc);
        Situation {
            branch: self.is_under_at(arc) || row.is_some(),
            phase: self.phase,
            asked: self.asked,
            prepared: row.is_some_and(|row| row.prepared),
            done: row.is_some_and(|row| row.ended),
            left: row.is_some_and(|row| row.left),
        }
    }

    /// The address of that branch: none exactly where it is no branch of the transaction.
    pub fn child(&self, branch: &BranchId) -> Option<Addr>
        ensures { result ≡ child_at self.now.rows branch.now }
    {
        let row = rows::find_by_id(self.rows.as_slice(), branch)?;
        Some(row.peer)
    }
}
