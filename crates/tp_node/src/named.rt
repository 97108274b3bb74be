//! The transaction of a node that a recovery record speaks of: the current one, a kept one, or both.
ghost use Rattle.std.specs.Prelude.{◌≡◌};
ghost use Rattle.std.specs.Option.{is_some};
ghost use Rattle.tp_node.specs.Replies.{is_current_committing};
ghost use Rattle.tp_model.specs.Arrivals.{branch_key, current_with, named_by_key, named_by_branch, key_of_branch, key_of_kept, kept_superior, child_addr, known_of, is_current_ready};

use crate::node::Node;
use tp_model::{Known, Phase};
use tp_names::{Aaid, Addr, BranchId, NodeKey};
use tp_node_state::kept;

impl Node {
    /// What is known of a transaction of that key, and whether it has that branch.
    #[tactic(auto, using(crate::proofs::BranchesById::known_there))]
    pub fn known_by_key(&self, key: &NodeKey, branch: &BranchId) -> Known
        ensures { result ≡ known_of (named_by_key self.now.digest key.now) branch.now }
    {
        let kept = match self.kept_with(key) {
            None => None,
            Some(kept) => Some((kept.side, kept.report)),
        };
        match self.current_with(key) {
            None => Known {
                phase: Phase::Nil,
                branch: false,
                kept,
            },
            Some(current) => Known {
                phase: current.phase(),
                branch: current.child(branch).is_some(),
                kept,
            },
        }
    }

    /// The superior's address, as the transaction of that key keeps it.
    pub(crate) fn superior_by_key(&self, key: &NodeKey) -> Option<Addr>
        ensures { result ≡ kept_superior (named_by_key self.now.digest key.now) }
    {
        match self.current_with(key) {
            Some(current) => current.superior(),
            None => self.kept_with(key)?.superior,
        }
    }

    /// The address of that branch, as the transaction of that key keeps it.
    #[tactic(auto, using(crate::proofs::BranchesById::child_known))]
    pub(crate) fn child_by_key(&self, key: &NodeKey, branch: &BranchId) -> Option<Addr>
        ensures { result ≡ child_addr (named_by_key self.now.digest key.now) branch.now }
    {
        match self.current_with(key) {
            Some(current) => current.child(branch),
            None => {
                let kept = self.kept_with(key)?;
                let child = kept::find_owed(kept.owed.as_slice(), branch)?;
                Some(child.addr)
            }
        }
    }

    /// The current transaction has that key, and is ready.
    pub fn is_ready_by_key(&self, key: &NodeKey) -> bool
        ensures { result ≡ is_current_ready (named_by_key self.now.digest key.now) }
    {
        match self.current_with(key) {
            None => false,
            Some(current) => current.phase() == Phase::Ready,
        }
    }

    /// The current transaction has that key.
    pub fn has_current_key(&self, key: &NodeKey) -> bool
        ensures { result ≡ is_some (current_with self.now.digest key.now) }
    {
        self.current_with(key).is_some()
    }

    /// The current transaction has that key, and is committing.
    pub fn is_committing_by_key(&self, key: &NodeKey) -> bool
        ensures { result ≡ is_current_committing (named_by_key self.now.digest key.now) }
    {
        match self.current_with(key) {
            None => false,
            Some(current) => current.phase() == Phase::Committing,
        }
    }

    // Of the kept transactions: the one that owes the branch, else that of the tree, unless one is current.
    #[tactic(auto, using(tp_node_state::proofs::KeptTrees::first_owing, tp_node_state::proofs::KeptTrees::first_any))]
    fn key_of_kept(&self, aaid: &Aaid, branch: &BranchId) -> Option<NodeKey>
        ensures { result ≡ key_of_kept self.now.digest aaid.now branch.now }
    {
        match self.all_kept().first_in(aaid, &Some(*branch)) {
            Some(key) => Some(key),
            None => match self.current_in(aaid) {
                Some(current) => Some(*current.key()),
                None => self.all_kept().first_in(aaid, &None),
            },
        }
    }

    /// The key of the transaction that a child's record speaks of: of the one that has the branch, else of the current one of
    /// the tree, else of the oldest that is kept of it.
    #[tactic(auto, using(crate::proofs::BranchesById::known_there))]
    pub fn key_of_branch(&self, aaid: &Aaid, branch: &BranchId) -> Option<NodeKey>
        ensures { result ≡ key_of_branch self.now.digest aaid.now branch.now }
    {
        match self.current_in(aaid) {
            Some(current) if current.child(branch).is_some() => Some(*current.key()),
            _ => self.key_of_kept(aaid, branch),
        }
    }

    /// What is known of the transaction that has the branch.
    pub fn known_by_branch(&self, aaid: &Aaid, branch: &BranchId) -> Known
        ensures { result ≡ known_of (named_by_branch self.now.digest aaid.now branch.now) branch.now }
    {
        match self.key_of_branch(aaid, branch) {
            None => Known {
                phase: Phase::Nil,
                branch: false,
                kept: None,
            },
            Some(key) => self.known_by_key(&key, branch),
        }
    }

    /// The address of the branch, as the transaction that has it keeps it.
    pub(crate) fn child_by_branch(&self, aaid: &Aaid, branch: &BranchId) -> Option<Addr>
        ensures { result ≡ child_addr (named_by_branch self.now.digest aaid.now branch.now) branch.now }
    {
        self.child_by_key(&self.key_of_branch(aaid, branch)?, branch)
    }
}

/// The key of that branch of the tree.
pub fn key_of(aaid: &Aaid, branch: &BranchId) -> NodeKey
    ensures { result ≡ branch_key aaid.now branch.now }
{
    NodeKey {
        aaid: *aaid,
        branch: Some(*branch),
    }
}
