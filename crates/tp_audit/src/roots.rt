//! The Commits of roots in a site's log, found by their trees.
ghost use Rattle.std.specs.Prelude.{◌≡◌, ◌||◌, cond, true, IfOk, OnOk};
ghost use Rattle.tp_names.specs.declared.identifiers.Aaid.{Aaid as TheAaid};
ghost use Rattle.tp_names.specs.Same.{is_aaid as is_same};
ghost use Rattle.tp_audit.specs.Roots.{tree_committed, is_root_commit, has_tree, AreRootCommitsOf};

use crate::keys::TreeKey;
use std::alloc::Global;
use std::collections::HashSet;
use std::marker::Model;
use tp_logrec::LogRec;
use tp_names::{Aaid, NoMemory};

/// The trees of whose roots a log has a Commit.
#[derive(Drop)]
pub(crate) struct RootCommits {
    trees: HashSet<TreeKey>,
}

impl Model for RootCommits {
    ghost use Rattle.std.specs.Prelude.{List};
    ghost use Rattle.tp_audit.specs.declared.keys.TreeKey as keys;

    ghost Value = { List keys.TreeKey };

    ghost view = { λ r. r.trees.keys };
}

impl RootCommits {
    /// Those of the log.
    #[tactic(auto, using(crate::proofs::Rooted::or_false, crate::proofs::Rooted::or_assoc))]
    pub(crate) fn in_log(alloc: Global, list: &[LogRec]) -> Result<RootCommits, NoMemory>
        ensures { IfOk result (AreRootCommitsOf list.now) }
    {
        let mut roots = RootCommits {
            trees: HashSet::new(alloc),
        };
        for rec in list {
            roots.take(rec)?;
        }
        Ok(roots)
    }

    // Takes the next record.
    #[tactic(auto, using(crate::proofs::Rooted::after_commit, crate::proofs::Rooted::after_other))]
    fn take(&mut self, rec: &LogRec) -> Result<(), NoMemory>
        ensures { OnOk result ((t : TheAaid) → has_tree self.new t ≡ (has_tree self.old t || is_root_commit t rec.now)) }
    {
        let Some(aaid) = tree_committed(rec) else {
            return Ok(());
        };
        self.put(&aaid)
    }

    // The tree's root committed.
    fn put(&mut self, aaid: &Aaid) -> Result<(), NoMemory>
        ensures { OnOk result ((t : TheAaid) → has_tree self.new t ≡ cond (is_same aaid.now t) true (has_tree self.old t)) }
    {
        self.trees.insert(TreeKey { aaid: *aaid })?;
        Ok(())
    }

    /// Whether the log has a Commit of the tree's root.
    pub(crate) fn contains(&self, aaid: &Aaid) -> bool
        ensures { result ≡ has_tree self.now aaid.now }
    {
        self.trees.contains(&TreeKey { aaid: *aaid })
    }
}

// The tree whose root committed by the record.
fn tree_committed(rec: &LogRec) -> Option<Aaid>
    ensures { result ≡ tree_committed rec.now }
{
    match rec {
        LogRec::Commit { node, key, .. } if *node == key.aaid.mark.node => Some(key.aaid),
        _ => None,
    }
}
