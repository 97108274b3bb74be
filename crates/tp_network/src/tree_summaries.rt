//! The summaries that one node has in trees.
ghost use Rattle.std.specs.Prelude.{◌≡◌, ◌&&◌, true, false, not, cond, is_some, slice_get, Some, IfOk, OnOk, OnErr};
ghost use Rattle.std.specs.Map.{lookup};
ghost use Rattle.tp_names.specs.declared.identifiers.Aaid.{Aaid as AaidValue};
ghost use Rattle.tp_names.specs.Same.{is_aaid};
ghost use Rattle.tp_network.specs.TreeKey.{is_tree, tree_of};
ghost use Rattle.tp_network.specs.TreeSummary.{is_in, is_that, no_summary, same_tree, speaks_of, stood_in, summary_after, tree_logged};
ghost use Rattle.tp_network.specs.TreeOutcomes.{outcomes_in, with_node};
ghost use Rattle.tp_network.specs.TreeSummaries.{summary_at};

use crate::tree_key::Tree;
use crate::tree_outcomes::OutcomesByTree;
use crate::tree_summary::{TreeChange, TreeSummary, is_in, stood_in, tree_logged};
use indexmap::IndexMap;
use std::alloc::Global;
use std::marker::Model;
use tp_names::same::is_aaid;
use tp_names::{Aaid, NoMemory};

/// The summaries that one node has in trees, by the trees with which it had to do. Mostly an entry speaks of the tree of the
/// entry before it: the place of the tree that was changed last is looked at first.
#[derive(Drop)]
pub struct TreeSummaries {
    summaries: IndexMap<Tree, TreeSummary>,
    last: usize,
}

impl Model for TreeSummaries {
    ghost use Rattle.std.specs.Prelude.{List};
    ghost use Rattle.tp_network.specs.declared.tree_key.Tree.{Tree};
    ghost use Rattle.tp_network.specs.declared.tree_summary.TreeSummary.{TreeSummary};

    ghost Value = { List (Tree × TreeSummary) };

    ghost view = { λ s. s.summaries.entries };
}

impl TreeSummaries {
    /// Of a node that had to do with no tree.
    pub fn new(alloc: Global) -> TreeSummaries
        ensures { (t : AaidValue) → summary_at result t ≡ no_summary }
    {
        TreeSummaries {
            summaries: IndexMap::new(alloc),
            last: 0,
        }
    }

    /// The summary in that tree.
    pub fn summary(&self, tree: &Aaid) -> TreeSummary
        ensures { result ≡ summary_at self.now tree.now }
    {
        let tree = Tree { aaid: *tree };
        match self.summaries.get(&tree) {
            Some(summary) => *summary,
            None => TreeSummary::NONE,
        }
    }

    // The summary in that tree after an entry, where another tree was changed last. Without memory nothing changes, as in the calls
    // below.
    fn change_other(
        &mut self,
        tree: &Aaid,
        is_before: bool,
        is_after: bool,
        change: &TreeChange,
    ) -> Result<(), NoMemory>
        requires before { is_in tree.now change.now.before ≡ is_before }
        requires after { is_in tree.now change.now.after ≡ is_after }
        ensures changed { OnOk result ((t : AaidValue)
            → summary_at self.new t ≡ cond (is_aaid t tree.now) (summary_after t change.now (summary_at self.old t)) (summary_at self.old t)) }
        ensures same { OnErr result (self.new ≡ self.old) }
    {
        let first = TreeSummary::NONE.after_in(tree, is_before, is_after, change);
        let (place, older) = self.summaries.insert_full(Tree { aaid: *tree }, first)?;
        self.last = place;
        if let Some(older) = older {
            let summary = older.after_in(tree, is_before, is_after, change);
            put(&mut self.summaries, tree, summary);
        }
        Ok(())
    }

    // The summary in that tree after an entry.
    #[inline(always)]
    fn change_in(
        &mut self,
        tree: &Aaid,
        is_before: bool,
        is_after: bool,
        change: &TreeChange,
    ) -> Result<(), NoMemory>
        requires before { is_in tree.now change.now.before ≡ is_before }
        requires after { is_in tree.now change.now.after ≡ is_after }
        ensures changed { OnOk result ((t : AaidValue)
            → summary_at self.new t ≡ cond (is_aaid t tree.now) (summary_after t change.now (summary_at self.old t)) (summary_at self.old t)) }
        ensures same { OnErr result (self.new ≡ self.old) }
    {
        if change_at(
            &mut self.summaries,
            self.last,
            tree,
            is_before,
            is_after,
            change,
        ) {
            return Ok(());
        }
        self.change_other(tree, is_before, is_after, change)
    }

    // The summary in the tree before an entry; it tells whether that is the tree after it too.
    #[inline(always)]
    fn change_before(&mut self, change: &TreeChange) -> Result<bool, NoMemory>
        ensures stays { IfOk result (λ stays. same_tree change.now.before change.now.after ≡ stays) }
        ensures changed { OnOk result ((t : AaidValue)
            → summary_at self.new t ≡ cond (is_in t change.now.before) (summary_after t change.now (summary_at self.old t)) (summary_at self.old t)) }
        ensures same { OnErr result (self.new ≡ self.old) }
    {
        match &change.before {
            Some(before) => {
                let stays = is_in(&before.aaid, &change.after);
                self.change_in(&before.aaid, true, stays, change)?;
                Ok(stays)
            }
            None => Ok(false),
        }
    }

    // The summary in the tree after an entry, which was not the tree before it.
    fn change_entered(&mut self, change: &TreeChange) -> Result<(), NoMemory>
        requires { same_tree change.now.before change.now.after ≡ false }
        ensures changed { OnOk result ((t : AaidValue)
            → summary_at self.new t ≡ cond (is_in t change.now.after && not (is_in t change.now.before))
            (summary_after t change.now (summary_at self.old t)) (summary_at self.old t)) }
        ensures same { OnErr result (self.new ≡ self.old) }
    {
        match &change.after {
            Some(after) => self.change_in(&after.aaid, false, true, change),
            None => Ok(()),
        }
    }

    // The summary in the tree after an entry, unless that was the tree before it.
    fn change_after(&mut self, stays: bool, change: &TreeChange) -> Result<(), NoMemory>
        requires { same_tree change.now.before change.now.after ≡ stays }
        ensures changed { OnOk result ((t : AaidValue)
            → summary_at self.new t ≡ cond (is_in t change.now.after && not (is_in t change.now.before))
            (summary_after t change.now (summary_at self.old t)) (summary_at self.old t)) }
        ensures same { OnErr result (self.new ≡ self.old) }
    {
        if stays {
            return Ok(());
        }
        self.change_entered(change)
    }

    // The summary in that tree after an entry, unless it is the tree before the entry or after it.
    #[inline(never)]
    fn change_once(&mut self, tree: &Aaid, change: &TreeChange) -> Result<(), NoMemory>
        ensures changed { OnOk result ((t : AaidValue)
            → summary_at self.new t ≡ cond (is_aaid t tree.now && not (stood_in t change.now))
            (summary_after t change.now (summary_at self.old t)) (summary_at self.old t)) }
        ensures same { OnErr result (self.new ≡ self.old) }
    {
        if stood_in(tree, change) {
            return Ok(());
        }
        self.change_in(tree, false, false, change)
    }

    // The summary in the tree of which an entry logs, unless it is the tree before the entry or after it.
    fn change_logged(&mut self, change: &TreeChange) -> Result<(), NoMemory>
        ensures changed { OnOk result ((t : AaidValue)
            → summary_at self.new t ≡ cond (is_that t (tree_logged change.now.rec) && not (stood_in t change.now))
            (summary_after t change.now (summary_at self.old t)) (summary_at self.old t)) }
        ensures same { OnErr result (self.new ≡ self.old) }
    {
        match tree_logged(&change.rec) {
            Some(tree) => self.change_once(tree, change),
            None => Ok(()),
        }
    }

    // Promise 15.13: What a node did in a tree, in five facts, is what each change in turn makes of
    //   it; and of the nodes of a list that stay in a tree it is told whether some, and whether
    //   all, were told each outcome
    /// The summaries after an entry, which speaks of at most three trees, mostly one. Without memory the summaries in other trees
    /// stay what they were.
    #[inline(always)]
    #[tactic(auto, using(crate::proofs::Changes::untouched_at_once, crate::proofs::Changes::untouched_by_first, crate::proofs::Changes::untouched_by_second))]
    pub fn change(&mut self, change: &TreeChange) -> Result<(), NoMemory>
        ensures changed { OnOk result ((t : AaidValue) → summary_at self.new t ≡ summary_after t change.now (summary_at self.old t)) }
        ensures rest { OnErr result ((t : AaidValue) → speaks_of t change.now ≡ false → summary_at self.new t ≡ summary_at self.old t) }
    {
        let stays = self.change_before(change)?;
        self.change_after(stays, change)?;
        self.change_logged(change)
    }

    /// What the nodes of each tree were told, with this one too.
    pub(crate) fn gather(&self, all: &mut OutcomesByTree) -> Result<(), NoMemory>
        ensures { OnOk result ((t : AaidValue) → outcomes_in all.new t ≡ with_node (summary_at self.now t) (outcomes_in all.old t)) }
    {
        gather_in(&self.summaries, all)
    }
}

// What the nodes of each tree were told, with the node of these summaries too.
fn gather_in(
    summaries: &IndexMap<Tree, TreeSummary>,
    all: &mut OutcomesByTree,
) -> Result<(), NoMemory>
    ensures { OnOk result ((t : AaidValue) → outcomes_in all.new t ≡ with_node (summary_at summaries.now.entries t) (outcomes_in all.old t)) }
{
    for (tree, summary) in summaries.iter() {
        all.add(tree, summary)?;
    }
    Ok(())
}

// The tree at that place is that one.
fn is_at(summaries: &IndexMap<Tree, TreeSummary>, place: usize, tree: &Aaid) -> bool
    ensures { result ≡ true → slice_get summaries.now.entries place ≡ Some (tree_of tree.now, summary_at summaries.now.entries tree.now) }
{
    match summaries.get_index(place) {
        Some((found, _summary)) => is_aaid(tree, &found.aaid),
        None => false,
    }
}

// The summary in that tree after an entry, where the tree is at that place; it tells whether it is.
#[inline(always)]
fn change_at(
    summaries: &mut IndexMap<Tree, TreeSummary>,
    place: usize,
    tree: &Aaid,
    is_before: bool,
    is_after: bool,
    change: &TreeChange,
) -> bool
    requires before { is_in tree.now change.now.before ≡ is_before }
    requires after { is_in tree.now change.now.after ≡ is_after }
    ensures changed { result ≡ true → (t : AaidValue)
        → summary_at summaries.new.entries t
        ≡ cond (is_aaid t tree.now) (summary_after t change.now (summary_at summaries.old.entries t)) (summary_at summaries.old.entries t) }
    ensures same { result ≡ false → summaries.new ≡ summaries.old }
{
    if !is_at(summaries, place, tree) {
        return false;
    }
    match summaries.get_index_mut(place) {
        Some(summary) => {
            *summary = summary.after_in(tree, is_before, is_after, change);
            true
        }
        None => false,
    }
}

// Another summary in that tree, which has one.
fn put(summaries: &mut IndexMap<Tree, TreeSummary>, tree: &Aaid, summary: TreeSummary)
    requires { is_some (lookup (is_tree (tree_of tree.now)) summaries.old.entries) ≡ true }
    ensures { (t : AaidValue) → summary_at summaries.new.entries t ≡ cond (is_aaid t tree.now) summary (summary_at summaries.old.entries t) }
{
    let tree = Tree { aaid: *tree };
    if let Some(found) = summaries.get_mut(&tree) {
        *found = summary;
    }
}
