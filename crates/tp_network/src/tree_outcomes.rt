//! What the nodes that stay in each tree were told.
ghost use Rattle.std.specs.Prelude.{◌≡◌, true, false, cond, is_some, slice_get, Some, IfOk, OnOk};
ghost use Rattle.std.specs.Map.{lookup};
ghost use Rattle.tp_names.specs.declared.identifiers.Aaid.{Aaid as AaidValue};
ghost use Rattle.tp_names.specs.Same.{is_aaid};
ghost use Rattle.tp_model.specs.Trees.{is_told};
ghost use Rattle.tp_network.specs.TreeKey.{is_tree};
ghost use Rattle.tp_network.specs.TreeOutcomes.{no_outcomes, with_node, outcomes_in, outcomes_at, outcomes_after};

use crate::nodes::NodeSlot;
use crate::tree_key::Tree;
use crate::tree_summary::TreeSummary;
use indexmap::IndexMap;
use std::alloc::Global;
use std::marker::Model;
use tp_names::same::is_aaid;
use tp_names::{Aaid, NoMemory, Outcome};

/// Whether some, and whether all, of the nodes that stay in a tree were told each outcome.
#[derive(Clone, Copy)]
pub struct TreeOutcomes {
    pub some_committed: bool,
    pub all_committed: bool,
    pub some_rolled_back: bool,
    pub all_rolled_back: bool,
}

fn is_told(outcome: Outcome, told: Option<Outcome>) -> bool
    ensures { result ≡ is_told outcome told }
{
    match (outcome, told) {
        (Outcome::Commit, Some(Outcome::Commit)) => true,
        (Outcome::Rollback, Some(Outcome::Rollback)) => true,
        _ => false,
    }
}

impl TreeOutcomes {
    /// Of a tree in which no node stays.
    pub(crate) const NONE: TreeOutcomes = TreeOutcomes {
        some_committed: false,
        all_committed: true,
        some_rolled_back: false,
        all_rolled_back: true,
    };

    // With one node more.
    fn with(self, summary: &TreeSummary) -> TreeOutcomes
        ensures { result ≡ with_node summary.now self }
    {
        let stays = summary.stays();
        let committed = is_told(Outcome::Commit, summary.told());
        let rolled_back = is_told(Outcome::Rollback, summary.told());
        TreeOutcomes {
            some_committed: (stays && committed) || self.some_committed,
            all_committed: (!stays || committed) && self.all_committed,
            some_rolled_back: (stays && rolled_back) || self.some_rolled_back,
            all_rolled_back: (!stays || rolled_back) && self.all_rolled_back,
        }
    }
}

/// What the nodes that stay in each tree were told, found by the trees. Mostly the trees of one node come in the order of those of
/// another: the tree after the one that was told last is looked at first.
#[derive(Drop)]
pub struct OutcomesByTree {
    outcomes: IndexMap<Tree, TreeOutcomes>,
    next: usize,
}

impl Model for OutcomesByTree {
    ghost use Rattle.std.specs.Prelude.{List};
    ghost use Rattle.tp_network.specs.declared.tree_key.Tree.{Tree};
    ghost use Rattle.tp_network.specs.declared.tree_outcomes.TreeOutcomes.{TreeOutcomes};

    ghost Value = { List (Tree × TreeOutcomes) };

    ghost view = { λ s. s.outcomes.entries };
}

impl OutcomesByTree {
    // Of no nodes.
    fn new(alloc: Global) -> OutcomesByTree
        ensures { (t : AaidValue) → outcomes_in result t ≡ no_outcomes }
    {
        OutcomesByTree {
            outcomes: IndexMap::new(alloc),
            next: 0,
        }
    }

    // Promise 15.13, part 2
    /// Of these nodes, in the time of all that they did in trees.
    pub fn of(alloc: Global, nodes: &[NodeSlot]) -> Result<OutcomesByTree, NoMemory>
        ensures { IfOk result (λ all. (t : AaidValue) → outcomes_in all t ≡ outcomes_at nodes.now t) }
    {
        let mut all = OutcomesByTree::new(alloc);
        gather(nodes, &mut all)?;
        Ok(all)
    }

    /// Of that tree, which is looked for first at that place.
    pub fn at(&self, place: usize, tree: &Aaid) -> TreeOutcomes
        ensures { result ≡ outcomes_in self.now tree.now }
    {
        if let Some((found, outcomes)) = self.outcomes.get_index(place)
            && is_aaid(tree, &found.aaid)
        {
            return *outcomes;
        }
        self.found(tree)
    }

    // Of that tree, by the table.
    fn found(&self, tree: &Aaid) -> TreeOutcomes
        ensures { result ≡ outcomes_in self.now tree.now }
    {
        let tree = Tree { aaid: *tree };
        match self.outcomes.get(&tree) {
            Some(outcomes) => *outcomes,
            None => TreeOutcomes::NONE,
        }
    }

    // Of that tree, with one node more, where another tree comes next.
    fn add_other(&mut self, tree: &Tree, summary: &TreeSummary) -> Result<(), NoMemory>
        ensures { OnOk result ((t : AaidValue)
            → outcomes_in self.new t ≡ cond (is_aaid t tree.now.aaid) (with_node summary.now (outcomes_in self.old t)) (outcomes_in self.old t)) }
    {
        let first = TreeOutcomes::NONE.with(summary);
        let (place, older) = self.outcomes.insert_full(*tree, first)?;
        self.next = place.wrapping_add(1);
        if let Some(older) = older {
            put(&mut self.outcomes, tree, older.with(summary));
        }
        Ok(())
    }

    /// Of that tree, with one node more.
    pub(crate) fn add(&mut self, tree: &Tree, summary: &TreeSummary) -> Result<(), NoMemory>
        ensures { OnOk result ((t : AaidValue)
            → outcomes_in self.new t ≡ cond (is_aaid t tree.now.aaid) (with_node summary.now (outcomes_in self.old t)) (outcomes_in self.old t)) }
    {
        if add_at(&mut self.outcomes, self.next, tree, summary) {
            self.next = self.next.wrapping_add(1);
            return Ok(());
        }
        self.add_other(tree, summary)
    }
}

// The tree at that place is that one.
fn is_at(outcomes: &IndexMap<Tree, TreeOutcomes>, place: usize, tree: &Tree) -> bool
    ensures { result ≡ true → slice_get outcomes.now.entries place ≡ Some (tree.now, outcomes_in outcomes.now.entries tree.now.aaid) }
{
    match outcomes.get_index(place) {
        Some((found, _outcomes)) => is_aaid(&tree.aaid, &found.aaid),
        None => false,
    }
}

// With one node more, where the tree is at that place; it tells whether it is.
fn add_at(
    outcomes: &mut IndexMap<Tree, TreeOutcomes>,
    place: usize,
    tree: &Tree,
    summary: &TreeSummary,
) -> bool
    ensures added { result ≡ true → (t : AaidValue)
        → outcomes_in outcomes.new.entries t
        ≡ cond (is_aaid t tree.now.aaid) (with_node summary.now (outcomes_in outcomes.old.entries t)) (outcomes_in outcomes.old.entries t) }
    ensures same { result ≡ false → outcomes.new ≡ outcomes.old }
{
    if !is_at(outcomes, place, tree) {
        return false;
    }
    match outcomes.get_index_mut(place) {
        Some(found) => {
            *found = found.with(summary);
            true
        }
        None => false,
    }
}

// Other outcomes of that tree, which has some.
fn put(outcomes: &mut IndexMap<Tree, TreeOutcomes>, tree: &Tree, after: TreeOutcomes)
    requires { is_some (lookup (is_tree tree.now) outcomes.old.entries) ≡ true }
    ensures { (t : AaidValue) → outcomes_in outcomes.new.entries t ≡ cond (is_aaid t tree.now.aaid) after (outcomes_in outcomes.old.entries t) }
{
    if let Some(found) = outcomes.get_mut(tree) {
        *found = after;
    }
}

// With these nodes too.
fn gather(nodes: &[NodeSlot], all: &mut OutcomesByTree) -> Result<(), NoMemory>
    ensures { OnOk result ((t : AaidValue) → outcomes_in all.new t ≡ outcomes_after nodes.now t (outcomes_in all.old t)) }
{
    match nodes {
        [] => Ok(()),
        [first, rest @ ..] => {
            gather(rest, all)?;
            first.summaries.gather(all)
        }
    }
}
