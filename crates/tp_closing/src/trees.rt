//! What the nodes of a recording did in trees, as far as it was heard.
ghost use Rattle.std.specs.Prelude.{◌≡◌, ◌<◌, ◌+◌, ◌++◌, ◌∷◌, [], List, length, IfOk, OnOk};
ghost use Rattle.tp_deployments.specs.Deployments.{Deed, Place as PlaceValue, history_at};
ghost use Rattle.tp_site.specs.Site.{known_at};
ghost use Rattle.tp_node.specs.State.{tree_in};
ghost use Rattle.tp_world_sites.specs.Slots.{shown_behind};
ghost use Rattle.tp_world_sites.specs.Told.{closing_at};
ghost use Rattle.tp_closing.specs.Seen.{all_begun, tree_begun, words_heeded, Turns, AreSeenTo, Sees, IsEntered, IsStopped};

use std::alloc::Global;
use tp_journal::Journal;
use tp_logrec::LogRec;
use tp_model::{LogWords, OutLines};
use tp_names::same::{is_addr, is_name};
use tp_names::{Aaid, Addr, NoMemory};
use tp_network::{NodeSlot, TreeChange, TreeSummaries, is_in};
use tp_outside::MemDisk;
use tp_site::{NodeTree, Site};
use tp_world_sites::closing_lines;

/// What an entry of a node shows: the tree that the node is in after it, whether its user left, and of its record what tells of a tree.
#[derive(Drop)]
pub struct Shown {
    pub after: Option<NodeTree>,
    pub leaves: bool,
    pub rec: Option<LogWords>,
}

// The tree that a node is in, and those that it began, in order.
#[derive(Drop)]
struct State {
    now: Option<NodeTree>,
    begun: Vec<Aaid>,
}

/// What the nodes of a recording did in trees: of each node, in the order of their places, its summaries and its state.
#[derive(Drop)]
pub struct Trees {
    slots: Vec<NodeSlot>,
    states: Vec<State>,
}

/// The words of the record after the first so many, where they tell of a tree what its closing line asks.
pub fn words_behind(records: &[LogRec], count: usize) -> Option<LogWords>
    ensures { result ≡ words_heeded (shown_behind records.now count) }
{
    match records.get(count) {
        Some(LogRec::Commit { node, key, .. }) => Some(LogWords::Commit {
            node: *node,
            key: *key,
        }),
        Some(LogRec::Heuristic { node, key, outcome }) => Some(LogWords::Heuristic {
            node: *node,
            key: *key,
            outcome: *outcome,
        }),
        _ => None,
    }
}

// The tree that a change begins.
fn tree_begun(change: &TreeChange) -> Option<Aaid>
    ensures { result ≡ tree_begun change.now }
{
    match &change.after {
        Some(after) if after.is_root && !is_in(&after.aaid, &change.before) => Some(after.aaid),
        _ => None,
    }
}

// The node gains an entry that shows this.
fn turn(slot: &mut NodeSlot, state: &mut State, shown: &Shown) -> Result<(), NoMemory>
    ensures { OnOk result (Turns shown.now slot.old state.old slot.new state.new) }
{
    let change = TreeChange {
        before: state.now,
        after: shown.after,
        leaves: shown.leaves,
        rec: shown.rec,
    };
    slot.summaries.change(&change)?;
    if let Some(tree) = tree_begun(&change) {
        state.begun.push(tree)?;
    }
    state.now = shown.after;
    Ok(())
}

impl Trees {
    /// Of no places.
    pub fn new(alloc: Global) -> Trees
        ensures { (ds : List Deed) → Sees ds [] result }
    {
        Trees {
            slots: Vec::new(alloc),
            states: Vec::new(alloc),
        }
    }

    /// A node has its place, after the others.
    pub fn place(
        &mut self,
        alloc: Global,
        addr: Addr,
        superior: Option<Addr>,
    ) -> Result<(), NoMemory>
        ensures { OnOk result ((ds : List Deed) (qs : List PlaceValue) → history_at ds addr ≡ [] → Sees ds qs self.old → Sees ds (record { addr = addr; superior = superior } ∷ qs) self.new) }
    {
        self.slots.push(NodeSlot {
            addr,
            superior,
            summaries: TreeSummaries::new(alloc),
        })?;
        self.states.push(State {
            now: None,
            begun: Vec::new(alloc),
        })?;
        Ok(())
    }

    // The node at that place gains an entry that shows this, where it is the one at that address.
    fn enter_at(&mut self, i: usize, at: &Addr, shown: &Shown) -> Result<(), NoMemory>
        requires slot { i < length self.old.slots.items }
        requires state { i < length self.old.states.items }
        ensures seen { OnOk result ((ds es : List Deed) (qs : List PlaceValue) → IsEntered ds es at.now shown.now → AreSeenTo es ds i qs self.old.slots.items self.old.states.items → AreSeenTo es ds (i + 1) qs self.new.slots.items self.new.states.items) }
        ensures slots { length self.new.slots.items ≡ length self.old.slots.items }
        ensures states { length self.new.states.items ≡ length self.old.states.items }
    {
        if !is_addr(&self.slots[i].addr, at) {
            return Ok(());
        }
        turn(&mut self.slots[i], &mut self.states[i], shown)?;
        Ok(())
    }

    /// The node at that address gains an entry that shows this.
    pub fn enter(&mut self, at: &Addr, shown: &Shown) -> Result<(), NoMemory>
        ensures { OnOk result ((ds es : List Deed) (qs : List PlaceValue) → IsEntered ds es at.now shown.now → Sees ds qs self.old → Sees es qs self.new) }
    {
        for i in 0..self.slots.len().min(self.states.len()) {
            self.enter_at(i, at, shown)?;
        }
        Ok(())
    }

    // The node at that place stops, where it is one of that site, which has started again.
    fn stop_at(&mut self, i: usize, site: &Site<Journal<MemDisk>>) -> Result<(), NoMemory>
        requires slot { i < length self.old.slots.items }
        requires state { i < length self.old.states.items }
        ensures seen { OnOk result ((ds es : List Deed) (qs : List PlaceValue) → IsStopped ds es site.now.nodes.site (λ n. tree_in (known_at site.now n)) → AreSeenTo es ds i qs self.old.slots.items self.old.states.items → AreSeenTo es ds (i + 1) qs self.new.slots.items self.new.states.items) }
        ensures slots { length self.new.slots.items ≡ length self.old.slots.items }
        ensures states { length self.new.states.items ≡ length self.old.states.items }
    {
        let at = self.slots[i].addr;
        if !is_name(&at.site, &site.name()) {
            return Ok(());
        }
        let shown = Shown {
            after: site.tree(at.node),
            leaves: false,
            rec: None,
        };
        turn(&mut self.slots[i], &mut self.states[i], &shown)?;
        Ok(())
    }

    /// The site has started again: its nodes stopped.
    pub fn stop(&mut self, site: &Site<Journal<MemDisk>>) -> Result<(), NoMemory>
        ensures { OnOk result ((ds es : List Deed) (qs : List PlaceValue) → IsStopped ds es site.now.nodes.site (λ n. tree_in (known_at site.now n)) → Sees ds qs self.old → Sees es qs self.new) }
    {
        for i in 0..self.slots.len().min(self.states.len()) {
            self.stop_at(i, site)?;
        }
        Ok(())
    }

    /// One line for each tree that the nodes began, in the order of the places and of what each node did.
    pub fn closing(&self, alloc: Global) -> Result<OutLines, NoMemory>
        ensures { IfOk result (λ lines. lines ≡ closing_at self.now.slots.items (all_begun self.now.states.items)) }
    {
        let mut trees = Vec::new(alloc);
        add_begun(self.states.as_slice(), &mut trees)?;
        closing_lines(alloc, trees.as_slice(), self.slots.as_slice())
    }
}

// Puts the trees that the nodes began after the others.
fn add_begun(states: &[State], trees: &mut Vec<Aaid>) -> Result<(), NoMemory>
    ensures { OnOk result (trees.new.items ≡ trees.old.items ++ all_begun states.now) }
{
    match states {
        [] => Ok(()),
        [first, rest @ ..] => {
            trees.extend_from_slice(first.begun.as_slice())?;
            add_begun(rest, trees)
        }
    }
}
