//! The nodes of a world.
ghost use Rattle.std.specs.Prelude.{◌≡◌, ◌++◌, ◌∷◌, [], ◌<◌, length, map, slice_index_or, OnOk, OnErr};
ghost use Rattle.tp_names.specs.Same.{is_name};
ghost use Rattle.tp_network.specs.declared.nodes.NodeSlot.{NodeSlot};
ghost use Rattle.tp_network.specs.Nodes.{address_at, IsDeclared, IsNoted, AreChanged, ArePartly, place_of_number};

use crate::run::Run;
use crate::tree_summaries::TreeSummaries;
use crate::tree_summary::TreeChange;
use std::alloc::Global;
use std::collections::HashMap;
use std::marker::Model;
use tp_names::same::is_name;
use tp_names::{Addr, NoMemory, SiteName};

/// A node: where it is, what it is declared with after each start of its site, and its summaries of trees.
#[derive(Drop)]
pub struct NodeSlot {
    pub addr: Addr,
    pub superior: Option<Addr>,
    pub summaries: TreeSummaries,
}

/// The nodes of a world, in the order of their declarations; `places` are the places of their numbers. Mostly the numbers are
/// consecutive: the place of one in the `run` that the nodes begin with is told without the table.
#[derive(Drop)]
pub struct Nodes {
    items: Vec<NodeSlot>,
    places: HashMap<u16, usize>,
    run: Run,
}

impl Model for Nodes {
    ghost use Rattle.std.specs.Prelude.{List};
    ghost use Rattle.tp_network.specs.declared.nodes.NodeSlot.{NodeSlot};

    ghost Value = { List NodeSlot };

    ghost use Rattle.tp_network.specs.Nodes.{ArePlaced};

    ghost view = { λ s. s.items.items };

    ghost invariant = { ArePlaced };
}

impl Nodes {
    /// No nodes.
    pub fn new(alloc: Global) -> Nodes
        ensures { result ≡ [] }
    {
        Nodes {
            items: Vec::new(alloc),
            places: HashMap::new(alloc),
            run: Run::NONE,
        }
    }

    /// How many there are.
    pub fn count(&self) -> usize
        ensures { result ≡ length self.now }
    {
        self.items.len()
    }

    /// The nodes, in order.
    pub fn as_slice(&self) -> &[NodeSlot]
        ensures { result.now ≡ self.now }
    {
        self.items.as_slice()
    }

    /// The node at that place.
    pub fn at(&self, place: usize) -> &NodeSlot
        requires { place < length self.now }
        ensures { (d : NodeSlot) → result.now ≡ slice_index_or self.now place d }
    {
        &self.items[place]
    }

    // The place of the node of that number; after all where there is none.
    fn place_of(&self, number: u16) -> usize
        ensures { result ≡ place_of_number self.now number }
    {
        match self.run.place(number) {
            Some(place) => place,
            None => self.place_noted(number),
        }
    }

    // The same, by the table.
    fn place_noted(&self, number: u16) -> usize
        ensures { result ≡ place_of_number self.now number }
    {
        match self.places.get(&number) {
            Some(place) => *place,
            None => self.items.len(),
        }
    }

    /// The address of the node of that number.
    #[tactic(auto, using(crate::proofs::Numbers::found_at, crate::proofs::Numbers::found_not))]
    pub fn addr(&self, number: u16) -> Option<Addr>
        ensures { result ≡ address_at self.now number }
    {
        let place = self.place_of(number);
        if place >= self.items.len() {
            return None;
        }
        Some(self.items[place].addr)
    }

    /// Puts a node after the others. Without memory the nodes stay what they were.
    pub fn declare(
        &mut self,
        alloc: Global,
        addr: Addr,
        superior: Option<Addr>,
    ) -> Result<(), NoMemory>
        ensures declared { OnOk result ((x : NodeSlot) × IsDeclared addr superior x × (self.new ≡ self.old ++ x ∷ [])) }
        ensures same { OnErr result (self.new ≡ self.old) }
    {
        let place = self.count();
        let run = self.run.with(place, addr.node);
        self.items.reserve(1)?;
        note(&mut self.places, addr.node, place)?;
        self.items.push(NodeSlot {
            addr,
            superior,
            summaries: TreeSummaries::new(alloc),
        })?;
        self.run = run;
        Ok(())
    }

    /// The node's summaries of trees after an entry. Without memory they stay what they were in the trees of which the entry does
    /// not speak, and so do the other nodes.
    #[inline(always)]
    #[tactic(auto, using(crate::proofs::ChangedNodes::changed_none, crate::proofs::ChangedNodes::changed_there, crate::proofs::ChangedNodes::partly_there))]
    pub fn change(&mut self, number: u16, change: &TreeChange) -> Result<(), NoMemory>
        ensures changed { OnOk result (AreChanged number change.now self.old self.new) }
        ensures partly { OnErr result (ArePartly number change.now self.old self.new) }
    {
        let place = self.place_of(number);
        if place >= self.items.len() {
            return Ok(());
        }
        self.items[place].summaries.change(change)
    }
}

// The place of a number is put into the table, where it has none.
fn note(places: &mut HashMap<u16, usize>, number: u16, place: usize) -> Result<(), NoMemory>
    ensures ok { OnOk result (IsNoted places.old.entries number place places.new.entries) }
    ensures err { OnErr result (places.new.entries ≡ places.old.entries) }
{
    if places.contains_key(&number) {
        return Ok(());
    }
    places.insert(number, place)?;
    Ok(())
}

impl NodeSlot {
    /// The node is at that site.
    pub fn is_at(&self, site: &SiteName) -> bool
        ensures { result ≡ is_name self.now.addr.site site.now }
    {
        is_name(&self.addr.site, site)
    }
}
