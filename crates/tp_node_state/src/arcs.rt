//! The arcs of a node.
ghost use Rattle.std.specs.Prelude.{◌≡◌, ◌⊎◌, ◌≤◌, true, [], Option, None, map, IfOk, IfSome, OnOk, OnErr, vec_capacity};
ghost use Rattle.std.specs.Option.{option_map, option_copied};
ghost use Rattle.tp_model.specs.Arcs.{find_arc, put_arc, link_with, without_arc, with_dialogue, with_link, carried};
ghost use Rattle.tp_model.specs.Dialogues.{is_chained};
ghost use Rattle.tp_model.specs.Events.{some_past_numbers};
ghost use Rattle.tp_model.specs.Links.{dropped_by};
ghost use Rattle.tp_tree.specs.Tie.{arc_of};
ghost use Rattle.tp_tree.specs.Invocation.{with_arc, with_tie};
ghost use Rattle.tp_node_state.specs.Arcs.{side_with, fits_link, has_place, new_arc, count_subordinates_in, is_sided};
ghost use Rattle.tp_node_state.specs.ArcStep.{stepped_arcs};
ghost use Rattle.tp_node_state.specs.SharedArcs.{Stands, taken_in, has_none_chained, has_no_grant};
ghost use Rattle.tp_node_state.specs.Outs.{outs_with};
ghost use Rattle.tp_records.specs.declared.dialogue.DialogueRecord.{DialogueRecord as RecordValue};

use crate::arc_step::{ArcStep, is_deferring};
use crate::outs::Next;
use crate::shared_arcs::{number_on, take_on};
use std::alloc::Global;
use std::marker::Model;
use tp_commit::Branch;
use tp_dialogue::Dialogue;
use tp_link::Link;
use tp_model::Side;
use tp_names::{Addr, Mark, NoMemory, NumbersSpent};
use tp_tree::{Invocation, Tie};
use tp_units::{CHAINED, Units};

/// The arcs of a node, each with the node on the side that its peer's number says.
#[derive(Debug, Drop)]
pub(crate) struct Arcs {
    tree: Invocation,
}

impl Model for Arcs {
    ghost use Rattle.tp_node_state.specs.Arcs.{Arcs as ArcsValue, value_of, IsKept};

    ghost Value = { ArcsValue };

    ghost view = { value_of };

    ghost invariant = { IsKept };
}

impl Arcs {
    /// No arcs, of which 32 or 256 may lead to subordinates. It takes no memory.
    pub(crate) fn new(alloc: Global, node: u16, superior: Option<Addr>, room: u16) -> Arcs
        requires { (room ≡ 32) ⊎ (room ≡ 256) }
        ensures { result ≡ record { superior = superior; room = room; arcs = [] } }
    {
        Arcs {
            tree: Invocation::bare(alloc, node, superior, room),
        }
    }

    /// Becomes equal to those, in the memory that they have where that is enough. Without memory they stay what they were.
    #[inline(always)]
    pub(crate) fn copy_from(&mut self, other: &Arcs) -> Result<(), NoMemory>
        ensures copy { OnOk result (self.new ≡ other.now) }
        ensures same { OnErr result (self.new ≡ self.old) }
    {
        self.tree.copy_from(&other.tree)
    }

    /// Equal arcs in that memory, which is enough for those to subordinates.
    #[tactic(auto, using(crate::proofs::Sides::count_sided))]
    pub(crate) fn copy_into(&self, room: Vec<Tie>) -> Arcs
        requires { count_subordinates_in self.now.superior self.now.arcs ≤ vec_capacity room }
        ensures { result ≡ self.now }
    {
        Arcs {
            tree: self.tree.copy_into(room),
        }
    }

    /// The superior's address, as it was declared.
    pub(crate) fn superior(&self) -> Option<Addr>
        ensures { result ≡ self.now.superior }
    {
        self.tree.superior()
    }

    /// The node's side on an arc with that peer.
    pub(crate) fn side(&self, peer: u16) -> Side
        ensures { result ≡ side_with self.now.superior peer }
    {
        match self.tree.superior() {
            Some(superior) if superior.node == peer => Side::Subordinate,
            _ => Side::Superior,
        }
    }

    /// The arc with that peer, where it stands: it is looked for at that place among the subordinates' first.
    #[tactic(auto, using(crate::proofs::Sides::side_found, crate::proofs::Linked::link_found))]
    pub(crate) fn near(&self, place: usize, peer: u16) -> Option<&Tie>
        ensures arc { option_map arc_of (option_copied result) ≡ find_arc self.now.arcs peer }
        ensures side { IfSome result (λ t. t.now.dialogue.side ≡ side_with self.now.superior peer) }
        ensures link { IfSome result (λ t. fits_link (side_with self.now.superior peer) t.now.link ≡ true) }
    {
        match self.tree.subordinates().get(place) {
            Some(tie) if tie.addr().node == peer => Some(tie),
            _ => self.tree.get(peer),
        }
    }

    /// A list of the arcs, in order.
    #[inline(always)]
    pub(crate) fn list(&self, alloc: Global) -> Result<Vec<Tie>, NoMemory>
        ensures { IfOk result (λ ties. map arc_of ties.items ≡ self.now.arcs) }
    {
        let mut ties = Vec::new(alloc);
        if let Some(tie) = self.tree.above() {
            ties.reserve(1)?;
            ties.push_reserved(*tie);
        }
        ties.extend_from_slice(self.tree.subordinates())?;
        Ok(ties)
    }

    /// The arcs to subordinates.
    pub(crate) fn below(&self) -> &[Tie] {
        self.tree.subordinates()
    }

    /// How many arcs lead to subordinates.
    #[tactic(auto, using(crate::proofs::Sides::count_sided))]
    pub(crate) fn subordinates(&self) -> usize
        ensures { result ≡ count_subordinates_in self.now.superior self.now.arcs }
    {
        self.tree.subordinates().len()
    }

    /// Adds a new dialogue, on an association of that state: one with a subordinate after the others, and the superior's
    /// before them. Without memory nothing changes.
    #[tactic(auto, using(crate::proofs::Places::place_for))]
    pub(crate) fn add(
        &mut self,
        addr: Addr,
        units: Units,
        side: Side,
        link: Link,
    ) -> Result<(), NoMemory>
        requires other { find_arc self.old.arcs addr.node ≡ None }
        requires side { side ≡ side_with self.old.superior addr.node }
        requires place { has_place side self.old ≡ true }
        requires link { fits_link side link ≡ true }
        ensures added { OnOk result (self.new ≡ record self.old { arcs = with_arc side (new_arc addr units side link) self.old.arcs }) }
        ensures same { OnErr result (self.new ≡ self.old) }
    {
        let peer = addr.node;
        self.tree.add(addr, units, side)?;
        let Some(tie) = self.tree.tie(peer) else {
            unreachable!()
        };
        tie.link = link;
        Ok(())
    }

    /// Takes the arc with that peer away, where there is one.
    #[tactic(auto, using(crate::proofs::Sides::sided_without, crate::proofs::Linked::linked_without))]
    pub(crate) fn remove(&mut self, peer: u16)
        ensures { self.new ≡ record self.old { arcs = without_arc self.old.arcs peer } }
    {
        self.tree.remove(peer);
    }

    /// Puts that arc in the place of the one with its peer, which is looked for at that place among the subordinates' first.
    pub(crate) fn put(&mut self, place: usize, tie: &Tie)
        requires { Stands self.old tie.now }
        ensures { self.new ≡ record self.old { arcs = put_arc self.old.arcs (arc_of tie.now) } }
    {
        write(&mut self.tree, place, tie);
    }

    /// Changes the link of the arc with that peer, where there is one, which is looked for at that place among the
    /// subordinates' first.
    #[tactic(auto, using(crate::proofs::Sides::sided_with, crate::proofs::Linked::linked_with, crate::proofs::Sides::with_link_none))]
    pub(crate) fn put_link(&mut self, place: usize, peer: u16, link: Link)
        requires { fits_link (side_with self.old.superior peer) link ≡ true }
        ensures { self.new ≡ record self.old { arcs = with_link self.old.arcs peer (λ _. link) } }
    {
        let Some(tie) = self.tree.tie_near(place, peer) else {
            return;
        };
        tie.link = link;
    }

    /// Changes the dialogue of the arc with that peer, where there is one, which is looked for at that place among the
    /// subordinates' first. The node's side stays.
    #[tactic(auto, using(crate::proofs::Sides::sided_with, crate::proofs::Linked::linked_with, crate::proofs::Linked::link_found, crate::proofs::Sides::side_found, crate::proofs::Sides::with_dialogue_none))]
    pub(crate) fn put_dialogue(&mut self, place: usize, peer: u16, dialogue: Dialogue)
        requires { dialogue.side ≡ side_with self.old.superior peer }
        ensures { self.new ≡ record self.old { arcs = with_dialogue self.old.arcs peer (λ _. dialogue.dialogue) } }
    {
        let Some(tie) = self.tree.tie_near(place, peer) else {
            return;
        };
        tie.dialogue = dialogue;
    }

    /// The record with that pair and number is taken on the arc with that peer, where there is one, and ends its rest where
    /// it wakes it. The arc is looked for at that place among the subordinates' first.
    #[inline(always)]
    #[tactic(auto, using(crate::proofs::Sides::sided_with, crate::proofs::Linked::linked_with, crate::proofs::Linked::link_found, crate::proofs::Linked::fits_taken, crate::proofs::Takes::none_taken))]
    pub(crate) fn take(&mut self, place: usize, peer: u16, x: Mark, y: Mark, seq: u64, wakes: bool)
        requires { dropped_by (link_with self.old.arcs peer) x y seq ≡ None }
        ensures { self.new ≡ record self.old { arcs = taken_in wakes peer self.old.arcs } }
    {
        let Some(tie) = self.tree.tie_near(place, peer) else {
            return;
        };
        take_on(tie, x, y, seq, wakes);
    }

    /// Numbers the next record that goes out on the arc with that peer, where it is live, which is looked for at that place
    /// among the subordinates' first. Where no number is left, nothing changes.
    #[inline(always)]
    #[tactic(auto, using(crate::proofs::Sides::sided_with, crate::proofs::Linked::linked_with, crate::proofs::Linked::link_found, crate::proofs::Linked::fits_sent, crate::proofs::Sides::carried_none))]
    pub(crate) fn number_next(
        &mut self,
        place: usize,
        peer: u16,
    ) -> Result<Option<Next>, NumbersSpent>
        ensures arcs { (rec : RecordValue) → OnOk result (self.new ≡ record self.old { arcs = (carried self.old.arcs peer rec).0 }) }
        ensures out { (rec : RecordValue) → IfOk result (λ next. outs_with next rec ≡ (carried self.old.arcs peer rec).1) }
        ensures spent { (rec : RecordValue) → OnErr result (some_past_numbers (carried self.old.arcs peer rec).1 ≡ true) }
        ensures same { OnErr result (self.new ≡ self.old) }
    {
        let Some(tie) = self.tree.tie_near(place, peer) else {
            return Ok(None);
        };
        number_on(tie)
    }

    /// None of the dialogues is chained.
    pub(crate) fn has_none_chained(&self) -> bool
        ensures { result ≡ has_none_chained self.now.arcs }
    {
        match self.tree.above() {
            Some(tie) if is_chained(tie) => false,
            _ => are_unchained(self.tree.subordinates()),
        }
    }

    /// No grant is deferred.
    pub(crate) fn has_no_grant(&self) -> bool
        ensures { result ≡ has_no_grant self.now.arcs }
    {
        match self.tree.above() {
            Some(tie) if is_deferring(tie) => false,
            _ => defer_none(self.tree.subordinates()),
        }
    }

    /// What a passage of the transaction does to the arcs, to each in place.
    #[inline(always)]
    #[tactic(auto, using(crate::proofs::Steps::stepped_sided, crate::proofs::Linked::linked_stepped, crate::proofs::Steps::stepped_all))]
    pub(crate) fn step(&mut self, step: ArcStep, branch: &Branch)
        ensures { self.new ≡ record self.old { arcs = stepped_arcs step self.old.superior branch.now self.old.arcs } }
    {
        step.take_tree(branch, &mut self.tree);
    }
}

/// The dialogue on the arc is chained.
pub(crate) fn is_chained(tie: &Tie) -> bool
    ensures { result ≡ is_chained (arc_of tie.now).dialogue }
{
    tie.dialogue.units().has(CHAINED)
}

// None of them is chained.
fn are_unchained(ties: &[Tie]) -> bool
    ensures { result ≡ has_none_chained (map arc_of ties.now) }
{
    for tie in ties {
        if is_chained(tie) {
            return false;
        }
    }
    true
}

// No grant is deferred on any of them.
fn defer_none(ties: &[Tie]) -> bool
    ensures { result ≡ has_no_grant (map arc_of ties.now) }
{
    for tie in ties {
        if is_deferring(tie) {
            return false;
        }
    }
    true
}

// Writes that arc over the one with its peer, which is looked for at that place among the subordinates' first.
#[tactic(auto, using(crate::proofs::Sides::first_at, crate::proofs::Sides::unwritten))]
fn write(tree: &mut Invocation, place: usize, tie: &Tie)
    requires { is_sided tree.old ≡ true }
    ensures { tree.new ≡ with_tie tree.old tie.now.addr.node tie.now }
{
    if let Some(own) = tree.tie_near(place, tie.addr().node) {
        *own = *tie;
    }
}
