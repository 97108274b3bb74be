//! The arcs of one node.
ghost use Rattle.std.specs.Prelude.{◌≡◌, ◌⊎◌, ◌≤◌, true, false, Option, None, Some, [], Ok, IfOk, OnOk, OnErr, IsNone, IsTrue, length};
ghost use Rattle.std.specs.Borrow.{sem};
ghost use Rattle.std.specs.Option.{option_copied, option_copied_mut, option_map};
ghost use Rattle.std.specs.Vec.{vec_capacity};
ghost use Rattle.tp_model.specs.Parts.{Digest};
ghost use Rattle.tp_model.specs.Arcs.{find_arc, put_arc, without_arc};
ghost use Rattle.tp_model.specs.Node.{may_root};
ghost use Rattle.tp_tree.specs.declared.tie.Tie.{Tie};
ghost use Rattle.tp_tree.specs.Tie.{arc_of, dialogue_of, said_on, dialogue_with, is_with, is_at, unless_with, find_tie, place_of, without_ties, fresh_tie, fresh_arc};
ghost use Rattle.tp_tree.specs.Invocation.{ties_of, arcs_of, has_room, with_added, with_arc, with_tie, without_tie, WritesLink, WritesDialogue};
ghost use Rattle.tp_tree.specs.Lends.{LendsTie, LendsBelow, LendsAbove};

use crate::Tie;
use std::alloc::Global;
use std::marker::Model;
use tp_dialogue::Dialogue;
use tp_model::Side;
use tp_names::{Addr, NoMemory};
use tp_units::Units;

/// The arcs of one node, which contracts see as the superior's, where there is one, and the
/// subordinates' in the order in which they were added.
#[derive(Debug, Drop)]
pub struct Invocation {
    node: u16,
    superior: Option<Addr>,
    room: u16,
    reserved: bool,
    above: Option<Tie>,
    below: Vec<Tie>,
}

impl Model for Invocation {
    ghost use Rattle.tp_tree.specs.Invocation.{Invocation as InvocationValue, value_of, IsReserved};

    ghost Value = { InvocationValue };

    ghost view = { value_of };

    ghost invariant = { IsReserved };
}

impl Invocation {
    /// A node with no arcs. Memory for `room` subordinates, 32 or 256, is taken here, and none later.
    pub fn new(
        alloc: Global,
        node: u16,
        superior: Option<Addr>,
        room: u16,
    ) -> Result<Invocation, NoMemory>
        requires { (room ≡ 32) ⊎ (room ≡ 256) }
        ensures { IfOk result (λ v. v ≡ record { node = node; superior = superior; room = room; reserved = true; above = None; below = [] }) }
    {
        let below = Vec::with_capacity(alloc, usize::from(room))?;
        Ok(Invocation {
            node,
            superior,
            room,
            reserved: true,
            above: None,
            below,
        })
    }

    /// A node with no arcs, and no memory for any: it is taken as arcs are added, for at most `room` subordinates, 32 or 256.
    pub fn bare(alloc: Global, node: u16, superior: Option<Addr>, room: u16) -> Invocation
        requires { (room ≡ 32) ⊎ (room ≡ 256) }
        ensures { result ≡ record { node = node; superior = superior; room = room; reserved = false; above = None; below = [] } }
    {
        Invocation {
            node,
            superior,
            room,
            reserved: false,
            above: None,
            below: Vec::new(alloc),
        }
    }

    /// The node's number.
    pub fn node(&self) -> u16
        ensures { result ≡ self.now.node }
    {
        self.node
    }

    /// The address of the superior, as it was declared.
    pub fn superior(&self) -> Option<Addr>
        ensures { result ≡ self.now.superior }
    {
        self.superior
    }

    // Promise 10.7, part 2
    /// Whether the node may be the root of a transaction: it has no live dialogue with Commit to its
    /// superior.
    pub fn may_root(&self) -> bool
        ensures { (d : Digest) → d.superior ≡ self.now.superior → d.arcs ≡ arcs_of self.now → result ≡ may_root d }
    {
        let Some(superior) = self.superior else {
            return true;
        };
        match self.get(superior.node) {
            None => true,
            Some(tie) => !tie.is_live_with_commit(),
        }
    }

    // Promise 10.5: A node's arcs are found, added, changed and taken away as the definitions say,
    //   in the order in which they were added, the superior's first
    /// The arc with the peer of that number.
    #[tactic(auto, using(crate::proofs::Arcs::arc_found))]
    pub fn get(&self, peer: u16) -> Option<&Tie>
        ensures tie { option_copied result ≡ find_tie (ties_of self.now) peer }
        ensures arc { option_map arc_of (option_copied result) ≡ find_arc (arcs_of self.now) peer }
    {
        if is_with(&self.above, peer) {
            return self.above.as_ref();
        }
        find(self.below.as_slice(), peer)
    }

    // Promise 10.5, part 2
    /// The dialogue with the peer of that number.
    pub fn find(&self, peer: u16) -> Option<&Dialogue>
        ensures tie { option_copied result ≡ option_map dialogue_of (find_tie (ties_of self.now) peer) }
        ensures arc { option_map said_on (option_copied result) ≡ dialogue_with (arcs_of self.now) peer }
    {
        let tie = self.get(peer)?;
        Some(&tie.dialogue)
    }

    // Promise 10.5, part 3
    /// The arc with the peer of that number, to be changed; none where `find` has none. What is written
    /// there takes its place.
    #[tactic(auto, using(crate::proofs::Ties::found_mut, crate::proofs::Arcs::arc_found, crate::proofs::Arcs::arcs_put, crate::proofs::Arcs::writes_dialogue, crate::proofs::Arcs::writes_link))]
    pub fn tie(&mut self, peer: u16) -> Option<&mut Tie>
        ensures* written { sem 𝓛 (LendsTie self.entry peer result) }
        ensures tie { option_copied_mut result ≡ find_tie (ties_of self.old) peer }
        ensures arc { option_map arc_of (option_copied_mut result) ≡ find_arc (arcs_of self.old) peer }
        ensures put { (t : Tie) → (arc_of t).peer.node ≡ peer → arcs_of (with_tie self.old peer t) ≡ put_arc (arcs_of self.old) (arc_of t) }
        ensures dialogue { WritesDialogue self.old peer }
        ensures link { WritesLink self.old peer }
    {
        if is_with(&self.above, peer) {
            return self.above.as_mut();
        }
        let place = place_of(self.below.as_slice(), peer);
        self.below.get_mut(place)
    }

    // Promise 10.5, part 6
    /// The arc with the peer of that number, to be changed, as `tie` lends it. It is looked for at that place among the
    /// subordinates' first, where no other than the first one with the peer stands.
    #[tactic(auto, using(crate::proofs::Ties::found_mut, crate::proofs::Arcs::arc_found, crate::proofs::Arcs::arcs_put, crate::proofs::Arcs::writes_dialogue, crate::proofs::Arcs::writes_link))]
    pub fn tie_near(&mut self, place: usize, peer: u16) -> Option<&mut Tie>
        requires { is_at self.old.below place peer ≡ true → place_of self.old.below peer ≡ place }
        ensures* written { sem 𝓛 (LendsTie self.entry peer result) }
        ensures tie { option_copied_mut result ≡ find_tie (ties_of self.old) peer }
        ensures arc { option_map arc_of (option_copied_mut result) ≡ find_arc (arcs_of self.old) peer }
        ensures put { (t : Tie) → (arc_of t).peer.node ≡ peer → arcs_of (with_tie self.old peer t) ≡ put_arc (arcs_of self.old) (arc_of t) }
        ensures dialogue { WritesDialogue self.old peer }
        ensures link { WritesLink self.old peer }
    {
        if is_with(&self.above, peer) {
            return self.above.as_mut();
        }
        let place = place_near(self.below.as_slice(), place, peer);
        self.below.get_mut(place)
    }

    /// The arcs to subordinates, in the order in which they were added.
    pub fn subordinates(&self) -> &[Tie]
        ensures { result.now ≡ self.now.below }
    {
        self.below.as_slice()
    }

    // Promise 10.5, part 7
    /// The arcs to subordinates, to be changed; what is written there takes their place.
    pub fn subordinates_mut(&mut self) -> &mut [Tie]
        ensures* written { sem 𝓛 (LendsBelow self.entry result) }
        ensures value { result.now ≡ self.old.below }
    {
        self.below.as_mut_slice()
    }

    // Promise 10.5, part 8
    /// The arc to the superior, where there is one, to be changed.
    pub fn above_mut(&mut self) -> Option<&mut Tie>
        ensures* written { sem 𝓛 (LendsAbove self.entry result) }
        ensures value { option_copied_mut result ≡ self.old.above }
    {
        self.above.as_mut()
    }

    /// The arc to the superior, where there is one.
    pub fn above(&self) -> Option<&Tie>
        ensures { option_copied result ≡ self.now.above }
    {
        self.above.as_ref()
    }

    /// An equal invocation, with memory for the arcs that it has and for no others.
    pub fn copy(&self, alloc: Global) -> Result<Invocation, NoMemory>
        ensures { IfOk result (λ v. v ≡ record self.now { reserved = false }) }
    {
        Ok(self.copy_into(Vec::with_capacity(alloc, self.below.len())?))
    }

    /// An equal invocation in that memory, which is enough for its subordinates.
    pub fn copy_into(&self, room: Vec<Tie>) -> Invocation
        requires { length self.now.below ≤ vec_capacity room }
        ensures { result ≡ record self.now { reserved = false } }
    {
        let mut below = room;
        below.clear();
        let Ok(()) = below.extend_from_slice(self.below.as_slice()) else {
            unreachable!()
        };
        Invocation {
            node: self.node,
            superior: self.superior,
            room: self.room,
            reserved: false,
            above: self.above,
            below,
        }
    }

    /// Becomes a copy of that one, in the memory that it has where that is enough. Without memory it stays what it was.
    #[inline(always)]
    pub fn copy_from(&mut self, other: &Invocation) -> Result<(), NoMemory>
        ensures copy { OnOk result (self.new ≡ record other.now { reserved = false }) }
        ensures same { OnErr result (self.new ≡ self.old) }
    {
        copy_all(&mut self.below, other.below.as_slice())?;
        self.node = other.node;
        self.superior = other.superior;
        self.room = other.room;
        self.reserved = false;
        copy_one(&mut self.above, &other.above);
        Ok(())
    }

    /// Whether an arc on that side can be added: one to the superior where there is none, and one to a
    /// subordinate where fewer than the room are there.
    pub fn has_room(&self, side: Side) -> bool
        ensures { result ≡ has_room side self.now }
    {
        match side {
            Side::Superior => self.below.len() < usize::from(self.room),
            Side::Subordinate => self.above.is_none(),
        }
    }

    // Promise 10.5, part 4 [clauses value arcs]
    /// Adds an arc with no association, on which the node is that side: an arc to a subordinate stands
    /// after the others, and the one to the superior before them. It takes no memory where all of the room is reserved.
    /// Without memory nothing changes.
    pub fn add(&mut self, addr: Addr, units: Units, side: Side) -> Result<(), NoMemory>
        requires other { IsNone (find_arc (arcs_of self.old) addr.node) }
        requires room { IsTrue (has_room side self.old) }
        ensures value { OnOk result (self.new ≡ with_added side (fresh_tie addr units side) self.old) }
        ensures arcs { OnOk result (arcs_of self.new ≡ with_arc side (fresh_arc addr units side) (arcs_of self.old)) }
        // Promise 10.6: A further arc needs no memory where the memory for all is reserved
        ensures memory { self.old.reserved ≡ true → result ≡ Ok tt }
        ensures same { OnErr result (self.new ≡ self.old) }
    {
        let tie = Tie::new(addr, units, side);
        match side {
            Side::Subordinate => self.above = Some(tie),
            Side::Superior => self.below.push(tie)?,
        }
        Ok(())
    }

    // Promise 10.5, part 5
    /// Takes away the arc with the peer of that number, where there is one.
    #[tactic(auto, using(crate::proofs::Arcs::arcs_without))]
    pub fn remove(&mut self, peer: u16)
        ensures value { self.new ≡ without_tie self.old peer }
        ensures arcs { arcs_of self.new ≡ without_arc (arcs_of self.old) peer }
    {
        self.above = unless_with(self.above, peer);
        remove_all(&mut self.below, peer);
    }
}

fn is_with(tie: &Option<Tie>, peer: u16) -> bool
    ensures { result ≡ is_with tie.now peer }
{
    match tie {
        None => false,
        Some(tie) => tie.addr().node == peer,
    }
}

fn unless_with(tie: Option<Tie>, peer: u16) -> Option<Tie>
    ensures { result ≡ unless_with tie peer }
{
    if is_with(&tie, peer) { None } else { tie }
}

// The first arc with the peer.
fn find(ties: &[Tie], peer: u16) -> Option<&Tie>
    ensures { option_copied result ≡ find_tie ties.now peer }
{
    for tie in ties {
        if tie.addr().node == peer {
            return Some(tie);
        }
    }
    None
}

// Where it stands; after the others where there is none.
fn place_of(ties: &[Tie], peer: u16) -> usize
    ensures { result ≡ place_of ties.now peer }
{
    for i in 0..ties.len() {
        if ties[i].addr().node == peer {
            return i;
        }
    }
    ties.len()
}

// The same, looked for at that place first.
#[tactic(auto, using(crate::proofs::Ties::at_place))]
fn place_near(ties: &[Tie], place: usize, peer: u16) -> usize
    requires { is_at ties.now place peer ≡ true → place_of ties.now peer ≡ place }
    ensures { result ≡ place_of ties.now peer }
{
    match ties.get(place) {
        Some(tie) if tie.addr().node == peer => place,
        _ => place_of(ties, peer),
    }
}

// They become equal to the others. Without memory they stay what they were.
fn copy_all(ties: &mut Vec<Tie>, others: &[Tie]) -> Result<(), NoMemory>
    ensures copy { OnOk result (ties.new.items ≡ others.now) }
    ensures same { OnErr result (ties.new.items ≡ ties.old.items) }
    ensures capacity { vec_capacity ties.old ≤ vec_capacity ties.new }
{
    if ties.len() == others.len() {
        if !others.is_empty() {
            ties.copy_from_slice(others);
        }
        return Ok(());
    }
    ties.reserve(others.len().saturating_sub(ties.len()))?;
    ties.clear();
    let Ok(()) = ties.extend_from_slice(others) else {
        unreachable!()
    };
    Ok(())
}

// It becomes equal to the other.
fn copy_one(tie: &mut Option<Tie>, other: &Option<Tie>)
    ensures { tie.new ≡ other.now }
{
    match other {
        None => {
            if tie.is_some() {
                *tie = None;
            }
        }
        Some(other) => match tie {
            None => *tie = Some(*other),
            Some(own) => *own = *other,
        },
    }
}

fn remove_all(ties: &mut Vec<Tie>, peer: u16)
    ensures items { ties.new.items ≡ without_ties ties.old.items peer }
    ensures capacity { vec_capacity ties.new ≡ vec_capacity ties.old }
{
    ties.retain(|tie| tie.addr().node != peer);
}
