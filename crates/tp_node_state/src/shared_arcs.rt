//! The arcs of a node, which its copies share.
ghost use Rattle.std.specs.Prelude.{◌≡◌, ◌⊎◌, true, false, [], Option, None, Some, map, IfOk, IfSome, OnOk, OnErr};
ghost use Rattle.std.specs.Option.{option_map, option_copied};
ghost use Rattle.tp_model.specs.Links.{dropped_by, with_one_taken};
ghost use Rattle.tp_model.specs.Arcs.{find_arc, put_arc, link_with, without_arc, with_dialogue, with_link, carried, shut_with};
ghost use Rattle.tp_model.specs.Events.{some_past_numbers};
ghost use Rattle.tp_tree.specs.Tie.{arc_of, place_of};
ghost use Rattle.tp_tree.specs.Invocation.{with_arc};
ghost use Rattle.tp_link.specs.Link.{with_one_sent};
ghost use Rattle.tp_node_state.specs.Arcs.{side_with, fits_link, has_place, new_arc, count_subordinates_in, next_on, is_spent, outs_next};
ghost use Rattle.tp_node_state.specs.ArcStep.{stepped_arcs};
ghost use Rattle.tp_node_state.specs.Outs.{outs_of_option, outs_with};
ghost use Rattle.tp_records.specs.declared.dialogue.DialogueRecord.{DialogueRecord as RecordValue};
ghost use Rattle.tp_node_state.specs.SharedArcs.{Stands, aside_at, is_other, taken_in, woken_if, has_none_chained, has_no_grant};

use crate::arc_step::{ArcStep, is_deferring};
use crate::arcs::{Arcs, is_chained};
use crate::directory::Directory;
use crate::outs::{Next, Out};
use std::alloc::Global;
use std::marker::Model;
use std::mem::{replace, swap};
use std::sync::Arc;
use tp_commit::Branch;
use tp_dialogue::Dialogue;
use tp_link::{Link, LinkState};
use tp_model::Side;
use tp_names::{Addr, Mark, NoMemory, NumbersSpent};
use tp_records::{DialogueRecord, PeerRecord};
use tp_tree::Tie;
use tp_units::Units;

/// So few subordinates are copied sooner than shared.
const FEW: usize = 8;

/// The arcs of a node. A copy of the node shares them with it where they are many: an arc that changes stands aside until
/// nobody else has them. Where a second one changes they are copied, in memory that was taken with the share.
#[derive(Debug, Drop)]
pub struct SharedArcs {
    own: Arcs,
    shared: Option<Arc<Arcs>>,
    change: Option<Tie>,
    spare: Vec<Tie>,
    directory: Directory,
}

impl Model for SharedArcs {
    ghost use Rattle.tp_node_state.specs.Arcs.{Arcs as ArcsValue};
    ghost use Rattle.tp_node_state.specs.SharedArcs.{value_of, IsShared};

    ghost Value = { ArcsValue };

    ghost view = { value_of };

    ghost invariant = { IsShared };
}

impl SharedArcs {
    /// No arcs, of which 32 or 256 may lead to subordinates. It takes no memory.
    pub fn new(alloc: Global, node: u16, superior: Option<Addr>, room: u16) -> SharedArcs
        requires { (room ≡ 32) ⊎ (room ≡ 256) }
        ensures { result ≡ record { superior = superior; room = room; arcs = [] } }
    {
        SharedArcs {
            own: Arcs::new(alloc, node, superior, room),
            shared: None,
            change: None,
            spare: Vec::new(alloc),
            directory: Directory::new(),
        }
    }

    /// Becomes equal to those, and shares them where they are shared. Without memory they stay what they were.
    #[inline(always)]
    pub fn copy_from(&mut self, other: &SharedArcs) -> Result<(), NoMemory>
        ensures copy { OnOk result (self.new ≡ other.now) }
        ensures same { OnErr result (self.new ≡ self.old) }
    {
        self.directory.copy_from(&other.directory)?;
        let Some(all) = &other.shared else {
            self.own.copy_from(&other.own)?;
            if self.shared.is_some() {
                self.shared = None;
            }
            return Ok(());
        };
        self.spare.reserve(all.subordinates())?;
        self.shared = Some(Arc::try_clone(all)?);
        put_aside(&mut self.change, &other.change);
        Ok(())
    }

    /// Equal arcs.
    pub fn copy(&self, alloc: Global) -> Result<SharedArcs, NoMemory>
        ensures { IfOk result (λ v. v ≡ self.now) }
    {
        let mut copy = SharedArcs::new(alloc, 0, None, 32);
        copy.copy_from(self)?;
        Ok(copy)
    }

    // Those on which the change is made.
    #[tactic(auto, using(crate::proofs::Shares::count_put))]
    fn all(&self) -> &Arcs
        ensures superior { (result.now).superior ≡ self.now.superior }
        ensures count { count_subordinates_in (result.now).superior (result.now).arcs ≡ count_subordinates_in self.now.superior self.now.arcs }
    {
        match &self.shared {
            None => &self.own,
            Some(all) => all,
        }
    }

    /// The superior's address, as it was declared.
    pub fn superior(&self) -> Option<Addr>
        ensures { result ≡ self.now.superior }
    {
        self.all().superior()
    }

    /// The node's side on an arc with that peer.
    pub fn side(&self, peer: u16) -> Side
        ensures { result ≡ side_with self.now.superior peer }
    {
        self.all().side(peer)
    }

    /// The arc with that peer.
    #[inline(always)]
    pub fn find(&self, peer: u16) -> Option<Tie>
        ensures arc { option_map arc_of result ≡ find_arc self.now.arcs peer }
        ensures side { IfSome result (λ t. t.dialogue.side ≡ side_with self.now.superior peer) }
        ensures link { IfSome result (λ t. fits_link (side_with self.now.superior peer) t.link ≡ true) }
    {
        self.get(peer).copied()
    }

    /// The arc with that peer, where it stands.
    #[inline(always)]
    pub fn get(&self, peer: u16) -> Option<&Tie>
        ensures arc { option_map arc_of (option_copied result) ≡ find_arc self.now.arcs peer }
        ensures side { IfSome result (λ t. t.now.dialogue.side ≡ side_with self.now.superior peer) }
        ensures link { IfSome result (λ t. fits_link (side_with self.now.superior peer) t.now.link ≡ true) }
    {
        self.near(self.directory.of(peer), peer)
    }

    /// The arc with that peer, where it stands: it is sought at that place among the subordinates' first.
    #[inline(always)]
    #[tactic(auto, using(crate::proofs::Shares::found_in))]
    pub fn near(&self, place: usize, peer: u16) -> Option<&Tie>
        ensures arc { option_map arc_of (option_copied result) ≡ find_arc self.now.arcs peer }
        ensures side { IfSome result (λ t. t.now.dialogue.side ≡ side_with self.now.superior peer) }
        ensures link { IfSome result (λ t. fits_link (side_with self.now.superior peer) t.now.link ≡ true) }
    {
        let Some(all) = &self.shared else {
            return self.own.near(place, peer);
        };
        match aside_at(&self.change, peer) {
            None => all.near(place, peer),
            Some(tie) => Some(tie),
        }
    }

    /// A list of the arcs, in order.
    #[inline(always)]
    pub fn list(&self, alloc: Global) -> Result<Vec<Tie>, NoMemory>
        ensures { IfOk result (λ ties. map arc_of ties.items ≡ self.now.arcs) }
    {
        let Some(all) = &self.shared else {
            return self.own.list(alloc);
        };
        let mut ties = all.list(alloc)?;
        if let Some(tie) = &self.change {
            put(ties.as_mut_slice(), tie);
        }
        Ok(ties)
    }

    /// How many arcs lead to subordinates.
    pub fn subordinates(&self) -> usize
        ensures { result ≡ count_subordinates_in self.now.superior self.now.arcs }
    {
        self.all().subordinates()
    }

    /// Where it says so, none of the dialogues is chained.
    #[tactic(auto, using(crate::proofs::Chained::none_put))]
    pub fn has_none_chained(&self) -> bool
        ensures { result ≡ true → has_none_chained self.now.arcs ≡ true }
    {
        let Some(all) = &self.shared else {
            return self.own.has_none_chained();
        };
        let is_changed = match &self.change {
            None => false,
            Some(tie) => is_chained(tie),
        };
        !is_changed && all.has_none_chained()
    }

    /// Where it says so, no grant is deferred.
    #[tactic(auto, using(crate::proofs::Chained::no_grant_put))]
    pub fn has_no_grant(&self) -> bool
        ensures { result ≡ true → has_no_grant self.now.arcs ≡ true }
    {
        let Some(all) = &self.shared else {
            return self.own.has_no_grant();
        };
        let is_changed = match &self.change {
            None => false,
            Some(tie) => is_deferring(tie),
        };
        !is_changed && all.has_no_grant()
    }

    // Takes them out, shared with nobody.
    fn take_own(&mut self) -> Arcs
        ensures { result ≡ self.old }
    {
        let alloc = *self.spare.allocator();
        let Some(all) = self.shared.take() else {
            return replace(&mut self.own, Arcs::new(alloc, 0, None, 32));
        };
        let mut own = all.copy_into(replace(&mut self.spare, Vec::new(alloc)));
        if let Some(tie) = self.change.take() {
            own.put(self.directory.of(tie.addr().node), &tie);
        }
        own
    }

    // Puts them in, shared with nobody.
    fn put_own(&mut self, own: Arcs)
        ensures { self.new ≡ own }
    {
        self.shared = None;
        self.own = own;
    }

    /// Adds a new dialogue, on an association of that state: one with a subordinate after the others, and the superior's
    /// before them. Without memory nothing changes.
    pub fn add(&mut self, addr: Addr, units: Units, side: Side, link: Link) -> Result<(), NoMemory>
        requires other { find_arc self.old.arcs addr.node ≡ None }
        requires side { side ≡ side_with self.old.superior addr.node }
        requires place { has_place side self.old ≡ true }
        requires link { fits_link side link ≡ true }
        ensures added { OnOk result (self.new ≡ record self.old { arcs = with_arc side (new_arc addr units side link) self.old.arcs }) }
        ensures same { OnErr result (self.new ≡ self.old) }
    {
        let mut own = self.take_own();
        let added = own.add(addr, units, side, link);
        self.put_own(own);
        added
    }

    /// Takes the arc with that peer away, where there is one.
    pub fn remove(&mut self, peer: u16)
        ensures { self.new ≡ record self.old { arcs = without_arc self.old.arcs peer } }
    {
        let mut own = self.take_own();
        self.directory.forget();
        own.remove(peer);
        self.put_own(own);
    }

    // Puts that arc in the place of the one with its peer.
    #[tactic(auto, using(crate::proofs::Shares::set_changed, crate::proofs::Shares::set_stands))]
    fn set(&mut self, tie: Tie)
        requires { Stands self.old tie }
        ensures { self.new ≡ record self.old { arcs = put_arc self.old.arcs (arc_of tie) } }
    {
        if self.shared.is_none() {
            self.own.put(self.directory.of(tie.addr().node), &tie);
            return;
        }
        if is_other(&self.change, tie.addr().node) {
            let mut own = self.take_own();
            own.put(self.directory.of(tie.addr().node), &tie);
            self.put_own(own);
            return;
        }
        self.change = Some(tie);
    }

    // The arc with that peer, where there is one, stands aside with that link.
    #[tactic(auto, using(crate::proofs::Sides::with_link_none, crate::proofs::Shares::stands_link, crate::proofs::Shares::link_put))]
    fn put_link_aside(&mut self, peer: u16, link: Link)
        requires { fits_link (side_with self.old.superior peer) link ≡ true }
        ensures { self.new ≡ record self.old { arcs = with_link self.old.arcs peer (λ _. link) } }
    {
        let Some(mut tie) = self.find(peer) else {
            return;
        };
        tie.link = link;
        self.set(tie);
    }

    /// Changes the link of the arc with that peer, where there is one.
    pub fn put_link(&mut self, peer: u16, link: Link)
        requires { fits_link (side_with self.old.superior peer) link ≡ true }
        ensures { self.new ≡ record self.old { arcs = with_link self.old.arcs peer (λ _. link) } }
    {
        if self.shared.is_none() {
            self.own.put_link(self.directory.of(peer), peer, link);
            return;
        }
        self.put_link_aside(peer, link);
    }

    // The arc with that peer, where there is one, stands aside with that dialogue.
    #[tactic(auto, using(crate::proofs::Sides::with_dialogue_none, crate::proofs::Shares::stands_dialogue, crate::proofs::Shares::dialogue_put))]
    fn put_dialogue_aside(&mut self, peer: u16, dialogue: Dialogue)
        requires { dialogue.side ≡ side_with self.old.superior peer }
        ensures { self.new ≡ record self.old { arcs = with_dialogue self.old.arcs peer (λ _. dialogue.dialogue) } }
    {
        let Some(mut tie) = self.find(peer) else {
            return;
        };
        tie.dialogue = dialogue;
        self.set(tie);
    }

    /// Changes the dialogue of the arc with that peer, where there is one. The node's side stays.
    pub fn put_dialogue(&mut self, peer: u16, dialogue: Dialogue)
        requires { dialogue.side ≡ side_with self.old.superior peer }
        ensures { self.new ≡ record self.old { arcs = with_dialogue self.old.arcs peer (λ _. dialogue.dialogue) } }
    {
        if self.shared.is_none() {
            self.own
                .put_dialogue(self.directory.of(peer), peer, dialogue);
            return;
        }
        self.put_dialogue_aside(peer, dialogue);
    }

    // The record with that pair and number is taken on the arc with that peer, where there is one, which stands aside with it.
    #[tactic(auto, using(crate::proofs::Takes::none_taken))]
    fn take_aside(&mut self, peer: u16, x: Mark, y: Mark, seq: u64, wakes: bool)
        requires { dropped_by (link_with self.old.arcs peer) x y seq ≡ None }
        ensures { self.new ≡ record self.old { arcs = taken_in wakes peer self.old.arcs } }
    {
        let Some(mut tie) = self.find(peer) else {
            return;
        };
        take_on(&mut tie, x, y, seq, wakes);
        self.set(tie);
    }

    /// The record with that pair and number is taken on the arc with that peer, where there is one, and ends its rest where
    /// it wakes it.
    #[inline(always)]
    pub fn take(&mut self, peer: u16, x: Mark, y: Mark, seq: u64, wakes: bool)
        requires { dropped_by (link_with self.old.arcs peer) x y seq ≡ None }
        ensures { self.new ≡ record self.old { arcs = taken_in wakes peer self.old.arcs } }
    {
        if self.shared.is_none() {
            self.own
                .take(self.directory.of(peer), peer, x, y, seq, wakes);
            return;
        }
        self.take_aside(peer, x, y, seq, wakes);
    }

    // The same, to arcs that are shared with nobody from then on.
    fn step_own(&mut self, step: ArcStep, branch: &Branch)
        ensures { self.new ≡ record self.old { arcs = stepped_arcs step self.old.superior branch.now self.old.arcs } }
    {
        let mut own = self.take_own();
        own.step(step, branch);
        self.put_own(own);
    }

    /// What a passage of the transaction does to the arcs, to each in place.
    pub fn step(&mut self, step: ArcStep, branch: &Branch)
        ensures { self.new ≡ record self.old { arcs = stepped_arcs step self.old.superior branch.now self.old.arcs } }
    {
        if self.shared.is_none() {
            self.own.step(step, branch);
            return;
        }
        self.step_own(step, branch);
    }

    /// An arc that stands aside takes its place where nobody else has them, and many arcs are made ready to be shared. They are
    /// the same.
    pub fn settle(&mut self, alloc: Global)
        ensures { self.new ≡ self.old }
    {
        if self.shared.is_some() {
            self.carry_out();
        } else if self.own.subordinates() > FEW {
            self.share(alloc);
        }
    }

    // The arc that stands aside takes its place.
    fn carry_out(&mut self)
        ensures { self.new ≡ self.old }
    {
        let Some(shared) = &mut self.shared else {
            return;
        };
        let Some(tie) = &self.change else {
            return;
        };
        let Some(all) = Arc::get_mut(shared) else {
            return;
        };
        all.put(self.directory.of(tie.addr().node), tie);
        self.change = None;
    }

    // Without memory they are not shared.
    fn share(&mut self, alloc: Global)
        ensures { self.new ≡ self.old }
    {
        if self.shared.is_some() {
            return;
        }
        if self.spare.reserve(self.own.subordinates()).is_err() {
            return;
        }
        let Ok(mut shared) = Arc::new(alloc, Arcs::new(alloc, 0, None, 32)) else {
            return;
        };
        let Some(all) = Arc::get_mut(&mut shared) else {
            return;
        };
        self.directory.learn(alloc, self.own.below());
        swap(all, &mut self.own);
        self.shared = Some(shared);
        self.change = None;
    }

    // The same, where the arc then stands aside.
    #[tactic(auto, using(crate::proofs::Sides::carried_none, crate::proofs::Sides::carried_next, crate::proofs::Linked::fits_sent))]
    fn number_aside(&mut self, peer: u16) -> Result<Option<Next>, NumbersSpent>
        ensures arcs { (rec : RecordValue) → OnOk result (self.new ≡ record self.old { arcs = (carried self.old.arcs peer rec).0 }) }
        ensures out { (rec : RecordValue) → IfOk result (λ next. outs_with next rec ≡ (carried self.old.arcs peer rec).1) }
        ensures spent { (rec : RecordValue) → OnErr result (some_past_numbers (carried self.old.arcs peer rec).1 ≡ true) }
        ensures same { OnErr result (self.new ≡ self.old) }
    {
        let Some(mut tie) = self.find(peer) else {
            return Ok(None);
        };
        let next = number_on(&mut tie)?;
        self.set(tie);
        Ok(next)
    }

    /// Numbers the next record that goes out on the arc with that peer, where it is live. Where no number is left, nothing
    /// changes.
    #[inline(always)]
    pub fn number_next(&mut self, peer: u16) -> Result<Option<Next>, NumbersSpent>
        ensures arcs { (rec : RecordValue) → OnOk result (self.new ≡ record self.old { arcs = (carried self.old.arcs peer rec).0 }) }
        ensures out { (rec : RecordValue) → IfOk result (λ next. outs_with next rec ≡ (carried self.old.arcs peer rec).1) }
        ensures spent { (rec : RecordValue) → OnErr result (some_past_numbers (carried self.old.arcs peer rec).1 ≡ true) }
        ensures same { OnErr result (self.new ≡ self.old) }
    {
        if self.shared.is_none() {
            return self.own.number_next(self.directory.of(peer), peer);
        }
        self.number_aside(peer)
    }

    /// Takes the arc with that peer away; where it is live the peer is told.
    #[tactic(auto, using(crate::proofs::Sides::shut_says_live))]
    pub fn shut(&mut self, peer: u16) -> Option<Out>
        ensures arcs { self.new ≡ record self.old { arcs = (shut_with self.old.arcs peer).0 } }
        ensures out { outs_of_option result ≡ (shut_with self.old.arcs peer).1 }
    {
        let tie = self.find(peer)?;
        self.remove(peer);
        let (Some(x), Some(y)) = tie.link.marks() else {
            return None;
        };
        Some(Out::Send {
            to: tie.addr(),
            rec: PeerRecord::ShutAssoc { x, y: Some(y) },
        })
    }
}

/// Arcs that may be shared are given back.
pub fn release(arcs: &mut Option<SharedArcs>)
    ensures { (arcs.new ≡ arcs.old) ⊎ (arcs.new ≡ None) }
{
    let is_shared = match arcs {
        None => false,
        Some(arcs) => arcs.shared.is_some(),
    };
    if is_shared {
        *arcs = None;
    }
}

/// The record with that pair and number is taken on the arc, and ends its rest where it wakes it.
pub(crate) fn take_on(tie: &mut Tie, x: Mark, y: Mark, seq: u64, wakes: bool)
    requires { dropped_by (arc_of tie.old).link x y seq ≡ None }
    ensures addr { tie.new.addr ≡ tie.old.addr }
    ensures link { tie.new.link ≡ with_one_taken tie.old.link }
    ensures side { tie.new.dialogue.side ≡ tie.old.dialogue.side }
    ensures dialogue { tie.new.dialogue.dialogue ≡ woken_if wakes tie.old.dialogue.dialogue }
{
    let Ok(()) = tie.link.take(x, y, seq) else {
        unreachable!()
    };
    if wakes {
        tie.dialogue.wake();
    }
}

// What stands aside of those stands aside here.
fn put_aside(change: &mut Option<Tie>, other: &Option<Tie>)
    ensures { change.new ≡ other.now }
{
    *change = *other;
}

// The arc that stands aside, where it is with that peer.
fn aside_at(change: &Option<Tie>, peer: u16) -> Option<&Tie>
    ensures { option_copied result ≡ aside_at change.now peer }
{
    match change {
        Some(tie) if tie.addr().node == peer => Some(tie),
        _ => None,
    }
}

// One with another peer stands aside.
fn is_other(change: &Option<Tie>, peer: u16) -> bool
    ensures { result ≡ is_other change.now peer }
{
    match change {
        None => false,
        Some(tie) => tie.addr().node != peer,
    }
}

// Where the arc with that peer stands in a list; after the others where there is none.
fn place_of(ties: &[Tie], peer: u16) -> usize
    ensures { result ≡ place_of ties.now peer }
{
    for i in 0..ties.len() {
        if ties[i].addr().node == peer {
            return i;
        }
    }
    ties.len()
}

// Puts that arc in the place of the one with its peer, in a list.
#[tactic(auto, using(crate::proofs::Shares::placed, crate::proofs::Shares::set_past))]
fn put(ties: &mut [Tie], tie: &Tie)
    ensures { map arc_of ties.new ≡ put_arc (map arc_of ties.old) (arc_of tie.now) }
{
    let place = place_of(ties, tie.addr().node);
    if place < ties.len() {
        ties[place] = *tie;
    }
}

/// The pair and the number of the next record on a link, where it is live, and the record is counted.
#[tactic(auto, using(crate::proofs::Sides::next_is))]
pub fn next_on(link: &mut Link) -> Result<Option<(Mark, Mark, u64)>, NumbersSpent>
    ensures next { IfOk result (λ next. next ≡ next_on link.old) }
    ensures counted { OnOk result (link.new ≡ with_one_sent link.old) }
    ensures unspent { OnOk result (is_spent link.old ≡ false) }
    ensures spent { OnErr result (is_spent link.old ≡ true) }
    ensures same { OnErr result (link.new ≡ link.old) }
{
    match link.state() {
        LinkState::Idle | LinkState::Opening | LinkState::Offered => Ok(None),
        LinkState::Live if link.left() == 0 => Err(NumbersSpent),
        LinkState::Live => Ok(Some(link.send())),
    }
}

/// The next record on an arc is numbered and counted there.
#[tactic(auto, using(crate::proofs::Sides::next_is))]
pub(crate) fn number_on(tie: &mut Tie) -> Result<Option<Next>, NumbersSpent>
    ensures addr { tie.new.addr ≡ tie.old.addr }
    ensures dialogue { tie.new.dialogue ≡ tie.old.dialogue }
    ensures link { OnOk result (tie.new.link ≡ with_one_sent tie.old.link) }
    ensures next { (rec : RecordValue) → IfOk result (λ next. outs_with next rec ≡ outs_next tie.old.addr rec (next_on tie.old.link)) }
    ensures spent { OnErr result (is_spent tie.old.link ≡ true) }
    ensures same { OnErr result (tie.new ≡ tie.old) }
{
    if tie.link.state() != LinkState::Live {
        return Ok(None);
    }
    if tie.link.left() == 0 {
        return Err(NumbersSpent);
    }
    let to = tie.addr();
    let (x, y, seq) = tie.link.send();
    Ok(Some(Next { to, x, y, seq }))
}

/// A record with that pair and number, where they are given.
pub fn sent(to: Addr, next: Option<(Mark, Mark, u64)>, rec: DialogueRecord) -> Option<Out>
    ensures { outs_of_option result ≡ outs_next to rec next }
{
    let (x, y, seq) = next?;
    let rec = PeerRecord::OnAssoc { x, y, seq, rec };
    Some(Out::Send { to, rec })
}
