//! What an event makes of a node, before any of it is so.
mod asked;
mod event;
mod heard;
mod taken;

ghost use Rattle.std.specs.Prelude.{◌≡◌, ◌≤◌, true, length, [], ◌∷◌, Some, None, IfOk, OnOk};
ghost use Rattle.tp_model.specs.declared.transaction.TxOut.{TxOut};
ghost use Rattle.tp_model.specs.Node.{move, perform, begin_on, begin_each, begin_chained, start_root, try_start, transact, remaining, keep, side_at, is_over, Commits};
ghost use Rattle.tp_commit.specs.Branch.{begins, standing};
ghost use Rattle.tp_draft.specs.Draft.{Plays, node_in, forgetting, with_current, without_value, later, recorded};
ghost use Rattle.tp_draft.specs.Begins.{opened_root, named_begun};
ghost use Rattle.tp_model.specs.Events.{retry_each, retry, purge, refused_purge};
ghost use Rattle.tp_model.specs.Requests.{call, accept, reject, begin_transaction, abort, refused_request, do_request};
ghost use Rattle.tp_model.specs.Events.{is_begin_dialogue};
ghost use Rattle.tp_records.specs.declared.request.Request.{Request};
ghost use Rattle.tp_model.specs.declared.arc.Side.{Side};
ghost use Rattle.tp_model.specs.Arcs.{find_arc, link_with};
ghost use Rattle.tp_model.specs.Dialogues.{Acts};
ghost use Rattle.tp_model.specs.Disposition.{sight_value};
ghost use Rattle.tp_tree.specs.Tie.{arc_of};
ghost use Rattle.tp_node.specs.Node.{has_place_at};
ghost use Rattle.tp_node.specs.Calls.{offer_of};
ghost use Rattle.tp_draft.specs.Calls.{answering, entering_tree, binding, taking_part};
ghost use Rattle.tp_node_state.specs.Arcs.{fits_link};
ghost use Rattle.tp_model.specs.Arrivals.{lose, take_abort, take_open, take_accept, take_begin, take_left, take_record};
ghost use Rattle.tp_records.specs.declared.indication.Indication.{Indication};
ghost use Rattle.tp_model.specs.declared.transaction.TxEvent.{TxEvent};
ghost use Rattle.tp_model.specs.Questions.{is_begin};
ghost use Rattle.tp_model.specs.Transactions.{transacted, step_of};
ghost use Rattle.tp_model.specs.Recovery.{settled, refused_kept};
ghost use Rattle.tp_dialogue.specs.Kinds.{asked_value, heard_value};
ghost use Rattle.tp_draft.specs.Talk.{speaking_on, deferring, telling_heard, taking_deferral};
ghost use Rattle.tp_draft.specs.Taking.{arc_to, taking_on};
ghost use Rattle.tp_draft.specs.Passage.{said_then, giving, completing, playing, speaking, passing, acting_by, is_commit_complete, place_of_completion};
ghost use Rattle.tp_node.specs.Passage.{passage_of};
ghost use Rattle.tp_model.specs.Links.{is_opening_with, dropped_by};

use std::alloc::Global;
use std::marker::Model;
use std::mem::{replace, swap};
use tp_commit::Branch;
use tp_dialogue::{Asked, Heard};
use tp_logrec::LogRec;
use tp_model::{Disposition, Kept, KeptEvent, Phase, Step, TxEvent, TxOut, TxOuts};
use tp_names::{Aaid, Addr, BranchId, Mark, NoMemory, NodeKey};
use tp_node::{Halt, Node, Passage, Spare, is_leaving};
use tp_node_state::{ArcStep, Outs, copies};
use tp_records::{DialogueRecord, Holder, Indication, PeerRecord, Request};
use tp_recover::{owed, step};
use tp_tree::Tie;
use tp_units::{CHAINED, Units};

/// A copy of a node on which an event runs, the record that is to be forced, and the outputs. Contracts see it as a move of the
/// definitions. Transactions that are over are spared, as memory for the next ones. The record is that of the last step of the
/// transaction, or an earlier one where that step logs none; the memory for what a step says stays with it.
#[derive(Drop)]
pub struct Draft {
    node: Box<Node>,
    spare: Spare,
    earlier: Option<LogRec>,
    step: Step,
    outs: Outs,
}

impl Model for Draft {
    ghost use Rattle.tp_draft.specs.Draft.{Draft as DraftValue, draft_of};

    ghost Value = { DraftValue };

    ghost view = { draft_of };
}

impl Draft {
    /// The node, as the draft has it by now.
    pub(crate) fn node(&self) -> &Node
        ensures { result.now ≡ node_in self.now }
    {
        &self.node
    }

    /// Forget is noted of the kept transaction of that key.
    pub(crate) fn note_forget(&mut self, alloc: Global, key: &NodeKey) -> Result<(), NoMemory>
        ensures { OnOk result (self.new ≡ record self.old { move = record self.old.move { next = forgetting key.now self.old.move.next } }) }
    {
        self.node.note_forget(alloc, key)
    }

    /// An indication to the user.
    #[tactic(auto, using(crate::proofs::Drafts::told))]
    pub(crate) fn tell(&mut self, indication: Indication) -> Result<(), Halt>
        ensures { Plays result self.old self.new (λ who. perform (TxOut.Tell indication ∷ [])) }
    {
        self.outs.tell(indication)?;
        Ok(())
    }

    /// A record to another node, outside every association.
    #[tactic(auto, using(crate::proofs::Drafts::sent))]
    pub(crate) fn send(&mut self, to: Addr, rec: PeerRecord) -> Result<(), Halt>
        ensures { Plays result self.old self.new (λ who. perform (TxOut.Recovery to rec ∷ [])) }
    {
        self.outs.send(to, rec)?;
        Ok(())
    }

    /// The arc with that peer is taken away.
    #[tactic(auto, using(crate::proofs::Drafts::one))]
    pub(crate) fn close(&mut self, peer: u16) -> Result<(), Halt>
        ensures { Plays result self.old self.new (λ who. perform (TxOut.Close peer ∷ [])) }
    {
        self.node.close(peer);
        Ok(())
    }

    /// The arc with that peer is taken away; where it is live the peer is told.
    #[tactic(auto, using(crate::proofs::Drafts::one))]
    pub(crate) fn shut(&mut self, peer: u16) -> Result<(), Halt>
        ensures { Plays result self.old self.new (λ who. perform (TxOut.Shut peer ∷ [])) }
    {
        let out = self.node.shut(peer);
        self.outs.extend(out)?;
        Ok(())
    }

    /// A record goes out on the arc with that peer, where it is live.
    #[inline(always)]
    #[tactic(auto, using(crate::proofs::Drafts::one, crate::proofs::Drafts::spent))]
    pub(crate) fn carry(&mut self, peer: u16, rec: DialogueRecord) -> Result<(), Halt>
        ensures { Plays result self.old self.new (λ who. perform (TxOut.Carry peer rec ∷ [])) }
    {
        let Some(next) = self.node.number_next(peer)? else {
            return Ok(());
        };
        self.outs.carry(&next, rec)?;
        Ok(())
    }

    // A copy of an indication to the user.
    #[tactic(auto, using(crate::proofs::Drafts::told))]
    fn tell_copy(&mut self, alloc: Global, indication: &Indication) -> Result<(), Halt>
        ensures { Plays result self.old self.new (λ who. perform (TxOut.Tell indication.now ∷ [])) }
    {
        self.outs.tell(copies::indication(alloc, indication)?)?;
        Ok(())
    }

    // A copy of a record on the arc with that peer.
    fn carry_copy(&mut self, alloc: Global, peer: u16, rec: &DialogueRecord) -> Result<(), Halt>
        ensures { Plays result self.old self.new (λ who. perform (TxOut.Carry peer rec.now ∷ [])) }
    {
        self.carry(peer, copies::dialogue(alloc, rec)?)
    }

    // A copy of a record outside every association.
    fn send_copy(&mut self, alloc: Global, to: Addr, rec: &PeerRecord) -> Result<(), Halt>
        ensures { Plays result self.old self.new (λ who. perform (TxOut.Recovery to rec.now ∷ [])) }
    {
        self.send(to, copies::peer(alloc, rec)?)
    }

    /// One output of a transaction.
    pub(crate) fn perform_one(&mut self, alloc: Global, out: &TxOut) -> Result<(), Halt>
        ensures { Plays result self.old self.new (λ who. perform (out.now ∷ [])) }
    {
        match out {
            TxOut::Tell(indication) => self.tell_copy(alloc, indication),
            TxOut::Carry { arc, rec } => self.carry_copy(alloc, *arc, rec),
            TxOut::Shut { arc } => self.shut(*arc),
            TxOut::Recovery { to, rec } => self.send_copy(alloc, *to, rec),
            TxOut::Close { arc } => self.close(*arc),
        }
    }

    /// The outputs of a transaction, one after the other.
    #[inline(always)]
    pub(crate) fn perform(&mut self, alloc: Global, outs: &[TxOut]) -> Result<(), Halt>
        ensures { Plays result self.old self.new (λ who. perform outs.now) }
    {
        for out in outs {
            if let Err(halt) = self.perform_one(alloc, out) {
                return Err(halt);
            }
        }
        Ok(())
    }

    /// Begin is sent on the arc with that peer, where it may be, with an identifier for the new branch.
    #[tactic(auto, using(crate::proofs::Beginnings::begins_none, crate::proofs::Beginnings::begins_with, crate::proofs::Beginnings::begins_spent))]
    pub(crate) fn begin_on(&mut self, peer: u16) -> Result<(), Halt>
        ensures { Plays result self.old self.new (λ who. begin_on who peer) }
    {
        let Some(rec) = self.node.begin_branch(peer)? else {
            return Ok(());
        };
        self.carry(peer, rec)
    }

    /// Begin is sent on the arcs with those peers, in order.
    #[tactic(auto, using(crate::proofs::Beginnings::each_none, crate::proofs::Beginnings::each_more))]
    pub(crate) fn begin_each(&mut self, peers: &[u16]) -> Result<(), Halt>
        ensures { Plays result self.old self.new (λ who. begin_each who peers.now) }
    {
        for peer in peers {
            if let Err(halt) = self.begin_on(*peer) {
                return Err(halt);
            }
        }
        Ok(())
    }

    /// Begin is sent on the live chained arcs to subordinates that are no branches yet, in order.
    #[inline(always)]
    pub(crate) fn begin_chained(&mut self, alloc: Global) -> Result<(), Halt>
        ensures { Plays result self.old self.new begin_chained }
    {
        let peers = self.node.chained_peers(alloc)?;
        self.begin_each(peers.as_slice())
    }

    // A root's transaction begins, with a new identifier and no branch.
    fn open_root(&mut self, alloc: Global) -> Result<(), Halt>
        ensures { Plays result self.old self.new opened_root }
    {
        let mark = self.node.draw()?;
        let aaid = Aaid {
            owner: self.node.site(),
            mark,
        };
        let key = NodeKey { aaid, branch: None };
        self.node
            .begin_transaction(alloc, &mut self.spare, &key, &None)?;
        Ok(())
    }

    // Begin on the arcs that are named, and then on the chained ones.
    fn begin_named(&mut self, alloc: Global, named: &[u16]) -> Result<(), Halt>
        ensures { Plays result self.old self.new (named_begun named.now) }
    {
        if let Err(halt) = self.begin_each(named) {
            return Err(halt);
        }
        self.begin_chained(alloc)
    }

    /// A root's transaction begins: Begin is sent on the arcs with the peers that are named, and then on the chained ones.
    pub(crate) fn start_root(&mut self, alloc: Global, named: &[u16]) -> Result<(), Halt>
        ensures { Plays result self.old self.new (λ who. start_root who named.now) }
    {
        if let Err(halt) = self.open_root(alloc) {
            return Err(halt);
        }
        self.begin_named(alloc, named)
    }

    /// The next transaction starts, where one starts by itself.
    #[tactic(auto, using(crate::proofs::Beginnings::starts_not, crate::proofs::Beginnings::starts_now))]
    pub(crate) fn try_start(&mut self, alloc: Global) -> Result<(), Halt>
        ensures { Plays result self.old self.new try_start }
    {
        if !self.node.may_start(alloc)? {
            return Ok(());
        }
        self.start_root(alloc, &[])
    }

    // What is said, and then what a passage does to the arcs.
    fn play_then(
        &mut self,
        alloc: Global,
        step: ArcStep,
        branch: &Branch,
        outs: &[TxOut],
    ) -> Result<(), Halt>
        ensures { Plays result self.old self.new (said_then step branch.now outs.now) }
    {
        if let Err(halt) = self.perform(alloc, outs) {
            return Err(halt);
        }
        self.node.step(step, branch);
        Ok(())
    }

    // At a completed commitment control goes back to the superior side, and the deferred grants are given.
    fn give(&mut self, alloc: Global, branch: &Branch) -> Result<(), Halt>
        ensures { Plays result self.old self.new (giving branch.now) }
    {
        let grants = self.node.grants(alloc, branch)?;
        self.node.step(ArcStep::Commit, branch);
        self.perform(alloc, grants.as_slice())
    }

    // What is said at a completed commitment: the Grants stand before the indication of it.
    fn play_commit(&mut self, alloc: Global, branch: &Branch, outs: &[TxOut]) -> Result<(), Halt>
        ensures { Plays result self.old self.new (λ who. playing branch.now Commits outs.now who) }
    {
        let (before, behind) = outs.split_at(place_of_completion(outs));
        if let Err(halt) = self.perform(alloc, before) {
            return Err(halt);
        }
        self.complete_commit(alloc, branch, behind)
    }

    // The same from the Grants on.
    fn complete_commit(
        &mut self,
        alloc: Global,
        branch: &Branch,
        outs: &[TxOut],
    ) -> Result<(), Halt>
        ensures { Plays result self.old self.new (completing branch.now outs.now) }
    {
        if let Err(halt) = self.give(alloc, branch) {
            return Err(halt);
        }
        self.perform(alloc, outs)
    }

    // What is said, with what the passage does to control.
    fn play(
        &mut self,
        alloc: Global,
        branch: &Branch,
        passage: Passage,
        outs: &[TxOut],
    ) -> Result<(), Halt>
        ensures { Plays result self.old self.new (playing branch.now (passage_of passage) outs.now) }
    {
        match passage {
            Passage::Stays | Passage::Enters | Passage::Falls => self.perform(alloc, outs),
            Passage::FallsAtOnce | Passage::RollsBack => {
                self.play_then(alloc, ArcStep::RollBack, branch, outs)
            }
            Passage::Commits => self.play_commit(alloc, branch, outs),
            Passage::Leaves => self.play_then(alloc, ArcStep::Leave, branch, outs),
        }
    }

    // What a transaction says as it passes, with what it does to its arcs.
    fn speak(
        &mut self,
        alloc: Global,
        branch: &Branch,
        passage: Passage,
        outs: &[TxOut],
    ) -> Result<(), Halt>
        ensures { Plays result self.old self.new (speaking branch.now (passage_of passage) outs.now) }
    {
        self.node.enter(branch, passage);
        self.play(alloc, branch, passage, outs)
    }

    // What an event asks for: its record is logged and kept, and what it says is handed out.
    fn plan(
        &mut self,
        alloc: Global,
        branch: &mut Branch,
        event: &TxEvent,
    ) -> Result<TxOuts, NoMemory>
        ensures said { IfOk result (λ said. said ≡ (step_of (transacted event.now branch.old)).outs) }
        ensures rec { OnOk result (self.new ≡ recorded (step_of (transacted event.now branch.old)).rec self.old) }
        ensures next { OnOk result (branch.new ≡ standing (transacted event.now branch.old).next) }
    {
        put_aside(&mut self.step.rec, &mut self.earlier);
        self.step.outs.clear();
        branch.turn(alloc, event, &mut self.step)?;
        self.node.keep(alloc, &self.step.rec)?;
        Ok(replace(&mut self.step.outs, TxOuts::new(alloc)))
    }

    // Keeps the memory of what a transaction has said.
    fn put_said(&mut self, said: &mut TxOuts)
        ensures { self.new ≡ self.old }
    {
        swap(&mut self.step.outs, said);
    }

    // A turn of the transaction as it is seen now, by an event that it does not refuse; and whether it is over. Its arcs are
    // those that it had.
    fn take_turn(
        &mut self,
        alloc: Global,
        branch: &mut Branch,
        event: &TxEvent,
    ) -> Result<bool, Halt>
        requires { begins event.now ≡ 0 }
        ensures over { IfOk result (λ over. over ≡ is_over (passing branch.old event.now)) }
        ensures next { OnOk result (branch.new ≡ standing (transacted event.now branch.old).next) }
        ensures turn { Plays (without_value result) self.old self.new (acting_by branch.old event.now) }
    {
        let before = branch.phase();
        let mut said = self.plan(alloc, branch, event)?;
        let passage = Passage::of(is_leaving(event), before, branch.phase());
        if let Err(halt) = self.speak(alloc, branch, passage, said.as_slice()) {
            return Err(halt);
        }
        self.put_said(&mut said);
        Ok(passage.is_over())
    }

    // What the transaction has become.
    #[inline(always)]
    fn settle(&mut self, next: Box<Branch>)
        ensures { self.new ≡ with_current self.old (remaining next.value) }
    {
        self.node.settle(next, &mut self.spare);
    }

    /// An event of the current transaction, which does not refuse it: what it says, logs and leaves; where it is over,
    /// the next one starts, if one starts by itself. Nothing happens where there is none.
    pub(crate) fn transact(&mut self, alloc: Global, event: &TxEvent) -> Result<(), Halt>
        requires { begins event.now ≡ 0 }
        ensures { Plays result self.old self.new (λ who. transact who event.now) }
    {
        let Some(mut branch) = self.node.take_seen() else {
            return Ok(());
        };
        match self.take_turn(alloc, &mut branch, event) {
            Err(halt) => Err(halt),
            Ok(false) => {
                self.settle(branch);
                Ok(())
            }
            Ok(true) => {
                self.settle(branch);
                self.try_start(alloc)
            }
        }
    }

    /// A record goes out on the arc with that peer, where its dialogue has said it.
    pub(crate) fn speak_on(
        &mut self,
        peer: u16,
        asked: Asked,
        rec: DialogueRecord,
    ) -> Result<(), Halt>
        ensures { Plays result self.old self.new (speaking_on peer (asked_value asked) rec) }
    {
        self.node.say(peer, asked);
        self.carry(peer, rec)
    }

    /// A deferral stands on the arc with that peer, and the transaction takes it up.
    pub(crate) fn defer(
        &mut self,
        alloc: Global,
        peer: u16,
        asked: Asked,
        event: &TxEvent,
    ) -> Result<(), Halt>
        requires { begins event.now ≡ 0 }
        ensures { Plays result self.old self.new (deferring peer (asked_value asked) event.now) }
    {
        self.node.say(peer, asked);
        self.transact(alloc, event)
    }

    /// Begin on the arc with that peer first; a node without a transaction starts one.
    pub(crate) fn begin_transaction(&mut self, alloc: Global, peer: u16) -> Result<(), Halt>
        ensures { Plays result self.old self.new (λ who. begin_transaction who peer) }
    {
        if self.node.has_current() {
            return self.begin_on(peer);
        }
        self.start_root(alloc, &[peer])
    }

    // Each of the kept transactions says again what is owed.
    fn retry_each(&mut self, alloc: Global, kept: &[Kept]) -> Result<(), Halt>
        ensures { Plays result self.old self.new (λ who. retry_each kept.now) }
    {
        for one in kept {
            let outs = owed(alloc, one)?;
            if let Err(halt) = self.perform(alloc, outs.as_slice()) {
                return Err(halt);
            }
        }
        Ok(())
    }

    // All of them do.
    fn retry_kept(&mut self, alloc: Global) -> Result<(), Halt>
        ensures { Plays result self.old self.new (λ who d. retry_each d.kept d) }
    {
        let kept = self.node.kept(alloc)?;
        self.retry_each(alloc, kept.as_slice())
    }

    /// The current transaction says again what it waits for, and then each of the kept ones.
    pub(crate) fn retry(&mut self, alloc: Global) -> Result<(), Halt>
        ensures { Plays result self.old self.new retry }
    {
        if let Err(halt) = self.transact(alloc, &TxEvent::Retry) {
            return Err(halt);
        }
        self.retry_kept(alloc)
    }

    /// What an event of a kept transaction asks for.
    fn settle_kept(&mut self, alloc: Global, step: Step) -> Result<(), Halt>
        ensures { Plays result self.old self.new (λ who. keep step) }
    {
        let Step { rec, outs } = step;
        if let Err(halt) = self.perform(alloc, outs.as_slice()) {
            return Err(halt);
        }
        self.node.keep(alloc, &rec)?;
        if rec.is_some() {
            self.step.rec = rec;
        }
        Ok(())
    }

    /// A new dialogue is asked for.
    #[tactic(auto, using(crate::proofs::Calls::call_spent))]
    pub(crate) fn call(&mut self, addr: Addr, units: Units) -> Result<(), Halt>
        requires declared { self.old.move.next.declared ≡ true }
        requires other { find_arc self.old.move.next.arcs addr.node ≡ None }
        requires side { Side.Superior ≡ side_at self.old.move.next addr.node }
        requires place { has_place_at Side.Superior self.old.move.next ≡ true }
        ensures { Plays result self.old self.new (λ who. call who addr units) }
    {
        let to = addr;
        let x = self.node.call(addr, units)?;
        let rec = PeerRecord::OpenAssoc { x, units };
        self.send(to, rec)
    }

    /// The superior's offer of a dialogue is answered.
    pub(crate) fn accept(&mut self, units: Units) -> Result<(), Halt>
        ensures { Plays result self.old self.new (λ who. accept who units) }
    {
        let Some((tie, x)) = self.node.offer() else {
            return Ok(());
        };
        self.answer(&tie, x, units)
    }

    // The offer of that mark on the arc is answered.
    #[tactic(auto, using(crate::proofs::Calls::answer_spent))]
    fn answer(&mut self, tie: &Tie, x: Mark, units: Units) -> Result<(), Halt>
        requires { offer_of self.old.move.next ≡ Some (arc_of tie.now, x) }
        ensures { Plays result self.old self.new (answering (arc_of tie.now) x units) }
    {
        let y = self.node.answer(tie, x, units)?;
        let rec = PeerRecord::AcceptAssoc { x, y, units };
        self.send(tie.addr(), rec)
    }

    /// The superior offers a dialogue.
    pub(crate) fn take_open(&mut self, from: Addr, x: Mark, units: Units) -> Result<(), Halt>
        requires declared { self.old.move.next.declared ≡ true }
        requires other { find_arc self.old.move.next.arcs from.node ≡ None }
        requires side { Side.Subordinate ≡ side_at self.old.move.next from.node }
        ensures { Plays result self.old self.new (λ who. take_open from x units) }
    {
        let peer = from.node;
        self.node.open(from, x, units)?;
        self.tell(Indication::BeginDialogue { peer, units })
    }

    // The peer answers the call on that arc, and the user is told.
    fn bind(&mut self, tie: &Tie, x: Mark, y: Mark, units: Units) -> Result<(), Halt>
        requires arc { find_arc self.old.move.next.arcs (arc_of tie.now).peer.node ≡ Some (arc_of tie.now) }
        requires link { fits_link (side_at self.old.move.next (arc_of tie.now).peer.node) tie.now.link ≡ true }
        requires opening { is_opening_with tie.now.link x ≡ true }
        ensures { Plays result self.old self.new (binding (arc_of tie.now) x y units) }
    {
        self.node.bind(tie, x, y, units);
        self.tell(Indication::BegunDialogue {
            peer: tie.addr().node,
            units,
        })
    }

    // A chained arc that becomes live takes part at once.
    fn take_part(&mut self, alloc: Global, peer: u16, units: Units) -> Result<(), Halt>
        ensures { Plays result self.old self.new (taking_part peer units) }
    {
        if !units.has(CHAINED) {
            return Ok(());
        }
        match self.node.phase() {
            Phase::Nil => self.try_start(alloc),
            Phase::Active if !self.node.has_asked() => self.begin_on(peer),
            _ => Ok(()),
        }
    }

    /// The peer answers the call on that arc.
    pub(crate) fn take_accept(
        &mut self,
        alloc: Global,
        tie: &Tie,
        x: Mark,
        y: Mark,
        units: Units,
    ) -> Result<(), Halt>
        requires arc { find_arc self.old.move.next.arcs (arc_of tie.now).peer.node ≡ Some (arc_of tie.now) }
        requires link { fits_link (side_at self.old.move.next (arc_of tie.now).peer.node) tie.now.link ≡ true }
        requires opening { is_opening_with tie.now.link x ≡ true }
        ensures { Plays result self.old self.new (λ who. take_accept who (arc_of tie.now) x y units) }
    {
        if let Err(halt) = self.bind(tie, x, y, units) {
            return Err(halt);
        }
        self.take_part(alloc, tie.addr().node, units)
    }

    /// The superior's offer of a dialogue is rejected.
    pub(crate) fn reject(&mut self, alloc: Global) -> Result<(), Halt>
        ensures { Plays result self.old self.new (λ who. reject) }
    {
        let Some((tie, x)) = self.node.offer() else {
            return Ok(());
        };
        let to = tie.addr();
        let arc = to.node;
        let rec = PeerRecord::ShutAssoc { x, y: None };
        self.perform(alloc, &[TxOut::Recovery { to, rec }, TxOut::Close { arc }])
    }

    /// An event of that kept transaction, which it does not refuse.
    pub(crate) fn settle_by(
        &mut self,
        alloc: Global,
        kept: &Kept,
        event: &KeptEvent,
    ) -> Result<(), Halt>
        requires { refused_kept kept.now event.now ≡ None }
        ensures { Plays result self.old self.new (λ who. keep (settled kept.now event.now)) }
    {
        let step = step(alloc, kept, event)?;
        self.settle_kept(alloc, step)
    }

    /// The oldest kept transaction ends.
    pub(crate) fn purge(&mut self, alloc: Global) -> Result<(), Halt>
        requires { refused_purge self.old.move.next.kept ≡ None }
        ensures { Plays result self.old self.new (λ who. purge) }
    {
        let oldest = self.node.oldest_kept(alloc)?;
        match oldest {
            None => Ok(()),
            Some(one) => self.settle_by(alloc, &one, &KeptEvent::Purge),
        }
    }

    // The superior's transaction begins, and its user is told.
    fn enter_tree(
        &mut self,
        alloc: Global,
        superior: &Addr,
        aaid: &Aaid,
        branch: &BranchId,
        holder: Holder,
    ) -> Result<(), Halt>
        requires { Side.Subordinate ≡ side_at self.old.move.next superior.now.node }
        ensures { Plays result self.old self.new (entering_tree superior.now aaid.now branch.now holder) }
    {
        self.node
            .begin_under(alloc, &mut self.spare, superior, aaid, branch, holder)?;
        self.tell(Indication::BeginTransaction {
            peer: superior.node,
            aaid: *aaid,
        })
    }

    // The superior's Begin: the node becomes active, and passes it on.
    fn take_begin(
        &mut self,
        alloc: Global,
        superior: &Addr,
        aaid: &Aaid,
        branch: &BranchId,
        holder: Holder,
    ) -> Result<(), Halt>
        requires { Side.Subordinate ≡ side_at self.old.move.next superior.now.node }
        ensures { Plays result self.old self.new (λ who. take_begin who (arc_to superior.now) aaid.now branch.now holder) }
    {
        if let Err(halt) = self.enter_tree(alloc, superior, aaid, branch, holder) {
            return Err(halt);
        }
        self.begin_chained(alloc)
    }

    // A branch leaves: control and handshakes are cleared on its arc.
    fn take_left(&mut self, alloc: Global, peer: u16, rec: &DialogueRecord) -> Result<(), Halt>
        ensures { Plays result self.old self.new (λ who. take_left who peer rec.now) }
    {
        self.node.clear(peer);
        self.take_up(alloc, peer, rec)
    }

    /// The user aborts the dialogue with that peer: on a branch the transaction rolls back.
    pub(crate) fn abort(&mut self, alloc: Global, peer: u16) -> Result<(), Halt>
        ensures { Plays result self.old self.new (λ who. abort who peer) }
    {
        if self.node.situation(peer).branch {
            return self.transact(alloc, &TxEvent::User(Request::UAbort { peer }));
        }
        let rec = DialogueRecord::UAbort;
        self.perform(
            alloc,
            &[TxOut::Carry { arc: peer, rec }, TxOut::Close { arc: peer }],
        )
    }

    /// The peer aborts: the arc is gone, and the transaction takes it up, or the user is told.
    pub(crate) fn take_abort(&mut self, alloc: Global, peer: u16) -> Result<(), Halt>
        ensures { Plays result self.old self.new (λ who. take_abort who peer) }
    {
        self.node.close(peer);
        if self.node.has_current() {
            let rec = DialogueRecord::UAbort;
            return self.transact(alloc, &TxEvent::Took { arc: peer, rec });
        }
        self.tell(Indication::UAbort { peer })
    }

    /// The dialogue with that peer has heard a record, and the user is told.
    pub(crate) fn hear(
        &mut self,
        peer: u16,
        kind: Heard,
        indication: Indication,
    ) -> Result<(), Halt>
        ensures { Plays result self.old self.new (telling_heard peer (heard_value kind) indication) }
    {
        self.node.hear(peer, kind);
        self.tell(indication)
    }

    // The dialogue with that peer has heard a deferral, and the transaction takes it up.
    fn take_deferral(
        &mut self,
        alloc: Global,
        peer: u16,
        kind: Heard,
        rec: &DialogueRecord,
    ) -> Result<(), Halt>
        ensures { Plays result self.old self.new (taking_deferral peer (heard_value kind) (TxEvent.Took peer rec.now)) }
    {
        self.node.hear(peer, kind);
        self.take_up(alloc, peer, rec)
    }

    // The peer ends the dialogue.
    fn take_end(&mut self, alloc: Global, peer: u16) -> Result<(), Halt>
        ensures { Plays result self.old self.new (λ who. perform (TxOut.Tell (Indication.EndDialogue peer) ∷ TxOut.Close peer ∷ [])) }
    {
        let told = TxOut::Tell(Indication::EndDialogue { peer });
        self.perform(alloc, &[told, TxOut::Close { arc: peer }])
    }

    // The transaction takes a record.
    fn take_up(&mut self, alloc: Global, peer: u16, rec: &DialogueRecord) -> Result<(), Halt>
        ensures { Plays result self.old self.new (λ who. transact who (TxEvent.Took peer rec.now)) }
    {
        let rec = copies::dialogue(alloc, rec)?;
        self.transact(alloc, &TxEvent::Took { arc: peer, rec })
    }

    // A record that acts is taken from the arc to that address.
    fn take_record(&mut self, alloc: Global, from: &Addr, rec: &DialogueRecord) -> Result<(), Halt>
        requires { is_begin rec.now ≡ true → Side.Subordinate ≡ side_at self.old.move.next from.now.node }
        ensures { Plays result self.old self.new (λ who. take_record who (arc_to from.now) rec.now) }
    {
        let peer = from.node;
        match rec {
            DialogueRecord::EndDialogue => self.take_end(alloc, peer),
            DialogueRecord::UserData { octets } => self.hear_data(alloc, peer, octets),
            DialogueRecord::UError => self.hear_error(peer),
            DialogueRecord::UAbort => self.take_abort(alloc, peer),
            DialogueRecord::Grant => self.hear_grant(peer),
            DialogueRecord::AskControl => self.hear_control(peer),
            DialogueRecord::Handshake => self.hear_handshake(peer),
            DialogueRecord::HandshakeGrant => self.hear_handshake_grant(peer),
            DialogueRecord::Response => self.hear_response(peer),
            DialogueRecord::DeferEnd => self.take_deferral(alloc, peer, Heard::DeferEnd, rec),
            DialogueRecord::DeferGrant => self.take_deferral(alloc, peer, Heard::DeferGrant, rec),
            DialogueRecord::Begin {
                aaid,
                branch,
                holder,
            } => self.take_begin(alloc, from, aaid, branch, *holder),
            DialogueRecord::Left => self.take_left(alloc, peer, rec),
            DialogueRecord::LeftEnd => self.take_left(alloc, peer, rec),
            DialogueRecord::Prepare => self.take_prepare(alloc, peer),
            DialogueRecord::Ready => self.take_ready(alloc, peer),
            DialogueRecord::Commit => self.take_commit(alloc, peer),
            DialogueRecord::Done { report } => self.take_done(alloc, peer, *report),
            DialogueRecord::Rollback => self.take_rollback(alloc, peer),
            DialogueRecord::RolledBack { report } => { self.take_rolled_back(alloc, peer, *report) }
        }
    }

    /// A record with that pair and number is taken from the arc to that address, where that comes of it.
    pub(crate) fn take_on(
        &mut self,
        alloc: Global,
        from: &Addr,
        disposition: Disposition,
        x: &Mark,
        y: &Mark,
        seq: u64,
        rec: &DialogueRecord,
    ) -> Result<(), Halt>
        requires side { sight_value disposition ≡ Acts → is_begin rec.now ≡ true → Side.Subordinate ≡ side_at self.old.move.next from.now.node }
        requires number { dropped_by (link_with self.old.move.next.arcs from.now.node) x.now y.now seq ≡ None }
        ensures { Plays result self.old self.new (taking_on from.now (sight_value disposition) rec.now) }
    {
        self.node.take(from.node, *x, *y, seq, rec);
        match disposition {
            Disposition::Acts => self.take_record(alloc, from, rec),
            Disposition::Nothing | Disposition::OutOfPhase => Ok(()),
        }
    }

    /// The arc with that peer is lost: the transaction loses it, or the user is told.
    pub(crate) fn lose(&mut self, alloc: Global, peer: u16) -> Result<(), Halt>
        ensures { Plays result self.old self.new (λ who. lose who peer) }
    {
        self.node.close(peer);
        if self.node.has_current() {
            return self.transact(alloc, &TxEvent::Lost { arc: peer });
        }
        self.tell(Indication::PAbort { peer })
    }

    // A new dialogue is asked for, with those units.
    #[tactic(auto, using(crate::proofs::Requests::call_other, crate::proofs::Requests::call_side, crate::proofs::Requests::call_place, crate::proofs::Requests::call_units))]
    fn call_with(&mut self, addr: Addr, units: u8) -> Result<(), Halt>
        requires declared { self.old.move.next.declared ≡ true }
        requires fits { refused_request self.old.who self.old.move.next (Request.BeginDialogue addr units) ≡ None }
        ensures { Plays result self.old self.new (λ who. call who addr units) }
    {
        let Ok(units) = Units::check(units) else {
            unreachable!()
        };
        self.call(addr, units)
    }

    // The superior's offer is answered with those units.
    #[tactic(auto, using(crate::proofs::Requests::accept_units))]
    fn accept_with(&mut self, units: u8) -> Result<(), Halt>
        requires { refused_request self.old.who self.old.move.next (Request.Accept units) ≡ None }
        ensures { Plays result self.old self.new (λ who. accept who units) }
    {
        let Ok(units) = Units::check(units) else {
            unreachable!()
        };
        self.accept(units)
    }

    // The dialogue with that peer ends.
    fn end(&mut self, alloc: Global, peer: u16) -> Result<(), Halt>
        ensures { Plays result self.old self.new (λ who. do_request who (Request.EndDialogue peer)) }
    {
        let rec = DialogueRecord::EndDialogue;
        self.perform(
            alloc,
            &[TxOut::Carry { arc: peer, rec }, TxOut::Close { arc: peer }],
        )
    }

    /// A request that is not refused is carried out.
    pub(crate) fn do_request(&mut self, alloc: Global, request: &Request) -> Result<(), Halt>
        requires declared { is_begin_dialogue request.now ≡ true → self.old.move.next.declared ≡ true }
        requires fits { refused_request self.old.who self.old.move.next request.now ≡ None }
        ensures { Plays result self.old self.new (λ who. do_request who request.now) }
    {
        match request {
            Request::BeginDialogue { addr, units } => self.call_with(*addr, *units),
            Request::Accept { units } => self.accept_with(*units),
            Request::Reject => self.reject(alloc),
            Request::EndDialogue { peer } => self.end(alloc, *peer),
            Request::UserData { peer, octets } => self.say_data(alloc, *peer, octets),
            Request::UError { peer } => self.say_error(*peer),
            Request::UAbort { peer } => self.abort(alloc, *peer),
            Request::Grant { peer } => self.say_grant(*peer),
            Request::AskControl { peer } => self.ask_control(*peer),
            Request::Handshake { peer } => self.say_handshake(*peer),
            Request::Respond { peer } => self.respond(*peer),
            Request::HandshakeGrant { peer } => self.say_handshake_grant(*peer),
            Request::BeginTransaction { peer } => self.begin_transaction(alloc, *peer),
            Request::DeferEnd { peer } => self.defer_end(alloc, *peer),
            Request::DeferGrant { peer } => self.defer_grant(alloc, *peer),
            Request::Prepare { peer } => self.ask_prepare(alloc, *peer),
            Request::Commit => self.ask_commit(alloc),
            Request::Done => self.say_done(alloc),
            Request::Rollback => self.ask_rollback(alloc),
            Request::Unchanged => self.say_unchanged(alloc),
        }
    }
}

// A record makes place for the next one.
fn put_aside(rec: &mut Option<LogRec>, earlier: &mut Option<LogRec>)
    ensures rec { rec.new ≡ None }
    ensures earlier { earlier.new ≡ later earlier.old rec.old }
{
    if rec.is_some() {
        *earlier = rec.take();
    }
}

// Where the indication of a completed commitment stands; after the others where there is none.
fn place_of_completion(outs: &[TxOut]) -> usize
    ensures place { result ≡ place_of_completion outs.now }
    ensures within { result ≤ length outs.now }
{
    for i in 0..outs.len() {
        if is_commit_complete(&outs[i]) {
            return i;
        }
    }
    outs.len()
}

fn is_commit_complete(out: &TxOut) -> bool
    ensures { result ≡ is_commit_complete out.now }
{
    matches!(out, TxOut::Tell(Indication::CommitComplete { .. }))
}
