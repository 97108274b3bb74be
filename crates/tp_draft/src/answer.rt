//! What a node answers to an event. Nothing of it is so before the record is forced.
ghost use Rattle.std.specs.Prelude.{◌≡◌, ◌==◌, ◌&&◌, true, false, OnOk, None, Some};
ghost use Rattle.tp_model.specs.declared.refusal.Refusal.{Refusal};
ghost use Rattle.tp_model.specs.Parts.{Arrive, Accepted};
ghost use Rattle.tp_model.specs.Events.{action, refusal, unless_spent, needs_numbers, has_pair, refusal_in};
ghost use Rattle.tp_model.specs.Arrivals.{break_off, refused_arrival};
ghost use Rattle.tp_model.specs.Refusal.{IsRefusedAs, number_of};
ghost use Rattle.tp_node.specs.Halt.{OnSpent};
ghost use Rattle.std.specs.Option.{option_map};
ghost use Rattle.tp_model.specs.Disposition.{sight_value};
ghost use Rattle.tp_node.specs.NodeEvent.{event_of, refused_at_once, sight_of, is_retry, breaks, answer_at};
ghost use Rattle.tp_draft.specs.Answers.{IsAnswer, IsPlain};

use crate::draft::Draft;
use crate::loss::broken_pair;
use std::alloc::Global;
use tp_model::{Disposition, Refusal, TxFault};
use tp_names::Addr;
use tp_node::{Halt, Node, NodeEvent};
use tp_records::PeerRecord;

impl Draft {
    // The draft of a node on which an event happens that is not refused at once.
    #[inline(always)]
    #[tactic(auto, using(crate::proofs::Drafts::followed_silent))]
    fn draw_up(
        &mut self,
        alloc: Global,
        node: &Node,
        event: &NodeEvent<'_>,
        seen: Option<Disposition>,
    ) -> Result<(), Halt>
        requires refused { refused_at_once node.now.who node.now.digest event.now ≡ None }
        requires seen { option_map sight_value seen ≡ sight_of node.now.who node.now.digest event.now }
        ensures happens { OnOk result (self.new ≡ record { who = node.now.who; move = action node.now.who node.now.digest (event_of event.now) }) }
        ensures spent { OnSpent result (needs_numbers (action node.now.who node.now.digest (event_of event.now)) ≡ true) }
    {
        self.begin(alloc, node)?;
        self.happen(alloc, event, seen)
    }

    // What an event makes of the node that is not refused at once. A retry that says nothing is refused.
    #[tactic(auto, using(crate::proofs::Quiet::refused_spent, crate::proofs::Quiet::refused_silent, crate::proofs::Quiet::refused_not))]
    fn try_event(
        &mut self,
        alloc: Global,
        node: &Node,
        event: &NodeEvent<'_>,
        seen: Option<Disposition>,
    ) -> Result<(), TxFault>
        requires refused { refused_at_once node.now.who node.now.digest event.now ≡ None }
        requires seen { option_map sight_value seen ≡ sight_of node.now.who node.now.digest event.now }
        ensures happens { OnOk result (self.new ≡ record { who = node.now.who; move = action node.now.who node.now.digest (event_of event.now) }) }
        ensures refused { IsRefusedAs result (refusal node.now.who node.now.digest (event_of event.now)) }
    {
        let _drawn = node.drawn();
        match self.draw_up(alloc, node, event, seen) {
            Err(Halt::NumbersSpent) => Err(TxFault::Refused(Refusal::NumbersSpent.number())),
            Err(Halt::NoMemory) => Err(TxFault::NoMemory),
            Ok(()) => {
                if self.is_spent() {
                    return Err(TxFault::Refused(Refusal::NumbersSpent.number()));
                }
                if is_retry(event) && self.says_nothing() {
                    return Err(TxFault::Refused(Refusal::NothingOwed.number()));
                }
                Ok(())
            }
        }
    }

    // The loss of the association on which a record came out of phase.
    #[tactic(auto, using(crate::proofs::Drafts::followed_silent))]
    fn try_break(
        &mut self,
        alloc: Global,
        node: &Node,
        from: Addr,
        rec: &PeerRecord,
    ) -> Result<(), TxFault>
        ensures happens { OnOk result (self.new ≡ record { who = node.now.who; move = break_off node.now.who from rec.now node.now.digest }) }
        ensures refused { IsRefusedAs result (refusal_in (unless_spent (break_off node.now.who from rec.now node.now.digest) Accepted)) }
    {
        self.begin(alloc, node)?;
        match self.break_off(alloc, from, rec) {
            Err(Halt::NumbersSpent) => Err(TxFault::Refused(Refusal::NumbersSpent.number())),
            Err(Halt::NoMemory) => Err(TxFault::NoMemory),
            Ok(()) if self.is_spent() => Err(TxFault::Refused(Refusal::NumbersSpent.number())),
            Ok(()) => Ok(()),
        }
    }

    // A record that came out of phase ends the association that it came on.
    #[tactic(auto, using(crate::proofs::Answered::broken, crate::proofs::Answered::broken_spent))]
    fn answer_out_of_phase(
        &mut self,
        alloc: Global,
        node: &Node,
        from: Addr,
        rec: &PeerRecord,
    ) -> Result<Option<Refusal>, TxFault>
        requires refused { refused_arrival node.now.who node.now.digest from rec.now ≡ Some Refusal.OutOfPhase }
        requires pair { has_pair rec.now ≡ true }
        ensures { IsAnswer result self.new node.now (answer_at node.now.who node.now.digest (Arrive from rec.now)) }
    {
        match self.try_break(alloc, node, from, rec) {
            Ok(()) => Ok(Some(Refusal::OutOfPhase)),
            Err(fault) => Err(fault),
        }
    }

    // An event that is refused at once.
    #[tactic(auto, using(crate::proofs::Answered::refused_whole))]
    fn answer_refused(
        &mut self,
        alloc: Global,
        node: &Node,
        event: &NodeEvent<'_>,
        refusal: Refusal,
    ) -> Result<Option<Refusal>, TxFault>
        requires { refused_at_once node.now.who node.now.digest event.now ≡ Some refusal }
        ensures answer { IsAnswer result self.new node.now (answer_at node.now.who node.now.digest (event_of event.now)) }
        ensures plain { breaks event.now ≡ false → result ≡ Err (TxFault.Refused (number_of refusal)) }
    {
        if !ends_association(event, refusal) {
            return Err(TxFault::Refused(refusal.number()));
        }
        match event {
            NodeEvent::Arrive { from, rec } => self.answer_out_of_phase(alloc, node, *from, rec),
            _ => unreachable!(),
        }
    }

    /// What the node answers to an event: what the event makes of it, as the draft has it then, or the refusal.
    /// With one, what happens is the loss of the association that follows that answer. A refusal at once takes no memory.
    #[inline(always)]
    #[tactic(auto, using(crate::proofs::Answered::happens, crate::proofs::Answered::refused_later))]
    pub fn answer_to(
        &mut self,
        alloc: Global,
        node: &Node,
        event: &NodeEvent<'_>,
    ) -> Result<Option<Refusal>, TxFault>
        ensures plain { (x : Refusal) → IsPlain node.now event.now x → result ≡ Err (TxFault.Refused (number_of x)) }
        ensures answer { IsAnswer result self.new node.now (answer_at node.now.who node.now.digest (event_of event.now)) }
    {
        let seen = match node.judge(event) {
            Ok(seen) => seen,
            Err(refusal) => return self.answer_refused(alloc, node, event, refusal),
        };
        match self.try_event(alloc, node, event, seen) {
            Ok(()) => Ok(None),
            Err(fault) => Err(fault),
        }
    }
}

/// A record that names the pair of an association, which an answer out of phase to it ends.
pub fn breaks(event: &NodeEvent<'_>) -> bool
    ensures { result ≡ breaks event.now }
{
    match event {
        NodeEvent::Arrive { rec, .. } => broken_pair(rec).is_some(),
        _ => false,
    }
}

// The answer that a record is out of phase.
fn is_out_of_phase(refusal: Refusal) -> bool
    ensures { result ≡ (number_of refusal == 24) }
{
    matches!(refusal, Refusal::OutOfPhase)
}

// That answer ends an association.
fn ends_association(event: &NodeEvent<'_>, refusal: Refusal) -> bool
    ensures { result ≡ ((number_of refusal == 24) && breaks event.now) }
{
    is_out_of_phase(refusal) && breaks(event)
}

fn is_retry(event: &NodeEvent<'_>) -> bool
    ensures { result ≡ is_retry event.now }
{
    matches!(event, NodeEvent::Retry)
}
