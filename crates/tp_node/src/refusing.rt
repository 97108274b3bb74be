//! Why a node refuses an event, and a record that arrives among them. It takes no memory.
ghost use Rattle.std.specs.Prelude.{◌≡◌, [], ◌∷◌, None, IfOk, if◌then◌else◌};
ghost use Rattle.std.specs.Option.{option_map};
ghost use Rattle.tp_names.specs.Same.{is_addr};
ghost use Rattle.tp_model.specs.Parts.{Idle};
ghost use Rattle.tp_tree.specs.Tie.{arc_of};
ghost use Rattle.tp_model.specs.Dialogues.{first};
ghost use Rattle.tp_model.specs.Parts.{Do, Heur, GiveUp};
ghost use Rattle.tp_model.specs.Events.{refused_plainly, unless_missing, is_no_node};
ghost use Rattle.tp_node.specs.NodeEvent.{refused_at_once, refusal_in, sight_from, sight_of};
ghost use Rattle.tp_model.specs.Transactions.{out_of_phase};
ghost use Rattle.tp_model.specs.Disposition.{sight_value};
ghost use Rattle.tp_records.specs.declared.peer.PeerRecord.{PeerRecord};
ghost use Rattle.tp_model.specs.Links.{is_opening_with, is_live_with, is_idle};
ghost use Rattle.tp_model.specs.Arcs.{find_arc, link_from, link_with};
ghost use Rattle.tp_model.specs.Arrivals.{is_from_superior, is_shut_by, is_other, is_misplaced_order, is_bad_answer, branch_key, refused_arrival, refused_on, sight_at, kept_superior, child_addr, named_by_key, named_by_branch, refused_reply};
ghost use Rattle.tp_model.specs.declared.refusal.Refusal.TheVariants.{WrongSite};

use crate::event::NodeEvent;
use crate::named::key_of;
use crate::node::Node;
use tp_link::{Link, LinkState};
use tp_model::Refusal::{
    NoNode, NotInReady, NothingOwed, OldAssociation, OutOfPhase, WrongPhase, WrongSite,
};
use tp_model::{Disposition, Question, Refusal, TxEvent};
use tp_names::same::{is_addr, is_mark};
use tp_names::{Aaid, Addr, BranchId, Mark, NodeKey, Outcome};
use tp_records::{DialogueRecord, PeerRecord, RecState, Request};
use tp_recover::answer;
use tp_tree::Tie;
use tp_units::{Units, choose};

impl Node {
    // The record comes from the superior, by its whole address.
    fn is_from_superior(&self, from: &Addr) -> bool
        ensures { result ≡ is_from_superior self.now.digest from.now }
    {
        match self.superior() {
            None => false,
            Some(superior) => is_addr(&superior, from),
        }
    }

    // The association with that peer, whatever its site.
    fn link_with(&self, peer: u16) -> Link
        ensures { result ≡ link_with self.now.digest.arcs peer }
    {
        match self.find(peer) {
            None => Link::idle(),
            Some(tie) => tie.link,
        }
    }

    // The association with that address.
    fn link_from(&self, from: &Addr) -> Link
        ensures { result ≡ link_from self.now.digest.arcs from.now }
    {
        match self.find(from.node) {
            Some(tie) if is_addr(&tie.addr(), from) => tie.link,
            _ => Link::idle(),
        }
    }

    // The superior's offer.
    #[tactic(auto, unfolding(tp_model::specs::Arrivals::refused_arrival))]
    fn refused_open(&self, from: &Addr, x: Mark, units: Units) -> Option<Refusal>
        ensures { result ≡ refused_arrival self.now.who self.now.digest from.now (PeerRecord.OpenAssoc x units) }
    {
        let stranger = !self.is_declared() || !self.is_from_superior(from);
        Refusal::first(&[
            (stranger, WrongSite),
            (!is_idle(&self.link_with(from.node)), OldAssociation),
        ])
    }

    // The units that the peer chooses are none that were offered to it.
    #[tactic(auto, using(crate::proofs::Arriving::bad_there, crate::proofs::Arriving::bad_not))]
    fn is_bad_answer(&self, from: &Addr, units: Units) -> bool
        ensures { result ≡ is_bad_answer self.now.digest from.now units }
    {
        match self.find(from.node) {
            None => units.bits() != 0,
            Some(tie) => choose(tie.dialogue.units(), units.bits()).is_err(),
        }
    }

    // The peer answers a call.
    #[tactic(auto, unfolding(tp_model::specs::Arrivals::refused_arrival))]
    fn refused_accept_of(&self, from: &Addr, x: &Mark, y: Mark, units: Units) -> Option<Refusal>
        ensures { result ≡ refused_arrival self.now.who self.now.digest from.now (PeerRecord.AcceptAssoc x.now y units) }
    {
        Refusal::first(&[
            (!self.is_declared(), WrongSite),
            (!is_opening_with(&self.link_from(from), x), OldAssociation),
            (self.is_bad_answer(from, units), OutOfPhase),
        ])
    }

    // The peer shuts an association.
    #[tactic(auto, unfolding(tp_model::specs::Arrivals::refused_arrival))]
    fn refused_shut(&self, from: &Addr, x: &Mark, y: &Option<Mark>) -> Option<Refusal>
        ensures { result ≡ refused_arrival self.now.who self.now.digest from.now (PeerRecord.ShutAssoc x.now y.now) }
    {
        Refusal::first(&[
            (!self.is_declared(), WrongSite),
            (!is_shut_by(&self.link_from(from), x, y), OldAssociation),
        ])
    }

    // A record comes on an association.
    #[tactic(auto, using(crate::proofs::Arriving::at_peer, crate::proofs::Arriving::from_found, crate::proofs::Arriving::from_none))]
    fn judge_on(
        &self,
        from: &Addr,
        x: &Mark,
        y: &Mark,
        seq: u64,
        rec: &DialogueRecord,
    ) -> Result<Option<Disposition>, Refusal>
        ensures refused { refusal_in result ≡ refused_on self.now.who self.now.digest from.now x.now y.now seq rec.now }
        ensures sight { IfOk result (λ seen. option_map sight_value seen
            ≡ option_map (λ a. sight_at self.now.who self.now.digest a rec.now) (find_arc self.now.digest.arcs from.now.node)) }
    {
        let Some(tie) = self.tie(from.node) else {
            return Err(OldAssociation);
        };
        let mut link = link_of(tie, from);
        if let Err(dropped) = link.take(*x, *y, seq) {
            return Err(dropped.refusal());
        }
        let disposition = self.disposition(tie, rec);
        match out_of_phase(disposition) {
            None => Ok(Some(disposition)),
            Some(refusal) => Err(refusal),
        }
    }

    /// Why a record is refused that arrives, but for the want of numbers; or what comes of it, where it comes on an association.
    #[inline(always)]
    #[tactic(auto, unfolding(tp_model::specs::Arrivals::refused_arrival))]
    pub fn judge_arrival(
        &self,
        from: &Addr,
        rec: &PeerRecord,
    ) -> Result<Option<Disposition>, Refusal>
        ensures refused { refusal_in result ≡ refused_arrival self.now.who self.now.digest from.now rec.now }
        ensures sight { IfOk result (λ seen. option_map sight_value seen ≡ sight_from self.now.who self.now.digest from.now rec.now) }
    {
        match rec {
            PeerRecord::OpenAssoc { x, units } => judged(self.refused_open(from, *x, *units)),
            PeerRecord::AcceptAssoc { x, y, units } => {
                judged(self.refused_accept_of(from, x, *y, *units))
            }
            PeerRecord::ShutAssoc { x, y } => judged(self.refused_shut(from, x, y)),
            PeerRecord::OnAssoc { x, y, seq, rec } => {
                if !self.is_declared() {
                    return Err(WrongSite);
                }
                self.judge_on(from, x, y, *seq, rec)
            }
            PeerRecord::RecReady { aaid, branch } => {
                judged(self.refused_of_branch(from, aaid, branch))
            }
            PeerRecord::RecCommit { aaid, branch } => {
                judged(self.refused_order(from, aaid, branch))
            }
            PeerRecord::RecReply {
                aaid,
                branch,
                state,
            } => judged(self.refused_reply(from, aaid, branch, *state)),
            PeerRecord::Forget { aaid, branch } => {
                judged(self.refused_of_superior(from, aaid, branch))
            }
        }
    }

    // The superior orders the commitment of a branch.
    #[tactic(auto, unfolding(tp_model::specs::Arrivals::refused_arrival))]
    fn refused_order(&self, from: &Addr, aaid: &Aaid, branch: &BranchId) -> Option<Refusal>
        ensures { result ≡ refused_arrival self.now.who self.now.digest from.now (PeerRecord.RecCommit aaid.now branch.now) }
    {
        let key = key_of(aaid, branch);
        Refusal::first(&[
            (is_other(&self.superior_by_key(&key), from), WrongSite),
            (self.is_misplaced_order(&key, branch), OutOfPhase),
        ])
    }

    // The order of commitment acts on a ready key alone, or is answered.
    fn is_misplaced_order(&self, key: &NodeKey, branch: &BranchId) -> bool
        ensures { result ≡ is_misplaced_order (named_by_key self.now.digest key.now) branch.now }
    {
        !self.is_ready_by_key(key)
            && answer(self.known_by_key(key, branch), Question::RecCommit).is_none()
    }

    // Of a record that the superior says of that branch.
    fn refused_of_superior(&self, from: &Addr, aaid: &Aaid, branch: &BranchId) -> Option<Refusal>
        ensures { result ≡ first ((is_other (kept_superior (named_by_key self.now.digest (branch_key aaid.now branch.now))) from.now, WrongSite) ∷ []) }
    {
        let key = key_of(aaid, branch);
        Refusal::first(&[(is_other(&self.superior_by_key(&key), from), WrongSite)])
    }

    // Of a record that a branch says.
    fn refused_of_branch(&self, from: &Addr, aaid: &Aaid, branch: &BranchId) -> Option<Refusal>
        ensures { result ≡ first ((is_other (child_addr (named_by_branch self.now.digest aaid.now branch.now) branch.now) from.now, WrongSite) ∷ []) }
    {
        Refusal::first(&[(
            is_other(&self.child_by_branch(aaid, branch), from),
            WrongSite,
        )])
    }

    // Of a reply.
    fn refused_reply(
        &self,
        from: &Addr,
        aaid: &Aaid,
        branch: &BranchId,
        state: RecState,
    ) -> Option<Refusal>
        ensures { result ≡ refused_reply self.now.digest from.now aaid.now branch.now state }
    {
        match state {
            RecState::Done(_) => self.refused_of_branch(from, aaid, branch),
            RecState::Commit | RecState::Unknown | RecState::RetryLater => {
                self.refused_of_superior(from, aaid, branch)
            }
        }
    }

    // Another refusal where the node is there.
    fn unless_missing(&self, other: Option<Refusal>) -> Option<Refusal>
        ensures { result ≡ unless_missing (is_no_node self.now.digest) other }
    {
        if self.is_missing() {
            Some(NoNode)
        } else {
            other
        }
    }

    /// Why a request is refused before anything is tried. It takes no memory.
    #[inline(always)]
    pub fn refused_do(&self, request: &Request) -> Option<Refusal>
        ensures { result ≡ refused_plainly self.now.who self.now.digest (Do request.now) }
    {
        let needs_declaring = matches!(request, Request::BeginDialogue { .. });
        if self.is_missing() || needs_declaring && !self.is_declared() {
            return Some(NoNode);
        }
        self.refused_request(request)
    }

    // Of an operator's decision.
    fn refused_heur(&self, outcome: Outcome) -> Option<Refusal>
        ensures { result ≡ refused_plainly self.now.who self.now.digest (Heur outcome) }
    {
        let event = TxEvent::Heur(outcome);
        self.unless_missing(self.refused_of_current(&event, Some(NotInReady)))
    }

    // Of an operator's giving up of an arc.
    fn refused_give_up(&self, peer: u16) -> Option<Refusal>
        ensures { result ≡ refused_plainly self.now.who self.now.digest (GiveUp peer) }
    {
        let event = TxEvent::GiveUp { arc: peer };
        self.unless_missing(self.refused_of_current(&event, Some(NothingOwed)))
    }

    // Promise 10.13: By which number a node refuses an event before anything is tried, what comes
    //   of a record on an association, and what is shown of the node are those of the definitions
    /// Why an event is refused before anything is tried; or what comes of it, where it is a record that arrives on an
    /// association. It takes no memory.
    #[inline(always)]
    pub fn judge(&self, event: &NodeEvent<'_>) -> Result<Option<Disposition>, Refusal>
        ensures refused { refusal_in result ≡ refused_at_once self.now.who self.now.digest event.now }
        ensures sight { IfOk result (λ seen. option_map sight_value seen ≡ sight_of self.now.who self.now.digest event.now) }
    {
        match event {
            NodeEvent::Declare { .. } => judged(Refusal::first(&[(
                self.is_declared(),
                WrongPhase,
            )])),
            NodeEvent::Do { request } => judged(self.refused_do(request)),
            NodeEvent::Arrive { from, rec } => self.judge_arrival(from, rec),
            NodeEvent::Lose { peer } => judged(self.unless_missing(self.refused_loss(*peer))),
            NodeEvent::Heur { outcome } => judged(self.refused_heur(*outcome)),
            NodeEvent::GiveUp { peer } => judged(self.refused_give_up(*peer)),
            NodeEvent::Retry => judged(self.unless_missing(None)),
            NodeEvent::Purge => judged(self.unless_missing(self.refused_purge())),
        }
    }

    // Promise 10.13, part 2
    /// Why an event is refused before anything is tried. It takes no memory.
    pub fn refused_at_once(&self, event: &NodeEvent<'_>) -> Option<Refusal>
        ensures { result ≡ refused_at_once self.now.who self.now.digest event.now }
    {
        match self.judge(event) {
            Ok(_) => None,
            Err(refusal) => Some(refusal),
        }
    }
}

// Of what comes on no association.
fn judged(refusal: Option<Refusal>) -> Result<Option<Disposition>, Refusal>
    ensures refused { refusal_in result ≡ refusal }
    ensures sight { IfOk result (λ seen. option_map sight_value seen ≡ None) }
{
    match refusal {
        None => Ok(None),
        Some(refusal) => Err(refusal),
    }
}

// The association of the arc, where it is with that address.
fn link_of(tie: &Tie, from: &Addr) -> Link
    ensures { result ≡ (if is_addr (arc_of tie.now).peer from.now then (arc_of tie.now).link else Idle) }
{
    if is_addr(&tie.addr(), from) {
        tie.link
    } else {
        Link::idle()
    }
}

fn is_idle(link: &Link) -> bool
    ensures { result ≡ is_idle link.now }
{
    link.state() == LinkState::Idle
}

fn is_opening_with(link: &Link, x: &Mark) -> bool
    ensures { result ≡ is_opening_with link.now x.now }
{
    match (link.state(), link.marks().0) {
        (LinkState::Opening, Some(own)) => is_mark(&own, x),
        _ => false,
    }
}

fn is_live_with(link: &Link, x: &Mark, y: &Mark) -> bool
    ensures { result ≡ is_live_with link.now x.now y.now }
{
    match link.marks() {
        (Some(own), Some(other)) => is_mark(&own, x) && is_mark(&other, y),
        _ => false,
    }
}

// The association that a peer shuts: the one that opens with the mark, or is live with the pair.
fn is_shut_by(link: &Link, x: &Mark, y: &Option<Mark>) -> bool
    ensures { result ≡ is_shut_by link.now x.now y.now }
{
    match y {
        None => is_opening_with(link, x),
        Some(y) => is_live_with(link, x, y),
    }
}

// An address is kept, and it is another one.
fn is_other(kept: &Option<Addr>, from: &Addr) -> bool
    ensures { result ≡ is_other kept.now from.now }
{
    match kept {
        None => false,
        Some(kept) => !is_addr(kept, from),
    }
}

// A record that is out of phase.
fn out_of_phase(disposition: Disposition) -> Option<Refusal>
    ensures { result ≡ out_of_phase (sight_value disposition) }
{
    match disposition {
        Disposition::Acts | Disposition::Nothing => None,
        Disposition::OutOfPhase => Some(OutOfPhase),
    }
}
