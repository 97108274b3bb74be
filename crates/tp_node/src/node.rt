//! One node of a site.
mod begun;
mod noted;
mod origin;

ghost use Rattle.std.specs.Prelude.{◌≡◌, ◌==◌, ◌&&◌, ◌||◌, not, true, [], ◌∷◌, ◌+◌, ◌++◌, nat_le, nat_lt, slice_get, Ok, Option, Some, None, IfOk, IfErr, IfSome, IsTrue, OnOk, OnErr};
ghost use Rattle.std.specs.Option.{option_map, option_copied, is_some};
ghost use Rattle.tp_model.specs.Dialogues.{is_nil, is_late, first, said, heard, begun_by, cleared, named_holder};
ghost use Rattle.tp_model.specs.Links.{greatest, is_idle, is_opening_with, dropped_by, with_one_taken};
ghost use Rattle.tp_model.specs.Arcs.{find_arc, link_with, with_link, with_dialogue, without_arc, shut_with, carried};
ghost use Rattle.tp_model.specs.Node.{branches_of, seen, remaining, entered, grants, phase_of, has_asked, is_superior, side_at, situation_at, may_root, may_begin_on, is_chained_below, chained_peers, fresh_current, superior_arc, next_mark, with_mark_drawn};
ghost use Rattle.tp_model.specs.Events.{is_no_node, refused_of_current, refused_purge, some_past_numbers};
ghost use Rattle.tp_records.specs.declared.dialogue.DialogueRecord.{DialogueRecord as RecordValue};
ghost use Rattle.tp_records.specs.declared.request.Request.{Request};
ghost use Rattle.tp_model.specs.Requests.{refused_of_tx, refused_request, refused_at, room, count_below, count_gone, count_subordinates, has_branch_at, is_branch_below};
ghost use Rattle.tp_model.specs.History.{state};
ghost use Rattle.tp_model.specs.Recovery.{kept_after, find_kept, with_forget, noted};
ghost use Rattle.tp_model.specs.declared.recovery.KeptEvent.{KeptEvent};
ghost use Rattle.tp_tree.specs.Tie.{arc_of};
ghost use Rattle.tp_commit.specs.Branch.{has_superior, key_from};
ghost use Rattle.tp_model.specs.Disposition.{sight_value};
ghost use Rattle.tp_model.specs.Arrivals.{sight_in_tx, is_response, woken_by, current_with, current_of as current_in};
ghost use Rattle.tp_node.specs.State.{state_of, tree_in};
ghost use Rattle.tp_node.specs.Node.{current_of, unboxed, with_arcs, has_place_at};
ghost use Rattle.tp_node_state.specs.Outs.{outs_of_option, outs_with};
ghost use Rattle.tp_node_state.specs.ArcStep.{stepped_arcs};
ghost use Rattle.tp_node.specs.Passage.{passage_of};
ghost use Rattle.tp_dialogue.specs.Kinds.{asked_value, heard_value};
ghost use Rattle.tp_node_state.specs.Arcs.{fits_link, new_arc};
ghost use Rattle.tp_node.specs.Calls.{offer_of, offer_on, answered, begun_under};
ghost use Rattle.tp_model.specs.Parts.{Opening, Offered, Live};
ghost use Rattle.tp_model.specs.declared.arc.Side.{Side};
ghost use Rattle.tp_tree.specs.Invocation.{with_arc};
ghost use Rattle.tp_node.specs.Halt.{OnSpent, IsHalted};
ghost use Rattle.tp_node.specs.Begins.{aaid_in, with_branch, begun_on, has_place_below, with_digest, may_start};
ghost use Rattle.tp_model.specs.declared.refusal.Refusal.TheVariants.{NoDialogue, NoTransaction};

use crate::halt::Halt;
use crate::passage::Passage;
use crate::spare::Spare;
use crate::{NodeState, NodeTree, look};
use std::alloc::Global;
use std::marker::Model;
use tp_commit::Branch;
use tp_dialogue::{Asked, Dialogue, Heard};
use tp_link::{Link, LinkState};
use tp_logrec::{LogRec, LogVersion};
use tp_model::Refusal::{
    AlreadyAsked, NoDialogue, NoTransaction, NotKept, TooMany, TransactionOpen, UnitAbsent,
    WrongPhase,
};
use tp_model::{
    Deferral, Disposition, Kept, KeptEvent, Phase, Refusal, Side, Situation, TxEvent, TxOut, TxOuts,
};
use tp_names::same::{is_aaid, is_key};
use tp_names::{
    Aaid, Addr, BranchId, Child, Counter, Mark, NoMemory, NodeKey, NumbersSpent, Outcome, SiteName,
};
use tp_node_state::{ArcStep, KeptTable, Next, Out, SharedArcs, is_granting, kept, release};
use tp_records::{DialogueRecord, Holder, Request};
use tp_recover::refused;
use tp_tree::Tie;
use tp_units::{CHAINED, COMMIT, POLARIZED, Units, choose};

/// The arcs with so few subordinates are shared with no copy.
const FEW: usize = 8;

/// One node of a site, which contracts see as what is known of it by the definitions.
#[derive(Debug, Drop)]
pub struct Node {
    site: SiteName,
    number: u16,
    known: bool,
    arcs: Option<SharedArcs>,
    current: Option<Box<Branch>>,
    kept: KeptTable,
    drawn: u64,
    boot: u64,
    version: LogVersion,
}

impl Model for Node {
    ghost use Rattle.tp_node.specs.Node.{Node as NodeValue, node_of, HasRoom};

    ghost Value = { NodeValue };

    ghost view = { node_of };

    ghost invariant = { HasRoom };
}

impl Node {
    /// The site's name.
    pub fn site(&self) -> SiteName
        ensures { result ≡ self.now.who.site }
    {
        self.site
    }

    /// Where it stands in its current transaction.
    pub fn phase(&self) -> Phase
        ensures { result ≡ phase_of self.now.digest }
    {
        match &self.current {
            None => Phase::Nil,
            Some(branch) => branch.phase(),
        }
    }

    /// Whether it has a current transaction.
    pub fn has_current(&self) -> bool
        ensures { result ≡ is_some self.now.digest.current }
    {
        self.current.is_some()
    }

    /// A transaction of that key is kept.
    pub(crate) fn is_kept(&self, key: &NodeKey) -> bool
        ensures { result ≡ is_some (find_kept self.now.digest.kept key.now) }
    {
        self.kept.find(key).is_some()
    }

    /// The current transaction, where it has that key.
    pub(crate) fn current_with(&self, key: &NodeKey) -> Option<&Branch>
        ensures { option_map current_of (option_copied result) ≡ current_with self.now.digest key.now }
    {
        match &self.current {
            Some(branch) if is_key(branch.key(), key) => Some(branch),
            _ => None,
        }
    }

    /// The current transaction, where it is of that tree.
    pub(crate) fn current_in(&self, aaid: &Aaid) -> Option<&Branch>
        ensures { option_map current_of (option_copied result) ≡ current_in self.now.digest aaid.now }
    {
        match &self.current {
            Some(branch) if is_aaid(&branch.key().aaid, aaid) => Some(branch),
            _ => None,
        }
    }

    /// The kept transactions, in order.
    pub(crate) fn all_kept(&self) -> &KeptTable
        ensures { result.now ≡ self.now.digest.kept }
    {
        &self.kept
    }

    /// The kept transaction of that key.
    pub(crate) fn kept_with(&self, key: &NodeKey) -> Option<&Kept>
        ensures { option_copied result ≡ find_kept self.now.digest.kept key.now }
    {
        self.kept.find(key)
    }

    /// A copy of the kept transaction of that key.
    pub fn kept_copy(&self, alloc: Global, key: &NodeKey) -> Result<Option<Kept>, NoMemory>
        ensures { IfOk result (λ kept. kept ≡ find_kept self.now.digest.kept key.now) }
    {
        match self.kept.find(key) {
            None => Ok(None),
            Some(kept) => Ok(Some(kept::copy(alloc, kept)?)),
        }
    }

    /// A copy of the oldest kept transaction.
    pub fn oldest_kept(&self, alloc: Global) -> Result<Option<Kept>, NoMemory>
        ensures { IfOk result (λ kept. kept ≡ slice_get self.now.digest.kept 0) }
    {
        match self.kept.oldest() {
            None => Ok(None),
            Some(kept) => Ok(Some(kept::copy(alloc, kept)?)),
        }
    }

    /// Forget is noted of the kept transaction of that key. Without memory nothing changes.
    pub fn note_forget(&mut self, alloc: Global, key: &NodeKey) -> Result<(), NoMemory>
        ensures noted { OnOk result (self.new
            ≡ with_digest self.old (record self.old.digest { kept = with_forget self.old.digest.kept key.now (λ x. noted x KeptEvent.Forget) })) }
        ensures same { OnErr result (self.new ≡ self.old) }
    {
        kept::note_forget(alloc, &mut self.kept, key)
    }

    /// The node, which has taken the place of the one that it is a copy of, carries out what was changed on it of the arcs
    /// and of the kept transactions that they shared.
    pub fn settle_after(&mut self, alloc: Global, before: &mut Node)
        ensures { self.new ≡ self.old }
    {
        if self.kept.len() != 0 || before.kept.len() != 0 {
            self.settle_kept(alloc, before);
        }
        if self.count_below() > FEW || before.count_below() > FEW {
            self.settle_arcs(alloc, before);
        }
    }

    // Of the kept transactions.
    fn settle_kept(&mut self, alloc: Global, before: &mut Node)
        ensures { self.new ≡ self.old }
    {
        before.kept = KeptTable::new();
        self.kept.settle(alloc);
    }

    // Of the arcs.
    fn settle_arcs(&mut self, alloc: Global, before: &mut Node)
        ensures { self.new ≡ self.old }
    {
        release(&mut before.arcs);
        if let Some(arcs) = &mut self.arcs {
            arcs.settle(alloc);
        }
    }

    /// Whether it has asked.
    pub fn has_asked(&self) -> bool
        ensures { result ≡ has_asked self.now.digest }
    {
        match &self.current {
            None => false,
            Some(branch) => branch.has_asked(),
        }
    }

    // Promise 10.13, part 4
    /// What is shown of it.
    pub fn state(&self) -> NodeState
        ensures { state_of result ≡ state self.now.digest }
    {
        NodeState {
            phase: self.phase(),
            asked: self.has_asked(),
            owes: match &self.current {
                None => false,
                Some(branch) => branch.owes(),
            },
            kept: self.kept.len() as u64,
        }
    }

    /// The tree of its current transaction.
    pub fn tree(&self) -> Option<NodeTree>
        ensures { result ≡ tree_in self.now.digest }
    {
        match &self.current {
            None => None,
            Some(branch) => Some(NodeTree {
                aaid: branch.key().aaid,
                is_root: branch.key().branch.is_none(),
                phase: branch.phase(),
            }),
        }
    }

    /// The tree of its current transaction is put there.
    #[inline(always)]
    pub fn put_tree(&self, tree: &mut Option<NodeTree>)
        ensures { tree.new ≡ tree_in self.now.digest }
    {
        let Some(branch) = &self.current else {
            *tree = None;
            return;
        };
        let Some(tree) = tree else {
            *tree = self.tree();
            return;
        };
        let key = branch.key();
        tree.aaid = key.aaid;
        tree.is_root = key.branch.is_none();
        tree.phase = branch.phase();
    }

    /// It was declared since the site was started.
    pub(crate) fn is_declared(&self) -> bool
        ensures { result ≡ self.now.digest.declared }
    {
        self.arcs.is_some()
    }

    /// The superior's address, as it was declared.
    pub(crate) fn superior(&self) -> Option<Addr>
        ensures { result ≡ self.now.digest.superior }
    {
        match &self.arcs {
            None => None,
            Some(arcs) => arcs.superior(),
        }
    }

    /// It was not declared since the site was started, and is not known from the log.
    pub fn is_missing(&self) -> bool
        ensures { result ≡ is_no_node self.now.digest }
    {
        self.arcs.is_none() && !self.known
    }

    /// The arc with that peer.
    pub fn find(&self, peer: u16) -> Option<Tie>
        ensures arc { option_map arc_of result ≡ find_arc self.now.digest.arcs peer }
        ensures side { IfSome result (λ t. t.dialogue.side ≡ side_at self.now.digest peer) }
        ensures link { IfSome result (λ t. fits_link (side_at self.now.digest peer) t.link ≡ true) }
    {
        match &self.arcs {
            None => None,
            Some(arcs) => arcs.find(peer),
        }
    }

    /// The arc with that peer, where it stands.
    pub(crate) fn tie(&self, peer: u16) -> Option<&Tie>
        ensures arc { option_map arc_of (option_copied result) ≡ find_arc self.now.digest.arcs peer }
        ensures side { IfSome result (λ t. t.now.dialogue.side ≡ side_at self.now.digest peer) }
        ensures link { IfSome result (λ t. fits_link (side_at self.now.digest peer) t.now.link ≡ true) }
    {
        match &self.arcs {
            None => None,
            Some(arcs) => arcs.get(peer),
        }
    }

    /// The node's side on an arc with that peer.
    pub(crate) fn side(&self, peer: u16) -> Side
        ensures { result ≡ side_at self.now.digest peer }
    {
        match &self.arcs {
            None => Side::Superior,
            Some(arcs) => arcs.side(peer),
        }
    }

    /// What the arc with that peer is to know of the transaction.
    #[tactic(auto, using(crate::proofs::Seen::situation_seen))]
    pub fn situation(&self, peer: u16) -> Situation
        ensures { result ≡ situation_at self.now.who self.now.digest peer }
    {
        match &self.current {
            None => Situation {
                branch: false,
                phase: Phase::Nil,
                asked: false,
                prepared: false,
                done: false,
                left: false,
            },
            Some(branch) => branch.situation(peer),
        }
    }

    /// Why the current transaction refuses an event; where there is none, as given. It takes no memory.
    #[tactic(auto, using(crate::proofs::Seen::refused_seen))]
    pub(crate) fn refused_of_current(
        &self,
        event: &TxEvent,
        none: Option<Refusal>,
    ) -> Option<Refusal>
        ensures { result ≡ refused_of_current self.now.who self.now.digest event.now none }
    {
        match &self.current {
            None => none,
            Some(branch) => branch.refused(event),
        }
    }

    /// What comes of a record on that arc, by the current transaction; where there is none, as given.
    #[inline(always)]
    #[tactic(auto, using(crate::proofs::Seen::sight_seen))]
    pub(crate) fn disposition_of_current(
        &self,
        tie: &Tie,
        rec: &DialogueRecord,
        none: Disposition,
    ) -> Disposition
        ensures { sight_value result ≡ sight_in_tx self.now.who self.now.digest (arc_of tie.now) rec.now (sight_value none) }
    {
        match &self.current {
            None => none,
            Some(branch) => branch.disposition(tie.addr().node, rec),
        }
    }

    // ---- refusals, which take no memory

    // Of a request that names an arc, by the arc itself and by others.
    #[inline(always)]
    #[tactic(auto, using(crate::proofs::Refusals::refused_on))]
    fn refused_at(
        &self,
        peer: u16,
        octets: u16,
        asked: Asked,
        others: Option<Refusal>,
    ) -> Option<Refusal>
        ensures { result ≡ refused_at self.now.who self.now.digest peer octets (asked_value asked) others }
    {
        let Some(tie) = self.tie(peer) else {
            return Some(NoDialogue);
        };
        if tie.link.state() != LinkState::Live {
            return Some(NoDialogue);
        }
        let situation = self.situation(peer);
        Refusal::least(tie.dialogue.refused(&situation, octets, asked), others)
    }

    // Of a request that speaks of the transaction as a whole.
    #[tactic(auto, using(crate::proofs::Seen::user_seen))]
    fn refused_of_transaction(&self, request: &Request) -> Option<Refusal>
        ensures { result ≡ refused_of_tx self.now.who self.now.digest request.now }
    {
        match &self.current {
            None => Some(NoTransaction),
            Some(branch) => branch.refused_user(request),
        }
    }

    // The superior's arc.
    fn superior_arc(&self) -> Option<Tie>
        ensures { option_map arc_of result ≡ superior_arc self.now.digest }
    {
        match &self.arcs {
            None => None,
            Some(arcs) => arcs.find(arcs.superior()?.node),
        }
    }

    // Promise 10.7: A node may be a root exactly where the definitions say
    fn may_root(&self) -> bool
        ensures { result ≡ may_root self.now.digest }
    {
        match self.superior_arc() {
            None => true,
            Some(tie) => {
                tie.link.state() != LinkState::Live || !tie.dialogue.units().has(COMMIT)
            }
        }
    }

    #[tactic(auto, unfolding(tp_model::specs::Requests::refused_request))]
    fn refused_reject(&self) -> Option<Refusal>
        ensures { result ≡ refused_request self.now.who self.now.digest Request.Reject }
    {
        match self.superior_arc() {
            Some(tie) if tie.link.state() == LinkState::Offered => None,
            _ => Some(NoDialogue),
        }
    }

    #[tactic(auto, unfolding(tp_model::specs::Requests::refused_request))]
    fn refused_accept(&self, units: u8) -> Option<Refusal>
        ensures { result ≡ refused_request self.now.who self.now.digest (Request.Accept units) }
    {
        let Some(tie) = self.superior_arc() else {
            return Some(NoDialogue);
        };
        if tie.link.state() != LinkState::Offered {
            return Some(NoDialogue);
        }
        if choose(tie.dialogue.units(), units).is_err() {
            return Some(UnitAbsent);
        }
        if self.phase() != Phase::Nil {
            return Some(TransactionOpen);
        }
        None
    }

    // A subordinate branch of the current transaction.
    fn is_branch_below(&self, peer: u16) -> bool
        ensures { result ≡ is_branch_below self.now.digest peer }
    {
        match &self.current {
            None => false,
            Some(branch) => has_branch_at(branch, peer),
        }
    }

    // The branches of a transaction with whose peers there is no dialogue.
    fn count_gone(&self, branch: &Branch) -> usize
        ensures { result ≡ count_gone self.now.digest.arcs (branches_of branch.now.rows) }
    {
        let mut count = 0;
        for i in 0..branch.branches() {
            let peer = branch.branch_peer(i);
            if self.find(peer.node).is_none() {
                count += 1;
            }
        }
        count
    }

    // The dialogues with subordinates.
    #[tactic(auto, using(crate::proofs::Refusals::counted))]
    fn count_below(&self) -> usize
        ensures { result ≡ count_below self.now.digest self.now.digest.arcs }
    {
        match &self.arcs {
            None => 0,
            Some(arcs) => arcs.subordinates(),
        }
    }

    // There are as many subordinates as the log allows.
    fn is_full(&self) -> bool
        ensures { result ≡ nat_le (room self.now.digest.version) (count_subordinates self.now.digest) }
    {
        let gone = match &self.current {
            None => 0,
            Some(branch) => self.count_gone(branch),
        };
        reaches(room(self.version), self.count_below(), gone)
    }

    // No new dialogue can be asked for with that peer now.
    fn is_taken(&self, peer: u16) -> bool
        ensures { result ≡ ((peer == self.now.who.node) || is_superior self.now.digest peer || is_some (find_arc self.now.digest.arcs peer)
            || is_branch_below self.now.digest peer || is_late (phase_of self.now.digest)) }
    {
        peer == self.number
            || self.side(peer) == Side::Subordinate
            || self.find(peer).is_some()
            || self.is_branch_below(peer)
            || is_late(self.phase())
    }

    #[tactic(auto, unfolding(tp_model::specs::Requests::refused_request))]
    fn refused_begin(&self, addr: Addr, units: u8) -> Option<Refusal>
        ensures { result ≡ refused_request self.now.who self.now.digest (Request.BeginDialogue addr units) }
    {
        Refusal::first(&[
            (self.is_taken(addr.node), WrongPhase),
            (Units::check(units).is_err(), UnitAbsent),
            (self.has_asked(), AlreadyAsked),
            (self.is_full(), TooMany),
        ])
    }

    // Of a begin-transaction, by others than the arc.
    fn refused_root(&self) -> Option<Refusal>
        ensures { result ≡ first ((is_nil (phase_of self.now.digest) && not (may_root self.now.digest), NoTransaction) ∷ []) }
    {
        if self.phase() == Phase::Nil && !self.may_root() {
            Some(NoTransaction)
        } else {
            None
        }
    }

    /// Why a request is refused, but for the want of numbers.
    #[inline(always)]
    #[tactic(auto, unfolding(tp_model::specs::Requests::refused_request), using(crate::proofs::Refusals::data_cut))]
    pub(crate) fn refused_request(&self, request: &Request) -> Option<Refusal>
        ensures { result ≡ refused_request self.now.who self.now.digest request.now }
    {
        match request {
            Request::BeginDialogue { addr, units } => self.refused_begin(*addr, *units),
            Request::Accept { units } => self.refused_accept(*units),
            Request::Reject => self.refused_reject(),
            Request::EndDialogue { peer } => self.refused_at(*peer, 0, Asked::End, None),
            Request::UserData { peer, octets } => {
                self.refused_at(*peer, octets.len().min(2000) as u16, Asked::Data, None)
            }
            Request::UError { peer } => self.refused_at(*peer, 0, Asked::Error, None),
            Request::UAbort { peer } => self.refused_at(*peer, 0, Asked::Abort, None),
            Request::Grant { peer } => self.refused_at(*peer, 0, Asked::Grant, None),
            Request::AskControl { peer } => self.refused_at(*peer, 0, Asked::Control, None),
            Request::Handshake { peer } => self.refused_at(*peer, 0, Asked::Handshake, None),
            Request::Respond { peer } => self.refused_at(*peer, 0, Asked::Respond, None),
            Request::HandshakeGrant { peer } => self.refused_at(
                *peer,
                0,
                Asked::HandshakeGrant,
                None,
            ),
            Request::BeginTransaction { peer } => {
                self.refused_at(*peer, 0, Asked::Begin, self.refused_root())
            }
            Request::DeferEnd { peer } => self.refused_at(*peer, 0, Asked::DeferEnd, None),
            Request::DeferGrant { peer } => self.refused_at(*peer, 0, Asked::DeferGrant, None),
            Request::Prepare { peer } => self.refused_at(*peer, 0, Asked::Prepare, None),
            Request::Commit | Request::Done | Request::Rollback | Request::Unchanged => {
                self.refused_of_transaction(request)
            }
        }
    }

    /// Of a purge.
    pub(crate) fn refused_purge(&self) -> Option<Refusal>
        ensures { result ≡ refused_purge self.now.digest.kept }
    {
        match self.kept.oldest() {
            None => Some(NotKept),
            Some(kept) => refused(kept, &KeptEvent::Purge),
        }
    }

    /// Of a loss.
    pub(crate) fn refused_loss(&self, peer: u16) -> Option<Refusal>
        ensures { result ≡ first ((is_idle (link_with self.now.digest.arcs peer), NoDialogue) ∷ []) }
    {
        match self.find(peer) {
            Some(tie) if tie.link.state() != LinkState::Idle => None,
            _ => Some(NoDialogue),
        }
    }

    // ---- where Begin may be sent

    /// Begin may be sent on the arc: it is live, leads to a subordinate, and is no branch yet of the
    /// transaction, which is active.
    #[inline(always)]
    pub(crate) fn may_begin_on(&self, tie: &Tie) -> bool
        ensures { result ≡ may_begin_on self.now.who self.now.digest (arc_of tie.now) }
    {
        let peer = tie.addr().node;
        tie.link.state() == LinkState::Live
            && self.side(peer) == Side::Superior
            && self.phase() == Phase::Active
            && !self.situation(peer).branch
    }

    /// A live chained arc to a subordinate that is no branch yet.
    pub(crate) fn is_chained_below(&self, tie: &Tie) -> bool
        ensures { result ≡ is_chained_below self.now.who self.now.digest (arc_of tie.now) }
    {
        let peer = tie.addr().node;
        tie.link.state() == LinkState::Live
            && tie.dialogue.units().has(CHAINED)
            && self.side(peer) == Side::Superior
            && !self.situation(peer).branch
    }

    /// The peers of the live chained arcs to subordinates that are no branches yet, in order.
    #[inline(always)]
    #[tactic(auto, using(crate::proofs::Beginnings::none_chained))]
    pub fn chained_peers(&self, alloc: Global) -> Result<Vec<u16>, NoMemory>
        ensures { IfOk result (λ peers. peers.items ≡ chained_peers self.now.who self.now.digest) }
    {
        let mut peers = Vec::new(alloc);
        let Some(arcs) = &self.arcs else {
            return Ok(peers);
        };
        if arcs.has_none_chained() {
            return Ok(peers);
        }
        let ties = arcs.list(alloc)?;
        for tie in ties.as_slice() {
            if self.is_chained_below(tie) {
                peers.push(tie.addr().node)?;
            }
        }
        Ok(peers)
    }

    /// The node's next transaction starts by itself: it has none, may be a root, and has a chained arc to begin on.
    pub fn may_start(&self, alloc: Global) -> Result<bool, NoMemory>
        ensures { IfOk result (λ may. may ≡ may_start self.now.who self.now.digest) }
    {
        let peers = self.chained_peers(alloc)?;
        Ok(!peers.is_empty() && self.phase() == Phase::Nil && self.may_root())
    }

    // ---- changes

    /// The arc with that peer is taken away, where there is one.
    pub fn close(&mut self, peer: u16)
        ensures { self.new ≡ with_arcs self.old (without_arc self.old.digest.arcs peer) }
    {
        match &mut self.arcs {
            None => {}
            Some(arcs) => arcs.remove(peer),
        }
    }

    /// The arc with that peer is taken away; where it is live the peer is told.
    pub fn shut(&mut self, peer: u16) -> Option<Out>
        ensures arcs { self.new ≡ with_arcs self.old (shut_with self.old.digest.arcs peer).0 }
        ensures out { outs_of_option result ≡ (shut_with self.old.digest.arcs peer).1 }
    {
        match &mut self.arcs {
            None => None,
            Some(arcs) => arcs.shut(peer),
        }
    }

    // Promise 10.14: How a node numbers its next record, what stays current of its transaction
    //   after an event, the mark that it draws, what a record of the log makes of its kept
    //   transactions, and a branch that it begins are those of the definitions
    /// Numbers the next record that goes out on the arc with that peer, where it is live. Where the association has no number
    /// left, nothing changes.
    #[inline(always)]
    pub fn number_next(&mut self, peer: u16) -> Result<Option<Next>, NumbersSpent>
        ensures arcs { (rec : RecordValue) → OnOk result (self.new ≡ with_arcs self.old (carried self.old.digest.arcs peer rec).0) }
        ensures out { (rec : RecordValue) → IfOk result (λ next. outs_with next rec ≡ (carried self.old.digest.arcs peer rec).1) }
        ensures spent { (rec : RecordValue) → OnErr result (some_past_numbers (carried self.old.digest.arcs peer rec).1 ≡ true) }
        ensures same { OnErr result (self.new ≡ self.old) }
    {
        let Some(arcs) = &mut self.arcs else {
            return Ok(None);
        };
        arcs.number_next(peer)
    }

    // Promise 10.14, part 3
    /// The next mark of the node's counter. Where it is spent, nothing changes.
    pub fn draw(&mut self) -> Result<Mark, NumbersSpent>
        ensures mark { IfOk result (λ mark. mark ≡ next_mark self.old.who self.old.digest) }
        ensures drawn { OnOk result (self.new ≡ record self.old { digest = with_mark_drawn self.old.digest }) }
        ensures spent { OnErr result (self.old.digest.drawn ≡ greatest) }
        ensures same { OnErr result (self.new ≡ self.old) }
    {
        let mut counter = Counter::from(self.boot, self.number, self.drawn);
        let mark = counter.draw()?;
        self.drawn = mark.count;
        Ok(mark)
    }
}

impl Node {
    /// The tree of the current transaction.
    fn aaid(&self) -> Option<Aaid>
        ensures { result ≡ aaid_in self.now.digest.current }
    {
        match &self.current {
            None => None,
            Some(branch) => Some(branch.key().aaid),
        }
    }

    /// Adds a branch to the current transaction, after the others. Without memory nothing changes.
    #[tactic(auto, using(crate::proofs::Beginnings::branches_more))]
    fn add_branch(&mut self, child: &Child) -> Result<(), NoMemory>
        ensures added { OnOk result (self.new ≡ with_digest self.old (record self.old.digest { current = with_branch child.now self.old.digest.current })) }
        ensures memory { has_place_below self.old.digest.current ≡ true → result ≡ Ok tt }
        ensures same { OnErr result (self.new ≡ self.old) }
    {
        let Some(branch) = &mut self.current else {
            return Ok(());
        };
        branch.add(child)
    }

    /// A transaction of that key begins: active, without a branch. It has the memory of one that is spared. Without memory the
    /// node stays what it was.
    #[inline(always)]
    pub fn begin_transaction(
        &mut self,
        alloc: Global,
        spare: &mut Spare,
        key: &NodeKey,
        superior: &Option<Addr>,
    ) -> Result<(), NoMemory>
        requires { IsTrue (has_superior key.now superior.now) }
        ensures begun { OnOk result (self.new
            ≡ with_digest self.old (record self.old.digest { current = Some (fresh_current (key_from key.now superior.now)) })) }
        ensures same { OnErr result (self.new ≡ self.old) }
    {
        self.current = Some(spare.begin(alloc, self.number, key, superior)?);
        Ok(())
    }

    /// The current transaction, as it sees the arcs now. The node has none then, until it settles one.
    pub fn take_seen(&mut self) -> Option<Box<Branch>>
        ensures branch { unboxed result ≡ option_map (seen self.old.who self.old.digest.arcs) self.old.digest.current }
        ensures node { self.new ≡ with_digest self.old (record self.old.digest { current = None }) }
    {
        let Some(branch) = &mut self.current else {
            return None;
        };
        look::see(self.number, &self.arcs, branch);
        self.current.take()
    }

    /// What a passage of the transaction does to the arcs.
    pub fn step(&mut self, step: ArcStep, branch: &Branch)
        ensures { self.new ≡ with_arcs self.old (stepped_arcs step self.old.digest.superior branch.now self.old.digest.arcs) }
    {
        match &mut self.arcs {
            None => {}
            Some(arcs) => arcs.step(step, branch),
        }
    }

    /// What the transaction does to the arcs where it passes so, before anything is said.
    #[tactic(auto, unfolding(tp_model::specs::Node::entered), using(tp_node_state::proofs::Steps::entered_arcs, tp_node_state::proofs::Steps::fallen_arcs))]
    pub fn enter(&mut self, branch: &Branch, passage: Passage)
        ensures { self.new ≡ with_arcs self.old (entered branch.now (passage_of passage) self.old.digest.arcs) }
    {
        match passage {
            Passage::Enters => self.step(ArcStep::Enter, branch),
            Passage::Falls | Passage::FallsAtOnce => self.step(ArcStep::Fall, branch),
            Passage::Stays | Passage::Commits | Passage::RollsBack | Passage::Leaves => {}
        }
    }

    // Promise 10.14, part 2
    /// The transaction has become that one: it stays current unless it is over, and is spared then.
    #[tactic(auto, using(crate::proofs::Turns::remains))]
    pub fn settle(&mut self, next: Box<Branch>, spare: &mut Spare)
        ensures { self.new ≡ with_digest self.old (record self.old.digest { current = remaining next.value }) }
    {
        if next.phase() == Phase::Nil {
            self.current = None;
            spare.put(next);
            return;
        }
        self.current = Some(next);
    }

    /// The deferred grants that a completed commitment gives, in the order of the arcs.
    #[tactic(auto, using(crate::proofs::Beginnings::none_granted))]
    pub fn grants(&self, alloc: Global, branch: &Branch) -> Result<TxOuts, NoMemory>
        ensures { IfOk result (λ outs. outs ≡ grants branch.now self.now.digest.arcs) }
    {
        let mut outs = TxOuts::new(alloc);
        let Some(arcs) = &self.arcs else {
            return Ok(outs);
        };
        if arcs.has_no_grant() {
            return Ok(outs);
        }
        let ties = arcs.list(alloc)?;
        for tie in ties.as_slice() {
            if is_granting(branch, tie) {
                let rec = DialogueRecord::Grant;
                let arc = tie.addr().node;
                outs.push(alloc, TxOut::Carry { arc, rec })?;
            }
        }
        Ok(outs)
    }

    /// Copies of the kept transactions, in order.
    pub fn kept(&self, alloc: Global) -> Result<Vec<Kept>, NoMemory>
        ensures { IfOk result (λ kept. kept.items ≡ self.now.digest.kept) }
    {
        self.kept.copies(alloc)
    }

    // Promise 10.14, part 4
    /// What a record of the log makes of the kept transactions. Without memory nothing changes.
    pub fn keep(&mut self, alloc: Global, rec: &Option<LogRec>) -> Result<(), NoMemory>
        ensures kept { OnOk result (self.new ≡ with_digest self.old (record self.old.digest { kept = kept_after rec.now self.old.digest.kept })) }
        ensures same { OnErr result (self.new ≡ self.old) }
    {
        match rec {
            None => Ok(()),
            Some(rec) => kept::keep(alloc, &mut self.kept, rec),
        }
    }

    /// Changes the dialogue of the arc with that peer, where there is one. The node's side stays.
    #[inline(always)]
    fn put_dialogue(&mut self, peer: u16, dialogue: Dialogue)
        requires { dialogue.side ≡ side_at self.old.digest peer }
        ensures { self.new ≡ with_arcs self.old (with_dialogue self.old.digest.arcs peer (λ _. dialogue.dialogue)) }
    {
        match &mut self.arcs {
            None => {}
            Some(arcs) => arcs.put_dialogue(peer, dialogue),
        }
    }

    /// A new dialogue is asked for: its arc stands after the others, and its association is offered with a new mark. Where the
    /// counter is spent nothing changes; where memory runs out a mark is drawn, and nothing else changes.
    pub fn call(&mut self, addr: Addr, units: Units) -> Result<Mark, Halt>
        requires declared { self.old.digest.declared ≡ true }
        requires other { find_arc self.old.digest.arcs addr.node ≡ None }
        requires side { Side.Superior ≡ side_at self.old.digest addr.node }
        requires place { has_place_at Side.Superior self.old.digest ≡ true }
        ensures mark { IfOk result (λ x. x ≡ next_mark self.old.who self.old.digest) }
        ensures node { IfOk result (λ x. self.new
            ≡ with_digest self.old (record (with_mark_drawn self.old.digest)
            { arcs = self.old.digest.arcs ++ new_arc addr units Side.Superior (Opening x) ∷ [] })) }
        ensures spent { OnSpent result (self.old.digest.drawn ≡ greatest) }
        ensures halted { IsHalted result self.old self.new }
    {
        let x = self.draw()?;
        let mut link = Link::idle();
        link.call(x);
        self.add_arc(addr, units, Side::Superior, link)?;
        Ok(x)
    }

    /// The arc on which the superior offers a dialogue, with the mark of its offer.
    #[tactic(auto, using(crate::proofs::Calls::no_arc, crate::proofs::Calls::no_offer, crate::proofs::Calls::an_offer))]
    pub fn offer(&self) -> Option<(Tie, Mark)>
        ensures { offer_on result ≡ offer_of self.now.digest }
    {
        let tie = self.superior_arc()?;
        if tie.link.state() != LinkState::Offered {
            return None;
        }
        let x = tie.link.marks().0?;
        Some((tie, x))
    }

    /// The superior's offer is answered with a new mark: its arc is live, with a new dialogue. Where the counter is spent,
    /// nothing changes.
    #[tactic(auto, using(crate::proofs::Calls::offered_arc))]
    pub fn answer(&mut self, tie: &Tie, x: Mark, units: Units) -> Result<Mark, NumbersSpent>
        requires { offer_of self.old.digest ≡ Some (arc_of tie.now, x) }
        ensures mark { IfOk result (λ y. y ≡ next_mark self.old.who self.old.digest) }
        ensures node { IfOk result (λ y. self.new
            ≡ with_digest self.old (answered (arc_of tie.now) units Side.Subordinate (Live x y 0 0) (with_mark_drawn self.old.digest))) }
        ensures spent { OnErr result (self.old.digest.drawn ≡ greatest) }
        ensures same { OnErr result (self.new ≡ self.old) }
    {
        let y = self.draw()?;
        let mut link = tie.link;
        link.accept(y);
        self.renew(tie, units, Side::Subordinate, link);
        Ok(y)
    }

    /// The superior offers a dialogue: its arc stands before the others. Without memory nothing changes.
    pub fn open(&mut self, from: Addr, x: Mark, units: Units) -> Result<(), NoMemory>
        requires declared { self.old.digest.declared ≡ true }
        requires other { find_arc self.old.digest.arcs from.node ≡ None }
        requires side { Side.Subordinate ≡ side_at self.old.digest from.node }
        ensures opened { OnOk result (self.new ≡ with_arcs self.old (new_arc from units Side.Subordinate (Offered x) ∷ self.old.digest.arcs)) }
        ensures same { OnErr result (self.new ≡ self.old) }
    {
        let mut link = Link::idle();
        link.offered(x);
        self.add_arc(from, units, Side::Subordinate, link)
    }

    /// The peer answers the call on that arc: it is live, with a new dialogue.
    #[tactic(auto, using(tp_node_state::proofs::Linked::calls_below, tp_node_state::proofs::Linked::bound_live))]
    pub fn bind(&mut self, tie: &Tie, x: Mark, y: Mark, units: Units)
        requires arc { find_arc self.old.digest.arcs (arc_of tie.now).peer.node ≡ Some (arc_of tie.now) }
        requires link { fits_link (side_at self.old.digest (arc_of tie.now).peer.node) tie.now.link ≡ true }
        requires opening { is_opening_with tie.now.link x ≡ true }
        ensures { self.new ≡ with_digest self.old (answered (arc_of tie.now) units Side.Superior (Live x y 0 0) self.old.digest) }
    {
        let mut link = tie.link;
        let Ok(()) = link.bound(x, y) else {
            unreachable!()
        };
        self.renew(tie, units, Side::Superior, link);
    }

    // A new dialogue on the arc, whose association has that state.
    fn renew(&mut self, tie: &Tie, units: Units, side: Side, link: Link)
        requires arc { find_arc self.old.digest.arcs (arc_of tie.now).peer.node ≡ Some (arc_of tie.now) }
        requires side { side ≡ side_at self.old.digest (arc_of tie.now).peer.node }
        requires link { fits_link side link ≡ true }
        ensures { self.new ≡ with_digest self.old (answered (arc_of tie.now) units side link self.old.digest) }
    {
        let peer = tie.addr().node;
        self.put_dialogue(peer, Dialogue::new(units, side));
        self.put_link(peer, link);
    }

    // Changes the link of the arc with that peer, where there is one.
    fn put_link(&mut self, peer: u16, link: Link)
        requires { fits_link (side_at self.old.digest peer) link ≡ true }
        ensures { self.new ≡ with_arcs self.old (with_link self.old.digest.arcs peer (λ _. link)) }
    {
        match &mut self.arcs {
            None => {}
            Some(arcs) => arcs.put_link(peer, link),
        }
    }

    // Adds a new dialogue, on an association of that state.
    fn add_arc(&mut self, addr: Addr, units: Units, side: Side, link: Link) -> Result<(), NoMemory>
        requires declared { self.old.digest.declared ≡ true }
        requires other { find_arc self.old.digest.arcs addr.node ≡ None }
        requires side { side ≡ side_at self.old.digest addr.node }
        requires place { has_place_at side self.old.digest ≡ true }
        requires link { fits_link side link ≡ true }
        ensures added { OnOk result (self.new ≡ with_arcs self.old (with_arc side (new_arc addr units side link) self.old.digest.arcs)) }
        ensures same { OnErr result (self.new ≡ self.old) }
    {
        let Some(arcs) = &mut self.arcs else {
            unreachable!()
        };
        arcs.add(addr, units, side, link)
    }

    /// What is asked is said on the arc with that peer, where there is one.
    #[tactic(auto, using(crate::proofs::Talks::put_none, crate::proofs::Beginnings::dialogue_put))]
    pub fn say(&mut self, peer: u16, asked: Asked)
        ensures { self.new ≡ with_arcs self.old (with_dialogue self.old.digest.arcs peer (said (asked_value asked))) }
    {
        let Some(tie) = self.tie(peer) else {
            return;
        };
        let mut dialogue = tie.dialogue;
        dialogue.say(asked);
        self.put_dialogue(peer, dialogue);
    }

    /// A record is heard on the arc with that peer, where there is one.
    #[tactic(auto, using(crate::proofs::Talks::put_none, crate::proofs::Beginnings::dialogue_put))]
    pub fn hear(&mut self, peer: u16, kind: Heard)
        ensures { self.new ≡ with_arcs self.old (with_dialogue self.old.digest.arcs peer (heard (heard_value kind))) }
    {
        let Some(tie) = self.tie(peer) else {
            return;
        };
        let mut dialogue = tie.dialogue;
        dialogue.hear(kind);
        self.put_dialogue(peer, dialogue);
    }

    /// Control and handshakes are cleared on the arc with that peer, where there is one.
    #[tactic(auto, using(crate::proofs::Talks::put_none, crate::proofs::Beginnings::dialogue_put))]
    pub fn clear(&mut self, peer: u16)
        ensures { self.new ≡ with_arcs self.old (with_dialogue self.old.digest.arcs peer cleared) }
    {
        let Some(tie) = self.tie(peer) else {
            return;
        };
        let mut dialogue = tie.dialogue;
        dialogue.clear();
        self.put_dialogue(peer, dialogue);
    }

    // A transaction begins on the arc with that peer, where there is one.
    #[tactic(auto, using(crate::proofs::Talks::put_none, crate::proofs::Beginnings::dialogue_put))]
    fn begin_dialogue(&mut self, peer: u16, holder: Holder)
        ensures { self.new ≡ with_arcs self.old (with_dialogue self.old.digest.arcs peer (begun_by holder (side_at self.old.digest peer))) }
    {
        let Some(tie) = self.tie(peer) else {
            return;
        };
        let mut dialogue = tie.dialogue;
        dialogue.begin(holder);
        self.put_dialogue(peer, dialogue);
    }

    /// The superior's transaction begins, as the branch of that identifier. Without memory the node stays what it was.
    pub fn begin_under(
        &mut self,
        alloc: Global,
        spare: &mut Spare,
        superior: &Addr,
        aaid: &Aaid,
        branch: &BranchId,
        holder: Holder,
    ) -> Result<(), NoMemory>
        requires { Side.Subordinate ≡ side_at self.old.digest superior.now.node }
        ensures begun { OnOk result (self.new ≡ with_digest self.old (begun_under superior.now aaid.now branch.now holder self.old.digest)) }
        ensures same { OnErr result (self.new ≡ self.old) }
    {
        let key = NodeKey {
            aaid: *aaid,
            branch: Some(*branch),
        };
        self.begin_transaction(alloc, spare, &key, &Some(*superior))?;
        self.begin_dialogue(superior.node, holder);
        Ok(())
    }

    /// A record with that pair and number is taken on the arc with that peer; any but a response ends the arc's rest.
    #[inline(always)]
    #[tactic(auto, using(tp_node_state::proofs::Takes::woken_so))]
    pub fn take(&mut self, peer: u16, x: Mark, y: Mark, seq: u64, rec: &DialogueRecord)
        requires { dropped_by (link_with self.old.digest.arcs peer) x y seq ≡ None }
        ensures { self.new ≡ with_digest self.old
            (woken_by rec.now peer (record self.old.digest { arcs = with_link self.old.digest.arcs peer with_one_taken })) }
    {
        match &mut self.arcs {
            None => {}
            Some(arcs) => arcs.take(peer, x, y, seq, is_waking(rec)),
        }
    }

    // Promise 10.14, part 5
    /// A branch begins on the arc with that peer, where Begin may be sent: it has a new identifier, and control is
    /// where its holder is. Gives the record that is to go out. It takes no memory where the transaction has fewer than 256
    /// branches. Where the counter is spent nothing changes; where memory runs out a mark is drawn, and nothing else changes.
    #[inline(always)]
    #[tactic(auto, using(crate::proofs::Beginnings::begun_record, crate::proofs::Beginnings::begun_spent))]
    pub fn begin_branch(&mut self, peer: u16) -> Result<Option<DialogueRecord>, Halt>
        ensures node { OnOk result (self.new ≡ with_digest self.old (begun_on self.old.who peer self.old.digest).0) }
        ensures rec { IfOk result (λ rec. rec ≡ (begun_on self.old.who peer self.old.digest).1) }
        ensures spent { OnSpent result (nat_lt greatest (begun_on self.old.who peer self.old.digest).0.drawn ≡ true) }
        ensures memory { has_place_below self.old.digest.current ≡ true → IfErr result (λ halt. halt ≡ Halt.NumbersSpent) }
        ensures halted { IsHalted result self.old self.new }
    {
        let Some(aaid) = self.aaid() else {
            return Ok(None);
        };
        let Some(tie) = self.tie(peer) else {
            return Ok(None);
        };
        if !self.may_begin_on(tie) {
            return Ok(None);
        }
        let addr = tie.addr();
        let dialogue = tie.dialogue;
        let branch = BranchId {
            superior: self.site,
            mark: self.draw()?,
        };
        self.begin_on(&addr, &dialogue, &branch)?;
        let holder = named_holder(&dialogue);
        Ok(Some(DialogueRecord::Begin {
            aaid,
            branch,
            holder,
        }))
    }

    // The branch begins on the arc with that address and dialogue. Without memory nothing changes.
    #[tactic(auto, unfolding(tp_model::specs::Dialogues::begun_by))]
    fn begin_on(
        &mut self,
        addr: &Addr,
        dialogue: &Dialogue,
        branch: &BranchId,
    ) -> Result<(), NoMemory>
        requires { dialogue.now.side ≡ side_at self.old.digest addr.now.node }
        ensures memory { has_place_below self.old.digest.current ≡ true → result ≡ Ok tt }
        ensures begun { OnOk result (self.new ≡ with_digest self.old (record self.old.digest {
          arcs = with_dialogue self.old.digest.arcs addr.now.node (λ _. begun_by (named_holder dialogue.now.dialogue) dialogue.now.side dialogue.now.dialogue);
          current = with_branch (record { addr = addr.now; branch = branch.now }) self.old.digest.current;
        })) }
        ensures same { OnErr result (self.new ≡ self.old) }
    {
        self.add_branch(&Child {
            addr: *addr,
            branch: *branch,
        })?;
        let mut begun = *dialogue;
        begun.begin(named_holder(dialogue));
        self.put_dialogue(addr.node, begun);
        Ok(())
    }
}

// Any record but a response ends the rest of its arc.
fn is_waking(rec: &DialogueRecord) -> bool
    ensures { result ≡ not (is_response rec.now) }
{
    match rec {
        DialogueRecord::Response => false,
        _ => true,
    }
}

fn has_branch_at(branch: &Branch, peer: u16) -> bool
    ensures { result ≡ has_branch_at (branches_of branch.now.rows) peer }
{
    for i in 0..branch.branches() {
        let own = branch.branch_peer(i);
        if own.node == peer {
            return true;
        }
    }
    false
}

fn is_late(phase: Phase) -> bool
    ensures { result ≡ is_late phase }
{
    match phase {
        Phase::Nil | Phase::Active => false,
        Phase::Ready | Phase::Committing | Phase::Rolling => true,
    }
}

fn room(version: LogVersion) -> usize
    ensures { result ≡ room version }
{
    match version {
        LogVersion::One => 32,
        LogVersion::Two => 256,
    }
}

fn reaches(room: usize, below: usize, gone: usize) -> bool
    ensures { result ≡ nat_le room (below + gone) }
{
    below >= room || gone >= room - below
}

/// The holder that a Begin names.
pub(crate) fn named_holder(dialogue: &Dialogue) -> Holder
    ensures { result ≡ named_holder dialogue.now.dialogue }
{
    if !dialogue.units().has(POLARIZED) {
        Holder::None
    } else if dialogue.deferral() == Deferral::Grant {
        Holder::Subordinate
    } else {
        Holder::Superior
    }
}
