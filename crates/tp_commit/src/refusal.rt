//! What a transaction refuses.
ghost use Rattle.std.specs.Prelude.{◌≡◌};
ghost use Rattle.tp_model.specs.Transactions.{refused_user, may_give_up, refused_tx};
ghost use Rattle.tp_model.specs.Dialogues.{is_late};

use crate::{Branch, rows};
use tp_model::Refusal::{
    AlreadyAsked, AlreadyDecided, NotAsked, NotInReady, NothingOwed, StillOwed, WrongPhase,
};
use tp_model::{Disposition, Phase, Refusal, TxEvent};
use tp_records::Request;

impl Branch {
    // Ready, committing or rolling.
    fn is_late(&self) -> bool
        ensures { result ≡ is_late self.now.phase }
    {
        match self.phase {
            Phase::Nil | Phase::Active => false,
            Phase::Ready | Phase::Committing | Phase::Rolling => true,
        }
    }

    /// Why the transaction refuses a request: the refusal with the least number that applies. What its dialogue
    /// refuses is not the transaction's. It takes no memory.
    #[inline(always)]
    pub fn refused_user(&self, request: &Request) -> Option<Refusal>
        ensures { result ≡ refused_user self.now request.now }
    {
        let late = self.is_late();
        let unasked = !self.told_prepare;
        match request {
            Request::Commit => Refusal::first(&[
                (late, WrongPhase),
                (self.is_under() && unasked, NotAsked),
                (self.asked, AlreadyAsked),
            ]),
            Request::Done => {
                let is_owed = self.phase == Phase::Committing || self.phase == Phase::Rolling;
                Refusal::first(&[(!self.owes || !is_owed, NothingOwed)])
            }
            Request::Rollback => Refusal::first(&[(late, WrongPhase)]),
            Request::Unchanged => Refusal::first(&[
                (late, WrongPhase),
                (!self.is_under() || unasked, NotAsked),
                (self.asked, AlreadyAsked),
                (!rows::all_left(self.rows.as_slice()), StillOwed),
            ]),
            Request::BeginDialogue { .. }
            | Request::Accept { .. }
            | Request::Reject
            | Request::EndDialogue { .. }
            | Request::UserData { .. }
            | Request::UError { .. }
            | Request::UAbort { .. }
            | Request::Grant { .. }
            | Request::AskControl { .. }
            | Request::Handshake { .. }
            | Request::Respond { .. }
            | Request::HandshakeGrant { .. }
            | Request::BeginTransaction { .. }
            | Request::DeferEnd { .. }
            | Request::DeferGrant { .. }
            | Request::Prepare { .. } => None,
        }
    }

    // Given up may be a branch of a commitment that is neither done, left nor given up.
    fn may_give_up(&self, arc: u16) -> bool
        ensures { result ≡ may_give_up self.now arc }
    {
        let row = self.rows.find(arc);
        self.phase == Phase::Committing
            && row.is_some_and(|row| !row.ended && !row.left && !row.given_up)
    }

    // Promise 10.9, part 4
    /// Why the transaction refuses an event. It takes no memory.
    #[tactic(auto, unfolding(tp_model::specs::Transactions::refused_tx))]
    pub fn refused(&self, event: &TxEvent) -> Option<Refusal>
        ensures { result ≡ refused_tx event.now self.now }
    {
        match event {
            TxEvent::User(request) => self.refused_user(request),
            TxEvent::Took { arc, rec } => match self.disposition(*arc, rec) {
                Disposition::Acts | Disposition::Nothing => None,
                Disposition::OutOfPhase => Some(Refusal::OutOfPhase),
            },
            TxEvent::Heur(_) => Refusal::first(&[
                (self.phase != Phase::Ready, NotInReady),
                (self.decision.is_some(), AlreadyDecided),
            ]),
            TxEvent::GiveUp { arc } => Refusal::first(&[(!self.may_give_up(*arc), NothingOwed)]),
            TxEvent::Begun { .. }
            | TxEvent::Lost { .. }
            | TxEvent::Ordered
            | TxEvent::Reply { .. }
            | TxEvent::Retry => None,
        }
    }
}
