//! Which rules an event sets off.
ghost use Rattle.std.specs.Prelude.{◌≡◌, true, false};
ghost use Rattle.tp_model.specs.Transactions.{Transaction, transacted, by_user, takes, takes_left, superior_rolls, roll, replied, give_up};
ghost use Rattle.tp_model.specs.declared.transaction.TxEvent.{TxEvent};
ghost use Rattle.tp_records.specs.declared.dialogue.DialogueRecord.{DialogueRecord};
ghost use Rattle.tp_records.specs.declared.peer.RecState.{RecState};
ghost use Rattle.tp_commit.specs.Rules.{run, completion, is_needed, lost_by, set_off};

use crate::rule::{Course, Rule};
use crate::{Branch, rows};
use tp_model::{Disposition, Phase, TxEvent};
use tp_names::{BranchId, Report};
use tp_records::{DialogueRecord, RecState, Request};

// The rule by which a transaction completes, by its phase.
fn completion(phase: Phase) -> Rule
    ensures { result ≡ completion phase }
{
    match phase {
        Phase::Nil | Phase::Active | Phase::Ready => Rule::Nothing,
        Phase::Committing => Rule::CompleteCommit,
        Phase::Rolling => Rule::CompleteRollback,
    }
}

// Rolling begins, and may be complete at once.
fn roll(asked: bool) -> Course
    ensures { (t : Transaction) → run result t ≡ roll asked t }
{
    Course::two(Rule::BeginRolling { asked }, Rule::CompleteRollback)
}

// The same, where the superior rolled before.
fn roll_below() -> Course
    ensures { (t : Transaction) → run result t ≡ roll false (record t { superior_rolled = true }) }
{
    Course::three(
        Rule::NoteRollback,
        Rule::BeginRolling { asked: false },
        Rule::CompleteRollback,
    )
}

impl Branch {
    fn by_user(&self, request: &Request) -> Course
        ensures { run result self.now ≡ by_user request.now self.now }
    {
        match request {
            Request::UAbort { peer } => Course::three(
                Rule::Abort { arc: *peer },
                Rule::BeginRolling { asked: true },
                Rule::CompleteRollback,
            ),
            Request::DeferEnd { peer } => Course::one(Rule::DeferEnd { arc: *peer }),
            Request::DeferGrant { peer } => Course::one(Rule::DeferGrant { arc: *peer }),
            Request::Prepare { peer } => Course::one(Rule::Prepare { arc: *peer }),
            Request::Commit => Course::two(Rule::AskCommit, Rule::Settle),
            Request::Done => Course::two(Rule::Finish, completion(self.phase)),
            Request::Rollback => roll(true),
            Request::Unchanged => Course::one(Rule::Leave),
            Request::BeginDialogue { .. }
            | Request::Accept { .. }
            | Request::Reject
            | Request::EndDialogue { .. }
            | Request::UserData { .. }
            | Request::UError { .. }
            | Request::Grant { .. }
            | Request::AskControl { .. }
            | Request::Handshake { .. }
            | Request::Respond { .. }
            | Request::HandshakeGrant { .. }
            | Request::BeginTransaction { .. } => Course::one(Rule::Nothing),
        }
    }

    // The superior's Rollback, or the reply that says that it knows of nothing.
    fn superior_rolls(&self) -> Course
        ensures { run result self.now ≡ superior_rolls self.now }
    {
        if self.phase == Phase::Rolling {
            Course::two(Rule::NoteRollback, Rule::CompleteRollback)
        } else {
            roll_below()
        }
    }

    // A branch that the node still waits for is on that arc, or its superior.
    fn is_needed(&self, arc: u16) -> bool
        ensures { result ≡ is_needed self.now arc }
    {
        let row = self.rows.find(arc);
        self.is_under_at(arc) || row.is_some_and(|row| !row.counted && !row.left)
    }

    // What the loss of an arc sets off, after the rule by which it is lost.
    fn lost_by(&self, loss: Rule, arc: u16) -> Course
        ensures { run result self.now ≡ lost_by loss arc self.now }
    {
        let rolls = Rule::BeginRolling { asked: false };
        if self.phase == Phase::Active && self.is_needed(arc) {
            Course::three(loss, rolls, Rule::CompleteRollback)
        } else if self.phase == Phase::Rolling {
            Course::two(loss, Rule::CompleteRollback)
        } else {
            Course::one(loss)
        }
    }

    #[tactic(auto, unfolding(tp_model::specs::Transactions::lost_arc))]
    fn aborted(&self, arc: u16) -> Course
        ensures { run result self.now ≡ takes arc DialogueRecord.UAbort self.now }
    {
        self.lost_by(Rule::Aborted { arc }, arc)
    }

    #[tactic(auto, unfolding(tp_model::specs::Transactions::lost_arc))]
    fn lost(&self, arc: u16) -> Course
        ensures { run result self.now ≡ transacted (TxEvent.Lost arc) self.now }
    {
        self.lost_by(Rule::Lost { arc }, arc)
    }

    // A branch leaves.
    fn takes_left(&self, arc: u16) -> Course
        ensures { run result self.now ≡ takes_left arc self.now }
    {
        if self.phase == Phase::Active {
            Course::two(Rule::BranchLeft { arc }, Rule::Settle)
        } else {
            let report = Report::None;
            Course::two(Rule::EndBranch { arc, report }, Rule::CompleteRollback)
        }
    }

    // A branch leaves, and its arc closes.
    fn takes_left_end(&self, arc: u16) -> Course
        ensures { run result self.now ≡ takes arc DialogueRecord.LeftEnd self.now }
    {
        let close = Rule::CloseArc { arc };
        if self.phase == Phase::Active {
            Course::three(close, Rule::BranchLeft { arc }, Rule::Settle)
        } else {
            let report = Report::None;
            Course::three(
                close,
                Rule::EndBranch { arc, report },
                Rule::CompleteRollback,
            )
        }
    }

    // Rollback, from the superior or from a branch.
    fn takes_rollback(&self, arc: u16) -> Course
        ensures { run result self.now ≡ takes arc DialogueRecord.Rollback self.now }
    {
        if self.is_under_at(arc) {
            self.superior_rolls()
        } else {
            roll(false)
        }
    }

    // A record that acts.
    fn takes(&self, arc: u16, rec: &DialogueRecord) -> Course
        ensures { run result self.now ≡ takes arc rec.now self.now }
    {
        match rec {
            DialogueRecord::UAbort => self.aborted(arc),
            DialogueRecord::DeferEnd => Course::one(Rule::TakeDeferEnd { arc }),
            DialogueRecord::DeferGrant => Course::one(Rule::TakeDeferGrant { arc }),
            DialogueRecord::Prepare => Course::one(Rule::TakePrepare),
            DialogueRecord::Ready => Course::two(Rule::CountBranch { arc }, Rule::Settle),
            DialogueRecord::Commit => Course::one(Rule::Order),
            DialogueRecord::Done { report } => {
                let report = *report;
                Course::two(Rule::EndBranch { arc, report }, Rule::CompleteCommit)
            }
            DialogueRecord::Rollback => self.takes_rollback(arc),
            DialogueRecord::RolledBack { report } => {
                let report = *report;
                Course::two(Rule::EndBranch { arc, report }, Rule::CompleteRollback)
            }
            DialogueRecord::Left => self.takes_left(arc),
            DialogueRecord::LeftEnd => self.takes_left_end(arc),
            DialogueRecord::EndDialogue
            | DialogueRecord::UserData { .. }
            | DialogueRecord::UError
            | DialogueRecord::Grant
            | DialogueRecord::AskControl
            | DialogueRecord::Handshake
            | DialogueRecord::HandshakeGrant
            | DialogueRecord::Response
            | DialogueRecord::Begin { .. } => Course::one(Rule::Nothing),
        }
    }

    // A branch of a commitment says that it is done.
    fn done(&self, branch: &BranchId, report: Report) -> Course
        ensures { run result self.now ≡ replied self.now branch.now (RecState.Done report) }
    {
        match rows::find_by_id(self.rows.as_slice(), branch) {
            Some(row) if self.phase == Phase::Committing && !row.ended && !row.left => {
                let arc = row.peer.node;
                Course::two(Rule::EndBranch { arc, report }, Rule::CompleteCommit)
            }
            _ => Course::one(Rule::Nothing),
        }
    }

    // A reply after a loss.
    fn replied(&self, branch: &BranchId, state: RecState) -> Course
        ensures { run result self.now ≡ replied self.now branch.now state }
    {
        let is_ready = self.phase == Phase::Ready;
        match state {
            RecState::Commit if is_ready => Course::one(Rule::Order),
            RecState::Done(report) => self.done(branch, report),
            RecState::Unknown if is_ready => self.superior_rolls(),
            RecState::Commit | RecState::Unknown | RecState::RetryLater => {
                Course::one(Rule::Nothing)
            }
        }
    }

    fn give_up(&self, arc: u16) -> Course
        ensures { run result self.now ≡ give_up arc self.now }
    {
        match self.rows.find(arc) {
            None => Course::one(Rule::Nothing),
            Some(_) => Course::two(Rule::GiveUp { arc }, Rule::CompleteCommit),
        }
    }

    /// What an event sets off. A Begun sets off nothing: it adds branches.
    pub(crate) fn course(&self, event: &TxEvent) -> Course
        ensures { run result self.now ≡ set_off event.now self.now }
    {
        match event {
            TxEvent::Begun { .. } => Course::one(Rule::Nothing),
            TxEvent::User(request) => self.by_user(request),
            TxEvent::Took { arc, rec } => match self.disposition(*arc, rec) {
                Disposition::Acts => self.takes(*arc, rec),
                Disposition::Nothing | Disposition::OutOfPhase => Course::one(Rule::Nothing),
            },
            TxEvent::Lost { arc } => self.lost(*arc),
            TxEvent::Heur(outcome) => Course::one(Rule::Decide(*outcome)),
            TxEvent::GiveUp { arc } => self.give_up(*arc),
            TxEvent::Ordered => Course::one(Rule::Order),
            TxEvent::Reply { branch, state } => self.replied(branch, *state),
            TxEvent::Retry => Course::one(Rule::Retry),
        }
    }
}
