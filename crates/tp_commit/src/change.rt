//! What each rule changes.
ghost use Rattle.std.specs.Prelude.{◌≡◌, Bool};
ghost use Rattle.tp_model.specs.Transactions.{with_row, with_arc_lost, is_under, is_own_commit, complete_commit, complete_rollback, begin_rolling, order, settle, ask_commit, leave, all_done, all_rolled_back, all_settled};
ghost use Rattle.tp_model.specs.Dialogues.{is_active};
ghost use Rattle.tp_model.specs.Node.{branches_of};
ghost use Rattle.tp_commit.specs.Row.{noted, noted_at};
ghost use Rattle.tp_commit.specs.Waiting.{with_counted, with_ended};
ghost use Rattle.tp_commit.specs.Rules.{turn_of, is_committed, is_rolled_back, is_settled};

use crate::row::Note;
use crate::rule::Rule;
use crate::{Branch, rows};
use tp_model::Phase;
use tp_names::{Outcome, Report};

impl Branch {
    pub(crate) fn is_under(&self) -> bool
        ensures { result ≡ is_under self.now.key }
    {
        self.key.branch.is_some()
    }

    /// The user has given done, and each branch is done, left or given up.
    pub(crate) fn is_committed(&self) -> bool
        ensures { result ≡ is_committed self.now }
    {
        !self.owes && rows::all_done(self.rows.as_slice())
    }

    /// The user owes no done, each live branch has rolled back or left, and so has the superior, or its
    /// arc is gone.
    pub(crate) fn is_rolled_back(&self) -> bool
        ensures { result ≡ is_rolled_back self.now }
    {
        !self.owes
            && rows::all_rolled_back(self.rows.as_slice())
            && (self.superior_rolled || !self.up)
    }

    /// The node has asked, and each branch is counted or left.
    pub(crate) fn is_settled(&self) -> bool
        ensures { result ≡ is_settled self.now }
    {
        self.phase == Phase::Active && self.asked && rows::all_settled(self.rows.as_slice())
    }

    /// A ready node had decided to commit.
    pub(crate) fn is_own_commit(&self) -> bool
        ensures { result ≡ is_own_commit self.now }
    {
        self.phase == Phase::Ready && self.decision == Some(Outcome::Commit)
    }

    fn note_at(&mut self, arc: u16, note: Note)
        ensures { self.new ≡ record self.old { rows = noted_at self.old.rows arc note } }
    {
        self.rows.note_at(arc, note);
    }

    /// The branch with that peer is counted, where there is one.
    #[tactic(auto, using(crate::proofs::Noted::counted_at))]
    pub fn count(&mut self, peer: u16)
        ensures branches { branches_of self.new.rows ≡ with_counted (branches_of self.old.rows) peer }
        ensures rest { self.new ≡ record self.old { rows = self.new.rows } }
    {
        self.note_at(peer, Note::Counted);
    }

    /// The branch with that peer is done, with that report, where there is one.
    #[tactic(auto, using(crate::proofs::Noted::ended_at))]
    pub fn end(&mut self, peer: u16, report: Report)
        ensures branches { branches_of self.new.rows ≡ with_ended (branches_of self.old.rows) peer report }
        ensures rest { self.new ≡ record self.old { rows = self.new.rows } }
    {
        self.note_at(peer, Note::Ended(report));
    }

    // Notes it on the branch with that peer.
    fn note(&mut self, arc: u16, note: Note)
        ensures { self.new ≡ with_row self.old arc (noted note) }
    {
        self.note_at(arc, note);
    }

    // The arc, the superior's too, is no longer live.
    fn lose(&mut self, arc: u16)
        ensures { self.new ≡ with_arc_lost self.old arc }
    {
        if self.is_under_at(arc) {
            self.up = false;
            self.up_ends = false;
        } else {
            self.note(arc, Note::Lost);
        }
    }

    #[tactic(auto, unfolding(tp_model::specs::Transactions::complete_commit))]
    fn complete_commit(&mut self)
        ensures { self.new ≡ (complete_commit self.old).next }
    {
        if self.is_committed() {
            self.phase = Phase::Nil;
        }
    }

    #[tactic(auto, unfolding(tp_model::specs::Transactions::complete_rollback))]
    fn complete_rollback(&mut self)
        ensures { self.new ≡ (complete_rollback self.old).next }
    {
        if self.is_rolled_back() {
            self.phase = Phase::Nil;
        }
    }

    #[tactic(auto, unfolding(tp_model::specs::Transactions::begin_rolling))]
    pub(crate) fn begin_rolling(&mut self, asked: bool)
        ensures { self.new ≡ (begin_rolling asked self.old).next }
    {
        if self.is_own_commit() {
            self.own = Report::Mix;
        }
        self.phase = Phase::Rolling;
        self.owes = !asked;
        self.decision = None;
    }

    #[tactic(auto, unfolding(tp_model::specs::Transactions::order))]
    pub(crate) fn order(&mut self)
        ensures { self.new ≡ (order self.old).next }
    {
        self.phase = Phase::Committing;
        self.owes = true;
    }

    #[tactic(auto, unfolding(tp_model::specs::Transactions::settle))]
    fn settle(&mut self)
        ensures { self.new ≡ (settle self.old).next }
    {
        if !self.is_settled() {
            return;
        }
        if self.is_under() {
            self.phase = Phase::Ready;
        } else {
            self.order();
        }
    }

    #[tactic(auto, unfolding(tp_model::specs::Transactions::ask_commit))]
    fn ask_commit(&mut self)
        ensures { self.new ≡ (ask_commit self.old).next }
    {
        self.asked = true;
        self.rows.prepare_all();
    }

    #[tactic(auto, unfolding(tp_model::specs::Transactions::leave))]
    fn leave(&mut self)
        ensures { self.new ≡ (leave self.old).next }
    {
        self.phase = Phase::Nil;
    }

    /// What the rule changes.
    #[tactic(auto, unfolding(tp_model::specs::Transactions::count_branch, tp_model::specs::Transactions::end_branch, tp_model::specs::Transactions::branch_left))]
    pub(crate) fn change(&mut self, rule: Rule)
        ensures { self.new ≡ (turn_of rule self.old).next }
    {
        match rule {
            Rule::Nothing | Rule::DeferGrant { .. } | Rule::TakeDeferGrant { .. } | Rule::Retry =>
                {}
            Rule::Prepare { arc } => self.note(arc, Note::Prepared),
            Rule::DeferEnd { arc } => self.note(arc, Note::Ending),
            Rule::Abort { arc } | Rule::Aborted { arc } | Rule::Lost { arc } => self.lose(arc),
            Rule::AskCommit => self.ask_commit(),
            Rule::Finish => self.owes = false,
            Rule::Leave => self.leave(),
            Rule::TakePrepare => self.told_prepare = true,
            Rule::TakeDeferEnd { .. } => self.up_ends = true,
            Rule::NoteRollback => self.superior_rolled = true,
            Rule::CountBranch { arc } => self.note(arc, Note::Counted),
            Rule::EndBranch { arc, report } => self.note(arc, Note::Ended(report)),
            Rule::BranchLeft { arc } => self.note(arc, Note::Left),
            Rule::CloseArc { arc } => self.note(arc, Note::Lost),
            Rule::Settle => self.settle(),
            Rule::Order => self.order(),
            Rule::BeginRolling { asked } => self.begin_rolling(asked),
            Rule::CompleteCommit => self.complete_commit(),
            Rule::CompleteRollback => self.complete_rollback(),
            Rule::Decide(outcome) => self.decision = Some(outcome),
            Rule::GiveUp { arc } => self.note(arc, Note::GivenUp),
        }
    }
}
