//! What comes of a record that was taken.
ghost use Rattle.std.specs.Prelude.{◌≡◌, option_copied};
ghost use Rattle.tp_model.specs.Transactions.{sight_of_tx};
ghost use Rattle.tp_model.specs.Dialogues.{acts_or_out, acts_or_nothing, acts_nothing_or_out};
ghost use Rattle.tp_model.specs.Disposition.{sight_value};
ghost use Rattle.tp_commit.specs.Disposition.{may_leave, sight_of_rollback};

use crate::Branch;
use crate::row::Row;
use tp_model::{Disposition, Phase};
use tp_records::DialogueRecord;

fn acts_or_out(acts: bool) -> Disposition
    ensures { sight_value result ≡ acts_or_out acts }
{
    if acts {
        Disposition::Acts
    } else {
        Disposition::OutOfPhase
    }
}

fn acts_or_nothing(acts: bool) -> Disposition
    ensures { sight_value result ≡ acts_or_nothing acts }
{
    if acts {
        Disposition::Acts
    } else {
        Disposition::Nothing
    }
}

fn acts_nothing_or_out(acts: bool, nothing: bool) -> Disposition
    ensures { sight_value result ≡ acts_nothing_or_out acts nothing }
{
    if acts {
        Disposition::Acts
    } else if nothing {
        Disposition::Nothing
    } else {
        Disposition::OutOfPhase
    }
}

impl Branch {
    // A branch may leave that was told to prepare, or that the rollback still waits for.
    fn may_leave(&self, row: Option<&Row>) -> bool
        ensures { result ≡ may_leave self.now (option_copied row.entry) }
    {
        let Some(row) = row else {
            return false;
        };
        self.phase == Phase::Active && row.prepared && !row.counted && !row.left
            || self.phase == Phase::Rolling && !row.ended && !row.left
    }

    // Rollback, from the superior or from a branch.
    fn disposition_of_rollback(&self, arc: u16) -> Disposition
        ensures { sight_value result ≡ sight_of_rollback self.now arc }
    {
        if self.is_under_at(arc) {
            return acts_or_out(matches!(self.phase, Phase::Active | Phase::Ready | Phase::Rolling));
        }
        match self.rows.find(arc) {
            None => Disposition::Nothing,
            Some(row) => acts_nothing_or_out(
                self.phase == Phase::Active && !row.counted,
                self.phase == Phase::Rolling,
            ),
        }
    }

    /// What comes of a record on that arc.
    #[inline(always)]
    #[tactic(auto, unfolding(tp_model::specs::Transactions::sight_of_tx))]
    pub fn disposition(&self, arc: u16, rec: &DialogueRecord) -> Disposition
        ensures { sight_value result ≡ sight_of_tx self.now arc rec.now }
    {
        let row = self.rows.find(arc);
        let is_open = row.is_some_and(|row| !row.ended && !row.left);
        let active = self.phase == Phase::Active;
        let rolling = self.phase == Phase::Rolling;
        match rec {
            DialogueRecord::EndDialogue
            | DialogueRecord::UserData { .. }
            | DialogueRecord::UError
            | DialogueRecord::Grant
            | DialogueRecord::AskControl
            | DialogueRecord::Handshake
            | DialogueRecord::HandshakeGrant
            | DialogueRecord::Response => Disposition::Nothing,
            DialogueRecord::UAbort | DialogueRecord::DeferEnd | DialogueRecord::DeferGrant => {
                Disposition::Acts
            }
            DialogueRecord::Begin { .. } => Disposition::OutOfPhase,
            DialogueRecord::Prepare => acts_nothing_or_out(
                active && self.is_under_at(arc) && !self.told_prepare,
                rolling,
            ),
            DialogueRecord::Ready => acts_nothing_or_out(
                active && row.is_some_and(|row| row.prepared && !row.counted),
                rolling,
            ),
            DialogueRecord::Commit => acts_nothing_or_out(
                self.phase == Phase::Ready && self.is_under_at(arc),
                self.phase == Phase::Committing || !self.is_under_at(arc),
            ),
            DialogueRecord::Done { .. } => {
                acts_or_nothing(self.phase == Phase::Committing && is_open)
            }
            DialogueRecord::Rollback => self.disposition_of_rollback(arc),
            DialogueRecord::RolledBack { .. } => acts_or_nothing(rolling && is_open),
            DialogueRecord::Left | DialogueRecord::LeftEnd => acts_or_out(self.may_leave(row)),
        }
    }
}
