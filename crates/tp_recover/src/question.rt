//! What a question is answered.
ghost use Rattle.std.specs.Prelude.{◌≡◌};
ghost use Rattle.tp_model.specs.Recovery.{is_kept_commit, recovery_answer};

use tp_model::{Known, Phase, Question};
use tp_names::{Outcome, Report};
use tp_records::RecState;

// Promise 10.8: Questions of recovery are answered, and kept transactions settled, by the rules
/// The answer to a question, by what the node has of the transaction that it names. There is none where
/// the order of commitment acts on a ready transaction, or is out of phase.
#[tactic(auto, unfolding(tp_model::specs::Recovery::recovery_answer))]
pub fn answer(known: Known, question: Question) -> Option<RecState>
    ensures { result ≡ recovery_answer known question }
{
    match (question, known.phase) {
        (Question::RecReady, Phase::Committing) => Some(RecState::Commit),
        (Question::RecReady, _) if is_kept_commit(known.kept) => Some(RecState::Commit),
        (Question::RecReady, Phase::Active | Phase::Ready) if known.branch => {
            Some(RecState::RetryLater)
        }
        (Question::RecReady, _) => Some(RecState::Unknown),
        (Question::RecCommit, Phase::Committing) => Some(RecState::RetryLater),
        (Question::RecCommit, Phase::Nil) => match known.kept {
            None => Some(RecState::Done(Report::None)),
            Some((Outcome::Commit, report)) => Some(RecState::Done(report)),
            Some((Outcome::Rollback, _)) => None,
        },
        (Question::RecCommit, _) => None,
    }
}

fn is_kept_commit(kept: Option<(Outcome, Report)>) -> bool
    ensures { result ≡ is_kept_commit kept }
{
    match kept {
        Some((Outcome::Commit, _)) => true,
        Some((Outcome::Rollback, _)) | None => false,
    }
}
