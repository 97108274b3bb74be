//! Where a transaction passes to in an event.
ghost use Rattle.std.specs.Prelude.{◌≡◌};
ghost use Rattle.tp_model.specs.Node.{is_leaving, is_over, passage};
ghost use Rattle.tp_node.specs.Passage.{passage_of};

use tp_model::{Phase, TxEvent};
use tp_records::Request;

/// What becomes of a transaction in an event.
#[derive(Clone, Copy, Debug, PartialEq, Eq)]
pub enum Passage {
    /// It goes on.
    Stays,
    /// It enters ready or committing.
    Enters,
    /// A rollback begins.
    Falls,
    /// A rollback begins and is complete.
    FallsAtOnce,
    /// A commitment is complete.
    Commits,
    /// A rollback is complete.
    RollsBack,
    /// The node leaves.
    Leaves,
}

impl Passage {
    /// From one phase to the next, in a leaving or in another event.
    pub fn of(leaving: bool, before: Phase, next: Phase) -> Passage
        ensures { passage_of result ≡ passage leaving before next }
    {
        match (before, next) {
            (Phase::Active, Phase::Nil) if leaving => Passage::Leaves,
            (Phase::Active | Phase::Ready, Phase::Nil) => Passage::FallsAtOnce,
            (Phase::Active, Phase::Ready | Phase::Committing) => Passage::Enters,
            (Phase::Ready, Phase::Committing) => Passage::Enters,
            (Phase::Active | Phase::Ready, Phase::Rolling) => Passage::Falls,
            (Phase::Committing, Phase::Nil) => Passage::Commits,
            (Phase::Rolling, Phase::Nil) => Passage::RollsBack,
            _ => Passage::Stays,
        }
    }

    /// The transaction is over after it.
    pub fn is_over(self) -> bool
        ensures { result ≡ is_over (passage_of self) }
    {
        match self {
            Passage::Stays | Passage::Enters | Passage::Falls => false,
            Passage::FallsAtOnce | Passage::Commits | Passage::RollsBack | Passage::Leaves => true,
        }
    }
}

/// The user leaves.
pub fn is_leaving(event: &TxEvent) -> bool
    ensures { result ≡ is_leaving event.now }
{
    matches!(event, TxEvent::User(Request::Unchanged))
}
