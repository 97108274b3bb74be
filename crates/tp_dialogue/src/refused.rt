//! The answer to a record that is out of phase.
ghost use Rattle.tp_model.specs.declared.refusal.Refusal.{Refusal};
ghost use Rattle.std.specs.Prelude.{◌≡◌};

use thiserror::Error;
use tp_model::Refusal;

/// A record came out of phase.
#[derive(Clone, Copy, Debug, PartialEq, Eq, Error)]
#[error("nobody may send this record now")]
pub struct OutOfPhase;

impl OutOfPhase {
    /// The refusal that the record is answered by.
    pub fn refusal(self) -> Refusal
        ensures { result ≡ Refusal.OutOfPhase }
    {
        Refusal::OutOfPhase
    }
}
