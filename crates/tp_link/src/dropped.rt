//! Why a record is dropped.
ghost use Rattle.std.specs.Prelude.{◌≡◌};
ghost use Rattle.tp_link.specs.Link.{refusal_of};

use thiserror::Error;
use tp_model::Refusal;

/// Why a record is dropped.
#[derive(Clone, Copy, Debug, PartialEq, Eq, Error)]
pub enum Dropped {
    /// Its association is an old one.
    #[error("the record belongs to no association of now")]
    OldAssociation,
    /// It is out of order.
    #[error("the record is not the next one of its association")]
    OutOfOrder,
}

impl Dropped {
    /// The refusal that the record is answered by.
    pub fn refusal(self) -> Refusal
        ensures { result ≡ refusal_of self }
    {
        match self {
            Dropped::OldAssociation => Refusal::OldAssociation,
            Dropped::OutOfOrder => Refusal::OutOfOrder,
        }
    }
}
