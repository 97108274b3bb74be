//! Why a log is not added.
ghost use Rattle.std.specs.Prelude.{◌≡◌};
ghost use Rattle.tp_audit.specs.declared.faults.AddFault.{AddFault};

use thiserror::Error;
use tp_names::NoMemory;

/// Why the log of a site is not added to an audit.
#[derive(Clone, Copy, Debug, PartialEq, Eq, Error)]
pub enum AddFault {
    /// The log of that site was added before.
    #[error("the site comes twice")]
    Twice,
    /// The record at that index may not follow those before it.
    #[error("out of order at record {index}")]
    Disorder { index: usize },
    /// No memory could be had.
    #[error("out of memory")]
    NoMemory,
}

impl From<NoMemory> for AddFault {
    ghost from_gives = { λ _ e. e ≡ AddFault.NoMemory };

    fn from(_error: NoMemory) -> AddFault {
        AddFault::NoMemory
    }
}
