//! Why a seal is not had.
use std::alloc::AllocError;
use tp_names::NoMemory;
use tp_outside::Failed;

/// Why a seal is not read, or not put.
#[derive(Clone, Copy, Debug, PartialEq, Eq)]
pub enum SealFault {
    /// What is there is no seal.
    Foreign,
    /// The disk failed.
    Failed,
    /// No memory could be had.
    NoMemory,
}

impl From<Failed> for SealFault {
    ghost use Rattle.std.specs.Prelude.{◌≡◌};
    ghost use Rattle.tp_seal.specs.declared.fault.SealFault.{SealFault};

    ghost from_gives = { λ _ fault. fault ≡ SealFault.Failed };

    fn from(_failed: Failed) -> SealFault {
        SealFault::Failed
    }
}

impl From<NoMemory> for SealFault {
    ghost use Rattle.std.specs.Prelude.{◌≡◌};
    ghost use Rattle.tp_seal.specs.declared.fault.SealFault.{SealFault};

    ghost from_gives = { λ _ fault. fault ≡ SealFault.NoMemory };

    fn from(_error: NoMemory) -> SealFault {
        SealFault::NoMemory
    }
}

impl From<AllocError> for SealFault {
    ghost use Rattle.std.specs.Prelude.{◌≡◌};
    ghost use Rattle.tp_seal.specs.declared.fault.SealFault.{SealFault};

    ghost from_gives = { λ _ fault. fault ≡ SealFault.NoMemory };

    fn from(_error: AllocError) -> SealFault {
        SealFault::NoMemory
    }
}
