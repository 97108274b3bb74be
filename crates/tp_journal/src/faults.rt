//! Why a log could not be started, and why a body was not added.
ghost use Rattle.std.specs.Prelude.{◌≡◌};
ghost use Rattle.tp_journal.specs.declared.faults.StartFault.TheVariants.{NoMemory as StartNoMemory};
ghost use Rattle.tp_journal.specs.declared.faults.ForceFault.TheVariants.{NoMemory as ForceNoMemory};
ghost use Rattle.tp_journal.specs.declared.faults.CompactFault.TheVariants.{NoMemory as CompactNoMemory};

use std::alloc::{AllocError, AllocFailed};
use tp_names::NoMemory;

/// Why a log could not be started.
#[derive(Clone, Copy, Debug, PartialEq, Eq)]
pub enum StartFault {
    /// The bytes are no log, and that shows first at this place.
    Foreign { at: u64 },
    DiskFault { faults: u64 },
    NoMemory,
}

/// Why a body was not added.
#[derive(Clone, Copy, Debug, PartialEq, Eq)]
pub enum ForceFault {
    /// The file would have had so many bytes.
    Full { size: u64 },
    DiskFault { faults: u64 },
    /// The disk failed in an earlier call.
    Shut { faults: u64 },
    NoMemory,
}

/// Why a log did not change its generation.
#[derive(Clone, Copy, Debug, PartialEq, Eq)]
pub enum CompactFault {
    DiskFault { faults: u64 },
    /// The disk failed in an earlier call.
    Shut { faults: u64 },
    NoMemory,
}

impl From<AllocError> for CompactFault {
    ghost from_gives = { λ _ e. e ≡ CompactNoMemory };

    fn from(_: AllocError) -> Self {
        CompactFault::NoMemory
    }
}

impl From<AllocError> for StartFault {
    ghost from_gives = { λ _ e. e ≡ StartNoMemory };

    fn from(_: AllocError) -> Self {
        StartFault::NoMemory
    }
}

impl From<AllocError> for ForceFault {
    ghost from_gives = { λ _ e. e ≡ ForceNoMemory };

    fn from(_: AllocError) -> Self {
        ForceFault::NoMemory
    }
}

impl<T: Drop> From<AllocFailed<T>> for ForceFault {
    ghost from_gives = { λ _ e. e ≡ ForceNoMemory };

    fn from(_: AllocFailed<T>) -> Self {
        ForceFault::NoMemory
    }
}

impl From<NoMemory> for CompactFault {
    ghost from_gives = { λ _ e. e ≡ CompactNoMemory };

    fn from(_: NoMemory) -> Self {
        CompactFault::NoMemory
    }
}

impl From<NoMemory> for ForceFault {
    ghost from_gives = { λ _ e. e ≡ ForceNoMemory };

    fn from(_: NoMemory) -> Self {
        ForceFault::NoMemory
    }
}
