//! Why bytes are not read.
ghost use Rattle.std.specs.Prelude.{◌≡◌};
ghost use Rattle.tp_names.specs.declared.bad_bytes.ReadFault.{ReadFault};
ghost use Rattle.tp_names.specs.declared.no_memory.NoMemory.{NoMemory};

use crate::NoMemory;
use std::alloc::{AllocError, AllocFailed};
use thiserror::Error;

/// The bytes do not begin with a text: `left` of them stand from the first one on with which
/// no text goes on.
#[derive(Clone, Copy, Debug, PartialEq, Eq, Error)]
#[error("no text: {left} bytes are left from the first wrong one on")]
pub struct BadBytes {
    pub left: usize,
}

/// Why a value that holds memory is not read.
#[derive(Clone, Copy, Debug, PartialEq, Eq, Error)]
pub enum ReadFault {
    #[error("{0}")]
    Bad(BadBytes),
    #[error("out of memory")]
    NoMemory,
}

/// Why a record is not decoded.
#[derive(Clone, Copy, Debug, PartialEq, Eq, Error)]
pub enum RecordFault {
    /// The bytes begin with no text of a record; the first `at` of them, and no more, begin one.
    #[error("bad record at byte {at}")]
    BadRecord { at: usize },
    #[error("out of memory")]
    NoMemory,
}

impl From<BadBytes> for ReadFault {
    ghost from_gives = { λ bad e. e ≡ ReadFault.Bad bad };

    fn from(bad: BadBytes) -> ReadFault {
        ReadFault::Bad(bad)
    }
}

impl From<NoMemory> for ReadFault {
    ghost from_gives = { λ _ e. e ≡ ReadFault.NoMemory };

    fn from(_error: NoMemory) -> ReadFault {
        ReadFault::NoMemory
    }
}

impl From<AllocError> for ReadFault {
    ghost from_gives = { λ _ e. e ≡ ReadFault.NoMemory };

    fn from(_error: AllocError) -> ReadFault {
        ReadFault::NoMemory
    }
}

impl<T: Drop> From<AllocFailed<T>> for ReadFault {
    ghost from_gives = { λ _ e. e ≡ ReadFault.NoMemory };

    fn from(_error: AllocFailed<T>) -> ReadFault {
        ReadFault::NoMemory
    }
}
