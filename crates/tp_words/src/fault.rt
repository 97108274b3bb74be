//! Why words ask for nothing.
ghost use Rattle.std.specs.Prelude.{◌≡◌};
ghost use Rattle.clap.specs.Words.{kind_of};
ghost use Rattle.tp_words.specs.declared.fault.WordsFault.{WordsFault};
ghost use Rattle.tp_words.specs.Faults.{fault_by};

use clap::error::ErrorKind;
use thiserror::Error;

/// Why words ask for nothing.
#[derive(Clone, Copy, Debug, PartialEq, Eq, Error)]
pub enum WordsFault {
    /// They are no command line, or no such command or site can be.
    #[error("usage")]
    Usage,
    /// No memory could be had; nothing is said of the words.
    #[error("out of memory")]
    NoMemory,
}

impl From<clap::Error> for WordsFault {
    ghost from_gives = { λ error fault. fault ≡ fault_by (kind_of error) };

    fn from(error: clap::Error) -> WordsFault {
        match error.kind() {
            ErrorKind::OutOfMemory => WordsFault::NoMemory,
            _ => WordsFault::Usage,
        }
    }
}
