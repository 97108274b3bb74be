//! Why a line is not read.
ghost use Rattle.std.specs.Prelude.{◌≡◌};
ghost use Rattle.tp_schedule.specs.declared.line_fault.LineFault.{LineFault};

use thiserror::Error;
use tp_names::NoMemory;

/// Why a line is not read. Where several reasons hold, the first in this order is given.
#[derive(Clone, Copy, Debug, PartialEq, Eq, Error)]
pub enum LineFault {
    /// More than 8,192 bytes.
    #[error("long")]
    Long,
    /// A word that is not known, of a wrong form, or one too many or too few.
    #[error("word")]
    Word,
    /// A numeral outside its range.
    #[error("number")]
    Number,
    /// No memory could be had; nothing is said of the line.
    #[error("out of memory")]
    NoMemory,
}

impl From<NoMemory> for LineFault {
    ghost from_gives = { λ _ e. e ≡ LineFault.NoMemory };

    fn from(_error: NoMemory) -> LineFault {
        LineFault::NoMemory
    }
}
