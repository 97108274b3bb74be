//! What ends a program that reads frames.
ghost use Rattle.std.specs.Prelude.{◌≡◌};
ghost use Rattle.tp_streams.specs.declared.stop.Stop.{Stop};

use tp_model::{What, Why};
use tp_names::NoMemory;

/// What ends a program that reads frames before its input has come to its end. Frames are numbered from 1; `faults` is
/// the count of the object that failed, right after the call that failed.
#[derive(Clone, Copy, PartialEq, Eq)]
pub enum Stop {
    /// The frame with that number is the first that is bad.
    BadInput { at: u64, why: Why },
    /// A count would pass its limit in the frame with that number; 0 is before every frame.
    Limit { what: What, at: u64 },
    /// The bytes of the log are no log, or its records do not follow each other; they go wrong at that place.
    Foreign { at: u64 },
    /// The source failed.
    ReadFault { faults: u64 },
    /// The sink failed.
    WriteFault { faults: u64 },
    /// The disk failed.
    DiskFault { faults: u64 },
    /// No memory could be had.
    NoMemory,
}

impl From<NoMemory> for Stop {
    ghost from_gives = { λ _ e. e ≡ Stop.NoMemory };

    fn from(_error: NoMemory) -> Stop {
        Stop::NoMemory
    }
}
