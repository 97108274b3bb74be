//! Where a lane stopped.

use tp_names::NoMemory;

/// Why a lane stopped.
#[derive(Clone, Copy, Debug, PartialEq, Eq)]
pub enum Cause {
    /// No memory could be had.
    Memory,
    /// The log took no record: it had no room, or its disk failed.
    Log,
}

impl From<NoMemory> for Cause {
    ghost use Rattle.std.specs.Prelude.{◌≡◌};
    ghost use Rattle.tp_drive.specs.declared.stop.Cause.{Cause};

    ghost from_gives = { λ _ e. e ≡ Cause.Memory };

    fn from(_error: NoMemory) -> Cause {
        Cause::Memory
    }
}

/// Where a lane stopped: at which event of all, from 1, and why.
#[derive(Clone, Copy, Debug, PartialEq, Eq)]
pub struct Stop {
    pub event: u64,
    pub cause: Cause,
}
