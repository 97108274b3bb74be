//! Why a frame is not sent.
ghost use Rattle.std.specs.Prelude.{◌≡◌};
ghost use Rattle.tp_network.specs.declared.fault.SendFault.{SendFault};

use thiserror::Error;
use tp_names::NoMemory;

/// Why a frame is not sent.
#[derive(Clone, Copy, Debug, PartialEq, Eq, Error)]
pub enum SendFault {
    /// As many frames were sent as there are numbers for frames.
    #[error("no number is left for a frame")]
    Full,
    /// No memory could be had.
    #[error("out of memory")]
    NoMemory,
}

impl From<NoMemory> for SendFault {
    ghost from_gives = { λ _ e. e ≡ SendFault.NoMemory };

    fn from(_error: NoMemory) -> SendFault {
        SendFault::NoMemory
    }
}
