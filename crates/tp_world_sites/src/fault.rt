//! Why a line ends the run.
ghost use Rattle.std.specs.Prelude.{◌≡◌};
ghost use Rattle.tp_world_sites.specs.Faults.{sending_fault};
ghost use Rattle.tp_world_sites.specs.declared.fault.WorldFault.{WorldFault};

use thiserror::Error;
use tp_model::What;
use tp_names::NoMemory;
use tp_network::SendFault;

/// Why a line ends the run.
#[derive(Clone, Copy, Debug, PartialEq, Eq, Error)]
pub enum WorldFault {
    /// A name that is taken or not there.
    #[error("name")]
    Name,
    /// A count would pass its limit.
    #[error("limit {what}")]
    Limit { what: What },
    /// No memory could be had.
    #[error("out of memory")]
    NoMemory,
}

impl From<NoMemory> for WorldFault {
    ghost from_gives = { λ _ e. e ≡ WorldFault.NoMemory };

    fn from(_error: NoMemory) -> WorldFault {
        WorldFault::NoMemory
    }
}

impl From<SendFault> for WorldFault {
    ghost from_gives = { λ fault e. e ≡ sending_fault fault };

    fn from(fault: SendFault) -> WorldFault {
        match fault {
            SendFault::Full => WorldFault::Limit { what: What::Frames },
            SendFault::NoMemory => WorldFault::NoMemory,
        }
    }
}
