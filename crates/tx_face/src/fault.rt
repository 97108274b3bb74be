//! Why a call of a face is not done.
ghost use Rattle.std.specs.Prelude.{◌≡◌};
ghost use Rattle.tx_face.specs.declared.fault.FaceFault.{FaceFault};

use crate::stand::Stand;
use thiserror::Error;
use tp_site::SiteFault;

/// Why a call of a face is not done.
#[derive(Clone, Copy, Debug, PartialEq, Eq, Error)]
pub enum FaceFault {
    /// The transaction stands where the call is not taken, or the event is one that the program asks for by a call. Nothing has
    /// changed.
    #[error("not taken at {stand:?}")]
    Protocol { stand: Stand },
    /// The event does not happen at the site.
    #[error("{0}")]
    Site(SiteFault),
}

impl From<SiteFault> for FaceFault {
    ghost from_gives = { λ f e. e ≡ FaceFault.Site f };

    fn from(fault: SiteFault) -> FaceFault {
        FaceFault::Site(fault)
    }
}
