//! Why a command is not let at a log.
use crate::broken::Broken;
use crate::fault::SealFault;
use std::fmt::{self, Display, Formatter};

/// Why a command is not let at a log.
#[derive(Clone, Copy, Debug, PartialEq, Eq)]
pub enum Refusal {
    /// The log is not the one that was sealed.
    Broken(Broken),
    /// The log has records, and is to be made anew.
    Records,
    /// The seal is not had.
    Fault(SealFault),
}

impl From<SealFault> for Refusal {
    ghost use Rattle.std.specs.Prelude.{◌≡◌};
    ghost use Rattle.tp_seal.specs.declared.refusal.Refusal.{Refusal};

    ghost from_gives = { λ fault refusal. refusal ≡ Refusal.Fault fault };

    fn from(fault: SealFault) -> Refusal {
        Refusal::Fault(fault)
    }
}

impl Display for Refusal {
    fn fmt<W: fmt::Write>(&self, f: &mut Formatter<W>) -> fmt::Result {
        match self {
            Refusal::Broken(broken) => Display::fmt(broken, f),
            Refusal::Records => f.write_str(
                "the log has records: without this file it is made anew",
            ),
            Refusal::Fault(SealFault::Foreign) => f.write_str("it is no seal"),
            Refusal::Fault(SealFault::Failed) => f.write_str("it cannot be read or written"),
            Refusal::Fault(SealFault::NoMemory) => f.write_str("no memory"),
        }
    }
}
