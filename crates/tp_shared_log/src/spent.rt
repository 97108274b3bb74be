//! Why a share's stake is spent.
ghost use Rattle.std.specs.Prelude.{◌≡◌};
ghost use Rattle.tp_shared_log.specs.Spends.{spent_by, fault_of};

use tp_journal::ForceFault;

/// Why a share's stake is spent, which is what the share answers from then on.
#[derive(Clone, Copy, Debug, PartialEq, Eq)]
pub enum Spent {
    Full { size: u64 },
    Shut { faults: u64 },
}

impl Spent {
    /// What such a share answers.
    pub(crate) fn fault(self) -> ForceFault
        ensures { result ≡ fault_of self }
    {
        match self {
            Spent::Full { size } => ForceFault::Full { size },
            Spent::Shut { faults } => ForceFault::Shut { faults },
        }
    }

    /// Why the stake is spent after a refusal of the log. Out of memory spends nothing.
    pub(crate) fn by(fault: ForceFault) -> Option<Spent>
        ensures { result ≡ spent_by fault }
    {
        match fault {
            ForceFault::Full { size } => Some(Spent::Full { size }),
            ForceFault::DiskFault { faults } => Some(Spent::Shut { faults }),
            ForceFault::Shut { faults } => Some(Spent::Shut { faults }),
            ForceFault::NoMemory => None,
        }
    }
}
