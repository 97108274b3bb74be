//! Why a site does not do what is asked of it.
ghost use Rattle.std.specs.Prelude.{◌≡◌};
ghost use Rattle.tp_site.specs.declared.faults.SiteFault.{SiteFault};
ghost use Rattle.tp_site.specs.declared.faults.StartFault.{StartFault};
ghost use Rattle.tp_site.specs.Faults.{fault_of, site_fault, start_fault, unfound};

use thiserror::Error;
use tp_journal::ForceFault;
use tp_model::TxFault;
use tp_names::NoMemory;

/// Why an event does not happen at a site.
#[derive(Clone, Copy, Debug, PartialEq, Eq, Error)]
pub enum SiteFault {
    /// It is refused by that number, and changes nothing.
    #[error("refused {0}")]
    Refused(u8),
    /// The log would have had so many bytes.
    #[error("full at {size} bytes")]
    Full { size: u64 },
    /// The disk failed.
    #[error("disk fault {faults}")]
    DiskFault { faults: u64 },
    /// The disk failed in an earlier event.
    #[error("shut after disk fault {faults}")]
    Shut { faults: u64 },
    /// No memory could be had.
    #[error("no memory")]
    NoMemory,
}

impl From<NoMemory> for SiteFault {
    ghost from_gives = { λ _ e. e ≡ SiteFault.NoMemory };

    fn from(_error: NoMemory) -> SiteFault {
        SiteFault::NoMemory
    }
}

impl From<ForceFault> for SiteFault {
    ghost from_gives = { λ f e. e ≡ site_fault f };

    fn from(fault: ForceFault) -> SiteFault {
        match fault {
            ForceFault::Full { size } => SiteFault::Full { size },
            ForceFault::DiskFault { faults } => SiteFault::DiskFault { faults },
            ForceFault::Shut { faults } => SiteFault::Shut { faults },
            ForceFault::NoMemory => SiteFault::NoMemory,
        }
    }
}

impl From<TxFault> for SiteFault {
    ghost from_gives = { λ f e. e ≡ fault_of f };

    fn from(fault: TxFault) -> SiteFault {
        match fault {
            TxFault::Refused(number) => SiteFault::Refused(number),
            TxFault::NoMemory => SiteFault::NoMemory,
        }
    }
}

/// Why the records of a log tell of no nodes.
#[derive(Clone, Copy, Debug, PartialEq, Eq)]
pub(crate) enum LogFault {
    /// The record at that place may not stand after those before it.
    Foreign { at: u64 },
    /// The last boot number is the greatest.
    BootsSpent,
    /// No memory could be had.
    NoMemory,
}

impl From<NoMemory> for LogFault {
    ghost use Rattle.tp_site.specs.declared.faults.LogFault.{LogFault as TheFault};

    ghost from_gives = { λ _ e. e ≡ TheFault.NoMemory };

    fn from(_error: NoMemory) -> LogFault {
        LogFault::NoMemory
    }
}

/// Why a site does not start.
#[derive(Clone, Copy, Debug, PartialEq, Eq, Error)]
pub enum StartFault {
    /// The record at that place of the log may not stand after those before it.
    #[error("foreign at {at}")]
    Foreign { at: u64 },
    /// The last boot number is the greatest.
    #[error("no boot number is left")]
    BootsSpent,
    /// The log would have had so many bytes.
    #[error("full at {size} bytes")]
    Full { size: u64 },
    /// The disk failed.
    #[error("disk fault {faults}")]
    DiskFault { faults: u64 },
    /// The disk had failed before.
    #[error("shut after disk fault {faults}")]
    Shut { faults: u64 },
    /// No memory could be had.
    #[error("no memory")]
    NoMemory,
}

impl From<NoMemory> for StartFault {
    ghost from_gives = { λ _ e. e ≡ StartFault.NoMemory };

    fn from(_error: NoMemory) -> StartFault {
        StartFault::NoMemory
    }
}

impl From<ForceFault> for StartFault {
    ghost from_gives = { λ f e. e ≡ start_fault f };

    fn from(fault: ForceFault) -> StartFault {
        match fault {
            ForceFault::Full { size } => StartFault::Full { size },
            ForceFault::DiskFault { faults } => StartFault::DiskFault { faults },
            ForceFault::Shut { faults } => StartFault::Shut { faults },
            ForceFault::NoMemory => StartFault::NoMemory,
        }
    }
}

impl From<LogFault> for StartFault {
    ghost from_gives = { λ f e. e ≡ unfound f };

    fn from(fault: LogFault) -> StartFault {
        match fault {
            LogFault::Foreign { at } => StartFault::Foreign { at },
            LogFault::BootsSpent => StartFault::BootsSpent,
            LogFault::NoMemory => StartFault::NoMemory,
        }
    }
}
