//! How a run ends: the status, its exit code, and its text.
ghost use Rattle.std.specs.Prelude.{◌≡◌};
ghost use Rattle.tp_drive_tool.specs.Status.{code_of, driven_status, start_status, status_of, unread_status};

use std::fmt;
use tp_drive::DriveFault;
use tp_journal::{Receipt, StartFault as JournalFault};
use tp_model::{What, Why};
use tp_site::StartFault;
use tp_streams::Stop;

/// The ending of a run. Frames are numbered from 1; `faults` is the count of the object that failed, right after the call
/// that failed.
#[derive(Drop)]
pub enum Status {
    /// All events were done, and their outputs written.
    Ok,
    /// The words ask for nothing.
    Usage,
    /// The frame at that number is the first that is bad.
    BadInput {
        at: u64,
        why: Why,
    },
    /// A count would pass its limit in the frame at that number; 0 is before every frame.
    Limit {
        what: What,
        at: u64,
    },
    /// The bytes of the log are no log, or its records do not follow each other; they go wrong at that place.
    Foreign {
        at: u64,
    },
    /// The source failed.
    ReadFault {
        faults: u64,
    },
    /// The sink failed.
    WriteFault {
        faults: u64,
    },
    /// The disk failed.
    DiskFault {
        faults: u64,
    },
    /// No memory could be had.
    NoMemory,
    /// The log has another record at that place than the receipt tells. No run ends so: the log has each record at the place that
    /// its receipt tells.
    LogDiffers {
        place: u64,
        receipt: Receipt,
        kept: Receipt,
    },
}

impl Status {
    /// How a run ends that such a stop ends.
    pub(crate) fn of_stop(stop: Stop) -> Status
        ensures { result ≡ status_of stop }
    {
        match stop {
            Stop::BadInput { at, why } => Status::BadInput { at, why },
            Stop::Limit { what, at } => Status::Limit { what, at },
            Stop::Foreign { at } => Status::Foreign { at },
            Stop::ReadFault { faults } => Status::ReadFault { faults },
            Stop::WriteFault { faults } => Status::WriteFault { faults },
            Stop::DiskFault { faults } => Status::DiskFault { faults },
            Stop::NoMemory => Status::NoMemory,
        }
    }

    /// How a run ends whose log is not opened.
    pub(crate) fn of_journal(fault: JournalFault) -> Status
        ensures { result ≡ unread_status fault }
    {
        match fault {
            JournalFault::Foreign { at } => Status::Foreign { at },
            JournalFault::DiskFault { faults } => Status::DiskFault { faults },
            JournalFault::NoMemory => Status::NoMemory,
        }
    }

    /// How a run ends whose workers did not do all events.
    pub(crate) fn of_drive(fault: DriveFault) -> Status
        ensures { result ≡ driven_status fault }
    {
        match fault {
            DriveFault::Start { fault } => Status::of_start(fault),
            DriveFault::LogDiffers {
                place,
                receipt,
                kept,
            } => Status::LogDiffers {
                place,
                receipt,
                kept,
            },
            DriveFault::DiskFault { faults } => Status::DiskFault { faults },
            DriveFault::Full { event, .. } => Status::Limit {
                what: What::Log,
                at: event,
            },
            DriveFault::NoMemory => Status::NoMemory,
        }
    }

    fn of_start(fault: StartFault) -> Status
        ensures { result ≡ start_status fault }
    {
        match fault {
            StartFault::Foreign { at } => Status::Foreign { at },
            StartFault::BootsSpent => Status::Limit {
                what: What::Boots,
                at: 0,
            },
            StartFault::Full { .. } => Status::Limit {
                what: What::Log,
                at: 0,
            },
            StartFault::DiskFault { faults } | StartFault::Shut { faults } => {
                Status::DiskFault { faults }
            }
            StartFault::NoMemory => Status::NoMemory,
        }
    }

    /// The exit code of a program that ends so.
    pub fn code(&self) -> u8
        ensures { result ≡ code_of self.now }
    {
        match self {
            Status::Ok => 0,
            Status::Usage => 2,
            Status::BadInput { .. } => 3,
            Status::Limit { .. } => 4,
            Status::Foreign { .. } => 5,
            Status::ReadFault { .. } => 6,
            Status::WriteFault { .. } => 7,
            Status::DiskFault { .. } => 8,
            Status::NoMemory => 9,
            Status::LogDiffers { .. } => 10,
        }
    }
}

impl fmt::Display for Status {
    fn fmt<W: fmt::Write>(&self, f: &mut fmt::Formatter<W>) -> fmt::Result {
        match self {
            Status::Ok => write!(f, "ok"),
            Status::Usage => write!(f, "usage"),
            Status::BadInput { at, why } => write!(f, "bad input at {at}: {why}"),
            Status::Limit { what, at } => write!(f, "limit {what} at {at}"),
            Status::Foreign { at } => write!(f, "foreign log at {at}"),
            Status::ReadFault { .. } => write!(f, "read fault"),
            Status::WriteFault { .. } => write!(f, "write fault"),
            Status::DiskFault { .. } => write!(f, "disk fault"),
            Status::NoMemory => write!(f, "no memory"),
            Status::LogDiffers { place, .. } => write!(f, "log differs at {place}"),
        }
    }
}
