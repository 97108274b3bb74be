//! How a run ends: the status, its exit code, and its text.
use std::fmt;
use tp_model::Why;
use tp_names::NoMemory;

/// The ending of a run. Lines are numbered from 1; `faults` is the count of the object that failed, right after the call
/// that failed.
#[derive(Clone, Copy, Debug, PartialEq, Eq)]
pub enum Status {
    /// The picture of the whole input was written.
    Ok,
    /// The words ask for nothing.
    Usage,
    /// The line at that number is the first that is none of a transcript.
    BadInput { at: u64, why: Why },
    /// The source failed.
    ReadFault { faults: u64 },
    /// The sink failed.
    WriteFault { faults: u64 },
    /// No memory could be had.
    NoMemory,
}

impl Status {
    ghost use Rattle.std.specs.Prelude.{◌≡◌};
    ghost use Rattle.tpdraw.specs.Status.{code_of};

    /// The exit code of a program that ends so.
    pub fn code(self) -> u8
        ensures { result ≡ code_of self }
    {
        match self {
            Status::Ok => 0,
            Status::Usage => 2,
            Status::BadInput { .. } => 3,
            Status::ReadFault { .. } => 6,
            Status::WriteFault { .. } => 7,
            Status::NoMemory => 9,
        }
    }
}

impl From<NoMemory> for Status {
    ghost use Rattle.std.specs.Prelude.{◌≡◌};
    ghost use Rattle.tpdraw.specs.declared.status.Status.{Status};

    ghost from_gives = { λ _ s. s ≡ Status.NoMemory };

    fn from(_error: NoMemory) -> Status {
        Status::NoMemory
    }
}

impl fmt::Display for Status {
    fn fmt<W: fmt::Write>(&self, f: &mut fmt::Formatter<W>) -> fmt::Result {
        match self {
            Status::Ok => write!(f, "ok"),
            Status::Usage => write!(f, "usage"),
            Status::BadInput { at, why } => write!(f, "bad input at {at}: {why}"),
            Status::ReadFault { .. } => write!(f, "read fault"),
            Status::WriteFault { .. } => write!(f, "write fault"),
            Status::NoMemory => write!(f, "no memory"),
        }
    }
}
