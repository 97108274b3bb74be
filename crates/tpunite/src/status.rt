//! How a run ends: the status, its exit code, and its text.
use std::fmt;
use tp_model::{What, Why};

/// The ending of a run. Frames are numbered from 1; `faults` is the count of the object that failed, right after the call
/// that failed.
#[derive(Clone, Copy, Debug, PartialEq, Eq)]
pub enum Status {
    /// The processes are a deployment.
    Ok,
    /// They are none: a frame is named.
    Findings,
    /// The words ask for nothing.
    Usage,
    /// The frame at that number is none of a recording.
    BadInput { at: u64, why: Why },
    /// The frame at that number passes a limit.
    Limit { what: What, at: u64 },
    /// The source failed.
    ReadFault { faults: u64 },
    /// The sink failed.
    WriteFault { faults: u64 },
    /// No memory could be had.
    NoMemory,
}

impl Status {
    ghost use Rattle.std.specs.Prelude.{◌≡◌};
    ghost use Rattle.tpunite.specs.Status.{code_of};

    /// The exit code of a program that ends so.
    pub fn code(self) -> u8
        ensures { result ≡ code_of self }
    {
        match self {
            Status::Ok => 0,
            Status::Findings => 1,
            Status::Usage => 2,
            Status::BadInput { .. } => 3,
            Status::Limit { .. } => 4,
            Status::ReadFault { .. } => 6,
            Status::WriteFault { .. } => 7,
            Status::NoMemory => 9,
        }
    }
}

impl fmt::Display for Status {
    fn fmt<W: fmt::Write>(&self, f: &mut fmt::Formatter<W>) -> fmt::Result {
        match self {
            Status::Ok => write!(f, "ok"),
            Status::Findings => write!(f, "no deployment"),
            Status::Usage => write!(f, "usage"),
            Status::BadInput { at, why } => write!(f, "bad input at {at}: {why}"),
            Status::Limit { what, at } => write!(f, "limit {what} at {at}"),
            Status::ReadFault { .. } => write!(f, "read fault"),
            Status::WriteFault { .. } => write!(f, "write fault"),
            Status::NoMemory => write!(f, "no memory"),
        }
    }
}
