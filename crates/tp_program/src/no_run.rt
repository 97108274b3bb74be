//! How a program ends that does not come to its run.
use std::{fmt, io};

/// The ending of a program without a run.
#[derive(Clone, Copy, Debug, PartialEq, Eq)]
pub enum NoRun {
    /// Its words are no text.
    Usage,
    /// What it tells about itself was not written.
    WriteFault,
    /// A file failed.
    DiskFault,
    /// No memory could be had.
    NoMemory,
}

impl NoRun {
    /// How it ends where its words are not had.
    pub fn wordless(fault: &io::Error) -> NoRun {
        match fault.kind() {
            io::ErrorKind::InvalidData => NoRun::Usage,
            _ => NoRun::NoMemory,
        }
    }

    /// The exit code of a program that ends so.
    pub fn code(self) -> u8 {
        match self {
            NoRun::Usage => 2,
            NoRun::WriteFault => 7,
            NoRun::DiskFault => 8,
            NoRun::NoMemory => 9,
        }
    }
}

impl fmt::Display for NoRun {
    fn fmt<W: fmt::Write>(&self, f: &mut fmt::Formatter<W>) -> fmt::Result {
        match self {
            NoRun::Usage => write!(f, "usage"),
            NoRun::WriteFault => write!(f, "write fault"),
            NoRun::DiskFault => write!(f, "disk fault"),
            NoRun::NoMemory => write!(f, "no memory"),
        }
    }
}
