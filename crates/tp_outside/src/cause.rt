//! Why a call of the real outside failed, in the system's words. No clause speaks of them.
use std::fmt::{self, Display, Formatter};
use std::io;

/// A call of the system that failed. It is written as its name and the system's words.
#[derive(Clone, Copy)]
pub struct Cause {
    call: &'static str,
    error: io::Error,
}

impl Cause {
    /// The call of that name failed so.
    pub fn new(call: &'static str, error: io::Error) -> Cause {
        Cause { call, error }
    }

    /// What a call of that name answered.
    pub(crate) fn of<T>(call: &'static str, answer: io::Result<T>) -> Result<T, Cause> {
        match answer {
            Ok(value) => Ok(value),
            Err(error) => Err(Cause { call, error }),
        }
    }
}

impl Display for Cause {
    fn fmt<W: fmt::Write>(&self, f: &mut Formatter<W>) -> fmt::Result {
        write!(f, "{}: {}", self.call, self.error)
    }
}
