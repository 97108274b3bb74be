//! Why a log is refused by its seal.
use std::fmt::{self, Display, Formatter};

/// What a seal finds.
#[derive(Clone, Copy, Debug, PartialEq, Eq)]
pub enum Broken {
    /// The log is of another site.
    Name,
    /// The log is shorter than it was sealed.
    Shorter,
    /// A byte that was sealed is another one.
    Changed,
}

impl Display for Broken {
    fn fmt<W: fmt::Write>(&self, f: &mut Formatter<W>) -> fmt::Result {
        f.write_str(match self {
            Broken::Name => "the log is sealed for a site of another name",
            Broken::Shorter => "the log is shorter than it was sealed",
            Broken::Changed => "the log has other bytes than it was sealed with",
        })
    }
}
