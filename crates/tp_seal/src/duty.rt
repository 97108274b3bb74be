//! What a command does to a log.
use tp_names::SiteName;

/// What a command does to a log.
#[derive(Clone, Copy)]
pub enum Duty {
    /// It reads the log.
    Read,
    /// It adds records, as the site of that name.
    Grow(SiteName),
    /// It makes another list of the same records.
    Shorten,
    /// It makes a log where there is none.
    Make,
}
