//! What the logs say together.
use tp_names::{Aaid, Addr};

/// Whether two nodes of one tree ended apart.
#[derive(Clone, Copy, Debug, PartialEq, Eq)]
pub enum Verdict {
    /// No two did, but for such as took a decision of their own.
    Yes,
    /// These two did, in that tree, and neither took a decision of its own.
    Differ {
        aaid: Aaid,
        first: Addr,
        second: Addr,
    },
}
