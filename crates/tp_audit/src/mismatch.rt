//! Logs that do not belong together.
use tp_names::{Aaid, Addr};

/// The logs of the sites of two nodes, which do not belong together: a node committed in the tree, and the log of its root's site,
/// which the identifier names, has no Commit of the root. A node of the tree is in doubt, and its superior's log knows nothing of it.
#[derive(Clone, Copy, Debug, PartialEq, Eq)]
pub struct Mismatch {
    pub aaid: Aaid,
    /// The first node that committed in the tree, and took no decision of its own.
    pub committed: Addr,
    /// The node in doubt.
    pub doubtful: Addr,
}
