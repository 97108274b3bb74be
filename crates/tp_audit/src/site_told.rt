//! What the log of one site tells.
use crate::roots::RootCommits;
use tp_site::Recalled;

/// What is kept of the log of a site: what its nodes answer to ready branches, and the trees of whose roots it has a Commit.
#[derive(Drop)]
pub(crate) struct SiteTold {
    pub(crate) recalled: Recalled,
    pub(crate) roots: RootCommits,
}
