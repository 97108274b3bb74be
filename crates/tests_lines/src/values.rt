//! Values that several tests speak of.
use std::alloc::Global;
use tp_names::{Aaid, BranchId, Mark, NodeKey, Octets, SiteName};

pub fn octets(alloc: Global, bytes: &[u8]) -> Option<Octets> {
    Octets::from_slice(alloc, bytes).ok()
}

pub fn site(name: &[u8]) -> Option<SiteName> {
    SiteName::new(name)
}

pub fn mark(count: u64) -> Mark {
    Mark {
        boot: 1,
        node: 20,
        count,
    }
}

/// Its text is `a.1.20.2`.
pub fn aaid() -> Option<Aaid> {
    let owner = site(b"a")?;
    let mark = mark(2);
    Some(Aaid { owner, mark })
}

/// Its text is `s16.1.20.18446744073709551615`.
pub fn branch() -> Option<BranchId> {
    let superior = site(b"s16")?;
    let mark = mark(u64::MAX);
    Some(BranchId { superior, mark })
}

/// The key of that branch.
pub fn key() -> Option<NodeKey> {
    let aaid = aaid()?;
    let branch = Some(branch()?);
    Some(NodeKey { aaid, branch })
}

/// The key of a root.
pub fn root_key() -> Option<NodeKey> {
    let aaid = aaid()?;
    Some(NodeKey { aaid, branch: None })
}
