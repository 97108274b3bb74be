//! Marks and what is made of them: identifiers of trees and branches, a node's key, addresses.
use crate::SiteName;
use std::fmt;

/// A mark: drawn once, by one node of one boot of its site.
#[derive(Clone, Copy, Debug, PartialEq, Eq, Hash)]
pub struct Mark {
    pub boot: u64,
    pub node: u16,
    pub count: u64,
}

/// The identifier of a transaction tree: the site of its root, and a mark of that root.
#[derive(Clone, Copy, Debug, PartialEq, Eq, Hash)]
pub struct Aaid {
    pub owner: SiteName,
    pub mark: Mark,
}

/// The identifier of a branch: the superior's site, and a mark of the superior.
#[derive(Clone, Copy, Debug, PartialEq, Eq, Hash)]
pub struct BranchId {
    pub superior: SiteName,
    pub mark: Mark,
}

/// A node's place in a tree. A root has no branch.
#[derive(Clone, Copy, Debug, PartialEq, Eq, Hash)]
pub struct NodeKey {
    pub aaid: Aaid,
    pub branch: Option<BranchId>,
}

/// The address of a node.
#[derive(Clone, Copy, Debug, PartialEq, Eq)]
pub struct Addr {
    pub site: SiteName,
    pub node: u16,
}

impl fmt::Display for Mark {
    fn fmt<W: fmt::Write>(&self, f: &mut fmt::Formatter<W>) -> fmt::Result {
        let Mark { boot, node, count } = *self;
        write!(f, "{boot}.{node}.{count}")
    }
}

impl fmt::Display for Aaid {
    fn fmt<W: fmt::Write>(&self, f: &mut fmt::Formatter<W>) -> fmt::Result {
        let Aaid { owner, mark } = *self;
        write!(f, "{owner}.{mark}")
    }
}

impl fmt::Display for BranchId {
    fn fmt<W: fmt::Write>(&self, f: &mut fmt::Formatter<W>) -> fmt::Result {
        let BranchId { superior, mark } = *self;
        write!(f, "{superior}.{mark}")
    }
}
