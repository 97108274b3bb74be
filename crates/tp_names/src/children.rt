//! The branches of a transaction.
use crate::{Addr, BranchId, Sequence};

/// A branch of a transaction: where it is, and its identifier.
#[derive(Clone, Copy, Debug, PartialEq, Eq)]
pub struct Child {
    pub addr: Addr,
    pub branch: BranchId,
}

/// A list of children.
pub type Children = Sequence<Child>;
