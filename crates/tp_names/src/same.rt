//! Equality of names, and of what is made of them, as the definitions test it. What differs soonest is compared first: the
//! count of a mark, and a mark before a name.
ghost use Rattle.std.specs.Prelude.{◌≡◌};
ghost use Rattle.tp_names.specs.Same.{is_name, is_mark, is_aaid, is_branch, is_branch_option, is_key, is_addr, is_addr_option};

use crate::{Aaid, Addr, BranchId, Mark, NodeKey, SiteName};

/// The same name.
pub fn is_name(a: &SiteName, b: &SiteName) -> bool
    ensures { result ≡ is_name a.now b.now }
{
    a.is_same(b)
}

/// The same mark.
pub fn is_mark(a: &Mark, b: &Mark) -> bool
    ensures { result ≡ is_mark a.now b.now }
{
    a.count == b.count && a.node == b.node && a.boot == b.boot
}

/// The same tree.
pub fn is_aaid(a: &Aaid, b: &Aaid) -> bool
    ensures { result ≡ is_aaid a.now b.now }
{
    is_mark(&a.mark, &b.mark) && is_name(&a.owner, &b.owner)
}

/// The same branch.
pub fn is_branch(a: &BranchId, b: &BranchId) -> bool
    ensures { result ≡ is_branch a.now b.now }
{
    is_mark(&a.mark, &b.mark) && is_name(&a.superior, &b.superior)
}

/// The same branch, or none in both.
pub fn is_branch_option(a: &Option<BranchId>, b: &Option<BranchId>) -> bool
    ensures { result ≡ is_branch_option a.now b.now }
{
    match (a, b) {
        (None, None) => true,
        (Some(a), Some(b)) => is_branch(a, b),
        _ => false,
    }
}

/// The same place in a tree.
pub fn is_key(a: &NodeKey, b: &NodeKey) -> bool
    ensures { result ≡ is_key a.now b.now }
{
    is_aaid(&a.aaid, &b.aaid) && is_branch_option(&a.branch, &b.branch)
}

/// The same address.
pub fn is_addr(a: &Addr, b: &Addr) -> bool
    ensures { result ≡ is_addr a.now b.now }
{
    is_name(&a.site, &b.site) && a.node == b.node
}

/// The same address, or none in both.
pub fn is_addr_option(a: &Option<Addr>, b: &Option<Addr>) -> bool
    ensures { result ≡ is_addr_option a.now b.now }
{
    match (a, b) {
        (None, None) => true,
        (Some(a), Some(b)) => is_addr(a, b),
        _ => false,
    }
}
