//! Equality of what records speak of, as the order of records means it.
ghost use Rattle.std.specs.Prelude.{◌≡◌, List};
ghost use Rattle.tp_logrec.specs.Order.{is_owner, is_child, are_children, are_among};

use crate::Owner;
use tp_names::Child;
use tp_names::same::{is_addr, is_branch, is_key};

pub(crate) fn is_owner(a: &Owner, b: &Owner) -> bool
    ensures { result ≡ is_owner a.now b.now }
{
    a.node == b.node && is_key(&a.key, &b.key)
}

fn is_child(a: &Child, b: &Child) -> bool
    ensures { result ≡ is_child a.now b.now }
{
    is_addr(&a.addr, &b.addr) && is_branch(&a.branch, &b.branch)
}

/// The same children in the same order.
pub(crate) fn are_children(a: &[Child], b: &[Child]) -> bool
    ensures { result ≡ are_children a.now b.now }
{
    if a.len() != b.len() {
        return false;
    }
    for i in 0..a.len() {
        if !is_child(&a[i], &b[i]) {
            return false;
        }
    }
    true
}

/// The children of the first list are among those of the second, in their order.
pub(crate) fn are_among(some: &[Child], all: &[Child]) -> bool
    ensures { result ≡ are_among some.now all.now }
{
    let mut left = some;
    for child in all {
        match left {
            [first, rest @ ..] if is_child(first, child) => left = rest,
            _ => {}
        }
    }
    left.is_empty()
}
