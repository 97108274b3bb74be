//! Which record may follow a list.
ghost use Rattle.std.specs.Prelude.{◌≡◌, None};
ghost use Rattle.std.specs.Option.{option_copied};
ghost use Rattle.tp_logrec.specs.Seen.{before_of};
ghost use Rattle.tp_logrec.specs.Binding.{binds, some_of, comes_again};
ghost use Rattle.tp_logrec.specs.Order.{boots, all_below, before, owner, last_boot_from, bound, is_free, is_of, last_from, ready_from, follows};

use crate::rules::Seen;
use crate::same::is_owner;
use crate::{LogRec, Owner};
use tp_names::NodeKey;

// Promise 2.14, part 3
/// The record may follow the list, which has the oldest first. This goes over the list once, and
/// for a record that begins a key once more for each bound record of its node; where a whole log
/// is checked record by record, use [`OrderCheck`](crate::OrderCheck).
pub fn follows(list: &[LogRec], next: &LogRec) -> bool
    ensures { result ≡ follows list.now next.now }
{
    match next {
        LogRec::Boot { boot } => boots_are_below(list, *boot),
        LogRec::Ready { node, key, .. } | LogRec::Commit { node, key, .. } => {
            seen(list, *node, *key, is_free(list, *node)).may_follow(next)
        }
        LogRec::Heuristic { node, key, .. }
        | LogRec::Damage { node, key, .. }
        | LogRec::End { node, key, .. } => seen(list, *node, *key, true).may_follow(next),
    }
}

/// What the rules read of the list for a record of the key, whose node is free or not.
fn seen(list: &[LogRec], node: u16, key: NodeKey, free: bool) -> Seen<'_>
    ensures { before_of result ≡ record (before list.now (owner node key)) { free = free } }
{
    let owner = Owner { node, key };
    Seen {
        begun: !list.is_empty(),
        boot: last_boot(list),
        free,
        last: last_of(list, &owner),
        ready: ready_of(list, &owner),
    }
}

/// Each Boot of the list has a number below that of the record.
fn boots_are_below(list: &[LogRec], number: u64) -> bool
    ensures { result ≡ all_below number (boots list.now) }
{
    for rec in list {
        if let LogRec::Boot { boot } = rec
            && *boot >= number
        {
            return false;
        }
    }
    true
}

/// The number of the last Boot, or 0.
fn last_boot(list: &[LogRec]) -> u64
    ensures { result ≡ last_boot_from 0 list.now }
{
    let mut number = 0;
    for rec in list {
        if let LogRec::Boot { boot } = rec {
            number = *boot;
        }
    }
    number
}

/// The record speaks of that key.
pub(crate) fn is_of(owner: &Owner, rec: &LogRec) -> bool
    ensures { result ≡ is_of owner.now rec.now }
{
    match rec.owner() {
        None => false,
        Some(other) => is_owner(&other, owner),
    }
}

/// The key's last record since its last End.
fn last_of<'a>(list: &'a [LogRec], owner: &Owner) -> Option<&'a LogRec>
    ensures { option_copied result ≡ last_from owner.now None list.now }
{
    let mut last = None;
    for rec in list {
        if is_of(owner, rec) {
            last = if rec.is_end() { None } else { Some(rec) };
        }
    }
    last
}

/// The key's Ready since its last End.
fn ready_of<'a>(list: &'a [LogRec], owner: &Owner) -> Option<&'a LogRec>
    ensures { option_copied result ≡ ready_from owner.now None list.now }
{
    let mut ready = None;
    for rec in list {
        if is_of(owner, rec) {
            if rec.is_end() {
                ready = None;
            } else if rec.is_ready() {
                ready = Some(rec);
            }
        }
    }
    ready
}

/// No key of the node is bound.
fn is_free(list: &[LogRec], node: u16) -> bool
    ensures { result ≡ is_free node (bound list.now) }
{
    for i in 0..list.len() {
        if binds(&list[i], node) && !comes_again(&list[i], &list[i + 1..]) {
            return false;
        }
    }
    true
}

/// The record binds a key of the node.
fn binds(rec: &LogRec, node: u16) -> bool
    ensures { result ≡ binds rec.now node }
{
    match rec.owner() {
        None => false,
        Some(owner) => owner.node == node && rec.is_bound(),
    }
}

/// The list has a record of the same key.
fn comes_again(rec: &LogRec, list: &[LogRec]) -> bool
    ensures { result ≡ comes_again rec.now list.now }
{
    match rec.owner() {
        None => false,
        Some(owner) => some_of(&owner, list),
    }
}

/// The list has a record of the key.
fn some_of(owner: &Owner, list: &[LogRec]) -> bool
    ensures { result ≡ some_of owner.now list.now }
{
    for rec in list {
        if is_of(owner, rec) {
            return true;
        }
    }
    false
}
