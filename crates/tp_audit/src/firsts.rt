//! The first entries of each tree.
ghost use Rattle.std.specs.Prelude.{◌≡◌, ◌+◌, ◌<◌, ◌≤◌, cond};
ghost use Rattle.std.specs.HashMap.{spare};
ghost use Rattle.tp_names.specs.declared.identifiers.Aaid.{Aaid as AaidValue};
ghost use Rattle.tp_names.specs.Same.{is_aaid};
ghost use Rattle.tp_audit.specs.Ledgers.{no_firsts, first_of, or_place, firsts_with, firsts_at};

use crate::keys::TreeKey;
use std::collections::HashMap;
use tp_names::{Aaid, Addr, Outcome};

/// Where an entry stands among all, and whose it is.
#[derive(Clone, Copy)]
pub(crate) struct Place {
    pub(crate) number: u64,
    pub(crate) node: Addr,
}

/// The first entries of a tree whose nodes committed and rolled back, and took no decision of their own.
#[derive(Clone, Copy)]
pub(crate) struct Firsts {
    commit: Option<Place>,
    rollback: Option<Place>,
}

impl Firsts {
    /// There are none.
    pub(crate) fn new() -> Firsts
        ensures { result ≡ no_firsts }
    {
        Firsts {
            commit: None,
            rollback: None,
        }
    }

    /// The first that ended so.
    pub(crate) fn of(&self, outcome: Outcome) -> Option<Place>
        ensures { result ≡ first_of outcome self.now }
    {
        match outcome {
            Outcome::Commit => self.commit,
            Outcome::Rollback => self.rollback,
        }
    }

    // With one more that ended so.
    fn with(&self, outcome: Outcome, place: Place) -> Firsts
        ensures { result ≡ firsts_with self.now outcome place }
    {
        match outcome {
            Outcome::Commit => Firsts {
                commit: or_place(self.commit, place),
                rollback: self.rollback,
            },
            Outcome::Rollback => Firsts {
                commit: self.commit,
                rollback: or_place(self.rollback, place),
            },
        }
    }
}

fn or_place(first: Option<Place>, place: Place) -> Option<Place>
    ensures { result ≡ or_place first place }
{
    match first {
        Some(first) => Some(first),
        None => Some(place),
    }
}

/// Notes one more entry of the tree, which ended so, and answers the first ones before it.
pub(crate) fn note(
    trees: &mut HashMap<TreeKey, Firsts>,
    aaid: &Aaid,
    outcome: Outcome,
    place: Place,
) -> Firsts
    requires { 0 < spare trees.old }
    ensures before { result ≡ firsts_at trees.old.entries aaid.now }
    ensures after { (t : AaidValue)
        → firsts_at trees.new.entries t ≡ cond (is_aaid aaid.now t) (firsts_with result outcome place) (firsts_at trees.old.entries t) }
    ensures room { spare trees.old ≤ spare trees.new + 1 }
{
    let tree = TreeKey { aaid: *aaid };
    if let Some(firsts) = trees.get_mut(&tree) {
        let before = *firsts;
        *firsts = before.with(outcome, place);
        return before;
    }
    let before = Firsts::new();
    let Ok(_) = trees.insert(tree, before.with(outcome, place)) else {
        unreachable!()
    };
    before
}
