//! A change of one kept transaction that waits.
ghost use Rattle.std.specs.Prelude.{◌≡◌};
ghost use Rattle.std.specs.Option.{option_copied};
ghost use Rattle.tp_node_state.specs.Changes.{changed_one};

use tp_model::Kept;
use tp_names::NodeKey;
use tp_names::same::is_key;

/// A change that waits.
#[derive(Debug, Drop)]
pub(crate) enum Change {
    /// It takes the place of the one with its key, or stands after the others.
    Put(Box<Kept>),
    /// The one with that key is taken away.
    Remove(NodeKey),
}

/// What is there in the place of one of those that are shared.
pub(crate) fn changed_one<'a>(change: &'a Option<Change>, one: &'a Kept) -> Option<&'a Kept>
    ensures { option_copied result ≡ changed_one change.now one.now }
{
    match change {
        Some(Change::Put(kept)) if is_key(&one.key, &kept.key) => Some(&**kept),
        Some(Change::Remove(key)) if is_key(&one.key, key) => None,
        _ => Some(one),
    }
}
