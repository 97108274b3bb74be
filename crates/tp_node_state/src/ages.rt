//! The ages of the kept transactions of each tree.
ghost use Rattle.std.specs.Prelude.{◌≡◌, [], ◌∷◌, ◌++◌, cond, OnOk, OnErr};
ghost use Rattle.tp_names.specs.declared.identifiers.Aaid.{Aaid as AaidValue};
ghost use Rattle.tp_names.specs.Same.{is_aaid};
ghost use Rattle.tp_node_state.specs.Kept.{ages_in, without_age};

use crate::tree_key::TreeKey;
use std::alloc::Global;
use std::collections::HashMap;
use tp_names::{Aaid, NoMemory};

/// Those of the tree, in order.
pub(crate) fn of<'a>(trees: &'a HashMap<TreeKey, Vec<u64>>, aaid: &Aaid) -> &'a [u64]
    ensures { result.now ≡ ages_in trees.now.entries aaid.now }
{
    match trees.get(&TreeKey { aaid: *aaid }) {
        None => &[],
        Some(ages) => ages.as_slice(),
    }
}

/// One more of the tree. Without memory nothing changes.
pub(crate) fn push(
    alloc: Global,
    trees: &mut HashMap<TreeKey, Vec<u64>>,
    aaid: &Aaid,
    age: u64,
) -> Result<(), NoMemory>
    ensures more { OnOk result ((t : AaidValue)
        → ages_in trees.new.entries t ≡ cond (is_aaid aaid.now t) (ages_in trees.old.entries aaid.now ++ age ∷ []) (ages_in trees.old.entries t)) }
    ensures same { OnErr result ((t : AaidValue) → ages_in trees.new.entries t ≡ ages_in trees.old.entries t) }
{
    let tree = TreeKey { aaid: *aaid };
    if let Some(ages) = trees.get_mut(&tree) {
        let Ok(()) = ages.push(age) else {
            return Err(NoMemory);
        };
        return Ok(());
    }
    let mut ages = Vec::new(alloc);
    ages.push(age)?;
    trees.insert(tree, ages)?;
    Ok(())
}

// Without that age.
fn let_go(ages: &mut Vec<u64>, age: u64)
    ensures { ages.new.items ≡ without_age ages.old.items age }
{
    ages.retain(|other| *other != age);
}

/// One of the tree goes.
pub(crate) fn remove(trees: &mut HashMap<TreeKey, Vec<u64>>, aaid: &Aaid, age: u64)
    ensures { (t : AaidValue)
        → ages_in trees.new.entries t ≡ cond (is_aaid aaid.now t) (without_age (ages_in trees.old.entries aaid.now) age) (ages_in trees.old.entries t) }
{
    let tree = TreeKey { aaid: *aaid };
    let Some(ages) = trees.get_mut(&tree) else {
        return;
    };
    let_go(ages, age);
    if ages.is_empty() {
        trees.remove(&tree);
    }
}
