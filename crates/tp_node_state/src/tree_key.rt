//! Trees, as keys of a table.
ghost use Rattle.std.specs.Cmp.{partial_equiv_from_equiv};
ghost use Rattle.std.proofs.Common.{ap};
ghost use Rattle.tp_names.specs.contracts.identifiers.MarkHash.TheImpl as marks;
ghost use Rattle.tp_node_state.specs.Kept.{is_tree, tree_same, tree_equivalence};

use std::hash::{Hash, Hasher};
use tp_names::Aaid;
use tp_names::same::is_aaid;

/// A tree, by which the ages of its kept transactions are found.
#[derive(Clone, Copy, Debug)]
pub(crate) struct TreeKey {
    pub(crate) aaid: Aaid,
}

impl PartialEq for TreeKey {
    ghost eq = { is_tree };

    ghost laws = { partial_equiv_from_equiv tree_equivalence };

    fn eq(&self, other: &TreeKey) -> bool {
        is_aaid(&self.aaid, &other.aaid)
    }
}

impl Eq for TreeKey {
    ghost laws = { tree_equivalence };
}

impl Hash for TreeKey {
    ghost hash_input = { λ k. marks.ghosts.hash_input k.aaid.mark };

    ghost respects_eq = { λ a b same. ap (λ k. marks.ghosts.hash_input k.aaid.mark) (tree_same a b same) };

    fn hash<H: Hasher>(&self, state: &mut H) {
        self.aaid.mark.hash(state);
    }
}
