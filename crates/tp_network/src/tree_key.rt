//! Trees as keys of tables.
ghost use Rattle.std.specs.Cmp.{partial_equiv_from_equiv};
ghost use Rattle.std.proofs.Common.{ap};
ghost use Rattle.tp_names.specs.contracts.identifiers.MarkHash.TheImpl as marks;
ghost use Rattle.tp_network.specs.TreeKey.{is_tree, tree_same, tree_equivalence};

use std::hash::{Hash, Hasher};
use tp_names::Aaid;
use tp_names::same::is_aaid;

/// A tree, by which what is known of it is found.
#[derive(Clone, Copy)]
pub struct Tree {
    pub(crate) aaid: Aaid,
}

impl PartialEq for Tree {
    ghost eq = { is_tree };

    ghost laws = { partial_equiv_from_equiv tree_equivalence };

    fn eq(&self, other: &Tree) -> bool {
        is_aaid(&self.aaid, &other.aaid)
    }
}

impl Eq for Tree {
    ghost laws = { tree_equivalence };
}

// Few trees have the same mark: a tree is hashed by its mark alone.
impl Hash for Tree {
    ghost hash_input = { λ t. marks.ghosts.hash_input t.aaid.mark };

    ghost respects_eq = { λ a b same. ap (λ t. marks.ghosts.hash_input t.aaid.mark) (tree_same a b same) };

    fn hash<H: Hasher>(&self, state: &mut H) {
        self.aaid.mark.hash(state);
    }
}
