//! Trees and sites as keys of tables.
ghost use Rattle.std.specs.Cmp.{partial_equiv_from_equiv};
ghost use Rattle.std.proofs.Common.{ap};
ghost use Rattle.tp_names.specs.contracts.identifiers.MarkHash.TheImpl as marks;
ghost use Rattle.tp_names.specs.contracts.site_name.SiteNameHash.TheImpl as names;
ghost use Rattle.tp_audit.specs.Keys.{is_tree, tree_same, tree_equivalence, is_site, site_same, site_equivalence};

use std::hash::{Hash, Hasher};
use tp_names::same::{is_aaid, is_name};
use tp_names::{Aaid, SiteName};

/// A tree, by which its first entries are found.
#[derive(Clone, Copy)]
pub(crate) struct TreeKey {
    pub(crate) aaid: Aaid,
}

impl PartialEq for TreeKey {
    ghost eq = { is_tree };

    ghost laws = { partial_equiv_from_equiv tree_equivalence };

    fn eq(&self, other: &TreeKey) -> bool {
        is_aaid(&self.aaid, &other.aaid)
    }
}

impl Eq for TreeKey {
    ghost laws = { tree_equivalence };
}

// Few trees have the same mark: a tree is hashed by its mark alone.
impl Hash for TreeKey {
    ghost hash_input = { λ t. marks.ghosts.hash_input t.aaid.mark };

    ghost respects_eq = { λ a b same. ap (λ t. marks.ghosts.hash_input t.aaid.mark) (tree_same a b same) };

    fn hash<H: Hasher>(&self, state: &mut H) {
        self.aaid.mark.hash(state);
    }
}

/// A site, by which what its log tells is found.
#[derive(Clone, Copy)]
pub(crate) struct SiteKey {
    pub(crate) name: SiteName,
}

impl PartialEq for SiteKey {
    ghost eq = { is_site };

    ghost laws = { partial_equiv_from_equiv site_equivalence };

    fn eq(&self, other: &SiteKey) -> bool {
        is_name(&self.name, &other.name)
    }
}

impl Eq for SiteKey {
    ghost laws = { site_equivalence };
}

impl Hash for SiteKey {
    ghost hash_input = { λ s. names.ghosts.hash_input s.name };

    ghost respects_eq = { λ a b same. ap (λ s. names.ghosts.hash_input s.name) (site_same a b same) };

    fn hash<H: Hasher>(&self, state: &mut H) {
        self.name.hash(state);
    }
}
