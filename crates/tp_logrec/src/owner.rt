//! Whose records a log has.
ghost use Rattle.std.specs.Prelude.{◌++◌, [], None, Some};
ghost use Rattle.std.specs.Cmp.{partial_equiv_from_equiv};
ghost use Rattle.std.specs.Hash as fed;
ghost use Rattle.std.proofs.Common.{ap};
ghost use Rattle.tp_names.specs.contracts.identifiers.MarkHash.TheImpl as marks;
ghost use Rattle.tp_logrec.specs.Order.{is_owner};
ghost use Rattle.tp_logrec.specs.Owners.{owner_equivalence, owner_same};

use crate::same::is_owner;
use std::hash::{Hash, Hasher};
use tp_names::NodeKey;

/// A key of a node: the records of a log but for `Boot` speak of one each.
#[derive(Clone, Copy, Debug)]
pub struct Owner {
    pub node: u16,
    pub key: NodeKey,
}

impl PartialEq for Owner {
    ghost eq = { is_owner };

    ghost laws = { partial_equiv_from_equiv owner_equivalence };

    fn eq(&self, other: &Owner) -> bool {
        is_owner(self, other)
    }
}

impl Eq for Owner {
    ghost laws = { owner_equivalence };
}

// Few keys of a node have the same marks: a key is hashed by its marks, and not by the names beside them.
impl Hash for Owner {
    ghost hash_input = { λ o. fed.u16 o.node ++ marks.ghosts.hash_input o.key.aaid.mark
        ++ elim o.key.branch [ None ↦ [] | Some b ↦ marks.ghosts.hash_input b.mark ] };

    ghost respects_eq = { λ a b same. ap (λ o. fed.u16 o.node ++ marks.ghosts.hash_input o.key.aaid.mark ++ elim o.key.branch [ None ↦ [] | Some b ↦ marks.ghosts.hash_input b.mark ]) (owner_same a b same) };

    fn hash<H: Hasher>(&self, state: &mut H) {
        self.node.hash(state);
        self.key.aaid.mark.hash(state);
        if let Some(branch) = &self.key.branch {
            branch.mark.hash(state);
        }
    }
}
