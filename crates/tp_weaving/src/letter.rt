//! A record on its way, by which it is found among those that were said.
ghost use Rattle.std.specs.Prelude.{◌≡◌, ◌++◌, IfOk};
ghost use Rattle.std.specs.Cmp.{partial_equiv_from_equiv};
ghost use Rattle.std.specs.Hash as fed;
ghost use Rattle.std.proofs.Common.{ap};
ghost use Rattle.tp_names.specs.Same.{is_name};
ghost use Rattle.tp_weaving.specs.Letters.{is_letter, letter_same, letter_equivalence};

use std::alloc::Global;
use std::hash::{Hash, Hasher};
use tp_names::same::is_addr;
use tp_names::{Addr, NoMemory, Octets};

/// The octets of a record, from one node to another.
#[derive(Drop)]
pub struct Letter {
    pub from: Addr,
    pub to: Addr,
    pub octets: Octets,
}

impl Letter {
    /// A copy of it.
    pub fn copy(&self, alloc: Global) -> Result<Letter, NoMemory>
        ensures { IfOk result (λ letter. letter ≡ self.now) }
    {
        Ok(Letter {
            from: self.from,
            to: self.to,
            octets: Octets::from_slice(alloc, self.octets.as_slice())?,
        })
    }
}

// The same octets.
fn are_octets(a: &[u8], b: &[u8]) -> bool
    ensures { result ≡ is_name a.now b.now }
{
    match a {
        [] => b.is_empty(),
        [first, rest @ ..] => match b {
            [] => false,
            [other, more @ ..] => *first == *other && are_octets(rest, more),
        },
    }
}

impl PartialEq for Letter {
    ghost eq = { is_letter };

    ghost laws = { partial_equiv_from_equiv letter_equivalence };

    fn eq(&self, other: &Letter) -> bool {
        are_octets(self.octets.as_slice(), other.octets.as_slice())
            && is_addr(&self.from, &other.from)
            && is_addr(&self.to, &other.to)
    }
}

impl Eq for Letter {
    ghost laws = { letter_equivalence };
}

// Few letters have the same octets: a letter is hashed by these alone, and by the numbers of its nodes.
impl Hash for Letter {
    ghost hash_input = { λ l. fed.u16 l.from.node ++ fed.u16 l.to.node ++ fed.slice fed.u8 l.octets };

    ghost respects_eq = { λ a b same. ap (λ l. fed.u16 l.from.node ++ fed.u16 l.to.node ++ fed.slice fed.u8 l.octets) (letter_same a b same) };

    fn hash<H: Hasher>(&self, state: &mut H) {
        self.from.node.hash(state);
        self.to.node.hash(state);
        self.octets.as_slice().hash(state);
    }
}
