//! One arc of a node.
ghost use Rattle.std.specs.Prelude.{◌≡◌, ◌&&◌};
ghost use Rattle.tp_model.specs.Links.{is_live};
ghost use Rattle.tp_model.specs.Dialogues.{has_commit};
ghost use Rattle.tp_tree.specs.Tie.{arc_of, fresh_tie};

use tp_dialogue::Dialogue;
use tp_link::{Link, LinkState};
use tp_model::Side;
use tp_names::Addr;
use tp_units::{COMMIT, Units};

/// One arc of a node: a dialogue with the peer at an address, and the association that carries it.
#[derive(Clone, Copy, Debug, PartialEq, Eq)]
pub struct Tie {
    addr: Addr,
    pub dialogue: Dialogue,
    pub link: Link,
}

impl Tie {
    /// A dialogue on which nothing was said, with no association.
    pub(crate) fn new(addr: Addr, units: Units, side: Side) -> Tie
        ensures { result ≡ fresh_tie addr units side }
    {
        Tie {
            addr,
            dialogue: Dialogue::new(units, side),
            link: Link::idle(),
        }
    }

    /// The peer's address.
    pub fn addr(&self) -> Addr
        ensures { result ≡ (arc_of self.now).peer }
    {
        self.addr
    }

    /// Whether transactions can run on it now: its association is live, and its units have Commit.
    pub(crate) fn is_live_with_commit(&self) -> bool
        ensures { result ≡ (is_live (arc_of self.now).link && has_commit (arc_of self.now).dialogue) }
    {
        self.link.state() == LinkState::Live && self.dialogue.units().has(COMMIT)
    }
}
