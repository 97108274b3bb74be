//! The nodes that are drawn.
ghost use Rattle.std.specs.Prelude.{◌≡◌, []};
ghost use Rattle.tp_draw.specs.NodeSets.{with_node};

use std::marker::Model;

/// How many nodes can be chosen.
const MOST: usize = 16;

/// The nodes that are drawn, at most 16; all are, where none is chosen. Contracts see their numbers.
#[derive(Drop)]
pub struct Nodes {
    count: usize,
    numbers: [u16; 16],
}

impl Model for Nodes {
    ghost use Rattle.std.specs.Prelude.{ℕ, List, take};

    ghost Value = { List ℕ };

    ghost use Rattle.tp_draw.specs.NodeSets.{AreNodes};

    ghost view = { λ s. take s.count s.numbers };

    ghost invariant = { AreNodes };
}

impl Nodes {
    /// None is chosen.
    pub fn none() -> Nodes
        ensures { result ≡ [] }
    {
        Nodes {
            count: 0,
            numbers: [0; MOST],
        }
    }

    /// These and one more; None where there are sixteen.
    pub fn with(self, node: u16) -> Option<Nodes>
        ensures { result ≡ with_node self node }
    {
        if self.count == MOST {
            return None;
        }
        let mut numbers = self.numbers;
        numbers[self.count] = node;
        Some(Nodes {
            count: self.count + 1,
            numbers,
        })
    }

    /// Their numbers, in the order in which they were chosen.
    pub(crate) fn numbers(&self) -> &[u16]
        ensures { result.now ≡ self.now }
    {
        &self.numbers[..self.count]
    }
}
