//! Consecutive numbers of nodes, by which a place is told without a look-up.
ghost use Rattle.std.specs.Prelude.{◌≡◌, ◌+◌, ◌++◌, ◌∷◌, [], ◌<◌, true, List, length, IfSome};
ghost use Rattle.tp_network.specs.declared.nodes.NodeSlot.{NodeSlot as Slot};
ghost use Rattle.tp_network.specs.Nodes.{IsRun};

/// So many consecutive numbers, from the first on.
#[derive(Clone, Copy)]
pub(crate) struct Run {
    pub(crate) first: u16,
    pub(crate) count: usize,
}

impl Run {
    /// No numbers.
    pub(crate) const NONE: Run = Run { first: 0, count: 0 };

    /// The place of a number, where it is one of them.
    pub(crate) fn place(&self, number: u16) -> Option<usize>
        ensures { IfSome result (λ place. (place < self.now.count) × (self.now.first + place ≡ number)) }
    {
        if number < self.first {
            return None;
        }
        let place = (number - self.first) as usize;
        if place < self.count {
            Some(place)
        } else {
            None
        }
    }

    // The number is the one after so many.
    fn comes_after(&self, count: usize, number: u16) -> bool
        ensures { result ≡ true → self.now.first + count ≡ number }
    {
        number >= self.first && (number - self.first) as usize == count
    }

    /// The numbers that nodes begin with, with one more node of that number after so many.
    pub(crate) fn with(self, all: usize, number: u16) -> Run
        ensures { (xs : List Slot) (x : Slot) → length xs ≡ all → x.addr.node ≡ number → IsRun self.count self.first xs
            → IsRun result.count result.first (xs ++ x ∷ []) }
    {
        if all == 0 {
            return Run {
                first: number,
                count: 1,
            };
        }
        if self.count == all && self.comes_after(all, number) {
            return Run {
                first: self.first,
                count: all + 1,
            };
        }
        self
    }
}
