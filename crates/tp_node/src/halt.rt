//! Why a draft goes no further.
ghost use Rattle.std.specs.Prelude.{◌≡◌};
ghost use Rattle.tp_node.specs.declared.halt.Halt.{Halt};

use tp_names::{NoMemory, NumbersSpent};

/// Why a draft goes no further.
#[derive(Clone, Copy, Debug, PartialEq, Eq)]
pub enum Halt {
    /// The node has no mark left, or an association no number.
    NumbersSpent,
    /// No memory could be had.
    NoMemory,
}

impl From<NoMemory> for Halt {
    ghost from_gives = { λ _ e. e ≡ Halt.NoMemory };

    fn from(_error: NoMemory) -> Halt {
        Halt::NoMemory
    }
}

impl From<NumbersSpent> for Halt {
    ghost from_gives = { λ _ e. e ≡ Halt.NumbersSpent };

    fn from(_error: NumbersSpent) -> Halt {
        Halt::NumbersSpent
    }
}
