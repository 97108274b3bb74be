//! A schedule, as it is made.
ghost use Rattle.std.specs.Prelude.{◌≤◌, length};

use std::alloc::Global;
use tp_names::Octets;

/// The bytes of a schedule, and how many lines they are. Each line ends with a line feed.
#[derive(Drop)]
pub struct Schedule {
    pub text: Octets,
    pub lines: u64,
    pub ghost few: { lines ≤ length text },
}

impl Schedule {
    ghost use Rattle.std.specs.Prelude.{◌≡◌, []};
    ghost use Rattle.tp_generate.specs.Making.{so_far, nothing};

    /// No lines.
    pub fn new(alloc: Global) -> Schedule
        ensures { so_far result ≡ nothing }
    {
        Schedule {
            text: Octets::new(alloc),
            lines: 0,
        }
    }
}
