//! A text in memory as a source that never fails.
ghost use Rattle.std.specs.Prelude.{◌≡◌, []};

use std::alloc::Global;
use tp_names::Octets;
use tp_outside::{Failed, MemSource, Source};

/// A text to read, each call as much as fits.
#[derive(Drop)]
pub struct Held {
    source: MemSource,
    ghost sure: { source.fails ≡ [] },
}

impl Held {
    ghost use Rattle.std.specs.Prelude.{◌≡◌};

    /// The whole text.
    pub fn new(alloc: Global, text: Octets) -> Held
        ensures { result.source.left ≡ text }
    {
        Held {
            source: MemSource::new(alloc, text, Octets::new(alloc)),
        }
    }
}

impl Source for Held {
    ghost use Rattle.std.specs.Prelude.{Some};

    ghost left = { λ s. Some s.source.left };

    ghost fault_count = { λ _. 0 };

    fn read(&mut self, buf: &mut [u8]) -> Result<usize, Failed> {
        match self.source.read(buf) {
            Ok(count) => Ok(count),
            Err(Failed) => unreachable!(),
        }
    }

    fn faults(&self) -> u64 {
        0
    }
}
