//! What a transaction writes.
ghost use Rattle.std.specs.Prelude.{◌≡◌, IfOk};

use std::alloc::Global;
use tp_names::{NoMemory, Octets, Sequence};

/// A key and the value that it gets, or a key that is taken out.
#[derive(Drop)]
pub enum Write {
    Put { key: Octets, value: Octets },
    Remove { key: Octets },
}

impl Write {
    /// The same write.
    pub fn copy(&self, alloc: Global) -> Result<Write, NoMemory>
        ensures { IfOk result (λ copy. copy ≡ self.now) }
    {
        Ok(match self {
            Write::Put { key, value } => Write::Put {
                key: Octets::from_slice(alloc, key.as_slice())?,
                value: Octets::from_slice(alloc, value.as_slice())?,
            },
            Write::Remove { key } => Write::Remove {
                key: Octets::from_slice(alloc, key.as_slice())?,
            },
        })
    }
}

/// A list of writes.
pub type Writes = Sequence<Write>;
