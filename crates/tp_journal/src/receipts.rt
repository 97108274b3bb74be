//! Receipts: a record that is on the disk, and its place.
ghost use Rattle.std.specs.Prelude.{◌≡◌, IfOk};

use std::alloc::Global;
use tp_logrec::LogRec;
use tp_names::{NoMemory, Sequence};

/// A record that stands in the log, and the place of its gate in the file, in bytes.
#[derive(Drop)]
pub struct Receipt {
    pub place: u64,
    pub rec: LogRec,
}

impl Receipt {
    /// The same receipt once more.
    pub fn copy(&self, alloc: Global) -> Result<Receipt, NoMemory>
        ensures { IfOk result (λ receipt. receipt ≡ self.now) }
    {
        let rec = self.rec.copy(alloc)?;
        Ok(Receipt {
            place: self.place,
            rec,
        })
    }
}

/// A list of receipts.
pub type Receipts = Sequence<Receipt>;
