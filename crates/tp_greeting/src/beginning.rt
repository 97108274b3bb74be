//! What a site starts with.
use crate::doubts::Doubts;
use std::alloc::{AllocError, Global};
use std::fmt::{self, Display, Formatter};
use tp_journal::Journal;
use tp_logrec::LogRec;
use tp_outside::Disk;

/// The number of the last boot, the records that are there before the next one, and the transactions of which a node has voted
/// and its log does not say how they end.
#[derive(Drop)]
pub struct Beginning {
    last: u64,
    records: usize,
    doubts: Doubts,
}

impl Beginning {
    ghost use Rattle.std.specs.Prelude.{IfOk};
    ghost use Rattle.tp_greeting.specs.Beginnings.{IsOf};

    /// That of a site on the log of a disk, unless that does not start.
    pub fn on<D: Disk + Drop>(alloc: Global, disk: D) -> Option<Beginning> {
        match Journal::start(alloc, disk) {
            Ok(journal) => Beginning::after(alloc, journal.list()).ok(),
            Err(_) => None,
        }
    }

    fn after(alloc: Global, list: &[LogRec]) -> Result<Beginning, AllocError>
        ensures { IfOk result (IsOf list.now) }
    {
        let mut last: u64 = 0;
        let mut doubts = Doubts::new(alloc);
        for rec in list {
            if let LogRec::Boot { boot } = rec {
                last = *boot;
            }
            doubts.take(rec)?;
        }
        Ok(Beginning {
            last,
            records: list.len(),
            doubts,
        })
    }
}

impl Display for Beginning {
    fn fmt<W: fmt::Write>(&self, f: &mut Formatter<W>) -> fmt::Result {
        let boot = self.last.saturating_add(1);
        let nodes = self.doubts.len();
        write!(f, "boot {boot}, {} records, {nodes} in doubt", self.records)
    }
}
