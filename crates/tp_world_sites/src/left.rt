//! What a stop in the force of a record leaves of a disk.
ghost use Rattle.std.specs.Prelude.{◌≡◌, ◌≤◌, ◌<◌, ◌^◌, ◌↔◌, List, ◌∷◌, [], length, true, IsTrue};
ghost use Rattle.std.specs.List.{AllByRecursion};
ghost use Rattle.tp_logrec.specs.declared.record.LogRec.{LogRec};
ghost use Rattle.tp_outside.specs.FuseDisk.{fused};
ghost use Rattle.tp_outside.specs.MemDisk.{recorded, fresh};
ghost use Rattle.tp_outside.specs.Story.{seen};
ghost use Rattle.tp_journal.specs.Log.{StandsInFront};
ghost use Rattle.tp_journal.specs.Records.{HasText, bodies_of};
ghost use Rattle.tp_model.specs.Disk.{Disk, disk_bytes};
ghost use Rattle.tp_model.specs.Lines.{most_bytes, log_size};
ghost use Rattle.tp_world_sites.specs.Left.{IsReadable, LeavesBy, FuseStarts};

use crate::fault::WorldFault;
use std::alloc::Global;
use tp_journal::{ForceFault, Journal, Keeper, StartFault};
use tp_logrec::{LogRec, LogVersion};
use tp_outside::{FuseDisk, MemDisk};
use tp_texts::has_text;

/// In which changing call of the force of its record an event stops, from 1, and the byte that stands in each range that
/// was not synced.
#[derive(Clone, Copy, Debug, PartialEq, Eq)]
pub struct Stop {
    pub call: u8,
    pub fill: u8,
}

// A journal on a disk that stops. Only a lack of memory keeps it from its start.
fn start_fused(alloc: Global, disk: FuseDisk) -> Result<Journal<FuseDisk>, WorldFault>
    ensures { (rs : List LogRec) → StandsInFront (seen (fused disk).disk.story) (bodies_of true rs)
        → length (seen (fused disk).disk.story) < 2 ^ 64 → AllByRecursion (HasText true) rs → FuseStarts disk rs result }
{
    match Journal::start(alloc, disk) {
        Ok(journal) => Ok(journal),
        Err((_disk, StartFault::Foreign { .. })) => Err(WorldFault::Name),
        Err((_disk, _starved)) => Err(WorldFault::NoMemory),
    }
}

// Does the record have a text in the version of that log?
fn is_text_of(journal: &Journal<FuseDisk>, rec: &LogRec) -> bool
    ensures { IsTrue result ↔ HasText journal.now.wide rec.now }
{
    let version = if journal.wide() {
        LogVersion::Two
    } else {
        LogVersion::One
    };
    has_text(version, rec)
}

// Promise 15.5 [tp_world_sites/specs/Left.antt]: Of a disk that has all the bytes of a disk of the
//   definitions, whose gate is closed and whose records have texts, a stop in the force of a record
//   that has a text and room leaves what the definitions say, to the byte
/// What is left of a disk by a stop in the force of a record, or after it. The start of the log makes one call before.
pub fn left_by(
    alloc: Global,
    disk: MemDisk,
    rec: &LogRec,
    stop: &Stop,
) -> Result<MemDisk, WorldFault>
    ensures { (d : Disk) → recorded disk ≡ fresh (disk_bytes d) [] → IsReadable d → HasText true rec.now
        → log_size (rec.now ∷ d.records) ≤ most_bytes → LeavesBy stop.now rec.now d result }
{
    let _bytes = disk.bytes();
    let last = u64::from(stop.call) + 1;
    let fuse = FuseDisk::new(disk, last.max(2), stop.fill);
    let mut journal = start_fused(alloc, fuse)?;
    if !is_text_of(&journal, rec) {
        return Err(WorldFault::Name);
    }
    match journal.force(alloc, rec) {
        Ok(_receipt) => Ok(journal.disk().image()),
        Err(ForceFault::DiskFault { .. }) => {
            let fuse = journal.disk();
            if fuse.stopped() {
                Ok(fuse.image())
            } else {
                Err(WorldFault::NoMemory)
            }
        }
        Err(ForceFault::NoMemory) => Err(WorldFault::NoMemory),
        Err(ForceFault::Full { .. }) => Err(WorldFault::Name),
        Err(ForceFault::Shut { .. }) => Err(WorldFault::Name),
    }
}
