//! The start of a log: what is on the disk is read, and a change of generation that was cut short is ended.
ghost use Rattle.std.specs.Prelude.{◌≡◌, ◌≤◌, ◌<◌, ◌^◌, [], ℕ, List, length, Some, IfOk, IfErr, OnOk};
ghost use Rattle.tp_outside.specs.Story.{Story, seen};
ghost use Rattle.tp_journal.specs.Start.{Starts, RefusesStart, SyncsAlone};
ghost use Rattle.tp_journal.specs.Read.{RefusesRead};

use crate::read::{Reading, read_log};
use crate::shelf::Shelf;
use crate::{StartFault, tape};
use std::alloc::Global;
use tp_outside::Disk;

// No machine has memory for more.
const MOST_BYTES: u64 = 1 << 62;

// All the bytes of the disk.
fn read_all<D: Disk>(alloc: Global, disk: &mut D) -> Result<Vec<u8>, StartFault>
    ensures bytes { IfOk result (λ file. (s : Story) → D.told disk.old ≡ Some s → file.items ≡ seen s) }
    ensures few { IfOk result (λ file. length file.items ≤ 2 ^ 62) }
    ensures same { D.told disk.new ≡ D.told disk.old }
    ensures passes { OnOk result (D.fuse disk.new ≡ D.fuse disk.old) }
    ensures kept { D.fault_count disk.old ≤ D.fault_count disk.new }
    ensures refused { IfErr result (RefusesRead (D.fault_count disk.old) (D.fault_count disk.new)) }
{
    let Ok(len) = disk.len() else {
        return Err(StartFault::DiskFault {
            faults: disk.faults(),
        });
    };
    if len > MOST_BYTES {
        return Err(StartFault::NoMemory);
    }
    let mut file = vec![in alloc; 0u8; len as usize]?;
    match disk.read(0, &mut file) {
        Ok(n) => {
            file.truncate(n);
            Ok(file)
        }
        Err(_) => Err(StartFault::DiskFault {
            faults: disk.faults(),
        }),
    }
}

/// Reads a log onto an empty shelf, and answers the place of its closing gate.
pub fn open<D: Disk, S: Shelf>(
    alloc: Global,
    disk: &mut D,
    shelf: &mut S,
) -> Result<u64, StartFault>
    requires { S.bodies shelf.old ≡ [] }
    ensures started { IfOk result (λ gate. Starts (D.told disk.old) (D.told disk.new) gate (S.bodies shelf.new)) }
    ensures refused { IfErr result (RefusesStart S.accepts (D.told disk.old) (D.told disk.new) (D.fault_count disk.old) (D.fault_count disk.new)) }
    ensures passes { OnOk result (SyncsAlone (D.told disk.old) (D.fuse disk.old) (D.fuse disk.new)) }
    ensures kept { D.fault_count disk.old ≤ D.fault_count disk.new }
{
    let Ok(()) = disk.sync() else {
        return Err(StartFault::DiskFault {
            faults: disk.faults(),
        });
    };
    let file = read_all(alloc, disk)?;
    match read_log(&file, shelf)? {
        Reading::Foreign { at } => Err(StartFault::Foreign { at }),
        Reading::Front { gate } => Ok(gate),
        Reading::Behind { place, gate } => {
            let text = &file[place as usize..gate as usize + 1];
            let Ok(()) = tape::finish(disk, text) else {
                return Err(StartFault::DiskFault {
                    faults: disk.faults(),
                });
            };
            Ok(5 + gate - place)
        }
    }
}
