//! The keys of a store that stands on a disk.
ghost use Rattle.std.specs.Prelude.{◌≡◌, IfOk, IfErr};
ghost use Rattle.tp_keys.specs.Printing.{stop_of, Prints, RefusesKeys};

use crate::print::print;
use std::alloc::Global;
use tp_bound::Bound;
use tp_journal::StartFault;
use tp_outside::{Disk, Sink};
use tp_streams::Stop;

fn stop_of(fault: StartFault) -> Stop
    ensures { result ≡ stop_of fault }
{
    match fault {
        StartFault::Foreign { at } => Stop::Foreign { at },
        StartFault::DiskFault { faults } => Stop::DiskFault { faults },
        StartFault::NoMemory => Stop::NoMemory,
    }
}

/// Opens the store on a disk and writes a line for each of its keys, in ascending order of bytes: the key and its value in
/// hexadecimal, with a space between them, and `-` for an empty value. The disk comes back in any case. Foreign and DiskFault
/// are as a store's start tells them, and then nothing was written; WriteFault tells the count of the sink's failed calls.
pub fn keys<D: Disk, K: Sink>(alloc: Global, disk: D, sink: &mut K) -> Result<D, (D, Stop)>
    // Promise 8.20: On Ok a line for each key of the store on a disk is written, in ascending order
    //   of bytes, to the byte
    ensures printed { IfOk result (λ left. Prints D (D.told disk) (D.told left) (K.written sink.old) (K.written sink.new)) }
    // Promise 8.21: Where `keys` does not end Ok, the store's start says why and nothing is
    //   written, or the sink's fault comes with its new count or memory runs out and a prefix of
    //   the lines is written
    ensures refused { IfErr result (λ e. RefusesKeys D (D.told disk) (D.told e.0) (D.fault_count disk) (D.fault_count e.0)
        (K.written sink.old) (K.written sink.new) (K.fault_count sink.old) (K.fault_count sink.new) e.1) }
{
    let bound = match Bound::open(alloc, disk, 0) {
        Ok(bound) => bound,
        Err((disk, fault)) => return Err((disk, stop_of(fault))),
    };
    let printed = print(alloc, &bound, sink);
    let disk = bound.disk();
    match printed {
        Ok(()) => Ok(disk),
        Err(stop) => Err((disk, stop)),
    }
}
