//! What a drive answers.

use crate::outputs::OutputsByEvent;
use tp_journal::{Journal, Receipt, Receipts};
use tp_outside::Disk;
use tp_site::StartFault;

/// What the workers did. The log is open.
#[derive(Drop)]
pub struct Driven<D: Disk> {
    /// The outputs of each event.
    pub outs: OutputsByEvent,
    /// The new records after the boot, each with its place.
    pub receipts: Receipts,
    pub journal: Journal<D>,
}

/// Why the workers did not do all events: the first of these that applies.
#[derive(Drop)]
pub enum DriveFault {
    /// The site did not start.
    Start {
        fault: StartFault,
    },
    /// The log has another record at that place than the receipt tells. `drive` never answers so: its log has each record at the
    /// place that its receipt tells.
    LogDiffers {
        place: u64,
        receipt: Receipt,
        kept: Receipt,
    },
    /// The disk failed when records were settled, and the log is shut with that count of faults.
    DiskFault {
        faults: u64,
    },
    /// Lanes stopped since a record had no room: the log would have had so many bytes. The event is the first at which a lane
    /// stopped, from 1.
    Full {
        size: u64,
        event: u64,
    },
    /// No memory could be had.
    NoMemory,
}
