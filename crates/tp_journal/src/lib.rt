//! A log on a disk: bodies after gates that are opened one at a time, once what they guard is on the disk.
//!
//! `Gates` keeps bodies of any bytes; the records of a site stand above it.
#![tactic(auto)]

mod disorder;
mod faults;
mod gates;
mod gathering;
mod journal;
mod keeper;
mod laws;
mod lengths;
mod log;
mod opening;
mod read;
mod receipts;
mod records;
mod shelf;
mod tape;

pub use disorder::first_out_of_order;
pub use faults::{CompactFault, ForceFault, StartFault};
pub use gates::Gates;
pub use gathering::Gathering;
pub use journal::{Journal, format};
pub use keeper::{Keeper, Settles};
pub use laws::{
    a_log_stands_for_its_records, a_log_stands_for_one_list, foreign_bytes_stand_for_nothing,
};
pub use log::MOST_BYTES;
pub use receipts::{Receipt, Receipts};
