//! Names of sites, marks, identifiers, reports, and lists of octets and of children.
//!
//! Plain values that every other crate speaks of, and their bytes both ways: a `Cursor` reads them
//! from the front of bytes, and `write_site` and its like write them at the end of octets.
//! Nothing here knows of records or a log.
#![tactic(auto)]

mod bad_bytes;
mod children;
mod counter;
mod identifiers;
mod laws;
mod no_memory;
mod octets;
mod outcome;
mod reading;
pub mod same;
mod sequence;
mod site_name;
mod writing;

pub use bad_bytes::{BadBytes, ReadFault, RecordFault};
pub use children::{Child, Children};
pub use counter::{Counter, NumbersSpent, marks_are_drawn_once};
pub use identifiers::{Aaid, Addr, BranchId, Mark, NodeKey};
pub use laws::{values_are_scanned, values_are_written};
pub use no_memory::NoMemory;
pub use octets::Octets;
pub use outcome::{Outcome, Report, reports_join};
pub use reading::Cursor;
pub use sequence::Sequence;
pub use site_name::SiteName;
pub use writing::{
    write_aaid, write_addr, write_branch, write_byte, write_child, write_key, write_long,
    write_mark, write_maybe_addr, write_maybe_branch, write_maybe_mark, write_octets,
    write_outcome, write_report, write_short, write_site,
};
