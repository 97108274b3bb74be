//! A seal of a log: whose it is, and a sum of the bytes before its closing gate. A log that is shorter than it was sealed, that has other
//! bytes there, or that is another site's, is found by it.
//!
//! A log that grows keeps its seal: what was sealed stays as it is. Before a log is compacted a seal of nothing is put, which every log has, and
//! after that a new one. `SealFile::admit` lets a command at a log, and `SealFile::renew` seals the log after it;
//! `Guard` does so with the seals in a file.
#![tactic(auto)]

mod broken;
mod duty;
mod fault;
mod front;
mod guard;
mod laws;
mod refusal;
mod seal;
mod seal_file;
mod text;

pub use broken::Broken;
pub use duty::Duty;
pub use fault::SealFault;
pub use guard::{Barred, Guard};
pub use laws::{a_log_that_a_call_left_keeps_its_seal, a_log_that_grew_keeps_its_seal};
pub use refusal::Refusal;
pub use seal::Seal;
pub use seal_file::SealFile;
