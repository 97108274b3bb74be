//! The commands over schedules: `replay`, whose members drive nodes of the world, `make`, and `trial`, which replays a made
//! schedule in memory.
//!
//! [`replay()`] plays the lines of a source and writes the transcript, line by line. [`participants`] are the members of the
//! program: member 1 is willing, member 2 unwilling, and member 3 a store, which [`open_store`] starts. [`make_schedule`]
//! writes the schedule of a number, and [`try_schedule`] what its replay came to. [`Status`] is how a run of the program ends,
//! of these commands and of all others.
#![tactic(auto)]

mod held;
mod making;
mod output;
mod participant;
mod playing;
mod replaying;
mod status;
mod stop;
mod storing;
mod trial;
mod voter;

pub use making::make_schedule;
pub use participant::{Participant, participants};
pub use replaying::replay;
pub use status::Status;
pub use stop::{InputStop, LineStop, ReplayStop, TrialStop};
pub use storing::{open_store, status_of};
pub use trial::try_schedule;
pub use voter::Voter;
