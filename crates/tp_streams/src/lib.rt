//! What the programs that read frames share: whole frames and events out of a source, and whole writes into a sink.
//!
//! [`Intake`] hands out the bodies of a stream of frames, in whatever pieces the stream comes, and [`EventIntake`] the
//! events that they say, up to the limits of a program. [`Stop`] is what ends such a program.
#![tactic(auto)]

mod event_intake;
mod feed;
mod intake;
pub mod laws;
mod output;
mod stop;

pub use event_intake::EventIntake;
pub use intake::Intake;
pub use output::write_all;
pub use stop::Stop;
