//! How the lanes ended, all of them together.
ghost use Rattle.std.specs.Prelude.{◌≡◌};
ghost use Rattle.tp_drive.specs.Endings.{EndsSo};

use crate::stop::{Cause, Stop};

/// How the lanes ended.
#[derive(Clone, Copy, Debug, PartialEq, Eq)]
pub enum Ended {
    /// No lane stopped.
    All,
    /// Lanes stopped, and each for lack of memory.
    NoMemory,
    /// The least event at which a lane stopped for another cause.
    Stopped(u64),
}

impl Ended {
    ghost use Rattle.tp_drive.specs.Endings.{ended_after};

    // With one lane more, which stopped there or not at all.
    fn after(self, stop: Option<Stop>) -> Ended
        ensures { result ≡ ended_after self stop }
    {
        let Some(stop) = stop else {
            return self;
        };
        match (stop.cause, self) {
            (Cause::Memory, Ended::All) => Ended::NoMemory,
            (Cause::Memory, _) => self,
            (_, Ended::Stopped(event)) if event <= stop.event => self,
            _ => Ended::Stopped(stop.event),
        }
    }
}

/// How lanes ended that stopped there, or not at all.
pub fn ending_of(stops: &[Option<Stop>]) -> Ended
    ensures { EndsSo stops.now result }
{
    let mut ended = Ended::All;
    for i in 0..stops.len() {
        ended = ended.after(stops[i]);
    }
    ended
}
