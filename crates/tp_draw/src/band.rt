//! What the records of a node say.
ghost use Rattle.std.specs.Prelude.{◌≡◌};
ghost use Rattle.tp_draw.specs.Bands.{band_of, turned, restarted};

use crate::Turn;
use tp_names::Outcome;

/// What the records of a node say at a line.
#[derive(Clone, Copy)]
pub(crate) enum Band {
    /// It has no record in the log, and is not told to roll back.
    Quiet,
    /// It is ready, and knows no outcome.
    InDoubt,
    /// It is committed.
    Committed,
    /// It has rolled back, and keeps damage.
    RolledBack,
    /// Its user is told to roll back, and it has no record in the log.
    Rolling,
}

/// The band of a node that has this outcome.
pub(crate) fn band_of(outcome: Outcome) -> Band
    ensures { result ≡ band_of outcome }
{
    match outcome {
        Outcome::Commit => Band::Committed,
        Outcome::Rollback => Band::RolledBack,
    }
}

/// The band after that turn.
pub(crate) fn turned(turn: Turn, band: Band) -> Band
    ensures { result ≡ turned turn band }
{
    match turn {
        Turn::Holds { band: held } => held,
        Turn::Rolls => match band {
            Band::Quiet => Band::Rolling,
            _ => band,
        },
        Turn::Completes => match band {
            Band::Rolling => Band::Quiet,
            _ => band,
        },
    }
}

/// The band after a start of the site.
pub(crate) fn restarted(band: Band) -> Band
    ensures { result ≡ restarted band }
{
    match band {
        Band::Rolling => Band::Quiet,
        _ => band,
    }
}
