//! What stops a replay before the end of its schedule.
use tp_model::{What, Why};

/// What stops a replay in a line. Lines are numbered from 1, comments too.
#[derive(Clone, Copy)]
pub enum LineStop {
    /// The line at that number is the first that is bad.
    BadInput { at: u64, why: Why },
    /// A count would pass its limit in the line at that number.
    Limit { what: What, at: u64 },
    /// No memory could be had.
    NoMemory,
}

/// What stops the reading of a schedule.
#[derive(Clone, Copy)]
pub enum InputStop {
    /// It stops in a line.
    Line(LineStop),
    /// The source failed: its count, right after the call that failed.
    ReadFault { faults: u64 },
}

/// The sink failed: its count, right after the call that failed.
#[derive(Clone, Copy)]
pub struct WriteFault {
    pub faults: u64,
}

/// What stops a replay.
#[derive(Clone, Copy)]
pub enum ReplayStop {
    /// Its schedule is not read to the end.
    Input(InputStop),
    /// The sink failed: its count, right after the call that failed.
    WriteFault { faults: u64 },
}

/// What stops a trial.
#[derive(Clone, Copy)]
pub enum TrialStop {
    /// The replay stops in a line.
    Line(LineStop),
    /// The sink failed: its count, right after the call that failed.
    WriteFault { faults: u64 },
}
