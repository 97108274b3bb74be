//! How a run ends: the status, its exit code, and its text.
use crate::stop::{InputStop, LineStop, ReplayStop, TrialStop};
use std::fmt;
use tp_model::{What, Why};
use tp_streams::Stop;

/// The ending of a run. Lines are numbered from 1, comments too; `faults` is the count of the object
/// that failed, right after the call that failed.
#[derive(Clone, Copy, Debug, PartialEq, Eq)]
pub enum Status {
    /// What the command does is done, and its input was read to its end.
    Ok,
    /// What is done is done, and so many findings were written.
    Findings { n: u64 },
    /// The words ask for no command that is built.
    Usage,
    /// The line at that number is the first that is bad.
    BadInput { at: u64, why: Why },
    /// A count would pass its limit in the line at that number.
    Limit { what: What, at: u64 },
    /// The bytes of the log are no log, or its records do not follow each other; they go wrong at that place.
    Foreign { at: u64 },
    /// The source failed.
    ReadFault { faults: u64 },
    /// The sink failed.
    WriteFault { faults: u64 },
    /// The disk failed.
    DiskFault { faults: u64 },
    /// No memory could be had.
    NoMemory,
}

impl Status {
    ghost use Rattle.std.specs.Prelude.{◌≡◌};
    ghost use Rattle.tp_replay.specs.Status.{code_of, status_of, ended, ended_with, line_status, replay_status, trial_status};

    /// How a run ends that such a stop ends.
    pub fn of_stop(stop: Stop) -> Status
        ensures { result ≡ status_of stop }
    {
        match stop {
            Stop::BadInput { at, why } => Status::BadInput { at, why },
            Stop::Limit { what, at } => Status::Limit { what, at },
            Stop::Foreign { at } => Status::Foreign { at },
            Stop::ReadFault { faults } => Status::ReadFault { faults },
            Stop::WriteFault { faults } => Status::WriteFault { faults },
            Stop::DiskFault { faults } => Status::DiskFault { faults },
            Stop::NoMemory => Status::NoMemory,
        }
    }

    /// How a run ends that a call ends with its answer.
    pub fn of_answer(answer: Result<(), Stop>) -> Status
        ensures { result ≡ ended answer }
    {
        match answer {
            Ok(()) => Status::Ok,
            Err(stop) => Status::of_stop(stop),
        }
    }

    /// The same of a call that answers a number of findings.
    pub fn of_findings(answer: Result<u64, Stop>) -> Status
        ensures { result ≡ ended_with answer }
    {
        match answer {
            Ok(0) => Status::Ok,
            Ok(n) => Status::Findings { n },
            Err(stop) => Status::of_stop(stop),
        }
    }

    fn of_line(stop: LineStop) -> Status
        ensures { result ≡ line_status stop }
    {
        match stop {
            LineStop::BadInput { at, why } => Status::BadInput { at, why },
            LineStop::Limit { what, at } => Status::Limit { what, at },
            LineStop::NoMemory => Status::NoMemory,
        }
    }

    /// How a run ends that a replay ends with its answer.
    pub fn of_replay(answer: Result<(), ReplayStop>) -> Status
        ensures { result ≡ replay_status answer }
    {
        match answer {
            Ok(()) => Status::Ok,
            Err(ReplayStop::Input(InputStop::Line(stop))) => Status::of_line(stop),
            Err(ReplayStop::Input(InputStop::ReadFault { faults })) => Status::ReadFault { faults },
            Err(ReplayStop::WriteFault { faults }) => Status::WriteFault { faults },
        }
    }

    /// The same of a trial.
    pub fn of_trial(answer: Result<(), TrialStop>) -> Status
        ensures { result ≡ trial_status answer }
    {
        match answer {
            Ok(()) => Status::Ok,
            Err(TrialStop::Line(stop)) => Status::of_line(stop),
            Err(TrialStop::WriteFault { faults }) => Status::WriteFault { faults },
        }
    }

    /// The exit code of a program that ends so.
    pub fn code(self) -> u8
        ensures { result ≡ code_of self }
    {
        match self {
            Status::Ok => 0,
            Status::Findings { .. } => 1,
            Status::Usage => 2,
            Status::BadInput { .. } => 3,
            Status::Limit { .. } => 4,
            Status::Foreign { .. } => 5,
            Status::ReadFault { .. } => 6,
            Status::WriteFault { .. } => 7,
            Status::DiskFault { .. } => 8,
            Status::NoMemory => 9,
        }
    }
}

impl fmt::Display for Status {
    fn fmt<W: fmt::Write>(&self, f: &mut fmt::Formatter<W>) -> fmt::Result {
        match self {
            Status::Ok => write!(f, "ok"),
            Status::Findings { n } => write!(f, "findings {n}"),
            Status::Usage => write!(f, "usage"),
            Status::BadInput { at, why } => write!(f, "bad input at {at}: {why}"),
            Status::Limit { what, at } => write!(f, "limit {what} at {at}"),
            Status::Foreign { at } => write!(f, "foreign log at {at}"),
            Status::ReadFault { .. } => write!(f, "read fault"),
            Status::WriteFault { .. } => write!(f, "write fault"),
            Status::DiskFault { .. } => write!(f, "disk fault"),
            Status::NoMemory => write!(f, "no memory"),
        }
    }
}
