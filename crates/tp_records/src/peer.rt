//! What nodes send to one another: associations, records on them, and recovery.
pub(crate) mod bytes;
pub(crate) mod sized;

use crate::DialogueRecord;
use tp_names::{Aaid, BranchId, Mark, Report};
use tp_units::Units;

/// What a question about a branch is answered.
#[derive(Clone, Copy, Debug, PartialEq, Eq)]
pub enum RecState {
    Commit,
    Done(Report),
    Unknown,
    RetryLater,
}

/// A record from node to node. `x` is the caller's mark of an association, `y` the answerer's.
#[derive(Drop)]
pub enum PeerRecord {
    OpenAssoc {
        x: Mark,
        units: Units,
    },
    AcceptAssoc {
        x: Mark,
        y: Mark,
        units: Units,
    },
    ShutAssoc {
        x: Mark,
        y: Option<Mark>,
    },
    OnAssoc {
        x: Mark,
        y: Mark,
        seq: u64,
        rec: DialogueRecord,
    },
    RecReady {
        aaid: Aaid,
        branch: BranchId,
    },
    RecCommit {
        aaid: Aaid,
        branch: BranchId,
    },
    RecReply {
        aaid: Aaid,
        branch: BranchId,
        state: RecState,
    },
    Forget {
        aaid: Aaid,
        branch: BranchId,
    },
}
