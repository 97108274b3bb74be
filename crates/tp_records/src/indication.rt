//! What a node tells its user.
pub(crate) mod bytes;

use tp_names::{Aaid, Octets, Report};
use tp_units::Units;

/// An indication, or the confirmation of a request.
#[derive(Drop)]
pub enum Indication {
    BeginDialogue { peer: u16, units: Units },
    BegunDialogue { peer: u16, units: Units },
    Rejected { peer: u16 },
    EndDialogue { peer: u16 },
    UserData { peer: u16, octets: Octets },
    UError { peer: u16 },
    UAbort { peer: u16 },
    PAbort { peer: u16 },
    Grant { peer: u16 },
    AskControl { peer: u16 },
    Handshake { peer: u16 },
    HandshakeConfirm { peer: u16 },
    HandshakeGrant { peer: u16 },
    BeginTransaction { peer: u16, aaid: Aaid },
    DeferEnd { peer: u16 },
    DeferGrant { peer: u16 },
    Prepare,
    Ready { peer: u16 },
    Commit,
    CommitComplete { report: Report },
    Rollback,
    RollbackComplete { report: Report },
    HeuristicReport { peer: u16, report: Report },
    Left { peer: u16 },
}
