//! What the two ends of a dialogue send to one another.
pub(crate) mod bytes;

use tp_names::{Aaid, BranchId, Octets, Report};

/// Who holds control of a dialogue on which a transaction begins; nobody where it is shared.
#[derive(Clone, Copy, Debug, PartialEq, Eq)]
pub enum Holder {
    None,
    Superior,
    Subordinate,
}

/// A record of a dialogue.
#[derive(Drop)]
pub enum DialogueRecord {
    EndDialogue,
    UserData {
        octets: Octets,
    },
    UError,
    UAbort,
    Grant,
    AskControl,
    Handshake,
    HandshakeGrant,
    Response,
    DeferEnd,
    DeferGrant,
    Begin {
        aaid: Aaid,
        branch: BranchId,
        holder: Holder,
    },
    Prepare,
    Ready,
    Commit,
    Done {
        report: Report,
    },
    Rollback,
    RolledBack {
        report: Report,
    },
    Left,
    LeftEnd,
}
