//! What a user asks of its node.
pub(crate) mod bytes;

use tp_names::{Addr, Octets};

/// A request. Peers are named by number; units may be any bits, and are checked by the node.
#[derive(Drop)]
pub enum Request {
    BeginDialogue { addr: Addr, units: u8 },
    Accept { units: u8 },
    Reject,
    EndDialogue { peer: u16 },
    UserData { peer: u16, octets: Octets },
    UError { peer: u16 },
    UAbort { peer: u16 },
    Grant { peer: u16 },
    AskControl { peer: u16 },
    Handshake { peer: u16 },
    Respond { peer: u16 },
    HandshakeGrant { peer: u16 },
    BeginTransaction { peer: u16 },
    DeferEnd { peer: u16 },
    DeferGrant { peer: u16 },
    Prepare { peer: u16 },
    Commit,
    Done,
    Rollback,
    Unchanged,
}
