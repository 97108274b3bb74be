//! What is asked of a node's current transaction, and what it answers. An arc is named by its
//! peer's number.
use crate::TxOuts;
use thiserror::Error;
use tp_logrec::LogRec;
use tp_names::{Addr, BranchId, Children, NoMemory, Outcome};
use tp_records::{DialogueRecord, Indication, PeerRecord, RecState, Request};

/// An event of the current transaction.
#[derive(Drop)]
pub enum TxEvent {
    Begun { arcs: Children },
    User(Request),
    Took { arc: u16, rec: DialogueRecord },
    Lost { arc: u16 },
    Heur(Outcome),
    GiveUp { arc: u16 },
    Ordered,
    Reply { branch: BranchId, state: RecState },
    Retry,
}

/// An output of a transaction. The site numbers what is carried, and shuts and closes arcs.
#[derive(Drop)]
pub enum TxOut {
    Tell(Indication),
    Carry { arc: u16, rec: DialogueRecord },
    Shut { arc: u16 },
    Recovery { to: Addr, rec: PeerRecord },
    Close { arc: u16 },
}

/// What an event of a transaction asks for: at most one record, and outputs in order.
#[derive(Drop)]
pub struct Step {
    pub rec: Option<LogRec>,
    pub outs: TxOuts,
}

/// Why an event of a transaction has no step.
#[derive(Clone, Copy, Debug, PartialEq, Eq, Error)]
pub enum TxFault {
    /// It is refused by that number, and changes nothing.
    #[error("refused {0}")]
    Refused(u8),
    /// No memory could be had; nothing is changed.
    #[error("no memory")]
    NoMemory,
}

impl From<NoMemory> for TxFault {
    ghost use Rattle.std.specs.Prelude.{◌≡◌};
    ghost use Rattle.tp_model.specs.declared.transaction.TxFault.{TxFault};

    ghost from_gives = { λ _ e. e ≡ TxFault.NoMemory };

    fn from(_error: NoMemory) -> TxFault {
        TxFault::NoMemory
    }
}
