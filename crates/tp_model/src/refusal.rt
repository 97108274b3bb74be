//! The refusals of the service, and which of several is answered.
ghost use Rattle.std.specs.Prelude.{◌≡◌};
ghost use Rattle.tp_model.specs.Dialogues.{first};
ghost use Rattle.tp_model.specs.Requests.{least};
ghost use Rattle.tp_model.specs.Refusal.{number_of};

use thiserror::Error;

/// Why a request, a local event or a record that arrives is refused. Each has its number, which a user and a
/// transcript see.
#[derive(Clone, Copy, Debug, PartialEq, Eq, Error)]
pub enum Refusal {
    #[error("there is no live dialogue with the peer, or no offered one")]
    NoDialogue,
    #[error("not in this phase")]
    WrongPhase,
    #[error("the end does not hold control, or holds it already")]
    WrongControl,
    #[error("a functional unit is missing, or the side is the wrong one")]
    UnitAbsent,
    #[error("a handshake is open at this end")]
    HandshakeOpen,
    #[error("there is no transaction, or the arc is no branch of it")]
    NoTransaction,
    #[error("there is a transaction, or the arc is a branch of it")]
    TransactionOpen,
    #[error("nobody asked for it: no prepare, no handshake")]
    NotAsked,
    #[error("it was asked already, or work on the branch is closed")]
    AlreadyAsked,
    #[error("only a ready node decides")]
    NotInReady,
    #[error("the node has decided")]
    AlreadyDecided,
    #[error("nothing is owed, or nothing is to be said")]
    NothingOwed,
    #[error("too many subordinates, or too many octets")]
    TooMany,
    #[error("no transaction is kept")]
    NotKept,
    #[error("something is still owed, or a branch has not left")]
    StillOwed,
    #[error("the node was not declared since the site was started")]
    NoNode,
    #[error("a mark or a sequence number is wanted and none is left")]
    NumbersSpent,
    #[error("the record belongs to no association of now")]
    OldAssociation,
    #[error("the record is not the next one of its association")]
    OutOfOrder,
    #[error("wrong site, node or sender")]
    WrongSite,
    #[error("nobody may send this record now")]
    OutOfPhase,
    #[error("the octets are not exactly one record")]
    BadRecord,
}

impl Refusal {
    /// Its number: from 1 to 17 of what a user asks and of what happens at the node, from 21 to 25 of a record
    /// that arrives; 17 of both.
    pub fn number(self) -> u8
        ensures { result ≡ number_of self }
    {
        match self {
            Refusal::NoDialogue => 1,
            Refusal::WrongPhase => 2,
            Refusal::WrongControl => 3,
            Refusal::UnitAbsent => 4,
            Refusal::HandshakeOpen => 5,
            Refusal::NoTransaction => 6,
            Refusal::TransactionOpen => 7,
            Refusal::NotAsked => 8,
            Refusal::AlreadyAsked => 9,
            Refusal::NotInReady => 10,
            Refusal::AlreadyDecided => 11,
            Refusal::NothingOwed => 12,
            Refusal::TooMany => 13,
            Refusal::NotKept => 14,
            Refusal::StillOwed => 15,
            Refusal::NoNode => 16,
            Refusal::NumbersSpent => 17,
            Refusal::OldAssociation => 21,
            Refusal::OutOfOrder => 22,
            Refusal::WrongSite => 23,
            Refusal::OutOfPhase => 24,
            Refusal::BadRecord => 25,
        }
    }

    /// The refusal of the first test that holds.
    pub fn first(tests: &[(bool, Refusal)]) -> Option<Refusal>
        ensures { result ≡ first tests.now }
    {
        for test in tests {
            if test.0 {
                return Some(test.1);
            }
        }
        None
    }

    /// The one with the lesser number, where both apply; else the one that does.
    pub fn least(a: Option<Refusal>, b: Option<Refusal>) -> Option<Refusal>
        ensures { result ≡ least a b }
    {
        match (a, b) {
            (None, other) | (other, None) => other,
            (Some(a), Some(b)) => Some(if b.number() < a.number() { b } else { a }),
        }
    }
}
