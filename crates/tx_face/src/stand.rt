//! Where a root's program stands.
ghost use Rattle.std.specs.Prelude.{◌≡◌};
ghost use Rattle.tx_face.specs.Stands.{stand_of, takes_begin, takes_commit, takes_rollback, takes_finish};
ghost use Rattle.tp_node.specs.State.{state_of};

use tp_model::Phase;
use tp_site::NodeState;

/// Where a root's program stands with its current transaction.
#[derive(Clone, Copy, Debug, PartialEq, Eq)]
pub enum Stand {
    /// There is none.
    Idle,
    /// It is active, and commitment was not asked for.
    Open,
    /// It is active, and commitment was asked for.
    Asked,
    /// It commits or rolls back, and the program is to say that it has finished.
    Owing,
    /// It is ready, commits or rolls back, and nothing is asked of the program.
    Closing,
}

impl Stand {
    /// The stand that a node's state is.
    pub(crate) fn of(state: NodeState) -> Stand
        ensures { result ≡ stand_of (state_of state) }
    {
        match state.phase {
            Phase::Nil => Stand::Idle,
            Phase::Active => {
                if state.asked {
                    Stand::Asked
                } else {
                    Stand::Open
                }
            }
            Phase::Ready => Stand::Closing,
            Phase::Committing | Phase::Rolling => {
                if state.owes {
                    Stand::Owing
                } else {
                    Stand::Closing
                }
            }
        }
    }

    /// Whether `begin` is taken.
    pub fn takes_begin(self) -> bool
        ensures { result ≡ takes_begin self }
    {
        matches!(self, Stand::Idle | Stand::Open)
    }

    /// Whether `commit` is taken.
    pub fn takes_commit(self) -> bool
        ensures { result ≡ takes_commit self }
    {
        matches!(self, Stand::Open)
    }

    /// Whether `rollback` is taken.
    pub fn takes_rollback(self) -> bool
        ensures { result ≡ takes_rollback self }
    {
        matches!(self, Stand::Open | Stand::Asked)
    }

    /// Whether `finish` is taken.
    pub fn takes_finish(self) -> bool
        ensures { result ≡ takes_finish self }
    {
        matches!(self, Stand::Owing)
    }
}
