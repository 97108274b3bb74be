//! The events of one node.
use tp_names::{Addr, Outcome};
use tp_records::{PeerRecord, Request};

/// An event of one node: what its user asks for, a record that arrives from another node, or what happens at its site.
/// An arc is named by its peer's number.
#[derive(Clone, Copy)]
pub enum NodeEvent<'a> {
    /// The node is declared, with its superior's address where it has one.
    Declare { superior: Option<Addr> },
    /// Its user asks for something.
    Do { request: &'a Request },
    /// A record arrives.
    Arrive { from: Addr, rec: &'a PeerRecord },
    /// The association with that peer is lost.
    Lose { peer: u16 },
    /// A heuristic decision is taken.
    Heur { outcome: Outcome },
    /// What that branch owes is given up.
    GiveUp { peer: u16 },
    /// What is waited for is asked for once more.
    Retry,
    /// The oldest kept transaction is let go.
    Purge,
}
