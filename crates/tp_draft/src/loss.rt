//! Associations that end.
ghost use Rattle.std.specs.Prelude.{◌≡◌};
ghost use Rattle.tp_model.specs.Arrivals.{take_shut, broken_pair, break_off};
ghost use Rattle.tp_draft.specs.Draft.{Plays};
ghost use Rattle.tp_draft.specs.Calls.{breaking};

use crate::draft::Draft;
use std::alloc::Global;
use tp_model::TxOut;
use tp_names::{Addr, Mark};
use tp_node::Halt;
use tp_records::{Indication, PeerRecord};

impl Draft {
    /// The peer shuts the association: it rejects the dialogue, or ends it.
    pub(crate) fn take_shut(
        &mut self,
        alloc: Global,
        peer: u16,
        y: Option<Mark>,
    ) -> Result<(), Halt>
        ensures { Plays result self.old self.new (λ who. take_shut who peer y) }
    {
        match y {
            Some(_) => self.lose(alloc, peer),
            None => {
                let told = TxOut::Tell(Indication::Rejected { peer });
                self.perform(alloc, &[TxOut::Close { arc: peer }, told])
            }
        }
    }

    // The association with that pair is shut, and the loss follows.
    fn break_pair(&mut self, alloc: Global, from: Addr, x: Mark, y: Mark) -> Result<(), Halt>
        ensures { Plays result self.old self.new (breaking from x y) }
    {
        let peer = from.node;
        let rec = PeerRecord::ShutAssoc { x, y: Some(y) };
        if let Err(halt) = self.send(from, rec) {
            return Err(halt);
        }
        self.lose(alloc, peer)
    }

    /// The association ends on which a record came out of phase: it is shut with its pair, and the loss follows.
    pub(crate) fn break_off(
        &mut self,
        alloc: Global,
        from: Addr,
        rec: &PeerRecord,
    ) -> Result<(), Halt>
        ensures { Plays result self.old self.new (λ who. break_off who from rec.now) }
    {
        match broken_pair(rec) {
            None => Ok(()),
            Some((x, y)) => self.break_pair(alloc, from, x, y),
        }
    }
}

/// The pair of the association that the record came on, or binds.
pub(crate) fn broken_pair(rec: &PeerRecord) -> Option<(Mark, Mark)>
    ensures { result ≡ broken_pair rec.now }
{
    match rec {
        PeerRecord::AcceptAssoc { x, y, .. } | PeerRecord::OnAssoc { x, y, .. } => Some((*x, *y)),
        _ => None,
    }
}
