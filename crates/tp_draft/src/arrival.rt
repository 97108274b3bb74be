//! Records that arrive and are not refused.
ghost use Rattle.std.specs.Prelude.{◌≡◌, None};
ghost use Rattle.tp_records.specs.declared.peer.PeerRecord.{PeerRecord};
ghost use Rattle.std.specs.Option.{option_map};
ghost use Rattle.tp_model.specs.Arcs.{find_arc};
ghost use Rattle.tp_model.specs.Arrivals.{refused_arrival, do_arrival, sight_at};
ghost use Rattle.tp_model.specs.Disposition.{sight_value};
ghost use Rattle.tp_node.specs.NodeEvent.{sight_from};
ghost use Rattle.tp_draft.specs.Draft.{Plays};

use crate::draft::Draft;
use std::alloc::Global;
use tp_model::Disposition;
use tp_names::{Addr, Mark};
use tp_node::Halt;
use tp_records::{DialogueRecord, PeerRecord};
use tp_units::Units;

impl Draft {
    // The superior offers a dialogue, where there is none with it.
    #[tactic(auto, using(crate::proofs::Arriving::open_declared, crate::proofs::Arriving::open_side, crate::proofs::Arriving::open_alone))]
    fn open_from(&mut self, from: Addr, x: Mark, units: Units) -> Result<(), Halt>
        requires { refused_arrival self.old.who self.old.move.next from (PeerRecord.OpenAssoc x units) ≡ None }
        ensures { Plays result self.old self.new (λ who. do_arrival who from (PeerRecord.OpenAssoc x units)) }
    {
        match self.node().find(from.node) {
            None => self.take_open(from, x, units),
            Some(_) => unreachable!(),
        }
    }

    // The peer answers the call with that mark.
    #[tactic(auto, using(crate::proofs::Arriving::accept_opening, crate::proofs::Arriving::accept_there))]
    fn accept_from(
        &mut self,
        alloc: Global,
        from: Addr,
        x: Mark,
        y: Mark,
        units: Units,
    ) -> Result<(), Halt>
        requires { refused_arrival self.old.who self.old.move.next from (PeerRecord.AcceptAssoc x y units) ≡ None }
        ensures { Plays result self.old self.new (λ who. do_arrival who from (PeerRecord.AcceptAssoc x y units)) }
    {
        match self.node().find(from.node) {
            None => Ok(()),
            Some(tie) => self.take_accept(alloc, &tie, x, y, units),
        }
    }

    // A record comes on the association with that pair.
    fn take_from(
        &mut self,
        alloc: Global,
        from: &Addr,
        seen: Option<Disposition>,
        x: &Mark,
        y: &Mark,
        seq: u64,
        rec: &DialogueRecord,
    ) -> Result<(), Halt>
        requires refused { refused_arrival self.old.who self.old.move.next from.now (PeerRecord.OnAssoc x.now y.now seq rec.now) ≡ None }
        requires seen { option_map sight_value seen
            ≡ option_map (λ a. sight_at self.old.who self.old.move.next a rec.now) (find_arc self.old.move.next.arcs from.now.node) }
        ensures { Plays result self.old self.new (λ who. do_arrival who from.now (PeerRecord.OnAssoc x.now y.now seq rec.now)) }
    {
        match seen {
            None => Ok(()),
            Some(disposition) => self.take_on(alloc, from, disposition, x, y, seq, rec),
        }
    }

    /// A record that is not refused is taken.
    pub(crate) fn do_arrival(
        &mut self,
        alloc: Global,
        from: &Addr,
        rec: &PeerRecord,
        seen: Option<Disposition>,
    ) -> Result<(), Halt>
        requires refused { refused_arrival self.old.who self.old.move.next from.now rec.now ≡ None }
        requires seen { option_map sight_value seen ≡ sight_from self.old.who self.old.move.next from.now rec.now }
        ensures { Plays result self.old self.new (λ who. do_arrival who from.now rec.now) }
    {
        match rec {
            PeerRecord::OpenAssoc { x, units } => self.open_from(*from, *x, *units),
            PeerRecord::AcceptAssoc { x, y, units } => {
                self.accept_from(alloc, *from, *x, *y, *units)
            }
            PeerRecord::ShutAssoc { y, .. } => self.take_shut(alloc, from.node, *y),
            PeerRecord::OnAssoc { x, y, seq, rec } => {
                self.take_from(alloc, from, seen, x, y, *seq, rec)
            }
            PeerRecord::RecReady { aaid, branch } => self.take_question(*from, *aaid, *branch),
            PeerRecord::RecCommit { aaid, branch } => {
                self.take_order(alloc, *from, *aaid, *branch)
            }
            PeerRecord::RecReply {
                aaid,
                branch,
                state,
            } => self.take_reply(alloc, *from, *aaid, *branch, *state),
            PeerRecord::Forget { aaid, branch } => self.take_forget_of(alloc, aaid, branch),
        }
    }
}
