//! What comes of a record that a node takes on an association.
ghost use Rattle.std.specs.Prelude.{◌≡◌};
ghost use Rattle.tp_model.specs.Arrivals.{sight_of_begin, sight_at, branch_key};
ghost use Rattle.tp_model.specs.Node.{side_at};
ghost use Rattle.tp_tree.specs.Tie.{arc_of};
ghost use Rattle.tp_model.specs.Disposition.{sight_value};
ghost use Rattle.tp_dialogue.specs.Kinds.{heard_value};
ghost use Rattle.tp_node.specs.Sights.{heard_at, which_from};

use crate::node::Node;
use tp_dialogue::Heard;
use tp_model::{Disposition, Phase, Side};
use tp_names::{Aaid, BranchId, NodeKey};
use tp_records::DialogueRecord;
use tp_tree::Tie;
use tp_units::COMMIT;

impl Node {
    // Of a record that the dialogue judges.
    fn disposition_heard(&self, tie: &Tie, kind: Heard) -> Disposition
        requires { tie.now.dialogue.side ≡ side_at self.now.digest (arc_of tie.now).peer.node }
        ensures { sight_value result ≡ heard_at self.now.who self.now.digest (arc_of tie.now) (heard_value kind) }
    {
        let situation = self.situation(tie.addr().node);
        tie.dialogue.disposition(&situation, kind)
    }

    // Of the superior's Begin.
    fn disposition_of_begin(&self, tie: &Tie, aaid: &Aaid, branch: &BranchId) -> Disposition
        ensures { sight_value result ≡ sight_of_begin self.now.digest (arc_of tie.now) (branch_key aaid.now branch.now) }
    {
        let key = NodeKey {
            aaid: *aaid,
            branch: Some(*branch),
        };
        if self.phase() == Phase::Nil && tie.dialogue.units().has(COMMIT) && !self.is_kept(&key) {
            Disposition::Acts
        } else {
            Disposition::OutOfPhase
        }
    }

    // Of a record that comes from that side alone.
    fn disposition_from(&self, from: Side, tie: &Tie, other: Disposition) -> Disposition
        ensures { sight_value result ≡ which_from from self.now.digest (arc_of tie.now) (sight_value other) }
    {
        // The node's own side is the other one.
        if self.side(tie.addr().node) == from {
            Disposition::OutOfPhase
        } else {
            other
        }
    }

    // Promise 10.13, part 3
    /// What comes of a record on that arc.
    #[inline(always)]
    #[tactic(auto, using(crate::proofs::Sights::sight_is))]
    pub fn disposition(&self, tie: &Tie, rec: &DialogueRecord) -> Disposition
        requires { tie.now.dialogue.side ≡ side_at self.now.digest (arc_of tie.now).peer.node }
        ensures { sight_value result ≡ sight_at self.now.who self.now.digest (arc_of tie.now) rec.now }
    {
        match rec {
            DialogueRecord::EndDialogue => self.disposition_heard(tie, Heard::End),
            DialogueRecord::UserData { .. } => self.disposition_heard(tie, Heard::Data),
            DialogueRecord::UError => self.disposition_heard(tie, Heard::Error),
            DialogueRecord::UAbort => Disposition::Acts,
            DialogueRecord::Grant => self.disposition_heard(tie, Heard::Grant),
            DialogueRecord::AskControl => self.disposition_heard(tie, Heard::Control),
            DialogueRecord::Handshake => self.disposition_heard(tie, Heard::Handshake),
            DialogueRecord::HandshakeGrant => self.disposition_heard(tie, Heard::HandshakeGrant),
            DialogueRecord::Response => self.disposition_heard(tie, Heard::Response),
            DialogueRecord::DeferEnd => self.disposition_heard(tie, Heard::DeferEnd),
            DialogueRecord::DeferGrant => self.disposition_heard(tie, Heard::DeferGrant),
            DialogueRecord::Begin { aaid, branch, .. } => {
                self.disposition_from(
                    Side::Superior,
                    tie,
                    self.disposition_of_begin(tie, aaid, branch),
                )
            }
            DialogueRecord::Prepare => self.disposition_from(
                Side::Superior,
                tie,
                self.disposition_of_current(tie, rec, Disposition::OutOfPhase),
            ),
            DialogueRecord::Commit => self.disposition_from(
                Side::Superior,
                tie,
                self.disposition_of_current(tie, rec, Disposition::Nothing),
            ),
            DialogueRecord::Rollback => self.disposition_of_current(tie, rec, Disposition::Nothing),
            DialogueRecord::Ready | DialogueRecord::Left | DialogueRecord::LeftEnd =>
                self.disposition_from(
                    Side::Subordinate,
                    tie,
                    self.disposition_of_current(tie, rec, Disposition::OutOfPhase),
                ),
            DialogueRecord::Done { .. } | DialogueRecord::RolledBack { .. } =>
                self.disposition_from(
                    Side::Subordinate,
                    tie,
                    self.disposition_of_current(tie, rec, Disposition::Nothing),
                ),
        }
    }
}
