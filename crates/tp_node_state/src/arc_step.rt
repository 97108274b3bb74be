//! What a passage of the transaction does to the arcs.
ghost use Rattle.std.specs.Prelude.{◌≡◌};
ghost use Rattle.tp_model.specs.Dialogues.{is_grant_deferred};
ghost use Rattle.tp_model.specs.Transactions.{is_under_at};
ghost use Rattle.tp_model.specs.Node.{is_arc_of, is_granting};
ghost use Rattle.tp_tree.specs.Tie.{arc_of};
ghost use Rattle.tp_node_state.specs.ArcStep.{touched, stepped_tie, stepped_ties, stepped_above, stepped_tree};

use tp_commit::Branch;
use tp_dialogue::Dialogue;
use tp_link::LinkState;
use tp_model::{Deferral, Side};
use tp_names::Outcome;
use tp_tree::{Invocation, Tie};
use tp_units::UNCHAINED;

/// What is done to control, handshakes and deferrals on the arcs of a transaction.
#[derive(Clone, Copy, Debug, PartialEq, Eq)]
pub enum ArcStep {
    /// Ready or committing is entered.
    Enter,
    /// A rollback begins.
    Fall,
    /// A rollback is complete.
    RollBack,
    /// A commitment is complete.
    Commit,
    /// The node leaves.
    Leave,
}

fn is_under_at(branch: &Branch, peer: u16) -> bool
    ensures { result ≡ is_under_at branch.now.key peer }
{
    match branch.superior() {
        None => false,
        Some(superior) => superior.node == peer,
    }
}

#[tactic(auto, unfolding(tp_model::specs::Transactions::situation_of))]
fn is_arc_of(branch: &Branch, tie: &Tie) -> bool
    ensures { result ≡ is_arc_of branch.now (arc_of tie.now) }
{
    branch.has_arc(tie.addr().node)
}

/// A grant is deferred on the arc.
pub(crate) fn is_deferring(tie: &Tie) -> bool
    ensures { result ≡ is_grant_deferred (arc_of tie.now).dialogue.deferral }
{
    tie.dialogue.deferral() == Deferral::Grant
}

/// A deferred grant is given on the arc at a commitment.
#[inline(always)]
pub fn is_granting(branch: &Branch, tie: &Tie) -> bool
    ensures { result ≡ is_granting branch.now (arc_of tie.now) }
{
    is_deferring(tie)
        && tie.dialogue.units().has(UNCHAINED)
        && tie.link.state() == LinkState::Live
        && !is_under_at(branch, tie.addr().node)
        && is_arc_of(branch, tie)
}

impl ArcStep {
    // Of an arc of the transaction.
    #[inline(always)]
    fn touch(self, branch: &Branch, tie: &Tie) -> Dialogue
        ensures { result ≡ record tie.now.dialogue { dialogue = touched self tie.now.dialogue.side branch.now (arc_of tie.now) } }
    {
        let mut dialogue = tie.dialogue;
        match self {
            ArcStep::Enter => dialogue.clear(),
            ArcStep::Fall => {
                dialogue.clear();
                dialogue.forget_deferral();
            }
            ArcStep::RollBack => dialogue.complete(Outcome::Rollback),
            ArcStep::Commit => {
                dialogue.complete(Outcome::Commit);
                if is_granting(branch, tie) {
                    dialogue.grant();
                }
            }
            ArcStep::Leave if is_under_at(branch, tie.addr().node) => dialogue.rest(),
            ArcStep::Leave => dialogue.complete_as(Side::Superior, Outcome::Rollback),
        }
        dialogue
    }

    // Of one arc, where it is the transaction's.
    #[inline(always)]
    fn take_one(self, branch: &Branch, tie: &mut Tie)
        ensures { tie.new ≡ stepped_tie self branch.now tie.old }
    {
        if is_arc_of(branch, tie) {
            tie.dialogue = self.touch(branch, tie);
        }
    }

    // Of each arc, where it is the transaction's.
    fn take(self, branch: &Branch, ties: &mut [Tie])
        ensures { ties.new ≡ stepped_ties self branch.now ties.old }
    {
        for tie in ties.iter_mut() {
            self.take_one(branch, tie);
        }
    }

    // Of the arc to the superior.
    fn take_above(self, branch: &Branch, tree: &mut Invocation)
        ensures { tree.new ≡ record tree.old { above = stepped_above self branch.now tree.old.above } }
    {
        let Some(tie) = tree.above_mut() else {
            return;
        };
        self.take_one(branch, tie);
    }

    /// Of every arc, where it is the transaction's.
    #[inline(always)]
    pub(crate) fn take_tree(self, branch: &Branch, tree: &mut Invocation)
        ensures { tree.new ≡ stepped_tree self branch.now tree.old }
    {
        self.take_above(branch, tree);
        self.take(branch, tree.subordinates_mut());
    }
}
