//! What a transaction sees of the arcs of its node.
ghost use Rattle.std.specs.Prelude.{◌≡◌, ℕ, List};
ghost use Rattle.tp_model.specs.Arcs.{is_live_with_peer};
ghost use Rattle.tp_model.specs.Node.{is_end_deferred_at, is_up_live, is_up_ending, branches_of, seen_rows, seen};
ghost use Rattle.tp_node.specs.Node.{arcs_in, current_of};

use tp_commit::Branch;
use tp_link::LinkState;
use tp_model::Deferral;
use tp_node_state::SharedArcs;

// Whether the arc with that peer is live, and whether an end is deferred on it. The arc of a branch stands at the place of
// the branch where all subordinates are branches, each begun in turn.
#[inline(always)]
fn look_at(arcs: &Option<SharedArcs>, place: usize, peer: u16) -> (bool, bool)
    ensures live { result.0 ≡ is_live_with_peer (arcs_in arcs.now) peer }
    ensures ends { result.1 ≡ is_end_deferred_at (arcs_in arcs.now) peer }
{
    let Some(arcs) = arcs else {
        return (false, false);
    };
    match arcs.near(place, peer) {
        None => (false, false),
        Some(tie) => (
            tie.link.state() == LinkState::Live,
            tie.dialogue.deferral() == Deferral::End,
        ),
    }
}

fn see_superior(node: u16, arcs: &Option<SharedArcs>, branch: &mut Branch)
    ensures { branch.new ≡ record branch.old
        { node = node; up = is_up_live (arcs_in arcs.now) branch.old.key; up_ends = is_up_ending (arcs_in arcs.now) branch.old.key } }
{
    match branch.superior() {
        None => branch.see_superior(node, false, false),
        Some(superior) => {
            let (live, ends) = look_at(arcs, 0, superior.node);
            branch.see_superior(node, live, ends);
        }
    }
}

fn see_branches(arcs: &Option<SharedArcs>, branch: &mut Branch)
    ensures { branch.new ≡ record branch.old { rows = seen_rows (arcs_in arcs.now) (branches_of branch.old.rows) } }
{
    for i in 0..branch.branches() {
        let peer = branch.branch_peer(i);
        let seen = look_at(arcs, i, peer.node);
        branch.see_branch(i, seen.0, seen.1);
    }
}

/// A transaction of that node sees its arcs anew.
pub(crate) fn see(node: u16, arcs: &Option<SharedArcs>, branch: &mut Branch)
    ensures { (site : List ℕ) → branch.new ≡ seen (record { site = site; node = node }) (arcs_in arcs.now) (current_of branch.old) }
{
    see_superior(node, arcs, branch);
    see_branches(arcs, branch);
}
