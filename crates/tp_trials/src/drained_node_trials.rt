//! Worked examples of what one node of a tree without a failure says and heeds.
//!
//! Each function has an empty body; its clauses are the example.
ghost use Rattle.std.specs.Prelude.{◌≡◌, ◌&&◌, true};
ghost use Rattle.tp_trials.specs.Trials.{holds};
ghost use Rattle.tp_trials.specs.DrainedTrials.{waiting, finishing, drained, is_each, is_unfailed};
ghost use Rattle.tp_trials.specs.DrainedNodeTrials.{waits_for, stands_under, said_ready, said_commit, said_done, said_left, heeded_answer, heeded_order, heeded_done, ended_clear, never_rolled};

/// While the order to the last node is not taken, its superior waits for it on a live arc, and it stands under its superior on
/// a live arc; and what both have heard of the tree is heeded.
pub fn a_node_waits_on_live_arcs()
    ensures unfailed { (is_each is_unfailed waiting && is_each never_rolled waiting) ≡ true }
    ensures branch { holds (waits_for 4) waiting 2 ≡ true }
    ensures superior { holds (stands_under 2) waiting 4 ≡ true }
    ensures answer { holds (heeded_answer 4) waiting 2 ≡ true }
    ensures order { holds (heeded_order 1) waiting 2 ≡ true }
{}

/// A root whose user owes its done took the Done of its branch, which has ended; the branch that left has answered.
pub fn a_branch_that_is_done_has_ended()
    ensures done { holds (heeded_done 2) finishing 1 ≡ true }
    ensures left { holds (heeded_answer 3) finishing 1 ≡ true }
{}

/// In a drained tree the branches said Ready, or that they leave; each order went down, and each Done up, with no report.
pub fn what_the_nodes_of_a_drained_tree_said()
    ensures ready { (holds (said_ready 1) drained 2 && holds (said_ready 2) drained 4) ≡ true }
    ensures left { holds (said_left 1) drained 3 ≡ true }
    ensures orders { (holds (said_commit 2) drained 1 && holds (said_commit 4) drained 2) ≡ true }
    ensures done { (holds (said_done 2) drained 4 && holds (said_done 1) drained 2) ≡ true }
    ensures clear { (holds ended_clear drained 1 && holds ended_clear drained 2) ≡ true }
{}
