//! Worked examples of the page's refinement, computed by the prover from the definitions: in each of these runs a node does one of the
//! seven things that the page has. Each is the contract of a function with an empty body.
#![tactic(auto)]

ghost use Rattle.tp_refinement_trials.specs.RefinementTrials.{Enter, Vote_ready, Leave, Commit, Roll_back, Decide, Complete};

/// In one of these runs a root and its branch enter a tree, in others the branch votes, leaves, commits with its superior, also after its
/// site stopped, rolls back with it, and decides against it; and in one all of three levels complete their commitment.
pub fn each_action_is_in_a_run()
    ensures enter { Enter }
    ensures vote { Vote_ready }
    ensures leave { Leave }
    ensures commit { Commit }
    ensures roll_back { Roll_back }
    ensures decide { Decide }
    ensures complete { Complete }
{}
