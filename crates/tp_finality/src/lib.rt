//! A tree that was settled once has committed for good: a failure that comes later does not touch it, nor one that came at its
//! nodes before the tree, or of another dialogue.
//!
//! Each law is the contract of a function with an empty body.
#![tactic(auto)]

ghost use Rattle.std.specs.Prelude.{List};
ghost use Rattle.tp_model.specs.Happenings.{Happening};
ghost use Rattle.tp_finality.specs.Lasting.{CommittedForGood, ClosedForGood};

/// Where at some time of a run a tree was drained, nothing had failed in it until then while it was current at its nodes, and each
/// user had asked for commitment, or left: whatever happens after that, crashes, lost associations and nodes that enter the tree with it, each node
/// of the tree that stays has logged Commit, and was told that it is complete, with no report; and its closing line says so.
pub fn a_settled_tree_has_committed_for_good()
    // Promise 16.56 [tp_finality/specs/Lasting.antt, clauses nodes line]: **A tree that was so once
    //   has committed for good**: whatever happens after that, also to nodes that enter it then,
    //   each node that stays has committed with no report, and the closing line says so
    ensures nodes { (more es : List Happening) → CommittedForGood more es }
    ensures line { (more es : List Happening) → ClosedForGood more es }
{}
