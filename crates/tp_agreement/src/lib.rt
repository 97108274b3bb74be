//! Laws over every run of how a tree ends: between a node and its branches, and of all its nodes.
//!
//! Each is the contract of a function with an empty body.
#![tactic(auto)]

ghost use Rattle.std.specs.Prelude.{List};
ghost use Rattle.tp_model.specs.Happenings.{Happening, run};
ghost use Rattle.tp_agreement.specs.Hanging.{ReadyDown, LeftDown, RollsUp};

// Promise 16.23: A ready branch rolls only with its superior
/// In every run, a ready branch rolls only with its superior: where a node logged Ready for the identifier of its branch and
/// rolled in the tree, its superior rolled in it too.
pub fn a_ready_branch_rolls_with_its_superior()
    ensures { (es : List Happening) → RollsUp (run es) }
{}

// Promise 16.25: Where a node left a tree, each of its branches left
/// In every run, leaving goes down: where a node left a tree, each of its branches did.
pub fn leaving_goes_down()
    ensures { (es : List Happening) → LeftDown (run es) }
{}

// Promise 16.21: Where a node logged Ready or Commit, each of its branches logged Ready or left
/// In every run, Ready goes down: where a node logged Ready or Commit of a tree, each of its branches logged Ready for its own
/// identifier, or left.
pub fn readiness_goes_down()
    ensures { (es : List Happening) → ReadyDown (run es) }
{}
