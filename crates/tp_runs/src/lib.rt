//! Laws of every run of a world: who enters a tree and how it hangs together, what users see, what leaves and rolls, and
//! what a superior takes from its branches. Each is the contract of a function with an empty body.
#![tactic(auto)]

ghost use Rattle.std.specs.Prelude.{◌≡◌, List, true, false};
ghost use Rattle.tp_names.specs.declared.identifiers.Aaid.{Aaid};
ghost use Rattle.tp_names.specs.declared.identifiers.BranchId.{BranchId};
ghost use Rattle.tp_model.specs.Happenings.{Happening, run};
ghost use Rattle.tp_model.specs.Promises.{IsOf, IsBranchOf, is_of_tree, has_logged};
ghost use Rattle.tp_model.specs.World.{Node};
ghost use Rattle.tp_model.specs.Outcomes.{decided, rolled, has_left};
ghost use Rattle.tp_histories.specs.Worlds.{IsGood};
ghost use Rattle.tp_runs.specs.Heeded.{HeedsBranches};
ghost use Rattle.tp_runs.specs.Framed.{GoesOut};

// Promise 16.1: Every history is one that a node can have, every frame was sent by the history of
//   the node that it is from, and every record that was taken is such a frame
/// In every run, every node's history is legal, every frame was sent by the history of the node that it is from, and
/// every record that was taken is a frame; a superior stands before its subordinates.
pub fn world_laws()
    ensures { (es : List Happening) → IsGood (run es).nodes (run es).frames }
{}

// Promise 16.2: What a node said goes out, unless its site stopped: each record that it sent is a
//   frame to the address that the record was sent to
/// In every run, what a node said goes out, unless its site stopped: each record that was sent by a history without a stop is
/// a frame, from the node's address to the one that the record was sent to.
pub fn what_is_said_goes_out()
    ensures { (es : List Happening) → GoesOut (run es) }
{}

// Promise 16.22: Commit at a branch implies Commit at its superior
/// In every run, Commit goes up: a branch that logged Commit has a superior that logged it in the same tree, whether the
/// order came over an association, as a question of recovery or as a reply.
pub fn commits_go_up()
    ensures { (es : List Happening) (t : Aaid) (b : BranchId) (x y : Node) → IsBranchOf (run es) t b x y
        → decided y.origin t y.history ≡ true → decided x.origin t x.history ≡ true }
{}

// Promise 16.24: A node that left a tree did not roll in it, and logged nothing of it
/// In every run, a node that left a tree did not roll in it.
pub fn leaving_is_not_rolling()
    ensures { (es : List Happening) (t : Aaid) (x : Node) → IsOf (run es) t x → has_left x.origin t x.history ≡ true → rolled x.origin t x.history ≡ false }
{}

// Promise 16.18: What a superior takes over an association from a node below it and counts for the
//   outcome (Ready, Done, Rollback, RolledBack, Left) was said of a Begin that it had sent by then
/// In every run, what a superior takes over an association from a node below it and counts for the outcome was said of a Begin
/// that it had sent by then: Ready is logged for it, Done ends a tree that committed there, with no report one that was complete
/// with none, and with a report one whose damage is logged there, RolledBack one that rolled, Left one that was left, and
/// Rollback is of one that rolled; and between two ends at most one Ready is taken, and no Left after it.
pub fn branches_are_heeded()
    ensures { (es : List Happening) → HeedsBranches (run es).nodes }
{}

// Promise 16.24, part 2
/// In every run, a node that left a tree has logged nothing of it: no vote, decision, order, damage or end.
pub fn leaving_is_silent()
    ensures { (es : List Happening) (t : Aaid) (x : Node) → IsOf (run es) t x → has_left x.origin t x.history ≡ true → has_logged (is_of_tree t) x ≡ false }
{}
