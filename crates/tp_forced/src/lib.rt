//! What a node forces of one tree, and no more: in every run its records of the tree are of one key and stand in one order,
//! nothing follows the end, and each record of an association is taken at most once.
//!
//! Each law is the contract of a function with an empty body.
#![tactic(auto)]

ghost use Rattle.std.specs.Prelude.{List};
ghost use Rattle.tp_model.specs.Happenings.{Happening, run};
ghost use Rattle.tp_forced.specs.TreeLog.{OneLog, EndsLast, CommitsForceSo, RollsUnforced};
ghost use Rattle.tp_forced.specs.Taken.{TakenOnce};

// Promise 16.49 [tp_forced/specs]: What a node forced of a tree has one key, and is the first of
//   these records in this order: of a branch Ready, its own decision if it took one, and Commit, or
//   the end of a rollback, before which its damage may stand; of a root Commit; after Commit the
//   end, before which damage may stand any number of times
/// In every run, what a node forced of a tree has one key, and stands in one order: nothing; of a branch Ready, a decision of
/// its own if it took one, and then Commit, or the end or the damage of a rollback; of a root Commit; after Commit its end,
/// or damage, which stands again for each branch that is done later, and then the end. So a node enters a tree under one key,
/// and decides by itself at most once in it, before it commits.
pub fn a_tree_has_one_log_at_a_node()
    ensures { (es : List Happening) → OneLog (run es) }
{}

// Promise 16.50: A node forces nothing of a tree after its end
/// In every run, a node forces nothing of a tree after its end.
pub fn nothing_follows_an_end()
    ensures { (es : List Happening) → EndsLast (run es) }
{}

// Promise 16.51: Where a commitment was complete with no report at a node that took no decision of
//   its own, a branch forced exactly Ready, Commit and the end, and a root exactly Commit and the
//   end
/// In every run, where a node's user was told that the commitment is complete with no report, and the node took no decision of
/// its own, a branch forced Ready, Commit and the end, and a root Commit and the end, each once and in this order, and nothing
/// else of the tree.
pub fn a_clear_commitment_forces_three_records()
    ensures { (es : List Happening) → CommitsForceSo (run es) }
{}

// Promise 16.52: A node that left a tree, or rolled in it without having logged Ready, forced
//   nothing of it
/// In every run, a node that left a tree, or that rolled in it and had not logged Ready, forced nothing of it.
pub fn leaving_and_early_rollback_force_nothing()
    ensures { (es : List Happening) → RollsUnforced (run es) }
{}

// Promise 16.4: However often frames are delivered, a node takes the record with one number of one
//   association at most once
/// In every run, however often frames are delivered, a node takes the record with one number of one association at most once.
pub fn a_record_is_taken_once()
    ensures { (es : List Happening) → TakenOnce (run es) }
{}
