//! A worked example of a tree that is settled in its own time, though nodes of it had failed before, and a dialogue fails beside it.
//!
//! Each function has an empty body; its clauses are the example.
ghost use Rattle.std.specs.Prelude.{◌≡◌, ◌&&◌, ◌||◌, not, true, false};
ghost use Rattle.tp_names.specs.declared.outcome.Outcome.{Outcome};
ghost use Rattle.tp_model.specs.declared.out_line.OutLine.{OutLine};
ghost use Rattle.tp_failure_free.specs.DrainedTrees.{IsSettledTree};
ghost use Rattle.tp_trials.specs.Trials.{holds};
ghost use Rattle.tp_trials.specs.DrainedTrials.{world_after, is_emptied, is_unfailed as never_failed};
ghost use Rattle.tp_trials.specs.TroubledTrials.{troubled, broken, tree_of_three, is_inside, is_each_inside, is_unfailed, has_completed, closing_in};

/// Three nodes in one tree, and a fourth one that is none of it. The first two lost their association before the tree; while it stands
/// the root aborts its dialogue with the fourth, and that frame is never taken; and the first two lose their association again, once
/// the second is done and before the first is. The tree is settled in its own time all the same: each of the three logged Commit and was told that it is complete, with no report, and the closing line says so.
pub fn a_tree_is_settled_in_its_own_time()
    ensures settled { IsSettledTree (world_after troubled) tree_of_three }
    ensures inside { (holds is_inside troubled 1 && holds is_inside troubled 2 && holds is_inside troubled 3 && not (holds is_inside troubled 4)) ≡ true }
    ensures failed { (holds never_failed troubled 1 || holds never_failed troubled 2) ≡ false }
    ensures waits { is_emptied troubled ≡ false }
    ensures complete { (holds has_completed troubled 1 && holds has_completed troubled 2 && holds has_completed troubled 3) ≡ true }
    ensures agreed { closing_in troubled ≡ OutLine.Agreed tree_of_three Outcome.Commit }
{}

/// Where it is the dialogue with its branch that the root aborts, the tree has failed, and rolls.
pub fn a_failure_of_the_tree_counts()
    ensures failed { is_each_inside is_unfailed broken ≡ false }
    ensures incomplete { (holds has_completed broken 1 || holds has_completed broken 2 || holds has_completed broken 3) ≡ false }
{}
