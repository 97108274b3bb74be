//! Worked examples of how runs are ended, computed by the prover from the definitions.
//!
//! Each function has an empty body; its clauses are the example.
ghost use Rattle.std.specs.Prelude.{◌≡◌, ◌+◌, ◌&&◌, ◌||◌, ◌++◌, ◌∷◌, [], true, false, length, reverse, codes, Some};
ghost use Rattle.tp_model.specs.declared.out_line.OutLine.{OutLine};
ghost use Rattle.tp_model.specs.Happenings.{Crash, run};
ghost use Rattle.tp_model.specs.Trees.{closing};
ghost use Rattle.tp_finishing.specs.Again.{tells_to_commit};
ghost use Rattle.tp_records.specs.declared.request.Request.{Request};
ghost use Rattle.tp_model.specs.declared.arc.Phase.{Phase};
ghost use Rattle.tp_model.specs.declared.refusal.Refusal.{Refusal};
ghost use Rattle.tp_finishing.specs.Examples.{rolled_back, alone, has_rolled_after, waits_after, unheard, heard_since, stopped, ended, in_danger, decided, cut, all_stopped, first_heard, recovery, heard_in_place, phase_after, arcs_after, is_over_after, are_over_after, lines_after, cuts_after, said_again_after, asks_superior, refused_again_after};

/// The order of a root is lost while its branch is in doubt and both are up. The branch asks, and commits by the answer.
pub fn a_lost_order_is_asked_for()
    ensures doubt { phase_after unheard 2 ≡ Some Phase.Ready }
    ensures decided { phase_after unheard 1 ≡ Some Phase.Committing }
    ensures resolved { phase_after heard_since 2 ≡ Some Phase.Committing }
{}

/// Both sites stop before the order is delivered, as many as may have to: where one goes on, its node keeps the association. After both
/// stops none is left, and five lines of recovery end the transaction at both nodes.
pub fn a_stopped_run_is_ended()
    ensures one { arcs_after (unheard ++ (Crash (codes "a") ∷ [])) 2 ≡ 1 }
    ensures other { arcs_after (unheard ++ (Crash (codes "b") ∷ [])) 1 ≡ 1 }
    ensures quiet { arcs_after stopped 2 ≡ 0 }
    ensures doubt { phase_after stopped 2 ≡ Some Phase.Ready }
    ensures ongoing { (is_over_after stopped 1 || is_over_after stopped 2) ≡ false }
    ensures over { (is_over_after ended 1 && is_over_after ended 2) ≡ true }
    ensures most { lines_after stopped ≡ 12 }
{}

/// Two branches decided to roll back, the site of the root stopped between its Commit and its Damage, and the root gave one of them up.
/// What may have been said in vain is said again: before the site of the root stops, its user is told to commit; then, and after all of
/// that, a branch in doubt asks the root. It hears the outcome by three lines with its association in place. Two cuts leave the branches
/// without an association, as many as may be needed, and then recovery takes exactly as many lines as it may.
pub fn a_tree_in_danger_is_cut()
    ensures told { tells_to_commit (said_again_after in_danger 1) ≡ true }
    ensures asked { asks_superior (said_again_after in_danger 2) ≡ true }
    ensures asked_since { asks_superior (said_again_after decided 2) ≡ true }
    ensures linked { arcs_after decided 2 ≡ 1 }
    ensures heard { phase_after heard_in_place 2 ≡ Some Phase.Committing }
    ensures most { cuts_after decided ≡ 2 }
    ensures quiet { arcs_after cut 2 + arcs_after cut 3 ≡ 0 }
    ensures lines { lines_after cut ≡ length recovery }
    ensures over { are_over_after (cut ++ recovery) ≡ true }
{}

/// So do the stops of their sites. Then recovery takes exactly as many lines as it may: a branch hears the outcome by the first three
/// of them, and after all of them nothing is left, and the tree is mixed, by the two that decided.
pub fn a_tree_in_danger_is_ended()
    ensures quiet { arcs_after all_stopped 2 + arcs_after all_stopped 3 ≡ 0 }
    ensures doubt { phase_after all_stopped 2 ≡ Some Phase.Ready }
    ensures heard { phase_after first_heard 2 ≡ Some Phase.Committing }
    ensures most { lines_after all_stopped ≡ length recovery }
    ensures over { are_over_after (all_stopped ++ recovery) ≡ true }
    ensures mixed { closing (run (reverse (all_stopped ++ recovery)))
        ≡ OutLine.Mixed (record { owner = codes "a"; mark = record { boot = 1; node = 1; count = 3 } }) (2 ∷ 3 ∷ []) ∷ [] }
{}

/// A root that asked for rollback waits for its branch, which is linked. The branch hears it, and its association is lost: it rolls back
/// until its user has finished, and no peer is left that it could wait for. So that the user has finished is wanted.
pub fn a_rollback_waits_for_a_peer_or_its_user()
    ensures rolls { has_rolled_after rolled_back 1 ≡ true }
    ensures waits { waits_after rolled_back 1 2 ≡ true }
    ensures alone { phase_after alone 2 ≡ Some Phase.Rolling }
    ensures unlinked { arcs_after alone 2 ≡ 0 }
{}

/// The site of that root stops. Nothing is told of the rollback again, and its user is told that there is no transaction.
pub fn a_rollback_is_not_told_again()
    ensures silent { said_again_after rolled_back 1 ≡ [] }
    ensures refused { refused_again_after rolled_back 1 Request.Done ≡ Some Refusal.NoTransaction }
{}
