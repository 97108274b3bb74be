//! Worked examples of a site's log as one list.
//!
//! Each function has an empty body; its clauses are the example.
ghost use Rattle.std.specs.Prelude.{◌≡◌, ◌+◌, [], ◌∷◌, true, false, reverse, codes};
ghost use Rattle.tp_logrec.specs.Order.{boots, all_follow};
ghost use Rattle.tp_logrec.specs.declared.record.LogRec.{LogRec};
ghost use Rattle.tp_model.specs.NodeRun.{log_after};
ghost use Rattle.tp_site_logs.specs.SiteLogs.{is_in_order, only_branches_vote, stops};
ghost use Rattle.tp_trials.specs.SiteLogTrials.{voted, stopped, log_b, told_of, forced_at, all_whose, next_boot, with_a_roots_vote, opening, a_root_commits, kinds};

/// Two nodes at one site vote. The site stops three times, twice in an event: the first decision is on the disk, the second is
/// not. Its log has of each node what that one forced, and nothing of the root, which stands elsewhere and forced its Commit.
pub fn a_log_tells_two_nodes()
    ensures all { all_whose (log_b stopped) ≡ 0 ∷ 2 ∷ 3 ∷ 0 ∷ 2 ∷ 0 ∷ 0 ∷ [] }
    ensures starts { boots (log_b stopped) ≡ 1 ∷ 2 ∷ 3 ∷ 4 ∷ [] }
    ensures first { told_of stopped 2 ≡ 1 ∷ 2 ∷ [] }
    ensures second { told_of stopped 3 ≡ 1 ∷ [] }
    ensures none { told_of stopped 1 ≡ [] }
    ensures forced { forced_at (codes "b") stopped 2 ≡ 1 ∷ 2 ∷ [] }
    ensures elsewhere { forced_at (codes "a") stopped 1 ≡ 3 ∷ [] }
    ensures order { is_in_order (log_b stopped) ≡ true }
{}

/// The next start of that site has its fifth boot number, which is by two above the stops; after the votes alone the second.
pub fn a_site_starts_again()
    ensures next { next_boot stopped ≡ 5 }
    ensures stops { stops (reverse stopped) + 2 ≡ 5 }
    ensures second { next_boot voted ≡ 2 }
{}

/// A log in which each record follows those before it, and yet a root has voted, under the key that it will draw: the node commits
/// by that key, and its order follows no more. On a log of one Boot alone the same events leave a log in order.
pub fn a_roots_vote_is_in_the_way()
    ensures follows { all_follow with_a_roots_vote ≡ true }
    ensures votes { only_branches_vote with_a_roots_vote ≡ false }
    ensures commits { kinds (log_after (opening with_a_roots_vote) a_root_commits) ≡ 0 ∷ 1 ∷ 2 ∷ 0 ∷ 0 ∷ 3 ∷ [] }
    ensures broken { all_follow (log_after (opening with_a_roots_vote) a_root_commits) ≡ false }
    ensures plain { kinds (log_after (opening (LogRec.Boot 1 ∷ [])) a_root_commits) ≡ 0 ∷ 0 ∷ 3 ∷ [] }
    ensures order { is_in_order (log_after (opening (LogRec.Boot 1 ∷ [])) a_root_commits) ≡ true }
{}
