//! Worked examples of what is seen of a history from the trees that are current.
//!
//! Each function has an empty body; its clauses are the example.
ghost use Rattle.std.specs.Prelude.{◌≡◌, ◌&&◌, true, false, []};
ghost use Rattle.tp_model.specs.History.{digest};
ghost use Rattle.tp_model.specs.Outcomes.{rolled};
ghost use Rattle.tp_runs.specs.RolledSeen.{is_open_at, is_rolling_at, rolled_seen};
ghost use Rattle.tp_trials.specs.KnownTrials.{middle, fits, grows, linked, foretelling, foretold, rolling, leaving, chained_below, drawn_next, foretelling_next, breaking_off};

/// The superior rolls back: the node rolls, and it is seen as soon as it does. A node that leaves is not seen to roll.
pub fn a_rollback_is_seen()
    ensures legal { (fits middle (grows middle [] linked) foretelling && fits middle (grows middle (grows middle [] linked) foretelling) rolling) ≡ true }
    ensures before { rolled_seen middle foretold (grows middle (grows middle [] linked) foretelling) ≡ false }
    ensures rolls { is_rolling_at foretold (digest middle (grows middle (grows middle (grows middle [] linked) foretelling) rolling)).current ≡ true }
    ensures seen { rolled_seen middle foretold (grows middle (grows middle (grows middle [] linked) foretelling) rolling) ≡ true }
    ensures leaves { fits middle (grows middle [] linked) leaving ≡ true }
    ensures left { rolled_seen middle foretold (grows middle (grows middle [] linked) leaving) ≡ false }
{}

/// The superior begins a tree with the identifier that the node draws for its next tree. The user breaks off: the node's transaction
/// is rolled back at once, and the node begins its own one in the same entry. The tree is current before and after it, as that of a
/// branch and as that of a root, and rolls at neither; it is seen that it rolled.
pub fn a_rollback_is_seen_between_two_ends()
    ensures legal { (fits middle [] chained_below && fits middle (grows middle [] chained_below) foretelling_next
        && fits middle (grows middle (grows middle [] chained_below) foretelling_next) breaking_off) ≡ true }
    ensures before { is_open_at drawn_next (digest middle (grows middle (grows middle [] chained_below) foretelling_next)).current ≡ true }
    ensures behind { is_open_at drawn_next
        (digest middle (grows middle (grows middle (grows middle [] chained_below) foretelling_next) breaking_off)).current ≡ true }
    ensures rolled { rolled middle drawn_next (grows middle (grows middle (grows middle [] chained_below) foretelling_next) breaking_off) ≡ true }
    ensures seen { rolled_seen middle drawn_next (grows middle (grows middle (grows middle [] chained_below) foretelling_next) breaking_off) ≡ true }
    ensures none { rolled_seen middle drawn_next (grows middle (grows middle [] chained_below) foretelling_next) ≡ false }
{}
