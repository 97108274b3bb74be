//! How the current transaction of a node stands among its arcs, in every legal history and in every run.
//!
//! Each law is the contract of a function with an empty body; so is each worked example.
ghost use Rattle.std.specs.Prelude.{◌≡◌, ◌&&◌, true, false};
ghost use Rattle.tp_model.specs.Legal.{is_start};
ghost use Rattle.tp_histories.specs.Arcs.{finds_apart};
ghost use Rattle.tp_trials.specs.Trials.{holds, begun};
ghost use Rattle.tp_trials.specs.ArcTrials.{ending, forgetting, is_ending_at, is_forgotten_at, entangled, defers_on, loses_on, talks_on, prepares, owing, ends_aside};

/// Worked example: an end is deferred at both ends of a live dialogue of an active transaction; in its rollback it is
/// forgotten where the transaction rolls, and not yet at the other end. A log that may stand at a start can name a
/// superior as a branch.
pub fn an_end_is_put_off()
    ensures above { holds (is_ending_at 2) ending 1 ≡ true }
    ensures below { holds (is_ending_at 1) ending 2 ≡ true }
    ensures forgotten { (holds (is_forgotten_at 2) forgetting 1 && holds (is_ending_at 1) forgetting 2) ≡ true }
    ensures start { is_start entangled ≡ true }
    ensures entangled { finds_apart entangled ≡ false }
{}

/// Worked example: an end that the user defers stands on its arc when it is put to the transaction, and an arc that is lost
/// is gone; user data is put to nobody. A record over the arc is put to the branch's transaction.
pub fn an_event_is_put()
    ensures defers { holds (defers_on 2) begun 1 ≡ true }
    ensures loses { holds (loses_on 2) begun 1 ≡ true }
    ensures talks { holds (talks_on 2) begun 1 ≡ true }
    ensures prepares { holds prepares begun 2 ≡ true }
{}

/// Worked example: a peer that is done ends its dialogue before the transaction is over. Nothing is put to the transaction,
/// and an end that was deferred on its arc is gone: so it need not see its arcs as they were where nothing is put to it.
pub fn a_dialogue_ends_aside()
    ensures { holds ends_aside owing 1 ≡ true }
{}
