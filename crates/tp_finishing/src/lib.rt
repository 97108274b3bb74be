//! No run is stuck: laws over every run of how it may be ended by recovery alone, whatever happened before.
//!
//! Each is the contract of a function with an empty body.
#![tactic(auto)]

pub mod examples;

ghost use Rattle.tp_finishing.specs.Doubt.{DoubtEnds};
ghost use Rattle.tp_finishing.specs.Quiet.{StopsQuieten};
ghost use Rattle.tp_finishing.specs.Waiting.{RollbacksWait};
ghost use Rattle.tp_finishing.specs.Cuts.{CutsQuieten};
ghost use Rattle.tp_finishing.specs.Finishing.{OverIsClosed, NoRunIsStuck, EveryRunEnds, CutsEnd};
ghost use Rattle.tp_finishing.specs.Again.{LostIsSaidAgain};
ghost use Rattle.std.specs.Prelude.{List};
ghost use Rattle.tp_model.specs.Happenings.{Happening, run};

// Promise 23.2 [tp_finishing/specs/Quiet.antt]: From every run some stops of sites, at most as many
//   as there are sites, leave no association anywhere, and no node that is active or rolls back
/// From every run, some stops of sites, at most as many as there are sites, lead to a world in which no node has an association, and none
/// is active or rolls.
pub fn stops_quieten()
    ensures { StopsQuieten }
{}

// Promise 23.8 [tp_finishing/specs/Waiting.antt]: A transaction that rolls back, and whose user has
//   finished, waits for a peer that is still linked: for a branch that has neither rolled back nor
//   left, or for its superior, which has not said that it rolls back
/// In every run, a transaction that rolls back, and whose user has finished, waits for a peer that is still linked: a branch that has
/// neither rolled back nor left, or its superior, which has not said that it rolls back.
pub fn rollbacks_wait()
    ensures { RollbacksWait }
{}

// Promise 23.5 [tp_finishing/specs/Cuts.antt]: Cuts do what stops do: the loss of associations,
//   users that say that they have finished, and users that ask for rollback; in all at most one for
//   each node's end of an association, and one for each transaction that is active or rolls back.
//   Nothing is asked of the run but numbers: an active transaction has one left on each live
//   association for a record to each branch and one more
/// From every run, where each active transaction has numbers left for its rollback, so many cuts lead there too: the loss of
/// associations, users that say that they have finished, and users that ask for rollback.
pub fn cuts_quieten()
    ensures { CutsQuieten }
{}

// Promise 23.6 [tp_finishing/specs/Finishing.antt]: Where a run is over, however it came to that,
//   no tree is open: its closing line says that all nodes that stay agree, or that it is mixed and
//   who decided
/// In every run, where no node has a transaction, neither a current one nor one that it keeps, no tree is open: all its nodes that
/// stay were told one outcome, or it is mixed and its closing line names who decided.
pub fn what_is_over_is_closed()
    ensures { OverIsClosed }
{}

// Promise 23.3 [tp_finishing/specs/Finishing.antt]: **No run is stuck**: from every world of that
//   kind (23.2), recovery alone ends every transaction, and no tree is open then. In all it takes
//   at most so many lines: for a transaction in doubt seven and three for each branch; for one that
//   commits three for each branch that is neither done nor left, one if its user has not finished,
//   and three more, or one at a root; for one that is kept three for each branch that it owes and
//   three more, or one where it is a root's or a rollback
/// From every run after which no node has an association and none is active or rolls, recovery alone ends every transaction:
/// by retries, deliveries of frames that were sent since, users that say that they have finished, and purges. In all it takes at most so
/// many lines: for a transaction in doubt seven and three for each branch; for one that commits three for each branch that is neither done
/// nor left, one if its user has not finished, and three more, or one at a root; for one that is kept three for each branch that it owes,
/// and three more, or one where it is a root's or a rollback. No tree is open then.
pub fn no_run_is_stuck()
    ensures { NoRunIsStuck }
{}

/// So from every run, whatever happened in it, at most as many stops as there are sites and then so many lines of recovery end every
/// transaction, and no tree is open then. So do cuts in place of the stops, where each active transaction has numbers left for its rollback.
pub fn every_run_ends()
    // Promise 23.4 [tp_finishing/specs/Finishing.antt]: **So every run may be ended**: by at most
    //   as many stops as there are sites, and then by so many lines of recovery, counted in the
    //   world that the stops leave
    ensures stops { EveryRunEnds }
    // Promise 23.9 [tp_finishing/specs/Finishing.antt]: Or by so many cuts (23.5) in place of the
    //   stops, where there are numbers left for them
    ensures cuts { CutsEnd }
{}
