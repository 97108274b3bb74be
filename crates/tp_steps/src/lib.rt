//! What one event makes of a transaction and of a node: laws of events, and the steps that every event is made of.
//! Each law is the contract of a function with an empty body. No code stands here.
#![tactic(auto)]

ghost use Rattle.std.specs.Prelude.{ℕ, ◌≡◌, Bool, None};
ghost use Rattle.tp_model.specs.Parts.{Who, Event, Digest, Current};
ghost use Rattle.tp_model.specs.declared.transaction.TxEvent.{TxEvent};
ghost use Rattle.tp_model.specs.Transactions.{Transaction, transacted};
ghost use Rattle.tp_model.specs.Events.{refusal, action, recovered_current};
ghost use Rattle.tp_steps.specs.Moves.{IsPut, IsLate, IsAmong, prelude};
ghost use Rattle.tp_steps.specs.Facts.{IsFair, IsHeard, Reads};
ghost use Rattle.tp_steps.specs.Branches.{IsRowed, IsBranched};
ghost use Rattle.tp_steps.specs.Standing.{IsUndecided, IsTold, current_after, IsApart};
ghost use Rattle.tp_model.specs.Node.{seen, turned, keep};
ghost use Rattle.tp_model.specs.Recovery.{settled};
ghost use Rattle.tp_model.specs.declared.recovery.Kept.{Kept};
ghost use Rattle.tp_model.specs.declared.recovery.KeptEvent.{KeptEvent};
ghost use Rattle.tp_steps.specs.Heeding.{IsHeeding};
ghost use Rattle.tp_steps.specs.Outspoken.{IsOutspoken, SaysLeft};

// Promise 12.1: What an event that is not refused says to a peer, counted, where what was counted
//   before fits what is current: a vote after its record, an order after the Begin of a tree whose
//   Commit is logged, a rollback after that of a tree that rolls, if a Begin went there; and, over
//   an association that stays live, as many ends as transactions of that superior end
/// What every event says to a peer, counted: votes after their record, orders and rollbacks under the branch's key, as
/// many ends as transactions of the superior end, and at most one Begin more than branches that closed.
pub fn words_of_events()
    ensures turn { (e : TxEvent) (s : Transaction) (p : ℕ) → IsPut e s → IsFair e s p s (transacted e s) }
    ensures node { (who : Who) (d : Digest) (e : Event) (p : ℕ) (sup fall : Bool) (shut : ℕ) → IsLate d → refusal who d e ≡ None
        → Reads who e p sup fall shut (prelude who d e)
        → IsHeard p sup fall shut (prelude who d e) (prelude who d e) (action who d e) }
{}

// Promise 12.2: A branch is counted only by its Ready, has left only by its Left, and has ended
//   only by its end or a reply
/// What every event of a transaction, and of a node, makes of the branches: one is counted only by its Ready, in active; it
/// has left only by its Left, in active; and it has ended only by its Done or a reply in committing, or by its RolledBack or
/// Left in rolling. A branch that an event begins starts with none of these marks.
pub fn marks_of_branches()
    ensures turn { (e : TxEvent) (s : Transaction) → IsPut e s → IsRowed e s s (transacted e s) }
    ensures node { (who : Who) (d : Digest) (e : Event) → IsLate d → refusal who d e ≡ None
        → IsBranched who e (prelude who d e) (prelude who d e) (action who d e) }
{}

// Promise 12.4: What a transaction takes is heeded: where it does not roll, a vote or a leaving
//   that is in phase finds it active and is noted; an order that is in phase is carried out in
//   ready; in committing a branch that says or replies Done has ended after it, or had left. That a
//   branch has answered stays, and that it has ended or left
/// What a transaction takes is heeded, by every event. Where it does not roll, a branch's Ready or Left that is not out of
/// phase is taken in active, and the branch is counted or has left after it; the superior's order that is not out of phase
/// is not taken in active, and in ready it is carried out; in committing a branch that says or replies that it is done has
/// ended after it, or had left. And a branch that is counted, has left or has ended stays so.
pub fn what_is_taken_is_heeded()
    ensures { (e : TxEvent) (s : Transaction) → IsPut e s → IsHeeding e s (transacted e s) }
{}

// Promise 12.5: What a transaction decides it says on the live arcs: Ready to its superior, Commit
//   to each branch that did not leave, Done with its report (or as a reply), and that it leaves
/// What a transaction decides it says, by every event: one that logs Ready says so to its superior, where the superior's arc
/// is live; one that logs Commit orders it on the live arc of each branch that did not leave; one that completes a commitment
/// tells its user so, and says Done with the same report to its superior, over the arc or as a reply; and one that leaves says
/// so on the superior's live arc.
pub fn what_is_decided_is_said()
    ensures says { (e : TxEvent) (s : Transaction) → IsPut e s → IsOutspoken s (transacted e s) }
    ensures leaves { (e : TxEvent) (s : Transaction) → SaysLeft e s (transacted e s) }
{}

// Promise 12.6: An event of a transaction, which has no decision before it is ready, changes what a
//   crash leaves of it as the record that it forces tells, and not at all where it forces none
/// Every event of a transaction forces the record that tells what it makes of it: what of a ready or committing transaction
/// stands in the log (its key, its phase, the branches that did not leave, its decision), with the record of the event, is
/// what stands there after it; and of a node, what a crash would leave of
/// its current transaction goes with the record over to what a crash leaves after the event. Nothing stands there before
/// ready, in a rollback, and after the end. A record of a kept transaction leaves what stands there of the current one,
/// where no kept key is its key; and an event of the current one keeps that so.
pub fn turns_are_in_the_log()
    ensures turn { (e : TxEvent) (s : Transaction) → IsPut e s → IsUndecided s → IsTold s (transacted e s) }
    ensures node { (who : Who) (f : TxEvent) (d : Digest) (c : Current) → d.current ≡ Some c → IsPut f (seen who d.arcs c) → IsUndecided (seen who d.arcs c)
        → current_after (turned who f d c).rec (recovered_current d.current) ≡ recovered_current (turned who f d c).next.current }
    ensures apart { (who : Who) (f : TxEvent) (d : Digest) (c : Current) → d.current ≡ Some c → IsPut f (seen who d.arcs c)
        → IsUndecided (seen who d.arcs c) → IsApart d → IsApart (turned who f d c).next }
    ensures kept { (d : Digest) (k : Kept) (f : KeptEvent) → IsApart d → IsAmong d.kept k
        → current_after (keep (settled k f) d).rec (recovered_current d.current) ≡ recovered_current (keep (settled k f) d).next.current }
{}
