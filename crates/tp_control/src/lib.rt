//! Control of dialogues over whole runs: who holds it, by the words that the two ends said.
//!
//! Each function has an empty body; its clause is the law, or, of the last one, a run in which the laws say something.
#![tactic(auto)]

ghost use Rattle.std.specs.Prelude.{ℕ, ◌≡◌, List, [], true, false, Option};
ghost use Rattle.tp_names.specs.declared.identifiers.Mark.{Mark};
ghost use Rattle.tp_names.specs.declared.identifiers.Addr.{Addr};
ghost use Rattle.tp_model.specs.declared.transaction.TxEvent.{TxEvent};
ghost use Rattle.tp_model.specs.Parts.{Origin, Entry, Live};
ghost use Rattle.tp_model.specs.Arcs.{link_with};
ghost use Rattle.tp_model.specs.Transactions.{Transaction, transacted};
ghost use Rattle.tp_model.specs.History.{digest};
ghost use Rattle.tp_model.specs.Questions.{is_at};
ghost use Rattle.tp_model.specs.Legal.{IsGrown};
ghost use Rattle.tp_model.specs.Happenings.{Happening, run};
ghost use Rattle.tp_histories.specs.Traces.{sent_on, accepted_on};
ghost use Rattle.tp_steps.specs.Moves.{IsPut};
ghost use Rattle.tp_histories.specs.Control.{answered};
ghost use Rattle.tp_control.specs.Control.{TookBack, TookMore, returned};
ghost use Rattle.tp_control.specs.Leading.{IsLeading, IsLed, is_in_round, takes};

// Promise 16.12: A subordinate end that holds control of a polarized dialogue took more of it than
//   it returned, after the rounds that it has answered
/// In every run, a subordinate end that holds control of a polarized dialogue took more of it than it returned, counted after
/// the rounds that it has answered: by a Grant, by a handshake that grants, or with the transaction that its superior
/// began.
pub fn holders_below_took_more()
    ensures { (es : List Happening) → TookMore (run es) }
{}

// Promise 12.26: What a superior says to a branch on a live association stays in step with what it
//   knows of it, where it takes the branch's words in their rounds
/// What a superior says to a branch stays in step with what it knows of it: of every event of a transaction, and in every
/// legal history of a node whose log was empty at first and that takes a subordinate's words in their rounds. A round is open
/// until Prepare, Commit or Rollback closes it; the superior is a round ahead of the branch only where it told it Prepare or
/// rolls; it gave no more control than it took back, but for what it does not hold; and a chained dialogue without a branch
/// holds control.
pub fn branches_are_led()
    ensures turn { (e : TxEvent) (s : Transaction) (p : ℕ) → IsPut e s → IsLeading e s p s (transacted e s) }
    ensures history { (o : Origin) (up : Option Addr) (h : List Entry) (p : ℕ) (x y : Mark) (s k : ℕ) → o.start.records ≡ []
        → IsGrown o up h → is_at up p ≡ false → takes is_in_round p h ≡ true → link_with (digest o h).arcs p ≡ Live x y s k
        → IsLed p (digest o h) (sent_on x y p h) (answered (accepted_on x y p h)) (returned (answered (accepted_on x y p h)) (accepted_on x y p h)) }
{}

// Promise 16.13: A superior end that holds control of one took back what it gave in the round that
//   is not answered, and gave nothing ahead of it
/// In every run, a superior end that holds control of the polarized dialogue with a subordinate took back what it gave in the
/// round that is not answered, and gave nothing ahead of it.
pub fn holders_above_took_back()
    ensures { (es : List Happening) → TookBack (run es) }
{}
