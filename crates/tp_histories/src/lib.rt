//! Laws of one node's legal history, and of the histories that a run gives its nodes: links and marks, records, restart,
//! phases, and what a node says to its superior. Each is the contract of a function with an empty body.
#![tactic(auto)]

pub mod arcs;

ghost use Rattle.std.specs.Prelude.{ℕ, ◌≡◌, ◌≤◌, Option, List, [], length, true, Bool, None, false};
ghost use Rattle.tp_names.specs.declared.identifiers.Mark.{Mark};
ghost use Rattle.tp_names.specs.declared.identifiers.Addr.{Addr};
ghost use Rattle.tp_names.specs.declared.identifiers.Aaid.{Aaid};
ghost use Rattle.tp_model.specs.Parts.{Origin, Entry, Live, Who, Event, Digest, Current};
ghost use Rattle.tp_model.specs.Arcs.{link_with};
ghost use Rattle.tp_model.specs.Questions.{is_at};
ghost use Rattle.tp_model.specs.History.{digest, again, crashed};
ghost use Rattle.tp_model.specs.Happenings.{Happening, run};
ghost use Rattle.tp_model.specs.declared.transaction.TxEvent.{TxEvent};
ghost use Rattle.tp_model.specs.Transactions.{Transaction, transacted};
ghost use Rattle.tp_model.specs.Events.{refusal, action};
ghost use Rattle.tp_model.specs.Promises.{IsIn};
ghost use Rattle.tp_model.specs.World.{Node};
ghost use Rattle.tp_model.specs.Legal.{IsGrown};
ghost use Rattle.tp_steps.specs.Moves.{IsPut, IsLate, prelude};
ghost use Rattle.tp_steps.specs.Facts.{Reads};
ghost use Rattle.tp_histories.specs.Members.{IsOnce};
ghost use Rattle.tp_histories.specs.Fates.{IsFated};
ghost use Rattle.tp_histories.specs.Pairs.{IsPaired};
ghost use Rattle.tp_steps.specs.Ends.{are_separate};
ghost use Rattle.tp_histories.specs.Ends.{IsAlone};
ghost use Rattle.tp_histories.specs.Control.{answered, closed};
ghost use Rattle.tp_steps.specs.Answering.{IsAnswering};
ghost use Rattle.tp_steps.specs.Upward.{IsRising};
ghost use Rattle.tp_histories.specs.Upward.{IsRisen, SpeaksUp};
ghost use Rattle.tp_steps.specs.Undone.{IsPromptTurn};
ghost use Rattle.tp_histories.specs.Undone.{is_left_undone};
ghost use Rattle.tp_histories.specs.Traces.{IsTraced, sent_on, accepted_on};

// Promise 12.8: A live link counts what was sent and taken with its pair, and with a pair in which
//   the mark that stands for the node has its number and is not yet drawn nothing was sent or taken
/// In every legal history a live link counts what was sent and taken with its pair of marks, and with a pair in which the mark
/// that stands for the node has its number and is not yet drawn nothing was sent or taken.
pub fn traces()
    ensures counts { (o : Origin) (up : Option Addr) (h : List Entry) (p : ℕ) (x y : Mark) (s t : ℕ) → IsGrown o up h
        → link_with (digest o h).arcs p ≡ Live x y s t
        → (length (sent_on x y p h) ≡ s) × (length (accepted_on x y p h) ≡ t) }
    ensures marks { (o : Origin) (up : Option Addr) (h : List Entry) → IsGrown o up h → IsTraced o.who up (digest o h) h }
{}

// Promise 12.24: Of the records on an association: a Ready is logged for the Begin that it answers,
//   a Commit for the tree of the last Begin that was sent before it, that tree has rolled where a
//   Rollback follows the Begin, and on a live one a branch has the key of the last Begin
/// In every legal history of a node whose log was empty at first, the records on each pair of marks are paired with the
/// transactions that they belong to: as many Begins were taken as have ended, but for the current one, which stands at its
/// place; a branch's key is that of the last Begin; Ready was logged for the Begin that it answers, Commit for the tree of
/// the last Begin, and a Rollback went only to a branch of a tree that rolled.
pub fn records_are_paired()
    ensures { (o : Origin) (up : Option Addr) (h : List Entry) → o.start.records ≡ [] → IsGrown o up h → IsPaired o up h }
{}

// Promise 12.29: While a tree is current it is committing exactly where Commit was logged, rolling
//   exactly where it rolled, and not active where Ready was logged; in none both Commit was logged
//   and it rolled
/// In every legal history that enters each tree once, a tree that is current is committing exactly where Commit was logged,
/// rolling exactly where it rolled, and not active where Ready was logged; and nothing is both committed and rolled back.
pub fn fates_are_one()
    ensures { (o : Origin) (up : Option Addr) (h : List Entry) (t : Aaid) → o.start.records ≡ [] → IsGrown o up h → IsOnce o h → IsFated o h t }
{}

// Promise 12.28: What a subordinate says to its superior stands in order: between two ends at most
//   one Ready and no Left after it, Done of a tree that committed, Rollback and RolledBack of one
//   that rolled, Left of one that was left
/// What a subordinate says to its superior stands in order, of every event and in every legal history that enters each tree
/// once: between two ends at most one Ready and no Left after it; Done ends a tree that committed, with no report one that
/// was complete with none, and with a report one whose damage is logged; RolledBack one that rolled, Left one that was left;
/// and Rollback is of one that rolled.
pub fn words_upward()
    ensures turn { (e : TxEvent) (s : Transaction) (p : ℕ) → IsPut e s → IsRising e s p s (transacted e s) }
    ensures node { (who : Who) (d : Digest) (e : Event) (p : ℕ) (sup fall : Bool) (shut : ℕ) → IsLate d → refusal who d e ≡ None
        → Reads who e p sup fall shut (prelude who d e)
        → IsRisen e p fall (prelude who d e) (prelude who d e) (action who d e) }
    ensures history { (o : Origin) (up : Option Addr) (h : List Entry) → o.start.records ≡ [] → IsGrown o up h → IsOnce o h → SpeaksUp o up h }
{}

/// Nothing is left undone. No event of a transaction leaves a vote, an order, a completed commitment or a completed rollback
/// undone that was not left undone before; and in every legal history and in every run, a transaction that its node has
/// asked to commit is active only while a branch is neither counted nor left, and one whose user has given done is
/// committing only while a branch is neither done, left nor given up.
pub fn nothing_is_left_undone()
    // Promise 12.3: No event of a transaction leaves a vote, an order, a completed commitment or a
    //   completed rollback undone that was not left undone before
    ensures turn { (e : TxEvent) (s : Transaction) → IsPut e s → IsPromptTurn s (transacted e s) }
    // Promise 12.10: A transaction whose user asked for commitment is active only while a branch is
    //   neither counted nor left, and one whose user has given done is committing only while a
    //   branch is neither done, left nor given up
    ensures history { (o : Origin) (up : Option Addr) (h : List Entry) (c : Current) → IsGrown o up h → (digest o h).current ≡ Some c
        → is_left_undone c ≡ false }
    // Promise 16.10: At a node no vote, no order to commit and no completed commitment is left
    //   undone
    ensures run { (es : List Happening) (x : Node) (c : Current) → IsIn (run es) x → (digest x.origin x.history).current ≡ Some c → is_left_undone c ≡ false }
{}

// Promise 12.25: A subordinate answers, on a live association, no more rounds than it heard its
//   superior close by Prepare, Commit or Rollback
/// A subordinate answers what it was asked for: in every legal history of a node whose log was empty at first, the rounds
/// that it answered on a live association to its superior, by Ready or by its last word in a transaction, are no more than
/// those that it heard the superior close by Prepare, Commit or Rollback; and so does every event of a transaction.
pub fn answers_are_asked_for()
    ensures turn { (e : TxEvent) (s : Transaction) (p : ℕ) → IsPut e s → IsAnswering e s p s (transacted e s) }
    ensures history { (o : Origin) (up : Option Addr) (h : List Entry) (p : ℕ) (x y : Mark) (s k : ℕ) → o.start.records ≡ []
        → IsGrown o up h → is_at up p ≡ true → link_with (digest o h).arcs p ≡ Live x y s k
        → answered (sent_on x y p h) ≤ closed (accepted_on x y p h) }
{}

// Promise 12.9: No two arcs lead to one node; the mark that stands for the node in a pair has the
//   node's number; and the superior's mark of an arc to a subordinate is that of no other arc to
//   one, nor was anything sent to another subordinate with it in that place of a pair
/// In every legal history no two arcs lead to one node and none is idle; the mark that stands for the node in a pair has its
/// number, as in each pair on which it sent; and the superior's mark of an arc to one subordinate is that of the arc to no
/// other, nor was anything sent to another with it in that place of a pair. The subordinate's mark is what the peer says.
pub fn ends_are_told_apart()
    ensures arcs { (o : Origin) (up : Option Addr) (h : List Entry) → IsGrown o up h → are_separate (digest o h).arcs ≡ true }
    ensures marks { (o : Origin) (up : Option Addr) (h : List Entry) → IsGrown o up h → IsAlone o.who up (digest o h) h }
{}

// Promise 12.11: A start over the log's records finds the kept transactions, the boot number and
//   the version that the crash leaves
/// In every legal history, a start on the records of the log knows of the same kept transactions, each as it was but for
/// the Forgets that were noted, as the crash leaves; its boot number is the next one and the log's version stays.
pub fn kept_is_in_the_log()
    ensures kept { (o : Origin) (up : Option Addr) (h : List Entry) → IsGrown o up h → (digest (again o h) []).kept ≡ (digest o (crashed h)).kept }
    ensures boot { (o : Origin) (h : List Entry) → (digest (again o h) []).boot ≡ (digest o (crashed h)).boot }
    ensures version { (o : Origin) (up : Option Addr) (h : List Entry) → IsGrown o up h → (digest (again o h) []).version ≡ (digest o (crashed h)).version }
{}
