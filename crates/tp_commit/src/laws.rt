//! How a `Branch` begins, how one is found in the log, and how one stands after an event, by what is known of
//! the node.
ghost use Rattle.std.specs.Prelude.{ℕ, ◌≡◌, true, false, List, [], ◌∷◌, Option, None, Some};
ghost use Rattle.tp_names.specs.declared.identifiers.NodeKey.{NodeKey};
ghost use Rattle.tp_names.specs.declared.identifiers.Addr.{Addr};
ghost use Rattle.tp_names.specs.declared.children.Child.{Child};
ghost use Rattle.tp_names.specs.declared.outcome.Outcome.{Outcome};
ghost use Rattle.tp_names.specs.Grammar.{HasText};
ghost use Rattle.tp_logrec.specs.declared.record.LogRec.{LogRec};
ghost use Rattle.tp_logrec.specs.declared.record.LogVersion.{LogVersion};
ghost use Rattle.tp_logrec.specs.RecordReading.{record_grammar};
ghost use Rattle.tp_model.specs.declared.arc.Phase.{Phase};
ghost use Rattle.tp_model.specs.declared.transaction.TxEvent.{TxEvent};
ghost use Rattle.tp_model.specs.Parts.{Who, Arc, Key, Current, Digest};
ghost use Rattle.tp_model.specs.Dialogues.{is_nil, is_rolling, said, heard, Ask_defer_end, Ask_defer_grant, Hear_defer_end, Hear_defer_grant, woken, cleared};
ghost use Rattle.tp_model.specs.Links.{with_one_taken};
ghost use Rattle.tp_model.specs.Arcs.{find_arc, is_live_with_peer, without_arc, with_dialogue, with_link};
ghost use Rattle.tp_model.specs.Transactions.{is_under, is_under_at, transacted, step_of};
ghost use Rattle.tp_model.specs.Node.{is_up_live, is_up_ending, is_end_deferred_at, seen, fresh_current, turned, may_begin_on, begin_on};
ghost use Rattle.tp_model.specs.Requests.{has_branch_at};
ghost use Rattle.tp_model.specs.Events.{fresh_branches, recovered};
ghost use Rattle.tp_commit.specs.Branch.{key_from, begun, found_by, tells_transaction, standing};
ghost use Rattle.tp_model.specs.AmongArcs.{are_distinct, IsAmongArcs, AreAlike, IsCut, IsPutOff, Reaches, IsTakenUp};
ghost use Rattle.tp_commit.specs.Standing.{child_on};

// Promise 10.11, part 3
/// A `Branch` stands for what is known of the node's current transaction: it begins as one that has just
/// begun, over a live arc on which no end is deferred; a record of the log is the transaction of the node
/// that starts on it; and what is known, while the transaction does not roll, stands as it is. Both are in
/// order among their arcs, where the record names each branch once and its superior as none.
pub fn a_branch_is_what_is_known()
    ensures begun { (who : Who) (arcs : List Arc) (k : Key) → is_up_live arcs k ≡ is_under k → is_up_ending arcs k ≡ false
        → begun who.node k ≡ seen who arcs (fresh_current k) }
    ensures ready { (who : Who) (k : NodeKey) (s : Addr) (cs : List Child) (o : Option Outcome)
        → found_by (LogRec.Ready who.node k s cs) o ≡ Some (seen who [] (recovered (key_from k (Some s)) Phase.Ready (fresh_branches cs) o)) }
    ensures committing { (who : Who) (k : NodeKey) (s : Option Addr) (cs : List Child) (o : Option Outcome)
        → found_by (LogRec.Commit who.node k s cs) o ≡ Some (seen who [] (recovered (key_from k s) Phase.Committing (fresh_branches cs) o)) }
    ensures stands { (who : Who) (arcs : List Arc) (c : Current) → is_rolling c.phase ≡ false → standing (seen who arcs c) ≡ seen who arcs c }
    ensures begun_in_order { (arcs : List Arc) (k : Key) → is_up_ending arcs k ≡ false → IsAmongArcs arcs (fresh_current k) }
    ensures found_in_order { (k : Key) (p : Phase) (cs : List Child) (o : Option Outcome) → is_nil p ≡ false
        → are_distinct (fresh_branches cs) ≡ true → ((q : ℕ) → is_under_at k q ≡ true → has_branch_at (fresh_branches cs) q ≡ false)
        → IsAmongArcs [] (recovered k p (fresh_branches cs) o) }
{}

// Promise 10.11, part 4
/// A Ready or a Commit that has a text in version 2 of the log tells a transaction, as `Branch::again` requires.
pub fn a_text_tells_a_transaction()
    ensures ready { (n : ℕ) (k : NodeKey) (s : Addr) (cs : List Child) → HasText (record_grammar LogVersion.Two) (LogRec.Ready n k s cs)
        → tells_transaction (LogRec.Ready n k s cs) ≡ true }
    ensures commit { (n : ℕ) (k : NodeKey) (s : Option Addr) (cs : List Child)
        → HasText (record_grammar LogVersion.Two) (LogRec.Commit n k s cs) → tells_transaction (LogRec.Commit n k s cs) ≡ true }
{}

// Promise 10.12, part 2
/// An event changes of a node's arcs, before it is put to the transaction, no more than its own arc: one that
/// is lost is gone, a deferred end stands on a live arc, and a record that is counted, a dialogue that wakes or
/// is cleared and a deferred grant leave the arcs as they look to the transaction.
pub fn an_event_changes_its_own_arc()
    ensures lost { (arcs : List Arc) (p : ℕ) → IsCut p arcs (without_arc arcs p) }
    ensures end_said { (arcs : List Arc) (p : ℕ) → is_live_with_peer arcs p ≡ true → IsPutOff p arcs (with_dialogue arcs p (said Ask_defer_end)) }
    ensures end_heard { (arcs : List Arc) (p : ℕ) → is_live_with_peer arcs p ≡ true → IsPutOff p arcs (with_dialogue arcs p (heard Hear_defer_end)) }
    ensures grant_said { (arcs : List Arc) (p : ℕ) → is_end_deferred_at arcs p ≡ false → AreAlike arcs (with_dialogue arcs p (said Ask_defer_grant)) }
    ensures grant_heard { (arcs : List Arc) (p : ℕ) → is_end_deferred_at arcs p ≡ false → AreAlike arcs (with_dialogue arcs p (heard Hear_defer_grant)) }
    ensures counted { (arcs : List Arc) (p : ℕ) → AreAlike arcs (with_link arcs p with_one_taken) }
    ensures woken { (arcs : List Arc) (p : ℕ) → AreAlike arcs (with_dialogue arcs p woken) }
    ensures cleared { (arcs : List Arc) (p : ℕ) → AreAlike arcs (with_dialogue arcs p cleared) }
{}

// Promise 10.12 [tp_model/specs/AmongArcs.antt]: Where a transaction stood in order among its
//   node's arcs, and an event that it takes up came at arcs that it reaches, it stands after the
//   event for what is known of the node, until the next transaction starts; so it does after a
//   branch that begins where Begin may be sent
/// A `Branch` stands after every event for what is known of the node by then, and before the node's next
/// transaction starts. Where it stood for what was known before the event, it asks for what the event of the
/// node asks for; where the transaction goes on, it stands for that transaction among the arcs after the
/// event, whatever was shut, closed, cleared or taken back there, and the two are in order as before; where it
/// is over, its phase is Nil. So it does after each branch that begins. That the two are in order in every legal
/// history, and that an event reaches the arcs at which it comes, are laws of `tp_histories::arcs`.
pub fn a_branch_stands_behind_every_event()
    ensures asks { (who : Who) (f : TxEvent) (d : Digest) (c : Current) (arcs : List Arc) → IsAmongArcs arcs c → Reaches f c arcs d.arcs
        → step_of (transacted f (seen who arcs c)) ≡ step_of (transacted f (seen who d.arcs c)) }
    ensures stands { (who : Who) (f : TxEvent) (d : Digest) (c u : Current) (arcs : List Arc) → IsAmongArcs arcs c → Reaches f c arcs d.arcs
        → IsTakenUp f (seen who arcs c) → (turned who f d c).next.current ≡ Some u
        → standing (transacted f (seen who arcs c)).next ≡ seen who (turned who f d c).next.arcs u }
    ensures keeps { (who : Who) (f : TxEvent) (d : Digest) (c u : Current) (arcs : List Arc) → IsAmongArcs arcs c → Reaches f c arcs d.arcs
        → IsTakenUp f (seen who arcs c) → (turned who f d c).next.current ≡ Some u
        → IsAmongArcs (turned who f d c).next.arcs u }
    ensures over { (who : Who) (f : TxEvent) (d : Digest) (c : Current) (arcs : List Arc) → IsAmongArcs arcs c → Reaches f c arcs d.arcs
        → (turned who f d c).next.current ≡ None
        → (standing (transacted f (seen who arcs c)).next).phase ≡ Phase.Nil }
    ensures begins { (who : Who) (p : ℕ) (d : Digest) (c u : Current) (a : Arc) → d.current ≡ Some c → find_arc d.arcs p ≡ Some a
        → may_begin_on who d a ≡ true → (begin_on who p d).next.current ≡ Some u
        → standing (transacted (TxEvent.Begun (child_on who d a ∷ [])) (seen who d.arcs c)).next ≡ seen who (begin_on who p d).next.arcs u }
    ensures begins_keep { (who : Who) (p : ℕ) (d : Digest) (c u : Current) (a : Arc) → IsAmongArcs d.arcs c → d.current ≡ Some c
        → find_arc d.arcs p ≡ Some a → may_begin_on who d a ≡ true → (begin_on who p d).next.current ≡ Some u
        → IsAmongArcs (begin_on who p d).next.arcs u }
{}
