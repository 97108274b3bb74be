//! How the current transaction of a node stands among its arcs, in every legal history and in every run.
//!
//! Each law is the contract of a function with an empty body; so is each worked example.
ghost use Rattle.std.specs.Prelude.{◌≡◌, true, Option, None, Some, List, []};
ghost use Rattle.tp_names.specs.declared.identifiers.Addr.{Addr};
ghost use Rattle.tp_model.specs.Parts.{Origin, Event, Entry, Current};
ghost use Rattle.tp_model.specs.AmongArcs.{IsAmongArcs};
ghost use Rattle.tp_model.specs.History.{digest, refuse, again};
ghost use Rattle.tp_model.specs.Legal.{IsGrown, IsLegal};
ghost use Rattle.tp_model.specs.World.{Node};
ghost use Rattle.tp_model.specs.Happenings.{Happening, run};
ghost use Rattle.tp_model.specs.Promises.{IsIn};
ghost use Rattle.tp_histories.specs.Arcs.{finds_apart};
ghost use Rattle.tp_steps.specs.Puts.{Put, put_by, IsPutTo};
ghost use Rattle.tp_histories.specs.Puts.{IsLeftAlone};

/// In every legal history whose start finds in the log no transaction with its superior as a branch, the current
/// transaction stands in order among the node's arcs: it is not over, no two branches have one peer, the superior is no
/// branch, and an end is deferred on its live arcs alone, and in a rollback on none. The next start of such a node is such
/// a start again, and so is one on an empty log. So the transaction stands in order in every run.
pub fn a_transaction_stands_among_its_arcs()
    // Promise 12.15 [clauses history again empty]: The current transaction stands in order among
    //   the node's arcs, in a history whose start finds in the log no transaction with its superior
    //   as a branch; the next start is such a one again, and so is one on an empty log
    ensures history { (o : Origin) (up : Option Addr) (h : List Entry) (c : Current) → IsLegal o up h → finds_apart o ≡ true
        → (digest o h).current ≡ Some c → IsAmongArcs (digest o h).arcs c }
    ensures again { (o : Origin) (up : Option Addr) (h : List Entry) → IsLegal o up h → finds_apart o ≡ true → finds_apart (again o h) ≡ true }
    ensures empty { (o : Origin) → o.start.records ≡ [] → finds_apart o ≡ true }
    // Promise 16.9: A node's current transaction stands in order among its arcs, and an event that
    //   is put to it comes at arcs that it reaches
    ensures run { (es : List Happening) (x : Node) (c : Current) → IsIn (run es) x → (digest x.origin x.history).current ≡ Some c
        → IsAmongArcs (digest x.origin x.history).arcs c }
{}

/// An event of a node puts one event to its current transaction at most, before the next transaction starts. In every legal
/// history whose start finds in the log no transaction with its superior as a branch, the event of the transaction comes
/// at arcs that it reaches from those before the event of the node, and it is taken up; so it is in every run. Where none is
/// put, what is current stays as it is, but for branches that begin, and for what a stop leaves.
pub fn an_event_reaches_the_transaction()
    // Promise 12.16 [clauses reaches alone]: In such a history an event of the node that is not
    //   refused puts one event to the current transaction at most, before the next one starts, at
    //   arcs that it reaches, and it is taken up
    ensures reaches { (o : Origin) (up : Option Addr) (h : List Entry) (e : Event) (c : Current) (x : Put) → IsLegal o up h
        → finds_apart o ≡ true → refuse o h e ≡ None → (digest o h).current ≡ Some c → put_by o.who (digest o h) e ≡ Some x
        → IsPutTo o.who (digest o h) e c x }
    ensures alone { (o : Origin) (up : Option Addr) (h : List Entry) (e : Event) (c : Current) → IsGrown o up h → refuse o h e ≡ None
        → (digest o h).current ≡ Some c → put_by o.who (digest o h) e ≡ None
        → IsLeftAlone o.who (digest o h) e c }
    // Promise 16.9, part 2
    ensures run { (es : List Happening) (x : Node) (e : Event) (c : Current) (y : Put) → IsIn (run es) x
        → refuse x.origin x.history e ≡ None → (digest x.origin x.history).current ≡ Some c
        → put_by x.origin.who (digest x.origin x.history) e ≡ Some y → IsPutTo x.origin.who (digest x.origin x.history) e c y }
{}
