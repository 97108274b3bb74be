//! What is known of a node after a legal history is what the questions to its whole history answer: laws of the parts.
//!
//! Each function has an empty body; its clauses are the law. A start is one that a log can give, and events may be hostile.
#![tactic(auto)]

ghost use Rattle.std.specs.Prelude.{ℕ, ◌≡◌, true, Option, Some, List};
ghost use Rattle.tp_names.specs.declared.identifiers.Addr.{Addr};
ghost use Rattle.tp_model.specs.Parts.{Origin, Entry, Arc, Current};
ghost use Rattle.tp_model.specs.Arcs.{find_arc};
ghost use Rattle.tp_names.specs.declared.identifiers.NodeKey.{NodeKey};
ghost use Rattle.tp_model.specs.History.{digest};
ghost use Rattle.tp_model.specs.Legal.{IsLegal};
ghost use Rattle.tp_model.specs.Consistency.{IsKnown};
ghost use Rattle.tp_histories.specs.KnownTests.{agrees, is_quiet};
ghost use Rattle.tp_histories.specs.Known.{declared_agrees, superior_agrees, boot_agrees};
ghost use Rattle.tp_runs.specs.Known.{known_agrees, drawn_agrees, kept_agrees, phase_agrees, key_agrees, above_agrees, branches_agree, asked_agrees};
ghost use Rattle.tp_history_state.specs.Named.{address_in, units_in};
ghost use Rattle.tp_history_state.specs.Reaching.{IsReached, IsProper};
ghost use Rattle.tp_history_state.specs.Known.{agrees_in_parts, decision_agrees, told_prepare_agrees, rests_agrees, awaits_agrees, owes_agrees, superior_rolled_agrees, node_agrees, deferral_agrees, links_agree, link_agrees, control_agrees, below_as_asked, order_agrees, own_agrees, due_agrees, counted_agrees, left_agrees, given_up_agrees, ended_agrees, prepared_agrees, marks_agree};

// Promise 12.23, part 2
/// The parts together are the whole: where each of them agrees, what is known agrees with every question.
pub fn parts_are_the_whole()
    ensures { (o : Origin) (h : List Entry) → agrees_in_parts o h ≡ true → agrees o h ≡ true }
{}

// Promise 12.17: That the node is declared, its superior, its boot number, how many marks it has
//   drawn since its last start, whether it is known from its log, and the transactions that it
//   keeps
/// In every legal history: the node is declared if it was since the last crash, under the superior that it was declared
/// with; its boot number is that of its start and one more for each crash; it has drawn as many marks in this boot as the
/// greatest count among those that it sent; it is known from its log if a key stood there at its last start; and it keeps
/// the transactions whose last record is a damage, in the order in which their keys came into the log, each as that record
/// says, with whether a Forget came for it since. The version of its log is that of its start.
pub fn a_node_is_known()
    ensures declared { (o : Origin) (up : Option Addr) (h : List Entry) → IsLegal o up h → declared_agrees o h ≡ true }
    ensures superior { (o : Origin) (up : Option Addr) (h : List Entry) → IsLegal o up h → superior_agrees o h ≡ true }
    ensures boot { (o : Origin) (up : Option Addr) (h : List Entry) → IsLegal o up h → boot_agrees o h ≡ true }
    ensures drawn { (o : Origin) (up : Option Addr) (h : List Entry) → IsLegal o up h → drawn_agrees o h ≡ true }
    ensures log { (o : Origin) (up : Option Addr) (h : List Entry) → IsLegal o up h → known_agrees o h ≡ true }
    ensures kept { (o : Origin) (up : Option Addr) (h : List Entry) → IsLegal o up h → kept_agrees o h ≡ true }
    ensures all { (o : Origin) (up : Option Addr) (h : List Entry) → IsLegal o up h → node_agrees o h ≡ true }
    ensures version { (o : Origin) (up : Option Addr) (h : List Entry) → IsLegal o up h → (digest o h).version ≡ o.start.version }
{}

// Promise 12.18: The phase of the current transaction, and that every other key is in none, its
//   superior, its branches in order, its decision, and whether commitment was asked for and Prepare
//   was told
/// In every legal history the phase of the current transaction is that of its key: active since it was begun, rolling since
/// the event that rolled it, ready or committing by its last record; and every other key that was begun or logged is in no
/// phase. So is any key but the current one, those that stand in the start's records alone among them.
pub fn phases_are_known()
    ensures phase { (o : Origin) (up : Option Addr) (h : List Entry) → IsLegal o up h → phase_agrees o h ≡ true }
    ensures key { (o : Origin) (up : Option Addr) (h : List Entry) → IsLegal o up h → key_agrees o h ≡ true }
    ensures every { (o : Origin) (up : Option Addr) (h : List Entry) (k : NodeKey) → IsLegal o up h → is_quiet o h (Some k) ≡ true }
{}

// Promise 12.18, part 2
/// In every legal history the superior of the current transaction is who sent its Begin, or whom its last record names, and
/// a root has none; its branches are those to which it sent Begin under its key, in that order, each with its identifier, or
/// those that its last record names where it was not begun since the last crash.
pub fn branches_are_known()
    ensures superior { (o : Origin) (up : Option Addr) (h : List Entry) → IsLegal o up h → above_agrees o h ≡ true }
    ensures branches { (o : Origin) (up : Option Addr) (h : List Entry) → IsLegal o up h → branches_agree o h ≡ true }
{}

// Promise 12.18, part 3
/// In every legal history the decision of the current transaction is the node's own since its key last ended, until it rolls.
pub fn decisions_are_known()
    ensures decision { (o : Origin) (up : Option Addr) (h : List Entry) → IsLegal o up h → decision_agrees o h ≡ true }
{}

// Promise 12.18, part 4
/// In every legal history the current transaction was asked for commitment if its user asked since its key was begun and since
/// the last crash; and its user was told to prepare if an entry since then told it.
pub fn requests_are_known()
    ensures asked { (o : Origin) (up : Option Addr) (h : List Entry) → IsLegal o up h → asked_agrees o h ≡ true }
    ensures prepare { (o : Origin) (up : Option Addr) (h : List Entry) → IsLegal o up h → told_prepare_agrees o h ≡ true }
{}

// Promise 12.20, part 4
/// In every legal history a live arc rests if its end left its transaction over it, and no record but a response came since.
pub fn arcs_are_known()
    ensures rest { (o : Origin) (up : Option Addr) (h : List Entry) → IsLegal o up h → rests_agrees o h ≡ true }
{}

// Promise 12.20: Of an arc that is live: who has control, where it is polarized, whether it waits
//   for a response or owes one, what is deferred on it, and whether it rests
/// In every legal history who holds control of a live polarized arc is told by the last of its causes since the arc became
/// live: a Begin, a Grant, a handshake with control that was answered, a leaving, a phase entered, or a completion.
pub fn control_is_known()
    ensures control { (o : Origin) (up : Option Addr) (h : List Entry) → IsLegal o up h → control_agrees o h ≡ true }
{}

// Promise 12.19, part 2
/// In every legal history the arcs below stand in the order in which their dialogues were last asked for since the last
/// crash, and that is the order that the questions answer.
pub fn order_is_known()
    ensures asked { (o : Origin) (up : Option Addr) (h : List Entry) → IsLegal o up h → below_as_asked o h ≡ true }
    ensures order { (o : Origin) (up : Option Addr) (h : List Entry) → IsLegal o up h → order_agrees o h ≡ true }
{}

// Promise 12.20, part 2
/// In every legal history a live arc waits for a response if a handshake went out on it since it became live, and since
/// then no response that acts came, no phase was entered with the arc as a branch, and neither end left. It owes one if a
/// handshake that acts came, and since then none of these and no response went out; and the response gives control if the
/// last of the causes of control there is that handshake.
pub fn handshakes_are_known()
    ensures awaits { (o : Origin) (up : Option Addr) (h : List Entry) → IsLegal o up h → awaits_agrees o h ≡ true }
    ensures due { (o : Origin) (up : Option Addr) (h : List Entry) → IsLegal o up h → due_agrees o h ≡ true }
{}

// Promise 12.21: Of the current transaction: whether the user owes its done, whether the superior
//   rolled, and the node's own report
/// In every legal history the user owes its done of the current transaction if it was told to commit or to roll back since
/// the key was begun and has not given it since; at a start it owes it if the transaction is committing. The superior has
/// rolled the transaction back if its Rollback acted since the key was begun and since the last crash, or its reply that it
/// knows of nothing came to the ready key. The node's own report is damage if the transaction rolls and the entry that last
/// rolled it logged one.
pub fn orders_are_known()
    ensures owes { (o : Origin) (up : Option Addr) (h : List Entry) → IsLegal o up h → owes_agrees o h ≡ true }
    ensures rolled { (o : Origin) (up : Option Addr) (h : List Entry) → IsLegal o up h → superior_rolled_agrees o h ≡ true }
    ensures own { (o : Origin) (up : Option Addr) (h : List Entry) → IsLegal o up h → own_agrees o h ≡ true }
{}

// Promise 12.20, part 3
/// In every legal history what is deferred on a live arc, its end or a grant, is what was last said or taken there since a
/// transaction began on the arc, unless a rollback, a leaving or a commitment ended it.
pub fn deferrals_are_known()
    ensures deferral { (o : Origin) (up : Option Addr) (h : List Entry) → IsLegal o up h → deferral_agrees o h ≡ true }
{}

// Promise 12.19: The link of each arc, and with every peer, and the order in which the dialogues
//   were asked for
/// In every legal history the link of each arc is what its association was last made, by opening, offering, accepting or
/// ending it, with as many records sent and taken since; no arc is kept whose link is idle; and with a peer to which there is
/// no arc the link is idle.
pub fn links_are_known()
    ensures link { (o : Origin) (up : Option Addr) (h : List Entry) → IsLegal o up h → links_agree o h ≡ true }
    ensures peer { (o : Origin) (up : Option Addr) (h : List Entry) → IsLegal o up h → (p : ℕ) → link_agrees o p h ≡ true }
{}

// Promise 12.23, part 4
/// In every legal history an arc has the address at which its peer was last asked for a dialogue, or offered one, and the
/// functional units that were last proposed or agreed on it.
pub fn arcs_are_named()
    ensures address { (o : Origin) (up : Option Addr) (h : List Entry) (p : ℕ) (a : Arc) → IsLegal o up h
        → find_arc (digest o h).arcs p ≡ Some a → address_in p h ≡ Some a.peer }
    ensures units { (o : Origin) (up : Option Addr) (h : List Entry) (p : ℕ) (a : Arc) → IsLegal o up h
        → find_arc (digest o h).arcs p ≡ Some a → units_in p h ≡ a.dialogue.units }
{}

// Promise 12.22: Of each branch of the current transaction: whether it was told to prepare, was
//   counted, has left, was given up, or has ended, and with which report
/// In every legal history a branch of the current transaction was told to prepare if an entry said Prepare to it since the key
/// was begun and since the last crash; it was counted if its Ready acted since then; it left if its leaving acted since then
/// while the key was active; it was given up if the node gave it up since then; and it ended if a record or a reply ended it
/// since then, with the report of the first that did. So all its marks are known.
pub fn marks_are_known()
    ensures prepared { (o : Origin) (up : Option Addr) (h : List Entry) → IsLegal o up h → prepared_agrees o h ≡ true }
    ensures counted { (o : Origin) (up : Option Addr) (h : List Entry) → IsLegal o up h → counted_agrees o h ≡ true }
    ensures left { (o : Origin) (up : Option Addr) (h : List Entry) → IsLegal o up h → left_agrees o h ≡ true }
    ensures given_up { (o : Origin) (up : Option Addr) (h : List Entry) → IsLegal o up h → given_up_agrees o h ≡ true }
    ensures ended { (o : Origin) (up : Option Addr) (h : List Entry) → IsLegal o up h → ended_agrees o h ≡ true }
    ensures all { (o : Origin) (up : Option Addr) (h : List Entry) → IsLegal o up h → marks_agree o h ≡ true }
{}

/// A test that computes stands for it: it holds wherever all that is known is what the questions answer; and where it holds,
/// every key but the current one is in no phase, and the version of the log is that of the start, it is so.
pub fn what_is_known_is_tested()
    // Promise 12.23, part 3 [clauses known tested]
    ensures known { (o : Origin) (h : List Entry) → IsKnown o h → agrees o h ≡ true }
    ensures tested { (o : Origin) (h : List Entry) → agrees o h ≡ true → ((k : NodeKey) → is_quiet o h (Some k) ≡ true)
        → (digest o h).version ≡ o.start.version → IsKnown o h }
{}

/// A branch whose word is still awaited can be reached: in every legal history, while the current transaction is active, the
/// association with a branch that has neither answered nor ended is live. So the Prepare that a commitment says to each
/// branch goes out to each that was not told before; and no branch of an active transaction has answered, or ended, that was
/// not told to prepare.
pub fn awaited_branches_are_reached()
    // Promise 12.41 [tp_history_state/specs/Reaching.antt, clauses live told]: While the current
    //   transaction is active, the association with a branch that has neither answered nor ended is
    //   live, and no branch has answered or ended that was not told to prepare
    ensures live { (o : Origin) (up : Option Addr) (h : List Entry) (p : ℕ) → IsLegal o up h → IsReached p (digest o h) }
    ensures told { (o : Origin) (up : Option Addr) (h : List Entry) (c : Current) → IsLegal o up h → (digest o h).current ≡ Some c → IsProper c }
{}
