//! Laws of what sites force and say: each record and each output has what a text of it asks for, besides numbers and names within
//! their bounds. Each is the contract of a function with an empty body.
#![tactic(auto)]

ghost use Rattle.std.specs.Prelude.{ℕ, ◌≡◌, true, Some, None, List};
ghost use Rattle.tp_records.specs.declared.body.Event.{Event as Given};
ghost use Rattle.tp_model.specs.Parts.{Who, Start, Event, Digest, Entry};
ghost use Rattle.tp_model.specs.Events.{started, refusal, action};
ghost use Rattle.tp_model.specs.History.{answer};
ghost use Rattle.tp_model.specs.NodeRun.{Opening, origin_at, Is, asked, log_after};
ghost use Rattle.tp_steps.specs.Trees.{out_tells};
ghost use Rattle.tp_texts.specs.Shapes.{AreShaped};
ghost use Rattle.tp_encodable.specs.Texts.{HaveTexts};
ghost use Rattle.tp_encodable.specs.Sizes.{AreShort};
ghost use Rattle.tp_encodable.specs.Begins.{is_begin_told, takes_begin};
ghost use Rattle.tp_encodable.specs.Standing.{StandsShaped, IsShapedMove};

// Promise 12.37: Each record that a site forces is shaped as a text in its log asks, on every log
//   whose records are so shaped, whatever the site is given
/// Every record that a site forces is shaped as a text in its log asks: its key has a branch where it must, a superior is named
/// exactly where the key has a branch, a damage has a report, and there are no more children than fit. So it is for every log, in
/// order or not, whoever made it up, and every list of events that a site is given on it: where the records of the log are so
/// shaped, those of the whole log after the events are. The records of a log that is read from bytes are: each has a text.
pub fn records_keep_their_shape()
    ensures shaped { (o : Opening) (es : List Given) → AreShaped o.version o.records → AreShaped o.version (log_after o es) }
    ensures texts { (o : Opening) (es : List Given) → HaveTexts o.version o.records → AreShaped o.version (log_after o es) }
{}

// Promise 12.39: No output of an event that a site is given, as octets where it is a record,
//   carries more of a user's octets than fit in a record
/// Whatever a site is given, and whatever came before, no output of its node carries more of a user's octets than fit in a record: a
/// request with more is refused, and octets with more are no text of a record.
pub fn outputs_carry_what_fits()
    ensures { (o : Opening) (g : Given) (n : ℕ) (e : Event) (h : List Entry) (y : Entry) → asked o g ≡ Is n e
        → (answer (origin_at o n) h e).entry ≡ Some y → AreShort y.outs }
{}

// Promise 12.40: A user is told that a transaction of its superior begins only by a Begin that is
//   taken
/// Whatever is known of a node, its user is told that a transaction of its superior begins only by a Begin that is taken.
pub fn only_a_begin_is_told_as_one()
    ensures { (who : Who) (d : Digest) (e : Event) → refusal who d e ≡ None → out_tells is_begin_told (action who d e).outs ≡ true → takes_begin e ≡ true }
{}

// Promise 12.38: What keeps a node's records shaped so is true after a start on such records, and
//   after every event
/// What is kept true of a node, whatever its history: a start on records that are shaped as texts ask leaves it so, and every event
/// that is not refused does, and asks for no record that is shaped otherwise.
pub fn a_node_stays_shaped()
    ensures start { (s : Start) → AreShaped s.version s.records → StandsShaped (started s) }
    ensures event { (who : Who) (d : Digest) (e : Event) → refusal who d e ≡ None → StandsShaped d → IsShapedMove d (action who d e) }
{}
