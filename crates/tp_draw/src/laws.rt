//! Laws of pictures.
//!
//! Each function has an empty body; its clause is the law.
ghost use Rattle.std.specs.Prelude.{◌≡◌, ◌<◌, ℕ, Some, List, length, map, take, true, false};
ghost use Rattle.tp_model.specs.declared.out_line.OutLine.{OutLine};
ghost use Rattle.tp_draw.specs.Texts.{escaped};
ghost use Rattle.tp_draw.specs.Escapes.{is_text};
ghost use Rattle.tp_draw.specs.Lanes.{lanes_of};
ghost use Rattle.tp_draw.specs.Chosen.{is_among, chosen};
ghost use Rattle.tp_draw.specs.Ends.{end_of};
ghost use Rattle.tp_draw.specs.Shapes.{place_of};
ghost use Rattle.tp_draw.specs.declared.flight.Flight.{Flight};
ghost use Rattle.tp_draw.specs.declared.track.Track.{Track};
ghost use Rattle.tp_draw.specs.Flights.{flight_of};
ghost use Rattle.tp_draw.specs.Bands.{first_tracks, tracks_after};
ghost use Rattle.tp_draw.specs.Laws.{item, shape_of_take, IsTrack, shapes, sends, arrows, arrow_of, logs, marks, mark_of_log, Says, is_placed, is_named, lanes_with, HasOneLane};

// Promise 21.2 [tp_draw/specs/Laws.antt]: Each frame that was sent is one arrow, in order, from the
//   lane of the node that sent it to the lane of the one to which it was sent
/// The arrows of a picture are those of the frames that were sent, one for each, in order: each goes from the lane of
/// the node that sent it to that of the node to which it was sent, and to the frame's end.
pub fn each_send_is_one_arrow()
    ensures { (os : List OutLine) → arrows (shapes os) ≡ map (arrow_of os) (sends os) }
{}

// Promise 21.4 [tp_draw/specs/Laws.antt]: Each record in the log is one mark, in order
/// The marks of a picture are those of the records in the log, one for each, in order.
pub fn each_log_line_is_one_mark()
    ensures { (os : List OutLine) → marks (shapes os) ≡ map (mark_of_log os) (logs os) }
{}

// Promise 21.3 [tp_draw/specs/Laws.antt]: An arrow ends in the row of the first line that says that
//   its frame was taken or lost, and what was taken is refused exactly where the next line says
//   that something was refused or dropped; an arrow has no end where no line says either
/// An arrow ends in the row of the first line that says that its frame was taken or lost, and what was taken is refused
/// where the line after it says that something was refused or dropped; where no line says either, it has no end.
pub fn an_arrow_ends_where_its_frame_does()
    ensures { (os : List OutLine) (k : ℕ) → Says k os (end_of os k) }
{}

// Promise 21.11 [tp_draw/specs/Laws.antt]: Each take of a frame that was sent is the end of the
//   arrow of its send where it is the first end of the frame, and else has an arrow of its own,
//   from the row of the first send
/// Each take of a frame that was sent ends one arrow. Where it is the first end of the frame, that is the arrow of the
/// send; else the take has one of its own, from the row of the send.
pub fn each_take_ends_one_arrow()
    ensures { (os : List OutLine) (r k : ℕ) (f : Flight) → item os r ≡ Some (OutLine.Take k) → flight_of os k ≡ Some f
        → item (shapes os) r ≡ Some (shape_of_take os r k f) }
{}

// Promise 21.12 [tp_draw/specs/Laws.antt]: At each line the band on a lane is what the last record
//   of its node says that is no heuristic decision: in doubt, committed, rolled back, or nothing,
//   where it may say that the node rolls back; and there is a gap where a stop of its site is later
//   than its last start
/// After any number of lines the band of a lane is what the last record of its node says that is no heuristic decision; where that
/// says nothing the node may be rolling back. There is a gap where its site is down.
pub fn a_band_is_what_the_records_say()
    ensures { (os : List OutLine) (count place : ℕ) (t : Track) → item (tracks_after (take count os) (first_tracks os)) place ≡ Some t
        → IsTrack (take count os) (item (lanes_of os) place) t }
{}

// Promise 21.5 [tp_draw/specs/Laws.antt]: Each node that a transcript names by its declaration, a
//   record of it in the log, a frame from it or to it, what its user is told, or its state, has one
//   lane
/// Each node that a transcript names by its declaration, a record, a frame, what its user is told, or its state, has one lane.
pub fn each_node_has_one_lane()
    ensures { (os : List OutLine) (n : ℕ) → is_named n os ≡ true → HasOneLane n (lanes_of os) (place_of os n) }
{}

// Promise 21.13 [tp_draw/specs/Chosen.antt, tp_draw/specs/Subjects.antt]: Where nodes are chosen,
//   each of them whose site the transcript tells keeps its one lane, and no node has a lane that is
//   not chosen
/// In a picture of chosen nodes each of them whose site the transcript tells has one lane, and no other node has any.
pub fn a_chosen_node_keeps_its_lane()
    ensures kept { (ns : List ℕ) (os : List OutLine) (n : ℕ) → is_among n ns ≡ true → is_placed n os ≡ true
        → HasOneLane n (lanes_of (chosen ns os)) (place_of (chosen ns os) n) }
    ensures others { (ns : List ℕ) (os : List OutLine) (n : ℕ) → 0 < length ns → is_among n ns ≡ false → lanes_with n (lanes_of (chosen ns os)) ≡ 0 }
{}

// Promise 21.6 [tp_draw/specs/Escapes.antt]: A text that is escaped for an SVG file is text alone
//   there, whatever its octets are
/// A text that is escaped for an SVG file is text alone there, whatever its octets are.
pub fn text_is_escaped()
    ensures { (xs : List ℕ) → is_text (escaped xs) ≡ true }
{}
