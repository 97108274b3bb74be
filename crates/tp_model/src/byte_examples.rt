//! Worked examples in bytes: values, logs, and a site alone on frames.
//!
//! Each function has an empty body; its clauses are the example.
ghost use Rattle.std.specs.Prelude.{◌≡◌, codes, [], Some};
ghost use Rattle.tp_names.specs.Reading.{addr_of, mark_of};
ghost use Rattle.tp_records.specs.declared.body.Event.{Event};
ghost use Rattle.tp_records.specs.declared.request.Request.{Request};
ghost use Rattle.tp_records.specs.declared.peer.PeerRecord.{PeerRecord};
ghost use Rattle.tp_records.specs.Bodies.{event_bytes, peer_bytes};
ghost use Rattle.tp_records.specs.BodyReading.{peer_in};
ghost use Rattle.tp_framing.specs.Frames.{frame_bytes};
ghost use Rattle.tp_logrec.specs.declared.record.LogRec.{LogRec};
ghost use Rattle.tp_model.specs.declared.verdict.Why.{Why};
ghost use Rattle.tp_model.specs.Transcript.{Bad_input};
ghost use Rattle.tp_model.specs.Disk.{disk_bytes, remains, fresh_disk};
ghost use Rattle.tp_model.specs.LogCommands.{formatted, start_leaves};
ghost use Rattle.tp_model.specs.Generator.{summary};
ghost use Rattle.tp_model.specs.Samples.{bytes, ran_on, wrote, left_by, ending_of, shown_log, checked_log, compacted_log, migrated_log, foreign_at};

/// The bytes of an event, of a record, and of an event that carries it; and back.
pub fn bytes_of_values()
    ensures declare { frame_bytes (event_bytes (Event.Declare 2 (Some (addr_of (codes "a") 1)))) ≡ bytes (codes "0008 0100020101610001") }
    ensures opening { peer_bytes (PeerRecord.OpenAssoc (mark_of 1 1 1) 41) ≡ bytes (codes "01 0000000000000001 0001 0000000000000001 29") }
    ensures read { peer_in (bytes (codes "01 0000000000000001 0001 0000000000000001 29")) ≡ Some (PeerRecord.OpenAssoc (mark_of 1 1 1) 41) }
    ensures arrive { frame_bytes (event_bytes (Event.Arrive (addr_of (codes "a") 1) (addr_of (codes "b") 2) (bytes (codes "01 0000000000000001 0001 0000000000000001 29")))) ≡ bytes (codes "001f 03 01610001 01620002 0014 01 0000000000000001 0001 0000000000000001 29") }
    ensures accept { frame_bytes (event_bytes (Event.Do 2 (Request.Accept 41))) ≡ bytes (codes "0005 0200020229") }
{}

/// Frames in, frames out, and the log that is left.
pub fn a_site_alone()
    ensures written { wrote (ran_on (codes "a") (codes "4f54504c0100") (codes "0004010001000004 02000111")) ≡ bytes (codes "000113 00021206 000113") }
    ensures log { left_by (ran_on (codes "a") (codes "4f54504c0100") (codes "0004010001000004 02000111")) ≡ bytes (codes "4f54504c01 01 0009 010000000000000001 00") }
    ensures part { wrote (ran_on (codes "a") (codes "4f54504c0100") (codes "0004010001000004")) ≡ bytes (codes "000113") }
    ensures short { ending_of (ran_on (codes "a") (codes "4f54504c0100") (codes "00040100010000")) ≡ Some (Bad_input 2 Why.Short) }
{}

/// A dialogue that comes and is accepted.
pub fn a_dialogue_is_accepted()
    ensures written { wrote (ran_on (codes "b") (codes "4f54504c0100") (codes "0008 0100020101610001 001f 03 01610001 01620002 0014 01 0000000000000001 0001 0000000000000001 29 0005 0200020229")) ≡ bytes (codes "000113 0007 10000201000129 000113 0031 11 01620002 01610001 0026 02 0000000000000001 0001 0000000000000001 0000000000000001 0002 0000000000000001 29 000113") }
{}

/// Frames that no peer of this machine sends, each refused by its number.
pub fn hostile_frames()
    ensures written { wrote (ran_on (codes "b") (codes "4f54504c0100") (codes "0008 0100020101610001 000c 03 01610001 01620002 0001 ff 001f 03 01610001 01630002 0014 01 0000000000000001 0001 0000000000000001 29 001f 03 01610001 01620002 0014 01 0000000000000001 0001 0000000000000001 29 001f 03 01610001 01620002 0014 01 0000000000000001 0001 0000000000000001 29 0005 0200020229 0039 03 01610001 01620002 002e 04 0000000000000001 0001 0000000000000001 0000000000000001 0002 0000000000000001 0000000000000000 0e")) ≡ bytes (codes "000113 00021219 000113 00021217 000113 0007 10000201000129 000113 00021215 000113 0031 11 01620002 01610001 0026 02 0000000000000001 0001 0000000000000001 0000000000000001 0002 0000000000000001 29 000113 00021218 0031 11 01620002 01610001 0026 03 0000000000000001 0001 0000000000000001 01 0000000000000001 0002 0000000000000001 0006 100002080001 000113") }
{}

/// Lengths that no frame has, and a body that is no event.
pub fn bad_frames()
    ensures none { ending_of (ran_on (codes "a") (codes "4f54504c0100") (codes "0000")) ≡ Some (Bad_input 1 Why.Length) }
    ensures long { ending_of (ran_on (codes "a") (codes "4f54504c0100") (codes "0801")) ≡ Some (Bad_input 1 Why.Length) }
    ensures output { ending_of (ran_on (codes "a") (codes "4f54504c0100") (codes "000113")) ≡ Some (Bad_input 1 Why.Body) }
{}

/// Where a log is foreign.
pub fn foreign_logs()
    ensures cut { foreign_at (codes "4f54504c01 01 0005 01") ≡ Some 5 }
    ensures gate { foreign_at (codes "4f54504c01") ≡ Some 5 }
    ensures rest { shown_log (codes "4f54504c01 00 ffff") ≡ Some [] }
    ensures nothing { foreign_at [] ≡ Some 0 }
{}

/// A damage that was never forgotten, in both versions of the log.
pub fn damage_is_found()
    ensures show { shown_log (codes "4f54504c01 01 0009 01 0000000000000001 01 0031 04 0001 0161 0000000000000001 0001 0000000000000002 00 01 01620002 0161 0000000000000001 0001 0000000000000003 01 001b 05 0001 0161 0000000000000001 0001 0000000000000002 00 01 01 00 00") ≡ Some (codes "5 boot 1\n17 commit 1 a.1.1.2 -\n69 damage 1 a.1.1.2 - commit hazard\n") }
    ensures check { checked_log (codes "4f54504c01 01 0009 01 0000000000000001 01 0031 04 0001 0161 0000000000000001 0001 0000000000000002 00 01 01620002 0161 0000000000000001 0001 0000000000000003 01 001b 05 0001 0161 0000000000000001 0001 0000000000000002 00 01 01 00 00") ≡ Some (codes "69 damage 1 a.1.1.2 - commit hazard\n") }
    ensures migrated { migrated_log (codes "4f54504c01 01 0009 01 0000000000000001 01 0031 04 0001 0161 0000000000000001 0001 0000000000000002 00 01 01620002 0161 0000000000000001 0001 0000000000000003 01 001b 05 0001 0161 0000000000000001 0001 0000000000000002 00 01 01 00 00") ≡ Some (bytes (codes "4f54504c01 01 0002 0702 01 0009 01 0000000000000001 01 0032 04 0001 0161 0000000000000001 0001 0000000000000002 00 0001 01620002 0161 0000000000000001 0001 0000000000000003 01 001c 05 0001 0161 0000000000000001 0001 0000000000000002 00 01 01 0000 00")) }
    ensures wide { shown_log (codes "4f54504c01 01 0002 0702 01 0009 01 0000000000000001 01 0032 04 0001 0161 0000000000000001 0001 0000000000000002 00 0001 01620002 0161 0000000000000001 0001 0000000000000003 01 001c 05 0001 0161 0000000000000001 0001 0000000000000002 00 01 01 0000 00") ≡ Some (codes "10 boot 1\n22 commit 1 a.1.1.2 -\n75 damage 1 a.1.1.2 - commit hazard\n") }
    ensures clean { checked_log (codes "4f54504c01 01 0009 010000000000000001 00") ≡ Some [] }
{}

/// A compaction, and one that was cut short.
pub fn two_generations()
    ensures compacted { compacted_log (codes "4f54504c01 01 0009 010000000000000001 01 0009 010000000000000002 00") ≡ Some (bytes (codes "4f54504c01 01 0009 010000000000000002 00")) }
    ensures shown { shown_log (codes "4f54504c02ffffffffffffffffffffffffff01 0009 010000000000000002 00 0000000000000012") ≡ Some (codes "5 boot 2\n") }
    ensures started { start_leaves (bytes (codes "4f54504c02ffffffffffffffffffffffffff01 0009 010000000000000002 00 0000000000000012")) ≡ bytes (codes "4f54504c01 01 0009 010000000000000002 00") }
{}

/// A fresh log, and what a stop in the force of its first boot leaves.
pub fn a_fresh_disk()
    ensures format { formatted ≡ bytes (codes "4f54504c01 01 0002 0702 00") }
    ensures before { disk_bytes (remains 2 255 (LogRec.Boot 1) fresh_disk).disk ≡ bytes (codes "4f54504c01 01 0002 0702 00ffffffffffffffffffffffff") }
    ensures kept { disk_bytes (remains 4 1 (LogRec.Boot 1) fresh_disk).disk ≡ bytes (codes "4f54504c01 01 0002 0702 01 0009 010000000000000001 00") }
    ensures lost { disk_bytes (remains 4 0 (LogRec.Boot 1) fresh_disk).disk ≡ bytes (codes "4f54504c01 01 0002 0702 00 0009 010000000000000001 00") }
{}

/// The summary of the schedule that is made of 1, with two nodes and one round.
pub fn a_trial()
    ensures written { summary 1 2 1 ≡ codes "lines 16\nframes 7\ncommit 1\nrollback 0\nmixed 0\nopen 0\n" }
{}
