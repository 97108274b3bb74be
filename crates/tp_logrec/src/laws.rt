//! Laws of records, their logs and their briefs. The bodies are empty: each contract is the law.
ghost use Rattle.std.specs.Prelude.{◌≡◌, ◌<◌, ◌^◌, ℕ, List, length, true};
ghost use Rattle.tp_logrec.specs.declared.record.LogRec.{LogRec};
ghost use Rattle.tp_logrec.specs.declared.record.LogVersion.{LogVersion};
ghost use Rattle.tp_names.specs.Grammar.{IsGrammar};
ghost use Rattle.tp_names.specs.Places.{AreBytes};
ghost use Rattle.tp_logrec.specs.RecordReading.{record_grammar};
ghost use Rattle.tp_logrec.specs.LogText.{IsLog, Foreign, Reads, Placed, recs, read_log, IsReadAs};
ghost use Rattle.tp_logrec.specs.Order.{all_follow, brief, IsStandingAlike};

// Promise 2.13: In either version of a log a record that has a text has just one, which reads back
//   to it, and no text is a proper prefix of another; where bytes begin with none, the exact place
//   is told where they are bad
/// The texts of records, in each version: a text has one record, what is read is a text, and no
/// text is a proper front of another.
pub fn records_have_texts()
    ensures { (ver : LogVersion) → IsGrammar (record_grammar ver) }
{}

// Promise 2.17: Of fewer than 2^64 bytes, a log stands for the one list of records that is read of
//   it, and what is read as foreign stands for none
/// A log of records is read as that log.
pub fn a_log_is_read()
    ensures { (bytes : List ℕ) (rs : List LogRec) → length bytes < 2 ^ 64 → IsLog bytes rs → IsReadAs bytes rs }
{}

// Promise 2.17, part 2
/// No bytes are a log of two lists of records.
pub fn a_log_stands_for_one_list()
    ensures { (bytes : List ℕ) (rs qs : List LogRec) → length bytes < 2 ^ 64 → IsLog bytes rs → IsLog bytes qs → rs ≡ qs }
{}

// Promise 2.17, part 3
/// What is read as foreign is a log of no records.
pub fn foreign_bytes_are_no_log()
    ensures { (bytes : List ℕ) (at : ℕ) (rs : List LogRec) → length bytes < 2 ^ 64 → read_log bytes ≡ Foreign at → IsLog bytes rs → ⊥ }
{}

// Promise 2.15: A brief stands for what its list stands for
/// A brief has the standing of its list, whatever the list, and is its own brief.
pub fn a_brief_stands_alike()
    ensures standing { (rs : List LogRec) → IsStandingAlike (brief rs) rs }
    ensures again { (rs : List LogRec) → brief (brief rs) ≡ brief rs }
{}

// Promise 2.16: The brief of a list in order is in order
/// The brief of a list in order is in order: each of its records follows those before it.
pub fn a_brief_is_in_order()
    ensures { (rs : List LogRec) → all_follow rs ≡ true → all_follow (brief rs) ≡ true }
{}

// Promise 2.18: What is read of bytes as a log is a log of those records
/// What is read of bytes as a log is a log of those records.
pub fn what_is_read_is_a_log()
    ensures { (bytes : List ℕ) (version : LogVersion) (placed : List Placed) (gate : ℕ) → AreBytes bytes
        → read_log bytes ≡ Reads version placed gate → IsLog bytes (recs placed) }
{}
