//! Laws of the definitions. The bodies are empty: each contract is the law.
ghost use Rattle.std.specs.Prelude.{◌≡◌, ◌<◌, ◌^◌, ℕ, Bool, List, length};
ghost use Rattle.std.specs.List.{AllByRecursion};
ghost use Rattle.tp_logrec.specs.declared.record.LogRec.{LogRec};
ghost use Rattle.tp_logrec.specs.LogText.{Foreign, read_log};
ghost use Rattle.tp_journal.specs.Foreign.{IsForeign};
ghost use Rattle.tp_journal.specs.Log.{StandsFor};
ghost use Rattle.tp_journal.specs.Records.{HasText, bodies_of, record_body};
ghost use Rattle.tp_log_tools.specs.Readings.{IsFile, IsReadAlike};

// Promise 4.1: A start finds the records that the definitions read, places them where these say,
//   and calls a file foreign at the place that these tell
/// The records that a start finds in a file, the places at which they stand after it, and the bytes that it leaves are those
/// of the definitions; so is the place at which a start calls a file foreign.
pub fn what_is_read_is_what_is_started()
    ensures found { (file : List ℕ) (wide : Bool) (rs : List LogRec) (stands : StandsFor file (bodies_of wide rs)) → length file < 2 ^ 64
        → AllByRecursion (HasText wide) rs → IsReadAlike file wide rs stands }
    ensures foreign { (file : List ℕ) (at : ℕ) → IsFile file → IsForeign record_body file at → read_log file ≡ Foreign at }
{}
