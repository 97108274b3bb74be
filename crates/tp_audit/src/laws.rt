//! What the logs of every run tell a judge. The contract is the law; the body names the laws on which it stands.
ghost use Rattle.std.specs.Prelude.{◌≡◌, List, []};
ghost use Rattle.tp_model.specs.Happenings.{Happening, run};
ghost use Rattle.tp_audit.specs.declared.verdict.Verdict.{Verdict};
ghost use Rattle.tp_audit.specs.Entries.{SiteLog, entries};
ghost use Rattle.tp_audit.specs.Verdicts.{outcome_of, verdict_by, verdict};
ghost use Rattle.tp_audit.specs.Runs.{logs_of, AreOn, AreWhole};
ghost use Rattle.tp_audit.specs.Mismatches.{mismatches};

use tp_laws::{a_sites_log_tells_its_nodes, logs_agree};

// Promise 9.6: **In every run the verdict over the logs of all sites is yes; so it is over the logs
//   of some of them, over parts of the logs, and without the exception for decisions**
/// In every run, with every fault that a world knows, no two nodes ended apart by the records that stand on the disks of the
/// sites: the verdict is yes over the logs of all sites. It is yes too over the logs of some of them, over parts of the logs,
/// as where one was copied before the other, and even without the exception for nodes that took a decision of their own. And whole
/// logs of some of the sites, as they stand on the disks at one moment, belong together: no mismatch is found in them.
pub fn audit_of_run()
    ensures all { (es : List Happening) → verdict (logs_of (run es)) ≡ Verdict.Yes }
    ensures parts { (es : List Happening) (logs : List SiteLog) → AreOn (run es) logs → verdict logs ≡ Verdict.Yes }
    // Promise 9.12 [clauses mismatches]: **In every run no whole logs are told not to belong
    //   together**, of all sites or of some, as they stand on the disks at one moment
    ensures mismatches { (es : List Happening) (logs : List SiteLog) → AreWhole (run es) logs → mismatches logs ≡ [] }
    ensures decisions { (es : List Happening) (logs : List SiteLog) → AreOn (run es) logs → verdict_by outcome_of (entries logs) ≡ Verdict.Yes }
{
    logs_agree();
    a_sites_log_tells_its_nodes();
}
