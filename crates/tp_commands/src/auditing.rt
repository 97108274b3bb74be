//! The logs of several sites, judged together.
ghost use Rattle.std.specs.Prelude.{◌≡◌, ℕ, List, Some};
ghost use Rattle.tp_words.specs.declared.command.Command.{Command};
ghost use Rattle.tp_replay.specs.Status.{Ends};
ghost use Rattle.tp_commands.specs.Commands.{exits};
ghost use Rattle.tp_commands.specs.Auditing.{AuditsLogs, TellsMismatches};

use std::alloc::Global;
use tp_audit::Mismatch;
use tp_audit_tool::{Audited, audit};
use tp_outside::{Sink, Source};
use tp_replay::Status;

/// Reads frames that hold the logs of several sites, and writes the verdict over them and the fate of each node that is in
/// doubt. It answers the logs too that do not belong together, where the lines were written.
#[tactic(auto, using(crate::proofs::Judged::judged, crate::proofs::Judged::named, crate::proofs::Judged::unnamed))]
pub fn audit_logs<S: Source, K: Sink>(
    alloc: Global,
    source: &mut S,
    sink: &mut K,
) -> (Status, Vec<Mismatch>)
    // Promise 18.15, part 2 [clauses ends audits]
    ensures ends { (disk_old disk_new : ℕ)
        → Ends (exits Command.Audit) (S.fault_count source.old) (S.fault_count source.new) (K.fault_count sink.old) (K.fault_count sink.new)
        disk_old disk_new result.0 }
    ensures audits { AuditsLogs result.0 (S.left source.old) (S.left source.new) (K.written sink.old) (K.written sink.new) (sink.new ≡ sink.old) }
    // Promise 9.11, part 3
    ensures mismatches { (bytes : List ℕ) → S.left source.old ≡ Some bytes → TellsMismatches bytes result.0 result.1.items }
{
    match audit(alloc, source, sink) {
        Ok(audited) => {
            let Audited {
                findings,
                mismatches,
            } = audited;
            (Status::of_findings(Ok(findings)), mismatches)
        }
        Err(stop) => (Status::of_findings(Err(stop)), Vec::new(alloc)),
    }
}
