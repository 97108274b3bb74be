//! The audit of a stream of frames.
ghost use Rattle.std.specs.Prelude.{◌≡◌, ◌≤◌, ◌++◌, ◌∷◌, ℕ, List, Some, IfErr, IfOk};
ghost use Rattle.tp_model.specs.Words.{words};
ghost use Rattle.tp_audit_tool.specs.AuditTranscript.{verdict_words, fate_texts};
ghost use Rattle.tp_audit_tool.specs.Audited.{Hears, Audits, NamesMismatches, IsHearStop, StopsHearing, StopsAudit, IsAuditStop, LeavesSink};

use crate::hearing::Hearing;
use crate::lines::{findings_of, write_fates, write_verdict};
use std::alloc::Global;
use tp_audit::{Fate, Mismatch, Verdict};
use tp_names::{NoMemory, Octets};
use tp_outside::{Sink, Source};
use tp_streams::{Intake, Stop, write_all};

/// What an audit found.
#[derive(Drop)]
pub struct Audited {
    /// How many findings there are: one, where two nodes of a tree ended apart, or none.
    pub findings: u64,
    /// The logs that do not belong together, which no line speaks of.
    pub mismatches: Vec<Mismatch>,
}

// Reads all frames, and the logs that they hold.
fn hear<S: Source>(alloc: Global, source: &mut S) -> Result<Hearing, Stop>
    ensures heard { IfOk result (λ h. (bytes : List ℕ) → S.left source.old ≡ Some bytes → Hears bytes h.audit (S.left source.new)) }
    ensures stopped { IfErr result (λ stop. (bytes : List ℕ) → S.left source.old ≡ Some bytes → StopsHearing bytes stop) }
    ensures stops { IfErr result (IsHearStop (S.fault_count source.old) (S.fault_count source.new)) }
    ensures kept { S.fault_count source.old ≤ S.fault_count source.new }
{
    let mut intake = Intake::new(alloc);
    let mut hearing = Hearing::new(alloc);
    while let Some(body) = intake.next(alloc, source)? {
        hearing.take(alloc, body.as_slice(), intake.at())?;
    }
    hearing.close(alloc)?;
    Ok(hearing)
}

// What is written of the logs.
fn text_of(alloc: Global, verdict: &Verdict, fates: &[Fate]) -> Result<Octets, NoMemory>
    ensures { IfOk result (λ text. text ≡ words (verdict_words verdict.now) ++ 10 ∷ fate_texts fates.now) }
{
    let mut text = Octets::new(alloc);
    write_verdict(alloc, verdict, &mut text)?;
    write_fates(alloc, fates, &mut text)?;
    Ok(text)
}

/// Reads frames that hold the logs of several sites, and writes the verdict over them and the fate of each node that is in
/// doubt, as lines. It answers how many findings there are, and which logs do not belong together. A stop of the sink leaves a
/// prefix of the lines, and every other stop nothing.
pub fn audit<S: Source, K: Sink>(
    alloc: Global,
    source: &mut S,
    sink: &mut K,
) -> Result<Audited, Stop>
    // Promise 9.7: Frames out of a source that tells its bytes are read as the definitions read
    //   them; on Ok the verdict and the fates are written as lines, to the byte, and one finding is
    //   answered exactly where the verdict is `differ`
    ensures audits { IfOk result (λ found. (bytes : List ℕ) → S.left source.old ≡ Some bytes
        → Audits bytes found.findings (S.left source.new) (K.written sink.old) (K.written sink.new)) }
    // Promise 9.11, part 2
    ensures mismatches { IfOk result (λ found. (bytes : List ℕ) → S.left source.old ≡ Some bytes → NamesMismatches bytes found.mismatches.items) }
    // Promise 9.8: A bad frame, a limit or a foreign log is told exactly as the definitions tell
    //   the first that comes, unless the source fails before
    // Promise 9.9 [clauses stopped untouched]: Where the sink fails, the input is good to its end
    //   and a prefix of the lines is written; after every other stop nothing is
    ensures stopped { IfErr result
        (λ stop. (bytes : List ℕ) → S.left source.old ≡ Some bytes → StopsAudit bytes (K.written sink.old) (K.written sink.new) stop) }
    // Promise 9.10: A fault of the source or of the sink comes only where its count rose, with the
    //   new count; a frame that is told has a number from 1 on
    ensures stops { IfErr result (IsAuditStop (S.fault_count source.old) (S.fault_count source.new) (K.fault_count sink.old) (K.fault_count sink.new)) }
    ensures untouched { IfErr result (LeavesSink (sink.new ≡ sink.old)) }
    ensures source { S.fault_count source.old ≤ S.fault_count source.new }
    ensures sink { K.fault_count sink.old ≤ K.fault_count sink.new }
{
    let hearing = hear(alloc, source)?;
    let judge = hearing.audit();
    let verdict = judge.verdict();
    let doubts = judge.fates(alloc)?;
    let fates = doubts.as_slice();
    let mismatches = judge.mismatches(alloc, fates)?;
    let text = text_of(alloc, &verdict, fates)?;
    write_all(sink, text.as_slice())?;
    Ok(Audited {
        findings: findings_of(&verdict),
        mismatches,
    })
}
