//! The program's one call.
ghost use Rattle.std.specs.Prelude.{ℕ, ◌≡◌, ◌≢◌, ◌↔◌, ◌++◌, [], List, Option, IfOk, OnOk};
ghost use Rattle.tp_model.specs.OutText.{out_texts};
ghost use Rattle.tp_model.specs.Words.{words};
ghost use Rattle.tp_text_builder.specs.Written.{Adds};
ghost use Rattle.tp_unite.specs.Verdicts.{Stops};
ghost use Rattle.tpunite.specs.Runs.{verdict_words, verdict_line, report_text, status_after, Runs, IsStopped, IsUnjudged, Writes};
ghost use Rattle.tpunite.specs.declared.status.Status.{Status as TheStatus};

use crate::Status;
use std::alloc::Global;
use tp_model::{OutLine, OutLines};
use tp_names::{NoMemory, Octets};
use tp_outside::{Sink, Source};
use tp_streams::{Stop, write_all};
use tp_text_builder::Text;
use tp_transcript::write_out;
use tp_unite::{Verdict, unite};

// How a program ends that stops so. What comes of a log on a disk does not come here.
fn status_of(stop: Stop) -> Status
    ensures stopped { IsStopped result }
    ensures unjudged { (left : Option (List ℕ)) (old new : ℕ) → Stops left old new stop → IsUnjudged left old new result }
{
    match stop {
        Stop::BadInput { at, why } => Status::BadInput { at, why },
        Stop::Limit { what, at } => Status::Limit { what, at },
        Stop::ReadFault { faults } => Status::ReadFault { faults },
        _ => Status::NoMemory,
    }
}

fn status_after(verdict: Verdict) -> Status
    ensures { result ≡ status_after verdict }
{
    match verdict {
        Verdict::Deployment => Status::Ok,
        Verdict::NotPlaced { .. } | Verdict::NotCarried { .. } => Status::Findings,
    }
}

// Puts the line of a verdict at the end of `out`.
fn write_verdict(alloc: Global, verdict: Verdict, out: &mut Octets) -> Result<(), NoMemory>
    ensures { OnOk result (out.new ≡ out.old ++ verdict_line verdict) }
{
    let mut text = Text::after(alloc, out);
    put_verdict(verdict, &mut text);
    text.byte(b'\n');
    text.done(out)
}

fn put_verdict(verdict: Verdict, text: &mut Text)
    ensures { Adds text.old (words (verdict_words verdict)) text.new }
{
    match verdict {
        Verdict::Deployment => text.word("deployment"),
        Verdict::NotPlaced { at } => {
            text.word("not-placed");
            text.next_number(at);
        }
        Verdict::NotCarried { at } => {
            text.word("not-carried");
            text.next_number(at);
        }
    }
}

// Puts the lines at the end of `out`, each with its end.
fn write_lines(alloc: Global, lines: &[OutLine], out: &mut Octets) -> Result<(), NoMemory>
    ensures { OnOk result (out.new ≡ out.old ++ out_texts lines.now) }
{
    for line in lines {
        write_out(alloc, line, out)?;
        out.push(alloc, b'\n')?;
    }
    Ok(())
}

// The line of a verdict, and after it the closing lines.
fn text_of(alloc: Global, verdict: Verdict, lines: &[OutLine]) -> Result<Octets, NoMemory>
    ensures { IfOk result (λ text. text ≡ report_text verdict lines.now) }
{
    let mut text = Octets::new(alloc);
    write_verdict(alloc, verdict, &mut text)?;
    write_lines(alloc, lines, &mut text)?;
    Ok(text)
}

// Writes the line of a verdict, and after it the closing lines.
fn report<K: Sink>(alloc: Global, verdict: Verdict, lines: &[OutLine], sink: &mut K) -> Status
    ensures { Writes verdict lines.now result (K.written sink.old) (K.written sink.new) }
{
    let text = match text_of(alloc, verdict, lines) {
        Ok(text) => text,
        Err(NoMemory) => return Status::NoMemory,
    };
    match write_all(sink, text.as_slice()) {
        Ok(()) => status_after(verdict),
        Err(_) => Status::WriteFault {
            faults: sink.faults(),
        },
    }
}

// The verdict over what the source has left.
fn judge<S: Source, K: Sink>(alloc: Global, source: &mut S, sink: &mut K) -> Status
    ensures usage { result ≢ TheStatus.Usage }
    ensures runs { Runs (S.left source.old) result (K.written sink.old) (K.written sink.new) }
    ensures unjudged { IsUnjudged (S.left source.old) (S.fault_count source.old) (S.fault_count source.new) result }
{
    let mut lines = OutLines::new(alloc);
    match unite(alloc, source, &mut lines) {
        Ok(verdict) => report(alloc, verdict, lines.as_slice(), sink),
        Err(stop) => status_of(stop),
    }
}

// Promise 22.22 [clauses usage runs unread, tpunite/specs/Runs.antt]: `tpunite` writes just the line of
//   that verdict and, after `deployment`, its closing lines (22.29), or a prefix of these where its
//   sink fails, and otherwise nothing; after any word nothing is read
/// Reads a recording to the end of the source, and writes the verdict over it to the sink, as one line, and after `deployment` the
/// closing lines of the runs that it is. Nothing is written before the whole input was read; where the sink fails, a prefix of these
/// lines is written. Any word is usage, and nothing is read.
pub fn run<S: Source, K: Sink>(
    alloc: Global,
    words: &[&str],
    source: &mut S,
    sink: &mut K,
) -> Status
    // Promise 22.27 [clauses usage unjudged, tpunite/specs/Runs.antt]: It ends with usage exactly where a
    //   word is given; and where there is no verdict, its status names the frame and the reason or the
    //   limit, or the count of its source, which rose, as 22.26 says
    ensures usage { (result ≡ TheStatus.Usage) ↔ (words.now ≢ []) }
    ensures unread { result ≡ TheStatus.Usage → source.new ≡ source.old }
    ensures runs { Runs (S.left source.old) result (K.written sink.old) (K.written sink.new) }
    ensures unjudged { IsUnjudged (S.left source.old) (S.fault_count source.old) (S.fault_count source.new) result }
{
    if !words.is_empty() {
        return Status::Usage;
    }
    judge(alloc, source, sink)
}
