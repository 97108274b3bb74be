//! The program's one call.
ghost use Rattle.std.specs.Prelude.{◌≡◌, ◌≢◌, ◌↔◌, ℕ, List, Some, None, map, IfOk, IfErr};
ghost use Rattle.tpdraw.specs.Asked.{asked};
ghost use Rattle.tpdraw.specs.Transcripts.{IsUnread};
ghost use Rattle.tpdraw.specs.Runs.{IsEnding, Draws, IsPicture, IsInputStop, WritesText};
ghost use Rattle.tpdraw.specs.declared.status.Status.{Status};

use crate::Status;
use crate::asking::{Asking, Want};
use crate::intake::read_all;
use crate::reading::read_transcript;
use std::alloc::Global;
use tp_draw::{Form, draw};
use tp_names::Octets;
use tp_outside::{Sink, Source};
use tp_streams::write_all;

/// Reads a transcript to the end of the source, and writes its picture to the sink, in the form that the words ask
/// for. Nothing is written but that picture, and nothing of it before the whole input was read and is a
/// transcript; where the sink fails, a prefix of it is written. Other words are usage, and nothing is read.
pub fn run<S: Source, K: Sink>(
    alloc: Global,
    words: &[&str],
    source: &mut S,
    sink: &mut K,
) -> Status
    // Promise 21.9 [tpdraw/specs/Asked.antt, tpdraw/specs/NodeLists.antt, clauses usage unread]: Its
    //   words are taken exactly where each is `--mermaid`, `--html`, `--lanes` or `--fold`, or
    //   `--from` or `--to` with a number from 1 to 65535 after it, or `--nodes` with 1 to 16 such
    //   numbers with commas between, all without leading zeros; else they are usage, and nothing is
    //   read
    ensures usage { (result ≡ Status.Usage) ↔ (asked (map (λ w. w.now) words.now) ≡ None) }
    ensures unread { result ≡ Status.Usage → source.new ≡ source.old }
    // Promise 21.10 [tpdraw/specs/Runs.antt]: A fault of its source or sink comes only where the
    //   count of faults rose, with the new count
    ensures ending { IsEnding (S.fault_count source.old) (S.fault_count source.new) (K.fault_count sink.old) (K.fault_count sink.new) result }
    // Promise 21.7 [tpdraw/specs/Runs.antt]: `tpdraw` writes just the picture of the transcript
    //   that its input is, in the form that its words ask for; where the sink fails a prefix of it,
    //   and in every other case nothing
    // Promise 21.8 [tpdraw/specs/Transcripts.antt]: Its input is bad only where a line of it is the
    //   text of no line of a transcript, and the first such line is named
    ensures draws { Draws (asked (map (λ w. w.now) words.now)) (S.left source.old) result (K.written sink.old) (K.written sink.new) }
{
    match asked(words) {
        None => Status::Usage,
        Some(form) => draw_input(alloc, &form, source, sink),
    }
}

// The form of the picture that the words ask for.
fn asked(words: &[&str]) -> Option<Form>
    ensures { result ≡ asked (map (λ w. w.now) words.now) }
{
    let mut asking = Asking::new();
    for word in words {
        asking = asking.after(word)?;
    }
    match asking.want {
        Want::Option => Some(asking.form),
        _ => None,
    }
}

fn draw_input<S: Source, K: Sink>(
    alloc: Global,
    form: &Form,
    source: &mut S,
    sink: &mut K,
) -> Status
    ensures asked { result ≢ Status.Usage }
    ensures ending { IsEnding (S.fault_count source.old) (S.fault_count source.new) (K.fault_count sink.old) (K.fault_count sink.new) result }
    ensures draws { Draws (Some form.now) (S.left source.old) result (K.written sink.old) (K.written sink.new) }
{
    match picture_of(alloc, form, source) {
        Ok(picture) => write_picture(sink, picture.as_slice()),
        Err(status) => status,
    }
}

// The picture of all that the source has left.
fn picture_of<S: Source>(alloc: Global, form: &Form, source: &mut S) -> Result<Octets, Status>
    ensures pictured { IfOk result (λ text. (bytes : List ℕ) → S.left source.old ≡ Some bytes → IsPicture form.now bytes text) }
    ensures stops { IfErr result (IsInputStop (S.left source.old) (S.fault_count source.old) (S.fault_count source.new)) }
{
    let bytes = read_all(alloc, source)?;
    picture_of_bytes(alloc, form, bytes.as_slice())
}

fn picture_of_bytes(alloc: Global, form: &Form, bytes: &[u8]) -> Result<Octets, Status>
    ensures pictured { IfOk result (IsPicture form.now bytes.now) }
    ensures stops { IfErr result (IsUnread bytes.now) }
{
    let lines = read_transcript(alloc, bytes)?;
    let picture = draw(alloc, lines, form)?;
    Ok(picture)
}

fn write_picture<K: Sink>(sink: &mut K, text: &[u8]) -> Status
    ensures { WritesText text.now (K.fault_count sink.old) (K.fault_count sink.new) (K.written sink.old) (K.written sink.new) result }
{
    match write_all(sink, text) {
        Ok(()) => Status::Ok,
        Err(_) => Status::WriteFault {
            faults: sink.faults(),
        },
    }
}
