//! Lines on their way out.
ghost use Rattle.std.specs.Prelude.{◌≡◌, ◌≤◌, ◌++◌, ℕ, List, Some, IfErr, OnErr, OnOk};
ghost use Rattle.tp_model.specs.LogCommands.{placed_text};
ghost use Rattle.tp_streams.specs.Written.{WritesPrefix};
ghost use Rattle.tp_log_tools.specs.Output.{IsUnderWay, IsSinkStop};

use std::alloc::Global;
use tp_logrec::LogRec;
use tp_names::{NoMemory, Octets};
use tp_outside::Sink;
use tp_streams::{Stop, write_all};
use tp_text_builder::Text;
use tp_transcript::put_rec;

/// The length from which a text is written.
const FULL: usize = 65_536;

// The place and the words of a record, as a line.
fn write_line(alloc: Global, place: u64, rec: &LogRec, out: &mut Octets) -> Result<(), NoMemory>
    ensures line { OnOk result (out.new ≡ out.old ++ placed_text (record { place = place; rec = rec.now })) }
{
    let mut text = Text::after(alloc, out);
    text.number(place);
    text.space();
    put_rec(rec, &mut text);
    text.byte(b'\n');
    text.done(out)
}

// Writes the text and empties it, if it is long.
fn write_long<K: Sink>(sink: &mut K, out: &mut Octets) -> Result<(), Stop>
    ensures kept { K.fault_count sink.old ≤ K.fault_count sink.new }
    ensures stops { IfErr result (IsSinkStop (K.fault_count sink.old) (K.fault_count sink.new)) }
    ensures ok { OnOk result ((before text : List ℕ) → IsUnderWay before text out.old (K.written sink.old)
        → IsUnderWay before text out.new (K.written sink.new)) }
    ensures err { OnErr result ((before text : List ℕ) → IsUnderWay before text out.old (K.written sink.old) → WritesPrefix before text (K.written sink.new)) }
{
    if out.len() < FULL {
        return Ok(());
    }
    write_all(sink, out.as_slice())?;
    out.truncate(0);
    Ok(())
}

/// Puts the line of a record at the end of `out`, and writes `out` as it gets long.
pub(crate) fn put_line<K: Sink>(
    alloc: Global,
    place: u64,
    rec: &LogRec,
    out: &mut Octets,
    sink: &mut K,
) -> Result<(), Stop>
    ensures kept { K.fault_count sink.old ≤ K.fault_count sink.new }
    ensures stops { IfErr result (IsSinkStop (K.fault_count sink.old) (K.fault_count sink.new)) }
    ensures ok { OnOk result ((before text : List ℕ) → IsUnderWay before text out.old (K.written sink.old)
        → IsUnderWay before (text ++ placed_text (record { place = place; rec = rec.now })) out.new (K.written sink.new)) }
    ensures err { OnErr result ((before text : List ℕ) → IsUnderWay before text out.old (K.written sink.old)
        → WritesPrefix before (text ++ placed_text (record { place = place; rec = rec.now })) (K.written sink.new)) }
{
    write_line(alloc, place, rec, out)?;
    write_long(sink, out)
}

/// Writes what is still to be written of a text.
pub(crate) fn write_rest<K: Sink>(sink: &mut K, out: &Octets) -> Result<(), Stop>
    ensures kept { K.fault_count sink.old ≤ K.fault_count sink.new }
    ensures stops { IfErr result (IsSinkStop (K.fault_count sink.old) (K.fault_count sink.new)) }
    ensures ok { OnOk result ((before text : List ℕ) → IsUnderWay before text out.now (K.written sink.old) → K.written sink.new ≡ Some (before ++ text)) }
    ensures err { OnErr result ((before text : List ℕ) → IsUnderWay before text out.now (K.written sink.old) → WritesPrefix before text (K.written sink.new)) }
{
    write_all(sink, out.as_slice())
}
