//! The lines of a started store, written into a sink.
ghost use Rattle.std.specs.Prelude.{◌≡◌, ◌≤◌, ◌++◌, ℕ, List, Some, IfErr, OnErr, OnOk};
ghost use Rattle.tp_streams.specs.Written.{WritesPrefix};
ghost use Rattle.tp_keys.specs.Lines.{key_lines};
ghost use Rattle.tp_keys.specs.Printing.{WritesPart, IsPrintStop};

use crate::line::write_line;
use std::alloc::Global;
use tp_bound::Bound;
use tp_names::Octets;
use tp_outside::{Disk, Sink};
use tp_streams::{Stop, write_all};

// The length from which a text is written.
const FULL: usize = 65_536;

// Writes the text and empties it, if it is long.
fn write_long<K: Sink>(sink: &mut K, text: &mut Octets) -> Result<(), Stop>
    ensures kept { K.fault_count sink.old ≤ K.fault_count sink.new }
    ensures part { OnOk result ((before : List ℕ) → K.written sink.old ≡ Some before → WritesPart before text.old text.new (K.written sink.new)) }
    ensures prefix { OnErr result ((before : List ℕ) → K.written sink.old ≡ Some before → WritesPrefix before text.old (K.written sink.new)) }
    ensures fault { IfErr result (IsPrintStop (K.fault_count sink.old) (K.fault_count sink.new)) }
{
    if text.len() < FULL {
        return Ok(());
    }
    write_all(sink, text.as_slice())?;
    text.truncate(0);
    Ok(())
}

/// Writes a line for each key of a store, in ascending order of bytes.
pub fn print<D: Disk, K: Sink>(alloc: Global, bound: &Bound<D>, sink: &mut K) -> Result<(), Stop>
    ensures kept { K.fault_count sink.old ≤ K.fault_count sink.new }
    ensures whole { OnOk result ((before : List ℕ) → K.written sink.old ≡ Some before
        → K.written sink.new ≡ Some (before ++ key_lines bound.now.store.content)) }
    ensures prefix { OnErr result ((before : List ℕ) → K.written sink.old ≡ Some before
        → WritesPrefix before (key_lines bound.now.store.content) (K.written sink.new)) }
    ensures fault { IfErr result (IsPrintStop (K.fault_count sink.old) (K.fault_count sink.new)) }
{
    let mut text = Octets::new(alloc);
    for (key, value) in bound.entries() {
        write_line(alloc, key.as_slice(), value.as_slice(), &mut text)?;
        write_long(sink, &mut text)?;
    }
    write_all(sink, text.as_slice())
}
