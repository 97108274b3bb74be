//! What is written goes out whole, and in long pieces.
ghost use Rattle.std.specs.Prelude.{◌≡◌, ◌≤◌, ◌++◌, ℕ, [], List, Some, IfErr, OnErr, OnOk};
ghost use Rattle.tp_streams.specs.Written.{WritesPrefix};
ghost use Rattle.tp_replay.specs.Written.{WroteBut};
ghost use Rattle.tp_streams.specs.Stops.{IsFaultOf};

use crate::stop::WriteFault;
use tp_names::Octets;
use tp_outside::{Failed, Sink};

/// The length from which a text is written.
const FULL: usize = 65_536;

/// Writes a text to its end, or ends with the fault of the sink.
pub fn write_all<K: Sink>(sink: &mut K, text: &[u8]) -> Result<(), WriteFault>
    ensures kept { K.fault_count sink.old ≤ K.fault_count sink.new }
    ensures whole { OnOk result ((before : List ℕ) → K.written sink.old ≡ Some before → K.written sink.new ≡ Some (before ++ text.now)) }
    ensures prefix { OnErr result ((before : List ℕ) → K.written sink.old ≡ Some before → WritesPrefix before text.now (K.written sink.new)) }
    ensures fault { IfErr result (λ f. IsFaultOf f.faults (K.fault_count sink.old) (K.fault_count sink.new)) }
{
    let mut at = 0;
    while at < text.len() {
        match sink.write(&text[at..]) {
            Ok(count) => at += count,
            Err(Failed) => {
                return Err(WriteFault {
                    faults: sink.faults(),
                });
            }
        }
    }
    Ok(())
}

/// Writes the text and empties it, if it is long; or ends with the fault of the sink.
pub fn write_long<K: Sink>(sink: &mut K, text: &mut Octets) -> Result<(), WriteFault>
    ensures kept { K.fault_count sink.old ≤ K.fault_count sink.new }
    ensures whole { OnOk result ((before : List ℕ) → K.written sink.old ≡ Some before → WroteBut before text.old text.new (K.written sink.new)) }
    ensures prefix { OnErr result ((before : List ℕ) → K.written sink.old ≡ Some before → WritesPrefix before text.old (K.written sink.new)) }
    ensures fault { IfErr result (λ f. IsFaultOf f.faults (K.fault_count sink.old) (K.fault_count sink.new)) }
{
    if text.len() < FULL {
        return Ok(());
    }
    write_all(sink, text.as_slice())?;
    text.truncate(0);
    Ok(())
}
