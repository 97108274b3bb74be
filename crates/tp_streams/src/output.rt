//! What is written goes out whole.
ghost use Rattle.std.specs.Prelude.{◌≡◌, ◌≤◌, ◌++◌, ℕ, List, Some, IfErr, OnErr, OnOk};
ghost use Rattle.tp_streams.specs.Stops.{IsWriteStop};
ghost use Rattle.tp_streams.specs.Written.{WritesPrefix};

use crate::Stop;
use tp_outside::{Failed, Sink};

// Promise 2.34: Bytes are written whole, or the sink's fault comes with its new count and a prefix
//   of them is written
/// Writes bytes to their end, or stops with the fault of the sink.
pub fn write_all<K: Sink>(sink: &mut K, bytes: &[u8]) -> Result<(), Stop>
    ensures kept { K.fault_count sink.old ≤ K.fault_count sink.new }
    ensures whole { OnOk result ((before : List ℕ) → K.written sink.old ≡ Some before → K.written sink.new ≡ Some (before ++ bytes.now)) }
    ensures prefix { OnErr result ((before : List ℕ) → K.written sink.old ≡ Some before → WritesPrefix before bytes.now (K.written sink.new)) }
    ensures fault { IfErr result (IsWriteStop (K.fault_count sink.old) (K.fault_count sink.new)) }
{
    let mut at = 0;
    while at < bytes.len() {
        match sink.write(&bytes[at..]) {
            Ok(count) => at += count,
            Err(Failed) => {
                return Err(Stop::WriteFault {
                    faults: sink.faults(),
                });
            }
        }
    }
    Ok(())
}
