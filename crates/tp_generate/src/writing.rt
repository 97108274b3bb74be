//! Writing the schedule of a number.
ghost use Rattle.std.specs.Prelude.{◌≡◌, ◌≤◌, ◌++◌, ℕ, List, Some, Err, IfErr, OnErr, OnOk};
ghost use Rattle.tp_model.specs.Generator.{schedule};
ghost use Rattle.tp_streams.specs.declared.stop.Stop.{Stop};
ghost use Rattle.tp_streams.specs.Written.{WritesPrefix};
ghost use Rattle.tp_generate.specs.Writes.{IsMakeStop};

use crate::making::schedule_of;
use std::alloc::Global;
use tp_outside::Sink;
use tp_streams::{Stop, write_all};

/// Writes the schedule of this number, for a tree of `nodes` nodes, 256 at most, that ends a transaction in each of
/// `rounds` rounds; or stops with the fault of the sink. Without memory nothing is written.
#[tactic(auto, using(crate::proofs::Prefixes::none_written))]
pub fn make<K: Sink>(
    alloc: Global,
    number: u64,
    nodes: u16,
    rounds: u8,
    sink: &mut K,
) -> Result<(), Stop>
    requires { nodes ≤ 256 }
    ensures kept { K.fault_count sink.old ≤ K.fault_count sink.new }
    // Promise 2.36 [clauses whole prefix fault]: It is written whole, or the sink's fault comes
    //   with its new count and a prefix of it is written
    ensures whole { OnOk result ((before : List ℕ) → K.written sink.old ≡ Some before → K.written sink.new ≡ Some (before ++ schedule number nodes rounds)) }
    ensures prefix { OnErr result ((before : List ℕ) → K.written sink.old ≡ Some before
        → WritesPrefix before (schedule number nodes rounds) (K.written sink.new)) }
    ensures unwritten { result ≡ Err Stop.NoMemory → sink.new ≡ sink.old }
    ensures fault { IfErr result (IsMakeStop (K.fault_count sink.old) (K.fault_count sink.new)) }
{
    let made = schedule_of(alloc, number, nodes, rounds)?;
    write_all(sink, made.text.as_slice())
}
