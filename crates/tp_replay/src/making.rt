//! A schedule made of a number, into a sink.
ghost use Rattle.std.specs.Prelude.{◌≡◌, ◌≤◌, ℕ};
ghost use Rattle.tp_replay.specs.Status.{Ends};
ghost use Rattle.tp_replay.specs.Making.{make_exits, Makes};

use crate::status::Status;
use std::alloc::Global;
use tp_generate::make;
use tp_outside::Sink;

/// Writes the schedule of that number, for a tree of `nodes` nodes, 256 at most, that ends a transaction in each of `rounds`
/// rounds.
pub fn make_schedule<K: Sink>(
    alloc: Global,
    number: u64,
    nodes: u16,
    rounds: u8,
    sink: &mut K,
) -> Status
    requires { nodes ≤ 256 }
    ensures ends { (read_old read_new disk_old disk_new : ℕ)
        → Ends make_exits read_old read_new (K.fault_count sink.old) (K.fault_count sink.new) disk_old disk_new result }
    ensures makes { Makes number nodes rounds result (K.written sink.old) (K.written sink.new) (sink.new ≡ sink.old) }
{
    Status::of_answer(make(alloc, number, nodes, rounds, sink))
}
