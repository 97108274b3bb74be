//! The keys of a bound store, written as lines.
ghost use Rattle.std.specs.Prelude.{ℕ};
ghost use Rattle.tp_words.specs.declared.command.Command.{Command};
ghost use Rattle.tp_replay.specs.Status.{Ends};
ghost use Rattle.tp_commands.specs.Commands.{exits};
ghost use Rattle.tp_commands.specs.Keys.{ListsKeys};

use std::alloc::Global;
use tp_keys::keys;
use tp_outside::{Disk, Sink};
use tp_replay::Status;

/// Writes a line for each key of the store that the disk holds, in ascending order, and hands the disk back.
#[tactic(auto, using(crate::proofs::Listed::lists_stopped))]
pub fn list_keys<D: Disk, K: Sink>(alloc: Global, disk: D, sink: &mut K) -> (Status, D)
    ensures ends { (read_old read_new : ℕ)
        → Ends (exits Command.Keys) read_old read_new (K.fault_count sink.old) (K.fault_count sink.new) (D.fault_count disk) (D.fault_count result.1) result.0 }
    ensures lists { ListsKeys result.0 (D.told disk) (D.told result.1) (K.written sink.old) (K.written sink.new) }
{
    match keys(alloc, disk, sink) {
        Ok(disk) => (Status::Ok, disk),
        Err((disk, stop)) => (Status::of_stop(stop), disk),
    }
}
