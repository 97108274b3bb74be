//! A face of a site that is given the calls and events of frames.
ghost use Rattle.std.specs.Prelude.{◌≡◌, ℕ};
ghost use Rattle.tp_words.specs.declared.command.Command.{Command};
ghost use Rattle.tp_replay.specs.Status.{Ends};
ghost use Rattle.tp_commands.specs.Commands.{exits};
ghost use Rattle.tp_commands.specs.Faces.{ServesFace};

use std::alloc::Global;
use tp_names::SiteName;
use tp_outside::{Disk, Sink, Source};
use tp_replay::Status;
use tp_tx::transact;

/// Starts the site of that name on the disk's log with a face of its node 1, answers each call and each event that the frames
/// of the source say, and hands the disk back.
pub fn serve_face<S: Source, K: Sink, D: Disk>(
    alloc: Global,
    name: SiteName,
    source: &mut S,
    sink: &mut K,
    disk: D,
) -> (Status, D)
    ensures ends { Ends (exits (Command.Tx name)) (S.fault_count source.old) (S.fault_count source.new) (K.fault_count sink.old)
        (K.fault_count sink.new) (D.fault_count disk) (D.fault_count result.1) result.0 }
    ensures serves { ServesFace name result.0 (D.told disk) (D.told result.1) (S.left source.old) (S.left source.new) (K.written sink.old)
        (K.written sink.new) (sink.new ≡ sink.old) }
{
    let (disk, served) = transact(alloc, name, source, sink, disk);
    (Status::of_answer(served), disk)
}
