//! Outputs as frames.
ghost use Rattle.std.specs.Prelude.{◌≡◌, ◌++◌, OnOk};
ghost use Rattle.tp_records.specs.Bodies.{output_bytes};
ghost use Rattle.tp_framing.specs.Frames.{frame_bytes};
ghost use Rattle.tp_model.specs.NodeTranscript.{outputs_bytes};

use std::alloc::Global;
use tp_names::{NoMemory, Octets, write_short};
use tp_records::{Output, write_output};

/// Puts the frame of an output at the end of `out`: the output goes after two bytes, where its length is put at the end.
/// Without memory part of it may be there.
pub(crate) fn put_output(alloc: Global, output: &Output, out: &mut Octets) -> Result<(), NoMemory>
    ensures { OnOk result (out.new ≡ out.old ++ frame_bytes (output_bytes output.now)) }
{
    let at = out.len();
    write_short(alloc, 0, out)?;
    write_output(alloc, output, out)?;
    let len = out.len() - at - 2;
    if len > 65_535 {
        return Err(NoMemory);
    }
    out.put_short(at, len as u16);
    Ok(())
}

/// Puts the frames of outputs at the end of `out`, in order. Without memory some of them may be there, and `out` is thrown away.
pub fn put_outputs(alloc: Global, outputs: &[Output], out: &mut Octets) -> Result<(), NoMemory>
    ensures { OnOk result (out.new ≡ out.old ++ outputs_bytes outputs.now) }
{
    for output in outputs {
        put_output(alloc, output, out)?;
    }
    Ok(())
}
