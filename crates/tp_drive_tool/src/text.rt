//! What the outputs of all events are as bytes.
ghost use Rattle.std.specs.Prelude.{◌≡◌, IfOk};
ghost use Rattle.tp_model.specs.NodeTranscript.{written_of};

use std::alloc::Global;
use tp_names::{NoMemory, Octets};
use tp_records::{Output, Outputs};
use tp_serve::put_outputs;

/// The frames of the outputs of each event, and that of Over after each.
pub(crate) fn text_of(alloc: Global, outs: &[Outputs]) -> Result<Octets, NoMemory>
    ensures { IfOk result (λ text. text ≡ written_of outs.now) }
{
    let over = [Output::Over];
    let mut text = Octets::new(alloc);
    'events: for outputs in outs {
        put_outputs(alloc, outputs.as_slice(), &mut text)?;
        put_outputs(alloc, &over, &mut text)?;
    }
    Ok(text)
}
