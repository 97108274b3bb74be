//! One event, and its answer on the way out.
ghost use Rattle.std.specs.Prelude.{◌≡◌, ◌≤◌, ◌∷◌, ◌++◌, [], ℕ, List, Some, None, Option, IfOk, IfErr, OnOk};
ghost use Rattle.tp_outside.specs.Story.{Story};
ghost use Rattle.tp_records.specs.declared.body.Event.{Event as Given};
ghost use Rattle.tp_records.specs.declared.body.Output.{Output as Out};
ghost use Rattle.tp_model.specs.NodeRun.{Opening};
ghost use Rattle.tp_model.specs.NodeTranscript.{outputs_bytes};
ghost use Rattle.tp_site.specs.Events.{IsAt, all_nodes};
ghost use Rattle.tp_serve.specs.Answering.{stopped_by, Answers, IsAnswerStop};

use crate::outgoing::{put_output, put_outputs};
use std::alloc::Global;
use tp_journal::Keeper;
use tp_model::What;
use tp_names::{NoMemory, Octets};
use tp_records::{Event, Output, Outputs};
use tp_site::{Site, SiteFault};
use tp_streams::Stop;

// What a fault of the site means for the program, in the frame with that number. One that is refused has an answer.
fn stop_of(fault: SiteFault, at: u64) -> Stop
    ensures { result ≡ stopped_by at fault }
{
    match fault {
        SiteFault::Full { .. } => Stop::Limit {
            what: What::Log,
            at,
        },
        SiteFault::DiskFault { faults } | SiteFault::Shut { faults } => Stop::DiskFault { faults },
        SiteFault::Refused(_) | SiteFault::NoMemory => Stop::NoMemory,
    }
}

fn refusal(alloc: Global, number: u8) -> Result<Outputs, NoMemory>
    ensures { IfOk result (λ outputs. outputs ≡ Out.Refused number ∷ []) }
{
    let mut outputs = Outputs::new(alloc);
    outputs.push(alloc, Output::Refused { number })?;
    Ok(outputs)
}

/// The outputs of the event that came in the frame with that number, without Over. The keeper has taken its record before
/// they are given.
pub(crate) fn answer<K: Keeper>(
    alloc: Global,
    site: &mut Site<K>,
    event: &Event,
    at: u64,
) -> Result<Outputs, Stop>
    ensures answers { (o : Opening) (gs : List Given) → IsAt K.standing all_nodes o gs site.old → site.old.shut ≡ None
        → Answers K.standing o gs at site.old event.now result site.new }
    ensures stops { IfErr result (IsAnswerStop at) }
    ensures lasting { (K.standing site.new.keeper).lasting ≡ (K.standing site.old.keeper).lasting }
{
    match site.event(alloc, event) {
        Ok(outputs) => Ok(outputs),
        Err(SiteFault::Refused(number)) => Ok(refusal(alloc, number)?),
        Err(fault) => Err(stop_of(fault, at)),
    }
}

/// Puts the frames of these outputs and of Over into `out`, in place of what it held.
pub(crate) fn reply(alloc: Global, outputs: &Outputs, out: &mut Octets) -> Result<(), NoMemory>
    ensures { OnOk result (out.new ≡ outputs_bytes (outputs.now ++ Out.Over ∷ [])) }
{
    out.truncate(0);
    put_outputs(alloc, outputs.as_slice(), out)?;
    put_output(alloc, &Output::Over, out)
}
