//! What a site over a share of a log answers to an event.
ghost use Rattle.std.specs.Prelude.{ℕ, Bool, ◌≡◌, ◌∷◌, ◌++◌, [], true, None, List, IfOk, IfErr, OnErr, OnOk};
ghost use Rattle.tp_records.specs.declared.body.Event.{Event as Given};
ghost use Rattle.tp_records.specs.declared.body.Output.{Output as Put};
ghost use Rattle.tp_model.specs.NodeRun.{node_of};
ghost use Rattle.tp_shared_log.specs.Shares.{share_standing};
ghost use Rattle.tp_site.specs.Events.{IsAt, outputs_after};
ghost use Rattle.tp_drive.specs.Works.{IsBackedBy};

use crate::begun::Begun;
use crate::stop::Cause;
use std::alloc::Global;
use std::sync::Wait;
use std::sync::ledger::Ledger;
use tp_names::NoMemory;
use tp_outside::Disk;
use tp_records::{Event, Output, Outputs};
use tp_shared_log::LogShare;
use tp_site::{Site, SiteFault};

// The outputs of an event that is refused by that number.
fn refused(alloc: Global, number: u8) -> Result<Outputs, NoMemory>
    ensures { IfOk result (λ outs. outs ≡ Put.Refused number ∷ []) }
{
    let mut outs = Outputs::new(alloc);
    outs.push(alloc, Output::Refused { number })?;
    Ok(outs)
}

/// What the site answers to an event, a refusal as its one output; or why it is to stop.
pub fn answer<'a, D: Disk, R: Wait + Sync, L: Begun, M: Ledger>(
    alloc: Global,
    site: &mut Site<LogShare<'a, D, R, L, M>>,
    event: &Event,
) -> Result<Outputs, Cause>
    requires open { site.old.shut ≡ None }
    ensures done { IfOk result (λ outs. (mine : ℕ → Bool) (gs : List Given) → mine (node_of event.now) ≡ true
        → IsAt (share_standing L.stood L.wide) mine L.opening gs site.old
        → IsAt (share_standing L.stood L.wide) mine L.opening (gs ++ event.now ∷ []) site.new × (outs ≡ outputs_after L.opening gs event.now)) }
    ensures stopped { OnErr result
        ((mine : ℕ → Bool) (gs : List Given) → mine (node_of event.now) ≡ true → IsAt (share_standing L.stood L.wide) mine L.opening gs site.old
        → IsAt (share_standing L.stood L.wide) mine L.opening gs site.new) }
    ensures backed { IfErr result (λ cause. IsBackedBy cause site.new.keeper) }
    ensures open { OnOk result (site.new.shut ≡ None) }
    ensures parts { (site.new.keeper.parts ≡ site.old.keeper.parts) × (site.new.keeper.stake_parts ≡ site.old.keeper.stake_parts) }
    ensures of { site.new.keeper.of ≡ site.old.keeper.of }
{
    match site.event(alloc, event) {
        Ok(outs) => Ok(outs),
        Err(SiteFault::Refused(number)) => Ok(refused(alloc, number)?),
        Err(SiteFault::Full { .. }) => Err(Cause::Log),
        Err(SiteFault::DiskFault { .. }) => Err(Cause::Log),
        Err(SiteFault::Shut { .. }) => Err(Cause::Log),
        Err(SiteFault::NoMemory) => Err(Cause::Memory),
    }
}
