//! What was put out for each event, in the order of the events.
ghost use Rattle.std.specs.Prelude.{◌≡◌, ◌<◌, ℕ, List, IfOk, length, slice_index_or};
ghost use Rattle.tp_records.specs.declared.body.Output.{Output};
ghost use Rattle.tp_model.specs.Lanes.{outputs_in};

use crate::event_nodes::lane_of;
use std::alloc::Global;
use std::collections::VecDeque;
use tp_names::{NoMemory, Sequence};
use tp_records::{Event, Outputs};

/// The outputs of each event, in the order of the events.
pub type OutputsByEvent = Sequence<Outputs>;

/// Puts the outputs of the lanes in the order of the events. What is left in the lanes is thrown away, whatever the answer.
pub fn by_event(
    alloc: Global,
    events: &[Event],
    outs: &mut [VecDeque<Outputs>],
) -> Result<OutputsByEvent, NoMemory>
    ghost whole: { List (List Output) }
    requires some { 0 < length outs.old }
    requires length { length whole ≡ length events.now }
    requires picked { (i : ℕ) (d : _) → i < length outs.old → (slice_index_or outs.old i d).items ≡ outputs_in i (length outs.old) events.now whole }
    ensures { IfOk result (λ all. all ≡ whole) }
{
    let lanes = outs.len();
    let mut all = OutputsByEvent::new(alloc);
    for k in 0..events.len() {
        let own = lane_of(&events[k], lanes);
        let lane = &mut outs[own];
        let Some(out) = lane.pop_front() else {
            unreachable!();
        };
        all.push(alloc, out)?;
    }
    Ok(all)
}
