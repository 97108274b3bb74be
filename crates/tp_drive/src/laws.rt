//! Laws of the definitions. The bodies are empty: each contract is the law.
ghost use Rattle.std.specs.Prelude.{ℕ, ◌<◌, List};
ghost use Rattle.tp_records.specs.declared.body.Event.{Event};
ghost use Rattle.tp_model.specs.NodeRun.{Opening};
ghost use Rattle.tp_drive.specs.Woven.{IsMadeOfLanes};

// Promise 6.3: A run of one thread is such an interleaving, and its outputs are those of the lanes
/// The run of one thread is made of lanes, of whatever number: its records are an interleaving of the lanes' records, and its
/// outputs are those of the lanes, event by event.
pub fn a_run_is_made_of_lanes()
    ensures { (o : Opening) (events : List Event) (lanes : ℕ) → 0 < lanes → IsMadeOfLanes o events lanes }
{}
