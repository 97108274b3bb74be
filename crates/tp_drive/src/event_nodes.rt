//! The node of an event, and its lane.
ghost use Rattle.std.specs.Prelude.{ℕ, ◌≡◌, ◌<◌, ◌%◌};
ghost use Rattle.tp_model.specs.NodeRun.{node_of};

use tp_records::Event;

// The node to which an event belongs: that of an arrival is the one that it is for.
fn node_of(event: &Event) -> u16
    ensures { result ≡ node_of event.now }
{
    match event {
        Event::Declare { node, .. }
        | Event::Do { node, .. }
        | Event::Lose { node, .. }
        | Event::Heur { node, .. }
        | Event::GiveUp { node, .. }
        | Event::Retry { node }
        | Event::Purge { node } => *node,
        Event::Arrive { to, .. } => to.node,
    }
}

/// The lane of an event, among so many.
pub fn lane_of(event: &Event, lanes: usize) -> usize
    requires { 0 < lanes }
    ensures { result ≡ node_of event.now % lanes }
{
    usize::from(node_of(event)) % lanes
}
