//! What is asked of an event that a node takes, but that its record was said.
ghost use Rattle.std.specs.Prelude.{◌≡◌, true, false};
ghost use Rattle.tp_node.specs.NodeEvent.{event_of};
ghost use Rattle.tp_deployments.specs.Deployments.{AreArranged};
ghost use Rattle.tp_weaving.specs.Steps.{HasPlace};
ghost use Rattle.tp_unite.specs.Placing.{names_placed};

use tp_names::Addr;
use tp_names::same::is_addr_option;
use tp_records::Request;
use tp_site::NodeEvent;
use tp_weaving::{Place, Places};

// It names only nodes that have their places, and no other superior.
fn names_placed(places: &Places, place: &Place, event: &NodeEvent<'_>) -> bool
    ensures { result ≡ names_placed places.now place.now (event_of event.now) }
{
    match event {
        NodeEvent::Declare { superior } => is_addr_option(superior, &place.superior),
        NodeEvent::Do { request } => match request {
            Request::BeginDialogue { addr, .. } => places.find(addr).is_some(),
            _ => true,
        },
        NodeEvent::Arrive { from, .. } => places.find(from).is_some(),
        _ => true,
    }
}

/// The event is of a node that has its place, and names only nodes that have theirs.
pub(crate) fn is_placed(places: &Places, at: &Addr, event: &NodeEvent<'_>) -> bool
    ensures placed { result ≡ true → HasPlace places.now at.now (event_of event.now) }
    ensures unplaced { result ≡ false → AreArranged places.now → HasPlace places.now at.now (event_of event.now) → ⊥ }
{
    match places.find(at) {
        None => false,
        Some(place) => names_placed(places, &place, event),
    }
}
