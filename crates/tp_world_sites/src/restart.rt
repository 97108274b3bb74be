//! The nodes of a site are declared again.
ghost use Rattle.std.specs.Prelude.{ℕ, suc, ◌≡◌, ◌<◌, List, length};
ghost use Rattle.tp_model.specs.World.{Node as NodeValue};
ghost use Rattle.tp_world_sites.specs.Restarts.{tree_before, IsStopped, IsRestartedTo, RestartsTo};
ghost use Rattle.tp_world_sites.specs.declared.site_slot.SiteSlot.{SiteSlot};

use crate::fault::WorldFault;
use crate::site_slot::{Answer, Entry, SiteSlot};
use std::alloc::Global;
use tp_names::same::is_name;
use tp_network::{Nodes, TreeChange};
use tp_records::{PeerRecord, Request};
use tp_site::{NodeEvent, NodeTree};

/// An entry of a node that its site has played, and that is lost with its record.
#[derive(Drop)]
pub struct LostEntry {
    pub node: u16,
    /// The tree of the node's transaction before it.
    pub tree: Option<NodeTree>,
}

// The tree of that node's transaction, without the entry that is lost.
fn tree_before(old: &SiteSlot, lost: &Option<LostEntry>, node: u16) -> Option<NodeTree>
    ensures { result ≡ tree_before old.now lost.now node }
{
    match lost {
        Some(entry) if entry.node == node => entry.tree,
        _ => old.tree(node),
    }
}

// The node at that place stops and is declared again, where it is a node of the site, which has started again.
fn restart_node(
    alloc: Global,
    nodes: &mut Nodes,
    place: usize,
    old: &SiteSlot,
    lost: &Option<LostEntry>,
    next: &mut SiteSlot,
) -> Result<(), WorldFault>
    ensures { (ns : List NodeValue) (first : SiteSlot) → IsStopped ns old.now lost.now first → place < length ns
        → IsRestartedTo ns place first nodes.old next.old → RestartsTo ns (suc place) first result nodes.new next.new }
{
    if place >= nodes.count() {
        return Err(WorldFault::Name);
    }
    let node = nodes.at(place);
    let at = node.addr;
    let superior = node.superior;
    if !is_name(&at.site, &next.name()) {
        return Ok(());
    }
    let stop = TreeChange {
        before: tree_before(old, lost, at.node),
        after: next.tree(at.node),
        leaves: false,
        rec: None,
    };
    nodes.change(at.node, &stop)?;
    let _rec: Option<&PeerRecord> = None;
    let _request: Option<&Request> = None;
    let event = NodeEvent::Declare { superior };
    let mut start = Entry::new(alloc);
    let answer = next.play(alloc, at.node, &event, &mut start)?;
    match answer {
        Answer::Refused(_) => return Err(WorldFault::Name),
        Answer::Happened { .. } => {}
    }
    nodes.change(at.node, &start.change)?;
    Ok(())
}

/// The nodes of the site stop and are declared again, in order, at the site that has started again. Without memory nothing is
/// said of the nodes and of the site: the world has ended, and they are thrown away.
pub fn restart_nodes(
    alloc: Global,
    nodes: &mut Nodes,
    old: &SiteSlot,
    lost: &Option<LostEntry>,
    next: &mut SiteSlot,
) -> Result<(), WorldFault>
    ensures { (ns : List NodeValue) → IsStopped ns old.now lost.now next.old → IsRestartedTo ns 0 next.old nodes.old next.old
        → RestartsTo ns (length ns) next.old result nodes.new next.new }
{
    for place in 0..nodes.count() {
        restart_node(alloc, nodes, place, old, lost, next)?;
    }
    Ok(())
}
