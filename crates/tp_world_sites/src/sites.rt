//! The sites of a world, found by their names.
ghost use Rattle.std.specs.Prelude.{◌≡◌, ◌<◌, length, IfSome, IfOk, Some, true, is_some};
ghost use Rattle.std.specs.List.{AllByRecursion};
ghost use Rattle.std.specs.Option.{option_map};
ghost use Rattle.tp_model.specs.History.{digest, state};
ghost use Rattle.tp_model.specs.Parts.{Arrive};
ghost use Rattle.tp_model.specs.World.{World as WorldValue, Node as NodeValue, addr_of, find_node, is_site, number_of};
ghost use Rattle.tp_network.specs.FrameRecord.{record_of};
ghost use Rattle.tp_site.specs.NodeEvent.{event_of};
ghost use Rattle.tp_site.specs.State.{state_of};
ghost use Rattle.tp_world_sites.specs.NodeAnswers.{result_told};
ghost use Rattle.tp_world_sites.specs.Placing.{IsAt, IsSiteThere, IsDeclaredAt};
ghost use Rattle.tp_world_sites.specs.Sites.{place_of_site};
ghost use Rattle.tp_world_sites.specs.Standing.{SitesStand, are_apart, is_free, is_placed, PlaysAt};

use crate::fault::WorldFault;
use crate::site_slot::{Answer, Entry, SiteSlot};
use std::alloc::Global;
use tp_names::same::is_name;
use tp_names::{Addr, NoMemory, SiteName};
use tp_network::Frame;
use tp_site::{NodeEvent, NodeState};

// The place of the site of that name; after all where there is none.
#[tactic(auto, using(crate::proofs::SiteNames::place_next, crate::proofs::SiteNames::place_here))]
fn place_of(sites: &[SiteSlot], name: &SiteName) -> usize
    ensures { result ≡ place_of_site sites.now name.now }
{
    for i in 0..sites.len() {
        if is_name(&sites[i].name(), name) {
            return i;
        }
    }
    sites.len()
}

/// The place of the site of that name.
pub fn site_place(sites: &[SiteSlot], name: &SiteName) -> Option<usize>
    ensures within { IfSome result (λ i. i < length sites.now) }
    ensures place { IfSome result (λ i. i ≡ place_of_site sites.now name.now) }
    ensures there { (w : WorldValue) → SitesStand w sites.now → is_some result ≡ is_site w name.now }
{
    let place = place_of(sites, name);
    if place < sites.len() {
        Some(place)
    } else {
        None
    }
}

/// An event of the node at that address. The entry of it is told beside the answer.
/// Where it fails nothing is said of the sites: the world has ended, and they are thrown away.
#[inline(always)]
pub fn play_at(
    alloc: Global,
    sites: &mut [SiteSlot],
    at: &Addr,
    event: &NodeEvent<'_>,
    entry: &mut Entry,
) -> Result<Answer, WorldFault>
    ensures { (w : WorldValue) (n : NodeValue) → SitesStand w sites.old → are_apart w.nodes ≡ true
        → find_node w.nodes (number_of n) ≡ Some n → is_placed w n ≡ true → at.now ≡ addr_of n
        → PlaysAt w n (event_of event.now) (result_told result entry.new) sites.new }
{
    let place = place_of(sites, &at.site);
    if place >= sites.len() {
        return Err(WorldFault::Name);
    }
    sites[place].play(alloc, at.node, event, entry)
}

/// A frame that is handed over to the node at that address. The entry of that is told beside the answer.
/// Where it fails nothing is said of the sites: the world has ended, and they are thrown away.
#[inline(always)]
pub fn arrive_at(
    alloc: Global,
    sites: &mut [SiteSlot],
    at: &Addr,
    frame: &Frame,
    entry: &mut Entry,
) -> Result<Answer, WorldFault>
    ensures { (w : WorldValue) (n : NodeValue) → SitesStand w sites.old → are_apart w.nodes ≡ true
        → find_node w.nodes (number_of n) ≡ Some n → is_placed w n ≡ true → at.now ≡ addr_of n
        → PlaysAt w n (Arrive frame.now.from (record_of frame.now.rec)) (result_told result entry.new) sites.new }
{
    let place = place_of(sites, &at.site);
    if place >= sites.len() {
        return Err(WorldFault::Name);
    }
    sites[place].arrive(alloc, at.node, frame, entry)
}

// The place of the site of that name, which starts on a fresh log where it is new; of a new site the boot number too.
fn site_or_new(
    alloc: Global,
    sites: &mut Vec<SiteSlot>,
    name: &SiteName,
) -> Result<(usize, Option<u64>), NoMemory>
    ensures at { IfOk result (λ p. IsAt sites.new.items name.now p.0) }
    ensures there { IfOk result (λ p. (w : WorldValue) → SitesStand w sites.old.items → AllByRecursion (λ n. is_placed w n ≡ true) w.nodes
        → IsSiteThere w name.now p.1 sites.new.items) }
{
    let place = place_of(sites.as_slice(), name);
    if place < sites.len() {
        return Ok((place, None));
    }
    let slot = SiteSlot::fresh(alloc, *name)?;
    let boot = slot.boot();
    sites.push(slot)?;
    Ok((place, Some(boot)))
}

/// A node is declared at that address. Where its site is new, that starts on a fresh log, and its boot number is told. Without
/// memory nothing is said of the sites: the world has ended, and they are thrown away.
pub fn declare_at(
    alloc: Global,
    sites: &mut Vec<SiteSlot>,
    at: &Addr,
    superior: &Option<Addr>,
) -> Result<Option<u64>, NoMemory>
    ensures { IfOk result (λ boot. (w : WorldValue) → SitesStand w sites.old.items → AllByRecursion (λ n. is_placed w n ≡ true) w.nodes
        → is_free at.now.node w.nodes ≡ true → IsDeclaredAt w at.now superior.now boot sites.new.items) }
{
    let (place, boot) = site_or_new(alloc, sites, &at.site)?;
    sites[place].declare(alloc, at.node, superior)?;
    Ok(boot)
}

/// What is shown of the node at that address.
pub fn state_at(sites: &[SiteSlot], at: &Addr) -> Option<NodeState>
    ensures { (w : WorldValue) (n : NodeValue) → SitesStand w sites.now → find_node w.nodes (number_of n) ≡ Some n → is_placed w n ≡ true → at.now ≡ addr_of n
        → option_map state_of result ≡ Some (state (digest n.origin n.history)) }
{
    let place = place_of(sites, &at.site);
    if place >= sites.len() {
        return None;
    }
    Some(sites[place].shown(at.node))
}
