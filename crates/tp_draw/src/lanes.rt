//! Which nodes have lanes, and where.
ghost use Rattle.std.specs.Prelude.{◌≡◌, ◌≤◌, ℕ, List, length, OnOk, IfOk};
ghost use Rattle.tp_draw.specs.Lanes.{placed, named, node_of, place_in, is_of_site, first_of, after_site, places_in, with_placed, placed_lanes, with_named, with_all_named, named_lanes, lanes_of, declared_by};

use crate::event::event_of;
use crate::{Lane, Places};
use std::alloc::Global;
use tp_model::{Line, LogWords, OutLine};
use tp_names::same::is_name;
use tp_names::{NoMemory, SiteName};

/// The lanes of a transcript.
pub(crate) fn lanes_of(alloc: Global, lines: &[OutLine]) -> Result<Vec<Lane>, NoMemory>
    ensures { IfOk result (λ lanes. lanes.items ≡ lanes_of lines.now) }
{
    let mut lanes = Vec::new(alloc);
    add_placed(alloc, &mut lanes, lines)?;
    add_named(&mut lanes, lines)?;
    Ok(lanes)
}

// Gives lanes to the nodes whose site the lines tell, and that have none.
fn add_placed(alloc: Global, lanes: &mut Vec<Lane>, lines: &[OutLine]) -> Result<(), NoMemory>
    ensures { OnOk result (lanes.new.items ≡ placed_lanes lanes.old.items lines.now) }
{
    for line in lines {
        if let Some((node, site)) = placed(alloc, line)? {
            place(lanes, node, site)?;
        }
    }
    Ok(())
}

// Gives lanes to the nodes that the lines name, and that have none.
fn add_named(lanes: &mut Vec<Lane>, lines: &[OutLine]) -> Result<(), NoMemory>
    ensures { OnOk result (lanes.new.items ≡ named_lanes lanes.old.items lines.now) }
{
    for line in lines {
        add_named_by(lanes, line)?;
    }
    Ok(())
}

/// The place of the node's lane; after all where it has none.
pub(crate) fn place_in(lanes: &[Lane], node: u16) -> usize
    ensures { result ≡ place_in lanes.now node }
{
    for (i, lane) in lanes.iter().enumerate() {
        if lane.node == node {
            return i;
        }
    }
    lanes.len()
}

/// The places of the site's lanes; the one after all where it has none.
pub(crate) fn places_in(lanes: &[Lane], site: &SiteName) -> Places
    ensures { result ≡ places_in lanes.now site.now }
{
    let first = first_of(lanes, site);
    Places {
        first,
        last: first.max(after_site(lanes, site).saturating_sub(1)),
    }
}

// The node that the line puts on a site, and the site.
fn placed(alloc: Global, line: &OutLine) -> Result<Option<(u16, SiteName)>, NoMemory>
    ensures { IfOk result (λ r. r ≡ placed line.now) }
{
    match line {
        OutLine::Log { site, rec } => match node_of(rec) {
            Some(node) => Ok(Some((node, *site))),
            None => Ok(None),
        },
        _ => {
            let event = event_of(alloc, line)?;
            Ok(declared_by(&event))
        }
    }
}

fn declared_by(event: &Option<Line>) -> Option<(u16, SiteName)>
    ensures { result ≡ declared_by event.now }
{
    match event {
        Some(Line::Node { node, site, .. }) => Some((*node, *site)),
        _ => None,
    }
}

/// The node of which the record is; None of a site's start.
pub(crate) fn node_of(rec: &LogWords) -> Option<u16>
    ensures { result ≡ node_of rec.now }
{
    match rec {
        LogWords::Boot { .. } => None,
        LogWords::Ready { node, .. } => Some(*node),
        LogWords::Heuristic { node, .. } => Some(*node),
        LogWords::Commit { node, .. } => Some(*node),
        LogWords::Damage { node, .. } => Some(*node),
        LogWords::End { node, .. } => Some(*node),
    }
}

// Gives the node a lane beside those of its site, if it has none.
fn place(lanes: &mut Vec<Lane>, node: u16, site: SiteName) -> Result<(), NoMemory>
    ensures { OnOk result (lanes.new.items ≡ with_placed lanes.old.items (Some (node, site))) }
{
    if place_in(lanes.as_slice(), node) == lanes.len() {
        let at = after_site(lanes.as_slice(), &site);
        let site = Some(site);
        lanes.insert(at, Lane { node, site })?;
    }
    Ok(())
}

// Gives lanes to the nodes that the line names, and that have none.
fn add_named_by(lanes: &mut Vec<Lane>, line: &OutLine) -> Result<(), NoMemory>
    ensures { OnOk result (lanes.new.items ≡ with_all_named lanes.old.items (named line.now)) }
{
    match line {
        OutLine::Send { from, to, .. } => {
            add_node(lanes, *from)?;
            add_node(lanes, *to)
        }
        OutLine::Tell { node, .. } => add_node(lanes, *node),
        OutLine::State { node, .. } => add_node(lanes, *node),
        _ => Ok(()),
    }
}

fn add_node(lanes: &mut Vec<Lane>, node: u16) -> Result<(), NoMemory>
    ensures { OnOk result (lanes.new.items ≡ with_named lanes.old.items node) }
{
    if place_in(lanes.as_slice(), node) == lanes.len() {
        lanes.push(Lane { node, site: None })?;
    }
    Ok(())
}

/// The lane is one of the site.
pub(crate) fn is_of_site(lane: &Lane, site: &SiteName) -> bool
    ensures { result ≡ is_of_site site.now lane.now }
{
    match &lane.site {
        Some(name) => is_name(name, site),
        None => false,
    }
}

// The place of the site's first lane; after all where it has none.
fn first_of(lanes: &[Lane], site: &SiteName) -> usize
    ensures { result ≡ first_of lanes.now site.now }
{
    for (i, lane) in lanes.iter().enumerate() {
        if is_of_site(lane, site) {
            return i;
        }
    }
    lanes.len()
}

// The place after the site's last lane; after all where it has none.
fn after_site(lanes: &[Lane], site: &SiteName) -> usize
    ensures value { result ≡ after_site lanes.now site.now }
    ensures within { result ≤ length lanes.now }
{
    let mut at = lanes.len();
    for (i, lane) in lanes.iter().enumerate() {
        if is_of_site(lane, site) {
            at = i + 1;
        }
    }
    at
}
