//! Where nodes stand.
ghost use Rattle.std.specs.Prelude.{◌≡◌, [], length, map, option_map, IfOk};
ghost use Rattle.tp_weaving.specs.Places.{place_of, addr_at, find_place, Adds};

use std::alloc::Global;
use std::marker::Model;
use tp_names::same::is_addr;
use tp_names::{Addr, NoMemory, SiteName};

/// The address of a node, and its superior's, where it has one.
#[derive(Clone, Copy)]
pub struct Place {
    pub addr: Addr,
    pub superior: Option<Addr>,
}

/// The places of nodes, the newest first: each number once, and a superior before its subordinates.
#[derive(Drop)]
pub struct Places {
    items: Vec<Place>,
}

impl Model for Places {
    ghost use Rattle.std.specs.Prelude.{List, map};
    ghost use Rattle.tp_deployments.specs.Deployments.{Place as PlaceValue};
    ghost use Rattle.tp_weaving.specs.Places.{place_of};

    ghost Value = { List PlaceValue };

    ghost view = { λ s. map place_of s.items.items };
}

impl Places {
    /// None.
    pub fn new(alloc: Global) -> Places
        ensures { result ≡ [] }
    {
        Places {
            items: Vec::new(alloc),
        }
    }

    /// How many there are.
    pub fn len(&self) -> usize
        ensures { result ≡ length self.now }
    {
        self.items.len()
    }

    /// The place at that address.
    pub fn find(&self, at: &Addr) -> Option<Place>
        ensures { option_map place_of result ≡ find_place self.now at.now }
    {
        find(self.items.as_slice(), at)
    }

    /// Another node stands at that site, under the node of that number where one is given. It tells whether its number is new, and its
    /// superior there. Without memory the places are thrown away.
    pub fn add(&mut self, node: u16, under: Option<u16>, site: SiteName) -> Result<bool, NoMemory>
        ensures { IfOk result (λ fits. Adds self.old node under site fits self.new) }
    {
        if addr_at(self.items.as_slice(), node).is_some() {
            return Ok(false);
        }
        let superior = match under {
            None => None,
            Some(under) => match addr_at(self.items.as_slice(), under) {
                None => return Ok(false),
                Some(addr) => Some(addr),
            },
        };
        let addr = Addr { site, node };
        self.items.insert(0, Place { addr, superior })?;
        Ok(true)
    }
}

// The place at that address.
fn find(places: &[Place], at: &Addr) -> Option<Place>
    ensures { option_map place_of result ≡ find_place (map place_of places.now) at.now }
{
    match places {
        [] => None,
        [first, rest @ ..] => {
            if is_addr(&first.addr, at) {
                Some(*first)
            } else {
                find(rest, at)
            }
        }
    }
}

// The address of the node of that number.
fn addr_at(places: &[Place], node: u16) -> Option<Addr>
    ensures { result ≡ addr_at (map place_of places.now) node }
{
    match places {
        [] => None,
        [first, rest @ ..] => {
            if first.addr.node == node {
                Some(first.addr)
            } else {
                addr_at(rest, node)
            }
        }
    }
}
