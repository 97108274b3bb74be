//! The members of a world.
ghost use Rattle.std.specs.Prelude.{ℕ, ◌≡◌, ◌++◌, [], IfOk, OnOk, OnErr, ◌∷◌, List, length, true, drop, map, nat_eq, Option, Some, None};
ghost use Rattle.std.specs.Map.{lookup};
ghost use Rattle.tp_records.specs.Answers.{Answer};
ghost use Rattle.tp_world_members.specs.Members.{may, is_there, slot_at, driver_in, now_driven, AreSame, HasLeft, Gave, Asks, AsksFrom};
ghost use Rattle.tp_world_members.specs.Told.{puts_in};

use std::alloc::Global;
use std::collections::HashMap;
use tp_model::OutLine;
use tp_names::NoMemory;
use tp_records::{Indication, Member, Request};

/// What a member that drives the node asks for.
#[derive(Drop)]
pub(crate) struct Asked {
    pub(crate) node: u16,
    pub(crate) request: Request,
}

/// The members that were handed in, numbered from 1, and the members that drive nodes. One that was dropped has left its place.
#[derive(Drop)]
pub(crate) struct Members<M> {
    slots: Vec<Option<M>>,
    drivers: HashMap<u16, u16>,
}

// An indication is put to the member, where it is there.
fn tell<M: Member>(
    alloc: Global,
    slot: &mut Option<M>,
    node: u16,
    indication: &Indication,
) -> Result<Option<Request>, NoMemory>
    ensures there { IfOk result (λ a. is_there slot.new ≡ is_there slot.old) }
    ensures may { is_there slot.old ≡ true
        → IfOk result (λ a. (rest : List Answer) → may M.allowed slot.new rest
        → may M.allowed slot.old (record { node = node; indication = indication.now; request = a } ∷ rest)) }
{
    match slot {
        None => Ok(None),
        Some(member) => member.told(alloc, node, indication),
    }
}

impl<M: Member> Members<M> {
    /// All of them are there, and drive no node.
    pub(crate) fn new(alloc: Global, members: Vec<M>) -> Result<Members<M>, NoMemory>
        ensures { IfOk result (λ m. (m.slots.items ≡ map (λ x. Some x) members.items) × (m.drivers.entries ≡ [])) }
    {
        let mut slots = Vec::new(alloc);
        for member in members {
            slots.push(Some(member))?;
        }
        Ok(Members {
            slots,
            drivers: HashMap::new(alloc),
        })
    }

    /// The member is there.
    pub(crate) fn is_there(&self, member: u16) -> bool
        ensures { result ≡ is_there (slot_at self.now.slots.items member) }
    {
        let place = member as usize;
        place > 0 && place <= self.slots.len() && self.slots[place - 1].is_some()
    }

    /// No node is driven.
    pub(crate) fn drive_none(&self) -> bool
        ensures { result ≡ true → self.now.drivers.entries ≡ [] }
    {
        self.drivers.is_empty()
    }

    // The member that drives the node, while it is there.
    fn driver(&self, node: u16) -> Option<u16>
        ensures { result ≡ driver_in self.now.slots.items self.now.drivers.entries node }
    {
        match self.drivers.get(&node) {
            Some(member) if self.is_there(*member) => Some(*member),
            _ => None,
        }
    }

    /// The member drives the node from now on.
    pub(crate) fn drive(&mut self, node: u16, member: u16) -> Result<(), NoMemory>
        ensures slots { self.new.slots.items ≡ self.old.slots.items }
        ensures drives { OnOk result ((n : ℕ)
            → lookup (nat_eq n) self.new.drivers.entries ≡ now_driven (nat_eq node n) member (lookup (nat_eq n) self.old.drivers.entries)) }
    {
        self.drivers.insert(node, member)?;
        Ok(())
    }

    /// The member is dropped, where it is there.
    pub(crate) fn leave(&mut self, member: u16)
        ensures drivers { self.new.drivers ≡ self.old.drivers }
        ensures count { length self.new.slots.items ≡ length self.old.slots.items }
        ensures slots { HasLeft member self.old.slots.items self.new.slots.items }
    {
        let place = member as usize;
        if place > 0 && place <= self.slots.len() {
            self.slots[place - 1] = None;
        }
    }

    // An indication of a node is put to that member.
    fn put(
        &mut self,
        alloc: Global,
        member: u16,
        node: u16,
        indication: &Indication,
    ) -> Result<Option<Request>, NoMemory>
        ensures same { OnOk result (AreSame self.old.slots.items self.new.slots.items × (self.new.drivers ≡ self.old.drivers)) }
        ensures gave { is_there (slot_at self.old.slots.items member) ≡ true
            → IfOk result (λ a. Gave M.allowed self.old.slots.items self.new.slots.items
            (record { member = member; node = node; indication = indication.now } ∷ []) (a ∷ [])) }
    {
        let place = member as usize;
        if place == 0 || place > self.slots.len() {
            return Ok(None);
        }
        tell(alloc, &mut self.slots[place - 1], node, indication)
    }

    // What a line tells a user is put to the member that drives the node, if one does.
    fn ask(&mut self, alloc: Global, line: &OutLine) -> Result<Option<Asked>, NoMemory>
        ensures same { OnOk result (AreSame self.old.slots.items self.new.slots.items × (self.new.drivers ≡ self.old.drivers)) }
        ensures asks { IfOk result (λ a. Asks M.allowed self.old.slots.items self.new.slots.items
            (puts_in (driver_in self.old.slots.items self.old.drivers.entries) (line.now ∷ [])) a) }
    {
        let OutLine::Tell { node, indication } = line else {
            return Ok(None);
        };
        let Some(member) = self.driver(*node) else {
            return Ok(None);
        };
        match self.put(alloc, member, *node, indication)? {
            None => Ok(None),
            Some(request) => Ok(Some(Asked {
                node: *node,
                request,
            })),
        }
    }
}

/// What the lines tell users, from that place on, is put to the members that drive the nodes, up to the first answer that
/// is a request. It is handed out with the place where the rest begins.
pub(crate) fn next_request<M: Member>(
    alloc: Global,
    members: &mut Members<M>,
    lines: &[OutLine],
    from: usize,
) -> Result<Option<(Asked, usize)>, NoMemory>
    ensures same { OnOk result (AreSame members.old.slots.items members.new.slots.items × (members.new.drivers ≡ members.old.drivers)) }
    ensures asks { IfOk result (λ a. AsksFrom M.allowed members.old.slots.items members.new.slots.items
        (driver_in members.old.slots.items members.old.drivers.entries) lines.now from a) }
{
    for place in from..lines.len() {
        if let Some(asked) = members.ask(alloc, &lines[place])? {
            return Ok(Some((asked, place + 1)));
        }
    }
    Ok(None)
}
