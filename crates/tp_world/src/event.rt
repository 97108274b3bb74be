//! An event of a node of the world.
ghost use Rattle.std.specs.Prelude.{◌≡◌, ◌<◌, ◌++◌, ◌∷◌, [], length, IfSome, IfOk, OnOk, Option, Some, is_some, None};
ghost use Rattle.tp_model.specs.World.{World as WorldValue, is_site};
ghost use Rattle.tp_names.specs.declared.identifiers.Addr.{Addr as AddrValue};
ghost use Rattle.tp_model.specs.declared.line.Action.{Action};
ghost use Rattle.tp_model.specs.Happenings.{Does, task_at, happens};
ghost use Rattle.tp_model.specs.Legal.{IsUnder};
ghost use Rattle.tp_model.specs.Lines.{within_limits};
ghost use Rattle.tp_model.specs.Parts.{Send};
ghost use Rattle.tp_site.specs.NodeEvent.{event_of};
ghost use Rattle.tp_site.specs.Outs.{out_of};
ghost use Rattle.tp_world_sites.specs.NodeAnswers.{answer_told};
ghost use Rattle.tp_world_sites.specs.Sites.{place_of_site};
ghost use Rattle.tp_world.specs.Settled.{tree_started, GivesOuts, IsEntered, SettlesEntry, Settles};
ghost use Rattle.tp_world.specs.World.{Mirrors, Gives, task_turn};

use crate::world::World;
use std::alloc::Global;
use tp_model::{LineRequest, OutLine, OutLines};
use tp_names::{Aaid, Addr, NoMemory, SiteName};
use tp_network::{SendFault, TreeChange, is_in};
use tp_records::{PeerRecord, Request};
use tp_site::{NodeEvent, Out, Outs};
use tp_world_sites::{
    Answer, Entry, WorldFault, arrive_at, play_at, request_in, show_record, show_refusal,
    show_refused, show_sent, show_told, site_place,
};

// The tree that an entry starts.
fn started(change: &TreeChange) -> Option<Aaid>
    ensures { result ≡ tree_started change.now }
{
    match &change.after {
        Some(after) if after.is_root && !is_in(&after.aaid, &change.before) => Some(after.aaid),
        _ => None,
    }
}

// Memory for the entry of the first event.
fn first_entry(alloc: Global) -> Result<Box<Entry>, NoMemory> {
    Ok(Box::new(alloc, Entry::new(alloc))?)
}

impl World {
    /// The place of the site of that name.
    pub(crate) fn site(&self, name: &SiteName) -> Option<usize>
        ensures within { IfSome result (λ i. i < length self.now.sites.items) }
        ensures place { IfSome result (λ i. i ≡ place_of_site self.now.sites.items name.now) }
        ensures there { (w : WorldValue) → Mirrors w self.now → is_some result ≡ is_site w name.now }
    {
        site_place(self.sites.as_slice(), name)
    }

    // Memory for the entry of an event: that of the event before it.
    fn take_entry(&mut self, alloc: Global) -> Result<Box<Entry>, NoMemory>
        ensures { self.new ≡ record self.old { entry = None } }
    {
        match self.entry.take() {
            Some(entry) => Ok(entry),
            None => first_entry(alloc),
        }
    }

    /// An event of that node, where the node is there.
    #[inline(always)]
    pub(crate) fn local(
        &mut self,
        alloc: Global,
        node: u16,
        event: &NodeEvent<'_>,
        lines: &mut OutLines,
    ) -> Result<(), WorldFault>
        ensures { (w : WorldValue) → Mirrors w self.old → ((up : Option AddrValue) → IsUnder up (event_of event.now))
            → Gives (within_limits (task_turn w [] (task_at w node (event_of event.now)))) lines.old result lines.new self.new }
    {
        let mut entry = self.take_entry(alloc)?;
        let done = self.local_with(alloc, node, event, &mut entry, lines);
        self.entry = Some(entry);
        done
    }

    // The same; the entry of it is told there.
    fn local_with(
        &mut self,
        alloc: Global,
        node: u16,
        event: &NodeEvent<'_>,
        entry: &mut Entry,
        lines: &mut OutLines,
    ) -> Result<(), WorldFault>
        ensures { (w : WorldValue) → Mirrors w self.old → ((up : Option AddrValue) → IsUnder up (event_of event.now))
            → Gives (within_limits (task_turn w [] (task_at w node (event_of event.now)))) lines.old result lines.new self.new }
    {
        let Some(at) = self.nodes.addr(node) else {
            return Ok(());
        };
        let answer = play_at(alloc, self.sites.as_mut_slice(), &at, event, entry)?;
        self.settle(alloc, &at, answer, entry, lines)?;
        Ok(())
    }

    /// A request of the user of that node, where the node is there and the peer that it names.
    pub(crate) fn ask(
        &mut self,
        alloc: Global,
        node: u16,
        request: &LineRequest,
        lines: &mut OutLines,
    ) -> Result<(), WorldFault>
        ensures { (w : WorldValue) → Mirrors w self.old
            → Gives (within_limits (happens w (Does (Action.Do node request.now)))) lines.old result lines.new self.new }
    {
        match request_in(alloc, &self.nodes, request)? {
            None => Ok(()),
            Some(request) => {
                let _rec: Option<&PeerRecord> = None;
                let event = NodeEvent::Do { request: &request };
                self.local(alloc, node, &event, lines)
            }
        }
    }

    /// A frame is handed over, where it and its node are there; it is shown first.
    #[inline(always)]
    pub(crate) fn deliver(
        &mut self,
        alloc: Global,
        number: u16,
        lines: &mut OutLines,
    ) -> Result<(), WorldFault>
        ensures { (w : WorldValue) → Mirrors w self.old → Gives (within_limits (happens w (Does (Action.Again number)))) lines.old result lines.new self.new }
    {
        let mut entry = self.take_entry(alloc)?;
        let done = self.deliver_with(alloc, number, &mut entry, lines);
        self.entry = Some(entry);
        done
    }

    // The same; the entry of it is told there.
    fn deliver_with(
        &mut self,
        alloc: Global,
        number: u16,
        entry: &mut Entry,
        lines: &mut OutLines,
    ) -> Result<(), WorldFault>
        ensures { (w : WorldValue) → Mirrors w self.old → Gives (within_limits (happens w (Does (Action.Again number)))) lines.old result lines.new self.new }
    {
        let Some(frame) = self.frames.find(number) else {
            return Ok(());
        };
        let Some(at) = self.nodes.addr(frame.to.node) else {
            return Ok(());
        };
        lines.push(alloc, OutLine::Take { frame: number })?;
        let answer = arrive_at(alloc, self.sites.as_mut_slice(), &at, frame, entry)?;
        self.settle(alloc, &at, answer, entry, lines)?;
        Ok(())
    }

    // The entry stands in the node's summaries, and a tree that it starts is known.
    #[inline(always)]
    pub(crate) fn enter(&mut self, node: u16, change: &TreeChange) -> Result<(), NoMemory>
        ensures { OnOk result (IsEntered node change.now self.old self.new) }
    {
        self.nodes.change(node, change)?;
        if let Some(tree) = started(change) {
            self.trees.push(tree)?;
        }
        Ok(())
    }

    // A record of the node at that address is sent.
    fn send(
        &mut self,
        alloc: Global,
        from: &Addr,
        to: &Addr,
        rec: &PeerRecord,
        lines: &mut OutLines,
    ) -> Result<(), SendFault>
        ensures { GivesOuts from.now (Send to.now rec.now ∷ []) lines.old result lines.new self.old self.new }
    {
        let frame = self.frames.send(alloc, from, to, rec)?;
        show_sent(alloc, frame, from.node, to.node, rec, lines)?;
        Ok(())
    }

    // One output of the node at that address.
    fn give(
        &mut self,
        alloc: Global,
        from: &Addr,
        out: &Out,
        lines: &mut OutLines,
    ) -> Result<(), SendFault>
        ensures { GivesOuts from.now (out_of out.now ∷ []) lines.old result lines.new self.old self.new }
    {
        match out {
            Out::Tell(indication) => {
                show_told(alloc, from.node, indication, lines)?;
                Ok(())
            }
            Out::Send { to, rec } => self.send(alloc, from, to, rec, lines),
        }
    }

    // The outputs of the node at that address, in order.
    fn give_all(
        &mut self,
        alloc: Global,
        from: &Addr,
        outs: &Outs,
        lines: &mut OutLines,
    ) -> Result<(), SendFault>
        ensures { GivesOuts from.now outs.now lines.old result lines.new self.old self.new }
    {
        for out in outs.as_slice() {
            self.give(alloc, from, out, lines)?;
        }
        Ok(())
    }

    // The entry of the node at that address: a tree that it starts is known, and its outputs are given.
    fn settle_entry(
        &mut self,
        alloc: Global,
        at: &Addr,
        entry: &Entry,
        lines: &mut OutLines,
    ) -> Result<(), SendFault>
        ensures { SettlesEntry at.now entry.now lines.old result lines.new self.old self.new }
    {
        self.enter(at.node, &entry.change)?;
        self.give_all(alloc, at, &entry.outs, lines)
    }

    // What the answer of the node at that address, and the entry of that, makes of the world.
    #[inline(always)]
    fn settle(
        &mut self,
        alloc: Global,
        at: &Addr,
        answer: Answer,
        entry: &Entry,
        lines: &mut OutLines,
    ) -> Result<(), SendFault>
        ensures { Settles at.now (answer_told answer entry.now) lines.old result lines.new self.old self.new }
    {
        match answer {
            Answer::Refused(number) => {
                show_refused(alloc, number, lines)?;
                Ok(())
            }
            Answer::Happened { refusal } => {
                show_record(alloc, at, &entry.change.rec, lines)?;
                show_refusal(alloc, refusal, lines)?;
                self.settle_entry(alloc, at, entry, lines)
            }
        }
    }
}
