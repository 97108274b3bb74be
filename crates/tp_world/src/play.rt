//! What each line does, without members.
ghost use Rattle.std.specs.Prelude.{◌≡◌, ◌&&◌, ◌++◌, [], not, nat_le, length, true, false, Option, Ok, OnOk};
ghost use Rattle.tp_model.specs.World.{World as WorldValue, is_node, is_site};
ghost use Rattle.tp_names.specs.declared.identifiers.Addr.{Addr as AddrValue};
ghost use Rattle.tp_model.specs.declared.line.Action.{Action};
ghost use Rattle.tp_model.specs.Happenings.{Crash, happens, task_at};
ghost use Rattle.tp_laws.specs.Expansion.{IsOfRun};
ghost use Rattle.tp_model.specs.Legal.{IsUnder};
ghost use Rattle.tp_model.specs.Lines.{if_named, is_named, is_frame, action_line, node_limit, node_line, skip_line, drain_line, show_line, image_line, within_limits, is_peer_node};
ghost use Rattle.tp_site.specs.NodeEvent.{event_of};
ghost use Rattle.tp_world.specs.Declares.{superior_at, has_superior, HasCome};
ghost use Rattle.tp_world.specs.Drains.{Hands};
ghost use Rattle.tp_world.specs.World.{Mirrors, Gives, task_turn};

use crate::world::World;
use std::alloc::Global;
use tp_model::{LineRequest, OutLine, OutLines, What};
use tp_names::{Addr, NoMemory, Octets, SiteName};
use tp_site::NodeEvent;
use tp_world_sites::{WorldFault, declare_at, peer_of, show_boot, state_at, state_shown};

/// The most sites and nodes.
const MOST_SITES: usize = 16;

const MOST_NODES: usize = 256;

/// More frames than may be sent.
const PAST_FRAMES: u32 = 65536;

impl World {
    /// A node of that number is declared.
    #[tactic(auto, using(crate::proofs::Stood::node_same))]
    pub fn is_node(&self, node: u16) -> bool
        ensures { (w : WorldValue) → Mirrors w self.now → result ≡ is_node w node }
    {
        self.nodes.addr(node).is_some()
    }

    // A node of that number is declared, where a number is given.
    fn is_peer(&self, peer: Option<u16>) -> bool
        ensures { (w : WorldValue) → Mirrors w self.now → result ≡ is_peer_node w peer }
    {
        match peer {
            None => true,
            Some(peer) => self.is_node(peer),
        }
    }

    /// All that a request of that node's user names is there.
    #[inline(always)]
    pub fn is_named(&self, node: u16, request: &LineRequest) -> bool
        ensures { (w : WorldValue) → Mirrors w self.now → result ≡ is_named w (Action.Do node request.now) }
    {
        self.is_node(node) && self.is_peer(peer_of(request))
    }

    // A frame of that number was sent.
    #[tactic(auto, using(crate::proofs::Stood::frame_same))]
    pub(crate) fn is_frame(&self, frame: u16) -> bool
        ensures { (w : WorldValue) → Mirrors w self.now → result ≡ is_frame w frame }
    {
        self.frames.find(frame).is_some()
    }

    // The site is not there, and there are as many as there may be.
    #[tactic(auto, using(crate::proofs::Coming::sites_count))]
    fn is_site_too_many(&self, site: &SiteName) -> bool
        ensures { (w : WorldValue) → Mirrors w self.now → result ≡ (not (is_site w site.now) && nat_le 16 (length w.sites)) }
    {
        self.site(site).is_none() && self.sites.len() >= MOST_SITES
    }

    // The limit that one more node at that site would pass.
    #[tactic(auto, using(crate::proofs::Coming::nodes_count))]
    fn node_limit(&self, site: &SiteName) -> Option<What>
        ensures { (w : WorldValue) → Mirrors w self.now → result ≡ node_limit w site.now }
    {
        if self.is_site_too_many(site) {
            Some(What::Sites)
        } else if self.nodes.count() >= MOST_NODES {
            Some(What::Nodes)
        } else {
            None
        }
    }

    // The address of the node of that number, where one is given.
    fn superior_at(&self, under: Option<u16>) -> Option<Addr>
        ensures { (w : WorldValue) → Mirrors w self.now → result ≡ superior_at w under }
    {
        match under {
            None => None,
            Some(under) => self.nodes.addr(under),
        }
    }

    // The node at that address comes, under that one.
    fn declare(
        &mut self,
        alloc: Global,
        at: Addr,
        superior: Option<Addr>,
        lines: &mut OutLines,
    ) -> Result<(), NoMemory>
        ensures { (w : WorldValue) → Mirrors w self.old → is_node w at.node ≡ false → has_superior w superior ≡ true
            → OnOk result (HasCome w at superior lines.old lines.new self.new) }
    {
        let site = at.site;
        let boot = declare_at(alloc, &mut self.sites, &at, &superior)?;
        self.nodes.declare(alloc, at, superior)?;
        show_boot(alloc, site, boot, lines)
    }

    /// A node comes.
    pub(crate) fn node_line(
        &mut self,
        alloc: Global,
        node: u16,
        site: SiteName,
        under: Option<u16>,
        lines: &mut OutLines,
    ) -> Result<(), WorldFault>
        ensures { (w : WorldValue) → Mirrors w self.old → Gives (node_line w node site under) lines.old result lines.new self.new }
    {
        if self.is_node(node) || !self.is_peer(under) {
            return Err(WorldFault::Name);
        }
        if let Some(what) = self.node_limit(&site) {
            return Err(WorldFault::Limit { what });
        }
        let superior = self.superior_at(under);
        self.declare(alloc, Addr { site, node }, superior, lines)?;
        Ok(())
    }

    /// A request of a node's user.
    pub(crate) fn request_line(
        &mut self,
        alloc: Global,
        node: u16,
        request: &LineRequest,
        lines: &mut OutLines,
    ) -> Result<(), WorldFault>
        ensures { (w : WorldValue) → Mirrors w self.old → Gives (action_line w (Action.Do node request.now)) lines.old result lines.new self.new }
    {
        if !self.is_named(node, request) {
            return Err(WorldFault::Name);
        }
        self.ask(alloc, node, request, lines)
    }

    /// The oldest frame from the one node to the other is handed over.
    pub(crate) fn pass_line(
        &mut self,
        alloc: Global,
        from: u16,
        to: u16,
        lines: &mut OutLines,
    ) -> Result<(), WorldFault>
        ensures { (w : WorldValue) → Mirrors w self.old → Gives (action_line w (Action.Pass from to)) lines.old result lines.new self.new }
    {
        if !self.is_node(from) || !self.is_node(to) {
            return Err(WorldFault::Name);
        }
        match self.frames.hand_between(from, to) {
            None => {
                lines.push(alloc, OutLine::Nothing)?;
                Ok(())
            }
            Some(frame) => self.deliver(alloc, frame, lines),
        }
    }

    /// A frame is handed over, once more if it was before.
    pub(crate) fn again_line(
        &mut self,
        alloc: Global,
        frame: u16,
        lines: &mut OutLines,
    ) -> Result<(), WorldFault>
        ensures { (w : WorldValue) → Mirrors w self.old → Gives (action_line w (Action.Again frame)) lines.old result lines.new self.new }
    {
        if !self.is_frame(frame) {
            return Err(WorldFault::Name);
        }
        self.deliver(alloc, frame, lines)
    }

    /// A local event of a node.
    pub(crate) fn local_line(
        &mut self,
        alloc: Global,
        node: u16,
        event: &NodeEvent<'_>,
        lines: &mut OutLines,
    ) -> Result<(), WorldFault>
        ensures { (w : WorldValue) → Mirrors w self.old → ((up : Option AddrValue) → IsUnder up (event_of event.now))
            → Gives (if_named (is_node w node) (within_limits (task_turn w [] (task_at w node (event_of event.now))))) lines.old result lines.new self.new }
    {
        if !self.is_node(node) {
            return Err(WorldFault::Name);
        }
        self.local(alloc, node, event, lines)
    }

    /// A local event of a node on its arc to another node.
    pub(crate) fn arc_line(
        &mut self,
        alloc: Global,
        node: u16,
        peer: u16,
        event: &NodeEvent<'_>,
        lines: &mut OutLines,
    ) -> Result<(), WorldFault>
        ensures { (w : WorldValue) → Mirrors w self.old → ((up : Option AddrValue) → IsUnder up (event_of event.now))
            → Gives (if_named (is_node w node && is_node w peer) (within_limits (task_turn w [] (task_at w node (event_of event.now)))))
            lines.old result lines.new self.new }
    {
        if !self.is_node(node) || !self.is_node(peer) {
            return Err(WorldFault::Name);
        }
        self.local(alloc, node, event, lines)
    }

    /// The oldest frame from the one node to the other counts as handed over.
    pub(crate) fn skip_line(
        &mut self,
        alloc: Global,
        from: u16,
        to: u16,
        lines: &mut OutLines,
    ) -> Result<(), WorldFault>
        ensures { (w : WorldValue) → Mirrors w self.old
            → Gives (if_named (is_node w from && is_node w to) (Ok (skip_line w from to))) lines.old result lines.new self.new }
    {
        if !self.is_node(from) || !self.is_node(to) {
            return Err(WorldFault::Name);
        }
        match self.frames.hand_between(from, to) {
            None => {
                lines.push(alloc, OutLine::Nothing)?;
                Ok(())
            }
            Some(frame) => {
                lines.push(alloc, OutLine::Lost { frame })?;
                Ok(())
            }
        }
    }

    // The oldest frame that is not handed over is handed over, where there is one.
    fn hand_oldest(&mut self, alloc: Global, lines: &mut OutLines) -> Result<bool, WorldFault>
        ensures { (w : WorldValue) → Mirrors w self.old → Hands w lines.old result lines.new self.new }
    {
        let Some(frame) = self.frames.hand_oldest() else {
            return Ok(false);
        };
        self.deliver(alloc, frame, lines)?;
        Ok(true)
    }

    // Frames are handed over, the oldest first, at most so many times.
    fn drain(&mut self, alloc: Global, most: u32, lines: &mut OutLines) -> Result<(), WorldFault>
        ensures { (w : WorldValue) → Mirrors w self.old → Gives (drain_line most w) lines.old result lines.new self.new }
    {
        for _turn in 0..most {
            if !self.hand_oldest(alloc, lines)? {
                return Ok(());
            }
        }
        Ok(())
    }

    /// The oldest frame that is not handed over is handed over, until there is none.
    pub(crate) fn drain_line(
        &mut self,
        alloc: Global,
        lines: &mut OutLines,
    ) -> Result<(), WorldFault>
        ensures { (w : WorldValue) → Mirrors w self.old → Gives (drain_line 65536 w) lines.old result lines.new self.new }
    {
        self.drain(alloc, PAST_FRAMES, lines)
    }

    /// A site stops and starts again.
    pub(crate) fn crash_line(
        &mut self,
        alloc: Global,
        site: &SiteName,
        lines: &mut OutLines,
    ) -> Result<(), WorldFault>
        ensures { (w : WorldValue) → IsOfRun w → Mirrors w self.old
            → Gives (if_named (is_site w site.now) (within_limits (happens w (Crash site.now)))) lines.old result lines.new self.new }
    {
        match self.site(site) {
            None => Err(WorldFault::Name),
            Some(place) => self.crash(alloc, place, lines),
        }
    }

    /// All bytes of a site's disk are shown.
    pub(crate) fn image_line(
        &self,
        alloc: Global,
        site: &SiteName,
        lines: &mut OutLines,
    ) -> Result<(), WorldFault>
        ensures { (w : WorldValue) → Mirrors w self.now → Gives (image_line w site.now) lines.old result lines.new self.now }
    {
        match self.site(site) {
            None => Err(WorldFault::Name),
            Some(place) => {
                let bytes = Octets::from_slice(alloc, self.sites[place].bytes())?;
                let site = *site;
                lines.push(alloc, OutLine::Image { site, bytes })?;
                Ok(())
            }
        }
    }

    /// The state of a node is shown.
    pub(crate) fn show_line(
        &self,
        alloc: Global,
        node: u16,
        lines: &mut OutLines,
    ) -> Result<(), WorldFault>
        ensures { (w : WorldValue) → Mirrors w self.now → Gives (show_line w node) lines.old result lines.new self.now }
    {
        let Some(at) = self.nodes.addr(node) else {
            return Err(WorldFault::Name);
        };
        let Some(state) = state_at(self.sites.as_slice(), &at) else {
            return Err(WorldFault::Name);
        };
        lines.push(alloc, state_shown(node, &state))?;
        Ok(())
    }
}
