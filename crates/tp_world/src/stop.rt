//! A site stops in the middle of an event, and starts again on what that leaves of its disk.
ghost use Rattle.std.specs.Prelude.{ℕ, ◌≡◌, ◌<◌, List, ◌∷◌, [], Option, Some, length, true};
ghost use Rattle.tp_names.specs.declared.identifiers.Addr.{Addr as AddrValue};
ghost use Rattle.tp_logrec.specs.declared.record.LogRec.{LogRec};
ghost use Rattle.tp_outside.specs.MemDisk.{recorded, fresh};
ghost use Rattle.tp_model.specs.declared.line.Action.{Action};
ghost use Rattle.tp_model.specs.declared.out_line.OutLine.{OutLine};
ghost use Rattle.tp_model.specs.declared.out_line.RecordFate.{RecordFate};
ghost use Rattle.tp_model.specs.Disk.{Disk, disk_bytes, remains};
ghost use Rattle.tp_model.specs.Happenings.{after_stop, stop_in_entry, stop_in_force, task_at, task_of};
ghost use Rattle.tp_model.specs.Legal.{IsUnder};
ghost use Rattle.tp_model.specs.Lines.{is_named, stands_at, crash_in_line, within_limits, node_of_action};
ghost use Rattle.tp_model.specs.Parts.{Entry as EntryValue, Out};
ghost use Rattle.tp_model.specs.World.{World as WorldValue, Node as NodeValue, Site as SiteValue, number_of};
ghost use Rattle.tp_laws.specs.Expansion.{IsOfRun};
ghost use Rattle.tp_laws.specs.SiteLogs.{DisksTell, DisksStart};
ghost use Rattle.tp_site.specs.NodeEvent.{event_of};
ghost use Rattle.tp_world.specs.Halts.{HasStoppedAs};
ghost use Rattle.tp_world_sites.specs.Sites.{place_of_site};
ghost use Rattle.tp_world_sites.specs.NodeAnswers.{answer_told};
ghost use Rattle.tp_world_sites.specs.Slots.{entry_told};
ghost use Rattle.tp_world.specs.Stops.{HasPlayed, StopsIn, stop_deed, stop_named};
ghost use Rattle.tp_world.specs.World.{Mirrors, Gives};
ghost use Rattle.tp_world_sites.specs.declared.site_slot.SiteSlot.{SiteSlot};

use crate::world::World;
use std::alloc::Global;
use tp_journal::Journal;
use tp_model::{Action, LineRequest, OutLine, OutLines, RecordFate};
use tp_names::SiteName;
use tp_names::same::is_name;
use tp_network::TreeChange;
use tp_outside::MemDisk;
use tp_records::{PeerRecord, Request};
use tp_site::NodeEvent;
use tp_world_sites::{Answer, Entry, LostEntry, Stop, WorldFault, left_by, opened, request_in};

impl World {
    // The site at that place has stopped, with that fate of a record, and starts again.
    fn stopped(
        &mut self,
        alloc: Global,
        place: usize,
        journal: Journal<MemDisk>,
        fate: RecordFate,
        lost: &Option<LostEntry>,
        lines: &mut OutLines,
    ) -> Result<(), WorldFault>
        requires { place < length self.old.sites.items }
        ensures { (w : WorldValue) (s : List ℕ) (x : SiteSlot) → DisksTell w → DisksStart w → place ≡ place_of_site self.old.sites.items s
            → HasStoppedAs w self.old place lost.now journal x → Gives (within_limits (after_stop w s fate)) lines.old result lines.new self.new }
    {
        let site = self.sites[place].name();
        lines.push(alloc, OutLine::Stopped { site, fate })?;
        self.restart(alloc, place, journal, lost, lines)
    }

    // The site at that place has stopped with no record in a force.
    fn stop_with_none(
        &mut self,
        alloc: Global,
        place: usize,
        lines: &mut OutLines,
    ) -> Result<(), WorldFault>
        requires { place < length self.old.sites.items }
        ensures { (w : WorldValue) (s : List ℕ) → DisksTell w → DisksStart w → place ≡ place_of_site self.old.sites.items s
            → Mirrors w self.old → Gives (within_limits (after_stop w s RecordFate.None)) lines.old result lines.new self.new }
    {
        let journal = self.sites[place].reopened(alloc)?;
        self.stopped(alloc, place, journal, RecordFate::None, &None, lines)
    }

    // The site at that place has stopped in the force of the last record that it has; the disk is the one before that.
    fn stop_in_force(
        &mut self,
        alloc: Global,
        place: usize,
        disk: MemDisk,
        node: u16,
        change: &TreeChange,
        stop: &Stop,
        lines: &mut OutLines,
    ) -> Result<(), WorldFault>
        requires { place < length self.old.sites.items }
        ensures { (w : WorldValue) (s : List ℕ) (z : SiteValue) (n : NodeValue) (e : EntryValue) (r : LogRec) (x : SiteSlot)
            (outs : List Out) → HasPlayed w s z n (Some e) x place (Some (record { outs = outs; change = change.now })) self.old
            → e.rec ≡ Some r → node ≡ number_of n → recorded disk ≡ fresh (disk_bytes z.disk) []
            → Gives (within_limits (stop_in_force w n z e (remains stop.now.call stop.now.fill r z.disk))) lines.old result lines.new self.new }
    {
        let records = self.sites[place].log().list();
        let Some(rec) = records.last() else {
            return Err(WorldFault::Name);
        };
        let left = left_by(alloc, disk, rec, stop)?;
        let journal = opened(alloc, left)?;
        if journal.list().len() == records.len() {
            self.enter(node, change)?;
            return self.stopped(alloc, place, journal, RecordFate::Kept, &None, lines);
        }
        let lost = Some(LostEntry {
            node,
            tree: change.before,
        });
        self.stopped(alloc, place, journal, RecordFate::Lost, &lost, lines)
    }

    // The site at that place has stopped in an event that its node has answered; the disk is the one before that.
    fn stop_in_entry(
        &mut self,
        alloc: Global,
        place: usize,
        disk: MemDisk,
        node: u16,
        answer: Answer,
        entry: &Entry,
        stop: &Stop,
        lines: &mut OutLines,
    ) -> Result<(), WorldFault>
        requires { place < length self.old.sites.items }
        ensures { (w : WorldValue) (s : List ℕ) (z : SiteValue) (n : NodeValue) (ent : Option EntryValue) (x : SiteSlot)
            → HasPlayed w s z n ent x place (entry_told (answer_told answer entry.now)) self.old → node ≡ number_of n
            → recorded disk ≡ fresh (disk_bytes z.disk) []
            → Gives (within_limits (stop_in_entry w n z stop.now.call stop.now.fill ent)) lines.old result lines.new self.new }
    {
        match answer {
            Answer::Refused(_) => return self.stop_with_none(alloc, place, lines),
            Answer::Happened { .. } => {}
        }
        if entry.change.rec.is_some() {
            return self.stop_in_force(alloc, place, disk, node, &entry.change, stop, lines);
        }
        self.enter(node, &entry.change)?;
        self.stop_with_none(alloc, place, lines)
    }

    // The site at that place stops in an event of its node of that number.
    fn stop_local(
        &mut self,
        alloc: Global,
        place: usize,
        node: u16,
        event: &NodeEvent<'_>,
        stop: &Stop,
        lines: &mut OutLines,
    ) -> Result<(), WorldFault>
        requires { place < length self.old.sites.items }
        ensures { (w : WorldValue) (s : List ℕ) (z : SiteValue) (d : Action) → StopsIn w s z place self.old
            → stands_at w s (Some node) ≡ true → task_of w d ≡ task_at w node (event_of event.now) → ((up : Option AddrValue) → IsUnder up (event_of event.now))
            → Gives (stop_deed w s z stop.now.call stop.now.fill [] (task_at w node (event_of event.now))) lines.old result lines.new self.new }
    {
        let disk = self.sites[place].copied(alloc)?;
        let mut entry = Entry::new(alloc);
        let answer = self.sites[place].play(alloc, node, event, &mut entry)?;
        self.stop_in_entry(alloc, place, disk, node, answer, &entry, stop, lines)
    }

    // The site at that place stops in a request of the user of its node of that number.
    fn stop_request(
        &mut self,
        alloc: Global,
        place: usize,
        node: u16,
        request: &LineRequest,
        stop: &Stop,
        lines: &mut OutLines,
    ) -> Result<(), WorldFault>
        requires { place < length self.old.sites.items }
        ensures { (w : WorldValue) (s : List ℕ) (z : SiteValue) → StopsIn w s z place self.old → stands_at w s (Some node) ≡ true
            → Gives (stop_deed w s z stop.now.call stop.now.fill [] (task_of w (Action.Do node request.now))) lines.old result lines.new self.new }
    {
        match request_in(alloc, &self.nodes, request)? {
            None => Ok(()),
            Some(request) => {
                let _rec: Option<&PeerRecord> = None;
                let event = NodeEvent::Do { request: &request };
                self.stop_local(alloc, place, node, &event, stop, lines)
            }
        }
    }

    // The site at that place stops as a frame is handed over to a node of it; the frame is shown first.
    fn stop_delivery(
        &mut self,
        alloc: Global,
        place: usize,
        number: u16,
        stop: &Stop,
        lines: &mut OutLines,
    ) -> Result<(), WorldFault>
        requires { place < length self.old.sites.items }
        ensures { (w : WorldValue) (s : List ℕ) (z : SiteValue) → StopsIn w s z place self.old
            → stands_at w s (node_of_action w (Action.Again number)) ≡ true
            → Gives (stop_deed w s z stop.now.call stop.now.fill (OutLine.Take number ∷ []) (task_of w (Action.Again number))) lines.old
            result lines.new self.new }
    {
        let Some(frame) = self.frames.find(number) else {
            return Err(WorldFault::Name);
        };
        let node = frame.to.node;
        lines.push(alloc, OutLine::Take { frame: number })?;
        let disk = self.sites[place].copied(alloc)?;
        let mut entry = Entry::new(alloc);
        let answer = self.sites[place].arrive(alloc, node, frame, &mut entry)?;
        self.stop_in_entry(alloc, place, disk, node, answer, &entry, stop, lines)
    }

    // The site at that place stops as the oldest frame between the nodes is handed over, where there is one.
    fn stop_pass(
        &mut self,
        alloc: Global,
        place: usize,
        from: u16,
        to: u16,
        stop: &Stop,
        lines: &mut OutLines,
    ) -> Result<(), WorldFault>
        requires { place < length self.old.sites.items }
        ensures { (w : WorldValue) (s : List ℕ) (z : SiteValue) → StopsIn w s z place self.old → stands_at w s (Some to) ≡ true
            → Gives (stop_named w s stop.now.call stop.now.fill (Action.Pass from to)) lines.old result lines.new self.new }
    {
        match self.frames.hand_between(from, to) {
            None => {
                lines.push(alloc, OutLine::Nothing)?;
                self.stop_with_none(alloc, place, lines)
            }
            Some(frame) => self.stop_delivery(alloc, place, frame, stop, lines),
        }
    }

    // The site at that place stops in that event, all of whose names are there.
    fn stop_in(
        &mut self,
        alloc: Global,
        place: usize,
        stop: &Stop,
        action: &Action,
        lines: &mut OutLines,
    ) -> Result<(), WorldFault>
        requires { place < length self.old.sites.items }
        ensures { (w : WorldValue) (s : List ℕ) (z : SiteValue) → StopsIn w s z place self.old
            → stands_at w s (node_of_action w action.now) ≡ true
            → Gives (stop_named w s stop.now.call stop.now.fill action.now) lines.old result lines.new self.new }
    {
        let _rec: Option<&PeerRecord> = None;
        let _request: Option<&Request> = None;
        match action {
            Action::Do { node, request } => {
                self.stop_request(alloc, place, *node, request, stop, lines)
            }
            Action::Pass { from, to } => self.stop_pass(alloc, place, *from, *to, stop, lines),
            Action::Again { frame } => self.stop_delivery(alloc, place, *frame, stop, lines),
            Action::Lose { node, peer } => {
                let event = NodeEvent::Lose { peer: *peer };
                self.stop_local(alloc, place, *node, &event, stop, lines)
            }
            Action::GiveUp { node, peer } => {
                let event = NodeEvent::GiveUp { peer: *peer };
                self.stop_local(alloc, place, *node, &event, stop, lines)
            }
            Action::Heur { node, outcome } => {
                let event = NodeEvent::Heur { outcome: *outcome };
                self.stop_local(alloc, place, *node, &event, stop, lines)
            }
            Action::Retry { node } => {
                self.stop_local(alloc, place, *node, &NodeEvent::Retry, stop, lines)
            }
            Action::Purge { node } => {
                self.stop_local(alloc, place, *node, &NodeEvent::Purge, stop, lines)
            }
        }
    }

    // All that the event names is there.
    fn has_names(&self, action: &Action) -> bool
        ensures { (w : WorldValue) → Mirrors w self.now → result ≡ is_named w action.now }
    {
        match action {
            Action::Do { node, request } => self.is_named(*node, request),
            Action::Pass { from, to } => self.is_node(*from) && self.is_node(*to),
            Action::Again { frame } => self.is_frame(*frame),
            Action::Lose { node, peer } => self.is_node(*node) && self.is_node(*peer),
            Action::GiveUp { node, peer } => self.is_node(*node) && self.is_node(*peer),
            Action::Heur { node, .. } => self.is_node(*node),
            Action::Retry { node } => self.is_node(*node),
            Action::Purge { node } => self.is_node(*node),
        }
    }

    // The node whose event it is.
    #[tactic(auto, using(crate::proofs::Stood::frame_same))]
    fn node_of(&self, action: &Action) -> Option<u16>
        ensures { (w : WorldValue) → Mirrors w self.now → result ≡ node_of_action w action.now }
    {
        match action {
            Action::Do { node, .. }
            | Action::Lose { node, .. }
            | Action::Heur { node, .. }
            | Action::GiveUp { node, .. }
            | Action::Retry { node }
            | Action::Purge { node } => Some(*node),
            Action::Pass { to, .. } => Some(*to),
            Action::Again { frame } => match self.frames.find(*frame) {
                Some(frame) => Some(frame.to.node),
                None => None,
            },
        }
    }

    // The event is of a node of that site.
    #[tactic(auto, using(crate::proofs::Stood::address_stood))]
    fn stands_at(&self, site: &SiteName, action: &Action) -> bool
        ensures { (w : WorldValue) → Mirrors w self.now → result ≡ stands_at w site.now (node_of_action w action.now) }
    {
        let Some(node) = self.node_of(action) else {
            return false;
        };
        match self.nodes.addr(node) {
            Some(at) => is_name(&at.site, site),
            None => false,
        }
    }

    /// A site stops in an event of one of its nodes, and starts again.
    pub(crate) fn crash_in_line(
        &mut self,
        alloc: Global,
        site: &SiteName,
        stop: &Stop,
        action: &Action,
        lines: &mut OutLines,
    ) -> Result<(), WorldFault>
        ensures { (w : WorldValue) → IsOfRun w → Mirrors w self.old
            → Gives (crash_in_line w site.now stop.now.call stop.now.fill action.now) lines.old result lines.new self.new }
    {
        let Some(place) = self.site(site) else {
            return Err(WorldFault::Name);
        };
        if !self.has_names(action) || !self.stands_at(site, action) {
            return Err(WorldFault::Name);
        }
        self.stop_in(alloc, place, stop, action, lines)
    }
}
