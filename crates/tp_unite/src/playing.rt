//! A site that is played once more, from what its processes were given.
ghost use Rattle.std.specs.Prelude.{ℕ, ◌≡◌, ◌≢◌, ◌∷◌, Err, List, IfOk, OnOk};
ghost use Rattle.tp_records.specs.declared.body.Event.{Event as Given};
ghost use Rattle.tp_model.specs.NodeRun.{Is, Refuses, asked};
ghost use Rattle.tp_model.specs.Outcomes.{is_unchanged};
ghost use Rattle.tp_node.specs.NodeEvent.{event_of};
ghost use Rattle.tp_node.specs.State.{tree_in};
ghost use Rattle.tp_site.specs.Events.{opening_at};
ghost use Rattle.tp_site.specs.Site.{known_at};
ghost use Rattle.tp_world_sites.specs.Slots.{shown_behind};
ghost use Rattle.tp_closing.specs.Seen.{words_heeded, Sees, IsEntered};
ghost use Rattle.tp_closing.specs.Told.{TellTrees};
ghost use Rattle.tp_deployments.specs.Deployments.{Deed, Starts, Takes, Place as PlaceValue, AreArranged};
ghost use Rattle.tp_weaving.specs.Frames.{Record, first_deed, with_deed};
ghost use Rattle.tp_weaving.specs.Steps.{Brings};
ghost use Rattle.tp_unite.specs.Placing.{IsMisplaced};
ghost use Rattle.tp_unite.specs.Playing.{IsPlaying, IsFreshLog, StartsOn};
ghost use Rattle.tp_unite.specs.declared.playing.PlayFault.{PlayFault as TheFault};

use crate::letters::{letters_in, record_in};
use crate::placing::is_placed;
use std::alloc::Global;
use tp_closing::{Shown, Trees, words_behind};
use tp_journal::{Journal, Keeper, format};
use tp_names::same::is_name;
use tp_names::{Addr, NoMemory, Octets, SiteName};
use tp_outside::MemDisk;
use tp_records::{Event, PeerRecord, Request};
use tp_site::{NodeEvent, Outs, Site, SiteFault, StartFault};
use tp_weaving::{Lane, Letter, Places, Step};

/// Why a site does not go on.
#[derive(Clone, Copy, Debug, PartialEq, Eq)]
pub(crate) enum PlayFault {
    /// The event is of a node that has no place, or declares it under another superior, or names a node that has none.
    NotPlaced,
    /// Its log has no room, or no boot number is left.
    Full,
    /// No memory could be had.
    NoMemory,
}

impl From<NoMemory> for PlayFault {
    ghost from_gives = { λ _ e. e ≡ TheFault.NoMemory };

    fn from(_error: NoMemory) -> PlayFault {
        PlayFault::NoMemory
    }
}

/// A site on a log in memory, and its steps so far.
#[derive(Drop)]
pub(crate) struct Playing {
    pub(crate) lane: Lane,
    site: Site<Journal<MemDisk>>,
}

// A fresh log of version 2. A disk in memory fails for lack of memory alone, and so the log is what it is asked for here.
fn fresh_log(alloc: Global) -> Result<Journal<MemDisk>, NoMemory>
    ensures { IfOk result IsFreshLog }
{
    let mut disk = MemDisk::from(alloc, Octets::new(alloc));
    if format(&mut disk).is_err() {
        return Err(NoMemory);
    }
    match Journal::start(alloc, disk) {
        Ok(journal) => {
            if journal.wide() && journal.list().is_empty() {
                Ok(journal)
            } else {
                Err(NoMemory)
            }
        }
        Err((_disk, _fault)) => Err(NoMemory),
    }
}

// A process starts on that log.
fn start(
    alloc: Global,
    journal: Journal<MemDisk>,
    name: SiteName,
) -> Result<Site<Journal<MemDisk>>, PlayFault>
    ensures starts { IfOk result (StartsOn journal name) }
    ensures fault { result ≢ Err TheFault.NotPlaced }
{
    match Site::start(alloc, journal, name) {
        Ok(site) => Ok(site),
        Err((_journal, StartFault::BootsSpent | StartFault::Full { .. })) => Err(PlayFault::Full),
        Err((_journal, _fault)) => Err(PlayFault::NoMemory),
    }
}

// Its user says that its transaction changed nothing.
fn is_unchanged(event: &NodeEvent<'_>) -> bool
    ensures { result ≡ is_unchanged (event_of event.now) }
{
    matches!(
        event,
        NodeEvent::Do {
            request: Request::Unchanged
        }
    )
}

impl Playing {
    /// The first process of a site of that name has started.
    pub(crate) fn new(alloc: Global, name: SiteName, at: u64) -> Result<Playing, PlayFault>
        ensures plays { IfOk result (λ p. (qs : List PlaceValue) → IsPlaying qs (first_deed at name) p) }
        ensures fault { result ≢ Err TheFault.NotPlaced }
    {
        let site = start(alloc, fresh_log(alloc)?, name)?;
        let mut lane = Lane::new(alloc, name);
        lane.push(Step::plain(alloc, at))?;
        Ok(Playing { lane, site })
    }

    /// The next process has started, on the log that the one before it left.
    pub(crate) fn next(
        self,
        alloc: Global,
        trees: &mut Trees,
        at: u64,
    ) -> Result<Playing, PlayFault>
        ensures plays { (qs : List PlaceValue) (r : Record) → IsPlaying qs r self → IfOk result (IsPlaying qs (with_deed r at (Starts r.site))) }
        ensures fault { result ≢ Err TheFault.NotPlaced }
        ensures trees { (qs : List PlaceValue) (r : Record) (rs : List Record) → IsPlaying qs r self → TellTrees qs (r ∷ rs) trees.old
            → OnOk result (TellTrees qs (with_deed r at (Starts r.site) ∷ rs) trees.new) }
    {
        let Playing { mut lane, site } = self;
        let site = start(alloc, site.keeper(), lane.name)?;
        lane.push(Step::plain(alloc, at))?;
        trees.stop(&site)?;
        Ok(Playing { lane, site })
    }

    // The site refuses the event before any node is asked.
    fn decline(&mut self, alloc: Global, at: u64) -> Result<(), NoMemory>
        ensures { (qs : List PlaceValue) (r : Record) (g : Given) (k : ℕ) → IsPlaying qs r self.old
            → asked (opening_at r.site) g ≡ Refuses k → OnOk result (IsPlaying qs (with_deed r at (Takes r.site g)) self.new) }
    {
        self.lane.push(Step::plain(alloc, at))?;
        Ok(())
    }

    // The entry of an event that has happened, before which the log had so many records, is told of the trees.
    fn tell(
        &self,
        trees: &mut Trees,
        here: &Addr,
        event: &NodeEvent<'_>,
        count: usize,
    ) -> Result<(), NoMemory>
        ensures { OnOk result ((ds es : List Deed) (qs : List PlaceValue)
            → IsEntered ds es here.now (record {
              after = tree_in (known_at self.now.site here.now.node);
              leaves = is_unchanged (event_of event.now);
              rec = words_heeded (shown_behind self.now.site.keeper.list count);
            })
            → Sees ds qs trees.old → Sees es qs trees.new) }
    {
        let shown = Shown {
            after: self.site.tree(here.node),
            leaves: is_unchanged(event),
            rec: words_behind(self.site.log().list(), count),
        };
        trees.enter(here, &shown)?;
        Ok(())
    }

    // An event of the node of that number, with the letter that it brings.
    fn give(
        &mut self,
        alloc: Global,
        places: &Places,
        trees: &mut Trees,
        at: u64,
        node: u16,
        event: &NodeEvent<'_>,
        needs: Option<Letter>,
    ) -> Result<(), PlayFault>
        ensures plays { (r : Record) (g : Given) → IsPlaying places.now r self.old
            → asked (opening_at r.site) g ≡ Is node (event_of event.now) → Brings (record { site = r.site; node = node }) (event_of event.now) needs
            → OnOk result (IsPlaying places.now (with_deed r at (Takes r.site g)) self.new) }
        ensures misplaced { (r : Record) (g : Given) → IsPlaying places.now r self.old
            → asked (opening_at r.site) g ≡ Is node (event_of event.now) → AreArranged places.now → result ≡ Err TheFault.NotPlaced
            → IsMisplaced places.now r g }
        ensures trees { (r : Record) (rs : List Record) (g : Given) → IsPlaying places.now r self.old
            → asked (opening_at r.site) g ≡ Is node (event_of event.now) → Brings (record { site = r.site; node = node }) (event_of event.now) needs
            → TellTrees places.now (r ∷ rs) trees.old → OnOk result (TellTrees places.now (with_deed r at (Takes r.site g) ∷ rs) trees.new) }
    {
        let mut outs = Outs::new(alloc);
        let count = self.site.log().list().len();
        match self.site.play_into(alloc, node, event, &mut outs) {
            Ok(_refusal) => {}
            Err(SiteFault::Refused(_)) => {
                self.lane.push(Step::plain(alloc, at))?;
                return Ok(());
            }
            Err(SiteFault::Full { .. }) => return Err(PlayFault::Full),
            Err(_) => return Err(PlayFault::NoMemory),
        }
        let site = self.lane.name;
        let here = Addr { site, node };
        if !is_placed(places, &here, event) {
            return Err(PlayFault::NotPlaced);
        }
        self.tell(trees, &here, event, count)?;
        let says = letters_in(alloc, &here, &outs)?;
        self.lane.push(Step { at, needs, says })?;
        Ok(())
    }

    // Octets that come from another node.
    fn arrive(
        &mut self,
        alloc: Global,
        places: &Places,
        trees: &mut Trees,
        at: u64,
        letter: Letter,
    ) -> Result<(), PlayFault>
        ensures plays { (r : Record) → IsPlaying places.now r self.old
            → OnOk result (IsPlaying places.now (with_deed r at (Takes r.site (Given.Arrive letter.from letter.to letter.octets))) self.new) }
        ensures misplaced { (r : Record) → IsPlaying places.now r self.old → AreArranged places.now → result ≡ Err TheFault.NotPlaced
            → IsMisplaced places.now r (Given.Arrive letter.from letter.to letter.octets) }
        ensures trees { (r : Record) (rs : List Record) → IsPlaying places.now r self.old → TellTrees places.now (r ∷ rs) trees.old
            → OnOk result (TellTrees places.now (with_deed r at (Takes r.site (Given.Arrive letter.from letter.to letter.octets)) ∷ rs) trees.new) }
    {
        let Some(rec) = record_in(alloc, letter.octets.as_slice())? else {
            return Ok(self.decline(alloc, at)?);
        };
        if !is_name(&letter.to.site, &self.lane.name) {
            return Ok(self.decline(alloc, at)?);
        }
        let node = letter.to.node;
        let from = letter.from;
        let _request: Option<&Request> = None;
        let event = NodeEvent::Arrive { from, rec: &rec };
        self.give(alloc, places, trees, at, node, &event, Some(letter))
    }

    /// The process is given an event.
    pub(crate) fn take(
        &mut self,
        alloc: Global,
        places: &Places,
        trees: &mut Trees,
        at: u64,
        event: Event,
    ) -> Result<(), PlayFault>
        ensures plays { (r : Record) → IsPlaying places.now r self.old → OnOk result (IsPlaying places.now (with_deed r at (Takes r.site event)) self.new) }
        ensures misplaced { (r : Record) → IsPlaying places.now r self.old → AreArranged places.now → result ≡ Err TheFault.NotPlaced
            → IsMisplaced places.now r event }
        ensures trees { (r : Record) (rs : List Record) → IsPlaying places.now r self.old → TellTrees places.now (r ∷ rs) trees.old
            → OnOk result (TellTrees places.now (with_deed r at (Takes r.site event) ∷ rs) trees.new) }
    {
        let _rec: Option<&PeerRecord> = None;
        let _request: Option<&Request> = None;
        match event {
            Event::Declare { node, superior } => {
                let event = NodeEvent::Declare { superior };
                self.give(alloc, places, trees, at, node, &event, None)
            }
            Event::Do { node, request } => {
                let event = NodeEvent::Do { request: &request };
                self.give(alloc, places, trees, at, node, &event, None)
            }
            Event::Arrive { from, to, octets } => {
                let letter = Letter { from, to, octets };
                self.arrive(alloc, places, trees, at, letter)
            }
            Event::Lose { node, peer } => {
                let event = NodeEvent::Lose { peer };
                self.give(alloc, places, trees, at, node, &event, None)
            }
            Event::Heur { node, outcome } => {
                let event = NodeEvent::Heur { outcome };
                self.give(alloc, places, trees, at, node, &event, None)
            }
            Event::GiveUp { node, peer } => {
                let event = NodeEvent::GiveUp { peer };
                self.give(alloc, places, trees, at, node, &event, None)
            }
            Event::Retry { node } => self.give(
                alloc,
                places,
                trees,
                at,
                node,
                &NodeEvent::Retry,
                None,
            ),
            Event::Purge { node } => self.give(
                alloc,
                places,
                trees,
                at,
                node,
                &NodeEvent::Purge,
                None,
            ),
        }
    }
}
