//! A recording, as its frames come.
ghost use Rattle.std.specs.Prelude.{◌≡◌, ◌∷◌, [], suc, List, Some, option_map, IfOk, OnOk};
ghost use Rattle.tp_model.specs.Transcript.{Done as IsTaken};
ghost use Rattle.tp_deployments.specs.Deployments.{Starts, Place as PlaceValue};
ghost use Rattle.tp_weaving.specs.Frames.{Record, Recording as Told, nothing_told, told_place, with_start, with_event, with_records, told_body, first_deed, with_deed, has_record};
ghost use Rattle.tp_weaving.specs.Weaving.{AreLanes};
ghost use Rattle.tp_closing.specs.Told.{TellTrees};
ghost use Rattle.tp_unite.specs.Placing.{MisplacesOf};
ghost use Rattle.tp_unite.specs.Endings.{place_ending, opening_ending, start_ending, event_ending, body_ending};
ghost use Rattle.tp_unite.specs.Recording.{superior_at, IsHeard, Answers, AreWhole, IsLeft, Misplaces, fault_at};
ghost use Rattle.tp_unite.specs.declared.recording.HearFault.{HearFault as TheFault};
ghost use Rattle.tp_streams.specs.declared.stop.Stop.{Stop as TheStop};

use crate::playing::{PlayFault, Playing};
use std::alloc::Global;
use tp_closing::Trees;
use tp_model::{What, Why};
use tp_names::same::is_name;
use tp_names::{Addr, NoMemory, SiteName};
use tp_records::Event;
use tp_streams::Stop;
use tp_weaving::{Frame, Lane, Places, read_frame};

/// The most sites and nodes.
const MOST_SITES: usize = 16;

const MOST_NODES: usize = 256;

/// Why a frame is not taken.
#[derive(Clone, Copy)]
pub(crate) enum HearFault {
    /// The event in it is of a node that is not placed.
    NotPlaced,
    /// The program stops.
    Stop(Stop),
}

impl From<NoMemory> for HearFault {
    ghost from_gives = { λ _ e. e ≡ TheFault.Stop TheStop.NoMemory };

    fn from(_error: NoMemory) -> HearFault {
        HearFault::Stop(Stop::NoMemory)
    }
}

// Puts a lane before the others.
fn put(lanes: &mut Vec<Lane>, lane: Lane) -> Result<(), NoMemory>
    ensures { OnOk result (lanes.new.items ≡ lane ∷ lanes.old.items) }
{
    lanes.insert(0, lane)?;
    Ok(())
}

// What a fault of a site means in the frame of that number.
fn fault_at(fault: PlayFault, at: u64) -> HearFault
    ensures { result ≡ fault_at fault at }
{
    match fault {
        PlayFault::NotPlaced => HearFault::NotPlaced,
        PlayFault::Full => HearFault::Stop(Stop::Limit {
            what: What::Log,
            at,
        }),
        PlayFault::NoMemory => HearFault::Stop(Stop::NoMemory),
    }
}

/// Where nodes stand, the steps of the sites that were played whole, the newest first, and the site that is played.
#[derive(Drop)]
pub(crate) struct Recording {
    places: Places,
    lanes: Vec<Lane>,
    playing: Option<Playing>,
    trees: Trees,
}

// One of these is of that site.
fn is_among(lanes: &[Lane], name: &SiteName) -> bool
    ensures { (qs : List PlaceValue) (rs : List Record) → AreLanes qs rs lanes.now → result ≡ has_record rs name.now }
{
    match lanes {
        [] => false,
        [first, rest @ ..] => is_name(&first.name, name) || is_among(rest, name),
    }
}

// The superior of the node at that address.
fn superior_at(places: &Places, addr: &Addr) -> Option<Addr>
    ensures { result ≡ superior_at places.now addr.now }
{
    match places.find(addr) {
        Some(place) => place.superior,
        None => None,
    }
}

impl Recording {
    /// Nothing came.
    pub(crate) fn new(alloc: Global) -> Recording
        ensures { IsHeard nothing_told result }
    {
        Recording {
            places: Places::new(alloc),
            lanes: Vec::new(alloc),
            playing: None,
            trees: Trees::new(alloc),
        }
    }

    /// Takes the body of the frame with that number.
    pub(crate) fn take(&mut self, alloc: Global, body: &[u8], at: u64) -> Result<(), HearFault>
        ensures { (t : Told) → IsHeard t self.old → at ≡ suc t.count
            → Answers at (body_ending t body.now) (told_body t body.now) (Misplaces t body.now) result self.new }
    {
        let Some(frame) = read_frame(alloc, body)? else {
            return Err(HearFault::Stop(Stop::BadInput { at, why: Why::Body }));
        };
        match frame {
            Frame::Place { node, under, site } => self.place(alloc, at, node, under, site),
            Frame::Starts(site) => self.start(alloc, at, site),
            Frame::Takes(event) => self.give(alloc, at, event),
        }
    }

    // The node that has its place there is seen from now on.
    fn see(&mut self, alloc: Global, addr: Addr) -> Result<(), NoMemory>
        ensures trees { OnOk result ((qs : List PlaceValue) (q : PlaceValue) → self.old.places ≡ q ∷ qs → q.addr ≡ addr
            → TellTrees qs [] self.old.trees → TellTrees (q ∷ qs) [] self.new.trees) }
        ensures places { self.new.places ≡ self.old.places }
        ensures lanes { self.new.lanes ≡ self.old.lanes }
        ensures playing { self.new.playing ≡ self.old.playing }
    {
        let superior = superior_at(&self.places, &addr);
        self.trees.place(alloc, addr, superior)?;
        Ok(())
    }

    // A node has its place, before the first process starts.
    fn place(
        &mut self,
        alloc: Global,
        at: u64,
        node: u16,
        under: Option<u16>,
        site: SiteName,
    ) -> Result<(), HearFault>
        ensures { (t : Told) → IsHeard t self.old → Answers at (place_ending at t node under site) (told_place t node under site) ⊥ result self.new }
    {
        if self.playing.is_some() {
            return Err(HearFault::Stop(Stop::BadInput { at, why: Why::Body }));
        }
        if self.places.len() >= MOST_NODES {
            return Err(HearFault::Stop(Stop::Limit {
                what: What::Nodes,
                at,
            }));
        }
        if !self.places.add(node, under, site)? {
            return Err(HearFault::Stop(Stop::BadInput { at, why: Why::Name }));
        }
        self.see(alloc, Addr { site, node })?;
        Ok(())
    }

    // The first process of a site that did not come before.
    fn open(&mut self, alloc: Global, at: u64, name: SiteName) -> Result<(), HearFault>
        ensures { (t : Told) → AreWhole t self.old
            → Answers at (opening_ending at t name) (Some (with_records t (first_deed at name ∷ t.records))) ⊥ result self.new }
    {
        if is_among(self.lanes.as_slice(), &name) {
            return Err(HearFault::Stop(Stop::BadInput { at, why: Why::Name }));
        }
        if self.lanes.len() >= MOST_SITES {
            return Err(HearFault::Stop(Stop::Limit {
                what: What::Sites,
                at,
            }));
        }
        match Playing::new(alloc, name, at) {
            Ok(playing) => {
                self.playing = Some(playing);
                Ok(())
            }
            Err(fault) => Err(fault_at(fault, at)),
        }
    }

    // The next process of the site that is played.
    fn go_on(&mut self, alloc: Global, at: u64, playing: Playing) -> Result<(), HearFault>
        ensures { (t : Told) (r : Record) (rs : List Record) → IsLeft t r rs playing self.old
            → Answers at IsTaken (Some (with_records t (with_deed r at (Starts r.site) ∷ rs))) ⊥ result self.new }
    {
        match playing.next(alloc, &mut self.trees, at) {
            Ok(next) => {
                self.playing = Some(next);
                Ok(())
            }
            Err(fault) => Err(fault_at(fault, at)),
        }
    }

    // A process of that site starts.
    fn start(&mut self, alloc: Global, at: u64, name: SiteName) -> Result<(), HearFault>
        ensures { (t : Told) → IsHeard t self.old
            → Answers at (start_ending at t name) (Some (with_records t (with_start t.records at name))) ⊥ result self.new }
    {
        let Some(playing) = self.playing.take() else {
            return self.open(alloc, at, name);
        };
        if is_name(&playing.lane.name, &name) {
            return self.go_on(alloc, at, playing);
        }
        put(&mut self.lanes, playing.lane)?;
        self.open(alloc, at, name)
    }

    // The process that started last is given that event.
    fn give(&mut self, alloc: Global, at: u64, event: Event) -> Result<(), HearFault>
        ensures { (t : Told) → IsHeard t self.old
            → Answers at (event_ending at t) (option_map (with_records t) (with_event t.records at event))
            (MisplacesOf t.places t.records event) result self.new }
    {
        let Some(playing) = &mut self.playing else {
            return Err(HearFault::Stop(Stop::BadInput { at, why: Why::Body }));
        };
        match playing.take(alloc, &self.places, &mut self.trees, at, event) {
            Ok(()) => Ok(()),
            Err(fault) => Err(fault_at(fault, at)),
        }
    }

    /// The steps of all sites, and what their nodes did in trees.
    pub(crate) fn close(self) -> Result<(Vec<Lane>, Trees), NoMemory>
        ensures { IfOk result (λ x. (t : Told) → IsHeard t self → AreLanes t.places t.records x.0.items × TellTrees t.places t.records x.1) }
    {
        let Recording {
            mut lanes,
            playing,
            trees,
            ..
        } = self;
        if let Some(playing) = playing {
            put(&mut lanes, playing.lane)?;
        }
        Ok((lanes, trees))
    }
}
