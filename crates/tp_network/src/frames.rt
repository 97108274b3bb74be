//! The frames that were sent between nodes.
ghost use Rattle.std.specs.Prelude.{◌≡◌, ◌++◌, ◌∷◌, [], ◌+◌, ◌≤◌, ◌<◌, true, false, length, map, vec_len, vec_capacity, IfOk, IfErr, OnOk, OnErr};
ghost use Rattle.std.specs.Option.{option_map, option_copied};
ghost use Rattle.tp_model.specs.World.{find_frame, mark_handed, oldest_from};
ghost use Rattle.tp_network.specs.Frames.{frame_of, handed_over, is_between, leading, IsFull};

use crate::fault::SendFault;
use crate::frame_record::FrameRecord;
use crate::waiting::Waiting;
use std::alloc::Global;
use std::marker::Model;
use tp_names::{Addr, NoMemory};
use tp_records::PeerRecord;

/// The most frames that may be sent.
const MOST_FRAMES: usize = 65535;

/// A frame that was sent, and whether it was handed over.
#[derive(Drop)]
pub struct Frame {
    pub from: Addr,
    pub to: Addr,
    pub rec: FrameRecord,
    pub handed: bool,
}

/// All frames that were ever sent, in order; their numbers begin with 1. All before `first` were handed over, so their
/// numbers are not above it, and of the numbers in `waiting` those above it are of frames that were not.
#[derive(Drop)]
pub struct Frames {
    items: Vec<Frame>,
    first: usize,
    waiting: Waiting,
}

// Room for one frame more.
fn make_room(items: &mut Vec<Frame>) -> Result<(), NoMemory>
    ensures items { items.new.items ≡ items.old.items }
    ensures room { OnOk result (vec_len items.new < vec_capacity items.new) }
{
    if items.len() == items.capacity() {
        items.reserve(1)?;
    }
    Ok(())
}

// The place of the first frame that is not handed over, sought from a place on before which all are.
#[tactic(auto, using(crate::proofs::Oldest::leads_more, crate::proofs::Oldest::leads_to, crate::proofs::Oldest::leads_all))]
fn first_unhanded(frames: &[Frame], from: usize) -> usize
    requires { from ≤ leading frames.now }
    ensures { result ≡ leading frames.now }
{
    let mut i = from;
    while i < frames.len() && frames[i].handed {
        i += 1;
    }
    i
}

// The frame at that place counts as handed over, where there is one.
#[tactic(auto, using(crate::proofs::Oldest::mark_there, crate::proofs::Oldest::mark_leads, crate::proofs::Oldest::mark_past))]
fn mark_at(frames: &mut [Frame], place: usize)
    ensures marked { map frame_of frames.new ≡ mark_handed (map frame_of frames.old) (place + 1) }
    ensures leads { leading frames.old ≤ leading frames.new }
    ensures past { place ≤ leading frames.old → place < length frames.old → place + 1 ≤ leading frames.new }
{
    if place < frames.len() {
        frames[place].handed = true;
    }
}

impl Model for Frames {
    ghost use Rattle.std.specs.Prelude.{List};
    ghost use Rattle.tp_model.specs.World.{Frame as FrameValue};
    ghost use Rattle.tp_network.specs.Frames.{frames_of, AreNumbered};

    ghost Value = { List FrameValue };

    ghost view = { frames_of };

    ghost invariant = { AreNumbered };
}

impl Frames {
    /// No frames.
    pub fn new(alloc: Global) -> Frames
        ensures { result ≡ [] }
    {
        Frames {
            items: Vec::new(alloc),
            first: 0,
            waiting: Waiting::new(alloc),
        }
    }

    /// How many were sent.
    pub fn count(&self) -> usize
        ensures { result ≡ length self.now }
    {
        self.items.len()
    }

    /// The frame of that number.
    #[tactic(auto, using(crate::proofs::Oldest::found_number, crate::proofs::Oldest::unfound_number))]
    pub fn find(&self, number: u16) -> Option<&Frame>
        ensures { option_map frame_of (option_copied result) ≡ find_frame self.now number }
    {
        if number == 0 {
            return None;
        }
        let place = number as usize - 1;
        if place >= self.items.len() {
            return None;
        }
        Some(&self.items[place])
    }

    // Puts a frame that was not handed over after the others, under that number.
    fn push(&mut self, alloc: Global, number: u16, frame: Frame) -> Result<(), NoMemory>
        requires number { number ≡ length self.old + 1 }
        requires fresh { frame.handed ≡ false }
        ensures ok { OnOk result (self.new ≡ self.old ++ frame_of frame ∷ []) }
        ensures err { OnErr result (self.new ≡ self.old) }
    {
        make_room(&mut self.items)?;
        self.waiting
            .add(alloc, self.first, frame.from.node, frame.to.node, number)?;
        self.items.push_reserved(frame);
        Ok(())
    }

    /// Puts a frame after the others, and tells its number. After an error all is as it was.
    pub fn send(
        &mut self,
        alloc: Global,
        from: &Addr,
        to: &Addr,
        rec: &PeerRecord,
    ) -> Result<u16, SendFault>
        ensures ok { IfOk result (λ number. (number ≡ length self.old + 1)
            × (self.new ≡ self.old ++ record { from = from.now; to = to.now; rec = rec.now; handed = false } ∷ [])) }
        ensures err { OnErr result (self.new ≡ self.old) }
        // Promise 15.12: `Full` comes of frames exactly where all numbers are used
        ensures full { IfErr result (IsFull (length self.old)) }
    {
        let number = self.items.len() + 1;
        if number > MOST_FRAMES {
            return Err(SendFault::Full);
        }
        let number = number as u16;
        let frame = Frame {
            from: *from,
            to: *to,
            rec: FrameRecord::of(alloc, rec)?,
            handed: false,
        };
        self.push(alloc, number, frame)?;
        Ok(number)
    }

    /// The oldest frame from the one node to the other that is not handed over counts as handed over from now on: its number.
    pub fn hand_between(&mut self, from: u16, to: u16) -> Option<u16>
        // Promise 15.11 [clauses number frames]: The frame that is handed over is the one that the
        //   definitions name oldest, of all or from one node to another, and it alone is marked in
        //   their list of frames
        ensures number { result ≡ oldest_from 0 (is_between from to) self.old }
        ensures frames { self.new ≡ handed_over self.old result }
    {
        match self.waiting.take(self.first, from, to) {
            None => None,
            Some(number) => {
                mark_at(self.items.as_mut_slice(), number as usize - 1);
                self.first = first_unhanded(self.items.as_slice(), self.first);
                Some(number)
            }
        }
    }

    /// The oldest frame that is not handed over counts as handed over from now on: its number.
    #[tactic(auto, using(crate::proofs::Oldest::oldest_missing, crate::proofs::Oldest::oldest_first))]
    pub fn hand_oldest(&mut self) -> Option<u16>
        // Promise 15.11, part 2 [clauses number frames]
        ensures number { result ≡ oldest_from 0 (λ f. true) self.old }
        ensures frames { self.new ≡ handed_over self.old result }
    {
        let place = self.first;
        if place >= self.items.len() {
            return None;
        }
        mark_at(self.items.as_mut_slice(), place);
        self.first = first_unhanded(self.items.as_slice(), place + 1);
        Some(place as u16 + 1)
    }
}
