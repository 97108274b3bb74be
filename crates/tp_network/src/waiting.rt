//! The numbers of the frames that wait to be handed over, by the nodes between which they were sent. Callers tell up to which
//! number all have passed: of a lane's numbers those above it count.
ghost use Rattle.std.specs.Prelude.{ℕ, ◌≡◌, ◌<◌, ◌++◌, ◌∷◌, [], true, cond, OnOk, OnErr, drop, length};
ghost use Rattle.tp_network.specs.Waiting.{above, queue_at, is_pair, first_of, place_on};

use crate::queue::Queue;
use std::alloc::Global;
use std::collections::HashMap;
use std::marker::Model;
use tp_names::NoMemory;

/// The numbers that wait from the one node to the other.
#[derive(Drop)]
pub(crate) struct Lane {
    pub(crate) from: u16,
    pub(crate) to: u16,
    pub(crate) queue: Queue,
}

/// The lanes between nodes, in the order of their first frames; `places` are the places of their nodes. Mostly a frame goes
/// where the last one went, or by the next lane: the place that was sought last, and the one after it, are told without the
/// table.
#[derive(Drop)]
pub(crate) struct Waiting {
    lanes: Vec<Lane>,
    places: HashMap<(u16, u16), usize>,
    last: usize,
}

impl Model for Waiting {
    ghost use Rattle.std.specs.Prelude.{List};
    ghost use Rattle.tp_network.specs.declared.waiting.Lane.{Lane};
    ghost use Rattle.tp_network.specs.Waiting.{AreLanes};

    ghost Value = { List Lane };

    ghost view = { λ w. w.lanes.items };

    ghost invariant = { AreLanes };
}

impl Waiting {
    /// None wait.
    pub(crate) fn new(alloc: Global) -> Waiting
        ensures { (a b : ℕ) → queue_at result a b ≡ [] }
    {
        Waiting {
            lanes: Vec::new(alloc),
            places: HashMap::new(alloc),
            last: 0,
        }
    }

    // The lane at that place is the one between these two nodes.
    fn is_at(&self, place: usize, from: u16, to: u16) -> bool
        ensures { result ≡ true → place_on self.now from to ≡ place }
    {
        if place >= self.lanes.len() {
            return false;
        }
        let lane = &self.lanes[place];
        lane.from == from && lane.to == to
    }

    // The place after the one that was sought last; the first one after all.
    fn next(&self) -> usize {
        if self.last >= self.lanes.len() {
            return 0;
        }
        let next = self.last + 1;
        if next == self.lanes.len() { 0 } else { next }
    }

    // The place of the lane between these two nodes, by the table; after all where there is none.
    fn place_noted(&self, from: u16, to: u16) -> usize
        ensures { result ≡ place_on self.now from to }
    {
        match self.places.get(&(from, to)) {
            Some(place) => *place,
            None => self.lanes.len(),
        }
    }

    // The same.
    #[inline(always)]
    fn place(&self, from: u16, to: u16) -> usize
        ensures { result ≡ place_on self.now from to }
    {
        if self.is_at(self.last, from, to) {
            return self.last;
        }
        let next = self.next();
        if self.is_at(next, from, to) {
            return next;
        }
        self.place_noted(from, to)
    }

    // That number alone waits between these two nodes, which have no lane.
    fn start(&mut self, alloc: Global, from: u16, to: u16, number: u16) -> Result<(), NoMemory>
        requires { place_on self.old from to ≡ length self.old }
        ensures ok { OnOk result ((a b : ℕ) → queue_at self.new a b ≡ cond (is_pair (from, to) (a, b)) (number ∷ []) (queue_at self.old a b)) }
        ensures err { OnErr result (self.new ≡ self.old) }
    {
        let queue = Queue::of(alloc, number);
        let place = self.lanes.len();
        self.lanes.reserve(1)?;
        self.places.insert((from, to), place)?;
        self.lanes.push_reserved(Lane { from, to, queue });
        self.last = place;
        Ok(())
    }

    /// One more number, above those that passed, waits between these two nodes, after the others.
    pub(crate) fn add(
        &mut self,
        alloc: Global,
        passed: usize,
        from: u16,
        to: u16,
        number: u16,
    ) -> Result<(), NoMemory>
        requires { passed < number }
        ensures ok { OnOk result ((a b : ℕ)
            → above passed (queue_at self.new a b)
            ≡ cond (is_pair (from, to) (a, b)) (above passed (queue_at self.old a b) ++ number ∷ []) (above passed (queue_at self.old a b))) }
        ensures err { OnErr result ((a b : ℕ) → above passed (queue_at self.new a b) ≡ above passed (queue_at self.old a b)) }
    {
        let place = self.place(from, to);
        if place >= self.lanes.len() {
            return self.start(alloc, from, to, number);
        }
        self.last = place;
        self.lanes[place].queue.push(passed, number)
    }

    /// The oldest number between these two nodes that did not pass waits no longer.
    pub(crate) fn take(&mut self, passed: usize, from: u16, to: u16) -> Option<u16>
        ensures number { result ≡ first_of (above passed (queue_at self.old from to)) }
        ensures rest { (a b : ℕ) → above passed (queue_at self.new a b)
            ≡ cond (is_pair (from, to) (a, b)) (drop 1 (above passed (queue_at self.old a b))) (above passed (queue_at self.old a b)) }
    {
        let place = self.place(from, to);
        if place >= self.lanes.len() {
            return None;
        }
        self.last = place;
        self.lanes[place].queue.pop(passed)
    }
}
