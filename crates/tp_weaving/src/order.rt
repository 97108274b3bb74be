//! The one order of the steps of several sites.
ghost use Rattle.std.specs.Prelude.{◌≡◌, ◌<◌, false, List, length, IfOk, OnOk};
ghost use Rattle.tp_deployments.specs.Deployments.{Place as PlaceValue};
ghost use Rattle.tp_weaving.specs.Frames.{Record};
ghost use Rattle.tp_weaving.specs.Parts.{AreApart};
ghost use Rattle.tp_weaving.specs.Said.{is_said};
ghost use Rattle.tp_weaving.specs.Weaving.{AreLanes, Advances, StaysAt, AreStuck, is_held, Says, Way, waiting, number_next, earlier, woven_of, Ends};

use crate::said::Said;
use crate::{Lane, Letter};
use std::alloc::Global;
use tp_names::NoMemory;

/// Whether the steps make one order.
#[derive(Clone, Copy, Debug, PartialEq, Eq)]
pub enum Woven {
    /// All of them do.
    Whole,
    /// No site goes on: the step of that frame takes what nobody said before it.
    Waits { at: u64 },
}

// What is needed was said.
fn is_held(said: &Said, needs: &Option<Letter>) -> bool
    ensures { result ≡ is_held (is_said said.now) needs.now }
{
    match needs {
        None => true,
        Some(letter) => said.contains(letter),
    }
}

// These letters are said.
fn say(alloc: Global, said: &mut Said, says: &[Letter]) -> Result<(), NoMemory>
    ensures { OnOk result (Says said.old said.new says.now) }
{
    match says {
        [] => Ok(()),
        [first, rest @ ..] => {
            said.insert(first.copy(alloc)?)?;
            say(alloc, said, rest)?;
            Ok(())
        }
    }
}

// What the next step of that lane says is said, where there is one that may come. It tells whether there is.
fn say_next(alloc: Global, said: &mut Said, lane: &Lane) -> Result<bool, NoMemory>
    ensures { IfOk result (Advances said.old said.new lane.now) }
{
    let Some(step) = lane.steps.get(lane.taken) else {
        return Ok(false);
    };
    if !is_held(said, &step.needs) {
        return Ok(false);
    }
    say(alloc, said, step.says.as_slice())?;
    Ok(true)
}

// The next step of that lane is taken, where there is one that may come. It tells whether it was.
fn take(alloc: Global, said: &mut Said, lanes: &mut [Lane], k: usize) -> Result<bool, NoMemory>
    requires { k < length lanes.old }
    ensures way { IfOk result (λ moved. (qs : List PlaceValue) (rs : List Record) → Way qs rs (is_said said.old) lanes.old
        → Way qs rs (is_said said.new) lanes.new) }
    ensures stuck { IfOk result (λ moved. moved ≡ false → StaysAt k said.old lanes.old said.new lanes.new) }
    ensures length { length lanes.new ≡ length lanes.old }
{
    if !say_next(alloc, said, &lanes[k])? {
        return Ok(false);
    }
    lanes[k].taken += 1;
    Ok(true)
}

// Each lane goes on by a step, where it can. It tells whether one went on.
fn go_round(alloc: Global, said: &mut Said, lanes: &mut [Lane]) -> Result<bool, NoMemory>
    ensures way { IfOk result (λ moved. (qs : List PlaceValue) (rs : List Record) → Way qs rs (is_said said.old) lanes.old
        → Way qs rs (is_said said.new) lanes.new) }
    ensures stuck { IfOk result (λ moved. moved ≡ false → AreStuck (is_said said.new) lanes.new) }
    ensures length { length lanes.new ≡ length lanes.old }
{
    let mut moved = false;
    for k in 0..lanes.len() {
        if take(alloc, said, lanes, k)? {
            moved = true;
        }
    }
    Ok(moved)
}

// The frame of the next step of that lane, where there is one.
fn number_next(lane: &Lane) -> Option<u64>
    ensures { result ≡ number_next lane.now }
{
    match lane.steps.get(lane.taken) {
        None => None,
        Some(step) => Some(step.at),
    }
}

fn earlier(a: Option<u64>, b: Option<u64>) -> Option<u64>
    ensures { result ≡ earlier a b }
{
    match a {
        None => b,
        Some(first) => match b {
            None => a,
            Some(second) => { if first <= second { a } else { b } }
        },
    }
}

// The first frame, by its number, of those that the lanes wait at.
fn waiting(lanes: &[Lane]) -> Option<u64>
    ensures { result ≡ waiting lanes.now }
{
    match lanes {
        [] => None,
        [first, rest @ ..] => earlier(number_next(first), waiting(rest)),
    }
}

fn woven_of(lanes: &[Lane]) -> Woven
    ensures { result ≡ woven_of (waiting lanes.now) }
{
    match waiting(lanes) {
        None => Woven::Whole,
        Some(at) => Woven::Waits { at },
    }
}

// Promise 22.21 [tp_weaving/specs/Weaving.antt]: Steps that sites took, of each site in one list,
//   each placed (22.25), with the letter that it needs and those that it says, whose octets read
//   back, are put into such an order, where `weave` says so; where it names a frame instead, some
//   of the steps make an order that is a deployment, no other reaches a step more of any site, and
//   that frame tells the first step of its site that none reaches
/// Puts the steps of the sites into one order, in which what a step takes was said before; or names a frame where none goes on, the first
/// one of its site that no order reaches. Without memory the lanes are thrown away.
pub fn weave(alloc: Global, lanes: &mut [Lane]) -> Result<Woven, NoMemory>
    ensures { IfOk result (λ woven. (qs : List PlaceValue) (rs : List Record) → AreApart rs → AreLanes qs rs lanes.old → Ends qs rs woven) }
{
    let mut said = Said::new(alloc);
    'rounds: for _ in 0..u64::MAX {
        if !go_round(alloc, &mut said, lanes)? {
            return Ok(woven_of(lanes));
        }
    }
    Err(NoMemory)
}
