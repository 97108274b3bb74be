//! What no clause says: control over a handshake, with the numbers of a worked example; and the sets of units
//! with which dialogues are made.
use crate::calls::{arrive, request};
use crate::values::{IDLE, units};
use tp_dialogue::Dialogue;
use tp_model::{Act, Deferral, Side};
use tp_names::Outcome;
use tp_records::Holder;
use tp_units::{Units, choose};

fn asks(end: &mut Dialogue, code: u8, octets: u16) -> u8 {
    request(end, IDLE, Act { code, octets })
}

fn hears(end: &mut Dialogue, code: u8) -> u8 {
    arrive(end, IDLE, Act { code, octets: 0 })
}

// What a step at one of the two ends is answered.
fn answer(above: &mut Dialogue, below: &mut Dialogue, step: &Step) -> u8 {
    match step {
        Step::DataAbove => asks(above, 5, 1),
        Step::DataBelow => asks(below, 5, 1),
        Step::GrantAbove => asks(above, 12, 0),
        Step::HandshakeComes => hears(below, 8),
        Step::RespondBelow => asks(below, 11, 0),
        Step::ResponseComes => hears(above, 9),
    }
}

// A request of either end, or a record that arrives there.
enum Step {
    DataAbove,
    DataBelow,
    // A handshake that grants control.
    GrantAbove,
    HandshakeComes,
    RespondBelow,
    ResponseComes,
}

// Each with the number of its refusal, 0 for none; or `a` for a record that acts, and `x` for one out of phase.
const HANDSHAKE: &[(Step, u8)] = &[
    (Step::DataBelow, b'3'),
    (Step::GrantAbove, b'0'),
    (Step::HandshakeComes, b'a'),
    (Step::DataBelow, b'3'),
    (Step::DataAbove, b'3'),
    (Step::RespondBelow, b'0'),
    (Step::DataBelow, b'0'),
    (Step::ResponseComes, b'a'),
    (Step::ResponseComes, b'x'),
];

fn are_answered(above: &mut Dialogue, below: &mut Dialogue, steps: &[(Step, u8)]) -> bool {
    for (step, want) in steps {
        if answer(above, below, step) != *want {
            return false;
        }
    }
    true
}

#[test]
fn control_goes_over_with_the_response(rt: HostRuntime) {
    let Some(units) = units(6) else {
        panic!(rt; "a permitted set")
    };
    let mut above = Dialogue::new(units, Side::Superior);
    let mut below = Dialogue::new(units, Side::Subordinate);
    assert!(rt; are_answered(&mut above, &mut below, HANDSHAKE));
    assert!(rt; below.has_control());
    assert!(rt; !above.has_control());
}

#[test]
fn control_is_held_as_the_transaction_began_and_ended(rt: HostRuntime) {
    let Some(units) = units(42) else {
        panic!(rt; "a permitted set")
    };
    let mut above = Dialogue::new(units, Side::Superior);
    assert!(rt; above.units() == units);
    above.begin(Holder::Subordinate);
    assert!(rt; !above.has_control());
    above.complete(Outcome::Commit);
    assert!(rt; above.has_control());
    assert!(rt; above.deferral() == Deferral::None);
}

#[test]
fn a_dialogue_rests_and_wakes(rt: HostRuntime) {
    let Some(units) = units(42) else {
        panic!(rt; "a permitted set")
    };
    let mut above = Dialogue::new(units, Side::Superior);
    above.clear();
    assert!(rt; !above.has_control());
    above.rest();
    assert!(rt; asks(&mut above, 5, 1) == b'2');
    above.wake();
    assert!(rt; asks(&mut above, 5, 1) == b'3');
}

// ---- every set of units

// Each set that may be offered, and those that an answer may choose of it.
const CHOICES: &[(u8, &[u8])] = &[
    (1, &[1]),
    (2, &[2]),
    (5, &[1, 5]),
    (6, &[2, 6]),
    (25, &[1, 25]),
    (26, &[2, 26]),
    (29, &[1, 5, 25, 29]),
    (30, &[2, 6, 26, 30]),
    (41, &[1, 41]),
    (42, &[2, 42]),
    (45, &[1, 5, 41, 45]),
    (46, &[2, 6, 42, 46]),
];

fn is_choice(offer: u8, answer: u8) -> bool {
    for (set, answers) in CHOICES {
        if *set == offer {
            return answers.contains(&answer);
        }
    }
    false
}

// Whether the offer and the answer make a dialogue, whose superior side alone holds control, where the
// set has no unit 1.
fn make_a_dialogue(offer: u8, answer: u8) -> bool {
    let Ok(offer) = Units::check(offer) else {
        return false;
    };
    let Ok(units) = choose(offer, answer) else {
        return false;
    };
    let above = Dialogue::new(units, Side::Superior);
    let below = Dialogue::new(units, Side::Subordinate);
    let is_held = answer % 2 == 0;
    above.units().bits() == answer
        && below.units().bits() == answer
        && above.has_control() == is_held
        && !below.has_control()
}

#[test]
fn every_set_of_units(rt: HostRuntime) {
    for offer in 0..=255u8 {
        for answer in 0..=255u8 {
            let is_made = make_a_dialogue(offer, answer);
            assert!(rt; is_made == is_choice(offer, answer), "{answer} of {offer}");
        }
    }
}
