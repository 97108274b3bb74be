//! What the arcs of a table answer in every situation, against the numbers of an independent machine.
use crate::calls::{arrive, request};
use crate::table::{ABOVE, ABOVE_RECORDS, ABOVE_REQUESTS, BELOW, BELOW_RECORDS, BELOW_REQUESTS};
use crate::values::{IDLE, units};
use tp_dialogue::Dialogue;
use tp_model::{Act, Phase, Side, Situation};
use tp_names::Outcome;
use tp_records::Holder;
use tp_units::CHAINED;

const ACTIVE: Situation = Situation {
    branch: true,
    phase: Phase::Active,
    asked: false,
    prepared: false,
    done: false,
    left: false,
};

// Requests and records by their codes, with the length of their octets, in the order of the table.
const REQUESTS: &[(u8, u16)] = &[
    (4, 0),
    (5, 1024),
    (6, 0),
    (7, 0),
    (8, 0),
    (9, 0),
    (10, 0),
    (11, 0),
    (12, 0),
    (13, 0),
    (14, 0),
    (15, 0),
    (16, 0),
    (5, 1025),
];

const RECORDS: &[(u8, u16)] = &[
    (1, 0),
    (2, 1024),
    (3, 0),
    (5, 0),
    (6, 0),
    (7, 0),
    (8, 0),
    (9, 0),
    (10, 0),
    (11, 0),
];

// The phase of that number, and whether the node has asked, on an arc that is a branch or is not.
fn on_arc(branch: bool, number: u8) -> Situation {
    let phase = match number / 2 {
        0 => Phase::Active,
        1 => Phase::Ready,
        2 => Phase::Committing,
        _ => Phase::Rolling,
    };
    Situation {
        branch,
        phase,
        asked: number % 2 == 1,
        ..IDLE
    }
}

// The situation of that number on an arc, in the order of the table. Only a branch of a subordinate is prepared, done,
// or leaves.
fn situation(side: Side, number: u8) -> Situation {
    if number == 0 {
        return IDLE;
    }
    if number <= 8 {
        return on_arc(false, number - 1);
    }
    let number = number - 9;
    if side == Side::Subordinate {
        return on_arc(true, number);
    }
    Situation {
        prepared: number / 4 % 2 == 1,
        done: number / 2 % 2 == 1,
        left: number % 2 == 1,
        ..on_arc(true, number / 8)
    }
}

// How many there are.
fn situations(side: Side) -> u8 {
    match side {
        Side::Superior => 73,
        Side::Subordinate => 17,
    }
}

fn is_asked(arc: &mut Dialogue, s: Situation, code: u8) -> bool {
    request(arc, s, Act { code, octets: 0 }) == b'0'
}

fn is_told(arc: &mut Dialogue, s: Situation, code: u8) -> bool {
    arrive(arc, s, Act { code, octets: 0 }) == b'a'
}

// One step of those by which a row of the table came to be, and whether it was one.
fn make_step(arc: &mut Dialogue, side: Side, step: u8) -> bool {
    match step {
        b's' => arc.begin(Holder::Superior),
        b'b' => arc.begin(Holder::Subordinate),
        b'r' => arc.rest(),
        b'c' => arc.complete(Outcome::Commit),
        _ => return step == b'-' || is_said(arc, side, step),
    }
    true
}

// A step that is a request or a record.
fn is_said(arc: &mut Dialogue, side: Side, step: u8) -> bool {
    let at_work = if arc.units().has(CHAINED) {
        ACTIVE
    } else {
        IDLE
    };
    match (step, side) {
        (b'h', _) => is_asked(arc, at_work, 10),
        (b'g', _) => is_asked(arc, at_work, 12),
        (b'H', _) => is_told(arc, at_work, 7),
        (b'G', _) => is_told(arc, at_work, 8),
        (b'e', Side::Superior) => is_asked(arc, ACTIVE, 14),
        (b'd', Side::Superior) => is_asked(arc, ACTIVE, 15),
        (b'e', Side::Subordinate) => is_told(arc, ACTIVE, 10),
        (b'd', Side::Subordinate) => is_told(arc, ACTIVE, 11),
        _ => false,
    }
}

fn arranged(bits: u8, side: Side, steps: &str) -> Option<Dialogue> {
    let mut arc = Dialogue::new(units(bits)?, side);
    for step in steps.bytes() {
        if !make_step(&mut arc, side, step) {
            return None;
        }
    }
    Some(arc)
}

// Whether the arc answers the request in that situation as is wanted, and stays as it was where it refuses.
fn is_answer(arc: &Dialogue, s: Situation, act: Act, want: u8) -> bool {
    let mut end = *arc;
    let answer = request(&mut end, s, act);
    answer == want && (answer == b'0' || end == *arc)
}

// The same of a record.
fn is_sight(arc: &Dialogue, s: Situation, act: Act, want: u8) -> bool {
    let mut end = *arc;
    let sight = arrive(&mut end, s, act);
    sight == want && (sight != b'x' || end == *arc)
}

// Whether the arc answers the request as the pattern says, in every situation.
fn request_holds(arc: &Dialogue, side: Side, act: Act, pattern: &str) -> bool {
    let mut number = 0u8;
    for want in pattern.bytes() {
        if want != b' ' {
            if !is_answer(arc, situation(side, number), act, want) {
                return false;
            }
            number = number.saturating_add(1);
        }
    }
    number == situations(side)
}

fn record_holds(arc: &Dialogue, side: Side, act: Act, pattern: &str) -> bool {
    let mut number = 0u8;
    for want in pattern.bytes() {
        if want != b' ' {
            if !is_sight(arc, situation(side, number), act, want) {
                return false;
            }
            number = number.saturating_add(1);
        }
    }
    number == situations(side)
}

// The pattern with that letter.
fn pattern(patterns: &'static str, letter: u8) -> &'static str {
    let line = patterns
        .split('\n')
        .nth(usize::from(letter.saturating_sub(b'A')));
    line.unwrap_or("")
}

fn requests_hold(arc: &Dialogue, side: Side, patterns: &'static str, letters: &str) -> bool {
    for ((code, octets), letter) in REQUESTS.iter().zip(letters.bytes()) {
        let act = Act {
            code: *code,
            octets: *octets,
        };
        if !request_holds(arc, side, act, pattern(patterns, letter)) {
            return false;
        }
    }
    letters.len() == REQUESTS.len()
}

fn records_hold(arc: &Dialogue, side: Side, patterns: &'static str, letters: &str) -> bool {
    for ((code, octets), letter) in RECORDS.iter().zip(letters.bytes()) {
        let act = Act {
            code: *code,
            octets: *octets,
        };
        if !record_holds(arc, side, act, pattern(patterns, letter)) {
            return false;
        }
    }
    letters.len() == RECORDS.len()
}

// Whether a row of the table of that side holds, by the patterns of its requests and of its records.
fn row_holds(side: Side, requests: &'static str, records: &'static str, row: &str) -> Option<bool> {
    let mut words = row.split(' ');
    let bits = words.next()?.parse().ok()?;
    let arc = arranged(bits, side, words.next()?)?;
    let asked = requests_hold(&arc, side, requests, words.next()?);
    let heard = records_hold(&arc, side, records, words.next()?);
    Some(asked && heard)
}

fn holds_above(row: &str) -> Option<bool> {
    row_holds(Side::Superior, ABOVE_REQUESTS, ABOVE_RECORDS, row)
}

fn holds_below(row: &str) -> Option<bool> {
    row_holds(Side::Subordinate, BELOW_REQUESTS, BELOW_RECORDS, row)
}

#[test]
fn every_arc_to_a_subordinate(rt: HostRuntime) {
    for row in ABOVE.split('\n') {
        assert!(rt; matches!(holds_above(row), Some(true)), "at {row}");
    }
}

#[test]
fn every_arc_to_the_superior(rt: HostRuntime) {
    for row in BELOW.split('\n') {
        assert!(rt; matches!(holds_below(row), Some(true)), "at {row}");
    }
}
