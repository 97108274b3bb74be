//! Which sets of units are permitted, and what an answer chooses.
use tp_units::{BadUnits, CHAINED, COMMIT, Units, choose};

// By which bit each set below 64 is refused, 0 where it is permitted. A row has the eight sets of
// Shared, Polarized and Handshake for one choice of Commit, Chained and Unchained.
const REFUSED: [u8; 64] = [
    1, 0, 0, 1, 1, 0, 0, 1, // none of them
    1, 8, 8, 1, 1, 8, 8, 1, // Commit
    1, 16, 16, 1, 1, 16, 16, 1, // Chained
    1, 0, 0, 1, 1, 0, 0, 1, // Commit and Chained
    1, 32, 32, 1, 1, 32, 32, 1, // Unchained
    1, 0, 0, 1, 1, 0, 0, 1, // Commit and Unchained
    1, 32, 32, 1, 1, 32, 32, 1, // Chained and Unchained
    1, 32, 32, 1, 1, 32, 32, 1, // all three
];

fn refusal(bits: u8) -> u8 {
    match Units::check(bits) {
        Ok(_) => 0,
        Err(bad) => bad.bit,
    }
}

fn wanted(bits: u8) -> u8 {
    if bits / 64 % 2 == 1 {
        64
    } else if bits >= 128 {
        128
    } else {
        REFUSED[usize::from(bits % 64)]
    }
}

#[test]
fn every_set_is_judged(rt: HostRuntime) {
    for bits in 0..=255u8 {
        assert!(rt; refusal(bits) == wanted(bits), "at {bits}");
    }
}

#[test]
fn the_first_cause_is_told(rt: HostRuntime) {
    assert!(rt; refusal(12) == 1);
    assert!(rt; refusal(9) == 8);
    assert!(rt; refusal(57) == 32);
    assert!(rt; refusal(192) == 64);
}

fn chosen(offer: u8, answer: u8) -> Result<u8, BadUnits> {
    Ok(choose(Units::check(offer)?, answer)?.bits())
}

// The set that is chosen, or the bit for which the answer is refused.
fn choice(offer: u8, answer: u8) -> (u8, u8) {
    match chosen(offer, answer) {
        Ok(bits) => (bits, 0),
        Err(bad) => (0, bad.bit),
    }
}

// An offer, an answer, the set that is chosen, and the bit for which the answer is refused.
const CHOICES: &[(u8, u8, u8, u8)] = &[
    (45, 45, 45, 0),
    (45, 1, 1, 0),
    (45, 5, 5, 0),
    (41, 45, 0, 4),
    (2, 41, 0, 1),
    (1, 41, 0, 8),
    (25, 41, 0, 32),
    (41, 9, 0, 8),
    (9, 1, 0, 8),
];

#[test]
fn an_answer_keeps_within_the_offer(rt: HostRuntime) {
    for (offer, answer, bits, bad) in CHOICES {
        assert!(rt;
            choice(*offer, *answer) == (*bits, *bad),
            "{answer} of {offer}"
        );
    }
}

// Whether the set 41 has that unit.
fn has(bit: u8) -> Option<bool> {
    let units = Units::check(41).ok()?;
    Some(units.has(bit))
}

#[test]
fn a_set_has_its_units(rt: HostRuntime) {
    assert!(rt; matches!(has(COMMIT), Some(true)));
    assert!(rt; matches!(has(CHAINED), Some(false)));
}
