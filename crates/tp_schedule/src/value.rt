//! What a word of a line says: a number, octets, units, a site, an outcome.
ghost use Rattle.std.specs.Prelude.{◌≡◌, ◌<◌, ◌≤◌, true, false, IfOk, IfSome, length, replicate};
ghost use Rattle.tp_names.specs.Same.{is_name};
ghost use Rattle.tp_model.specs.LineReading.{words_in, one_word, is_digit, value_from, numeral, number_in, number, hex_value, hex_octets, run_octets, octets, units_from, units, site, outcome, fill, form_of, Well};
ghost use Rattle.tp_schedule.specs.Answers.{read_as, Reads, same, both_answers, capped, few_of, hex_fault, has_capital, bits_of, is_number_digit, DigitBefore};

use crate::LineFault;
use crate::cutting::only_word;
use hex::FromHexError;
use std::alloc::Global;
use tp_names::{Octets, Outcome, SiteName};

/// The bit of each unit and its letter, in the order in which they are written.
const UNIT_LETTERS: [(u8, u8); 6] = [
    (1, b's'),
    (2, b'p'),
    (4, b'h'),
    (8, b'c'),
    (16, b'k'),
    (32, b'u'),
];

/// The most octets that a word may have.
const MAX_OCTETS: usize = 2000;

/// A number above any that a line may have.
const LARGE: u32 = 65536;

/// Both values, or the fault that goes first: a wrong form before a number outside its range.
pub fn both<A: Drop, B: Drop>(
    first: Result<A, LineFault>,
    second: Result<B, LineFault>,
) -> Result<(A, B), LineFault>
    ensures { result ≡ both_answers first second }
{
    match (first, second) {
        (Ok(a), Ok(b)) => Ok((a, b)),
        (Ok(_), Err(fault)) => Err(fault),
        (Err(LineFault::Number), Err(fault)) => Err(fault),
        (Err(fault), _) => Err(fault),
    }
}

/// Whether the word is this one.
#[tactic(auto, using(crate::proofs::Values::other_length))]
pub fn is_word(word: &[u8], text: &str) -> bool
    ensures { result ≡ is_name text.now word.now }
{
    let text = text.as_bytes();
    if text.len() != word.len() {
        return false;
    }
    agree(text, word)
}

// Whether all bytes of two words of one length agree. They are short, so they are compared one by one.
#[tactic(auto, using(crate::proofs::Values::other_at, crate::proofs::Values::all_same))]
fn agree(text: &[u8], word: &[u8]) -> bool
    requires { length text.now ≡ length word.now }
    ensures { result ≡ is_name text.now word.now }
{
    for i in 0..text.len() {
        if text[i] != word[i] {
            return false;
        }
    }
    true
}

/// A node, a frame or a member: 1 to 65535.
pub fn read_number(word: &[u8]) -> Result<u16, LineFault>
    ensures { result ≡ read_as (number word.now) }
{
    read_number_in(1, u16::MAX, word)
}

/// The number of a first word of one digit that stands between two spaces, and what comes from the second space on.
pub(crate) fn digit_before(bytes: &[u8]) -> Option<(u16, &[u8])>
    ensures { IfSome result (λ p. DigitBefore bytes.now p.0 p.1.now) }
{
    match bytes {
        [b' ', digit, b' ', ..] if is_number_digit(*digit) => {
            Some((u16::from(*digit - b'0'), &bytes[2..]))
        }
        _ => None,
    }
}

/// Whether the byte alone is a number.
pub(crate) fn is_number_digit(byte: u8) -> bool
    ensures { result ≡ is_number_digit byte }
{
    matches!(byte, b'1'..=b'9')
}

/// The number, where there is one word alone.
#[inline(always)]
pub fn one_number(rest: &[u8]) -> Result<u16, LineFault>
    ensures { result ≡ read_as (one_word same number (words_in rest.now)) }
{
    match only_word(rest) {
        None => Err(LineFault::Word),
        Some(word) => read_number(word),
    }
}

/// The number of a changing call: 1 to 99.
pub fn read_call(word: &[u8]) -> Result<u8, LineFault>
    ensures { result ≡ read_as (number_in 1 99 word.now) }
{
    let call = read_number_in(1, 99, word)?;
    Ok(call as u8)
}

/// A numeral without leading zeros, from `least` to `most`.
pub fn read_number_in(least: u16, most: u16, word: &[u8]) -> Result<u16, LineFault>
    ensures value { result ≡ read_as (number_in least most word.now) }
    ensures within { IfOk result (λ n. n ≤ most) }
{
    let Some(n) = read_numeral(word) else {
        return Err(LineFault::Word);
    };
    if u32::from(least) <= n && n <= u32::from(most) {
        Ok(n as u16)
    } else {
        Err(LineFault::Number)
    }
}

// The value of a numeral without leading zeros, or a large number for a larger one.
fn read_numeral(word: &[u8]) -> Option<u32>
    ensures { result ≡ capped (numeral word.now) }
{
    match word {
        [] => None,
        [b'0', _, ..] => None,
        _ => value_of(word),
    }
}

fn value_of(digits: &[u8]) -> Option<u32>
    ensures { result ≡ capped (value_from 0 digits.now) }
{
    let mut value: u32 = 0;
    for digit in digits {
        if !is_digit(*digit) {
            return None;
        }
        value = (value * 10 + u32::from(*digit - b'0')).min(LARGE);
    }
    Some(value)
}

/// Whether the byte is a digit of a numeral.
pub fn is_digit(byte: u8) -> bool
    ensures { result ≡ is_digit byte }
{
    matches!(byte, b'0'..=b'9')
}

/// `-`, pairs of digits, or a pair of digits, `*` and a count; 2,000 octets at most.
pub fn read_octets(alloc: Global, word: &[u8]) -> Result<Octets, LineFault>
    ensures { Reads (octets word.now) result }
{
    if is_word(word, "-") {
        return Ok(Octets::new(alloc));
    }
    match word {
        [_, _, b'*', ..] => read_run(alloc, word),
        _ => read_few(alloc, word),
    }
}

fn read_run(alloc: Global, word: &[u8]) -> Result<Octets, LineFault>
    requires { 3 ≤ length word.now }
    ensures { Reads (run_octets word.now) result }
{
    let (octet, count) = both(
        read_fill(&word[..2]),
        read_number_in(1, MAX_OCTETS as u16, &word[3..]),
    )?;
    fill_octets(alloc, octet, count)
}

fn fill_octets(alloc: Global, octet: u8, count: u16) -> Result<Octets, LineFault>
    ensures { Reads (Well (replicate count octet)) result }
{
    let Ok(octets) = vec![in alloc; octet; usize::from(count)] else {
        return Err(LineFault::NoMemory);
    };
    Ok(Octets::from_vec(octets))
}

fn read_few(alloc: Global, word: &[u8]) -> Result<Octets, LineFault>
    ensures { Reads (few_of (hex_octets word.now)) result }
{
    let octets = read_hex(alloc, word)?;
    if octets.len() > MAX_OCTETS {
        return Err(LineFault::Word);
    }
    Ok(octets)
}

/// Pairs of lower-case digits.
pub fn read_hex(alloc: Global, word: &[u8]) -> Result<Octets, LineFault>
    ensures { Reads (form_of (hex_octets word.now)) result }
{
    if has_capital(word) {
        return Err(LineFault::Word);
    }
    match hex::decode(alloc, word) {
        Ok(octets) => Ok(Octets::from_vec(octets)),
        Err(fault) => Err(hex_fault(fault)),
    }
}

fn hex_fault(fault: FromHexError) -> LineFault
    ensures { result ≡ hex_fault fault }
{
    match fault {
        FromHexError::OutOfMemory => LineFault::NoMemory,
        _ => LineFault::Word,
    }
}

// Whether there is a byte from A to F, which `hex` takes for a digit too.
fn has_capital(word: &[u8]) -> bool
    ensures { result ≡ has_capital word.now }
{
    for byte in word {
        if matches!(byte, b'A'..=b'F') {
            return true;
        }
    }
    false
}

/// One pair of digits.
pub fn read_fill(word: &[u8]) -> Result<u8, LineFault>
    ensures { result ≡ read_as (fill word.now) }
{
    if word.len() != 2 {
        return Err(LineFault::Word);
    }
    match (hex_value(word[0]), hex_value(word[1])) {
        (Some(high), Some(low)) => Ok(high * 16 + low),
        _ => Err(LineFault::Word),
    }
}

fn hex_value(byte: u8) -> Option<u8>
    ensures value { result ≡ hex_value byte }
    ensures small { IfSome result (λ n. n < 16) }
{
    match byte {
        b'0'..=b'9' => Some(byte - b'0'),
        b'a'..=b'f' => Some(byte - b'a' + 10),
        _ => None,
    }
}

/// Letters of units in their order, one at least.
pub fn read_units(word: &[u8]) -> Result<u8, LineFault>
    ensures { result ≡ read_as (units word.now) }
{
    if word.is_empty() {
        return Err(LineFault::Word);
    }
    match units_from(&UNIT_LETTERS, word) {
        None => Err(LineFault::Word),
        Some(units) => Ok(units),
    }
}

fn units_from(letters: &[(u8, u8)], word: &[u8]) -> Option<u8>
    requires { bits_of letters.now < 256 }
    ensures value { result ≡ units_from letters.now word.now }
    ensures within { IfSome result (λ n. n ≤ bits_of letters.now) }
{
    match (letters, word) {
        (_, []) => Some(0),
        ([], _) => None,
        ([(bit, letter), rest @ ..], [first, others @ ..]) => {
            if first == letter {
                let more = units_from(rest, others)?;
                Some(bit + more)
            } else {
                units_from(rest, word)
            }
        }
    }
}

/// A site's name.
pub fn read_site(word: &[u8]) -> Result<SiteName, LineFault>
    ensures { result ≡ read_as (site word.now) }
{
    match SiteName::new(word) {
        None => Err(LineFault::Word),
        Some(name) => Ok(name),
    }
}

/// `commit` or `rollback`.
pub fn read_outcome(word: &[u8]) -> Result<Outcome, LineFault>
    ensures { result ≡ read_as (outcome word.now) }
{
    if is_word(word, "commit") {
        Ok(Outcome::Commit)
    } else if is_word(word, "rollback") {
        Ok(Outcome::Rollback)
    } else {
        Err(LineFault::Word)
    }
}
