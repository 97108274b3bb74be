//! What a word of a transcript's line says.
ghost use Rattle.std.specs.Prelude.{◌≡◌};
ghost use Rattle.tp_model.specs.LineReading.{value_from, site};
ghost use Rattle.tp_schedule.specs.Answers.{read_as, Reads};
ghost use Rattle.tp_transcript.specs.OutWords.{any_short, small, long, if_long, at_dot, mark, aaid, branch, maybe, key, permitted, all_octets, report, holder, phase, fate, numbers, node_number, Pushes};

use crate::cutting::cut_at;
use std::alloc::Global;
use tp_model::{NodeNumbers, PhaseWord, RecordFate};
use tp_names::{Aaid, BranchId, Mark, Octets, Report, SiteName};
use tp_records::Holder;
use tp_schedule::LineFault;
use tp_schedule::keyword::find;
use tp_schedule::value::{
    both, is_digit, is_word, read_hex, read_number, read_number_in, read_site, read_units,
};
use tp_units::Units;

/// Any number of a node: 0 to 65535.
pub(crate) fn read_any_short(word: &[u8]) -> Result<u16, LineFault>
    ensures { result ≡ read_as (any_short word.now) }
{
    read_number_in(0, u16::MAX, word)
}

/// A number from 0 to 255.
pub(crate) fn read_small(word: &[u8]) -> Result<u8, LineFault>
    ensures { result ≡ read_as (small word.now) }
{
    let n = read_number_in(0, 255, word)?;
    Ok(n as u8)
}

/// A number from 0 to 2^64 - 1.
pub(crate) fn read_long(word: &[u8]) -> Result<u64, LineFault>
    ensures { result ≡ read_as (long word.now) }
{
    let value = match word {
        [] => None,
        [b'0', _, ..] => None,
        _ => long_value(word),
    };
    value.ok_or(LineFault::Word)
}

fn long_value(digits: &[u8]) -> Option<u64>
    ensures { result ≡ if_long (value_from 0 digits.now) }
{
    let mut value: u64 = 0;
    for byte in digits {
        if !is_digit(*byte) {
            return None;
        }
        let digit = u64::from(*byte - b'0');
        if value > (u64::MAX - digit) / 10 {
            return None;
        }
        value = value * 10 + digit;
    }
    Some(value)
}

/// Three numbers with dots between them.
pub(crate) fn read_mark(word: &[u8]) -> Result<Mark, LineFault>
    ensures { result ≡ read_as (mark word.now) }
{
    let Some((boot, rest)) = cut_at(b'.', word) else {
        return Err(LineFault::Word);
    };
    let (boot, (node, count)) = both(read_long(boot), read_place(rest))?;
    Ok(Mark { boot, node, count })
}

fn read_place(word: &[u8]) -> Result<(u16, u64), LineFault>
    ensures { result ≡ read_as (at_dot any_short long word.now) }
{
    match cut_at(b'.', word) {
        None => Err(LineFault::Word),
        Some((node, count)) => both(read_any_short(node), read_long(count)),
    }
}

fn read_marked(word: &[u8]) -> Result<(SiteName, Mark), LineFault>
    ensures { result ≡ read_as (at_dot site mark word.now) }
{
    match cut_at(b'.', word) {
        None => Err(LineFault::Word),
        Some((name, rest)) => both(read_site(name), read_mark(rest)),
    }
}

/// The identifier of a tree.
pub(crate) fn read_aaid(word: &[u8]) -> Result<Aaid, LineFault>
    ensures { result ≡ read_as (aaid word.now) }
{
    read_marked(word).map(|(owner, mark)| Aaid { owner, mark })
}

/// The identifier of a branch.
pub(crate) fn read_branch(word: &[u8]) -> Result<BranchId, LineFault>
    ensures { result ≡ read_as (branch word.now) }
{
    read_marked(word).map(|(superior, mark)| BranchId { superior, mark })
}

/// A mark, or `-` for none.
pub(crate) fn read_maybe_mark(word: &[u8]) -> Result<Option<Mark>, LineFault>
    ensures { result ≡ read_as (maybe mark word.now) }
{
    if is_word(word, "-") {
        return Ok(None);
    }
    Ok(Some(read_mark(word)?))
}

fn read_maybe_branch(word: &[u8]) -> Result<Option<BranchId>, LineFault>
    ensures { result ≡ read_as (maybe branch word.now) }
{
    if is_word(word, "-") {
        return Ok(None);
    }
    Ok(Some(read_branch(word)?))
}

/// The words of a node's key: the tree's identifier, and the branch's or `-`.
pub(crate) fn read_key(aaid: &[u8], branch: &[u8]) -> Result<(Aaid, Option<BranchId>), LineFault>
    ensures { result ≡ read_as (key aaid.now branch.now) }
{
    both(read_aaid(aaid), read_maybe_branch(branch))
}

/// A permitted set of units.
pub(crate) fn read_permitted(word: &[u8]) -> Result<Units, LineFault>
    ensures { result ≡ read_as (permitted word.now) }
{
    let bits = read_units(word)?;
    match Units::check(bits) {
        Ok(units) => Ok(units),
        Err(_) => Err(LineFault::Word),
    }
}

/// Octets with their digits in full, or `-` for none.
pub(crate) fn read_all_octets(alloc: Global, word: &[u8]) -> Result<Octets, LineFault>
    ensures { Reads (all_octets word.now) result }
{
    if is_word(word, "-") {
        return Ok(Octets::new(alloc));
    }
    read_hex(alloc, word)
}

/// Numbers of nodes with commas between them.
pub(crate) fn read_numbers(alloc: Global, word: &[u8]) -> Result<NodeNumbers, LineFault>
    ensures { Reads (numbers word.now) result }
{
    let mut by = NodeNumbers::new(alloc);
    let mut rest = word;
    while let Some((first, more)) = cut_at(b',', rest) {
        push_number(alloc, &mut by, first)?;
        rest = more;
    }
    push_number(alloc, &mut by, rest)?;
    Ok(by)
}

fn push_number(alloc: Global, by: &mut NodeNumbers, word: &[u8]) -> Result<(), LineFault>
    ensures { Pushes by.old by.new (node_number word.now) result }
{
    let Ok(number) = read_number(word) else {
        return Err(LineFault::Word);
    };
    by.push(alloc, number)?;
    Ok(())
}

const REPORTS: [(&str, Report); 3] = [
    ("none", Report::None),
    ("hazard", Report::Hazard),
    ("mix", Report::Mix),
];

const HOLDERS: [(&str, Holder); 3] = [
    ("none", Holder::None),
    ("superior", Holder::Superior),
    ("subordinate", Holder::Subordinate),
];

const PHASES: [(&str, PhaseWord); 6] = [
    ("nil", PhaseWord::Nil),
    ("active", PhaseWord::Active),
    ("asked", PhaseWord::Asked),
    ("ready", PhaseWord::Ready),
    ("committing", PhaseWord::Committing),
    ("rolling", PhaseWord::Rolling),
];

const FATES: [(&str, RecordFate); 3] = [
    ("kept", RecordFate::Kept),
    ("lost", RecordFate::Lost),
    ("none", RecordFate::None),
];

/// `none`, `hazard` or `mix`.
pub(crate) fn read_report(word: &[u8]) -> Result<Report, LineFault>
    ensures { result ≡ read_as (report word.now) }
{
    find(&REPORTS, word).ok_or(LineFault::Word)
}

/// `none`, `superior` or `subordinate`.
pub(crate) fn read_holder(word: &[u8]) -> Result<Holder, LineFault>
    ensures { result ≡ read_as (holder word.now) }
{
    find(&HOLDERS, word).ok_or(LineFault::Word)
}

/// A phase.
pub(crate) fn read_phase(word: &[u8]) -> Result<PhaseWord, LineFault>
    ensures { result ≡ read_as (phase word.now) }
{
    find(&PHASES, word).ok_or(LineFault::Word)
}

/// `kept`, `lost` or `none`.
pub(crate) fn read_fate(word: &[u8]) -> Result<RecordFate, LineFault>
    ensures { result ≡ read_as (fate word.now) }
{
    find(&FATES, word).ok_or(LineFault::Word)
}
