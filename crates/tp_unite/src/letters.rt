//! The letters that a node says.
ghost use Rattle.std.specs.Prelude.{◌≡◌, ◌∷◌, [], true, map, IfOk, OnOk};
ghost use Rattle.tp_node_state.specs.Outs.{out_of};
ghost use Rattle.tp_texts.specs.PeerTexts.{CarriesFew};
ghost use Rattle.tp_unite.specs.Said.{Spells, IsRecordIn, AddsLetters};

use std::alloc::Global;
use tp_names::{Addr, NoMemory, Octets};
use tp_records::{DialogueRecord, PeerRecord};
use tp_site::{Out, Outs};
use tp_texts::{few_has_text, peer_octets, read_whole_peer};
use tp_weaving::Letter;

/// The most octets of a user in a record.
const MOST: usize = 1024;

// It carries no more of a user's octets than fit, as each record does that a node says.
fn carries_few(rec: &PeerRecord) -> bool
    ensures { result ≡ true → CarriesFew rec.now }
{
    match rec {
        PeerRecord::OnAssoc { rec, .. } => match rec {
            DialogueRecord::UserData { octets } => octets.len() <= MOST,
            _ => true,
        },
        _ => true,
    }
}

// The octets that say the record.
fn octets_of(alloc: Global, rec: &PeerRecord) -> Result<Octets, NoMemory>
    ensures { IfOk result (Spells rec.now) }
{
    if !carries_few(rec) {
        return Err(NoMemory);
    }
    few_has_text(rec);
    let octets = peer_octets(alloc, rec)?;
    Ok(octets)
}

/// The record of which these octets are the whole text.
pub(crate) fn record_in(alloc: Global, octets: &[u8]) -> Result<Option<PeerRecord>, NoMemory>
    ensures { IfOk result (IsRecordIn octets.now) }
{
    let rec = read_whole_peer(alloc, octets)?;
    Ok(rec)
}

// Puts the letter that an output is, if it is one, behind the others.
fn add_letter(
    alloc: Global,
    from: &Addr,
    out: &Out,
    letters: &mut Vec<Letter>,
) -> Result<(), NoMemory>
    ensures { OnOk result (AddsLetters from.now (out_of out.now ∷ []) letters.old.items letters.new.items) }
{
    match out {
        Out::Tell(_) => Ok(()),
        Out::Send { to, rec } => {
            let octets = octets_of(alloc, rec)?;
            letters.push(Letter {
                from: *from,
                to: *to,
                octets,
            })?;
            Ok(())
        }
    }
}

// Puts the letters among these outputs behind the others.
fn add_letters(
    alloc: Global,
    from: &Addr,
    outs: &[Out],
    letters: &mut Vec<Letter>,
) -> Result<(), NoMemory>
    ensures { OnOk result (AddsLetters from.now (map out_of outs.now) letters.old.items letters.new.items) }
{
    match outs {
        [] => Ok(()),
        [first, rest @ ..] => {
            add_letter(alloc, from, first, letters)?;
            add_letters(alloc, from, rest, letters)?;
            Ok(())
        }
    }
}

/// The letters among these outputs of that node.
pub(crate) fn letters_in(alloc: Global, from: &Addr, outs: &Outs) -> Result<Vec<Letter>, NoMemory>
    ensures { IfOk result (λ letters. AddsLetters from.now outs.now [] letters.items) }
{
    let mut letters = Vec::new(alloc);
    add_letters(alloc, from, outs.as_slice(), &mut letters)?;
    Ok(letters)
}
