//! The text of a seal, both ways.
ghost use Rattle.std.specs.Prelude.{◌≡◌, ◌++◌, ◌∷◌, [], IfOk, IfSome, OnErr, OnOk};
ghost use Rattle.std.specs.Io.{StartsWith};
ghost use Rattle.tp_names.specs.Writing.{Keeps};
ghost use Rattle.sha2.specs.Sha256.{sha256};
ghost use Rattle.tp_seal.specs.Seals.{said, seal_text};

use crate::seal::Seal;
use sha2::{Digest, Sha256};
use std::alloc::Global;
use tp_names::{NoMemory, Octets, SiteName, write_long, write_site};

const HEAD: [u8; 5] = *b"TPSL\x01";

/// The text of a seal with its number.
pub(crate) fn text_of(alloc: Global, number: u64, seal: &Seal) -> Result<Octets, NoMemory>
    ensures { IfOk result (λ text. text ≡ seal_text number seal.now) }
{
    let mut text = Octets::new(alloc);
    text.extend_from_slice(alloc, &HEAD)?;
    write_long(alloc, number, &mut text)?;
    write_site(alloc, &seal.name, &mut text)?;
    write_long(alloc, seal.len, &mut text)?;
    text.extend_from_slice(alloc, &seal.sum)?;
    sign(alloc, &mut text)?;
    Ok(text)
}

// Puts the sum of a text behind it.
fn sign(alloc: Global, text: &mut Octets) -> Result<(), NoMemory>
    ensures { OnOk result (text.new ≡ text.old ++ sha256 text.old) }
{
    let sum = Sha256::digest(text.as_slice());
    text.extend_from_slice(alloc, &sum)
}

// The number that eight bytes from a place on say.
fn long_at(bytes: &[u8], at: usize) -> Option<u64> {
    let end = at.checked_add(8)?;
    let [a, b, c, d, e, f, g, h] = bytes.get(at..end)? else {
        return None;
    };
    Some(u64::from_be_bytes([*a, *b, *c, *d, *e, *f, *g, *h]))
}

// What may be a seal with its number.
fn guess(bytes: &[u8]) -> Option<(u64, Seal)> {
    let number = long_at(bytes, 5)?;
    let name_end = 14 + usize::from(*bytes.get(13)?);
    let name = SiteName::new(bytes.get(14..name_end)?)?;
    let len = long_at(bytes, name_end)?;
    let mut sum = [0u8; 32];
    sum.copy_from_slice(bytes.get(name_end + 8..name_end + 40)?);
    Some((number, Seal { name, len, sum }))
}

/// The seal, with its number, whose text stands at the front of these bytes.
pub(crate) fn read_text(alloc: Global, bytes: &[u8]) -> Result<Option<(u64, Seal)>, NoMemory>
    ensures { IfOk result (λ read. IfSome read (λ found. StartsWith bytes.now (seal_text found.0 found.1))) }
{
    let Some((number, seal)) = guess(bytes) else {
        return Ok(None);
    };
    let text = text_of(alloc, number, &seal)?;
    match bytes.get(..text.len()) {
        Some(front) if front == text.as_slice() => Ok(Some((number, seal))),
        _ => Ok(None),
    }
}
