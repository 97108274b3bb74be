//! Site names.
ghost use Rattle.std.specs.Prelude.{◌≡◌, ◌++◌, Option, Some, None, IsTrue, length, if◌then◌else◌};
ghost use Rattle.tp_names.specs.Bytes.{is_site_byte, is_site_name, all_bytes};
ghost use Rattle.tp_names.specs.Same.{is_name};

use std::fmt;
use std::marker::Model;

/// The greatest length of a site's name.
const MAX_LEN: usize = 16;

/// A site's name: 1 to 16 bytes, each a to z or 0 to 9. Contracts see it as those bytes.
#[derive(Clone, Copy, Debug, PartialEq, Eq, Hash)]
pub struct SiteName {
    len: u8,
    bytes: [u8; 16],
}

impl Model for SiteName {
    ghost use Rattle.std.specs.Prelude.{ℕ, List, take};

    ghost Value = { List ℕ };

    ghost use Rattle.tp_names.specs.Names.{inside_of, IsName, inside_of-view};

    ghost view = { λ s. take s.len s.bytes };

    ghost invariant = { IsName };

    ghost inverse = { inside_of };

    ghost inverse_ok = { inside_of-view };
}

impl SiteName {
    // Promise 2.1: A site name is made of bytes exactly where they are 1 to 16 of `a` to `z` and
    //   `0` to `9`
    /// The name with these bytes, where they are a site name.
    pub fn new(bytes: &[u8]) -> Option<SiteName>
        ensures { result ≡ (if is_site_name bytes.now then Some bytes.now else None) }
    {
        if bytes.is_empty() || bytes.len() > MAX_LEN || !are_site_bytes(bytes) {
            return None;
        }
        let mut padded = [0; MAX_LEN];
        padded[..bytes.len()].copy_from_slice(bytes);
        Some(SiteName {
            len: bytes.len() as u8,
            bytes: padded,
        })
    }

    /// The bytes of the name.
    pub fn bytes(&self) -> &[u8]
        ensures value { result.now ≡ self.now }
        ensures name { IsTrue (is_site_name result.now) }
    {
        &self.bytes[..self.len as usize]
    }

    /// The same name: zeros stand after the bytes of a name, so names are the same where all sixteen bytes are one number.
    pub(crate) fn is_same(&self, other: &SiteName) -> bool
        ensures { result ≡ is_name self.now other.now }
    {
        u128::from_le_bytes(self.bytes) == u128::from_le_bytes(other.bytes)
    }
}

impl fmt::Display for SiteName {
    fn fmt<W: fmt::Write>(&self, f: &mut fmt::Formatter<W>) -> fmt::Result {
        for byte in self.bytes() {
            f.write_char(char::from(*byte))?;
        }
        Ok(())
    }
}

pub(crate) fn is_site_byte(byte: u8) -> bool
    ensures { result ≡ is_site_byte byte }
{
    matches!(byte, b'a'..=b'z' | b'0'..=b'9')
}

fn are_site_bytes(bytes: &[u8]) -> bool
    ensures { result ≡ all_bytes is_site_byte bytes.now }
{
    for byte in bytes {
        if !is_site_byte(*byte) {
            return false;
        }
    }
    true
}
