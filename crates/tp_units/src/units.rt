//! A permitted set of functional units.
ghost use Rattle.std.specs.Prelude.{◌≡◌, ◌↔◌, ◌≢◌, ℕ, ◌<◌, ◌^◌, Option, None, IsTrue, bit_and, ◌&&◌, not, IsOk};
ghost use Rattle.tp_units.specs.Units.{has_bit, is_one_bit, is_permitted, bad_bit, bad_answer, bit_not_offered, unless_bad};

use std::marker::Model;

/// Control is shared by both ends.
pub const SHARED: u8 = 1;

/// One end holds control at a time.
pub const POLARIZED: u8 = 2;

/// Handshakes may be asked for.
pub const HANDSHAKE: u8 = 4;

/// Transactions may run on the dialogue.
pub const COMMIT: u8 = 8;

/// Each transaction is followed by the next.
pub const CHAINED: u8 = 16;

/// Each transaction is begun on its own.
pub const UNCHAINED: u8 = 32;

/// A permitted set of units, which contracts see as its bits: 1 Shared, 2 Polarized,
/// 4 Handshake, 8 Commit, 16 Chained, 32 Unchained.
#[derive(Clone, Copy, Debug, PartialEq, Eq)]
pub struct Units {
    bits: u8,
}

impl Model for Units {
    ghost use Rattle.std.specs.Prelude.{ℕ, IsTrue};

    ghost Value = { ℕ };

    ghost use Rattle.tp_units.specs.Units.{is_permitted};

    ghost view = { λ u. u.bits };

    ghost invariant = { λ u. IsTrue (is_permitted u.bits) };

    ghost inverse = { λ v. record { bits = v } };
}

/// The bit by which a set is refused.
#[derive(Clone, Copy, Debug, PartialEq, Eq)]
pub struct BadUnits {
    pub bit: u8,
}

impl Units {
    // Promise 2.5, part 2
    /// The set of these bits, or the bit by which it is refused.
    pub fn check(bits: u8) -> Result<Units, BadUnits>
        ensures value { result ≡ unless_bad (bad_bit bits) bits }
        ensures permitted { IsOk result ↔ IsTrue (is_permitted bits) }
    {
        match refused_bit(bits) {
            None => Ok(Units { bits }),
            Some(bit) => Err(BadUnits { bit }),
        }
    }

    /// The bits of the set.
    pub fn bits(self) -> u8
        ensures value { result ≡ self }
        ensures permitted { IsTrue (is_permitted result) }
    {
        self.bits
    }

    /// Whether the set has a unit of the mask `bit`, which is mostly one of the units' bits.
    pub fn has(self, bit: u8) -> bool
        ensures mask { IsTrue result ↔ (bit_and self bit ≢ 0) }
        ensures one { IsTrue (is_one_bit bit) → result ≡ has_bit self bit }
    {
        is_in(self.bits, bit)
    }
}

// Promise 2.5, part 3
/// The set that an answer to an offer chooses, or the bit by which the answer is refused: as a set,
/// else its lowest bit that was not offered.
pub fn choose(offer: Units, answer: u8) -> Result<Units, BadUnits>
    ensures { result ≡ unless_bad (bad_answer offer answer) answer }
{
    let units = Units::check(answer)?;
    match not_offered(offer.bits(), answer) {
        None => Ok(units),
        Some(bit) => Err(BadUnits { bit }),
    }
}

// Promise 2.5: A set of functional units is permitted exactly where no bit refuses it
/// A set of bits is permitted exactly where no bit refuses it.
pub fn refused_exactly_where_not_permitted()
    ensures { (bits : ℕ) → bits < 2 ^ 8 → IsTrue (is_permitted bits) ↔ (bad_bit bits ≡ None) }
{}

#[tactic(auto, using(crate::proofs::Bits::conjunction_is_bit))]
fn is_in(bits: u8, bit: u8) -> bool
    ensures mask { IsTrue result ↔ (bit_and bits bit ≢ 0) }
    ensures one { IsTrue (is_one_bit bit) → result ≡ has_bit bits bit }
{
    bits & bit != 0
}

fn refused_bit(bits: u8) -> Option<u8>
    ensures { result ≡ bad_bit bits }
{
    let shared = is_in(bits, SHARED);
    let polarized = is_in(bits, POLARIZED);
    let commit = is_in(bits, COMMIT);
    let chained = is_in(bits, CHAINED);
    let unchained = is_in(bits, UNCHAINED);
    if is_in(bits, 64) {
        Some(64)
    } else if is_in(bits, 128) {
        Some(128)
    } else if shared == polarized {
        Some(SHARED)
    } else if chained && unchained {
        Some(UNCHAINED)
    } else if chained && !commit {
        Some(CHAINED)
    } else if unchained && !commit {
        Some(UNCHAINED)
    } else if commit && !chained && !unchained {
        Some(COMMIT)
    } else {
        None
    }
}

fn not_offered(offer: u8, answer: u8) -> Option<u8>
    ensures { result ≡ bit_not_offered offer answer }
{
    let lacks = |bit: u8| -> bool
        requires { IsTrue (is_one_bit bit) }
        ensures { result ≡ (has_bit answer bit && not (has_bit offer bit)) }
    { is_in(answer, bit) && !is_in(offer, bit) };
    if lacks(SHARED) {
        Some(SHARED)
    } else if lacks(POLARIZED) {
        Some(POLARIZED)
    } else if lacks(HANDSHAKE) {
        Some(HANDSHAKE)
    } else if lacks(COMMIT) {
        Some(COMMIT)
    } else if lacks(CHAINED) {
        Some(CHAINED)
    } else if lacks(UNCHAINED) {
        Some(UNCHAINED)
    } else {
        None
    }
}
