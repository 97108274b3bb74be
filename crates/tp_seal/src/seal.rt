//! What a seal says of a log.
ghost use Rattle.std.specs.Prelude.{◌≡◌, ◌≢◌, ◌↔◌, ◌≤◌, ◌<◌, ℕ, List, length, take, None, Some};
ghost use Rattle.sha2.specs.Sha256.{sha256};
ghost use Rattle.tp_journal.specs.Log.{StandsFor, place_behind};
ghost use Rattle.tp_seal.specs.Seals.{Holds};
ghost use Rattle.tp_seal.specs.declared.broken.Broken.{Broken};

use crate::broken::Broken;
use crate::front::front_of;
use sha2::{Digest, Sha256};
use tp_names::SiteName;

/// Whose a log is, and the SHA-256 of its first bytes.
#[derive(Clone, Copy)]
pub struct Seal {
    pub name: SiteName,
    pub len: u64,
    pub sum: [u8; 32],
}

impl Seal {
    /// The seal of all that stands before the closing gate of a log.
    pub fn of(name: SiteName, log: &[u8]) -> Seal
        ensures name { result.name ≡ name }
        ensures holds { Holds result log.now }
        // Promise 25.6: What is sealed of a log ends at its closing gate, or before it
        ensures gate { (bodies : List (List ℕ)) → StandsFor log.now bodies → result.len ≤ place_behind bodies }
    {
        let front = front_of(log);
        Seal {
            name,
            len: front as u64,
            sum: Sha256::digest(&log[..front]),
        }
    }

    /// A seal of nothing, which every log of the site has.
    pub fn of_nothing(name: SiteName) -> Seal
        ensures name { result.name ≡ name }
        ensures holds { (log : List ℕ) → Holds result log }
    {
        let nothing: [u8; 0] = [];
        Seal {
            name,
            len: 0,
            sum: Sha256::digest(&nothing),
        }
    }

    /// What the seal finds in a log. A log that begins with what was sealed is found to be well.
    pub fn finds(&self, log: &[u8]) -> Option<Broken>
        // Promise 25.1 [tp_seal/specs/Seals.antt, clauses well shorter changed]: A seal finds a log
        //   well exactly where it begins with as many bytes of that sum; it says `Shorter` only of
        //   a shorter log, and `Changed` only of one with another sum
        ensures well { (result ≡ None) ↔ Holds self.now log.now }
        ensures shorter { result ≡ Some Broken.Shorter → length log.now < self.now.len }
        ensures changed { result ≡ Some Broken.Changed → sha256 (take self.now.len log.now) ≢ self.now.sum }
        ensures named { result ≢ Some Broken.Name }
    {
        let len = self.len as usize;
        if log.len() < len {
            return Some(Broken::Shorter);
        }
        if Sha256::digest(&log[..len]) == self.sum {
            None
        } else {
            Some(Broken::Changed)
        }
    }
}
