//! The octets of a peer record.
ghost use Rattle.std.specs.Prelude.{◌≡◌, IfOk};
ghost use Rattle.tp_records.specs.Bodies.{peer_bytes};
ghost use Rattle.tp_texts.specs.PeerTexts.{CarriesFew};

use crate::peer_texts::few_has_text;
use std::alloc::Global;
use tp_names::{NoMemory, Octets};
use tp_records::{PeerRecord, encode_peer};

/// Room for most records, so that one is written without a second taking of memory.
const USUAL: usize = 96;

/// The octets that are the text of a peer record, which carries no more of a user's octets than fit.
pub fn peer_octets(alloc: Global, rec: &PeerRecord) -> Result<Octets, NoMemory>
    requires { CarriesFew rec.now }
    ensures { IfOk result (λ octets. octets ≡ peer_bytes rec.now) }
{
    few_has_text(rec);
    let mut octets = Octets::from_vec(Vec::with_capacity(alloc, USUAL)?);
    encode_peer(alloc, rec, &mut octets)?;
    Ok(octets)
}
