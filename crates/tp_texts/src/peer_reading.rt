//! What octets say, if anything.
ghost use Rattle.std.specs.Prelude.{◌≡◌, IfOk};
ghost use Rattle.tp_records.specs.BodyReading.{peer_in};

use std::alloc::Global;
use tp_names::{NoMemory, RecordFault};
use tp_records::{PeerRecord, decode_peer};

/// The peer record of which these octets are the whole text.
pub fn read_whole_peer(alloc: Global, octets: &[u8]) -> Result<Option<PeerRecord>, NoMemory>
    ensures { IfOk result (λ rec. rec ≡ peer_in octets.now) }
{
    match decode_peer(alloc, octets) {
        Ok((rec, len)) if len == octets.len() => Ok(Some(rec)),
        Ok(_) => Ok(None),
        Err(fault) => match fault {
            RecordFault::BadRecord { .. } => Ok(None),
            RecordFault::NoMemory => Err(NoMemory),
        },
    }
}
