//! The whole input.
ghost use Rattle.std.specs.Prelude.{◌≡◌, ◌≤◌, ℕ, List, Some, IfOk, IfErr};
ghost use Rattle.tpdraw.specs.Runs.{IsReadStop, Gains};

use crate::Status;
use std::alloc::Global;
use tp_names::Octets;
use tp_outside::{Failed, Source};

/// The most bytes that are read at once.
const PIECE: usize = 8192;

/// All bytes that the source has left.
pub(crate) fn read_all<S: Source>(alloc: Global, source: &mut S) -> Result<Octets, Status>
    ensures reads { IfOk result (λ bytes. (all : List ℕ) → S.left source.old ≡ Some all → bytes ≡ all) }
    ensures stops { IfErr result (IsReadStop (S.fault_count source.old) (S.fault_count source.new)) }
    ensures kept { S.fault_count source.old ≤ S.fault_count source.new }
{
    let mut bytes = Octets::new(alloc);
    'input: for _ in 0..u64::MAX {
        if pull(alloc, source, &mut bytes)? == 0 {
            return Ok(bytes);
        }
    }
    Err(Status::NoMemory)
}

// Reads on, and answers how many bytes came: none at the end.
fn pull<S: Source>(alloc: Global, source: &mut S, bytes: &mut Octets) -> Result<usize, Status>
    ensures gains { IfOk result (λ count. (all : List ℕ) → S.left source.old ≡ Some all → Gains count bytes.old bytes.new all (S.left source.new)) }
    ensures stops { IfErr result (IsReadStop (S.fault_count source.old) (S.fault_count source.new)) }
    ensures kept { S.fault_count source.old ≤ S.fault_count source.new }
{
    let mut piece = [0; PIECE];
    let count = match source.read(&mut piece) {
        Ok(count) => count,
        Err(Failed) => {
            return Err(Status::ReadFault {
                faults: source.faults(),
            });
        }
    };
    bytes.extend_from_slice(alloc, &piece[..count])?;
    Ok(count)
}
