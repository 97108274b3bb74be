//! Fields that several kinds of records have.
ghost use Rattle.std.specs.Prelude.{◌≡◌, ◌++◌, ◌∷◌, OnOk, OnErr};
ghost use Rattle.tp_names.specs.Bytes.{short_bytes, octets_bytes};
ghost use Rattle.tp_names.specs.Scanning.{Gives};
ghost use Rattle.tp_names.specs.Writing.{Keeps};
ghost use Rattle.tp_records.specs.BodyScanning.{scan_units};

use std::alloc::Global;
use tp_names::{BadBytes, Cursor, NoMemory, Octets, write_octets, write_short};
use tp_units::Units;

/// Reads a permitted set of units.
#[tactic(auto, unfolding(crate::specs::BodyScanning::scan_units))]
pub(crate) fn read_units(from: &mut Cursor) -> Result<Units, BadBytes>
    ensures { Gives result from.new (scan_units from.old) }
{
    let left = from.left();
    let bits = from.code()?;
    match Units::check(bits) {
        Ok(units) => Ok(units),
        Err(_) => Err(BadBytes { left }),
    }
}

/// Writes a code and the number of a node or a peer.
pub(crate) fn write_numbered(
    alloc: Global,
    code: u8,
    number: u16,
    out: &mut Octets,
) -> Result<(), NoMemory>
    ensures ok { OnOk result (out.new ≡ out.old ++ (code ∷ short_bytes number)) }
    ensures err { OnErr result (Keeps out.old out.new) }
{
    out.push(alloc, code)?;
    write_short(alloc, number, out)?;
    Ok(())
}

/// Writes bytes after their count of two bytes. More than it can count are answered as if there were no memory.
pub(crate) fn write_counted(
    alloc: Global,
    octets: &Octets,
    out: &mut Octets,
) -> Result<(), NoMemory>
    ensures ok { OnOk result (out.new ≡ out.old ++ octets_bytes octets.now) }
    ensures err { OnErr result (Keeps out.old out.new) }
{
    if octets.len() > 65_535 {
        return Err(NoMemory);
    }
    write_octets(alloc, octets, out)
}
