//! Laws of the bytes of names and small values.
ghost use Rattle.std.specs.Prelude.{ℕ};
ghost use Rattle.tp_names.specs.Bytes.{site_bytes, mark_bytes, aaid_bytes, branch_bytes, key_bytes, addr_bytes, outcome_bytes, report_bytes, octets_bytes, child_bytes};
ghost use Rattle.tp_names.specs.Reading.{read_site, read_mark, read_aaid, read_branch, read_key, read_addr, read_outcome, read_report, read_octets, read_child};
ghost use Rattle.tp_names.specs.Scanning.{scan_site, scan_mark, scan_aaid, scan_branch, scan_key, scan_addr, scan_outcome, scan_report, scan_octets, scan_child};
ghost use Rattle.tp_names.specs.Places.{IsScan, IsWrittenBy};

// Promise 2.4: Small values are read from the front of bytes as the definitions read them, to the
//   byte, with the place of a fault; and what these read is what they write
/// What a cursor gives is the value that stands first, and a fault is at the first byte with
/// which no value goes on.
pub fn values_are_scanned()
    ensures site { IsScan read_site scan_site }
    ensures mark { IsScan read_mark scan_mark }
    ensures aaid { IsScan read_aaid scan_aaid }
    ensures branch { IsScan read_branch scan_branch }
    ensures key { IsScan read_key scan_key }
    ensures addr { IsScan read_addr scan_addr }
    ensures outcome { IsScan read_outcome scan_outcome }
    ensures report { IsScan read_report scan_report }
    ensures octets { (most : ℕ) → IsScan (read_octets most) (scan_octets most) }
    ensures child { IsScan read_child scan_child }
{}

// Promise 2.4, part 2
/// What is read of bytes is written so, byte for byte.
pub fn values_are_written()
    ensures site { IsWrittenBy site_bytes read_site }
    ensures mark { IsWrittenBy mark_bytes read_mark }
    ensures aaid { IsWrittenBy aaid_bytes read_aaid }
    ensures branch { IsWrittenBy branch_bytes read_branch }
    ensures key { IsWrittenBy key_bytes read_key }
    ensures addr { IsWrittenBy addr_bytes read_addr }
    ensures outcome { IsWrittenBy outcome_bytes read_outcome }
    ensures report { IsWrittenBy report_bytes read_report }
    ensures octets { (most : ℕ) → IsWrittenBy octets_bytes (read_octets most) }
    ensures child { IsWrittenBy child_bytes read_child }
{}
