//! Writing names and small values at the end of octets.
//!
//! Where memory runs out, what was there still stands first: see `Octets::truncate`.
ghost use Rattle.std.specs.Prelude.{◌≡◌, ◌++◌, ◌∷◌, [], ◌<◌, ◌^◌, length, OnErr, OnOk};
ghost use Rattle.tp_names.specs.Bytes.{byte_bytes, short_bytes, long_bytes, site_bytes, mark_bytes, aaid_bytes, branch_bytes, maybe_bytes, key_bytes, addr_bytes, outcome_bytes, report_bytes, octets_bytes, child_bytes, each_child_bytes};
ghost use Rattle.tp_names.specs.Writing.{Keeps};

use crate::{
    Aaid, Addr, BranchId, Child, Mark, NoMemory, NodeKey, Octets, Outcome, Report, SiteName,
};
use std::alloc::Global;

/// A byte.
pub fn write_byte(alloc: Global, n: u8, out: &mut Octets) -> Result<(), NoMemory>
    ensures ok { OnOk result (out.new ≡ out.old ++ byte_bytes n) }
    ensures err { OnErr result (Keeps out.old out.new) }
{
    out.push(alloc, n)
}

/// A number of two bytes.
pub fn write_short(alloc: Global, n: u16, out: &mut Octets) -> Result<(), NoMemory>
    ensures ok { OnOk result (out.new ≡ out.old ++ short_bytes n) }
    ensures err { OnErr result (Keeps out.old out.new) }
{
    out.extend_from_slice(alloc, &n.to_be_bytes())
}

/// A number of eight bytes.
pub fn write_long(alloc: Global, n: u64, out: &mut Octets) -> Result<(), NoMemory>
    ensures ok { OnOk result (out.new ≡ out.old ++ long_bytes n) }
    ensures err { OnErr result (Keeps out.old out.new) }
{
    out.extend_from_slice(alloc, &n.to_be_bytes())
}

/// A site's name, after its length.
#[inline(always)]
pub fn write_site(alloc: Global, site: &SiteName, out: &mut Octets) -> Result<(), NoMemory>
    ensures ok { OnOk result (out.new ≡ out.old ++ site_bytes site.now) }
    ensures err { OnErr result (Keeps out.old out.new) }
{
    let bytes = site.bytes();
    out.push(alloc, bytes.len() as u8)?;
    out.extend_from_slice(alloc, bytes)
}

/// A mark.
#[inline(always)]
pub fn write_mark(alloc: Global, mark: &Mark, out: &mut Octets) -> Result<(), NoMemory>
    ensures ok { OnOk result (out.new ≡ out.old ++ mark_bytes mark.now) }
    ensures err { OnErr result (Keeps out.old out.new) }
{
    write_long(alloc, mark.boot, out)?;
    write_short(alloc, mark.node, out)?;
    write_long(alloc, mark.count, out)?;
    Ok(())
}

/// The identifier of a tree.
#[inline(always)]
pub fn write_aaid(alloc: Global, aaid: &Aaid, out: &mut Octets) -> Result<(), NoMemory>
    ensures ok { OnOk result (out.new ≡ out.old ++ aaid_bytes aaid.now) }
    ensures err { OnErr result (Keeps out.old out.new) }
{
    write_site(alloc, &aaid.owner, out)?;
    write_mark(alloc, &aaid.mark, out)
}

/// The identifier of a branch.
pub fn write_branch(alloc: Global, branch: &BranchId, out: &mut Octets) -> Result<(), NoMemory>
    ensures ok { OnOk result (out.new ≡ out.old ++ branch_bytes branch.now) }
    ensures err { OnErr result (Keeps out.old out.new) }
{
    write_site(alloc, &branch.superior, out)?;
    write_mark(alloc, &branch.mark, out)
}

/// The address of a node.
pub fn write_addr(alloc: Global, addr: &Addr, out: &mut Octets) -> Result<(), NoMemory>
    ensures ok { OnOk result (out.new ≡ out.old ++ addr_bytes addr.now) }
    ensures err { OnErr result (Keeps out.old out.new) }
{
    write_site(alloc, &addr.site, out)?;
    write_short(alloc, addr.node, out)
}

/// A mark, or none.
pub fn write_maybe_mark(
    alloc: Global,
    mark: &Option<Mark>,
    out: &mut Octets,
) -> Result<(), NoMemory>
    ensures ok { OnOk result (out.new ≡ out.old ++ maybe_bytes mark_bytes mark.now) }
    ensures err { OnErr result (Keeps out.old out.new) }
{
    match mark {
        None => out.push(alloc, 0)?,
        Some(mark) => {
            out.push(alloc, 1)?;
            write_mark(alloc, mark, out)?;
        }
    }
    Ok(())
}

/// The identifier of a branch, or none.
pub fn write_maybe_branch(
    alloc: Global,
    branch: &Option<BranchId>,
    out: &mut Octets,
) -> Result<(), NoMemory>
    ensures ok { OnOk result (out.new ≡ out.old ++ maybe_bytes branch_bytes branch.now) }
    ensures err { OnErr result (Keeps out.old out.new) }
{
    match branch {
        None => out.push(alloc, 0),
        Some(branch) => {
            out.push(alloc, 1)?;
            write_branch(alloc, branch, out)
        }
    }
}

/// The address of a node, or none.
pub fn write_maybe_addr(
    alloc: Global,
    addr: &Option<Addr>,
    out: &mut Octets,
) -> Result<(), NoMemory>
    ensures ok { OnOk result (out.new ≡ out.old ++ maybe_bytes addr_bytes addr.now) }
    ensures err { OnErr result (Keeps out.old out.new) }
{
    match addr {
        None => out.push(alloc, 0),
        Some(addr) => {
            out.push(alloc, 1)?;
            write_addr(alloc, addr, out)
        }
    }
}

/// A node's place in a tree.
pub fn write_key(alloc: Global, key: &NodeKey, out: &mut Octets) -> Result<(), NoMemory>
    ensures ok { OnOk result (out.new ≡ out.old ++ key_bytes key.now) }
    ensures err { OnErr result (Keeps out.old out.new) }
{
    write_aaid(alloc, &key.aaid, out)?;
    write_maybe_branch(alloc, &key.branch, out)
}

/// How a transaction ends.
#[inline(always)]
pub fn write_outcome(alloc: Global, outcome: Outcome, out: &mut Octets) -> Result<(), NoMemory>
    ensures ok { OnOk result (out.new ≡ out.old ++ outcome_bytes outcome) }
    ensures err { OnErr result (Keeps out.old out.new) }
{
    let code = match outcome {
        Outcome::Commit => 1,
        Outcome::Rollback => 2,
    };
    out.push(alloc, code)
}

/// What is reported of a branch.
pub fn write_report(alloc: Global, report: Report, out: &mut Octets) -> Result<(), NoMemory>
    ensures ok { OnOk result (out.new ≡ out.old ++ report_bytes report) }
    ensures err { OnErr result (Keeps out.old out.new) }
{
    let code = match report {
        Report::None => 0,
        Report::Hazard => 1,
        Report::Mix => 2,
    };
    out.push(alloc, code)
}

/// Bytes, after their count.
pub fn write_octets(alloc: Global, octets: &Octets, out: &mut Octets) -> Result<(), NoMemory>
    requires { length octets.now < 2 ^ 16 }
    ensures ok { OnOk result (out.new ≡ out.old ++ octets_bytes octets.now) }
    ensures err { OnErr result (Keeps out.old out.new) }
{
    write_short(alloc, octets.len() as u16, out)?;
    out.extend_from_slice(alloc, octets.as_slice())
}

/// A branch of a transaction.
pub fn write_child(alloc: Global, child: &Child, out: &mut Octets) -> Result<(), NoMemory>
    ensures ok { OnOk result (out.new ≡ out.old ++ child_bytes child.now) }
    ensures err { OnErr result (Keeps out.old out.new) }
{
    write_addr(alloc, &child.addr, out)?;
    write_branch(alloc, &child.branch, out)
}
