//! The log of one site, read on a disk of its own.
ghost use Rattle.std.specs.Prelude.{ℕ, ◌≡◌, false, List, IfErr, OnOk};
ghost use Rattle.tp_model.specs.LogCommands.{opened};
ghost use Rattle.tp_log_tools.specs.Readings.{IsFile};
ghost use Rattle.tp_audit.specs.Audits.{IsAuditOf, is_added};
ghost use Rattle.tp_audit.specs.Entries.{SiteLog};
ghost use Rattle.tp_audit_tool.specs.Audited.{IsOfInput};
ghost use Rattle.tp_audit_tool.specs.Adding.{Adds, IsRefused, refusal_of};

use std::alloc::Global;
use tp_audit::Audit;
use tp_log_tools::open_log;
use tp_names::{Octets, SiteName};
use tp_outside::MemDisk;
use tp_streams::Stop;

// Why a log on a disk in memory is not read: such a disk fails where there is no memory.
fn refusal_of(stop: Stop) -> Stop
    ensures value { result ≡ refusal_of stop }
    ensures kind { (number : ℕ) → IsOfInput number result }
{
    match stop {
        Stop::Foreign { at } => Stop::Foreign { at },
        _ => Stop::NoMemory,
    }
}

/// Reads the bytes of a site's log, and adds it to the others.
pub(crate) fn add_log(
    alloc: Global,
    audit: &mut Audit,
    site: &SiteName,
    bytes: Octets,
) -> Result<(), Stop>
    ensures ok { IsFile bytes → OnOk result
        ((logs : List SiteLog) → is_added logs site.now ≡ false → IsAuditOf logs audit.old → Adds logs site.now (opened bytes) audit.new) }
    ensures err { IsFile bytes → IfErr result (IsRefused (opened bytes)) }
    ensures kinds { (number : ℕ) → IfErr result (IsOfInput number) }
{
    let journal = match open_log(alloc, MemDisk::from(alloc, bytes)) {
        Ok(journal) => journal,
        Err((_disk, stop)) => return Err(refusal_of(stop)),
    };
    audit.add_in_order(alloc, site, journal.list())?;
    Ok(())
}
