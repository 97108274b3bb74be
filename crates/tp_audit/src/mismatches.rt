//! Which of the logs do not belong together, by the fates of nodes in doubt.
ghost use Rattle.std.specs.Prelude.{◌≡◌, IfOk};
ghost use Rattle.tp_audit.specs.Mismatches.{is_unknown};
ghost use Rattle.tp_audit.specs.Audits.{lacks_in, mismatch_in, mismatches_in};

use crate::fate::{Fate, FateState};
use crate::keys::SiteKey;
use crate::ledger::Ledger;
use crate::mismatch::Mismatch;
use crate::site_told::SiteTold;
use std::alloc::Global;
use std::collections::HashMap;
use tp_names::{Aaid, NoMemory};

fn is_unknown(state: FateState) -> bool
    ensures { result ≡ is_unknown state }
{
    matches!(state, FateState::Unknown)
}

// The log of the root's site was added, and has no Commit of the root.
fn lacks_root_commit(sites: &HashMap<SiteKey, SiteTold>, aaid: &Aaid) -> bool
    ensures { result ≡ lacks_in sites.now.entries aaid.now }
{
    let site = SiteKey { name: aaid.owner };
    match sites.get(&site) {
        None => false,
        Some(told) => !told.roots.contains(aaid),
    }
}

fn mismatch_in(sites: &HashMap<SiteKey, SiteTold>, ledger: &Ledger, fate: &Fate) -> Option<Mismatch>
    ensures { result ≡ mismatch_in sites.now.entries ledger.now fate.now }
{
    let aaid = fate.key.aaid;
    if !is_unknown(fate.state) || !lacks_root_commit(sites, &aaid) {
        return None;
    }
    let committed = ledger.committed(&aaid)?;
    Some(Mismatch {
        aaid,
        committed,
        doubtful: fate.node,
    })
}

/// The mismatch of each fate that shows one, in order.
pub(crate) fn mismatches_in(
    alloc: Global,
    sites: &HashMap<SiteKey, SiteTold>,
    ledger: &Ledger,
    fates: &[Fate],
) -> Result<Vec<Mismatch>, NoMemory>
    ensures { IfOk result (λ found. found.items ≡ mismatches_in sites.now.entries ledger.now fates.now) }
{
    let mut found = Vec::new(alloc);
    for fate in fates {
        if let Some(mismatch) = mismatch_in(sites, ledger, fate) {
            found.push(mismatch)?;
        }
    }
    Ok(found)
}
