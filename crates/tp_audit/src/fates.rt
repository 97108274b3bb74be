//! What the logs of their superiors' sites tell the nodes that are in doubt.
ghost use Rattle.std.specs.Prelude.{◌≡◌, Some, IfOk};
ghost use Rattle.tp_audit.specs.Fates.{state_by};
ghost use Rattle.tp_audit.specs.Audits.{state_in, fate_in, fates_in};

use crate::fate::{Fate, FateState};
use crate::keys::SiteKey;
use crate::ledger::Doubt;
use crate::site_told::SiteTold;
use std::alloc::Global;
use std::collections::HashMap;
use tp_names::{Addr, NoMemory, NodeKey};
use tp_records::RecState;

fn state_by(state: RecState) -> FateState
    ensures { result ≡ state_by (Some state) }
{
    match state {
        RecState::Commit => FateState::Commit,
        RecState::RetryLater => FateState::RetryLater,
        RecState::Done(_) | RecState::Unknown => FateState::Unknown,
    }
}

// What the superior's log tells a node that is in doubt of the key.
fn state_in(sites: &HashMap<SiteKey, SiteTold>, superior: &Addr, key: &NodeKey) -> FateState
    ensures { result ≡ state_in sites.now.entries superior.now key.now }
{
    let site = SiteKey {
        name: superior.site,
    };
    let Some(told) = sites.get(&site) else {
        return FateState::Absent;
    };
    match &key.branch {
        None => FateState::Unknown,
        Some(branch) => state_by(told.recalled.answer(superior.node, &key.aaid, branch)),
    }
}

fn fate_in(sites: &HashMap<SiteKey, SiteTold>, doubt: &Doubt) -> Fate
    ensures { result ≡ fate_in sites.now.entries doubt.now }
{
    Fate {
        node: doubt.node,
        key: doubt.key,
        state: state_in(sites, &doubt.superior, &doubt.key),
    }
}

/// The fate of each node in doubt, in order.
pub(crate) fn fates_in(
    alloc: Global,
    sites: &HashMap<SiteKey, SiteTold>,
    doubts: &[Doubt],
) -> Result<Vec<Fate>, NoMemory>
    ensures { IfOk result (λ fates. fates.items ≡ fates_in sites.now.entries doubts.now) }
{
    let mut fates = Vec::new(alloc);
    for doubt in doubts {
        fates.push(fate_in(sites, doubt))?;
    }
    Ok(fates)
}
