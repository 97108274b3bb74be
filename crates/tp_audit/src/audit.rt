//! The judge of the logs that were added.
ghost use Rattle.std.specs.Prelude.{◌≡◌, ◌+◌, ◌^◌, ◌<◌, ◌≤◌, ◌++◌, List};
ghost use Rattle.indexmap.specs.IndexMap.{index_map_len};
ghost use Rattle.tp_logrec.specs.Order.{Life};
ghost use Rattle.tp_audit.specs.Entries.{Entry, entries_at};
ghost use Rattle.tp_audit.specs.Summaries.{summaries};
ghost use Rattle.tp_audit.specs.Ledgers.{IsLedgerOf};

use crate::fate::Fate;
use crate::fates::fates_in;
use crate::faults::AddFault;
use crate::keys::SiteKey;
use crate::ledger::Ledger;
use crate::mismatch::Mismatch;
use crate::mismatches::mismatches_in;
use crate::roots::RootCommits;
use crate::site_told::SiteTold;
use crate::summary::{Summary, summaries};
use crate::verdict::Verdict;
use indexmap::IndexMap;
use std::alloc::Global;
use std::collections::HashMap;
use std::marker::Model;
use tp_journal::first_out_of_order;
use tp_logrec::{LogRec, LogVersion, Owner};
use tp_names::{Addr, NoMemory, SiteName};
use tp_site::Recalled;

/// The logs of several sites, each added once and whole. It keeps nothing of a key that is at its end but, once for each tree,
/// the first nodes that ended by commit and by rollback.
#[derive(Drop)]
pub struct Audit {
    sites: HashMap<SiteKey, SiteTold>,
    ledger: Ledger,
}

impl Model for Audit {
    ghost use Rattle.tp_audit.specs.Audits.{Audit as AuditValue};

    ghost Value = { AuditValue };

    ghost view = { λ a. record { sites = a.sites.entries; ledger = a.ledger } };
}

impl Audit {
    ghost use Rattle.std.specs.Prelude.{◌≡◌, ◌↔◌, ℕ, [], true, false, List, Err, IfOk, OnOk, OnErr};
    ghost use Rattle.tp_logrec.specs.Order.{all_follow};
    ghost use Rattle.tp_journal.specs.Disorder.{IsFirstOutOfOrder};
    ghost use Rattle.std.specs.Prelude.{Some};
    ghost use Rattle.tp_audit.specs.declared.faults.AddFault.{AddFault as TheFault};
    ghost use Rattle.tp_audit.specs.Entries.{SiteLog, keys_of};
    ghost use Rattle.tp_audit.specs.Verdicts.{verdict};
    ghost use Rattle.tp_audit.specs.Fates.{fates};
    ghost use Rattle.tp_audit.specs.Mismatches.{mismatches_of};
    ghost use Rattle.tp_audit.specs.Audits.{IsAuditOf, is_added, with_log};

    /// No logs.
    pub fn new(alloc: Global) -> Audit
        ensures { IsAuditOf [] result }
    {
        Audit {
            sites: HashMap::new(alloc),
            ledger: Ledger::new(alloc),
        }
    }

    /// Adds the log of a site, oldest record first. A site whose log was added before is refused, and then a list of which a
    /// record may not follow those before it, at the first one. Each time the logs are those that were added before.
    pub fn add(&mut self, alloc: Global, site: &SiteName, list: &[LogRec]) -> Result<(), AddFault>
        ensures ok { OnOk result ((logs : List SiteLog) → IsAuditOf logs self.old → IsAuditOf (with_log logs site.now list.now) self.new) }
        ensures ordered { OnOk result (all_follow list.now ≡ true) }
        // Promise 9.1: `add` answers Twice exactly where the site's log was added before, which
        //   `contains` tells
        ensures twice { (logs : List SiteLog) → IsAuditOf logs self.old → (result ≡ Err TheFault.Twice) ↔ (is_added logs site.now ≡ true) }
        ensures disorder { (i : ℕ) → result ≡ Err (TheFault.Disorder i) → IsFirstOutOfOrder list.now (Some i) }
        // Promise 9.3: After a refusal, and without memory, the logs are those from before
        ensures err { OnErr result ((logs : List SiteLog) → IsAuditOf logs self.old → IsAuditOf logs self.new) }
    {
        if self.contains(site) {
            return Err(AddFault::Twice);
        }
        if let Some(index) = first_out_of_order(alloc, list)? {
            return Err(AddFault::Disorder { index });
        }
        self.add_in_order(alloc, site, list)?;
        Ok(())
    }

    // Promise 9.1, part 2
    /// The log of that site was added.
    pub fn contains(&self, site: &SiteName) -> bool
        ensures { (logs : List SiteLog) → IsAuditOf logs self.now → result ≡ is_added logs site.now }
    {
        self.sites.contains_key(&SiteKey { name: *site })
    }

    /// As `add`, for a list whose records are known to follow each other, and a site whose log was not added. Neither is tested.
    pub fn add_in_order(
        &mut self,
        alloc: Global,
        site: &SiteName,
        list: &[LogRec],
    ) -> Result<(), NoMemory>
        requires { all_follow list.now ≡ true }
        ensures ok { OnOk result ((logs : List SiteLog) → is_added logs site.now ≡ false → IsAuditOf logs self.old
            → IsAuditOf (with_log logs site.now list.now) self.new) }
        // Promise 9.3, part 2
        ensures err { OnErr result ((logs : List SiteLog) → IsAuditOf logs self.old → IsAuditOf logs self.new) }
    {
        let keys = summaries(alloc, list)?;
        self.add_keys(alloc, site, list, &keys)
    }

    // The same, with what is known of the keys of the list.
    fn add_keys(
        &mut self,
        alloc: Global,
        site: &SiteName,
        list: &[LogRec],
        keys: &IndexMap<Owner, Summary>,
    ) -> Result<(), NoMemory>
        requires { keys.now.entries ≡ summaries (keys_of list.now) }
        ensures ok { OnOk result ((logs : List SiteLog) → is_added logs site.now ≡ false → IsAuditOf logs self.old
            → IsAuditOf (with_log logs site.now list.now) self.new) }
        ensures err { OnErr result ((logs : List SiteLog) → IsAuditOf logs self.old → IsAuditOf logs self.new) }
    {
        let recalled = Recalled::from_records(alloc, *site, LogVersion::Two, list)?;
        let roots = RootCommits::in_log(alloc, list)?;
        self.ledger.reserve(keys.len())?;
        self.sites
            .insert(SiteKey { name: *site }, SiteTold { recalled, roots })?;
        enter_all(&mut self.ledger, site, keys);
        Ok(())
    }

    // Promise 9.4: The verdict is yes exactly where no two keys of one tree, each without a
    //   decision of its node's own, ended apart; else it names the node of the first key that
    //   clashes with a later one, and that of the first later one with which it clashes
    /// Whether two nodes of one tree ended apart, but for such as took a decision of their own; and the first that clashes with
    /// a later one, and the first later one with which it clashes. All records count, those before an End too.
    pub fn verdict(&self) -> Verdict
        ensures { (logs : List SiteLog) → IsAuditOf logs self.now → result ≡ verdict logs }
    {
        self.ledger.verdict()
    }

    // Promise 9.5: Each node whose last record of a key is a Ready or a Heuristic has a fate: what
    //   the superior's node answers once its site has started on its log, where it does not refuse
    //   who asks (11.13); unknown, of a key without a branch; or that this log was not added
    /// What awaits each node that is in doubt, in the order of the logs and of the first records of the keys.
    pub fn fates(&self, alloc: Global) -> Result<Vec<Fate>, NoMemory>
        ensures { IfOk result (λ found. (logs : List SiteLog) → IsAuditOf logs self.now → found.items ≡ fates logs) }
    {
        fates_in(alloc, &self.sites, self.ledger.doubts())
    }

    // Promise 9.11 [tp_audit/specs/Mismatches.antt]: Once the lines are written, logs that do not
    //   belong together are named exactly where the fate of a node is `unknown`, a node committed
    //   in its tree and took no decision of its own, and the log of the root's site was added and
    //   has no Commit of the root; else none are
    /// The logs that do not belong together, by the fates: one mismatch for each fate that is `Unknown`, in their order, where a node
    /// committed in its tree and the log of the root's site was added and has no Commit of the root.
    pub fn mismatches(&self, alloc: Global, fates: &[Fate]) -> Result<Vec<Mismatch>, NoMemory>
        ensures { IfOk result (λ found. (logs : List SiteLog) → IsAuditOf logs self.now → found.items ≡ mismatches_of logs fates.now) }
    {
        mismatches_in(alloc, &self.sites, &self.ledger, fates)
    }
}

// Enters the keys of a site's log.
fn enter_all(ledger: &mut Ledger, site: &SiteName, keys: &IndexMap<Owner, Summary>)
    requires room { index_map_len keys.now ≤ ledger.old.room }
    requires numbers { ledger.old.count + index_map_len keys.now < 2 ^ 64 }
    ensures { (es : List Entry) (ls : List Life) → IsLedgerOf es ledger.old → keys.now.entries ≡ summaries ls
        → IsLedgerOf (es ++ entries_at site.now ls) ledger.new }
{
    for (owner, summary) in keys.iter() {
        let node = Addr {
            site: *site,
            node: owner.node,
        };
        ledger.enter(&node, &owner.key, summary);
    }
}
