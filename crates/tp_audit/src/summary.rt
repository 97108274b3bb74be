//! What the records of one key tell a judge.
ghost use Rattle.std.specs.Prelude.{◌≡◌, ◌||◌, IfOk, []};
ghost use Rattle.tp_audit.specs.Entries.{keys_of};
ghost use Rattle.tp_audit.specs.Verdicts.{is_rollback};
ghost use Rattle.tp_audit.specs.Doubts.{superior_by};
ghost use Rattle.tp_audit.specs.Summaries.{summary_of, summary_by, settled_by, doubted_by, summaries};

use indexmap::IndexMap;
use std::alloc::Global;
use tp_logrec::{LogRec, Owner};
use tp_names::{Addr, NoMemory, Outcome};

/// What the records of one key tell, however many they are.
#[derive(Clone, Copy)]
pub(crate) struct Summary {
    // some record is a Commit, an End or a Damage with rollback, a Heuristic
    committed: bool,
    rolled_back: bool,
    decided: bool,
    // the last record is a Ready or a Heuristic
    doubtful: bool,
    // the one in the last Ready
    superior: Option<Addr>,
}

impl Summary {
    /// That of no records.
    pub(crate) fn new() -> Summary
        ensures { result ≡ summary_of [] }
    {
        Summary {
            committed: false,
            rolled_back: false,
            decided: false,
            doubtful: false,
            superior: None,
        }
    }

    /// That of one record more.
    pub(crate) fn with(&self, rec: &LogRec) -> Summary
        ensures { result ≡ summary_by self.now rec.now }
    {
        Summary {
            committed: self.committed || rec.is_commit(),
            rolled_back: self.rolled_back || is_rollback(rec),
            decided: self.decided || rec.is_heuristic(),
            doubtful: rec.is_ready() || rec.is_heuristic(),
            superior: superior_after(self.superior, rec),
        }
    }

    /// How the key ended, where its node took no decision of its own.
    pub(crate) fn settled(&self) -> Option<Outcome>
        ensures { result ≡ settled_by self.now }
    {
        if self.decided {
            None
        } else if self.committed {
            Some(Outcome::Commit)
        } else if self.rolled_back {
            Some(Outcome::Rollback)
        } else {
            None
        }
    }

    /// The superior of whom a node that is in doubt is to ask.
    pub(crate) fn doubted(&self) -> Option<Addr>
        ensures { result ≡ doubted_by self.now }
    {
        if self.doubtful { self.superior } else { None }
    }
}

fn is_rollback(rec: &LogRec) -> bool
    ensures { result ≡ is_rollback rec.now }
{
    match rec {
        LogRec::Damage { side: outcome, .. } | LogRec::End { outcome, .. } => {
            *outcome == Outcome::Rollback
        }
        _ => false,
    }
}

fn superior_after(before: Option<Addr>, rec: &LogRec) -> Option<Addr>
    ensures { result ≡ superior_by before rec.now }
{
    match rec {
        LogRec::Ready { superior, .. } => Some(*superior),
        _ => before,
    }
}

/// The keys of a log in the order of their first records, with what their records tell.
pub(crate) fn summaries(
    alloc: Global,
    list: &[LogRec],
) -> Result<IndexMap<Owner, Summary>, NoMemory>
    ensures { IfOk result (λ keys. keys.entries ≡ summaries (keys_of list.now)) }
{
    let mut keys: IndexMap<Owner, Summary> = IndexMap::new(alloc);
    for rec in list {
        let Some(owner) = rec.owner() else {
            continue;
        };
        if let Some(summary) = keys.get_mut(&owner) {
            *summary = summary.with(rec);
            continue;
        }
        keys.insert(owner, Summary::new().with(rec))?;
    }
    Ok(keys)
}
