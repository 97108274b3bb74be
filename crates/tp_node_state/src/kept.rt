//! The kept transactions of a node: what a record of the log makes of them.
ghost use Rattle.std.specs.Prelude.{◌≡◌, ◌||◌, IfOk, OnOk, OnErr};
ghost use Rattle.std.specs.Option.{option_copied};
ghost use Rattle.tp_model.specs.Recovery.{is_commit, with_forget, noted, kept_by, put_kept, find_owed};
ghost use Rattle.tp_model.specs.declared.recovery.KeptEvent.{KeptEvent};
ghost use Rattle.tp_node_state.specs.Kept.{owes};

use crate::kept_table::KeptTable;
use std::alloc::Global;
use tp_logrec::LogRec;
use tp_model::Kept;
use tp_names::same::is_branch;
use tp_names::{BranchId, Child, Children, NoMemory, NodeKey, Outcome};

// Takes the place of the one with its key, whose Forget stays noted, or stands after the others.
#[tactic(auto, using(crate::proofs::KeptPlaces::put_new, crate::proofs::KeptPlaces::put_again))]
fn put(alloc: Global, kept: &mut KeptTable, next: Kept) -> Result<(), NoMemory>
    ensures put { OnOk result (kept.new ≡ put_kept kept.old next) }
    ensures same { OnErr result (kept.new ≡ kept.old) }
{
    let forgot = match kept.find(&next.key) {
        None => next.forgot,
        Some(one) => one.forgot,
    };
    kept.put(alloc, Kept { forgot, ..next })
}

fn copied(alloc: Global, children: &Children) -> Result<Children, NoMemory>
    ensures { IfOk result (λ copy. copy ≡ children.now) }
{
    let mut copy = Children::new(alloc);
    copy.extend_from_slice(alloc, children.as_slice())?;
    Ok(copy)
}

/// The first of the children that has the branch.
pub fn find_owed<'a>(children: &'a [Child], branch: &BranchId) -> Option<&'a Child>
    ensures { option_copied result ≡ find_owed children.now branch.now }
{
    for child in children {
        if is_branch(&child.branch, branch) {
            return Some(child);
        }
    }
    None
}

/// An equal one.
pub fn copy(alloc: Global, kept: &Kept) -> Result<Kept, NoMemory>
    ensures { IfOk result (λ copy. copy ≡ kept.now) }
{
    Ok(Kept {
        node: kept.node,
        key: kept.key,
        superior: kept.superior,
        side: kept.side,
        report: kept.report,
        owed: copied(alloc, &kept.owed)?,
        forgot: kept.forgot,
    })
}

// Forget is noted of it once one was taken, where it is a commitment.
fn is_forgotten(kept: &Kept) -> bool
    ensures { result ≡ (is_commit kept.now.side || kept.now.forgot) }
{
    kept.side == Outcome::Commit || kept.forgot
}

/// Forget is noted of the one with that key, where there is one and it is a commitment. Without memory nothing changes.
#[tactic(auto, using(crate::proofs::KeptPlaces::noted_not, crate::proofs::KeptPlaces::noted_there))]
pub fn note_forget(alloc: Global, kept: &mut KeptTable, key: &NodeKey) -> Result<(), NoMemory>
    ensures noted { OnOk result (kept.new ≡ with_forget kept.old key.now (λ x. noted x KeptEvent.Forget)) }
    ensures same { OnErr result (kept.new ≡ kept.old) }
{
    let Some(one) = kept.find(key) else {
        return Ok(());
    };
    let mut next = copy(alloc, one)?;
    next.forgot = is_forgotten(one);
    kept.put(alloc, next)
}

/// The branch is owed, where one is asked for.
pub(crate) fn owes(kept: &Kept, branch: &Option<BranchId>) -> bool
    ensures { result ≡ owes kept.now branch.now }
{
    match branch {
        None => true,
        Some(branch) => find_owed(kept.owed.as_slice(), branch).is_some(),
    }
}

/// What a record makes of the kept transactions: a Damage keeps its key, and an End lets it go. Without memory nothing changes.
#[tactic(auto, unfolding(tp_model::specs::Recovery::kept_by))]
pub fn keep(alloc: Global, kept: &mut KeptTable, rec: &LogRec) -> Result<(), NoMemory>
    ensures kept { OnOk result (kept.new ≡ kept_by rec.now kept.old) }
    ensures same { OnErr result (kept.new ≡ kept.old) }
{
    match rec {
        LogRec::Damage {
            node,
            key,
            superior,
            side,
            report,
            owed,
        } => put(
            alloc,
            kept,
            Kept {
                node: *node,
                key: *key,
                superior: *superior,
                side: *side,
                report: *report,
                owed: copied(alloc, owed)?,
                forgot: false,
            },
        ),
        LogRec::End { key, .. } => kept.remove(key),
        LogRec::Boot { .. }
        | LogRec::Ready { .. }
        | LogRec::Heuristic { .. }
        | LogRec::Commit { .. } => Ok(()),
    }
}
