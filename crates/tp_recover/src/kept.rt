//! What a kept transaction says and does.
ghost use Rattle.std.specs.Prelude.{◌≡◌, ◌++◌, IfOk, OnOk};
ghost use Rattle.tp_model.specs.Recovery.{owed, ask_owed, tell_superior, settled, refused_kept, without_owed, forget_to, rec_of_done};
ghost use Rattle.tp_model.specs.Refusal.{IsRefusedAs};
ghost use Rattle.tp_recover.specs.Kept.{is_owed, done_step};

use std::alloc::Global;
use tp_logrec::LogRec;
use tp_model::{Kept, KeptEvent, Refusal, Step, TxFault, TxOut, TxOuts};
use tp_names::same::is_branch;
use tp_names::{Aaid, Addr, BranchId, Child, Children, NoMemory, NodeKey, Outcome, Report};
use tp_records::{PeerRecord, RecState};

// The question whether a branch is done.
fn question_to(aaid: &Aaid, child: &Child) -> TxOut
    ensures { result ≡ TxOut.Recovery child.now.addr (PeerRecord.RecCommit aaid.now child.now.branch) }
{
    TxOut::Recovery {
        to: child.addr,
        rec: PeerRecord::RecCommit {
            aaid: *aaid,
            branch: child.branch,
        },
    }
}

// Each branch that is owed is asked again.
fn ask_owed(
    alloc: Global,
    aaid: &Aaid,
    children: &[Child],
    outs: &mut TxOuts,
) -> Result<(), NoMemory>
    ensures { OnOk result (outs.new ≡ outs.old ++ ask_owed aaid.now children.now) }
{
    for child in children {
        outs.push(alloc, question_to(aaid, child))?;
    }
    Ok(())
}

// The superior is told again, until it forgets.
fn tell_superior(alloc: Global, kept: &Kept, outs: &mut TxOuts) -> Result<(), NoMemory>
    ensures { OnOk result (outs.new ≡ outs.old ++ tell_superior kept.now) }
{
    if kept.forgot {
        return Ok(());
    }
    let (Some(branch), Some(to)) = (kept.key.branch, kept.superior) else {
        return Ok(());
    };
    let rec = PeerRecord::RecReply {
        aaid: kept.key.aaid,
        branch,
        state: RecState::Done(kept.report),
    };
    outs.push(alloc, TxOut::Recovery { to, rec })
}

// Promise 10.8, part 2
/// What a retry of a kept transaction says: the branches that are owed are asked again, and the
/// superior is told again, until it forgets. One with side rollback says nothing.
#[tactic(auto, unfolding(tp_model::specs::Recovery::owed))]
pub fn owed(alloc: Global, kept: &Kept) -> Result<TxOuts, NoMemory>
    ensures { IfOk result (λ outs. outs ≡ owed kept.now) }
{
    let mut outs = TxOuts::new(alloc);
    if kept.side == Outcome::Commit {
        ask_owed(alloc, &kept.key.aaid, kept.owed.as_slice(), &mut outs)?;
        tell_superior(alloc, kept, &mut outs)?;
    }
    Ok(outs)
}

// The children without the first that has the branch.
fn without_owed(alloc: Global, children: &[Child], branch: &BranchId) -> Result<Children, NoMemory>
    ensures { IfOk result (λ rest. rest ≡ without_owed children.now branch.now) }
{
    let mut rest = Children::new(alloc);
    for i in 0..children.len() {
        if is_branch(&children[i].branch, branch) {
            rest.extend_from_slice(alloc, &children[i + 1..])?;
            return Ok(rest);
        }
        rest.push(alloc, children[i])?;
    }
    Ok(rest)
}

fn is_owed(children: &[Child], branch: &BranchId) -> bool
    ensures { result ≡ is_owed children.now branch.now }
{
    for child in children {
        if is_branch(&child.branch, branch) {
            return true;
        }
    }
    false
}

// The record after which a branch that was owed is done: the end where nothing is owed any more and
// the superior has forgotten, else a damage that owes it no more.
fn rec_of_done(
    alloc: Global,
    kept: &Kept,
    branch: &BranchId,
    report: Report,
) -> Result<LogRec, NoMemory>
    ensures { IfOk result (λ rec. rec ≡ rec_of_done kept.now branch.now report) }
{
    let owed = without_owed(alloc, kept.owed.as_slice(), branch)?;
    if owed.is_empty() && kept.forgot {
        return Ok(end_of(kept));
    }
    Ok(LogRec::Damage {
        node: kept.node,
        key: kept.key,
        superior: kept.superior,
        side: kept.side,
        report: kept.report.join(report),
        owed,
    })
}

fn end_of(kept: &Kept) -> LogRec
    ensures { result ≡ LogRec.End kept.now.node kept.now.key kept.now.side }
{
    LogRec::End {
        node: kept.node,
        key: kept.key,
        outcome: kept.side,
    }
}

/// The sender of a report may forget it.
pub fn forget_to(
    alloc: Global,
    to: Addr,
    key: &NodeKey,
    branch: BranchId,
    report: Report,
) -> Result<TxOuts, NoMemory>
    ensures { IfOk result (λ outs. outs ≡ forget_to to key.now branch report) }
{
    let mut outs = TxOuts::new(alloc);
    if report != Report::None {
        let rec = PeerRecord::Forget {
            aaid: key.aaid,
            branch,
        };
        outs.push(alloc, TxOut::Recovery { to, rec })?;
    }
    Ok(outs)
}

// A branch says that it is done.
fn done(
    alloc: Global,
    kept: &Kept,
    from: Addr,
    branch: BranchId,
    report: Report,
) -> Result<Step, NoMemory>
    ensures { IfOk result (λ step. step ≡ done_step kept.now from branch report) }
{
    let outs = forget_to(alloc, from, &kept.key, branch, report)?;
    if !is_owed(kept.owed.as_slice(), &branch) {
        return Ok(Step { rec: None, outs });
    }
    let rec = Some(rec_of_done(alloc, kept, &branch, report)?);
    Ok(Step { rec, outs })
}

// Promise 10.8, part 4
/// Why an event of a kept transaction is refused: a purge, exactly where a branch is owed, or the side is commit and the
/// transaction is not a root's; nothing else is refused. It takes no memory.
pub fn refused(kept: &Kept, event: &KeptEvent) -> Option<Refusal>
    ensures { result ≡ refused_kept kept.now event.now }
{
    match event {
        KeptEvent::Done { .. } | KeptEvent::Forget => None,
        KeptEvent::Purge => {
            let is_waited_for = kept.side == Outcome::Commit && kept.key.branch.is_some();
            Refusal::first(&[(!kept.owed.is_empty() || is_waited_for, Refusal::StillOwed)])
        }
    }
}

// Promise 10.8, part 5
/// What an event of a kept transaction asks for: at most one record, and outputs. Nothing is refused here. That a Forget
/// is noted where a branch is owed stands in no record.
#[tactic(auto, unfolding(tp_model::specs::Recovery::settled))]
pub fn step(alloc: Global, kept: &Kept, event: &KeptEvent) -> Result<Step, NoMemory>
    ensures { IfOk result (λ step. step ≡ settled kept.now event.now) }
{
    match event {
        KeptEvent::Done {
            from,
            branch,
            report,
        } => done(alloc, kept, *from, *branch, *report),
        KeptEvent::Forget => {
            let is_over = kept.side == Outcome::Commit && kept.owed.is_empty();
            Ok(Step {
                rec: if is_over { Some(end_of(kept)) } else { None },
                outs: TxOuts::new(alloc),
            })
        }
        KeptEvent::Purge => Ok(Step {
            rec: Some(end_of(kept)),
            outs: TxOuts::new(alloc),
        }),
    }
}

// Promise 10.8, part 3
/// What an event of a kept transaction asks for, or the number by which it is refused.
pub fn settle(alloc: Global, kept: &Kept, event: &KeptEvent) -> Result<Step, TxFault>
    ensures step { IfOk result (λ step. step ≡ settled kept.now event.now) }
    ensures refused { IsRefusedAs result (refused_kept kept.now event.now) }
{
    if let Some(refusal) = refused(kept, event) {
        return Err(TxFault::Refused(refusal.number()));
    }
    Ok(step(alloc, kept, event)?)
}
