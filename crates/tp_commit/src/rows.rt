//! The branches of a transaction, in the order in which they were begun.
ghost use Rattle.std.specs.Prelude.{◌≡◌, ◌++◌, IfOk, OnOk, option_copied};
ghost use Rattle.tp_model.specs.Transactions.{find_row, find_row_by_id, all_settled, all_done, all_rolled_back, all_left, all_prepared, children_of, owed_of, reports_of, report_of_branch, carry_down, forgets, ends_down, prepare_each, ask_each, is_waited_for};
ghost use Rattle.tp_commit.specs.Row.{noted_at, record_of};
ghost use Rattle.tp_commit.specs.Branch.{standing_rows};
ghost use Rattle.tp_commit.specs.RowList.{ends_below};
ghost use Rattle.tp_commit.specs.Waiting.{is_beside, is_owing, waits_beside, owes_beside, with_counted, with_ended};
ghost use Rattle.tp_model.specs.Node.{branches_of};

use crate::row::{Note, Row};
use std::alloc::Global;
use tp_model::{TxOut, TxOuts};
use tp_names::same::is_branch;
use tp_names::{Aaid, BranchId, Children, NoMemory, Outcome, Report};
use tp_records::{DialogueRecord, PeerRecord};

/// The first branch with that peer.
pub(crate) fn find(rows: &[Row], peer: u16) -> Option<&Row>
    ensures { option_copied result ≡ find_row rows.now peer }
{
    for row in rows {
        if row.peer.node == peer {
            return Some(row);
        }
    }
    None
}

/// The number is above that of the last branch's peer, where there is one.
pub(crate) fn ends_below(rows: &[Row], peer: u16) -> bool
    ensures { result ≡ ends_below rows.now peer }
{
    match rows.last() {
        None => true,
        Some(row) => row.peer.node < peer,
    }
}

/// The first branch with that identifier.
pub(crate) fn find_by_id(rows: &[Row], branch: &BranchId) -> Option<Row>
    ensures { result ≡ find_row_by_id rows.now branch.now }
{
    for row in rows {
        if is_branch(&row.id, branch) {
            return Some(*row);
        }
    }
    None
}

/// Each branch is counted or left.
pub(crate) fn all_settled(rows: &[Row]) -> bool
    ensures { result ≡ all_settled rows.now }
{
    for row in rows {
        if !(row.counted || row.left) {
            return false;
        }
    }
    true
}

/// Each branch is done, left or given up.
pub(crate) fn all_done(rows: &[Row]) -> bool
    ensures { result ≡ all_done rows.now }
{
    for row in rows {
        if !(row.ended || row.left || row.given_up) {
            return false;
        }
    }
    true
}

/// Each branch has rolled back or left, or its arc is gone.
pub(crate) fn all_rolled_back(rows: &[Row]) -> bool
    ensures { result ≡ all_rolled_back rows.now }
{
    for row in rows {
        if !(row.ended || row.left || !row.live) {
            return false;
        }
    }
    true
}

/// Each branch has left.
pub(crate) fn all_left(rows: &[Row]) -> bool
    ensures { result ≡ all_left rows.now }
{
    for row in rows {
        if !row.left {
            return false;
        }
    }
    true
}

// The branch is with another peer, and neither counted nor left.
fn waits_at(row: &Row, peer: u16) -> bool
    ensures { result ≡ is_beside is_waited_for peer row.now.branch }
{
    row.peer.node != peer && !(row.counted || row.left)
}

// The branch is with another peer, and neither done, left nor given up.
fn owes_at(row: &Row, peer: u16) -> bool
    ensures { result ≡ is_beside is_owing peer row.now.branch }
{
    row.peer.node != peer && !(row.ended || row.left || row.given_up)
}

/// A branch with another peer is neither counted nor left. The last one is looked at first: branches answer in their order more
/// often than not.
pub(crate) fn waits_beside(rows: &[Row], peer: u16) -> bool
    ensures { result ≡ waits_beside (branches_of rows.now) peer }
{
    if let Some(row) = rows.last() {
        if waits_at(row, peer) {
            return true;
        }
    }
    for row in rows {
        if waits_at(row, peer) {
            return true;
        }
    }
    false
}

/// A branch with another peer is neither done, left nor given up. The last one is looked at first.
pub(crate) fn owes_beside(rows: &[Row], peer: u16) -> bool
    ensures { result ≡ owes_beside (branches_of rows.now) peer }
{
    if let Some(row) = rows.last() {
        if owes_at(row, peer) {
            return true;
        }
    }
    for row in rows {
        if owes_at(row, peer) {
            return true;
        }
    }
    false
}

/// Notes it on the first branch with that peer.
pub(crate) fn note_at(rows: &mut [Row], peer: u16, note: Note)
    ensures { rows.new ≡ noted_at rows.old peer note }
{
    for row in rows.iter_mut() {
        if row.peer.node == peer {
            row.note(note);
            return;
        }
    }
}

/// Prepare has been sent on each branch.
pub(crate) fn prepare_all(rows: &mut [Row])
    ensures { rows.new ≡ all_prepared rows.old }
{
    for row in rows.iter_mut() {
        row.note(Note::Prepared);
    }
}

/// How the branches stand after an event.
pub(crate) fn stand(rows: &mut [Row], rolls: bool)
    ensures { rows.new ≡ standing_rows rolls rows.old }
{
    for row in rows.iter_mut() {
        row.stand(rolls);
    }
}

/// The branches that did not leave.
#[inline(always)]
pub(crate) fn children_of(alloc: Global, rows: &[Row]) -> Result<Children, NoMemory>
    ensures { IfOk result (λ children. children ≡ children_of rows.now) }
{
    let mut children = Children::new(alloc);
    for row in rows {
        if !row.left {
            children.push(alloc, row.child())?;
        }
    }
    Ok(children)
}

/// Those that are not done either.
pub(crate) fn owed_of(alloc: Global, rows: &[Row]) -> Result<Children, NoMemory>
    ensures { IfOk result (λ children. children ≡ owed_of rows.now) }
{
    let mut children = Children::new(alloc);
    for row in rows {
        if !(row.left || row.ended) {
            children.push(alloc, row.child())?;
        }
    }
    Ok(children)
}

/// The reports taken, and hazard for each branch given up.
#[tactic(auto, using(crate::proofs::Reports::join_assoc))]
pub(crate) fn reports_of(rows: &[Row]) -> Report
    ensures { result ≡ reports_of rows.now }
{
    let mut joined = Report::None;
    for row in rows {
        joined = joined.join(row.report_of_branch());
    }
    joined
}

// How an outcome is passed on.
fn record_of(outcome: Outcome) -> DialogueRecord
    ensures { result ≡ record_of outcome }
{
    match outcome {
        Outcome::Commit => DialogueRecord::Commit,
        Outcome::Rollback => DialogueRecord::Rollback,
    }
}

/// The outcome goes out on each live branch that did not leave.
pub(crate) fn carry_down(
    alloc: Global,
    rows: &[Row],
    outcome: Outcome,
    outs: &mut TxOuts,
) -> Result<(), NoMemory>
    ensures { OnOk result (outs.new ≡ outs.old ++ carry_down rows.now (record_of outcome)) }
{
    for row in rows {
        if row.live && !row.left {
            outs.push(
                alloc,
                TxOut::Carry {
                    arc: row.peer.node,
                    rec: record_of(outcome),
                },
            )?;
        }
    }
    Ok(())
}

/// A branch whose done carried a report may forget it.
pub(crate) fn forgets(
    alloc: Global,
    aaid: &Aaid,
    rows: &[Row],
    outs: &mut TxOuts,
) -> Result<(), NoMemory>
    ensures { OnOk result (outs.new ≡ outs.old ++ forgets aaid.now rows.now) }
{
    for row in rows {
        if row.report != Report::None {
            let rec = PeerRecord::Forget {
                aaid: *aaid,
                branch: row.id,
            };
            outs.push(alloc, TxOut::Recovery { to: row.peer, rec })?;
        }
    }
    Ok(())
}

/// Arcs with a deferred end close.
pub(crate) fn ends_down(alloc: Global, rows: &[Row], outs: &mut TxOuts) -> Result<(), NoMemory>
    ensures { OnOk result (outs.new ≡ outs.old ++ ends_down rows.now) }
{
    for row in rows {
        if row.ends {
            outs.push(alloc, TxOut::Close { arc: row.peer.node })?;
        }
    }
    Ok(())
}

/// Prepare goes out on each branch on which it did not yet.
pub(crate) fn prepare_each(alloc: Global, rows: &[Row], outs: &mut TxOuts) -> Result<(), NoMemory>
    ensures { OnOk result (outs.new ≡ outs.old ++ prepare_each rows.now) }
{
    for row in rows {
        if !row.prepared {
            outs.push(
                alloc,
                TxOut::Carry {
                    arc: row.peer.node,
                    rec: DialogueRecord::Prepare,
                },
            )?;
        }
    }
    Ok(())
}

/// Each branch that is neither done, left nor given up is asked again.
pub(crate) fn ask_each(
    alloc: Global,
    aaid: &Aaid,
    rows: &[Row],
    outs: &mut TxOuts,
) -> Result<(), NoMemory>
    ensures { OnOk result (outs.new ≡ outs.old ++ ask_each aaid.now rows.now) }
{
    for row in rows {
        if !(row.ended || row.left || row.given_up) {
            let rec = PeerRecord::RecCommit {
                aaid: *aaid,
                branch: row.id,
            };
            outs.push(alloc, TxOut::Recovery { to: row.peer, rec })?;
        }
    }
    Ok(())
}
