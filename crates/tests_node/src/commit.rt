//! What no clause says: the answers with ample memory, with numbers from worked examples.
ghost use Rattle.std.specs.Prelude.{IsTrue, IfSome};
ghost use Rattle.tp_commit.specs.Branch.{tells_transaction};

use crate::values::{child, mark, named};
use std::alloc::Global;
use tp_commit::Branch;
use tp_logrec::LogRec;
use tp_model::{Phase, Step, TxEvent, TxFault, TxOut};
use tp_names::{Aaid, Addr, BranchId, Children, NodeKey};
use tp_records::{DialogueRecord, Indication, PeerRecord, Request};

// The root of the tree a.1.1.2.
fn key() -> Option<NodeKey> {
    let owner = named(b"a")?;
    let mark = mark(2);
    Some(NodeKey {
        aaid: Aaid { owner, mark },
        branch: None,
    })
}

// Its one branch.
fn children(alloc: Global) -> Option<Children> {
    let mut children = Children::new(alloc);
    children.push(alloc, child()?).ok()?;
    Some(children)
}

fn begun(alloc: Global) -> Option<Branch> {
    let aaid = key()?.aaid;
    let key = NodeKey { aaid, branch: None };
    Branch::begin(alloc, 1, key, None).ok()
}

// The root's transaction with its one branch.
fn root(alloc: Global) -> Option<Branch> {
    let arcs = children(alloc)?;
    let mut root = begun(alloc)?;
    if root.branches() == 0 && arcs.len() == 1 {
        root.apply(&TxEvent::Begun { arcs }).ok()?;
    }
    Some(root)
}

fn planned(alloc: Global, root: &Branch, event: &TxEvent) -> Result<Step, TxFault> {
    root.plan(alloc, event)
}

// It orders the root's commitment.
fn is_order(rec: &Option<LogRec>) -> bool {
    matches!(
        rec,
        Some(LogRec::Commit {
            node: 1,
            superior: None,
            ..
        })
    )
}

// What is said to the branch: `P`, to prepare, or `C`, to commit.
fn said(rec: &DialogueRecord) -> u8 {
    match rec {
        DialogueRecord::Prepare => b'P',
        DialogueRecord::Commit => b'C',
        _ => b'?',
    }
}

// What the user is told: `r`, that the branch is ready, or `c`, to commit.
fn told(indication: &Indication) -> u8 {
    match indication {
        Indication::Ready { peer: 2 } => b'r',
        Indication::Commit => b'c',
        _ => b'?',
    }
}

// The order is given once more.
fn ordered_again(rec: &PeerRecord) -> u8 {
    if matches!(rec, PeerRecord::RecCommit { .. }) {
        b'O'
    } else {
        b'?'
    }
}

fn letter(out: &TxOut) -> u8 {
    match out {
        TxOut::Carry { arc: 2, rec } => said(rec),
        TxOut::Tell(indication) => told(indication),
        TxOut::Recovery { rec, .. } => ordered_again(rec),
        _ => b'?',
    }
}

// Whether the outputs have those letters.
fn are(outs: &[TxOut], letters: &[u8]) -> bool {
    for (out, wanted) in outs.iter().zip(letters) {
        if letter(out) != *wanted {
            return false;
        }
    }
    outs.len() == letters.len()
}

// Whether an event asks for those outputs, with the record that orders the root's commitment or with none.
fn asks(alloc: Global, root: &Branch, event: &TxEvent, orders: bool, letters: &[u8]) -> bool {
    match planned(alloc, root, event) {
        Ok(step) => {
            is_order(&step.rec) == orders
                && step.rec.is_some() == orders
                && are(step.outs.as_slice(), letters)
        }
        Err(_) => false,
    }
}

#[test]
fn a_root_asks(rt: HostRuntime) {
    let Some(root) = root(rt.alloc()) else {
        panic!(rt; "no memory")
    };
    assert!(rt; root.branches() == 1);
    assert!(rt; root.phase() == Phase::Active);
    let event = TxEvent::User(Request::Commit);
    assert!(rt; asks(rt.alloc(), &root, &event, false, b"P"));
}

// The root after its user asked to commit.
fn asked(alloc: Global) -> Option<Branch> {
    let mut root = root(alloc)?;
    if root.branches() <= 1 {
        root.apply(&TxEvent::User(Request::Commit)).ok()?;
    }
    Some(root)
}

#[test]
fn a_root_orders(rt: HostRuntime) {
    let Some(root) = asked(rt.alloc()) else {
        panic!(rt; "no memory")
    };
    let rec = DialogueRecord::Ready;
    let event = TxEvent::Took { arc: 2, rec };
    assert!(rt; asks(rt.alloc(), &root, &event, true, b"rCc"));
}

// The root's commitment, as the log tells it.
fn ordered(alloc: Global) -> Option<LogRec>
    ensures { IfSome result (λ rec. IsTrue (tells_transaction rec)) }
{
    let aaid = key()?.aaid;
    let children = children(alloc)?;
    Some(LogRec::Commit {
        node: 1,
        key: NodeKey { aaid, branch: None },
        superior: None,
        children,
    })
}

fn found_again(alloc: Global) -> Option<Branch> {
    let rec = ordered(alloc)?;
    Branch::again(alloc, &rec, None).ok()
}

// The address of that branch.
fn branch_at(root: &Branch, branch: &BranchId) -> Option<Addr> {
    root.child(branch)
}

fn has_child(root: &Branch) -> Option<bool> {
    let child = child()?;
    Some(branch_at(root, &child.branch)? == child.addr)
}

// The number by which an event is refused.
fn refusal(alloc: Global, root: &Branch, event: &TxEvent) -> Option<u8> {
    match planned(alloc, root, event) {
        Err(TxFault::Refused(number)) => Some(number),
        _ => None,
    }
}

#[test]
fn a_commitment_found_in_the_log(rt: HostRuntime) {
    let Some(root) = found_again(rt.alloc()) else {
        panic!(rt; "no memory")
    };
    assert!(rt; matches!(has_child(&root), Some(true)));
    assert!(rt; asks(rt.alloc(), &root, &TxEvent::Retry, false, b"cO"));
    let number = refusal(rt.alloc(), &root, &TxEvent::User(Request::Commit));
    assert!(rt; matches!(number, Some(2)));
}

// A copy with that branch once more.
fn copied(alloc: Global, root: &Branch) -> Option<Branch> {
    let child = child()?;
    let mut copy = root.copy(alloc).ok()?;
    copy.add(&child).ok()?;
    Some(copy)
}

#[test]
fn a_copy_with_one_branch_more(rt: HostRuntime) {
    let Some(root) = root(rt.alloc()) else {
        panic!(rt; "no memory")
    };
    let Some(copy) = copied(rt.alloc(), &root) else {
        panic!(rt; "no memory")
    };
    assert!(rt; root.branches() == 1);
    assert!(rt; copy.branches() == 2);
    assert!(rt; !copy.has_asked() && !copy.owes());
}

// The letters of what a step asks for.
fn step_asks(alloc: Global, root: &Branch, event: &TxEvent, letters: &[u8]) -> bool {
    match root.step(alloc, event) {
        Ok(step) => are(step.outs.as_slice(), letters),
        Err(_) => false,
    }
}

#[test]
fn a_step_is_taken_that_is_not_refused(rt: HostRuntime) {
    let Some(root) = root(rt.alloc()) else {
        panic!(rt; "no memory")
    };
    assert!(rt; root.refused(&TxEvent::Retry).is_none());
    let event = TxEvent::User(Request::Commit);
    assert!(rt; step_asks(rt.alloc(), &root, &event, b"P"));
}
