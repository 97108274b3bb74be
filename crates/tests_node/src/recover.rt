//! What no clause says: the answers with ample memory, with numbers from worked examples.
use crate::values::{child, mark, named};
use std::alloc::Global;
use tp_logrec::LogRec;
use tp_model::{Kept, KeptEvent, Known, Phase, Question, Step, TxFault};
use tp_names::{Aaid, Children, NodeKey, Outcome, Report};
use tp_records::RecState;
use tp_recover::{answer, owed, settle};

// What is owed by the branch a.1.1.3 at node 2 of site b, where it owes.
fn owed_by(alloc: Global, owes: bool) -> Option<Children> {
    let mut owed = Children::new(alloc);
    if owes {
        owed.push(alloc, child()?).ok()?;
    }
    Some(owed)
}

// The root a.1.1.2, which gave up its one branch.
fn given_up(alloc: Global, owes: bool) -> Option<Kept> {
    let owner = named(b"a")?;
    let mark = mark(2);
    Some(Kept {
        node: 1,
        key: NodeKey {
            aaid: Aaid { owner, mark },
            branch: None,
        },
        superior: None,
        side: Outcome::Commit,
        report: Report::Hazard,
        owed: owed_by(alloc, owes)?,
        forgot: false,
    })
}

fn settled(alloc: Global, kept: &Kept, event: &KeptEvent) -> Result<Step, TxFault> {
    settle(alloc, kept, event)
}

// The number by which an event is refused.
fn refusal(alloc: Global, kept: &Kept, event: &KeptEvent) -> Option<u8> {
    match settled(alloc, kept, event) {
        Err(TxFault::Refused(number)) => Some(number),
        _ => None,
    }
}

// The branch is done, with no report.
fn done() -> Option<KeptEvent> {
    let child = child()?;
    Some(KeptEvent::Done {
        from: child.addr,
        branch: child.branch,
        report: Report::None,
    })
}

// How many outputs ask for what is owed.
fn owed_count(alloc: Global, kept: &Kept) -> Option<usize> {
    Some(owed(alloc, kept).ok()?.as_slice().len())
}

#[test]
fn a_branch_that_was_given_up_owes(rt: HostRuntime) {
    let Some(kept) = given_up(rt.alloc(), true) else {
        panic!(rt; "no memory")
    };
    assert!(rt; matches!(owed_count(rt.alloc(), &kept), Some(1)));
    let number = refusal(rt.alloc(), &kept, &KeptEvent::Purge);
    assert!(rt; matches!(number, Some(15)));
}

// The hazard stands, and nothing is owed.
fn is_damage(rec: &Option<LogRec>) -> bool {
    match rec {
        Some(LogRec::Damage { report, owed, .. }) => *report == Report::Hazard && owed.is_empty(),
        _ => false,
    }
}

// Whether its being done is recorded, with no output.
fn is_recorded(alloc: Global) -> Option<bool> {
    let kept = given_up(alloc, true)?;
    let step = settled(alloc, &kept, &done()?).ok()?;
    Some(step.outs.as_slice().is_empty() && is_damage(&step.rec))
}

#[test]
fn a_branch_that_was_given_up_is_done(rt: HostRuntime) {
    assert!(rt; matches!(is_recorded(rt.alloc()), Some(true)));
}

// Whether a purge ends what is kept, where nothing is owed.
fn ends(alloc: Global) -> Option<bool> {
    let kept = given_up(alloc, false)?;
    let step = settled(alloc, &kept, &KeptEvent::Purge).ok()?;
    Some(matches!(&step.rec, Some(LogRec::End { .. })))
}

#[test]
fn a_purge_ends_what_owes_nothing(rt: HostRuntime) {
    assert!(rt; matches!(ends(rt.alloc()), Some(true)));
}

// A transaction with that phase, of which the branch that is asked about is one, or that is kept with damage.
fn known(phase: Phase, branch: bool, is_kept: bool) -> Known {
    let kept = if is_kept {
        Some((Outcome::Commit, Report::Mix))
    } else {
        None
    };
    Known {
        phase,
        branch,
        kept,
    }
}

fn of_ready(phase: Phase, branch: bool, is_kept: bool) -> Option<RecState> {
    answer(known(phase, branch, is_kept), Question::RecReady)
}

fn of_commit(phase: Phase, is_kept: bool) -> Option<RecState> {
    answer(known(phase, false, is_kept), Question::RecCommit)
}

#[test]
fn a_ready_branch_is_answered(rt: HostRuntime) {
    let state = of_ready(Phase::Nil, false, false);
    assert!(rt; matches!(state, Some(RecState::Unknown)));
    let state = of_ready(Phase::Nil, false, true);
    assert!(rt; matches!(state, Some(RecState::Commit)));
    let state = of_ready(Phase::Ready, true, false);
    assert!(rt; matches!(state, Some(RecState::RetryLater)));
    let state = of_ready(Phase::Rolling, true, false);
    assert!(rt; matches!(state, Some(RecState::Unknown)));
}

#[test]
fn an_order_is_answered(rt: HostRuntime) {
    let state = of_commit(Phase::Nil, false);
    assert!(rt; matches!(state, Some(RecState::Done(Report::None))));
    let state = of_commit(Phase::Nil, true);
    assert!(rt; matches!(state, Some(RecState::Done(Report::Mix))));
    let state = of_commit(Phase::Committing, false);
    assert!(rt; matches!(state, Some(RecState::RetryLater)));
    assert!(rt; of_commit(Phase::Ready, false).is_none());
}
