//! The rules of the order, over what they read of a list.
ghost use Rattle.std.specs.Prelude.{◌≡◌};
ghost use Rattle.std.specs.Option.{option_copied};
ghost use Rattle.tp_logrec.specs.Order.{holds, is_ready, is_heuristic, is_as_ready, is_ready_of, has_superior, may_owe, is_decision, may_end, is_new, may_commit, may_damage, may_follow};
ghost use Rattle.tp_logrec.specs.Seen.{before_of};

use crate::LogRec;
use crate::same::{are_among, are_children};
use tp_names::same::is_addr_option;
use tp_names::{Addr, Child, NodeKey, Outcome, Report};

/// What the rules read of a list for a record of one key.
#[derive(Clone, Copy)]
pub(crate) struct Seen<'a> {
    pub(crate) begun: bool,
    pub(crate) boot: u64,
    pub(crate) free: bool,
    pub(crate) last: Option<&'a LogRec>,
    pub(crate) ready: Option<&'a LogRec>,
}

/// The Ready has this superior and these children.
fn is_as_ready(superior: &Option<Addr>, children: &[Child], ready: Option<&LogRec>) -> bool
    ensures { result ≡ holds (option_copied ready.entry) (is_as_ready superior.now children.now) }
{
    match ready {
        Some(
            LogRec::Ready {
                superior: had,
                children: those,
                ..
            },
        ) => { is_addr_option(superior, &Some(*had)) && are_children(children, those.as_slice()) }
        _ => false,
    }
}

/// A damage of this key may have this superior.
fn has_superior(key: &NodeKey, superior: &Option<Addr>, ready: Option<&LogRec>) -> bool
    ensures { result ≡ has_superior key.now superior.now (option_copied ready.entry) }
{
    if key.branch.is_none() {
        return superior.is_none();
    }
    match ready {
        Some(LogRec::Ready { superior: had, .. }) => is_addr_option(superior, &Some(*had)),
        _ => false,
    }
}

/// These children may be owed after the record.
fn may_owe(owed: &[Child], last: Option<&LogRec>) -> bool
    ensures { result ≡ holds (option_copied last.entry) (may_owe owed.now) }
{
    match last {
        Some(LogRec::Commit { children, .. }) => are_among(owed, children.as_slice()),
        Some(
            LogRec::Damage {
                side: Outcome::Commit,
                owed: owing,
                ..
            },
        ) => are_among(owed, owing.as_slice()),
        _ => false,
    }
}

fn decided_commit(last: Option<&LogRec>) -> bool
    ensures { result ≡ holds (option_copied last.entry) (is_decision Outcome.Commit) }
{
    matches!(
        last,
        Some(LogRec::Heuristic {
            outcome: Outcome::Commit,
            ..
        })
    )
}

/// An End with that outcome may stand after the record.
fn may_end(outcome: Outcome, last: Option<&LogRec>) -> bool
    ensures { result ≡ holds (option_copied last.entry) (may_end outcome) }
{
    match (outcome, last) {
        (Outcome::Commit, Some(LogRec::Commit { .. })) => true,
        (
            Outcome::Commit,
            Some(
                LogRec::Damage {
                    side: Outcome::Commit,
                    ..
                },
            ),
        ) => true,
        (Outcome::Rollback, Some(LogRec::Ready { .. })) => true,
        (
            Outcome::Rollback,
            Some(
                LogRec::Heuristic {
                    outcome: Outcome::Rollback,
                    ..
                },
            ),
        ) => true,
        (
            Outcome::Rollback,
            Some(
                LogRec::Damage {
                    side: Outcome::Rollback,
                    ..
                },
            ),
        ) => true,
        _ => false,
    }
}

impl Seen<'_> {
    fn is_new(&self) -> bool
        ensures { result ≡ is_new (before_of self.now) }
    {
        self.free && self.last.is_none()
    }

    fn is_after_ready(&self) -> bool
        ensures { result ≡ holds (before_of self.now).last is_ready }
    {
        matches!(self.last, Some(LogRec::Ready { .. }))
    }

    fn is_after_heuristic(&self) -> bool
        ensures { result ≡ holds (before_of self.now).last is_heuristic }
    {
        matches!(self.last, Some(LogRec::Heuristic { .. }))
    }

    fn may_commit(&self, key: &NodeKey, superior: &Option<Addr>, children: &[Child]) -> bool
        ensures { result ≡ may_commit (before_of self.now) key.now superior.now children.now }
    {
        if key.branch.is_none() {
            return self.is_new() && key.aaid.mark.boot <= self.boot;
        }
        (self.is_after_ready() || self.is_after_heuristic())
            && is_as_ready(superior, children, self.ready)
    }

    fn may_damage(
        &self,
        key: &NodeKey,
        superior: &Option<Addr>,
        side: Outcome,
        report: Report,
        owed: &[Child],
    ) -> bool
        ensures { result ≡ may_damage (before_of self.now) key.now superior.now side report owed.now }
    {
        match side {
            Outcome::Commit => may_owe(owed, self.last) && has_superior(key, superior, self.ready),
            Outcome::Rollback => {
                decided_commit(self.last)
                    && report == Report::Mix
                    && owed.is_empty()
                    && has_superior(key, superior, self.ready)
            }
        }
    }

    /// What the rules say of a record of the key.
    pub(crate) fn may_follow(&self, next: &LogRec) -> bool
        ensures { result ≡ may_follow (before_of self.now) next.now }
    {
        if !self.begun {
            return false;
        }
        match next {
            LogRec::Boot { .. } => false,
            LogRec::Ready { .. } => self.is_new(),
            LogRec::Heuristic { .. } => self.is_after_ready(),
            LogRec::Commit {
                key,
                superior,
                children,
                ..
            } => { self.may_commit(key, superior, children.as_slice()) }
            LogRec::Damage {
                key,
                superior,
                side,
                report,
                owed,
                ..
            } => { self.may_damage(key, superior, *side, *report, owed.as_slice()) }
            LogRec::End { outcome, .. } => may_end(*outcome, self.last),
        }
    }
}
