//! One record of a log.
ghost use Rattle.std.specs.Prelude.{◌≡◌, ◌++◌, ◌∷◌, [], IfOk, OnOk, OnErr};
ghost use Rattle.tp_logrec.specs.Order.{owner_of, is_ready, is_heuristic, is_commit, is_damage, is_end, is_bound};

use crate::Owner;
use std::alloc::Global;
use tp_names::{Addr, Children, NoMemory, NodeKey, Outcome, Report};

/// How the texts of a log count children: in one byte, up to 32, or in two, up to 256.
#[derive(Clone, Copy, Debug, PartialEq, Eq)]
pub enum LogVersion {
    One,
    Two,
}

/// A record. All but `Boot` speak of one key of one node.
#[derive(Debug, Drop)]
pub enum LogRec {
    Boot {
        boot: u64,
    },
    Ready {
        node: u16,
        key: NodeKey,
        superior: Addr,
        children: Children,
    },
    Heuristic {
        node: u16,
        key: NodeKey,
        outcome: Outcome,
    },
    Commit {
        node: u16,
        key: NodeKey,
        superior: Option<Addr>,
        children: Children,
    },
    Damage {
        node: u16,
        key: NodeKey,
        superior: Option<Addr>,
        side: Outcome,
        report: Report,
        owed: Children,
    },
    End {
        node: u16,
        key: NodeKey,
        outcome: Outcome,
    },
}

impl LogRec {
    /// The key of which the record speaks.
    pub fn owner(&self) -> Option<Owner>
        ensures { result ≡ owner_of self.now }
    {
        match self {
            LogRec::Boot { .. } => None,
            LogRec::Ready { node, key, .. }
            | LogRec::Heuristic { node, key, .. }
            | LogRec::Commit { node, key, .. }
            | LogRec::Damage { node, key, .. }
            | LogRec::End { node, key, .. } => Some(Owner {
                node: *node,
                key: *key,
            }),
        }
    }

    pub fn is_ready(&self) -> bool
        ensures { result ≡ is_ready self.now }
    {
        matches!(self, LogRec::Ready { .. })
    }

    pub fn is_heuristic(&self) -> bool
        ensures { result ≡ is_heuristic self.now }
    {
        matches!(self, LogRec::Heuristic { .. })
    }

    pub fn is_commit(&self) -> bool
        ensures { result ≡ is_commit self.now }
    {
        matches!(self, LogRec::Commit { .. })
    }

    pub fn is_damage(&self) -> bool
        ensures { result ≡ is_damage self.now }
    {
        matches!(self, LogRec::Damage { .. })
    }

    pub fn is_end(&self) -> bool
        ensures { result ≡ is_end self.now }
    {
        matches!(self, LogRec::End { .. })
    }

    /// A record after which its key stays bound: Ready, Heuristic and Commit.
    pub fn is_bound(&self) -> bool
        ensures { result ≡ is_bound self.now }
    {
        matches!(
            self,
            LogRec::Ready { .. } | LogRec::Heuristic { .. } | LogRec::Commit { .. }
        )
    }

    /// An equal record.
    #[inline(always)]
    pub fn copy(&self, alloc: Global) -> Result<LogRec, NoMemory>
        ensures { IfOk result (λ copy. copy ≡ self.now) }
    {
        match self {
            LogRec::Boot { boot } => Ok(LogRec::Boot { boot: *boot }),
            LogRec::Ready {
                node,
                key,
                superior,
                children,
            } => copy_ready(alloc, *node, key, superior, children),
            LogRec::Heuristic { node, key, outcome } => copy_heuristic(*node, key, *outcome),
            LogRec::Commit {
                node,
                key,
                superior,
                children,
            } => copy_commit(alloc, *node, key, superior, children),
            LogRec::Damage {
                node,
                key,
                superior,
                side,
                report,
                owed,
            } => copy_damage(alloc, *node, key, superior, (*side, *report), owed),
            LogRec::End { node, key, outcome } => copy_end(*node, key, *outcome),
        }
    }
}

// The same children. None want no memory.
#[inline(always)]
fn copy_children(alloc: Global, children: &Children) -> Result<Children, NoMemory>
    ensures { IfOk result (λ copy. copy ≡ children.now) }
{
    if children.is_empty() {
        return Ok(Children::new(alloc));
    }
    Children::from_slice(alloc, children.as_slice())
}

// Each kind of record is made by a function of its own.
fn copy_ready(
    alloc: Global,
    node: u16,
    key: &NodeKey,
    superior: &Addr,
    children: &Children,
) -> Result<LogRec, NoMemory>
    ensures { IfOk result (λ copy. copy ≡ LogRec.Ready node key.now superior.now children.now) }
{
    let children = copy_children(alloc, children)?;
    Ok(LogRec::Ready {
        node,
        key: *key,
        superior: *superior,
        children,
    })
}

fn copy_heuristic(node: u16, key: &NodeKey, outcome: Outcome) -> Result<LogRec, NoMemory>
    ensures { IfOk result (λ copy. copy ≡ LogRec.Heuristic node key.now outcome) }
{
    Ok(LogRec::Heuristic {
        node,
        key: *key,
        outcome,
    })
}

fn copy_commit(
    alloc: Global,
    node: u16,
    key: &NodeKey,
    superior: &Option<Addr>,
    children: &Children,
) -> Result<LogRec, NoMemory>
    ensures { IfOk result (λ copy. copy ≡ LogRec.Commit node key.now superior.now children.now) }
{
    let children = copy_children(alloc, children)?;
    Ok(LogRec::Commit {
        node,
        key: *key,
        superior: *superior,
        children,
    })
}

fn copy_damage(
    alloc: Global,
    node: u16,
    key: &NodeKey,
    superior: &Option<Addr>,
    judgement: (Outcome, Report),
    owed: &Children,
) -> Result<LogRec, NoMemory>
    ensures { IfOk result (λ copy. copy ≡ LogRec.Damage node key.now superior.now judgement.0 judgement.1 owed.now) }
{
    let owed = copy_children(alloc, owed)?;
    Ok(LogRec::Damage {
        node,
        key: *key,
        superior: *superior,
        side: judgement.0,
        report: judgement.1,
        owed,
    })
}

fn copy_end(node: u16, key: &NodeKey, outcome: Outcome) -> Result<LogRec, NoMemory>
    ensures { IfOk result (λ copy. copy ≡ LogRec.End node key.now outcome) }
{
    Ok(LogRec::End {
        node,
        key: *key,
        outcome,
    })
}
