//! What a node did in a tree, and how an entry of its history changes that.
ghost use Rattle.std.specs.Prelude.{◌≡◌};
ghost use Rattle.std.specs.Option.{option_copied};
ghost use Rattle.tp_names.specs.declared.identifiers.Aaid.{Aaid as AaidValue};
ghost use Rattle.tp_network.specs.TreeSummary.{is_in, phase_in, is_commit_of, decision_in, tree_logged, stood_in, goes_on, has_rolled, no_summary, summary_after, told_by_summary, stays_in};

use tp_model::{LogWords, Phase};
use tp_names::same::is_aaid;
use tp_names::{Aaid, Outcome};
use tp_node::NodeTree;

/// What one node did in one tree, as the closing lines ask it.
#[derive(Clone, Copy)]
pub struct TreeSummary {
    /// The tree was its current one at some time.
    pub member: bool,
    /// It left.
    pub left: bool,
    /// Commit is logged.
    pub decided: bool,
    /// The decision that it logged by itself.
    pub decision: Option<Outcome>,
    /// It rolled.
    pub rolled: bool,
}

/// What an entry shows of trees: the node's tree before it and after it, whether its user left, and its record.
#[derive(Clone, Copy)]
pub struct TreeChange {
    pub before: Option<NodeTree>,
    pub after: Option<NodeTree>,
    pub leaves: bool,
    pub rec: Option<LogWords>,
}

impl TreeChange {
    /// Of an entry that shows nothing of trees.
    pub const NONE: TreeChange = TreeChange {
        before: None,
        after: None,
        leaves: false,
        rec: None,
    };
}

/// The tree is the current one.
pub fn is_in(tree: &Aaid, at: &Option<NodeTree>) -> bool
    ensures { result ≡ is_in tree.now at.now }
{
    match at {
        Some(at) => is_aaid(tree, &at.aaid),
        None => false,
    }
}

fn is_commit_of(tree: &Aaid, rec: &Option<LogWords>) -> bool
    ensures { result ≡ is_commit_of tree.now rec.now }
{
    match rec {
        Some(LogWords::Commit { key, .. }) => is_aaid(tree, &key.aaid),
        _ => false,
    }
}

fn decision_in(tree: &Aaid, rec: &Option<LogWords>) -> Option<Outcome>
    ensures { result ≡ decision_in tree.now rec.now }
{
    match rec {
        Some(LogWords::Heuristic { key, outcome, .. }) if is_aaid(tree, &key.aaid) => {
            Some(*outcome)
        }
        _ => None,
    }
}

/// The tree whose commitment, or decision, is logged.
pub(crate) fn tree_logged(rec: &Option<LogWords>) -> Option<&Aaid>
    ensures { option_copied result ≡ tree_logged rec.now }
{
    match rec {
        Some(LogWords::Commit { key, .. } | LogWords::Heuristic { key, .. }) => Some(&key.aaid),
        _ => None,
    }
}

/// The tree is the current one before the entry, or after it.
pub(crate) fn stood_in(tree: &Aaid, change: &TreeChange) -> bool
    ensures { result ≡ stood_in tree.now change.now }
{
    is_in(tree, &change.before) || is_in(tree, &change.after)
}

// The phase of a tree where it is the current one, else Nil.
fn phase_where(is_current: bool, at: &Option<NodeTree>) -> Phase
    ensures { (t : AaidValue) → is_in t at.now ≡ is_current → result ≡ phase_in t at.now }
{
    match at {
        Some(at) if is_current => at.phase,
        _ => Phase::Nil,
    }
}

// The tree is the current one after the entry too, at a root as a root and at a branch as a branch.
fn goes_on(is_after: bool, change: &TreeChange) -> bool
    ensures { (t : AaidValue) → is_in t change.now.after ≡ is_after → result ≡ goes_on t change.now.before change.now.after }
{
    match (&change.before, &change.after) {
        (Some(before), Some(after)) => is_after && before.is_root == after.is_root,
        _ => false,
    }
}

// It rolls after the entry; or it was active or ready, and is over without having left.
fn has_rolled(is_before: bool, is_after: bool, change: &TreeChange) -> bool
    ensures { (t : AaidValue) → is_in t change.now.before ≡ is_before → is_in t change.now.after ≡ is_after → result ≡ has_rolled t change.now }
{
    let before = phase_where(is_before, &change.before);
    let after = phase_where(is_after, &change.after);
    let is_open = matches!(before, Phase::Active | Phase::Ready);
    matches!(after, Phase::Rolling) || (is_open && !goes_on(is_after, change) && !change.leaves)
}

impl TreeSummary {
    /// That of a tree with which the node had nothing to do.
    pub const NONE: TreeSummary = TreeSummary {
        member: false,
        left: false,
        decided: false,
        decision: None,
        rolled: false,
    };

    // What it is after an entry, of a tree that is known to be the current one or not before the entry and after it.
    #[inline(always)]
    pub(crate) fn after_in(
        self,
        tree: &Aaid,
        is_before: bool,
        is_after: bool,
        change: &TreeChange,
    ) -> TreeSummary
        requires before { is_in tree.now change.now.before ≡ is_before }
        requires after { is_in tree.now change.now.after ≡ is_after }
        ensures { result ≡ summary_after tree.now change.now self }
    {
        TreeSummary {
            member: is_after || self.member,
            left: (is_before && change.leaves) || self.left,
            decided: is_commit_of(tree, &change.rec) || self.decided,
            decision: match decision_in(tree, &change.rec) {
                Some(outcome) => Some(outcome),
                None => self.decision,
            },
            rolled: has_rolled(is_before, is_after, change) || self.rolled,
        }
    }

    /// It is a node of the tree, and stays in it.
    pub fn stays(&self) -> bool
        ensures { result ≡ stays_in self.now }
    {
        self.member && !self.left
    }

    /// The outcome that the node was told.
    pub fn told(&self) -> Option<Outcome>
        ensures { result ≡ told_by_summary self.now }
    {
        match self.decision {
            Some(outcome) => Some(outcome),
            None if self.decided => Some(Outcome::Commit),
            None if self.rolled => Some(Outcome::Rollback),
            None => None,
        }
    }
}
