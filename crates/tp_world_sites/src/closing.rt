//! The lines that close a transcript.
ghost use Rattle.std.specs.Prelude.{◌≡◌, ◌++◌, ◌∷◌, [], IfOk, OnOk, OnErr};
ghost use Rattle.tp_names.specs.declared.identifiers.Aaid.{Aaid as AaidValue};
ghost use Rattle.tp_network.specs.TreeOutcomes.{outcomes_in, outcomes_at};
ghost use Rattle.tp_world_sites.specs.Told.{decides_in, deciders_at, line_by, closing_at};

use crate::shown::placed;
use std::alloc::Global;
use tp_model::{NodeNumbers, OutLine, OutLines};
use tp_names::{Aaid, NoMemory, Outcome};
use tp_network::{NodeSlot, OutcomesByTree, TreeOutcomes, TreeSummary};

// A node of the tree that logged a decision.
fn decides(summary: &TreeSummary) -> bool
    ensures { result ≡ decides_in summary.now }
{
    summary.member && summary.decision.is_some()
}

// Those that logged a decision, ascending.
fn deciders(alloc: Global, tree: &Aaid, nodes: &[NodeSlot]) -> Result<NodeNumbers, NoMemory>
    ensures { IfOk result (λ numbers. numbers ≡ deciders_at tree.now nodes.now) }
{
    let mut numbers = NodeNumbers::new(alloc);
    let mut i = nodes.len();
    while i > 0 {
        i -= 1;
        let summary = nodes[i].summaries.summary(tree);
        if decides(&summary) {
            numbers = placed(alloc, nodes[i].addr.node, &numbers)?;
        }
    }
    Ok(numbers)
}

// The line of a tree whose staying nodes were told that comes after the others.
fn close_tree(
    alloc: Global,
    tree: &Aaid,
    outcomes: TreeOutcomes,
    nodes: &[NodeSlot],
    lines: &mut OutLines,
) -> Result<(), NoMemory>
    ensures shown { OnOk result (lines.new ≡ lines.old ++ line_by tree.now nodes.now outcomes ∷ []) }
    ensures same { OnErr result (lines.new ≡ lines.old) }
{
    let aaid = *tree;
    if outcomes.some_committed && outcomes.some_rolled_back {
        let by = deciders(alloc, tree, nodes)?;
        return lines.push(alloc, OutLine::Mixed { aaid, by });
    }
    let outcome = match (outcomes.all_committed, outcomes.all_rolled_back) {
        (true, _) => Outcome::Commit,
        (false, true) => Outcome::Rollback,
        (false, false) => return lines.push(alloc, OutLine::Open { aaid }),
    };
    lines.push(alloc, OutLine::Agreed { aaid, outcome })
}

// One line for each of the trees.
fn lines_of(
    alloc: Global,
    trees: &[Aaid],
    all: &OutcomesByTree,
    nodes: &[NodeSlot],
) -> Result<OutLines, NoMemory>
    ensures { ((t : AaidValue) → outcomes_in all.now t ≡ outcomes_at nodes.now t) → IfOk result (λ lines. lines ≡ closing_at nodes.now trees.now) }
{
    let mut lines = OutLines::new(alloc);
    for i in 0..trees.len() {
        let tree = &trees[i];
        close_tree(alloc, tree, all.at(i, tree), nodes, &mut lines)?;
    }
    Ok(lines)
}

/// One line for each of the trees. What each node did in trees is looked at once.
pub fn closing_lines(
    alloc: Global,
    trees: &[Aaid],
    nodes: &[NodeSlot],
) -> Result<OutLines, NoMemory>
    ensures { IfOk result (λ lines. lines ≡ closing_at nodes.now trees.now) }
{
    let all = OutcomesByTree::of(alloc, nodes)?;
    lines_of(alloc, trees, &all, nodes)
}
