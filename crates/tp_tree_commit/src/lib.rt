//! The commitment of one tree of nodes on one page, and the three sentences that hold in every run of it.
//!
//! The page is `specs/TreeCommit`. Each law is the contract of a function with an empty body.
#![tactic(auto)]

ghost use Rattle.tp_tree_commit.specs.TreeCommit.{Tree, Reached, KeepsSentences};
ghost use Rattle.tp_tree_commit.specs.Ends.{FiveAtMost, RunsAreCounted};
ghost use Rattle.tp_tree_commit.specs.Examples.{EndsTogether, EndsApart};
ghost use Rattle.tp_tree_commit.specs.Walks.{Walks};

// Promise 24.2 [tp_tree_commit/specs/TreeCommit.antt]: **The page keeps three sentences by
//   itself**: of two nodes that are told different outcomes at least one decided on its own, since
//   where one committed none rolled back; where the root completes with no report, so does every
//   node that did not leave, and its user was told to commit; and where nobody rolled back or
//   decided to, and no node can go on, every node that did not leave has completed so, and there
//   alone
/// In every run of the page: of two nodes that are told different outcomes at least one decided on its own, since where one committed none
/// rolled back; where the root's commitment is complete with no report, so is that of every node that did not leave, and its user was told
/// to commit; and where nothing failed and no node can do more than roll back or decide, and there alone, every node that did not leave has
/// completed so.
pub fn the_page_keeps_its_sentences()
    ensures { (s : Tree) → Reached s → KeepsSentences s }
{}

// Promise 24.7 [tp_tree_commit/specs/Ends.antt]: A run of the page that leads to a tree has at most
//   five times as many steps as that tree has nodes, so no run goes on for ever once no more nodes
//   enter
/// Each node of the page acts at most five times, so a run of the page that leads to a tree has at most five times as many steps
/// as that tree has nodes, and none goes on for ever once no more nodes enter.
pub fn each_node_acts_at_most_five_times()
    ensures most { FiveAtMost }
    ensures counted { RunsAreCounted }
{}

/// Several steps of the page lead from a tree that a run of the page reaches to one that it reaches.
pub fn steps_stay_on_the_page()
    ensures { (s t : Tree) → Reached s → Walks s t → Reached t }
{}

// Promise 24.6 [tp_tree_commit/specs/Examples.antt]: On the page a root and its branch may both
//   complete with no report; and one may be told commit and the other rollback, where the branch
//   decided
/// A root and its branch may both complete their commitment with no report; and one may be told commit and the other rollback, where the
/// branch decided on its own: sentence 1 cannot say more.
pub fn two_nodes_end_together_or_apart()
    ensures together { EndsTogether }
    ensures apart { EndsApart }
{}
