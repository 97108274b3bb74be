//! Laws of stores at the nodes of a run: what the promises of the service say of data that is bound to its transactions. Each is
//! the contract of a function with an empty body.
#![tactic(auto)]

ghost use Rattle.std.specs.Prelude.{◌≡◌, true, List};
ghost use Rattle.tp_model.specs.World.{Node};
ghost use Rattle.tp_model.specs.Happenings.{Happening, run};
ghost use Rattle.tp_bound.specs.Kept.{Heard, HearsAll};
ghost use Rattle.tp_stores.specs.Stores.{all_told, heard_of, IsHeardAt, is_branch_alone, StoresAgree};
ghost use Rattle.tp_stores.specs.Served.{IsServedAt, AreOfBranches, HoldsItsBranches, CountsCommits};
ghost use Rattle.tp_stores.specs.StoreTrials.{commits, rolls_back, holds, commits_there, rolls_back_there, writes_and_commits, its_talk, at_first, at_last, IsSoThere};

// Promise 8.14: In every run no two stores of one tree disagree about its transaction: where one
//   has committed a branch of the tree, no other was told that its branch rolls back, if both
//   follow their nodes and neither's node starts transactions of its own
/// In every run, no two stores of one tree disagree about its transaction. Where one store, at a node that starts no transaction
/// of its own, counts a branch of the tree among the committed, no other such store was told that its branch of that tree rolls
/// back. Each is to have heard what its node's user was told. It holds whatever the stores answered, however often they were
/// opened again, and whatever their nodes decided.
pub fn stores_agree()
    ensures { (es : List Happening) → StoresAgree (run es) }
{}

/// A store that heard each indication that the user of its node was told is one that this law speaks of.
pub fn all_that_is_told_is_heard()
    ensures { (x : Node) (hs : List Heard) → heard_of hs ≡ all_told x.history → IsHeardAt x hs }
{}

/// In every run, a store that was empty at first and heard what the user of its node was told, at a node that starts no
/// transaction of its own, whose user asks for commitment only where the store has voted for it, has the writes of exactly the
/// branches that its node was told to commit, each once, in the order in which they began: each commit is told to a branch after
/// its vote, and those that the store counts are those that were told. It holds however often the store was opened again, while
/// its disk does not fail.
pub fn a_store_holds_its_branches()
    // Promise 8.15 [clauses of_branches holds]: In every run the content of a store that was empty
    //   at first and follows its node is the writes of exactly the branches that it counts as
    //   committed, each once, in order, at a node that starts no transaction of its own, whose user
    //   asks for commitment only where the store has voted for it, while the disk does not fail
    ensures of_branches { (es : List Happening) → AreOfBranches (run es) }
    ensures holds { (es : List Happening) → HoldsItsBranches (run es) }
    // Promise 8.16: In every run, at a node that starts no transaction of its own, a store that
    //   follows it counts a branch only where the node was told `commit` in its tree, and wherever
    //   it was, if the store heard all that the node's user was told
    ensures counts { (es : List Happening) → CountsCommits (run es) }
    ensures agree { (x : Node) (hs : List Heard) → IsServedAt x hs → IsHeardAt x hs }
{}

/// Its premises can be met, and what it speaks of happens: at a branch of a pair that commits a store has committed, at one of a
/// pair that rolls back it was told so, and neither branch starts a transaction of its own.
pub fn a_branch_commits_or_rolls_back()
    ensures commits { holds commits_there commits ≡ true }
    ensures alone { holds is_branch_alone commits ≡ true }
    ensures rolls_back { holds rolls_back_there rolls_back ≡ true }
    ensures alone_too { holds is_branch_alone rolls_back ≡ true }
{}

/// So can those of a store that its node's user goes by: a branch of a pair is given a write, its store votes for commit and the
/// user asks for it, and once the commit is told the store holds what was written.
pub fn a_branch_writes_and_commits()
    ensures alone { holds is_branch_alone writes_and_commits ≡ true }
    ensures served { IsSoThere (λ x. IsServedAt x its_talk) writes_and_commits }
    ensures hears { HearsAll at_first its_talk at_last }
{}
