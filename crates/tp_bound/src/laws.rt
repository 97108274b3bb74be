//! Laws of the store, each as the contract of a function that does nothing.
ghost use Rattle.std.specs.Prelude.{◌≡◌, ◌<◌, ◌^◌, ℕ, List, [], length, Some, None};
ghost use Rattle.tp_names.specs.Grammar.{IsGrammar};
ghost use Rattle.tp_bound.specs.declared.write.Write.{Write};
ghost use Rattle.tp_bound.specs.Bodies.{body_grammar};
ghost use Rattle.tp_bound.specs.Content.{Content, Ascends, value_of, put, without, made};
ghost use Rattle.tp_journal.specs.Log.{StandsFor};
ghost use Rattle.tp_bound.specs.declared.store.Store.{Store};
ghost use Rattle.tp_bound.specs.Stores.{empty, opened, Stands, OpensTo};
ghost use Rattle.tp_bound.specs.Says.{Speaker};
ghost use Rattle.tp_bound.specs.Kept.{Heard, kept, HearsAll};
ghost use Rattle.tp_bound.specs.Branches.{committed, all_written, OfBranches};

use tp_journal::a_log_stands_for_one_list;

// Promise 8.5: A text has one body, and what is read is one
/// The texts of bodies: a text has one body, what is read is a text, and no text is a proper prefix of another.
pub fn bodies_have_texts()
    ensures { IsGrammar body_grammar }
{}

// Promise 8.6: Where the keys are in order, a write gives its key a value or takes it out, leaves
//   every other key as it was, and keeps them in order
/// A write gives its key a value, or takes it out, and leaves every other key as it was; the keys stay in order.
pub fn a_write_changes_its_key_alone()
    ensures put { (c : Content) (k v : List ℕ) → value_of (put c k v) k ≡ Some v }
    ensures put_leaves { (c : Content) (k v q : List ℕ) → (q ≡ k → ⊥) → value_of (put c k v) q ≡ value_of c q }
    ensures without { (c : Content) (k : List ℕ) → Ascends c → value_of (without c k) k ≡ None }
    ensures without_leaves { (c : Content) (k q : List ℕ) → (q ≡ k → ⊥) → value_of (without c k) q ≡ value_of c q }
    ensures ascends { (c : Content) (ws : List Write) → Ascends c → Ascends (made c ws) }
{}

// Promise 8.7: No file of fewer than 2^64 bytes opens to two contents, nor to two stores
/// No file of fewer than 2^64 bytes opens to two contents, nor to two stores: a store that is opened again over the same bytes
/// holds what it held.
pub fn a_file_opens_to_one_content()
    ensures contents { (file : List ℕ) (a b : Content) → length file < 2 ^ 64 → OpensTo a file → OpensTo b file → a ≡ b }
    ensures stores { (file : List ℕ) (xs ys : List (List ℕ)) (s t : Store) → length file < 2 ^ 64
        → StandsFor file xs → opened xs ≡ Stands s → StandsFor file ys → opened ys ≡ Stands t → s ≡ t }
{
    a_log_stands_for_one_list();
}

// Promise 8.12: After every list of indications that a store heard from being empty on, without a
//   fault of the disk, its content is what was kept of them
/// After every list of indications that a store heard from being empty on, in which the disk did not fail, and between which the
/// store may have been opened again, it holds what was kept of them: the writes of each transaction that was told commit after
/// its vote for it, in order.
pub fn the_content_is_what_was_kept()
    ensures { (first last : Speaker) (hs : List Heard) → first.store ≡ empty → first.current ≡ None → HearsAll first hs last → last.store.content ≡ kept hs }
{}

// Promise 8.13: Where a store hears indications from being empty on, without a fault of the disk,
//   and each `commit` is told to a branch after its vote, its content is the writes of exactly the
//   branches that were told `commit`, each once, in order
/// Where each commit is told to a branch after its vote, the store holds the writes of exactly the branches that were told
/// commit, each once, in the order in which they began: after every list of indications that it heard from being empty on, in
/// which the disk did not fail, and between which the store may have been opened again.
pub fn the_content_is_of_the_committed_branches()
    ensures { (first last : Speaker) (hs : List Heard) → first.store ≡ empty → first.current ≡ None → HearsAll first hs last → OfBranches hs
        → last.store.content ≡ made [] (all_written (committed hs)) }
{}
