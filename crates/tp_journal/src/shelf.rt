//! What takes the bodies of a log one after the other as they are read, and says which may be one.
use std::alloc::AllocError;

pub trait Shelf {
    ghost use Rattle.std.specs.Prelude.{◌≡◌, ◌++◌, ◌∷◌, [], ℕ, List, IfOk, OnOk, OnErr};
    ghost use Rattle.tp_journal.specs.Log.{IsBody, place_behind};
    ghost use Rattle.tp_journal.specs.Foreign.{Grammar};
    ghost use Rattle.tp_journal.specs.Read.{Takes};

    /// Which body may come next, given those before it.
    ghost accepts: { Grammar };

    /// What is kept of a body.
    type Item: Drop;

    /// After these bodies that body stands for the item.
    ghost says: { List (List ℕ) → List ℕ → Self.Item → Type 0 };

    /// The bodies that it has taken.
    ghost bodies: { Self → List (List ℕ) };

    /// Takes the next body, or refuses it and stays as it was. The place is that of its gate, counted at the front.
    fn take(&mut self, place: u64, body: &[u8]) -> Result<bool, AllocError>
        requires body { IsBody body.now }
        requires place { place ≡ place_behind (bodies self.old) }
        ensures taken { IfOk result (Takes accepts (bodies self.old) body.now (bodies self.new)) }
        ensures err { OnErr result (bodies self.new ≡ bodies self.old) };

    /// Puts the next body on it, of which the item is known, or stays as it was. The place is that of its gate.
    fn put(&mut self, place: u64, body: &[u8], item: &Self::Item) -> Result<(), AllocError>
        requires says { says (bodies self.old) body.now item.now }
        requires place { place ≡ place_behind (bodies self.old) }
        ensures ok { OnOk result (bodies self.new ≡ bodies self.old ++ body.now ∷ []) }
        ensures err { OnErr result (bodies self.new ≡ bodies self.old) };

    /// Forgets the body that it took last.
    fn forget(&mut self)
        ensures { (before : List (List ℕ)) (body : List ℕ) → bodies self.old ≡ before ++ body ∷ [] → bodies self.new ≡ before };
}
