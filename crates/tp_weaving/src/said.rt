//! What was said so far.
ghost use Rattle.std.specs.Prelude.{◌≡◌, ◌||◌, false, OnOk};
ghost use Rattle.tp_weaving.specs.Letters.{is_letter};
ghost use Rattle.tp_weaving.specs.Said.{is_said};
ghost use Rattle.tp_weaving.specs.declared.letter.Letter.{Letter as TheLetter};

use crate::Letter;
use indexmap::IndexSet;
use std::alloc::Global;
use tp_names::NoMemory;

/// The letters that were said so far.
#[derive(Drop)]
pub(crate) struct Said {
    letters: IndexSet<Letter>,
}

impl Said {
    /// None.
    pub(crate) fn new(alloc: Global) -> Said
        ensures { (l : TheLetter) → is_said result l ≡ false }
    {
        Said {
            letters: IndexSet::new(alloc),
        }
    }

    /// Whether it is one of them.
    pub(crate) fn contains(&self, letter: &Letter) -> bool
        ensures { result ≡ is_said self.now letter.now }
    {
        self.letters.contains(letter)
    }

    /// It is one of them from now on.
    pub(crate) fn insert(&mut self, letter: Letter) -> Result<(), NoMemory>
        ensures { OnOk result ((l : TheLetter) → is_said self.new l ≡ (is_letter letter l || is_said self.old l)) }
    {
        self.letters.insert(letter)?;
        Ok(())
    }
}
