//! Laws of the definitions.
ghost use Rattle.std.specs.Prelude.{◌≡◌, ℕ, List, ◌∷◌, Some};
ghost use Rattle.tp_words.specs.CommandLine.{said, alone};
ghost use Rattle.tp_words.specs.Plain.{Setting, IsPlain, settings_typed, with_settings};

// Promise 2.11, part 2
/// Plain words are always taken: the word of a command, and then settings of different options, each in
/// its range.
pub fn plain_words_are_taken()
    ensures { (word : List ℕ) (settings : List Setting) → IsPlain word settings
        → said (word ∷ settings_typed settings) ≡ Some (with_settings (alone word) settings) }
{}
