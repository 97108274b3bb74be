//! Words that stand for values.
ghost use Rattle.std.specs.Prelude.{◌≡◌};
ghost use Rattle.tp_schedule.specs.Keywords.{found};

use crate::value::is_word;

/// The value beside the first word of the table that is this one.
pub fn find<K: Copy>(table: &[(&'static str, K)], word: &[u8]) -> Option<K>
    ensures { result ≡ found table.now (λ e. e.0.now) (λ e. e.1) word.now }
{
    for (text, value) in table {
        if is_word(word, text) {
            return Some(*value);
        }
    }
    None
}
