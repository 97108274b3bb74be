//! Three words out of a line, and the parts of a word.
ghost use Rattle.std.specs.Prelude.{◌≡◌, ◌∷◌, MatchOption};
ghost use Rattle.tp_model.specs.LineReading.{words_in};
ghost use Rattle.tp_transcript.specs.OutWords.{cut, three_alone, three_front};

use tp_schedule::cutting::{next_word, only_pair};

/// The words, where there are three.
pub(crate) fn only_three(bytes: &[u8]) -> Option<(&[u8], &[u8], &[u8])>
    ensures { MatchOption result (three_alone (words_in bytes.now) ≡ None) (λ p. three_alone (words_in bytes.now) ≡ Some (p.0.now, p.1.now, p.2.now)) }
{
    let (first, rest) = next_word(bytes)?;
    let (second, third) = only_pair(rest)?;
    Some((first, second, third))
}

/// Three words and what stands after them.
pub(crate) fn three_words(bytes: &[u8]) -> Option<(&[u8], &[u8], &[u8], &[u8])>
    ensures { MatchOption result (three_front (words_in bytes.now) ≡ None) (λ p. words_in bytes.now ≡ p.0.now ∷ p.1.now ∷ p.2.now ∷ words_in p.3.now) }
{
    let (first, rest) = next_word(bytes)?;
    let (second, rest) = next_word(rest)?;
    let (third, rest) = next_word(rest)?;
    Some((first, second, third, rest))
}

/// What stands before the first of these bytes, and after it.
pub(crate) fn cut_at(mark: u8, bytes: &[u8]) -> Option<(&[u8], &[u8])>
    ensures { MatchOption result (cut mark bytes.now ≡ None) (λ p. cut mark bytes.now ≡ Some (p.0.now, p.1.now)) }
{
    for (i, byte) in bytes.iter().enumerate() {
        if *byte == mark {
            return Some((&bytes[..i], &bytes[i + 1..]));
        }
    }
    None
}
