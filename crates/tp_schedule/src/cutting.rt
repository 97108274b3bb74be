//! Words out of a line, one after the other: what stands between spaces.
ghost use Rattle.std.specs.Prelude.{◌≡◌, ◌≢◌, ◌<◌, ◌≤◌, ◌∷◌, [], ℕ, length, slice_index, MatchOption};
ghost use Rattle.tp_model.specs.LineReading.{words_in, no_words};
ghost use Rattle.tp_schedule.specs.Answers.{read_as, word_alone, pair_alone};

use crate::LineFault;

/// The first word and what stands after it, or None where only spaces are left.
pub fn next_word(bytes: &[u8]) -> Option<(&[u8], &[u8])>
    ensures { MatchOption result (words_in bytes.now ≡ []) (λ p. words_in bytes.now ≡ p.0.now ∷ words_in p.1.now) }
{
    let start = spaces(bytes);
    let from = &bytes[start..];
    if from.is_empty() {
        return None;
    }
    let end = word_len(from);
    Some((&from[..end], &from[end..]))
}

/// The value, where there is no word.
pub fn if_no_word<T: Drop>(bytes: &[u8], value: T) -> Result<T, LineFault>
    ensures { result ≡ read_as (no_words value (words_in bytes.now)) }
{
    match next_word(bytes) {
        None => Ok(value),
        Some(_) => Err(LineFault::Word),
    }
}

/// The word, where there is one alone.
pub fn only_word(bytes: &[u8]) -> Option<&[u8]>
    ensures { MatchOption result (word_alone (words_in bytes.now) ≡ None) (λ w. word_alone (words_in bytes.now) ≡ Some w.now) }
{
    let (word, rest) = next_word(bytes)?;
    match next_word(rest) {
        None => Some(word),
        Some(_) => None,
    }
}

/// The words, where there are two.
pub fn only_pair(bytes: &[u8]) -> Option<(&[u8], &[u8])>
    ensures { MatchOption result (pair_alone (words_in bytes.now) ≡ None) (λ p. pair_alone (words_in bytes.now) ≡ Some (p.0.now, p.1.now)) }
{
    let (first, rest) = next_word(bytes)?;
    let (second, rest) = next_word(rest)?;
    match next_word(rest) {
        None => Some((first, second)),
        Some(_) => None,
    }
}

// How many spaces stand in front.
fn spaces(bytes: &[u8]) -> usize
    ensures within { result ≤ length bytes.now }
    ensures before { (k : ℕ) → k < result → slice_index bytes.now k ≡ 32 }
    ensures behind { result < length bytes.now → slice_index bytes.now result ≢ 32 }
{
    for (i, byte) in bytes.iter().enumerate() {
        if *byte != b' ' {
            return i;
        }
    }
    bytes.len()
}

// How many bytes stand before the first space.
fn word_len(bytes: &[u8]) -> usize
    ensures within { result ≤ length bytes.now }
    ensures before { (k : ℕ) → k < result → slice_index bytes.now k ≢ 32 }
    ensures behind { result < length bytes.now → slice_index bytes.now result ≡ 32 }
{
    for (i, byte) in bytes.iter().enumerate() {
        if *byte == b' ' {
            return i;
        }
    }
    bytes.len()
}
