//! The line at the front of bytes.
ghost use Rattle.std.specs.Prelude.{◌≡◌, [], MatchOption};
ghost use Rattle.tpdraw.specs.Transcripts.{IsNext, HasNone, IsFirstFeed};

/// The first line without its end, and what is after it; None where there are no bytes.
pub(crate) fn next_line(bytes: &[u8]) -> Option<(&[u8], &[u8])>
    ensures { MatchOption result (bytes.now ≡ []) (λ p. IsNext bytes.now p.0.now p.1.now) }
{
    if bytes.is_empty() {
        return None;
    }
    match find_feed(bytes) {
        Some(at) => Some((&bytes[..at], &bytes[at + 1..])),
        None => Some((bytes, &bytes[bytes.len()..])),
    }
}

// How many bytes are before the first line feed.
fn find_feed(bytes: &[u8]) -> Option<usize>
    ensures { MatchOption result (HasNone bytes.now) (IsFirstFeed bytes.now) }
{
    for (i, byte) in bytes.iter().enumerate() {
        if *byte == b'\n' {
            return Some(i);
        }
    }
    None
}
