//! Where the closing gate of a log is.
ghost use Rattle.std.specs.Prelude.{◌≤◌, List, ℕ, length};
ghost use Rattle.tp_journal.specs.Log.{StandsFor, place_behind};

/// How many bytes of a log stand before its closing gate; none where a compaction was cut, or where it is no log.
pub(crate) fn front_of(log: &[u8]) -> usize
    ensures within { result ≤ length log.now }
    ensures gate { (bodies : List (List ℕ)) → StandsFor log.now bodies → result ≤ place_behind bodies }
{
    let [_, _, _, _, 1, bodies @ ..] = log else {
        return 0;
    };
    let mut rest = bodies;
    while let [1, high, low, after @ ..] = rest {
        let len = usize::from(*high) * 256 + usize::from(*low);
        if after.len() < len {
            return 0;
        }
        rest = &after[len..];
    }
    match rest {
        [0, ..] => log.len() - rest.len(),
        _ => 0,
    }
}

/// Whether a log has more than its version, or one of its compactions was cut.
pub(crate) fn has_records(log: &[u8]) -> bool {
    log.get(4) == Some(&2) || front_of(log) > 10
}
