//! The first record that had no room in the log.
ghost use Rattle.std.specs.Prelude.{◌≡◌, length, IfOk};
ghost use Rattle.tp_journal.specs.Records.{HasText, text, version_of};
ghost use Rattle.tp_shared_log.specs.Unfits.{first_of};

use std::alloc::Global;
use tp_logrec::{LogRec, LogVersion, encode_log};
use tp_names::{NoMemory, Octets};

/// A record whose text has `body` bytes had no room: the log would have had `size` bytes up to its closing gate, that
/// one included.
#[derive(Clone, Copy, Debug, PartialEq, Eq)]
pub struct Unfit {
    pub size: u64,
    pub body: u16,
}

/// The one that came first, where this record would have made the log so long. Only the first is measured.
pub fn first_unfit(
    alloc: Global,
    before: Option<Unfit>,
    size: u64,
    wide: bool,
    rec: &LogRec,
) -> Result<Option<Unfit>, NoMemory>
    requires { HasText wide rec.now }
    ensures { IfOk result (λ unfit. unfit ≡ first_of before size (length (text wide rec.now))) }
{
    if before.is_some() {
        return Ok(before);
    }
    let body = body_len(alloc, wide, rec)?;
    Ok(Some(Unfit { size, body }))
}

// How many bytes the record's text has, in version 2 where the log is wide.
#[tactic(auto, using(tp_journal::proofs::Sizes::text_is_body))]
fn body_len(alloc: Global, wide: bool, rec: &LogRec) -> Result<u16, NoMemory>
    requires { HasText wide rec.now }
    ensures { IfOk result (λ len. len ≡ length (text wide rec.now)) }
{
    let mut body = Octets::new(alloc);
    encode_log(alloc, version(wide), rec, &mut body)?;
    Ok(body.len() as u16)
}

fn version(wide: bool) -> LogVersion
    ensures { result ≡ version_of wide }
{
    if wide {
        LogVersion::Two
    } else {
        LogVersion::One
    }
}
