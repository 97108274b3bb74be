//! The length at the front of a frame.
ghost use Rattle.tp_framing.specs.Front.{FrontIs};

use crate::LONGEST;

/// How many bytes a frame's length takes.
pub(crate) const HEAD: usize = 2;

/// A length that no frame has.
#[derive(Drop)]
pub(crate) struct BadLength;

/// The length of the body whose frame stands whole at the front of the bytes, if one does.
pub(crate) fn whole_length(bytes: &[u8]) -> Result<Option<usize>, BadLength>
    ensures { FrontIs bytes.now result }
{
    let [high, low, body @ ..] = bytes else {
        return Ok(None);
    };
    let length = usize::from(u16::from_be_bytes([*high, *low]));
    if length == 0 || length > LONGEST {
        return Err(BadLength);
    }
    if length <= body.len() {
        Ok(Some(length))
    } else {
        Ok(None)
    }
}
