//! A transcript out of its bytes.
ghost use Rattle.std.specs.Prelude.{IfOk, IfErr};
ghost use Rattle.tpdraw.specs.Transcripts.{IsTranscript, IsUnread, ReadsLine};

use crate::Status;
use crate::next_line::next_line;
use std::alloc::Global;
use tp_model::{OutLine, OutLines, Why};
use tp_schedule::LineFault;
use tp_transcript::read_out;

/// The lines whose text the bytes are.
pub(crate) fn read_transcript(alloc: Global, bytes: &[u8]) -> Result<OutLines, Status>
    ensures reads { IfOk result (IsTranscript bytes.now) }
    ensures stops { IfErr result (IsUnread bytes.now) }
{
    let mut lines = OutLines::new(alloc);
    let mut rest = bytes;
    'lines: while let Some(next) = next_line(rest) {
        let at = lines.as_slice().len() as u64 + 1;
        let line = read_at(alloc, at, next.0)?;
        lines.push(alloc, line)?;
        rest = next.1;
    }
    Ok(lines)
}

// The line that has this text, at that number.
fn read_at(alloc: Global, at: u64, text: &[u8]) -> Result<OutLine, Status>
    ensures { ReadsLine at text.now result }
{
    match read_out(alloc, text) {
        Ok(line) => Ok(line),
        Err(LineFault::NoMemory) => Err(Status::NoMemory),
        Err(_) => Err(Status::BadInput { at, why: Why::Word }),
    }
}
