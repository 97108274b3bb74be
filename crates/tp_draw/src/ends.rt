//! Where frames come to their ends.
ghost use Rattle.std.specs.Prelude.{◌≡◌, ◌<◌, ℕ, Some, length, slice_index_or, IfOk};
ghost use Rattle.tp_draw.specs.Ends.{is_refused_after, ended_at, end_at, end_in, or_else, is_in_row};
ghost use Rattle.tp_draw.specs.declared.end.End.{End};

use crate::End;
use std::alloc::Global;
use tp_model::OutLine;
use tp_names::NoMemory;

/// How many numbers a frame may have.
pub(crate) const FRAMES: usize = 65536;

/// A table in which no frame has an end.
pub(crate) fn no_ends(alloc: Global) -> Result<Vec<End>, NoMemory>
    ensures many { IfOk result (λ ends. length ends.items ≡ 65536) }
    ensures never { IfOk result (λ ends. (k : ℕ) → slice_index_or ends.items k End.Never ≡ End.Never) }
{
    let mut ends = Vec::with_capacity(alloc, FRAMES)?;
    for _i in 0..FRAMES {
        ends.push(End::Never)?;
    }
    Ok(ends)
}

/// Notes the ends that the lines tell, of the frames that have none yet, in a table by the frames' numbers.
pub(crate) fn note_ends(ends: &mut Vec<End>, lines: &[OutLine])
    requires { length ends.old.items ≡ 65536 }
    ensures many { length ends.new.items ≡ 65536 }
    ensures ends { (k : ℕ) → k < 65536
        → slice_index_or ends.new.items k End.Never ≡ or_else (slice_index_or ends.old.items k End.Never) (end_in lines.now k 0 lines.now) }
{
    for (row, line) in lines.iter().enumerate() {
        if let Some((frame, end)) = ended_at(lines, row, line) {
            note(ends, frame, end);
        }
    }
}

/// The frame that ends at the line in that row, and how.
pub(crate) fn ended_at(lines: &[OutLine], row: usize, line: &OutLine) -> Option<(u16, End)>
    ensures { result ≡ ended_at lines.now row line.now }
{
    match line {
        OutLine::Take { frame } => {
            if is_refused_after(lines, row) {
                Some((*frame, End::Refused { row }))
            } else {
                Some((*frame, End::Taken { row }))
            }
        }
        OutLine::Lost { frame } => Some((*frame, End::Lost { row })),
        _ => None,
    }
}

// The line after that row says that what was taken there is dropped or refused.
fn is_refused_after(lines: &[OutLine], row: usize) -> bool
    ensures { result ≡ is_refused_after lines.now row }
{
    if row >= lines.len().saturating_sub(1) {
        return false;
    }
    match &lines[row + 1] {
        OutLine::Refused { .. } => true,
        OutLine::Dropped { .. } => true,
        _ => false,
    }
}

/// The end is in that row.
pub(crate) fn is_in_row(row: usize, end: End) -> bool
    ensures { result ≡ is_in_row row end }
{
    match end {
        End::Never => false,
        End::Taken { row: last } | End::Refused { row: last } | End::Lost { row: last } => {
            last == row
        }
    }
}

// The frame ends so, if it has no end yet.
fn note(ends: &mut Vec<End>, frame: u16, end: End)
    requires { length ends.old.items ≡ 65536 }
    ensures many { length ends.new.items ≡ 65536 }
    ensures ends { (k : ℕ) → k < 65536
        → slice_index_or ends.new.items k End.Never ≡ or_else (slice_index_or ends.old.items k End.Never) (end_at k (Some (frame, end))) }
{
    let at = usize::from(frame);
    if let End::Never = ends[at] {
        ends[at] = end;
    }
}
