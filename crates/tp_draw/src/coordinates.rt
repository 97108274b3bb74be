//! Where things are in an SVG file. No coordinate passes the greatest `u64`.
ghost use Rattle.std.specs.Prelude.{◌≡◌};
ghost use Rattle.tp_draw.specs.Views.{is_shown, seen_at, rows_seen, along, down, below};

use crate::View;

/// The line in that row of the transcript has a row of the picture.
pub(crate) fn is_shown(view: View, row: usize) -> bool
    ensures { result ≡ is_shown view row }
{
    view.from <= row && row < view.to
}

/// The row of the picture for a row of the transcript.
pub(crate) fn seen_at(view: View, row: usize) -> u64
    ensures { result ≡ seen_at view row }
{
    row.min(view.to).saturating_sub(view.from.saturating_sub(1)) as u64
}

/// How many rows a picture of that many lines has.
pub(crate) fn rows_seen(view: View, lines: usize) -> u64
    ensures { result ≡ rows_seen view lines }
{
    let rows = seen_at(view, view.to);
    if lines <= view.to { rows } else { rows + 1 }
}

/// So far to the right of the left edge of the lane at that place.
#[tactic(auto, unfolding(crate::specs::Views::along))]
pub(crate) fn along(view: View, offset: u64, place: usize) -> u64
    ensures { result ≡ along view offset place }
{
    let lanes = (place as u64).saturating_mul(220);
    view.left.saturating_add(offset).saturating_add(lanes)
}

/// So far below the upper edge of that row of the picture.
#[tactic(auto, unfolding(crate::specs::Views::below))]
pub(crate) fn below(offset: u64, rows: u64) -> u64
    ensures { result ≡ below offset rows }
{
    let high = rows.saturating_mul(20);
    60_u64.saturating_add(offset).saturating_add(high)
}

/// So far below the upper edge of the row for that row of the transcript.
pub(crate) fn down(view: View, offset: u64, row: usize) -> u64
    ensures { result ≡ down view offset row }
{
    below(offset, seen_at(view, row))
}
