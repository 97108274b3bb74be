//! Laws of seals.
ghost use Rattle.std.specs.Prelude.{◌≡◌, ◌≤◌, ℕ, Option, List, length, take};
ghost use Rattle.tp_outside.specs.Story.{Story};
ghost use Rattle.tp_journal.specs.Told.{IsOn, LeavesOnly, LeavesFront};
ghost use Rattle.tp_seal.specs.Seals.{Holds};
ghost use Rattle.tp_seal.specs.declared.seal.Seal.{Seal};

// Promise 25.2: A log whose sealed bytes stay keeps its seal, whatever comes behind them
/// A log that grew keeps its seal: whatever stands behind what was sealed.
pub fn a_log_that_grew_keeps_its_seal()
    ensures { (seal : Seal) (log after : List ℕ) → Holds seal log → seal.len ≤ length after
        → take seal.len after ≡ take seal.len log → Holds seal after }
{}

// Promise 25.7: Where a log is all on its disk, each image of a call that leaves the bytes before
//   its closing gate as they were, as a force and a settle do, has each seal of the log that ends
//   at that gate or before it
/// A seal that ends at the closing gate or before it is one of each image of a call that leaves the bytes before that gate as they were.
pub fn a_log_that_a_call_left_keeps_its_seal()
    ensures { (seal : Seal) (gate : ℕ) (log : List ℕ) (old new : Option Story) → IsOn old log → Holds seal log → seal.len ≤ gate → gate ≤ length log
        → LeavesFront gate old new → LeavesOnly (Holds seal) old new }
{}
