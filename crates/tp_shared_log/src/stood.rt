//! What a log was when it was put under its lock, named in proofs alone.

use std::marker::Brand;
use std::sync::ledger::Ledger;

/// The ledger of a shared log's records. It names besides what the log was when it was put under the lock.
pub trait Stood: Ledger {
    ghost use Rattle.std.specs.Prelude.{ℕ, Bool, List, Option};
    ghost use Rattle.tp_outside.specs.Story.{Story};
    ghost use Rattle.tp_journal.specs.declared.receipts.Receipt.{Receipt};

    /// The records that stood, with their places.
    ghost stood: { List Receipt };

    /// The journal's count of faults.
    ghost faults: { ℕ };

    /// Was the log of version 2?
    ghost wide: { Bool };

    /// The number of shares.
    ghost shares: { ℕ };

    /// What the disk had been through, where it tells that.
    ghost story: { Option Story };
}

impl Stood for Brand {
    ghost use Rattle.std.specs.Prelude.{[], false, None};

    ghost stood = { [] };

    ghost faults = { 0 };

    ghost wide = { false };

    ghost shares = { 0 };

    ghost story = { None };
}
