//! What a share that is closed shows its log.
ghost use Rattle.std.specs.Prelude.{ℕ, ◌≡◌, ◌∷◌, [], List};
ghost use Rattle.tp_journal.specs.declared.receipts.Receipt.{Receipt as Told};
ghost use Rattle.tp_turns.specs.Turns.{claim, idle};

use crate::Stood;
use crate::locked::Locked;
use std::marker::Model;
use std::sync::ledger::Ledger;
use tp_journal::Receipt;
use tp_outside::Disk;
use tp_turns::Pass;

/// What a share noted, as it shows the log when that is closed. It has no bytes.
#[derive(Drop)]
pub struct Slip<D: Disk, L: Stood, M: Ledger> {
    pub(crate) pass: Pass<Locked<D, L, M>, Receipt>,
}

impl<D: Disk, L: Stood, M: Ledger> Model for Slip<D, L, M> {
    ghost use Rattle.std.specs.Prelude.{ℕ, ◌≡◌, ◌∷◌, []};
    ghost use Rattle.tp_shared_log.specs.Shares.{Noted, first_list};
    ghost use Rattle.tp_turns.specs.Turns.{claim, idle};

    ghost Value = { Noted };

    ghost view = { λ s. record { of = s.pass.table_id; receipts = first_list s.pass.me.0.claims } };

    ghost invariant = { λ s. (t : ℕ) × (s.pass.me ≡ (idle (claim t (first_list s.pass.me.0.claims) ∷ []), [])) };
}

impl<D: Disk, L: Stood, M: Ledger> Slip<D, L, M> {
    pub(crate) fn new(pass: Pass<Locked<D, L, M>, Receipt>) -> Slip<D, L, M>
        requires { (t : ℕ) × (l : List Told) × (pass.me ≡ (idle (claim t l ∷ []), [])) }
        ensures of { result.of ≡ pass.table_id }
        ensures receipts { (t : ℕ) (l : List Told) → pass.me ≡ (idle (claim t l ∷ []), []) → result.receipts ≡ l }
    {
        Slip { pass }
    }

    /// Its pass, for the log.
    pub(crate) fn into_pass(self) -> Pass<Locked<D, L, M>, Receipt>
        ensures { (result.table_id ≡ self.of) × ((t : ℕ) × (result.me ≡ (idle (claim t self.receipts ∷ []), []))) }
    {
        let Slip { pass } = self;
        pass
    }
}
