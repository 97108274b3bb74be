//! The value, the rule that it is kept by, and its passes.
ghost use Rattle.std.specs.Prelude.{ℕ, ◌≡◌, ◌++◌, ◌∷◌, [], List, IfErr};
ghost use Rattle.tp_turns.specs.Turns.{Has, Covers, claim, idle, gave, grown, knows, lists_of, more_in, both_of};
ghost use Rattle.tp_turns.specs.declared.knows.Claim.{Claim as Claimed};

use crate::knows::Knows;
use atomic_table::{Join, Play, Refused, Seat, Table, TableRule};
use std::alloc::{AllocFailed, Global};
use std::sync::{Mutex, MutexGuard, Wait};
use std::thread;

/// What a value lists, in the order in which it was put there.
pub trait Lists<I> {
    ghost use Rattle.std.specs.Prelude.{List};

    ghost list: { Self → List I };
}

/// The rule: what the value lists is what the passes have put there.
pub struct InTurn;

impl<T: Lists<I>, I> TableRule<T, Knows<I>, ()> for InTurn {
    ghost use Rattle.std.specs.Prelude.{[]};
    ghost use Rattle.tp_turns.specs.Turns.{Kept, idle};

    ghost holds = { λ _. Kept T.list };

    ghost first = { λ _. idle [] };
}

// The steps.
struct Take;

impl<T: Lists<I>, I> Play<T, Knows<I>> for Take {
    ghost use Rattle.tp_turns.specs.Turns.{took};

    ghost then = { took T.list };
}

struct Give;

impl<T: Lists<I>, I> Play<T, Knows<I>> for Give {
    ghost use Rattle.tp_turns.specs.Turns.{gave};

    ghost then = { gave T.list };
}

struct Seal;

impl<T: Lists<I>, I> Play<T, Knows<I>> for Seal {
    ghost use Rattle.tp_turns.specs.Turns.{sealed};

    ghost then = { sealed T.list };
}

struct Enter;

impl<T: Lists<I>, I> Play<T, Knows<I>> for Enter {
    ghost use Rattle.tp_turns.specs.Turns.{entered};

    ghost then = { entered T.list };
}

struct Both;

impl<I> Join<Knows<I>> for Both {
    ghost use Rattle.std.specs.Prelude.{[]};
    ghost use Rattle.tp_turns.specs.Turns.{both_of, idle};

    ghost both = { both_of };

    ghost spent = { idle [] };
}

/// What one thread knows of the value. It has no bytes.
pub type Pass<T, I> = Seat<T, Knows<I>>;

/// A value that threads take in turn.
#[derive(Drop)]
pub struct Turns<T: Lists<I>, I> {
    // Threads wait here; which of them has the value, the table says.
    waiting: Mutex<()>,
    pub table: Table<T, Knows<I>, (), InTurn, Global>,
    ghost one_word: { table.shared.table_id.words ≡ 1 },
    ghost one_slot: { table.shared.table_id.slots ≡ 1 },
    ghost unit: { table.shared.key ≡ tt },
}

impl<T: Lists<I>, I> Turns<T, I> {
    /// A value that lists nothing. Without memory it comes back.
    pub fn new(alloc: Global, value: T) -> Result<Turns<T, I>, T>
        requires { T.list value ≡ [] }
        ensures { IfErr result (λ x. x ≡ value) }
    {
        let mut slots = Vec::new(alloc);
        if let Err(failed) = slots.push(value) {
            slots.destroy_empty();
            let AllocFailed { value } = failed;
            return Err(value);
        }
        match Table::new(alloc, &[0], slots, &()) {
            Ok((table, _)) => Ok(Turns {
                waiting: Mutex::new(()),
                table,
            }),
            Err(Refused { mut slots }) => {
                let Some(value) = slots.pop() else {
                    unreachable!();
                };
                slots.destroy_empty();
                Err(value)
            }
        }
    }

    /// A pass with one claim, under which nothing was put.
    pub fn enter(&self) -> Pass<T, I>
        ensures { (result.table_id ≡ self.now.table.shared.table_id) × ((t : ℕ) × (result.me ≡ (idle (claim t [] ∷ []), []))) }
    {
        self.table.shared.load_new_seat::<Enter>(0).1
    }

    /// Takes the value, which a thread may wait for. The turn ends where it is given back.
    pub fn take<'t, R: Wait>(&'t self, rt: &R, pass: &mut Pass<T, I>) -> MutexGuard<'t, ()>
        requires { (pass.old.table_id ≡ self.now.table.shared.table_id) × (pass.old.me.1 ≡ []) }
        ensures id { pass.new.table_id ≡ pass.old.table_id }
        ensures has { Has T.list pass.old.me pass.new.me }
    {
        let turn = self.waiting.lock(rt);
        for _ in rt.forever() {
            if self.table.shared.compare_exchange::<Take>(pass, 0, 0, 1) == 0 {
                return turn;
            }
            thread::yield_now();
        }
        unreachable!()
    }

    /// Gives the value back. What is new in it stands under the pass's first claim.
    pub fn give(&self, pass: &mut Pass<T, I>, _turn: MutexGuard<'_, ()>)
        requires id { pass.old.table_id ≡ self.now.table.shared.table_id }
        requires has { (seen : List I) × (more : List I) × (c : Claimed I) × (cs : List (Claimed I)) × (x : T) × (T.list x ≡ seen ++ more)
            × (pass.old.me ≡ (knows 1 seen (c ∷ cs), (0, x) ∷ [])) }
        ensures id { pass.new.table_id ≡ pass.old.table_id }
        // Promise 5.12, part 2
        ensures gave { (x : T) → pass.old.me.1 ≡ (0, x) ∷ [] → pass.new.me ≡ (idle (grown pass.old.me.0.claims (more_in T.list pass.old.me.0 x)), []) }
    {
        self.table.shared.store::<Give>(pass, 0, 0);
    }

    /// Puts the claims of two passes together.
    pub fn join(&self, pass: &mut Pass<T, I>, other: Pass<T, I>)
        requires pass { pass.old.table_id ≡ self.now.table.shared.table_id }
        requires other { (other.table_id ≡ self.now.table.shared.table_id) × (other.me.0.stage ≡ 0) × (other.me.1 ≡ []) }
        ensures id { pass.new.table_id ≡ pass.old.table_id }
        // Promise 5.12, part 3
        ensures both { pass.new.me ≡ (both_of pass.old.me.0 other.me.0, pass.old.me.1) }
    {
        self.table.shared.join_seat::<Both>(pass, other);
    }

    /// The value, when no thread shares it any more.
    pub fn into_value(self) -> T {
        let Turns { waiting: _, table } = self;
        let mut closed = table.close();
        let value = closed.take(0);
        closed.free();
        value
    }

    // Promise 5.12: What a value lists that threads take in turn is an interleaving of what the
    //   claims of the last pass list, where that is as much; what a pass puts into the value stands
    //   under its first claim, and two passes are joined with all their claims
    /// The same. If as much stands under the pass's claims as the value lists, then this is an interleaving of what stands there.
    pub fn into_claimed<R: Wait>(self, rt: &R, mut pass: Pass<T, I>) -> T
        requires { (pass.table_id ≡ self.table.shared.table_id) × (pass.me.1 ≡ []) }
        ensures { Covers (T.list result) (lists_of pass.me.0.claims) }
    {
        let turn = self.take(rt, &mut pass);
        drop(turn);
        self.seal(&mut pass);
        let Turns { waiting: _, table } = self;
        let mut closed = table.close_with(pass);
        let value = closed.take(0);
        closed.free();
        value
    }

    // Gives the value back for good.
    fn seal(&self, pass: &mut Pass<T, I>)
        requires id { pass.old.table_id ≡ self.now.table.shared.table_id }
        requires has { (x : T) × (pass.old.me.0.stage ≡ 1) × (T.list x ≡ pass.old.me.0.seen) × (pass.old.me.1 ≡ (0, x) ∷ []) }
        ensures id { pass.new.table_id ≡ pass.old.table_id }
        ensures sealed { pass.new.me ≡ (knows 2 [] pass.old.me.0.claims, []) }
    {
        self.table.shared.store::<Seal>(pass, 0, 2);
    }
}
