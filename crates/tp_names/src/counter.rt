//! Where marks come from.
ghost use Rattle.std.specs.Prelude.{◌≡◌, ◌≢◌, ◌↔◌, ◌-◌, ◌^◌, ℕ, IfOk, OnOk, OnErr, IsErr};
ghost use Rattle.tp_names.specs.Marks.{Drawing, next_mark, after_draw, drawn, AreApart};

use crate::Mark;
use std::marker::Model;
use thiserror::Error;

/// Draws the marks of one node in one boot of its site, each once. So it is not `Clone`.
#[derive(Drop)]
pub struct Counter {
    boot: u64,
    node: u16,
    last: u64,
}

impl Model for Counter {
    ghost use Rattle.tp_names.specs.Marks.{Drawing};

    ghost Value = { Drawing };

    ghost view = { λ c. record { boot = c.boot; node = c.node; last = c.last } };
}

/// Every number of a counter is drawn.
#[derive(Clone, Copy, Debug, PartialEq, Eq, Error)]
#[error("the numbers of this node are spent")]
pub struct NumbersSpent;

impl Counter {
    /// A counter that drew `last` as its last count.
    pub fn from(boot: u64, node: u16, last: u64) -> Counter
        ensures { result ≡ record { boot = boot; node = node; last = last } }
    {
        Counter { boot, node, last }
    }

    /// How many marks can still be drawn.
    pub fn left(&self) -> u64
        ensures { result ≡ (2 ^ 64 - 1) - self.now.last }
    {
        u64::MAX - self.last
    }

    // Promise 2.2, part 2
    /// The next mark. It is refused exactly where the last count is the greatest there is.
    pub fn draw(&mut self) -> Result<Mark, NumbersSpent>
        ensures mark { IfOk result (λ mark. mark ≡ next_mark self.old) }
        ensures drawn { OnOk result (self.new ≡ after_draw self.old) }
        ensures spent { IsErr result ↔ (self.old.last ≡ 2 ^ 64 - 1) }
        ensures unchanged { OnErr result (self.new ≡ self.old) }
    {
        self.last = self.last.checked_add(1).ok_or(NumbersSpent)?;
        Ok(Mark {
            boot: self.boot,
            node: self.node,
            count: self.last,
        })
    }
}

// Promise 2.2: A counter draws no mark twice, and none that a counter of another boot or node draws
/// A counter draws no mark twice, and no mark that a counter of another boot or node draws.
pub fn marks_are_drawn_once()
    ensures one { (d : Drawing) (j k : ℕ) → j ≢ k → drawn d j ≢ drawn d k }
    ensures two { (d e : Drawing) (j k : ℕ) → AreApart d e → drawn d j ≢ drawn e k }
{}
