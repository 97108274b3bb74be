//! Numbers in a queue.
ghost use Rattle.std.specs.Prelude.{◌≡◌, ◌++◌, ◌∷◌, [], ◌<◌, drop, OnOk, OnErr};
ghost use Rattle.tp_network.specs.Waiting.{above, first_of};

use std::alloc::Global;
use std::collections::VecDeque;
use std::marker::Model;
use tp_names::NoMemory;

/// Numbers of frames, the oldest first: the newest one, or 0 where it left, after those before it. Callers tell up to which
/// number all have passed: those count no longer, and leave when others come or are asked for.
#[derive(Drop)]
pub(crate) struct Queue {
    older: VecDeque<u16>,
    newest: u16,
}

// The first number leaves, if it passed.
fn leave_first(numbers: &mut VecDeque<u16>, passed: usize)
    ensures { above passed numbers.new.items ≡ above passed numbers.old.items }
{
    if let Some(first) = numbers.front()
        && usize::from(*first) <= passed
    {
        numbers.pop_front();
    }
}

// The first number that did not pass leaves, and those before it do.
fn take_first(numbers: &mut VecDeque<u16>, passed: usize) -> Option<u16>
    ensures number { result ≡ first_of (above passed numbers.old.items) }
    ensures rest { above passed numbers.new.items ≡ drop 1 (above passed numbers.old.items) }
{
    while let Some(number) = numbers.pop_front() {
        if usize::from(number) > passed {
            return Some(number);
        }
    }
    None
}

impl Model for Queue {
    ghost use Rattle.std.specs.Prelude.{ℕ, List, ◌++◌, ◌∷◌, []};

    ghost Value = { List ℕ };

    ghost view = { λ q. q.older.items ++ q.newest ∷ [] };
}

impl Queue {
    /// That number alone.
    pub(crate) fn of(alloc: Global, number: u16) -> Queue
        ensures { result ≡ number ∷ [] }
    {
        Queue {
            older: VecDeque::new(alloc),
            newest: number,
        }
    }

    /// One more number, after the others. One that passed makes room for it, so a queue gets no longer than by those that
    /// wait in it at one time.
    #[tactic(auto, using(crate::proofs::Queues::put_over, crate::proofs::Queues::put_behind, crate::proofs::Queues::left_behind))]
    pub(crate) fn push(&mut self, passed: usize, number: u16) -> Result<(), NoMemory>
        requires { passed < number }
        ensures ok { OnOk result (above passed self.new ≡ above passed self.old ++ number ∷ []) }
        ensures err { OnErr result (above passed self.new ≡ above passed self.old) }
    {
        if usize::from(self.newest) > passed {
            leave_first(&mut self.older, passed);
            self.older.push_back(self.newest)?;
        }
        self.newest = number;
        Ok(())
    }

    /// The first number that did not pass leaves.
    pub(crate) fn pop(&mut self, passed: usize) -> Option<u16>
        ensures number { result ≡ first_of (above passed self.old) }
        ensures rest { above passed self.new ≡ drop 1 (above passed self.old) }
    {
        if let Some(number) = take_first(&mut self.older, passed) {
            return Some(number);
        }
        let number = self.newest;
        if usize::from(number) <= passed {
            return None;
        }
        self.newest = 0;
        Some(number)
    }
}
