//! Where bytes come from.
use crate::Failed;

// Promise 3.1: A source, a sink and a disk answer a fault only where their count of faults rose; a
//   read of a source or a write to a sink that failed takes or writes nothing
/// A stream of bytes to read. A clause speaks of the bytes left where the source tells them; no clause says that it does.
pub trait Source {
    ghost use Rattle.std.specs.Prelude.{ℕ, List, Option, ◌≡◌, ◌≤◌, length, IfOk, OnErr};
    ghost use Rattle.tp_outside.specs.Faults.{HasRisen};
    ghost use Rattle.tp_outside.specs.Source.{ReadsSome};

    /// The bytes left, where it tells them.
    ghost left: { Self → Option (List ℕ) };

    /// How many calls have failed, up to the greatest `u64`.
    ghost fault_count: { Self → ℕ };

    /// Reads some of the bytes left into the front of the buffer, in order, and answers how many. Into a buffer with
    /// room it reads none exactly where none is left. A call that fails has taken nothing.
    fn read(&mut self, buf: &mut [u8]) -> Result<usize, Failed>
        ensures fits { IfOk result (λ n. n ≤ length buf.old) }
        ensures bytes { IfOk result (ReadsSome (left self.old) (left self.new) (length buf.old) buf.new) }
        ensures same { OnErr result (left self.new ≡ left self.old) }
        ensures kept { fault_count self.old ≤ fault_count self.new }
        ensures risen { OnErr result (HasRisen (fault_count self.old) (fault_count self.new)) };

    /// The count of faults, which never falls.
    fn faults(&self) -> u64
        ensures { result ≡ fault_count self.now };
}
