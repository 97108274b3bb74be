//! Where bytes go.
use crate::Failed;

// Promise 3.1, part 2
/// A stream of bytes to write. A clause speaks of the bytes written where the sink tells them; no clause says that it does.
pub trait Sink {
    ghost use Rattle.std.specs.Prelude.{ℕ, List, [], Option, ◌≡◌, ◌≤◌, length, IfOk, OnErr};
    ghost use Rattle.tp_outside.specs.Faults.{HasRisen};
    ghost use Rattle.tp_outside.specs.Sink.{WritesSome};

    /// The bytes written, where it tells them.
    ghost written: { Self → Option (List ℕ) };

    /// How many calls have failed, up to the greatest `u64`.
    ghost fault_count: { Self → ℕ };

    /// Takes some bytes from the front of the piece, and answers how many. Where it takes none of a piece with bytes, it
    /// fails; and a call that fails has written nothing.
    fn write(&mut self, piece: &[u8]) -> Result<usize, Failed>
        ensures within { IfOk result (λ n. n ≤ length piece.now) }
        ensures some { IfOk result (λ n. n ≡ 0 → piece.now ≡ []) }
        ensures bytes { IfOk result (WritesSome (written self.old) (written self.new) piece.now) }
        ensures same { OnErr result (written self.new ≡ written self.old) }
        ensures kept { fault_count self.old ≤ fault_count self.new }
        ensures risen { OnErr result (HasRisen (fault_count self.old) (fault_count self.new)) };

    /// The count of faults, which never falls.
    fn faults(&self) -> u64
        ensures { result ≡ fault_count self.now };
}
