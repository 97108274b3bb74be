//! What keeps the records of a log.
use crate::{ForceFault, Receipt};
use std::alloc::Global;
use tp_logrec::LogRec;

// Promise 3.5: 3.4 holds, of a force that ends Ok or with a fault of the disk, over any keeper of a
//   log that tells a story, and after any other answer the story is as it was; also to who knows of
//   the keeper no more than the trait
// Promise 3.23, part 2
// Promise 5.9: What is proved over `Keeper` holds over a journal and over a share
/// What keeps the records of a log: a journal, or a share of a log under a lock.
pub trait Keeper {
    ghost use Rattle.std.specs.Prelude.{◌≡◌, ◌<◌, length, slice_index_or};
    ghost use Rattle.std.specs.List.{All};
    ghost use Rattle.tp_journal.specs.Keeping.{Standing, Forces, receipt_of};
    ghost use Rattle.tp_journal.specs.Records.{HasText};

    /// What the keeper tells, and its own records.
    ghost standing: { Self → Standing };

    /// Forces one record. With the receipt it is on the disk, after all of this keeper's earlier ones.
    fn force(&mut self, alloc: Global, rec: &LogRec) -> Result<Receipt, ForceFault>
        requires { HasText (standing self.old).wide rec.now }
        ensures { Forces (standing self.old) rec.now result (standing self.new) };

    /// Forces one record as `force` does, and answers the place of its gate alone, so that the record is not copied for a
    /// receipt.
    fn append(&mut self, alloc: Global, rec: &LogRec) -> Result<u64, ForceFault>
        requires { HasText (standing self.old).wide rec.now }
        ensures { Forces (standing self.old) rec.now (receipt_of rec.now result) (standing self.new) }
    {
        let receipt = self.force(alloc, rec)?;
        Ok(receipt.place)
    }

    /// How many records stood when the keeper was made, or the log that it shares.
    fn count(&self) -> usize
        ensures { result ≡ length (standing self.now).told };

    /// One of those records.
    fn rec(&self, i: usize) -> &LogRec
        requires { i < length (standing self.now).told }
        ensures { (d : _) → result.now ≡ (slice_index_or (standing self.now).told i d).rec };

    /// Its place: that of its gate in the file, in bytes.
    fn place(&self, i: usize) -> u64
        requires { i < length (standing self.now).told }
        ensures { (d : _) → result ≡ (slice_index_or (standing self.now).told i d).place };

    // Promise 3.17: Each record that a keeper tells has a text in the version of its log
    /// Each of those records has a text in the version of the log. It shows that, and answers nothing.
    fn texts(&self)
        ensures { All (λ r. HasText (standing self.now).wide r.rec) (standing self.now).told };

    /// The count of faults, which never falls.
    fn faults(&self) -> u64
        ensures { result ≡ (standing self.now).faults };

    /// Is the log of version 2?
    fn wide(&self) -> bool
        ensures { result ≡ (standing self.now).wide };
}

// Promise 3.23 [tp_journal/specs/Settling.antt]: A keeper that notes says of the images of a settle
//   and of its faults what 3.21 and 3.22 say, but for the bytes of the file, also to who knows of
//   it no more than the trait; no record that is noted changes what is on the disk
/// A keeper that runs ahead of its disk: what it is given is noted, and all that is noted is forced at once.
pub trait Settles: Keeper {
    ghost use Rattle.tp_journal.specs.Settling.{SettlesTo};

    /// Forces all that is noted, and wants no memory for it. Where the disk fails the keeper is shut, and tells what was noted.
    /// What it has written after its log it cuts off where this is the last settle.
    fn settle(&mut self, last: bool) -> Result<(), ForceFault>
        ensures { SettlesTo (Self.standing self.old) result (Self.standing self.new) };
}
