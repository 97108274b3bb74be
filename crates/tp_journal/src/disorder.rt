//! Where a list of records is out of order.
ghost use Rattle.std.specs.Prelude.{IfOk};
ghost use Rattle.tp_journal.specs.Disorder.{IsFirstOutOfOrder};

use std::alloc::Global;
use tp_logrec::{LogRec, OrderCheck};
use tp_names::NoMemory;

/// The index of the first record that may not follow those before it, where there is one. This goes over the list once,
/// whatever stands of it.
pub fn first_out_of_order(alloc: Global, list: &[LogRec]) -> Result<Option<usize>, NoMemory>
    ensures { IfOk result (IsFirstOutOfOrder list.now) }
{
    let mut check = OrderCheck::new(alloc);
    for i in 0..list.len() {
        let rec = &list[i];
        if !check.follows(rec) {
            return Ok(Some(i));
        }
        check.take(alloc, rec)?;
    }
    Ok(None)
}
