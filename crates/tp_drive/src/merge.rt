//! The receipts of all lanes, merged by place.
ghost use Rattle.std.specs.Prelude.{◌≡◌, List, [], IfNone, IfOk, IfSome};
ghost use Rattle.std.specs.List.{All};
ghost use Rattle.tp_journal.specs.declared.receipts.Receipt.{Receipt as Told};
ghost use Rattle.tp_model.specs.Lanes.{IsInterleaving};
ghost use Rattle.tp_drive.specs.Merging.{AreRising, IsFirst};

use crate::queue::Queue;
use std::alloc::Global;
use tp_journal::Receipts;
use tp_names::NoMemory;

// The queue whose first receipt has the least place.
fn first(queues: &[Queue]) -> Option<usize>
    ensures none { IfNone result (All (λ q. q ≡ []) queues.now) }
    ensures some { IfSome result (λ i. IsFirst queues.now i) }
{
    let mut best: Option<(usize, u64)> = None;
    for i in 0..queues.len() {
        let Some(place) = queues[i].place() else {
            continue;
        };
        best = match best {
            Some((at, least)) if least <= place => Some((at, least)),
            _ => Some((i, place)),
        };
    }
    let (at, _) = best?;
    Some(at)
}

/// The receipts of all queues, by place. Where some list whose places rise is an interleaving of the queues, it is that list. What is
/// left in the queues is thrown away, whatever the answer.
pub fn merge(alloc: Global, queues: &mut [Queue]) -> Result<Receipts, NoMemory>
    ensures { IfOk result (λ r. (whole : List Told) → AreRising whole → IsInterleaving whole queues.old → r ≡ whole) }
{
    let mut receipts = Receipts::new(alloc);
    while let Some(at) = first(queues) {
        let queue = &mut queues[at];
        let Some(receipt) = queue.pop() else {
            unreachable!();
        };
        receipts.push(alloc, receipt)?;
    }
    Ok(receipts)
}
