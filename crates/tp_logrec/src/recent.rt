//! What the order reads of one key: its last record and its Ready.
ghost use Rattle.std.specs.Prelude.{◌≡◌, IfOk, Some, None};
ghost use Rattle.std.specs.Option.{option_copied};
ghost use Rattle.tp_logrec.specs.OrderCheck.{recent_with, gone_on, ready_only};

use crate::LogRec;
use std::alloc::Global;
use std::marker::Model;
use tp_names::NoMemory;

/// Of a key that is not at its end its last record, and its last Ready since its last End.
#[derive(Drop)]
pub(crate) struct Recent {
    last: LogRec,
    ready: Option<LogRec>,
}

impl Model for Recent {
    ghost use Rattle.tp_logrec.specs.OrderCheck as checks;

    ghost Value = { checks.Recent };

    ghost view = { λ r. record { last = r.last; ready = r.ready } };
}

impl Recent {
    /// That of a key with a copy of the record as its first.
    pub(crate) fn begin(alloc: Global, rec: &LogRec) -> Result<Recent, NoMemory>
        ensures { IfOk result (λ recent. recent ≡ recent_with None rec.now) }
    {
        Ok(Recent {
            last: rec.copy(alloc)?,
            ready: ready_copy(alloc, rec)?,
        })
    }

    /// Goes on with the records of the other, which come next.
    pub(crate) fn go_on(&mut self, next: Recent)
        ensures { self.new ≡ gone_on self.old next }
    {
        if next.ready.is_some() {
            *self = next;
        } else {
            self.last = next.last;
        }
    }

    pub(crate) fn last_record(&self) -> &LogRec
        ensures { result.now ≡ self.now.last }
    {
        &self.last
    }

    pub(crate) fn last_ready(&self) -> Option<&LogRec>
        ensures { option_copied result ≡ self.now.ready }
    {
        self.ready.as_ref()
    }
}

/// A copy of the record, if it is a Ready.
fn ready_copy(alloc: Global, rec: &LogRec) -> Result<Option<LogRec>, NoMemory>
    ensures { IfOk result (λ copy. copy ≡ ready_only rec.now) }
{
    if rec.is_ready() {
        return Ok(Some(rec.copy(alloc)?));
    }
    Ok(None)
}
