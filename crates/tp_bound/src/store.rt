//! What the bodies of a log stand for.
ghost use Rattle.std.specs.Prelude.{◌≡◌, ◌+◌, ◌<◌, ◌^◌, length, IfOk};
ghost use Rattle.tp_bound.specs.Content.{made};
ghost use Rattle.tp_bound.specs.Stores.{empty, has_room, bound, decided, taken};
ghost use Rattle.tp_bound.specs.Taking.{Takes, Decides};

use crate::body::Body;
use crate::content::Content;
use crate::decode::decode;
use crate::write::Writes;
use std::alloc::Global;
use tp_journal::MOST_BYTES;
use tp_names::same::is_aaid;
use tp_names::{Aaid, NoMemory};

// What decides a Bind is to have room after it.
const ROOM: u64 = 256;

/// Writes that are bound to a transaction of which it is not known how it ends.
#[derive(Drop)]
pub struct Pending {
    pub aaid: Aaid,
    pub writes: Writes,
}

/// A content, and the writes that are bound and not yet decided.
#[derive(Drop)]
pub struct Store {
    pub content: Content,
    pub undecided: Option<Pending>,
}

fn has_room(place: u64, bytes: usize) -> bool
    requires { place + bytes < 2 ^ 63 }
    ensures { result ≡ has_room place bytes }
{
    place + 4 + bytes as u64 + ROOM <= MOST_BYTES
}

impl Store {
    /// What stands where there is no body.
    pub fn new(alloc: Global) -> Store
        ensures { result ≡ empty }
    {
        Store {
            content: Content::new(alloc),
            undecided: None,
        }
    }

    fn bind(&mut self, aaid: Aaid, writes: Writes, room: bool) -> bool
        ensures { Takes self.old (bound aaid writes room self.old) self.new result }
    {
        if self.undecided.is_some() || !room {
            return false;
        }
        self.undecided = Some(Pending { aaid, writes });
        true
    }

    fn keep(&mut self, aaid: &Aaid) -> Result<bool, NoMemory>
        ensures { IfOk result (Takes self.old (decided aaid.now self.old.undecided (made self.old.content)) self.new) }
    {
        let Some(pending) = self.decide(aaid) else {
            return Ok(false);
        };
        self.content.make(pending.writes)?;
        Ok(true)
    }

    fn let_go(&mut self, aaid: &Aaid) -> bool
        ensures { Takes self.old (decided aaid.now self.old.undecided (λ writes. self.old.content)) self.new result }
    {
        self.decide(aaid).is_some()
    }

    // The undecided Bind, which is so no longer, where it is of that transaction.
    fn decide(&mut self, aaid: &Aaid) -> Option<Pending>
        ensures { Decides aaid.now self.old self.new result }
    {
        match self.undecided.take() {
            Some(pending) if is_aaid(&pending.aaid, aaid) => Some(pending),
            other => {
                self.undecided = other;
                None
            }
        }
    }

    /// Takes the next body, where it may stand there. The place is that of its gate. Without memory the store may be any: who reads
    /// a log throws it away then.
    pub fn take(&mut self, alloc: Global, place: u64, bytes: &[u8]) -> Result<bool, NoMemory>
        requires { place + length bytes.now < 2 ^ 63 }
        ensures { IfOk result (Takes self.old (taken place bytes.now self.old) self.new) }
    {
        let Some(body) = decode(alloc, bytes)? else {
            return Ok(false);
        };
        match body {
            Body::Bind { aaid, writes } => {
                let room = has_room(place, bytes.len());
                Ok(self.bind(aaid, writes, room))
            }
            Body::Keep { aaid } => self.keep(&aaid),
            Body::Drop { aaid } => Ok(self.let_go(&aaid)),
        }
    }
}
