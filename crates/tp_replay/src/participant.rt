//! The members of `replay`.
ghost use Rattle.std.specs.Prelude.{◌≡◌, IfOk};
ghost use Rattle.tp_replay.specs.Certain.{AreCertain, IsWell, NeverFails};
ghost use Rattle.tp_replay.specs.Participants.{may_answer, numbered};
ghost use Rattle.tp_replay.specs.Transcribing.{may_of};

use crate::voter::Voter;
use std::alloc::{AllocError, Global};
use tp_bound::Bound;
use tp_names::NoMemory;
use tp_outside::Disk;
use tp_records::{Indication, Member, Request, Unwilling, Willing};

/// A member that always votes alike, or a bound store.
#[derive(Drop)]
pub enum Participant<D: Disk> {
    Alike(Voter),
    Stored(Bound<D>),
}

impl<D: Disk + Drop> Member for Participant<D> {
    ghost use Rattle.tp_replay.specs.Participants.{may_answer};

    ghost allowed = { λ m answers. may_answer D.fault_count m answers };

    fn told(
        &mut self,
        alloc: Global,
        node: u16,
        ind: &Indication,
    ) -> Result<Option<Request>, NoMemory> {
        match self {
            Participant::Alike(voter) => voter.told(alloc, node, ind),
            Participant::Stored(store) => Member::told(store, alloc, node, ind),
        }
    }
}

/// Member 1 is willing, member 2 unwilling, and member 3 the store, where there is one. Over a disk that never fails, where the store
/// is not shut, each has one answer to what it is told after the same answers.
pub fn participants<D: Disk + Drop>(
    alloc: Global,
    store: Option<Bound<D>>,
) -> Result<Vec<Participant<D>>, AllocError>
    ensures numbered { IfOk result (λ members. members.items ≡ numbered store) }
    // Promise 18.19, part 2
    ensures certain { NeverFails D.fault_count → IsWell store → IfOk result (λ members. AreCertain (may_of (may_answer D.fault_count) members.items)) }
{
    let mut members = Vec::new(alloc);
    members.push(Participant::Alike(Voter::Willing(Willing)))?;
    members.push(Participant::Alike(Voter::Unwilling(Unwilling)))?;
    if let Some(store) = store {
        members.push(Participant::Stored(store))?;
    }
    Ok(members)
}
