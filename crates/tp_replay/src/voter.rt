//! The members of the program.
use std::alloc::Global;
use tp_names::NoMemory;
use tp_records::{Indication, Member, Request, Unwilling, Willing};

/// A member that always votes alike.
#[derive(Drop)]
pub enum Voter {
    Willing(Willing),
    Unwilling(Unwilling),
}

impl Member for Voter {
    ghost use Rattle.tp_records.specs.Answers.{AreWith};
    ghost use Rattle.tp_records.specs.declared.request.Request.{Request};
    ghost use Rattle.tp_replay.specs.Voters.{may_vote};

    ghost allowed = { λ m answers. may_vote m answers };

    fn told(
        &mut self,
        alloc: Global,
        node: u16,
        ind: &Indication,
    ) -> Result<Option<Request>, NoMemory> {
        match self {
            Voter::Willing(member) => member.told(alloc, node, ind),
            Voter::Unwilling(member) => member.told(alloc, node, ind),
        }
    }
}
