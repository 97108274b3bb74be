//! The records of recovery, which a draft takes beside the associations.
ghost use Rattle.tp_records.specs.declared.peer.PeerRecord.{PeerRecord};
ghost use Rattle.tp_model.specs.Recovery.{forget_to};
ghost use Rattle.tp_model.specs.Node.{perform};
ghost use Rattle.tp_model.specs.Arrivals.{branch_key, reply_to, take_order, take_forget, take_ready_reply, take_done_reply, take_reply, do_arrival};
ghost use Rattle.tp_draft.specs.Draft.{Plays};
ghost use Rattle.tp_draft.specs.Replies.{done_of};

use crate::draft::Draft;
use std::alloc::Global;
use tp_model::{KeptEvent, Phase, Question, TxEvent};
use tp_names::{Aaid, Addr, BranchId, NodeKey, Report};
use tp_node::{Halt, key_of};
use tp_records::{PeerRecord, RecState};
use tp_recover::{answer, forget_to};

impl Draft {
    // The answer to a question, where there is one.
    fn reply_to(
        &mut self,
        from: Addr,
        aaid: Aaid,
        branch: BranchId,
        state: Option<RecState>,
    ) -> Result<(), Halt>
        ensures { Plays result self.old self.new (λ who. reply_to from aaid branch state) }
    {
        match state {
            None => Ok(()),
            Some(state) => self.send(
                from,
                PeerRecord::RecReply {
                    aaid,
                    branch,
                    state,
                },
            ),
        }
    }

    /// A ready branch asks what became of its transaction.
    pub(crate) fn take_question(
        &mut self,
        from: Addr,
        aaid: Aaid,
        branch: BranchId,
    ) -> Result<(), Halt>
        ensures { Plays result self.old self.new (λ who. do_arrival who from (PeerRecord.RecReady aaid branch)) }
    {
        let known = self.node().known_by_branch(&aaid, &branch);
        self.reply_to(from, aaid, branch, answer(known, Question::RecReady))
    }

    /// The superior orders commitment.
    pub(crate) fn take_order(
        &mut self,
        alloc: Global,
        from: Addr,
        aaid: Aaid,
        branch: BranchId,
    ) -> Result<(), Halt>
        ensures { Plays result self.old self.new (λ who. take_order who from aaid branch) }
    {
        let key = key_of(&aaid, &branch);
        if self.node().is_ready_by_key(&key) {
            return self.transact(alloc, &TxEvent::Ordered);
        }
        let known = self.node().known_by_key(&key, &branch);
        self.reply_to(from, aaid, branch, answer(known, Question::RecCommit))
    }

    // The superior forgets the branch of that key.
    fn take_forget(&mut self, alloc: Global, key: &NodeKey) -> Result<(), Halt>
        ensures { Plays result self.old self.new (λ who. take_forget key.now) }
    {
        let Some(kept) = self.node().kept_copy(alloc, key)? else {
            return Ok(());
        };
        self.note_forget(alloc, key)?;
        self.settle_by(alloc, &kept, &KeptEvent::Forget)
    }

    /// The superior forgets the branch.
    pub(crate) fn take_forget_of(
        &mut self,
        alloc: Global,
        aaid: &Aaid,
        branch: &BranchId,
    ) -> Result<(), Halt>
        ensures { Plays result self.old self.new (λ who. take_forget (branch_key aaid.now branch.now)) }
    {
        self.take_forget(alloc, &key_of(aaid, branch))
    }

    // A reply that a ready transaction of that key takes.
    fn take_ready_reply(
        &mut self,
        alloc: Global,
        aaid: Aaid,
        branch: BranchId,
        state: RecState,
    ) -> Result<(), Halt>
        ensures { Plays result self.old self.new (λ who. take_ready_reply who aaid branch state) }
    {
        let key = key_of(&aaid, &branch);
        if !self.node().is_ready_by_key(&key) {
            return Ok(());
        }
        self.transact(alloc, &TxEvent::Reply { branch, state })
    }

    // A Done of a branch of which nothing is known is forgotten, where it has a report.
    fn forget_to(
        &mut self,
        alloc: Global,
        from: Addr,
        aaid: Aaid,
        branch: BranchId,
        report: Report,
    ) -> Result<(), Halt>
        ensures { Plays result self.old self.new (λ who. perform (forget_to from (branch_key aaid branch) branch report)) }
    {
        let outs = forget_to(alloc, from, &key_of(&aaid, &branch), branch, report)?;
        self.perform(alloc, outs.as_slice())
    }

    // A Done comes as a reply, of the transaction of that key.
    #[tactic(auto, using(crate::proofs::Replies::done_committing, crate::proofs::Replies::done_kept, crate::proofs::Replies::done_current, crate::proofs::Replies::done_gone))]
    fn take_done_of(
        &mut self,
        alloc: Global,
        key: &NodeKey,
        from: Addr,
        aaid: Aaid,
        branch: BranchId,
        report: Report,
    ) -> Result<(), Halt>
        ensures { Plays result self.old self.new (done_of key.now from aaid branch report) }
    {
        if self.node().is_committing_by_key(key) {
            let state = RecState::Done(report);
            return self.transact(alloc, &TxEvent::Reply { branch, state });
        }
        if let Some(kept) = self.node().kept_copy(alloc, key)? {
            let event = KeptEvent::Done {
                from,
                branch,
                report,
            };
            return self.settle_by(alloc, &kept, &event);
        }
        if self.node().has_current_key(key) {
            return Ok(());
        }
        self.forget_to(alloc, from, aaid, branch, report)
    }

    // A Done comes as a reply.
    fn take_done_reply(
        &mut self,
        alloc: Global,
        from: Addr,
        aaid: Aaid,
        branch: BranchId,
        report: Report,
    ) -> Result<(), Halt>
        ensures { Plays result self.old self.new (λ who. take_done_reply who from aaid branch report) }
    {
        match self.node().key_of_branch(&aaid, &branch) {
            None => self.forget_to(alloc, from, aaid, branch, report),
            Some(key) => self.take_done_of(alloc, &key, from, aaid, branch, report),
        }
    }

    /// A reply comes to a question, or a Done of a branch.
    pub(crate) fn take_reply(
        &mut self,
        alloc: Global,
        from: Addr,
        aaid: Aaid,
        branch: BranchId,
        state: RecState,
    ) -> Result<(), Halt>
        ensures { Plays result self.old self.new (λ who. take_reply who from aaid branch state) }
    {
        match state {
            RecState::Done(report) => self.take_done_reply(alloc, from, aaid, branch, report),
            RecState::Commit => self.take_ready_reply(alloc, aaid, branch, RecState::Commit),
            RecState::Unknown => self.take_ready_reply(alloc, aaid, branch, RecState::Unknown),
            RecState::RetryLater => self.take_ready_reply(
                alloc,
                aaid,
                branch,
                RecState::RetryLater,
            ),
        }
    }
}
