//! What a branch or the superior says of the transaction, which takes it up. Each record has a function of its own: an event
//! pays for the locals of that one alone.
ghost use Rattle.tp_records.specs.declared.dialogue.DialogueRecord.{DialogueRecord as RecordValue};
ghost use Rattle.tp_model.specs.declared.transaction.TxEvent.{TxEvent as EventValue};
ghost use Rattle.tp_model.specs.Node.{transact};
ghost use Rattle.tp_draft.specs.Draft.{Plays};

use crate::draft::Draft;
use std::alloc::Global;
use tp_model::TxEvent;
use tp_names::Report;
use tp_node::Halt;
use tp_records::DialogueRecord;

impl Draft {
    pub(crate) fn take_prepare(&mut self, alloc: Global, arc: u16) -> Result<(), Halt>
        ensures { Plays result self.old self.new (λ who. transact who (EventValue.Took arc RecordValue.Prepare)) }
    {
        let rec = DialogueRecord::Prepare;
        self.transact(alloc, &TxEvent::Took { arc, rec })
    }

    pub(crate) fn take_ready(&mut self, alloc: Global, arc: u16) -> Result<(), Halt>
        ensures { Plays result self.old self.new (λ who. transact who (EventValue.Took arc RecordValue.Ready)) }
    {
        let rec = DialogueRecord::Ready;
        self.transact(alloc, &TxEvent::Took { arc, rec })
    }

    pub(crate) fn take_commit(&mut self, alloc: Global, arc: u16) -> Result<(), Halt>
        ensures { Plays result self.old self.new (λ who. transact who (EventValue.Took arc RecordValue.Commit)) }
    {
        let rec = DialogueRecord::Commit;
        self.transact(alloc, &TxEvent::Took { arc, rec })
    }

    pub(crate) fn take_done(&mut self, alloc: Global, arc: u16, report: Report) -> Result<(), Halt>
        ensures { Plays result self.old self.new (λ who. transact who (EventValue.Took arc (RecordValue.Done report))) }
    {
        let rec = DialogueRecord::Done { report };
        self.transact(alloc, &TxEvent::Took { arc, rec })
    }

    pub(crate) fn take_rollback(&mut self, alloc: Global, arc: u16) -> Result<(), Halt>
        ensures { Plays result self.old self.new (λ who. transact who (EventValue.Took arc RecordValue.Rollback)) }
    {
        let rec = DialogueRecord::Rollback;
        self.transact(alloc, &TxEvent::Took { arc, rec })
    }

    pub(crate) fn take_rolled_back(
        &mut self,
        alloc: Global,
        arc: u16,
        report: Report,
    ) -> Result<(), Halt>
        ensures { Plays result self.old self.new (λ who. transact who (EventValue.Took arc (RecordValue.RolledBack report))) }
    {
        let rec = DialogueRecord::RolledBack { report };
        self.transact(alloc, &TxEvent::Took { arc, rec })
    }
}
