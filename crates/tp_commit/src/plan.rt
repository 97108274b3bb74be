//! What an event asks for, and what it leaves.
ghost use Rattle.std.specs.Prelude.{◌≡◌, ◌+◌, ◌≤◌, ◌++◌, [], None, Ok, IfOk, OnOk, OnErr, length};
ghost use Rattle.tp_model.specs.Transactions.{transacted, refused_tx, step_of, fresh_rows};
ghost use Rattle.tp_model.specs.Refusal.{IsRefusedAs};
ghost use Rattle.tp_commit.specs.Branch.{standing, begins, with_begun};
ghost use Rattle.tp_commit.specs.Rules.{turn_of, run, set_off, later, IsAlong, StopsAlong};

use crate::Branch;
use crate::rule::{Course, Rule};
use std::alloc::Global;
use tp_logrec::LogRec;
use tp_model::{Phase, Step, TxEvent, TxFault, TxOuts};
use tp_names::{Child, NoMemory};

impl Branch {
    // A rule of a course, which is often none, after what the step has by now.
    #[inline(always)]
    #[tactic(auto, using(crate::proofs::Courses::nothing_said))]
    fn carry_out(&mut self, alloc: Global, rule: Rule, step: &mut Step) -> Result<(), NoMemory>
        ensures next { OnOk result (self.new ≡ (turn_of rule self.old).next) }
        ensures rec { OnOk result (step.new.rec ≡ later step.old.rec (turn_of rule self.old).rec) }
        ensures outs { OnOk result (step.new.outs ≡ step.old.outs ++ (turn_of rule self.old).outs) }
        ensures same { OnErr result (self.new ≡ self.old) }
    {
        if let Rule::Nothing = rule {
            return Ok(());
        }
        self.do_rule(alloc, rule, step)
    }

    // The rules of a course, each at what the one before it leaves. The step, in which nothing stands, becomes what they ask
    // for. Without memory the transaction stands as the rules before the one that stops leave it, and the step may be any.
    #[tactic(auto, using(crate::proofs::Courses::stops_first, crate::proofs::Courses::stops_second, crate::proofs::Courses::stops_third))]
    fn follow(&mut self, alloc: Global, course: Course, step: &mut Step) -> Result<(), NoMemory>
        requires rec { step.old.rec ≡ None }
        requires outs { step.old.outs ≡ [] }
        ensures step { OnOk result (step.new ≡ step_of (run course self.old)) }
        ensures next { OnOk result (self.new ≡ (run course self.old).next) }
        ensures along { OnErr result (IsAlong course self.old self.new) }
    {
        self.carry_out(alloc, course.first, step)?;
        self.carry_out(alloc, course.second, step)?;
        self.carry_out(alloc, course.third, step)?;
        Ok(())
    }

    // Promise 10.9: What an event of a transaction asks for, by what it is refused and what it
    //   leaves are what the rules say, with one record at most
    /// What an event asks for: at most one record of the log, and outputs in order; or the number by
    /// which it is refused. It changes nothing. What the dialogue of an arc refuses, and what a record
    /// from the wrong side comes to, is not looked at here.
    pub fn plan(&self, alloc: Global, event: &TxEvent) -> Result<Step, TxFault>
        ensures step { IfOk result (λ step. step ≡ step_of (transacted event.now self.now)) }
        ensures refused { IsRefusedAs result (refused_tx event.now self.now) }
    {
        if let Some(refusal) = self.refused(event) {
            return Err(TxFault::Refused(refusal.number()));
        }
        Ok(self.step(alloc, event)?)
    }

    /// What an event asks for, as `plan` says it, for an event that is known not to be refused: nothing is
    /// refused here.
    #[tactic(auto, using(crate::proofs::Events::says_alike))]
    pub fn step(&self, alloc: Global, event: &TxEvent) -> Result<Step, NoMemory>
        ensures { IfOk result (λ step. step ≡ step_of (transacted event.now self.now)) }
    {
        let course = self.course(event);
        let mut step = Step {
            rec: None,
            outs: TxOuts::new(alloc),
        };
        self.copy(alloc)?.follow(alloc, course, &mut step)?;
        Ok(step)
    }

    // Promise 10.9, part 3
    /// Takes an event that is not refused: the step, in which nothing stands, becomes what it asks for, as `plan` says it, in
    /// the memory that it has, and the transaction stands as the event leaves it, as `apply` says it. Without memory nothing
    /// stands in the step, and the transaction is as the first of the rules that the event sets off leave it, or none of them.
    pub fn turn(&mut self, alloc: Global, event: &TxEvent, step: &mut Step) -> Result<(), NoMemory>
        requires rec { step.old.rec ≡ None }
        requires outs { step.old.outs ≡ [] }
        ensures step { OnOk result (step.new ≡ step_of (transacted event.now self.old)) }
        ensures next { OnOk result (self.new ≡ standing (transacted event.now self.old).next) }
        ensures along { OnErr result (StopsAlong event.now self.old self.new) }
        ensures unsaid { OnErr result (step.new ≡ record { rec = None; outs = [] }) }
    {
        if let Err(error) = self.run(alloc, event, step) {
            empty(step);
            return Err(error);
        }
        self.stand();
        Ok(())
    }

    // The rules that an event sets off, and the branches that it begins.
    #[inline(always)]
    #[tactic(auto, using(crate::proofs::Events::says_alike, crate::proofs::Events::begins_after))]
    fn run(&mut self, alloc: Global, event: &TxEvent, step: &mut Step) -> Result<(), NoMemory>
        requires rec { step.old.rec ≡ None }
        requires outs { step.old.outs ≡ [] }
        ensures step { OnOk result (step.new ≡ step_of (transacted event.now self.old)) }
        ensures next { OnOk result (self.new ≡ (transacted event.now self.old).next) }
        ensures along { OnErr result (StopsAlong event.now self.old self.new) }
    {
        let course = self.course(event);
        self.follow(alloc, course, step)?;
        self.begin_by(event)
    }

    // What an event changes, but for the branches that it begins.
    fn go_on(&mut self, event: &TxEvent)
        ensures { self.new ≡ (set_off event.now self.old).next }
    {
        let course = self.course(event);
        self.change(course.first);
        self.change(course.second);
        self.change(course.third);
    }

    fn begin_each(&mut self, arcs: &[Child]) -> Result<(), NoMemory>
        ensures begun { OnOk result (self.new ≡ record self.old { rows = self.old.rows ++ fresh_rows arcs.now }) }
        ensures memory { length arcs.now ≡ 0 → result ≡ Ok tt }
        ensures reserved { length self.old.rows + length arcs.now ≤ 256 → result ≡ Ok tt }
        ensures same { OnErr result (self.new ≡ self.old) }
    {
        self.rows.begin_each(arcs)
    }

    // The branches that an event begins.
    fn begin_by(&mut self, event: &TxEvent) -> Result<(), NoMemory>
        ensures begun { OnOk result (self.new ≡ record self.old { rows = with_begun event.now self.old.rows }) }
        ensures memory { begins event.now ≡ 0 → result ≡ Ok tt }
        ensures reserved { length self.old.rows + begins event.now ≤ 256 → result ≡ Ok tt }
        ensures same { OnErr result (self.new ≡ self.old) }
    {
        match event {
            TxEvent::Begun { arcs } => self.begin_each(arcs.as_slice()),
            TxEvent::User(_)
            | TxEvent::Took { .. }
            | TxEvent::Lost { .. }
            | TxEvent::Heur(_)
            | TxEvent::GiveUp { .. }
            | TxEvent::Ordered
            | TxEvent::Reply { .. }
            | TxEvent::Retry => Ok(()),
        }
    }

    fn stand(&mut self)
        ensures { self.new ≡ standing self.old }
    {
        let rolls = self.phase == Phase::Rolling;
        self.up_ends = self.up_ends && !rolls;
        self.rows.stand(rolls);
    }

    // Promise 10.9, part 2
    // Promise 10.10: Applying an event and adding a branch need no memory while there are, with
    //   those that begin, at most 256 branches; `Branch::turn`, which the programs call, may need
    //   memory
    /// Takes an event that is not refused: the transaction stands as the event leaves it, before the next
    /// one starts. It takes no memory but where there are more than 256 branches with those that the event begins; without memory
    /// nothing changes.
    #[tactic(auto, using(crate::proofs::Events::begins_after))]
    pub fn apply(&mut self, event: &TxEvent) -> Result<(), NoMemory>
        ensures next { OnOk result (self.new ≡ standing (transacted event.now self.old).next) }
        ensures memory { begins event.now ≡ 0 → result ≡ Ok tt }
        ensures reserved { length self.old.rows + begins event.now ≤ 256 → result ≡ Ok tt }
        ensures same { OnErr result (self.new ≡ self.old) }
    {
        self.go_on(event);
        self.begin_by(event)?;
        self.stand();
        Ok(())
    }
}

// Nothing stands in the step.
fn empty(step: &mut Step)
    ensures { step.new ≡ record { rec = None; outs = [] } }
{
    step.rec = None;
    step.outs.clear();
}
