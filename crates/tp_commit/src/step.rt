//! What each rule says.
ghost use Rattle.std.specs.Prelude.{◌≡◌, ◌++◌, [], ◌∷◌, Some, OnOk, OnErr};
ghost use Rattle.tp_model.specs.Transactions.{aaid_of, log_ready, log_commit, log_end, log_damage, log_heuristic, carry_up, done_up, end_up, tell_report, rollback_rec, begin_rolling, complete_commit, complete_rollback, order, settle, leave, retried};
ghost use Rattle.tp_model.specs.declared.transaction.TxOut.{TxOut};
ghost use Rattle.tp_records.specs.declared.dialogue.DialogueRecord.{DialogueRecord};
ghost use Rattle.tp_records.specs.declared.indication.Indication.{Indication};
ghost use Rattle.tp_records.specs.declared.peer.PeerRecord.{PeerRecord};
ghost use Rattle.tp_records.specs.declared.peer.RecState.{RecState};
ghost use Rattle.tp_commit.specs.Rules.{turn_of, later, final_report, completion_rec, said_at_completion, give_up_branch, ask_superior};

use crate::rule::Rule;
use crate::{Branch, rows};
use std::alloc::Global;
use tp_logrec::LogRec;
use tp_model::{Phase, Step, TxOut, TxOuts};
use tp_names::{Addr, BranchId, Children, NoMemory, Outcome, Report};
use tp_records::{DialogueRecord, Indication, PeerRecord, RecState};

// Each output is made in a function of its own: a rule pays for those that it says alone. Where memory runs out a rule changes
// nothing of the transaction, and what the step has by then is thrown away.

// Prepare goes out on the arc.
fn prepare(alloc: Global, arc: u16, outs: &mut TxOuts) -> Result<(), NoMemory>
    ensures { OnOk result (outs.new ≡ outs.old ++ TxOut.Carry arc DialogueRecord.Prepare ∷ []) }
{
    let rec = DialogueRecord::Prepare;
    outs.push(alloc, TxOut::Carry { arc, rec })
}

// A deferred end goes out on the arc.
fn defer_end(alloc: Global, arc: u16, outs: &mut TxOuts) -> Result<(), NoMemory>
    ensures { OnOk result (outs.new ≡ outs.old ++ TxOut.Carry arc DialogueRecord.DeferEnd ∷ []) }
{
    let rec = DialogueRecord::DeferEnd;
    outs.push(alloc, TxOut::Carry { arc, rec })
}

// A deferred grant goes out on the arc.
fn defer_grant(alloc: Global, arc: u16, outs: &mut TxOuts) -> Result<(), NoMemory>
    ensures { OnOk result (outs.new ≡ outs.old ++ TxOut.Carry arc DialogueRecord.DeferGrant ∷ []) }
{
    let rec = DialogueRecord::DeferGrant;
    outs.push(alloc, TxOut::Carry { arc, rec })
}

// The dialogue on the arc is aborted.
fn abort(alloc: Global, arc: u16, outs: &mut TxOuts) -> Result<(), NoMemory>
    ensures { OnOk result (outs.new ≡ outs.old ++ TxOut.Carry arc DialogueRecord.UAbort ∷ TxOut.Close arc ∷ []) }
{
    let rec = DialogueRecord::UAbort;
    outs.push(alloc, TxOut::Carry { arc, rec })?;
    close(alloc, arc, outs)
}

// The arc closes.
fn close(alloc: Global, arc: u16, outs: &mut TxOuts) -> Result<(), NoMemory>
    ensures { OnOk result (outs.new ≡ outs.old ++ TxOut.Close arc ∷ []) }
{
    outs.push(alloc, TxOut::Close { arc })
}

// The branch on the arc is ready.
fn tell_ready(alloc: Global, arc: u16, outs: &mut TxOuts) -> Result<(), NoMemory>
    ensures { OnOk result (outs.new ≡ outs.old ++ TxOut.Tell (Indication.Ready arc) ∷ []) }
{
    let told = Indication::Ready { peer: arc };
    outs.push(alloc, TxOut::Tell(told))
}

// The branch on the arc has left.
fn tell_left(alloc: Global, arc: u16, outs: &mut TxOuts) -> Result<(), NoMemory>
    ensures { OnOk result (outs.new ≡ outs.old ++ TxOut.Tell (Indication.Left arc) ∷ []) }
{
    let told = Indication::Left { peer: arc };
    outs.push(alloc, TxOut::Tell(told))
}

// The end of the dialogue on the arc is deferred.
fn tell_end(alloc: Global, arc: u16, outs: &mut TxOuts) -> Result<(), NoMemory>
    ensures { OnOk result (outs.new ≡ outs.old ++ TxOut.Tell (Indication.DeferEnd arc) ∷ []) }
{
    let told = Indication::DeferEnd { peer: arc };
    outs.push(alloc, TxOut::Tell(told))
}

// A grant on the arc is deferred.
fn tell_grant(alloc: Global, arc: u16, outs: &mut TxOuts) -> Result<(), NoMemory>
    ensures { OnOk result (outs.new ≡ outs.old ++ TxOut.Tell (Indication.DeferGrant arc) ∷ []) }
{
    let told = Indication::DeferGrant { peer: arc };
    outs.push(alloc, TxOut::Tell(told))
}

// The user on the arc has aborted.
fn tell_abort(alloc: Global, arc: u16, outs: &mut TxOuts) -> Result<(), NoMemory>
    ensures { OnOk result (outs.new ≡ outs.old ++ TxOut.Tell (Indication.UAbort arc) ∷ []) }
{
    let told = Indication::UAbort { peer: arc };
    outs.push(alloc, TxOut::Tell(told))
}

// The arc is lost.
fn tell_loss(alloc: Global, arc: u16, outs: &mut TxOuts) -> Result<(), NoMemory>
    ensures { OnOk result (outs.new ≡ outs.old ++ TxOut.Tell (Indication.PAbort arc) ∷ []) }
{
    let told = Indication::PAbort { peer: arc };
    outs.push(alloc, TxOut::Tell(told))
}

// The superior asks to prepare.
fn tell_prepare(alloc: Global, outs: &mut TxOuts) -> Result<(), NoMemory>
    ensures { OnOk result (outs.new ≡ outs.old ++ TxOut.Tell Indication.Prepare ∷ []) }
{
    outs.push(alloc, TxOut::Tell(Indication::Prepare))
}

// The arc is shut.
fn shut(alloc: Global, arc: u16, outs: &mut TxOuts) -> Result<(), NoMemory>
    ensures { OnOk result (outs.new ≡ outs.old ++ TxOut.Shut arc ∷ []) }
{
    outs.push(alloc, TxOut::Shut { arc })
}

fn tell_done(alloc: Global, arc: u16, report: Report, outs: &mut TxOuts) -> Result<(), NoMemory>
    ensures { OnOk result (outs.new ≡ outs.old ++ TxOut.Carry arc (DialogueRecord.Done report) ∷ []) }
{
    let rec = DialogueRecord::Done { report };
    outs.push(alloc, TxOut::Carry { arc, rec })
}

fn tell_committed(alloc: Global, report: Report, outs: &mut TxOuts) -> Result<(), NoMemory>
    ensures { OnOk result (outs.new ≡ outs.old ++ TxOut.Tell (Indication.CommitComplete report) ∷ []) }
{
    outs.push(alloc, TxOut::Tell(Indication::CommitComplete { report }))
}

// A report that is none is not told.
fn tell_report(alloc: Global, arc: u16, report: Report, outs: &mut TxOuts) -> Result<(), NoMemory>
    ensures { OnOk result (outs.new ≡ outs.old ++ tell_report arc report) }
{
    if report == Report::None {
        return Ok(());
    }
    tell_damage(alloc, arc, report, outs)
}

fn tell_damage(alloc: Global, arc: u16, report: Report, outs: &mut TxOuts) -> Result<(), NoMemory>
    ensures { OnOk result (outs.new ≡ outs.old ++ TxOut.Tell (Indication.HeuristicReport arc report) ∷ []) }
{
    let told = Indication::HeuristicReport { peer: arc, report };
    outs.push(alloc, TxOut::Tell(told))
}

impl Branch {
    // ---- the records of the log, each put where the one before stands

    fn log_ready(&self, alloc: Global, rec: &mut Option<LogRec>) -> Result<(), NoMemory>
        ensures { OnOk result (rec.new ≡ later rec.old (log_ready self.now)) }
    {
        let (Some(_), Some(superior)) = (self.key.branch, self.superior) else {
            return Ok(());
        };
        let children = rows::children_of(alloc, self.rows.as_slice())?;
        *rec = Some(LogRec::Ready {
            node: self.node,
            key: self.key,
            superior,
            children,
        });
        Ok(())
    }

    #[inline(always)]
    fn log_commit(&self, alloc: Global, rec: &mut Option<LogRec>) -> Result<(), NoMemory>
        ensures { OnOk result (rec.new ≡ Some (log_commit self.now)) }
    {
        let children = rows::children_of(alloc, self.rows.as_slice())?;
        *rec = Some(LogRec::Commit {
            node: self.node,
            key: self.key,
            superior: self.superior(),
            children,
        });
        Ok(())
    }

    #[inline(always)]
    fn log_end(&self, outcome: Outcome, rec: &mut Option<LogRec>)
        ensures { rec.new ≡ Some (log_end self.now outcome) }
    {
        *rec = Some(LogRec::End {
            node: self.node,
            key: self.key,
            outcome,
        });
    }

    fn log_damage(&self, side: Outcome, report: Report, owed: Children, rec: &mut Option<LogRec>)
        ensures { rec.new ≡ Some (log_damage self.now side report owed) }
    {
        *rec = Some(LogRec::Damage {
            node: self.node,
            key: self.key,
            superior: self.superior(),
            side,
            report,
            owed,
        });
    }

    fn log_heuristic(&self, outcome: Outcome, rec: &mut Option<LogRec>)
        ensures { rec.new ≡ Some (log_heuristic self.now outcome) }
    {
        *rec = Some(LogRec::Heuristic {
            node: self.node,
            key: self.key,
            outcome,
        });
    }

    // A ready node logs the end, or the damage where it had decided to commit.
    fn log_rollback(&self, alloc: Global, rec: &mut Option<LogRec>)
        ensures { rec.new ≡ later rec.old (rollback_rec self.now) }
    {
        if self.phase != Phase::Ready {
            return;
        }
        if self.is_own_commit() {
            self.log_damage(Outcome::Rollback, Report::Mix, Children::new(alloc), rec);
        } else {
            self.log_end(Outcome::Rollback, rec);
        }
    }

    // ---- outputs to the superior, and to the arcs

    #[inline(always)]
    fn carry_up(
        &self,
        alloc: Global,
        rec: DialogueRecord,
        outs: &mut TxOuts,
    ) -> Result<(), NoMemory>
        ensures { OnOk result (outs.new ≡ outs.old ++ carry_up self.now rec) }
    {
        let (Some(_), Some(superior)) = (self.key.branch, self.superior) else {
            return Ok(());
        };
        if !self.up {
            return Ok(());
        }
        outs.push(
            alloc,
            TxOut::Carry {
                arc: superior.node,
                rec,
            },
        )
    }

    // The superior learns that this branch is done: over its arc, or by a reply.
    fn done_up(&self, alloc: Global, report: Report, outs: &mut TxOuts) -> Result<(), NoMemory>
        ensures { OnOk result (outs.new ≡ outs.old ++ done_up self.now report) }
    {
        let (Some(branch), Some(superior)) = (self.key.branch, self.superior) else {
            return Ok(());
        };
        if self.up {
            return tell_done(alloc, superior.node, report, outs);
        }
        self.reply_done(alloc, superior, branch, report, outs)
    }

    // It learns it by a reply.
    fn reply_done(
        &self,
        alloc: Global,
        to: Addr,
        branch: BranchId,
        report: Report,
        outs: &mut TxOuts,
    ) -> Result<(), NoMemory>
        ensures { OnOk result (outs.new ≡ outs.old ++ TxOut.Recovery to (PeerRecord.RecReply (aaid_of self.now.key) branch (RecState.Done report)) ∷ []) }
    {
        let rec = PeerRecord::RecReply {
            aaid: self.key.aaid,
            branch,
            state: RecState::Done(report),
        };
        outs.push(alloc, TxOut::Recovery { to, rec })
    }

    fn end_up(&self, alloc: Global, outs: &mut TxOuts) -> Result<(), NoMemory>
        ensures { OnOk result (outs.new ≡ outs.old ++ end_up self.now) }
    {
        let (Some(_), Some(superior)) = (self.key.branch, self.superior) else {
            return Ok(());
        };
        if !self.up_ends {
            return Ok(());
        }
        close(alloc, superior.node, outs)
    }

    // ---- what the rules log

    // Mix where the node decided to roll back, and what is reported of the branches.
    fn final_report(&self) -> Report
        ensures { result ≡ final_report self.now }
    {
        let own = match self.decision {
            Some(Outcome::Rollback) => Report::Mix,
            Some(Outcome::Commit) | None => Report::None,
        };
        own.join(rows::reports_of(self.rows.as_slice()))
    }

    // A commitment that is complete, with that report.
    fn log_complete(
        &self,
        alloc: Global,
        report: Report,
        rec: &mut Option<LogRec>,
    ) -> Result<(), NoMemory>
        ensures { OnOk result (rec.new ≡ Some (completion_rec self.now report)) }
    {
        if report == Report::None {
            self.log_end(Outcome::Commit, rec);
            return Ok(());
        }
        let owed = rows::owed_of(alloc, self.rows.as_slice())?;
        self.log_damage(Outcome::Commit, report, owed, rec);
        Ok(())
    }

    // ---- what the rules say

    // A commitment that is complete, with that report.
    fn say_complete(&self, alloc: Global, report: Report, outs: &mut TxOuts) -> Result<(), NoMemory>
        ensures { OnOk result (outs.new ≡ outs.old ++ said_at_completion self.now report) }
    {
        let rows = self.rows.as_slice();
        rows::forgets(alloc, &self.key.aaid, rows, outs)?;
        self.done_up(alloc, report, outs)?;
        tell_committed(alloc, report, outs)?;
        rows::ends_down(alloc, rows, outs)?;
        self.end_up(alloc, outs)
    }

    fn say_rolled_back(
        &self,
        alloc: Global,
        report: Report,
        outs: &mut TxOuts,
    ) -> Result<(), NoMemory>
        ensures { OnOk result (outs.new ≡ outs.old
            ++ (carry_up self.now (DialogueRecord.RolledBack report) ++ TxOut.Tell (Indication.RollbackComplete report) ∷ [])) }
    {
        self.carry_up(alloc, DialogueRecord::RolledBack { report }, outs)?;
        outs.push(alloc, TxOut::Tell(Indication::RollbackComplete { report }))
    }

    #[tactic(auto, unfolding(tp_model::specs::Transactions::begin_rolling))]
    fn say_begin_rolling(
        &self,
        alloc: Global,
        asked: bool,
        outs: &mut TxOuts,
    ) -> Result<(), NoMemory>
        ensures { OnOk result (outs.new ≡ outs.old ++ (begin_rolling asked self.now).outs) }
    {
        if !asked {
            outs.push(alloc, TxOut::Tell(Indication::Rollback))?;
        }
        self.carry_up(alloc, DialogueRecord::Rollback, outs)?;
        rows::carry_down(alloc, self.rows.as_slice(), Outcome::Rollback, outs)
    }

    #[tactic(auto, unfolding(tp_model::specs::Transactions::order))]
    fn say_order(&self, alloc: Global, outs: &mut TxOuts) -> Result<(), NoMemory>
        ensures { OnOk result (outs.new ≡ outs.old ++ (order self.now).outs) }
    {
        rows::carry_down(alloc, self.rows.as_slice(), Outcome::Commit, outs)?;
        outs.push(alloc, TxOut::Tell(Indication::Commit))
    }

    #[tactic(auto, unfolding(tp_model::specs::Transactions::leave))]
    fn say_leave(&self, alloc: Global, outs: &mut TxOuts) -> Result<(), NoMemory>
        ensures { OnOk result (outs.new ≡ outs.old ++ (leave self.now).outs) }
    {
        if !self.up_ends {
            return self.carry_up(alloc, DialogueRecord::Left, outs);
        }
        self.carry_up(alloc, DialogueRecord::LeftEnd, outs)?;
        self.end_up(alloc, outs)
    }

    // Where the arc of a branch that is given up is live, it is shut.
    fn say_give_up(&self, alloc: Global, arc: u16, outs: &mut TxOuts) -> Result<(), NoMemory>
        ensures { OnOk result (outs.new ≡ outs.old ++ (give_up_branch arc self.now).outs) }
    {
        match self.rows.find(arc) {
            Some(row) if row.live => shut(alloc, arc, outs),
            _ => Ok(()),
        }
    }

    // What is asked and told again.
    fn retried(&self, alloc: Global, outs: &mut TxOuts) -> Result<(), NoMemory>
        ensures { OnOk result (outs.new ≡ outs.old ++ retried self.now) }
    {
        match self.phase {
            Phase::Nil | Phase::Active | Phase::Rolling => Ok(()),
            Phase::Ready => self.ask_superior(alloc, outs),
            Phase::Committing => {
                if self.owes {
                    outs.push(alloc, TxOut::Tell(Indication::Commit))?;
                }
                rows::ask_each(alloc, &self.key.aaid, self.rows.as_slice(), outs)
            }
        }
    }

    // A ready node asks its superior.
    fn ask_superior(&self, alloc: Global, outs: &mut TxOuts) -> Result<(), NoMemory>
        ensures { OnOk result (outs.new ≡ outs.old ++ ask_superior self.now) }
    {
        let (Some(branch), Some(superior)) = (self.key.branch, self.superior) else {
            return Ok(());
        };
        let rec = PeerRecord::RecReady {
            aaid: self.key.aaid,
            branch,
        };
        outs.push(alloc, TxOut::Recovery { to: superior, rec })
    }

    // ---- the rules that log or wait, each after what the step has by now

    // A subordinate is ready.
    fn do_ready(&mut self, alloc: Global, step: &mut Step) -> Result<(), NoMemory>
        ensures next { OnOk result (self.new ≡ record self.old { phase = Phase.Ready }) }
        ensures rec { OnOk result (step.new.rec ≡ later step.old.rec (log_ready self.old)) }
        ensures outs { OnOk result (step.new.outs ≡ step.old.outs ++ carry_up self.old DialogueRecord.Ready) }
        ensures same { OnErr result (self.new ≡ self.old) }
    {
        self.log_ready(alloc, &mut step.rec)?;
        self.carry_up(alloc, DialogueRecord::Ready, &mut step.outs)?;
        self.phase = Phase::Ready;
        Ok(())
    }

    // Commit is ordered.
    #[tactic(auto, unfolding(tp_model::specs::Transactions::order))]
    fn do_order(&mut self, alloc: Global, step: &mut Step) -> Result<(), NoMemory>
        ensures next { OnOk result (self.new ≡ (order self.old).next) }
        ensures rec { OnOk result (step.new.rec ≡ later step.old.rec (order self.old).rec) }
        ensures outs { OnOk result (step.new.outs ≡ step.old.outs ++ (order self.old).outs) }
        ensures same { OnErr result (self.new ≡ self.old) }
    {
        self.log_commit(alloc, &mut step.rec)?;
        self.say_order(alloc, &mut step.outs)?;
        self.order();
        Ok(())
    }

    // A root orders, a subordinate is ready.
    #[tactic(auto, unfolding(tp_model::specs::Transactions::settle))]
    fn do_settle(&mut self, alloc: Global, step: &mut Step) -> Result<(), NoMemory>
        ensures next { OnOk result (self.new ≡ (settle self.old).next) }
        ensures rec { OnOk result (step.new.rec ≡ later step.old.rec (settle self.old).rec) }
        ensures outs { OnOk result (step.new.outs ≡ step.old.outs ++ (settle self.old).outs) }
        ensures same { OnErr result (self.new ≡ self.old) }
    {
        if !self.is_settled() {
            Ok(())
        } else if self.is_under() {
            self.do_ready(alloc, step)
        } else {
            self.do_order(alloc, step)
        }
    }

    #[tactic(auto, unfolding(tp_model::specs::Transactions::begin_rolling))]
    fn do_begin_rolling(
        &mut self,
        alloc: Global,
        asked: bool,
        step: &mut Step,
    ) -> Result<(), NoMemory>
        ensures next { OnOk result (self.new ≡ (begin_rolling asked self.old).next) }
        ensures rec { OnOk result (step.new.rec ≡ later step.old.rec (begin_rolling asked self.old).rec) }
        ensures outs { OnOk result (step.new.outs ≡ step.old.outs ++ (begin_rolling asked self.old).outs) }
        ensures same { OnErr result (self.new ≡ self.old) }
    {
        self.log_rollback(alloc, &mut step.rec);
        self.say_begin_rolling(alloc, asked, &mut step.outs)?;
        self.begin_rolling(asked);
        Ok(())
    }

    #[tactic(auto, unfolding(tp_model::specs::Transactions::complete_commit))]
    fn do_complete_commit(&mut self, alloc: Global, step: &mut Step) -> Result<(), NoMemory>
        ensures next { OnOk result (self.new ≡ (complete_commit self.old).next) }
        ensures rec { OnOk result (step.new.rec ≡ later step.old.rec (complete_commit self.old).rec) }
        ensures outs { OnOk result (step.new.outs ≡ step.old.outs ++ (complete_commit self.old).outs) }
        ensures same { OnErr result (self.new ≡ self.old) }
    {
        if !self.is_committed() {
            return Ok(());
        }
        let report = self.final_report();
        self.log_complete(alloc, report, &mut step.rec)?;
        self.say_complete(alloc, report, &mut step.outs)?;
        self.phase = Phase::Nil;
        Ok(())
    }

    #[tactic(auto, unfolding(tp_model::specs::Transactions::complete_rollback))]
    fn do_complete_rollback(&mut self, alloc: Global, step: &mut Step) -> Result<(), NoMemory>
        ensures next { OnOk result (self.new ≡ (complete_rollback self.old).next) }
        ensures rec { OnOk result (step.new.rec ≡ later step.old.rec (complete_rollback self.old).rec) }
        ensures outs { OnOk result (step.new.outs ≡ step.old.outs ++ (complete_rollback self.old).outs) }
        ensures same { OnErr result (self.new ≡ self.old) }
    {
        if !self.is_rolled_back() {
            return Ok(());
        }
        let report = self.own.join(rows::reports_of(self.rows.as_slice()));
        self.say_rolled_back(alloc, report, &mut step.outs)?;
        self.phase = Phase::Nil;
        Ok(())
    }

    /// A rule logs, says and changes what it does, after what the step has by now.
    #[tactic(auto, unfolding(tp_model::specs::Transactions::ask_commit, tp_model::specs::Transactions::count_branch, tp_model::specs::Transactions::end_branch, tp_model::specs::Transactions::branch_left, tp_model::specs::Transactions::leave))]
    pub(crate) fn do_rule(
        &mut self,
        alloc: Global,
        rule: Rule,
        step: &mut Step,
    ) -> Result<(), NoMemory>
        ensures next { OnOk result (self.new ≡ (turn_of rule self.old).next) }
        ensures rec { OnOk result (step.new.rec ≡ later step.old.rec (turn_of rule self.old).rec) }
        ensures outs { OnOk result (step.new.outs ≡ step.old.outs ++ (turn_of rule self.old).outs) }
        ensures same { OnErr result (self.new ≡ self.old) }
    {
        let outs = &mut step.outs;
        match rule {
            Rule::Settle => return self.do_settle(alloc, step),
            Rule::Order => return self.do_order(alloc, step),
            Rule::BeginRolling { asked } => return self.do_begin_rolling(alloc, asked, step),
            Rule::CompleteCommit => return self.do_complete_commit(alloc, step),
            Rule::CompleteRollback => return self.do_complete_rollback(alloc, step),
            Rule::Decide(outcome) => self.log_heuristic(outcome, &mut step.rec),
            Rule::Nothing | Rule::Finish | Rule::NoteRollback => {}
            Rule::Prepare { arc } => prepare(alloc, arc, outs)?,
            Rule::DeferEnd { arc } => defer_end(alloc, arc, outs)?,
            Rule::DeferGrant { arc } => defer_grant(alloc, arc, outs)?,
            Rule::Abort { arc } => abort(alloc, arc, outs)?,
            Rule::AskCommit => rows::prepare_each(alloc, self.rows.as_slice(), outs)?,
            Rule::Leave => self.say_leave(alloc, outs)?,
            Rule::TakePrepare => tell_prepare(alloc, outs)?,
            Rule::TakeDeferEnd { arc } => tell_end(alloc, arc, outs)?,
            Rule::TakeDeferGrant { arc } => tell_grant(alloc, arc, outs)?,
            Rule::CountBranch { arc } => tell_ready(alloc, arc, outs)?,
            Rule::EndBranch { arc, report } => tell_report(alloc, arc, report, outs)?,
            Rule::BranchLeft { arc } => tell_left(alloc, arc, outs)?,
            Rule::CloseArc { arc } => close(alloc, arc, outs)?,
            Rule::Aborted { arc } => tell_abort(alloc, arc, outs)?,
            Rule::Lost { arc } => tell_loss(alloc, arc, outs)?,
            Rule::GiveUp { arc } => self.say_give_up(alloc, arc, outs)?,
            Rule::Retry => self.retried(alloc, outs)?,
        }
        self.change(rule);
        Ok(())
    }
}
