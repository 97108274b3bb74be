//! An event of a node on a draft of it.
ghost use Rattle.std.specs.Prelude.{◌≡◌, false, [], OnOk, None};
ghost use Rattle.tp_model.specs.Node.{move};
ghost use Rattle.tp_model.specs.Events.{action, needs_numbers, says_nothing};
ghost use Rattle.tp_model.specs.Parts.{Declare, Heur, GiveUp};
ghost use Rattle.tp_draft.specs.Draft.{Plays, node_in};
ghost use Rattle.std.specs.Option.{option_map};
ghost use Rattle.tp_model.specs.Disposition.{sight_value};
ghost use Rattle.tp_node.specs.NodeEvent.{event_of, refused_at_once, sight_of};

use crate::draft::Draft;
use std::alloc::Global;
use std::mem::swap;
use tp_logrec::LogRec;
use tp_model::{Disposition, Step, TxEvent, TxOuts};
use tp_names::{Addr, NoMemory, Outcome};
use tp_node::{Halt, Node, NodeEvent, Spare};
use tp_node_state::Outs;

impl Draft {
    /// A draft of that node, on which nothing has happened.
    pub fn of(alloc: Global, node: Box<Node>) -> Draft
        ensures { result ≡ record { who = node.value.who; move = move [] node.value.digest } }
    {
        Draft {
            node,
            spare: Spare::new(alloc),
            earlier: None,
            step: Step {
                rec: None,
                outs: TxOuts::new(alloc),
            },
            outs: Outs::new(alloc),
        }
    }

    /// Begins anew as a draft of that node, on which nothing has happened, in the memory that it has.
    pub(crate) fn begin(&mut self, alloc: Global, node: &Node) -> Result<(), NoMemory>
        ensures { OnOk result (self.new ≡ record { who = node.now.who; move = move [] node.now.digest }) }
    {
        self.node.copy_from(alloc, node, &mut self.spare)?;
        self.forget_rec();
        self.forget_outs();
        Ok(())
    }

    // No record is to be forced.
    fn forget_rec(&mut self)
        ensures { self.new ≡ record self.old { move = record self.old.move { rec = None } } }
    {
        if self.step.rec.is_some() {
            forget(&mut self.step.rec);
        }
        if self.earlier.is_some() {
            forget(&mut self.earlier);
        }
    }

    // Nothing is to go out.
    fn forget_outs(&mut self)
        ensures { self.new ≡ record self.old { move = record self.old.move { outs = [] } } }
    {
        self.outs.clear();
    }

    /// The record that is to be forced.
    pub fn rec(&self) -> &Option<LogRec>
        ensures { result.now ≡ self.now.move.rec }
    {
        if self.step.rec.is_some() {
            &self.step.rec
        } else {
            &self.earlier
        }
    }

    /// The node, as the draft has it by now, takes that place.
    #[inline(always)]
    pub fn put_node(&mut self, alloc: Global, place: &mut Box<Node>)
        ensures node { (place.new).value ≡ node_in self.old }
        ensures outs { self.new.move.outs ≡ self.old.move.outs }
    {
        swap(place, &mut self.node);
        place.settle_after(alloc, &mut self.node);
    }

    /// The outputs take that place, and it has them no more. The memory of what stood there stays with it.
    #[inline(always)]
    pub fn take_outs(&mut self, place: &mut Outs)
        ensures outs { place.new ≡ self.old.move.outs }
        ensures rest { self.new ≡ record self.old { move = record self.old.move { outs = [] } } }
    {
        swap(place, &mut self.outs);
        self.forget_outs();
    }

    /// Nothing goes out.
    pub(crate) fn says_nothing(&self) -> bool
        ensures { result ≡ says_nothing self.now.move.outs }
    {
        self.outs.is_empty()
    }

    /// It wants a number that an association has not. A mark that the counter has not is never drawn.
    pub(crate) fn is_spent(&self) -> bool
        ensures { result ≡ needs_numbers self.now.move }
    {
        self.outs.is_spent() || self.node.is_spent()
    }

    // The node is declared.
    fn declare(&mut self, alloc: Global, superior: Option<Addr>) -> Result<(), Halt>
        requires { self.old.move.next.declared ≡ false }
        ensures { Plays result self.old self.new (λ who d. action who d (Declare superior)) }
    {
        self.node.declare(alloc, superior);
        Ok(())
    }

    // The node decides by itself.
    fn decide(&mut self, alloc: Global, outcome: Outcome) -> Result<(), Halt>
        ensures { Plays result self.old self.new (λ who d. action who d (Heur outcome)) }
    {
        self.transact(alloc, &TxEvent::Heur(outcome))
    }

    // The branch on the arc with that peer is given up.
    fn give_up(&mut self, alloc: Global, peer: u16) -> Result<(), Halt>
        ensures { Plays result self.old self.new (λ who d. action who d (GiveUp peer)) }
    {
        self.transact(alloc, &TxEvent::GiveUp { arc: peer })
    }

    /// An event that is not refused happens.
    #[inline(always)]
    pub(crate) fn happen(
        &mut self,
        alloc: Global,
        event: &NodeEvent<'_>,
        seen: Option<Disposition>,
    ) -> Result<(), Halt>
        requires refused { refused_at_once self.old.who self.old.move.next event.now ≡ None }
        requires seen { option_map sight_value seen ≡ sight_of self.old.who self.old.move.next event.now }
        ensures { Plays result self.old self.new (λ who d. action who d (event_of event.now)) }
    {
        match event {
            NodeEvent::Declare { superior } => self.declare(alloc, *superior),
            NodeEvent::Do { request } => self.do_request(alloc, request),
            NodeEvent::Arrive { from, rec } => self.do_arrival(alloc, from, rec, seen),
            NodeEvent::Lose { peer } => self.lose(alloc, *peer),
            NodeEvent::Heur { outcome } => self.decide(alloc, *outcome),
            NodeEvent::GiveUp { peer } => self.give_up(alloc, *peer),
            NodeEvent::Retry => self.retry(alloc),
            NodeEvent::Purge => self.purge(alloc),
        }
    }
}

// There is no record.
#[inline(always)]
fn forget(rec: &mut Option<LogRec>)
    ensures { rec.new ≡ None }
{
    *rec = None;
}
