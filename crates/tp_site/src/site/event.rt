//! Events as they come to a site, and its outputs as they go out: records as octets.
ghost use Rattle.std.specs.Prelude.{ℕ, ◌≡◌, Bool, true, List, Some, None};
ghost use Rattle.tp_records.specs.declared.body.Event.{Event as Given};
ghost use Rattle.tp_records.specs.declared.request.Request.{Request as Asks};
ghost use Rattle.tp_model.specs.Parts.{Do};
ghost use Rattle.tp_model.specs.declared.refusal.Refusal.{Refusal};
ghost use Rattle.tp_model.specs.Refusal.{number_of};
ghost use Rattle.tp_model.specs.Events.{refused_plainly};
ghost use Rattle.tp_model.specs.NodeRun.{Opening, asked, node_of};
ghost use Rattle.tp_node.specs.NodeEvent.{event_of};
ghost use Rattle.tp_draft.specs.Answers.{IsPlain};
ghost use Rattle.tp_site.specs.Nodes.{who_at, node_at};
ghost use Rattle.tp_site.specs.Site.{known_at, rec_of};
ghost use Rattle.tp_site.specs.Shaped.{HasTextIfAsked};
ghost use Rattle.tp_node.specs.NodeEvent.{answer_at};
ghost use Rattle.tp_encodable.specs.Sizes.{BringsFew};
ghost use Rattle.tp_site.specs.Events.{Gives, PlaysAsked, IsAt, IsInOrder, StepsTo, opening_at, rec_asked, record_after};

use crate::faults::SiteFault;
use crate::outputs::outputs_of;
use crate::site::Site;
use std::alloc::Global;
use tp_draft::Draft;
use tp_journal::Keeper;
use tp_model::Refusal;
use tp_names::same::is_name;
use tp_names::{Addr, Octets};
use tp_node::NodeEvent;
use tp_node_state::Outs;
use tp_records::{Event, Outputs};
use tp_texts::read_whole_peer;

impl<K: Keeper> Site<K> {
    // An event of the node of that number, with a draft for it. All that goes out is made before the record is forced.
    fn give_on(
        &mut self,
        alloc: Global,
        node: u16,
        event: &NodeEvent<'_>,
        draft: &mut Draft,
    ) -> Result<Outputs, SiteFault>
        requires open { self.old.shut ≡ None }
        requires few { BringsFew (event_of event.now) }
        ensures plain { (x : Refusal) → IsPlain (node_at self.old.nodes node) event.now x → result ≡ Err (SiteFault.Refused (number_of x)) }
        ensures gives { Gives K.standing self.old node (event_of event.now) result self.new }
        ensures text { HasTextIfAsked (K.standing self.old.keeper).wide
            (rec_of (answer_at (who_at self.old.nodes node) (known_at self.old node) (event_of event.now))) result }
    {
        let mut outs = Outs::new(alloc);
        let prepared = self.prepare(alloc, node, event, draft, &mut outs)?;
        let site = self.name();
        let outputs = outputs_of(alloc, &Addr { site, node }, prepared.refusal(), outs)?;
        self.carry_out(alloc, node, event, prepared, draft)?;
        Ok(outputs)
    }

    // An event of the node of that number.
    fn give(
        &mut self,
        alloc: Global,
        node: u16,
        event: &NodeEvent<'_>,
    ) -> Result<Outputs, SiteFault>
        requires open { self.old.shut ≡ None }
        requires few { BringsFew (event_of event.now) }
        ensures plain { (x : Refusal) → IsPlain (node_at self.old.nodes node) event.now x → result ≡ Err (SiteFault.Refused (number_of x)) }
        ensures gives { Gives K.standing self.old node (event_of event.now) result self.new }
        ensures text { HasTextIfAsked (K.standing self.old.keeper).wide
            (rec_of (answer_at (who_at self.old.nodes node) (known_at self.old node) (event_of event.now))) result }
    {
        let mut draft = self.spare_draft(alloc, node, event)?;
        let outputs = self.give_on(alloc, node, event, &mut draft);
        self.spare = Some(draft);
        outputs
    }

    // Octets that come from another node.
    fn arrive(
        &mut self,
        alloc: Global,
        from: Addr,
        to: Addr,
        octets: &Octets,
    ) -> Result<Outputs, SiteFault>
        requires { self.old.shut ≡ None }
        ensures plays { PlaysAsked K.standing self.old (asked (opening_at self.old.nodes.site) (Event.Arrive from to octets.now)) result self.new }
        ensures text { HasTextIfAsked (K.standing self.old.keeper).wide
            (rec_asked self.old (asked (opening_at self.old.nodes.site) (Event.Arrive from to octets.now))) result }
    {
        let Some(rec) = read_whole_peer(alloc, octets.as_slice())? else {
            return Err(SiteFault::Refused(Refusal::BadRecord.number()));
        };
        let site = self.name();
        if !is_name(&to.site, &site) {
            return Err(SiteFault::Refused(Refusal::WrongSite.number()));
        }
        self.give(alloc, to.node, &NodeEvent::Arrive { from, rec: &rec })
    }

    // What the event asks for, of a site that is not shut.
    fn take(&mut self, alloc: Global, event: &Event) -> Result<Outputs, SiteFault>
        requires { self.old.shut ≡ None }
        ensures plain { (n : ℕ) (r : Asks) (x : Refusal) → event.now ≡ Given.Do n r
            → refused_plainly (who_at self.old.nodes n) (known_at self.old n) (Do r) ≡ Some x → result ≡ Err (SiteFault.Refused (number_of x)) }
        ensures plays { PlaysAsked K.standing self.old (asked (opening_at self.old.nodes.site) event.now) result self.new }
        ensures text { HasTextIfAsked (K.standing self.old.keeper).wide (rec_asked self.old (asked (opening_at self.old.nodes.site) event.now)) result }
    {
        match event {
            Event::Declare { node, superior } => {
                let superior = *superior;
                self.give(alloc, *node, &NodeEvent::Declare { superior })
            }
            Event::Do { node, request } => self.give(alloc, *node, &NodeEvent::Do { request }),
            Event::Arrive { from, to, octets } => self.arrive(alloc, *from, *to, octets),
            Event::Lose { node, peer } => self.give(alloc, *node, &NodeEvent::Lose { peer: *peer }),
            Event::Heur { node, outcome } => {
                let outcome = *outcome;
                self.give(alloc, *node, &NodeEvent::Heur { outcome })
            }
            Event::GiveUp { node, peer } => {
                self.give(alloc, *node, &NodeEvent::GiveUp { peer: *peer })
            }
            Event::Retry { node } => self.give(alloc, *node, &NodeEvent::Retry),
            Event::Purge { node } => self.give(alloc, *node, &NodeEvent::Purge),
        }
    }

    /// An event as it comes to the site. The keeper has taken its record before any output is given; a refusal changes nothing.
    /// Octets that are not exactly one record are refused by 25, and a record for another site by 23. Where a record came out
    /// of phase and ends its association, the outputs begin with that refusal and go on with the loss. After a fault of the
    /// disk every event is answered `Shut`. Where the site stands as its events leave it and the keeper's records follow each
    /// other, they do so after it. A user's request is refused also without memory, but where numbers are spent.
    pub fn event(&mut self, alloc: Global, event: &Event) -> Result<Outputs, SiteFault>
        // Promise 11.3, part 5 [clauses plays shut]
        // Promise 11.4: At a site that is not shut, an event that comes as octets is refused by 25
        //   exactly where they are not the whole text of one record, else by 23 where it is for
        //   another site, and else is the event of the node
        ensures plays { PlaysAsked K.standing self.old (asked (opening_at self.old.nodes.site) event.now) result self.new }
        // Promise 11.5, part 2
        ensures steps { (mine : ℕ → Bool) (o : Opening) (gs : List Given) → IsAt K.standing mine o gs self.old
            → mine (node_of event.now) ≡ true → StepsTo K.standing mine o gs self.old event.now result self.new }
        // Promise 11.6: Of a site that stands where 11.5 says: where the records of its keeper
        //   follow each other before an event, and only branches have voted, so it is after it
        ensures order { (mine : ℕ → Bool) (o : Opening) (gs : List Given) → IsAt K.standing mine o gs self.old
            → mine (node_of event.now) ≡ true → IsInOrder (K.standing self.old.keeper) → IsInOrder (K.standing self.new.keeper) }
        // Promise 11.8: Of a site that starts, or stands where 11.5 says: the record for which its
        //   keeper was asked has a text where it was taken, and where the answer is that the log is
        //   full or that the disk failed
        ensures text { (mine : ℕ → Bool) (o : Opening) (gs : List Given) → IsAt K.standing mine o gs self.old
            → mine (node_of event.now) ≡ true → HasTextIfAsked (K.standing self.old.keeper).wide (record_after o gs event.now) result }
        ensures lasting { (K.standing self.new.keeper).lasting ≡ (K.standing self.old.keeper).lasting }
        // Promise 11.9: A user's request that a site which is not shut refuses for another cause
        //   than spent numbers is refused also where there is no memory
        ensures plain { (n : ℕ) (r : Asks) (x : Refusal) → event.now ≡ Given.Do n r → self.old.shut ≡ None
            → refused_plainly (who_at self.old.nodes n) (known_at self.old n) (Do r) ≡ Some x → result ≡ Err (SiteFault.Refused (number_of x)) }
        ensures shut { (faults : ℕ) → self.old.shut ≡ Some faults → result ≡ Err (SiteFault.Shut faults) }
    {
        if let Some(faults) = self.shut {
            return Err(SiteFault::Shut { faults });
        }
        self.take(alloc, event)
    }
}
