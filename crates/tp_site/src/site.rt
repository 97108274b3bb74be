//! A site: its nodes, over a keeper of its log.
mod ahead;
mod event;
mod resume;

ghost use Rattle.std.specs.Prelude.{◌≡◌, true, [], List, IfOk, IfErr, OnOk, Ok, Err, Some, None};
ghost use Rattle.std.specs.Option.{option_map};
ghost use Rattle.tp_logrec.specs.Order.{boots, last_number};
ghost use Rattle.tp_model.specs.declared.refusal.Refusal.{Refusal};
ghost use Rattle.tp_model.specs.Refusal.{number_of};
ghost use Rattle.tp_model.specs.History.{state};
ghost use Rattle.tp_model.specs.Parts.{Out};
ghost use Rattle.tp_logrec.specs.declared.record.LogRec.{LogRec as TheRecord};
ghost use Rattle.tp_model.specs.NodeRun.{boot_of};
ghost use Rattle.tp_journal.specs.Disorder.{IsFirstOutOfOrder};
ghost use Rattle.tp_journal.specs.Records.{version_of, HasText};
ghost use Rattle.tp_node.specs.NodeEvent.{event_of};
ghost use Rattle.tp_draft.specs.Answers.{IsPlain};
ghost use Rattle.tp_site.specs.Nodes.{has_node, who_at, node_at};
ghost use Rattle.tp_site.specs.Events.{IsAt, all_nodes};
ghost use Rattle.tp_site.specs.Site.{Plays, PlaysInto, Attempts, Settles, Records, Opens, Starts, IsFound, IsUnfound, told_records, opening_of, state_at, known_at};
ghost use Rattle.tp_node.specs.State.{state_of, tree_in};
ghost use Rattle.tp_site.specs.Faults.{fault_of, shut_by};
ghost use Rattle.tp_site.specs.Prepared.{HasRun, IsPlannedAt, IsReady, Prepares, CarriesOut, IsShapedPrepared, HasTextPrepared};
ghost use Rattle.tp_site.specs.Shaped.{AreShapedNodes, IsShapedDraft, HasTextOption, HasTextIfStarted};
ghost use Rattle.tp_texts.specs.Shapes.{IsShaped};
ghost use Rattle.tp_encodable.specs.Standing.{IsShapedOption};
ghost use Rattle.tp_encodable.specs.Sizes.{AreShort, BringsFew};

use crate::faults::{LogFault, SiteFault, StartFault};
use crate::nodes::Nodes;
use crate::prepared::Prepared;
use resume::lane_of;
use std::alloc::Global;
use std::marker::Model;
use tp_draft::Draft;
use tp_journal::{ForceFault, Keeper};
use tp_logrec::{LogRec, LogVersion, OrderCheck};
use tp_model::{Phase, Refusal, TxFault};
use tp_names::{NoMemory, SiteName};
use tp_node::{NodeEvent, NodeState, NodeTree};
use tp_node_state::Outs;
use tp_texts::shaped_has_text;

/// What an event gives: its outputs, in order. With a refusal, it was refused by that, and the association that it came on
/// was ended; the outputs are of that loss.
#[derive(Drop)]
pub struct Played {
    pub refusal: Option<Refusal>,
    pub outs: Outs,
}

// Promise 11.7 [tp_site/specs/Shaped.antt, its invariant]: Neither a record that is forced nor one
//   that goes out as octets is tested for a text: each has one (11.8; by 12.39 and 2.20)
/// A site: its nodes, over a keeper of its log. An event is drawn up on the draft of the one before it, in its memory.
#[derive(Drop)]
pub struct Site<K: Keeper> {
    keeper: K,
    nodes: Nodes,
    spare: Option<Box<Draft>>,
    shut: Option<u64>,
}

impl<K: Keeper> Model for Site<K> {
    ghost use Rattle.tp_site.specs.Site.{Site as SiteValue};
    ghost use Rattle.tp_site.specs.Shaped.{IsShapedSite};

    ghost Value = { SiteValue K };

    ghost view = { λ s. record { keeper = s.keeper; nodes = s.nodes; shut = s.shut } };

    ghost invariant = { λ s. IsShapedSite K.standing s.keeper s.nodes };
}

// A record is forced, which has a text.
fn force<K: Keeper>(alloc: Global, keeper: &mut K, rec: &LogRec) -> Result<(), ForceFault>
    requires { IsShaped (version_of (K.standing keeper.old).wide) rec.now }
    ensures forced { Records K.standing keeper.old (Some rec.now) result keeper.new }
    ensures text { HasText (K.standing keeper.old).wide rec.now }
{
    shaped_has_text(version_of(keeper), rec);
    match keeper.append(alloc, rec) {
        Ok(_) => Ok(()),
        Err(fault) => Err(fault),
    }
}

impl<K: Keeper> Site<K> {
    // The record is forced, where there is one.
    fn force(&mut self, alloc: Global, rec: &Option<LogRec>) -> Result<(), ForceFault>
        requires { IsShapedOption self.old.nodes.version rec.now }
        ensures forced { Records K.standing self.old.keeper rec.now result self.new.keeper }
        ensures text { HasTextOption (K.standing self.old.keeper).wide rec.now }
        ensures nodes { self.new.nodes ≡ self.old.nodes }
        ensures shut { self.new.shut ≡ self.old.shut }
    {
        match rec {
            None => Ok(()),
            Some(rec) => force(alloc, &mut self.keeper, rec),
        }
    }

    // What the node of that number answers to an event, with room for it among the nodes. Nothing of it is so yet.
    fn attempt(
        &mut self,
        alloc: Global,
        node: u16,
        event: &NodeEvent<'_>,
        draft: &mut Draft,
    ) -> Result<Option<Refusal>, TxFault>
        requires { self.old.shut ≡ None }
        ensures plain { (x : Refusal) → IsPlain (node_at self.old.nodes node) event.now x → result ≡ Err (TxFault.Refused (number_of x)) }
        ensures attempts { Attempts K.standing self.old node (event_of event.now) result draft.new self.new }
        ensures shaped { IfOk result (λ refusal. IsShapedDraft self.new.nodes.version draft.new.move) }
        ensures short { IfOk result (λ refusal. BringsFew (event_of event.now) → AreShort draft.new.move.outs) }
    {
        let refusal = self.nodes.answer_to(alloc, node, event, draft)?;
        Ok(refusal)
    }

    // The record is forced, and the node takes the place of what it was.
    fn settle(&mut self, alloc: Global, number: u16, draft: &mut Draft) -> Result<(), ForceFault>
        requires there { has_node self.old.nodes number ≡ true }
        requires who { draft.old.who ≡ who_at self.old.nodes number }
        requires open { self.old.shut ≡ None }
        requires shaped { IsShapedDraft self.old.nodes.version draft.old.move }
        ensures settled { Settles K.standing self.old number draft.old.move.next draft.old.move.rec result self.new }
        ensures outs { OnOk result (draft.new.move.outs ≡ draft.old.move.outs) }
        ensures text { HasTextOption (K.standing self.old.keeper).wide draft.old.move.rec }
    {
        if let Err(fault) = self.force(alloc, draft.rec()) {
            self.stop(fault);
            return Err(fault);
        }
        self.nodes.put(alloc, number, draft);
        Ok(())
    }

    // A draft to draw up an event on: the one before. Where there is none yet, a refusal at once wants none.
    fn spare_draft(
        &mut self,
        alloc: Global,
        node: u16,
        event: &NodeEvent<'_>,
    ) -> Result<Box<Draft>, TxFault>
        requires { self.old.shut ≡ None }
        ensures same { self.new ≡ self.old }
        ensures plain { (x : Refusal) → IsPlain (node_at self.old.nodes node) event.now x → IfErr result (λ fault. fault ≡ TxFault.Refused (number_of x)) }
        ensures refused { IfErr result (λ fault. Plays K.standing self.old node (event_of event.now) (Err (fault_of fault)) self.new) }
    {
        match self.spare.take() {
            Some(draft) => Ok(draft),
            None => self.first_draft(alloc, node, event),
        }
    }

    // The first draft, but where the event is refused at once.
    #[tactic(auto, using(tp_draft::proofs::Answered::refused_plain))]
    fn first_draft(
        &self,
        alloc: Global,
        node: u16,
        event: &NodeEvent<'_>,
    ) -> Result<Box<Draft>, TxFault>
        requires { self.now.shut ≡ None }
        ensures plain { (x : Refusal) → IsPlain (node_at self.now.nodes node) event.now x → result ≡ Err (TxFault.Refused (number_of x)) }
        ensures refused { IfErr result (λ fault. Plays K.standing self.now node (event_of event.now) (Err (fault_of fault)) self.now) }
    {
        if let Some(refusal) = self.nodes.refused_plainly(alloc, node, event) {
            return Err(TxFault::Refused(refusal.number()));
        }
        let draft = self.new_draft(alloc)?;
        Ok(draft)
    }

    fn new_draft(&self, alloc: Global) -> Result<Box<Draft>, NoMemory> {
        let node = Box::new(alloc, self.nodes.unknown(alloc, 0))?;
        Ok(Box::new(alloc, Draft::of(alloc, node))?)
    }

    // What an event is to change and to say is worked out: the change on the draft, where it does not run on its node itself, and
    // what it says in `outs`. Nothing of it is so yet.
    #[tactic(auto, using(crate::proofs::Settled::attempted, crate::proofs::Settled::unplanned))]
    fn prepare(
        &mut self,
        alloc: Global,
        node: u16,
        event: &NodeEvent<'_>,
        draft: &mut Draft,
        outs: &mut Outs,
    ) -> Result<Prepared, TxFault>
        requires { self.old.shut ≡ None }
        ensures plain { (x : Refusal) → IsPlain (node_at self.old.nodes node) event.now x → result ≡ Err (TxFault.Refused (number_of x)) }
        ensures prepares { Prepares K.standing self.old node event.now result draft.new outs.new self.new }
        ensures shaped { IfOk result (λ prepared. IsShapedPrepared prepared self.new.nodes.version draft.new.move) }
        ensures short { IfOk result (λ prepared. BringsFew (event_of event.now) → AreShort outs.new) }
    {
        if self.nodes.plan(node, event, outs)? {
            return Ok(Prepared::InPlace);
        }
        let refusal = self.attempt(alloc, node, event, draft)?;
        draft.take_outs(outs);
        Ok(Prepared::Drawn(refusal))
    }

    // What was prepared happens: its record is forced, and the node changes.
    fn carry_out(
        &mut self,
        alloc: Global,
        node: u16,
        event: &NodeEvent<'_>,
        prepared: Prepared,
        draft: &mut Draft,
    ) -> Result<(), ForceFault>
        requires open { self.old.shut ≡ None }
        requires ready { IsReady self.old node event.now prepared draft.old }
        ensures done { CarriesOut K.standing self.old node event.now prepared draft.old result self.new }
        ensures text { HasTextPrepared prepared (K.standing self.old.keeper).wide draft.old.move.rec }
    {
        match prepared {
            Prepared::InPlace => {
                self.happen(node, event);
                Ok(())
            }
            Prepared::Drawn(_) => self.settle(alloc, node, draft),
        }
    }

    // An event of the node of that number, with a draft for it; what it says stands there then.
    fn play_on(
        &mut self,
        alloc: Global,
        node: u16,
        event: &NodeEvent<'_>,
        draft: &mut Draft,
        outs: &mut Outs,
    ) -> Result<Option<Refusal>, SiteFault>
        requires { self.old.shut ≡ None }
        ensures { PlaysInto K.standing self.old node (event_of event.now) result outs.new self.new }
    {
        let prepared = self.prepare(alloc, node, event, draft, outs)?;
        self.carry_out(alloc, node, event, prepared, draft)?;
        Ok(prepared.refusal())
    }

    // Promise 11.1: Whatever is known of a node, an event of it that no fault of the log stops is
    //   refused, says, logs and leaves what the definitions say, and no other node changes
    // Promise 11.2: The site's keeper has taken the record of an event, forced or noted, before the
    //   event is answered by its outputs; where it has not, no node changes and a fault is
    //   answered, though a disk that failed may have the record
    // Promise 11.3: A site that has answered a fault of the disk answers every event that it is
    //   shut, and shows what it showed
    /// An event of the node of that number. The keeper has taken its record before it is answered by outputs; where it has not,
    /// no node changes; a refusal changes nothing. After a fault of the disk every event is answered `Shut`.
    pub fn play(
        &mut self,
        alloc: Global,
        node: u16,
        event: &NodeEvent<'_>,
    ) -> Result<Played, SiteFault>
        ensures { Plays K.standing self.old node (event_of event.now) result self.new }
    {
        let mut outs = Outs::new(alloc);
        let refusal = self.play_into(alloc, node, event, &mut outs)?;
        Ok(Played { refusal, outs })
    }

    // Promise 11.1, part 2
    // Promise 11.2, part 2
    // Promise 11.3, part 2
    /// The same; the outputs stand there then, in place of what stood there, whose memory serves for later ones. After a fault
    /// nothing is said of what stands there.
    pub fn play_into(
        &mut self,
        alloc: Global,
        node: u16,
        event: &NodeEvent<'_>,
        outs: &mut Outs,
    ) -> Result<Option<Refusal>, SiteFault>
        ensures { PlaysInto K.standing self.old node (event_of event.now) result outs.new self.new }
    {
        if let Some(faults) = self.shut {
            return Err(SiteFault::Shut { faults });
        }
        let mut draft = self.spare_draft(alloc, node, event)?;
        let played = self.play_on(alloc, node, event, &mut draft, outs);
        self.spare = Some(draft);
        played
    }

    // An event that can run on its node itself does so.
    fn happen(&mut self, node: u16, event: &NodeEvent<'_>)
        requires ready { (outs : List Out) × IsPlannedAt self.old node event.now outs }
        requires open { self.old.shut ≡ None }
        ensures { HasRun K.standing self.old node event.now self.new }
    {
        self.nodes.apply(node, event);
    }

    // What a fault of the log means for the site.
    fn stop(&mut self, fault: ForceFault)
        ensures { self.new ≡ record self.old { shut = shut_by fault self.old.shut } }
    {
        if let ForceFault::DiskFault { faults } = fault {
            self.shut = Some(faults);
        }
    }

    // The boot is forced, and the site stands on those nodes.
    fn open(alloc: Global, mut keeper: K, nodes: Nodes) -> Result<Site<K>, (K, ForceFault)>
        requires version { version_of (K.standing keeper).wide ≡ nodes.version }
        requires shaped { AreShapedNodes nodes }
        ensures opens { Opens K.standing keeper nodes result }
        ensures text { HasText (K.standing keeper).wide (TheRecord.Boot nodes.boot) }
    {
        let rec = LogRec::Boot { boot: nodes.boot() };
        match force(alloc, &mut keeper, &rec) {
            Ok(()) => Ok(Site {
                keeper,
                nodes,
                spare: None,
                shut: None,
            }),
            Err(fault) => Err((keeper, fault)),
        }
    }

    // Promise 11.10: A site that starts does so on a log in order, with each node as the
    //   definitions find it on its records, after the next boot number, which its keeper has taken
    // Promise 11.11: A log out of order is foreign at the first record that may not follow those
    //   before it
    /// Starts a site of that name on the records of a log, and forces its boot: the boot number after the last, or 1. It
    /// stands then where a run of no events does.
    #[tactic(auto, using(crate::proofs::Settled::unfound_starts, crate::proofs::Settled::opened_starts, crate::proofs::Settled::opened_at))]
    pub fn start(alloc: Global, keeper: K, name: SiteName) -> Result<Site<K>, (K, StartFault)>
        ensures starts { Starts K.standing keeper name result }
        // Promise 11.5 [tp_site/specs/Events.antt]: From its start on, over a keeper that had
        //   forced nothing before, whatever events a site was given by `Site::event`, each node is
        //   what its history makes of it in the definitions' run of those that were answered by
        //   outputs or a refusal, and the records of the keeper are those that it started on, the
        //   boot, and those of the run
        ensures at { IfOk result (λ site. (K.standing keeper).told ≡ (K.standing keeper).kept
            → IsAt K.standing all_nodes (opening_of (K.standing keeper) name) [] site) }
        // Promise 11.8, part 2
        ensures text { HasTextIfStarted (K.standing keeper).wide (TheRecord.Boot (boot_of (opening_of (K.standing keeper) name))) result }
    {
        let nodes = match found(alloc, &keeper, name) {
            Ok(nodes) => nodes,
            Err(fault) => return Err((keeper, StartFault::from(fault))),
        };
        match Site::open(alloc, keeper, nodes) {
            Ok(site) => Ok(site),
            Err((keeper, fault)) => Err((keeper, StartFault::from(fault))),
        }
    }

    // Promise 11.3, part 3
    // Promise 11.14: What is shown of a node is what the definitions show; `state` shows nothing
    //   exactly of one that is neither declared nor known from the log
    /// What is shown of the node of that number: none where it is not declared since the start and not known from the
    /// log.
    #[tactic(auto, using(crate::proofs::Numbered::found, crate::proofs::Numbered::unfound_missing))]
    pub fn state(&self, node: u16) -> Option<NodeState>
        ensures { option_map state_of result ≡ state_at self.now node }
    {
        let node = self.nodes.find(node)?;
        if node.is_missing() {
            return None;
        }
        Some(node.state())
    }

    // Promise 11.3, part 4
    // Promise 11.14, part 2
    /// What is shown of the node of that number, declared or not.
    #[tactic(auto, using(crate::proofs::Numbered::found, crate::proofs::Numbered::unfound_shown))]
    pub fn shown(&self, node: u16) -> NodeState
        ensures { state_of result ≡ state (known_at self.now node) }
    {
        match self.nodes.find(node) {
            None => NodeState {
                phase: Phase::Nil,
                asked: false,
                owes: false,
                kept: 0,
            },
            Some(node) => node.state(),
        }
    }

    // Promise 11.15: The tree of a node's current transaction is what the definitions know
    /// The tree of the current transaction of the node of that number, where it has one.
    #[tactic(auto, using(crate::proofs::Numbered::found, crate::proofs::Numbered::unfound_treeless))]
    pub fn tree(&self, node: u16) -> Option<NodeTree>
        ensures { result ≡ tree_in (known_at self.now node) }
    {
        match self.nodes.find(node) {
            None => None,
            Some(node) => node.tree(),
        }
    }

    // Promise 11.15, part 2
    /// The tree of the current transaction of the node of that number, where it has one, is put there.
    #[inline(always)]
    #[tactic(auto, using(crate::proofs::Numbered::found, crate::proofs::Numbered::unfound_treeless))]
    pub fn put_tree(&self, node: u16, tree: &mut Option<NodeTree>)
        ensures { tree.new ≡ tree_in (known_at self.now node) }
    {
        match self.nodes.find(node) {
            None => *tree = None,
            Some(node) => node.put_tree(tree),
        }
    }

    // Promise 11.15, part 3 [clauses tree]
    /// The same, before events of that node, which is sought first where it stands from now on.
    #[inline(always)]
    pub fn note_tree(&mut self, node: u16, tree: &mut Option<NodeTree>)
        ensures tree { tree.new ≡ tree_in (known_at self.old node) }
        ensures same { self.new ≡ self.old }
    {
        self.nodes.note_tree(node, tree);
    }

    /// The site's name.
    pub fn name(&self) -> SiteName
        ensures { result ≡ self.now.nodes.site }
    {
        self.nodes.site()
    }

    /// The boot number of its start.
    pub fn boot(&self) -> u64
        ensures { result ≡ self.now.nodes.boot }
    {
        self.nodes.boot()
    }

    /// Its log, lent.
    pub fn log(&self) -> &K
        ensures { result.now ≡ self.now.keeper }
    {
        &self.keeper
    }

    /// Its log, given back.
    pub fn keeper(self) -> K
        ensures { result ≡ self.keeper }
    {
        self.keeper
    }
}

fn version_of<K: Keeper>(keeper: &K) -> LogVersion
    ensures { result ≡ version_of (K.standing keeper.now).wide }
{
    if keeper.wide() {
        LogVersion::Two
    } else {
        LogVersion::One
    }
}

// The index of the first record of a keeper that may not follow those before it, where there is one.
fn first_out_of_order<K: Keeper>(alloc: Global, keeper: &K) -> Result<Option<usize>, NoMemory>
    ensures { IfOk result (IsFirstOutOfOrder (told_records (K.standing keeper.now))) }
{
    let mut check = OrderCheck::new(alloc);
    for i in 0..keeper.count() {
        let rec = keeper.rec(i);
        if !check.follows(rec) {
            return Ok(Some(i));
        }
        check.take(alloc, rec)?;
    }
    Ok(None)
}

// The last boot number among the records of a keeper; 0 where there is none.
fn last_boot<K: Keeper>(keeper: &K) -> u64
    ensures { result ≡ last_number (boots (told_records (K.standing keeper.now))) }
{
    let mut last = 0;
    for i in 0..keeper.count() {
        if let LogRec::Boot { boot } = keeper.rec(i) {
            last = *boot;
        }
    }
    last
}

// What the records of a log tell of the nodes of a site, for its next boot: those of a lane that is alone.
fn found<K: Keeper>(alloc: Global, keeper: &K, name: SiteName) -> Result<Nodes, LogFault>
    ensures ok { IfOk result (IsFound (K.standing keeper.now) name) }
    ensures shaped { IfOk result AreShapedNodes }
    ensures err { IfErr result (IsUnfound (K.standing keeper.now) name) }
{
    if let Some(i) = first_out_of_order(alloc, keeper)? {
        return Err(LogFault::Foreign {
            at: keeper.place(i),
        });
    }
    let last = last_boot(keeper);
    if last == u64::MAX {
        return Err(LogFault::BootsSpent);
    }
    let nodes = lane_of(alloc, keeper, name, last + 1, 0, 1)?;
    Ok(nodes)
}
