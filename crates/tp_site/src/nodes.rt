//! The nodes of a site.
ghost use Rattle.std.specs.Prelude.{ℕ, ◌≡◌, ◌==◌, ◌++◌, ◌∷◌, cond, true, false, List, [], None, Ok, IfOk, IfSome, OnOk};
ghost use Rattle.tp_logrec.specs.declared.record.LogRec.{LogRec as LogRecord};
ghost use Rattle.std.specs.Option.{option_copied, is_some};
ghost use Rattle.tp_model.specs.declared.refusal.Refusal.{Refusal};
ghost use Rattle.tp_model.specs.Refusal.{number_of};
ghost use Rattle.tp_model.specs.Events.{started};
ghost use Rattle.tp_node.specs.NodeEvent.{event_of, answer_at, refused_at_once};
ghost use Rattle.tp_draft.specs.Answers.{IsAnswer, IsPlain};
ghost use Rattle.tp_site.specs.Nodes.{has_node, who_at, digest_at, node_at, find_node, unknown_start, IsPlaced, IsSameSite, AreFrom};
ghost use Rattle.tp_node.specs.Node.{recovered_by};
ghost use Rattle.tp_node.specs.State.{tree_in};
ghost use Rattle.tp_site.specs.InPlace.{IsPlanned, run_in_place, can_run};

use crate::in_place;
use indexmap::IndexMap;
use std::alloc::Global;
use std::marker::Model;
use tp_draft::{Draft, breaks};
use tp_logrec::{LogRec, LogVersion};
use tp_model::{Refusal, TxFault};
use tp_names::{NoMemory, SiteName};
use tp_node::{Node, NodeEvent, NodeTree};
use tp_node_state::Outs;

/// The nodes of a site, by their numbers. One is sought first where the last one stood.
#[derive(Debug, Drop)]
pub(crate) struct Nodes {
    site: SiteName,
    boot: u64,
    version: LogVersion,
    nodes: IndexMap<u16, Box<Node>>,
    last: usize,
}

impl Model for Nodes {
    ghost use Rattle.tp_site.specs.Nodes.{Nodes as NodesValue, nodes_of, IsNamed};

    ghost Value = { NodesValue };

    ghost view = { nodes_of };

    ghost invariant = { IsNamed };
}

impl Nodes {
    /// No nodes.
    pub(crate) fn new(alloc: Global, site: SiteName, boot: u64, version: LogVersion) -> Nodes
        ensures { result ≡ record { site = site; boot = boot; version = version; nodes = [] } }
    {
        Nodes {
            site,
            boot,
            version,
            nodes: IndexMap::new(alloc),
            last: 0,
        }
    }

    /// The site's name.
    pub(crate) fn site(&self) -> SiteName
        ensures { result ≡ self.now.site }
    {
        self.site
    }

    /// The boot number of the start.
    pub(crate) fn boot(&self) -> u64
        ensures { result ≡ self.now.boot }
    {
        self.boot
    }

    /// A node of which the log has no record.
    pub(crate) fn unknown(&self, alloc: Global, node: u16) -> Node
        ensures { result ≡ record { who = who_at self.now node; digest = started (unknown_start self.now) } }
    {
        Node::unknown(alloc, self.site, node, self.boot, self.version)
    }

    // Where the node of that number stands: where the last one did, or where it is found.
    fn place_of(&self, number: u16) -> Option<usize>
        ensures there { is_some result ≡ has_node self.now number }
        ensures at { IfSome result (IsPlaced number self.now) }
    {
        if let Some((found, _node)) = self.nodes.get_index(self.last) {
            if *found == number {
                return Some(self.last);
            }
        }
        self.nodes.get_index_of(&number)
    }

    /// The tree of the current transaction of the node of that number, where it has one, is put there; the node is sought first
    /// where it stands from now on.
    #[tactic(auto, using(crate::proofs::Numbered::treeless))]
    pub(crate) fn note_tree(&mut self, number: u16, tree: &mut Option<NodeTree>)
        ensures tree { tree.new ≡ tree_in (digest_at self.old number) }
        ensures same { self.new ≡ self.old }
    {
        let Some(place) = self.place_of(number) else {
            *tree = None;
            return;
        };
        self.last = place;
        match self.nodes.get_index(place) {
            None => *tree = None,
            Some((_number, node)) => node.put_tree(tree),
        }
    }

    /// The node of that number, where the site has had to do with it.
    #[tactic(auto, using(crate::proofs::Numbered::named))]
    pub(crate) fn find(&self, number: u16) -> Option<&Node>
        ensures { option_copied result ≡ find_node self.now number }
    {
        if let Some((found, node)) = self.nodes.get_index(self.last) {
            if *found == number {
                return Some(&**node);
            }
        }
        match self.nodes.get(&number) {
            None => None,
            Some(node) => Some(&**node),
        }
    }

    /// Why an event of the node of that number is refused before anything is tried. It takes no memory.
    #[tactic(auto, using(crate::proofs::Numbered::found, crate::proofs::Numbered::unfound))]
    pub(crate) fn refused_at_once(
        &self,
        alloc: Global,
        node: u16,
        event: &NodeEvent<'_>,
    ) -> Option<Refusal>
        ensures { result ≡ refused_at_once (who_at self.now node) (digest_at self.now node) event.now }
    {
        match self.find(node) {
            Some(node) => node.refused_at_once(event),
            None => self.unknown(alloc, node).refused_at_once(event),
        }
    }

    /// Why an event of the node of that number is refused before anything is tried, where no association ends with it. It takes
    /// no memory.
    pub(crate) fn refused_plainly(
        &self,
        alloc: Global,
        node: u16,
        event: &NodeEvent<'_>,
    ) -> Option<Refusal>
        ensures refused { (x : Refusal) → IsPlain (node_at self.now node) event.now x → result ≡ Some x }
        ensures plain { IfSome result (IsPlain (node_at self.now node) event.now) }
    {
        if breaks(event) {
            None
        } else {
            self.refused_at_once(alloc, node, event)
        }
    }

    /// What the node of that number answers to an event, with the draft of what happens. Where it does, there is room for the
    /// node; nothing is known of any that was not.
    #[inline(always)]
    #[tactic(auto, using(crate::proofs::Numbered::found, crate::proofs::Numbered::unfound))]
    pub(crate) fn answer_to(
        &mut self,
        alloc: Global,
        node: u16,
        event: &NodeEvent<'_>,
        draft: &mut Draft,
    ) -> Result<Option<Refusal>, TxFault>
        ensures plain { (x : Refusal) → IsPlain (node_at self.old node) event.now x → result ≡ Err (TxFault.Refused (number_of x)) }
        ensures answer { IsAnswer result draft.new (node_at self.old node) (answer_at (who_at self.old node) (digest_at self.old node) (event_of event.now)) }
        ensures refused { (k : ℕ) → result ≡ Err (TxFault.Refused k) → self.new ≡ self.old }
        ensures ready { IfOk result (λ refusal. has_node self.new node ≡ true) }
        ensures same { (n : ℕ) → digest_at self.new n ≡ digest_at self.old n }
        ensures site { IsSameSite self.old self.new }
    {
        if let Some(node) = self.find(node) {
            return draft.answer_to(alloc, node, event);
        }
        self.answer_unknown(alloc, node, event, draft)
    }

    // The same of a node that is not among them.
    fn answer_unknown(
        &mut self,
        alloc: Global,
        node: u16,
        event: &NodeEvent<'_>,
        draft: &mut Draft,
    ) -> Result<Option<Refusal>, TxFault>
        requires { digest_at self.old node ≡ started (unknown_start self.old) }
        ensures plain { (x : Refusal) → IsPlain (node_at self.old node) event.now x → result ≡ Err (TxFault.Refused (number_of x)) }
        ensures answer { IsAnswer result draft.new (node_at self.old node) (answer_at (who_at self.old node) (digest_at self.old node) (event_of event.now)) }
        ensures refused { (k : ℕ) → result ≡ Err (TxFault.Refused k) → self.new ≡ self.old }
        ensures ready { IfOk result (λ refusal. has_node self.new node ≡ true) }
        ensures same { (n : ℕ) → digest_at self.new n ≡ digest_at self.old n }
        ensures site { IsSameSite self.old self.new }
    {
        match draft.answer_to(alloc, &self.unknown(alloc, node), event) {
            Err(fault) => Err(fault),
            Ok(refusal) => {
                self.prepare(alloc, node)?;
                Ok(refusal)
            }
        }
    }

    /// Whether the event of the node of that number is one that is run on the node itself, and not on a draft; what it says stands
    /// there then.
    #[tactic(auto, using(crate::proofs::Numbered::found))]
    pub(crate) fn plan(
        &self,
        number: u16,
        event: &NodeEvent<'_>,
        outs: &mut Outs,
    ) -> Result<bool, NoMemory>
        ensures plain { (x : Refusal) → IsPlain (node_at self.now number) event.now x → result ≡ Ok false }
        ensures there { IfOk result (λ planned. planned ≡ true → has_node self.now number ≡ true) }
        ensures planned { IfOk result (λ planned. planned ≡ true → IsPlanned (node_at self.now number) event.now outs.new) }
    {
        match self.find(number) {
            None => Ok(false),
            Some(node) => in_place::plan(node, event, outs),
        }
    }

    /// An event of the node of that number is run on the node itself.
    pub(crate) fn apply(&mut self, number: u16, event: &NodeEvent<'_>)
        requires there { has_node self.old number ≡ true }
        requires refused { refused_at_once (who_at self.old number) (digest_at self.old number) event.now ≡ None }
        requires sure { can_run (who_at self.old number) event.now (digest_at self.old number) ≡ true }
        ensures put { (n : ℕ) → digest_at self.new n
            ≡ cond (number == n) (run_in_place (who_at self.old number) event.now (digest_at self.old number)) (digest_at self.old n) }
        ensures site { IsSameSite self.old self.new }
    {
        let Some(place) = self.place_of(number) else {
            return;
        };
        let Some(node) = self.nodes.get_index_mut(place) else {
            return;
        };
        in_place::apply(node, event);
    }

    /// Room for the node of that number is made; nothing is known of it that was not.
    pub(crate) fn prepare(&mut self, alloc: Global, node: u16) -> Result<(), NoMemory>
        ensures ready { OnOk result (has_node self.new node ≡ true) }
        ensures same { (n : ℕ) → digest_at self.new n ≡ digest_at self.old n }
        ensures site { IsSameSite self.old self.new }
    {
        if self.nodes.contains_key(&node) {
            return Ok(());
        }
        let unknown = Box::new(alloc, self.unknown(alloc, node))?;
        self.nodes.insert(node, unknown)?;
        Ok(())
    }

    /// The node of that number, as the draft has it, takes the place of what it was. It takes no memory.
    #[inline(always)]
    pub(crate) fn put(&mut self, alloc: Global, number: u16, draft: &mut Draft)
        requires there { has_node self.old number ≡ true }
        requires who { draft.old.who ≡ who_at self.old number }
        ensures put { (n : ℕ) → digest_at self.new n ≡ cond (number == n) draft.old.move.next (digest_at self.old n) }
        ensures site { IsSameSite self.old self.new }
        ensures outs { draft.new.move.outs ≡ draft.old.move.outs }
    {
        let Some(place) = self.place_of(number) else {
            return;
        };
        let Some(node) = self.nodes.get_index_mut(place) else {
            return;
        };
        draft.put_node(alloc, node);
    }

    // One more record of the node of that number.
    fn recover_at(&mut self, alloc: Global, number: u16, rec: &LogRec) -> Result<(), NoMemory>
        requires { has_node self.old number ≡ true }
        ensures recovered { OnOk result
            ((n : ℕ) → digest_at self.new n ≡ cond (number == n) (recovered_by rec.now (digest_at self.old n)) (digest_at self.old n)) }
        ensures site { IsSameSite self.old self.new }
    {
        let Some(place) = self.nodes.get_mut(&number) else {
            return Ok(());
        };
        place.recover(alloc, rec)
    }

    /// One more record of the log. Without memory the nodes are of no use any more.
    #[tactic(auto, using(crate::proofs::Recovered::more_recovered, crate::proofs::Recovered::more_skipped))]
    pub(crate) fn recover(&mut self, alloc: Global, rec: &LogRec) -> Result<(), NoMemory>
        ensures recovered { OnOk result ((rs : List LogRecord) → AreFrom rs self.old → AreFrom (rs ++ rec.now ∷ []) self.new) }
        ensures site { IsSameSite self.old self.new }
    {
        let Some(owner) = rec.owner() else {
            return Ok(());
        };
        self.prepare(alloc, owner.node)?;
        match self.recover_at(alloc, owner.node, rec) {
            Ok(()) => Ok(()),
            Err(error) => Err(error),
        }
    }

    /// The nodes of which these records tell, for a start with that boot number.
    pub(crate) fn from_records(
        alloc: Global,
        site: SiteName,
        boot: u64,
        version: LogVersion,
        records: &[LogRec],
    ) -> Result<Nodes, NoMemory>
        ensures nodes { IfOk result (λ nodes. AreFrom records.now nodes) }
        ensures site { IfOk result (λ nodes. nodes.site ≡ site) }
        ensures boot { IfOk result (λ nodes. nodes.boot ≡ boot) }
        ensures version { IfOk result (λ nodes. nodes.version ≡ version) }
    {
        let mut nodes = Nodes::new(alloc, site, boot, version);
        for i in 0..records.len() {
            nodes.recover(alloc, &records[i])?;
        }
        Ok(nodes)
    }
}
