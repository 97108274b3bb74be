//! How a node comes to be: from the records of a log, by its declaration, and as a copy of another.
ghost use Rattle.std.specs.Prelude.{◌≡◌, false, true, [], None, Some, IfOk, OnOk, OnErr, nat_lt};
ghost use Rattle.std.specs.Option.{option_map};
ghost use Rattle.tp_logrec.specs.Order.{is_commit, is_ready};
ghost use Rattle.tp_model.specs.Links.{greatest};
ghost use Rattle.tp_model.specs.Events.{started, current_by, decision_of, without_current};
ghost use Rattle.tp_node.specs.Begins.{with_digest};
ghost use Rattle.tp_node.specs.Node.{current_of, unboxed, recovered_by};

use crate::node::Node;
use crate::spare::Spare;
use std::alloc::Global;
use tp_commit::Branch;
use tp_logrec::{LogRec, LogVersion};
use tp_names::same::is_key;
use tp_names::{Addr, NoMemory, NodeKey, Outcome, SiteName};
use tp_node_state::{KeptTable, SharedArcs, kept};

impl Node {
    /// A node of which the log has no record.
    #[tactic(auto, unfolding(tp_model::specs::Events::started))]
    pub fn unknown(
        alloc: Global,
        site: SiteName,
        number: u16,
        boot: u64,
        version: LogVersion,
    ) -> Node
        ensures { result ≡ record { who = record { site = site; node = number }; digest = started (record { boot = boot; version = version; records = [] }) } }
    {
        Node {
            site,
            number,
            known: false,
            arcs: None,
            current: None,
            kept: KeptTable::new(),
            drawn: 0,
            boot,
            version,
        }
    }

    /// How many marks it has drawn.
    pub fn drawn(&self) -> u64
        ensures { result ≡ self.now.digest.drawn }
    {
        self.drawn
    }

    /// It has drawn more marks than there are: never.
    pub fn is_spent(&self) -> bool
        ensures { result ≡ nat_lt greatest self.now.digest.drawn }
    {
        self.drawn > u64::MAX
    }

    // The transaction with that key is current no longer.
    fn forget_current(&mut self, key: &NodeKey)
        ensures { self.new ≡ with_digest self.old (record self.old.digest { current = without_current key.now self.old.digest.current }) }
    {
        let is_that = match &self.current {
            None => false,
            Some(branch) => is_key(branch.key(), key),
        };
        if is_that {
            self.current = None;
        }
    }

    // The node's own decision in its current transaction.
    fn decision(&self) -> Option<Outcome>
        ensures { result ≡ decision_of self.now.digest.current }
    {
        match &self.current {
            None => None,
            Some(branch) => branch.decision(),
        }
    }

    // The transaction that a Commit tells: none where its key has a branch and it names no superior.
    #[tactic(auto, using(crate::proofs::Recovered::told_by_commit))]
    fn committed(&self, alloc: Global, rec: &LogRec) -> Result<Option<Box<Branch>>, NoMemory>
        requires { is_commit rec.now ≡ true }
        ensures { IfOk result (λ branch. option_map current_of (unboxed branch) ≡ current_by rec.now self.now.digest.current) }
    {
        match rec {
            LogRec::Commit {
                key,
                superior: None,
                ..
            } if key.branch.is_some() => Ok(None),
            _ => {
                let branch = Branch::again(alloc, rec, self.decision())?;
                Ok(Some(Box::new(alloc, branch)?))
            }
        }
    }

    // The transaction that a Ready tells.
    #[tactic(auto, using(crate::proofs::Recovered::told_by_ready))]
    fn readied(&self, alloc: Global, rec: &LogRec) -> Result<Option<Box<Branch>>, NoMemory>
        requires { is_ready rec.now ≡ true }
        ensures { IfOk result (λ branch. option_map current_of (unboxed branch) ≡ current_by rec.now self.now.digest.current) }
    {
        let branch = Branch::again(alloc, rec, None)?;
        Ok(Some(Box::new(alloc, branch)?))
    }

    // What a record makes of the current transaction. Without memory nothing changes.
    fn recover_current(&mut self, alloc: Global, rec: &LogRec) -> Result<(), NoMemory>
        ensures who { self.new.who ≡ self.old.who }
        ensures current { OnOk result (self.new ≡ with_digest self.old (record self.old.digest { current = current_by rec.now self.old.digest.current })) }
        ensures same { OnErr result (self.new ≡ self.old) }
    {
        match rec {
            LogRec::Boot { .. } => {}
            LogRec::Heuristic { outcome, .. } => {
                if let Some(branch) = &mut self.current {
                    branch.decide(*outcome);
                }
            }
            LogRec::Ready { .. } => self.current = self.readied(alloc, rec)?,
            LogRec::Commit { .. } => self.current = self.committed(alloc, rec)?,
            LogRec::Damage { key, .. } | LogRec::End { key, .. } => self.forget_current(key),
        }
        Ok(())
    }

    /// One more record of the node in the log. Without memory nothing is said of what it knows: who reads a log throws the node away.
    pub fn recover(&mut self, alloc: Global, rec: &LogRec) -> Result<(), NoMemory>
        ensures recovered { OnOk result (self.new.digest ≡ recovered_by rec.now self.old.digest) }
        ensures who { self.new.who ≡ self.old.who }
    {
        self.recover_current(alloc, rec)?;
        kept::keep(alloc, &mut self.kept, rec)?;
        self.kept.settle(alloc);
        self.known = self.current.is_some() || self.kept.len() > 0;
        Ok(())
    }

    /// The node is declared, with its superior's address where it has one. It takes no memory.
    pub fn declare(&mut self, alloc: Global, superior: Option<Addr>)
        requires { self.old.digest.declared ≡ false }
        ensures { self.new ≡ with_digest self.old (record self.old.digest { declared = true; superior = superior }) }
    {
        let room = match self.version {
            LogVersion::One => 32,
            LogVersion::Two => 256,
        };
        self.arcs = Some(SharedArcs::new(alloc, self.number, superior, room));
    }

    /// Becomes equal to that one, in the memory that it has where that is enough. The kept transactions are shared. A
    /// transaction that it has no more is spared for the next one. Without memory its transaction may be another, and the rest
    /// of it stays what it was.
    pub fn copy_from(
        &mut self,
        alloc: Global,
        other: &Node,
        spare: &mut Spare,
    ) -> Result<(), NoMemory>
        ensures copy { OnOk result (self.new ≡ other.now) }
        ensures rest { OnErr result (self.new ≡ with_digest self.old (record self.old.digest { current = self.new.digest.current })) }
    {
        let kept = other.kept.copy(alloc)?;
        copy_current(alloc, &mut self.current, &other.current, spare)?;
        copy_arcs(alloc, &mut self.arcs, &other.arcs)?;
        self.site = other.site;
        self.number = other.number;
        self.known = other.known;
        self.kept = kept;
        self.drawn = other.drawn;
        self.boot = other.boot;
        self.version = other.version;
        Ok(())
    }
}

// Without memory the transaction may be any: the copy is thrown away.
fn copy_current(
    alloc: Global,
    own: &mut Option<Box<Branch>>,
    other: &Option<Box<Branch>>,
    spare: &mut Spare,
) -> Result<(), NoMemory>
    ensures { OnOk result (unboxed own.new ≡ unboxed other.now) }
{
    let Some(branch) = other else {
        set_aside(own, spare);
        return Ok(());
    };
    if own.is_none() {
        *own = spare.take();
    }
    match own {
        Some(own) => own.copy_from(branch),
        None => new_current(alloc, own, branch),
    }
}

// There is no transaction any more; where there was one, its memory is spared.
fn set_aside(own: &mut Option<Box<Branch>>, spare: &mut Spare)
    ensures { own.new ≡ None }
{
    if let Some(branch) = own.take() {
        spare.put(branch);
    }
}

// A copy of that transaction, in memory of its own.
fn new_current(alloc: Global, own: &mut Option<Box<Branch>>, other: &Branch) -> Result<(), NoMemory>
    ensures { OnOk result (unboxed own.new ≡ Some other.now) }
{
    let copy = other.copy(alloc)?;
    *own = Some(Box::new(alloc, copy)?);
    Ok(())
}

// Without memory the arcs stay what they were.
fn copy_arcs(
    alloc: Global,
    own: &mut Option<SharedArcs>,
    other: &Option<SharedArcs>,
) -> Result<(), NoMemory>
    ensures copy { OnOk result (own.new ≡ other.now) }
    ensures same { OnErr result (own.new ≡ own.old) }
{
    let Some(arcs) = other else {
        *own = None;
        return Ok(());
    };
    match own {
        Some(own) => own.copy_from(arcs),
        None => new_arcs(alloc, own, arcs),
    }
}

// A copy of those arcs. Without memory there are those that were there.
fn new_arcs(alloc: Global, own: &mut Option<SharedArcs>, other: &SharedArcs) -> Result<(), NoMemory>
    ensures copy { OnOk result (own.new ≡ Some other.now) }
    ensures same { OnErr result (own.new ≡ own.old) }
{
    *own = Some(other.copy(alloc)?);
    Ok(())
}
