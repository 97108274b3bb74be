//! A site of a world, on a log in memory.
ghost use Rattle.std.specs.Prelude.{◌≡◌, true, List, [], IfOk, OnOk, Some, None};
ghost use Rattle.std.specs.List.{AllByRecursion};
ghost use Rattle.tp_outside.specs.MemDisk.{recorded, fresh};
ghost use Rattle.tp_logrec.specs.declared.record.LogRec.{LogRec};
ghost use Rattle.tp_journal.specs.Log.{StandsFor};
ghost use Rattle.tp_journal.specs.Records.{HasText, bodies_of};
ghost use Rattle.tp_outside.specs.Story.{seen};
ghost use Rattle.tp_journal.specs.Told.{IsOn};
ghost use Rattle.tp_model.specs.History.{state};
ghost use Rattle.tp_model.specs.Outcomes.{is_unchanged};
ghost use Rattle.tp_model.specs.Parts.{Arrive};
ghost use Rattle.tp_network.specs.FrameRecord.{record_of};
ghost use Rattle.tp_site.specs.NodeEvent.{event_of};
ghost use Rattle.tp_site.specs.Site.{known_at};
ghost use Rattle.tp_site.specs.State.{state_of, tree_in};
ghost use Rattle.tp_world_sites.specs.NodeAnswers.{result_told};
ghost use Rattle.tp_world_sites.specs.Restarts.{Opens, Reopens, IsStartable, StartsOn};
ghost use Rattle.tp_world_sites.specs.Slots.{blank_file, IsBlank, IsFresh, shown_behind, Declares, SlotPlays};

use crate::fault::WorldFault;
use crate::shown::put_shown;
use std::alloc::Global;
use tp_journal::{Journal, StartFault as OpenFault, format};
use tp_logrec::LogRec;
use tp_model::{LogWords, Refusal, What};
use tp_names::{Addr, NoMemory, Octets, SiteName};
use tp_network::{Frame, FrameRecord, TreeChange};
use tp_outside::MemDisk;
use tp_records::{PeerRecord, Request};
use tp_site::{NodeEvent, NodeState, NodeTree, Outs, Site, SiteFault, StartFault};

/// What a node answers to an event.
#[derive(Clone, Copy)]
pub enum Answer {
    /// It is refused by that number, and nothing has changed.
    Refused(u8),
    /// It has happened, and the node's history gains an entry. With a refusal, a record was refused by that, and the association
    /// that it came on was ended; the entry is of that loss.
    Happened { refusal: Option<Refusal> },
}

/// An entry that a node's history gains: its outputs, and what it shows of trees. The memory of one serves for the next.
#[derive(Drop)]
pub struct Entry {
    pub outs: Outs,
    pub change: TreeChange,
}

impl Entry {
    /// Memory for an entry.
    pub fn new(alloc: Global) -> Entry
        ensures { result.outs ≡ [] }
    {
        Entry {
            outs: Outs::new(alloc),
            change: TreeChange::NONE,
        }
    }
}

/// A site of a world.
#[derive(Drop)]
pub struct SiteSlot {
    site: Site<Journal<MemDisk>>,
}

fn is_unchanged(event: &NodeEvent<'_>) -> bool
    ensures { result ≡ is_unchanged (event_of event.now) }
{
    matches!(
        event,
        NodeEvent::Do {
            request: Request::Unchanged
        }
    )
}

// What is shown of the record after the first so many, where there is one.
fn put_forced(records: &[LogRec], count: usize, words: &mut Option<LogWords>)
    ensures { words.new ≡ shown_behind records.now count }
{
    match records.get(count) {
        Some(rec) => put_shown(rec, words),
        None => *words = None,
    }
}

// A disk with a fresh log of version 2. A disk in memory fails for lack of memory alone.
fn blank_disk(alloc: Global) -> Result<MemDisk, NoMemory>
    ensures { IfOk result (λ disk. IsOn (Some (recorded disk).story) blank_file) }
{
    let mut disk = MemDisk::from(alloc, Octets::new(alloc));
    match format(&mut disk) {
        Ok(()) => Ok(disk),
        Err(_failed) => Err(NoMemory),
    }
}

// A journal on that disk.
fn blank(alloc: Global, disk: MemDisk) -> Result<Journal<MemDisk>, NoMemory>
    requires { IsOn (Some (recorded disk).story) blank_file }
    ensures { IfOk result IsBlank }
{
    match Journal::start(alloc, disk) {
        Ok(journal) => Ok(journal),
        Err((_disk, _fault)) => Err(NoMemory),
    }
}

/// A journal on that disk. A disk in memory fails for lack of memory alone.
pub fn opened(alloc: Global, disk: MemDisk) -> Result<Journal<MemDisk>, WorldFault>
    ensures { (rs : List LogRec) → StandsFor (seen (recorded disk).story) (bodies_of true rs) → AllByRecursion (HasText true) rs
        → Opens (seen (recorded disk).story) rs result }
{
    let _bytes = disk.bytes();
    match Journal::start(alloc, disk) {
        Ok(journal) => Ok(journal),
        Err((_disk, OpenFault::Foreign { .. })) => Err(WorldFault::Name),
        Err((_disk, _starved)) => Err(WorldFault::NoMemory),
    }
}

impl SiteSlot {
    /// A new site, on a fresh log, which has room for its first boot: all that it wants is memory.
    pub(crate) fn fresh(alloc: Global, name: SiteName) -> Result<SiteSlot, NoMemory>
        ensures { IfOk result (IsFresh name) }
    {
        let disk = blank_disk(alloc)?;
        match Site::start(alloc, blank(alloc, disk)?, name) {
            Ok(site) => Ok(SiteSlot { site }),
            Err((_journal, _fault)) => Err(NoMemory),
        }
    }

    /// A disk with the bytes of its own.
    pub fn copied(&self, alloc: Global) -> Result<MemDisk, NoMemory>
        ensures { IfOk result (λ disk. recorded disk ≡ fresh (seen (recorded self.now.site.keeper.disk).story) []) }
    {
        let bytes = Octets::from_slice(alloc, self.bytes())?;
        Ok(MemDisk::from(alloc, bytes))
    }

    /// A journal on the bytes of its disk.
    pub fn reopened(&self, alloc: Global) -> Result<Journal<MemDisk>, WorldFault>
        ensures { self.now.site.keeper.shut ≡ None → self.now.site.keeper.wide ≡ true → Reopens self.now.site.keeper result }
    {
        let log = self.site.log();
        let _shut = log.shut();
        let _records = log.list();
        let disk = self.copied(alloc)?;
        opened(alloc, disk)
    }

    /// The site as it starts on that journal: it wants room for the next boot, and memory.
    pub fn started_on(
        &self,
        alloc: Global,
        journal: Journal<MemDisk>,
    ) -> Result<SiteSlot, WorldFault>
        ensures { journal.shut ≡ None → IsStartable journal.list → StartsOn journal self.now.site.nodes.site result }
    {
        match Site::start(alloc, journal, self.name()) {
            Ok(site) => Ok(SiteSlot { site }),
            Err((_journal, StartFault::Full { .. })) => Err(WorldFault::Limit { what: What::Log }),
            Err((_journal, StartFault::Foreign { .. })) => Err(WorldFault::Name),
            Err((_journal, StartFault::BootsSpent)) => Err(WorldFault::Name),
            Err((_journal, StartFault::Shut { .. })) => Err(WorldFault::Name),
            Err((_journal, _starved)) => Err(WorldFault::NoMemory),
        }
    }

    /// Its name.
    pub fn name(&self) -> SiteName
        ensures { result ≡ self.now.site.nodes.site }
    {
        self.site.name()
    }

    /// The boot number of its start.
    pub fn boot(&self) -> u64
        ensures { result ≡ self.now.site.nodes.boot }
    {
        self.site.boot()
    }

    /// The tree of that node's current transaction.
    #[inline(always)]
    pub(crate) fn tree(&self, node: u16) -> Option<NodeTree>
        ensures { result ≡ tree_in (known_at self.now.site node) }
    {
        self.site.tree(node)
    }

    /// What is shown of that node, declared or not.
    pub(crate) fn shown(&self, node: u16) -> NodeState
        ensures { state_of result ≡ state (known_at self.now.site node) }
    {
        self.site.shown(node)
    }

    /// Its log.
    pub fn log(&self) -> &Journal<MemDisk>
        ensures { result.now ≡ self.now.site.keeper }
    {
        self.site.log()
    }

    /// All bytes of its disk.
    pub fn bytes(&self) -> &[u8]
        ensures { result.now ≡ seen (recorded self.now.site.keeper.disk).story }
    {
        self.site.log().lent().bytes()
    }

    /// The records of its log.
    pub(crate) fn records(&self) -> &[LogRec]
        ensures { result.now ≡ self.now.site.keeper.list }
    {
        self.site.log().list()
    }

    // The tree of that node's current transaction is put there.
    #[inline(always)]
    fn put_tree(&self, node: u16, tree: &mut Option<NodeTree>)
        ensures { tree.new ≡ tree_in (known_at self.now.site node) }
    {
        self.site.put_tree(node, tree);
    }

    // What an event of that node has shown of trees, before which the log had so many records; the tree before it stays as it is.
    fn fill(&self, node: u16, leaves: bool, count: usize, change: &mut TreeChange)
        ensures { change.new ≡ record {
          before = change.old.before;
          after = tree_in (known_at self.now.site node);
          leaves = leaves;
          rec = shown_behind self.now.site.keeper.list count;
        } }
    {
        self.put_tree(node, &mut change.after);
        change.leaves = leaves;
        put_forced(self.records(), count, &mut change.rec);
    }

    /// An event of the node of that number. The entry of it is told beside the answer, where it has happened.
    /// Without memory nothing is said of the site: the world has ended, and it is thrown away.
    pub fn play(
        &mut self,
        alloc: Global,
        node: u16,
        event: &NodeEvent<'_>,
        entry: &mut Entry,
    ) -> Result<Answer, WorldFault>
        ensures { SlotPlays self.old node (event_of event.now) (result_told result entry.new) self.new }
    {
        self.site.note_tree(node, &mut entry.change.before);
        let count = self.records().len();
        match self.site.play_into(alloc, node, event, &mut entry.outs) {
            Ok(refusal) => {
                self.fill(node, is_unchanged(event), count, &mut entry.change);
                Ok(Answer::Happened { refusal })
            }
            Err(SiteFault::Refused(number)) => Ok(Answer::Refused(number)),
            Err(SiteFault::Full { .. }) => Err(WorldFault::Limit { what: What::Log }),
            Err(_) => Err(WorldFault::NoMemory),
        }
    }

    /// A frame that is handed over to the node of that number. The entry of that is told beside the answer.
    /// Without memory nothing is said of the site: the world has ended, and it is thrown away.
    #[inline(always)]
    pub fn arrive(
        &mut self,
        alloc: Global,
        node: u16,
        frame: &Frame,
        entry: &mut Entry,
    ) -> Result<Answer, WorldFault>
        ensures { SlotPlays self.old node (Arrive frame.now.from (record_of frame.now.rec)) (result_told result entry.new) self.new }
    {
        let _request: Option<&Request> = None;
        let from = frame.from;
        match &frame.rec {
            FrameRecord::Word { x, y, seq, word } => {
                let rec = PeerRecord::OnAssoc {
                    x: *x,
                    y: *y,
                    seq: *seq,
                    rec: word.said(),
                };
                self.play(alloc, node, &NodeEvent::Arrive { from, rec: &rec }, entry)
            }
            FrameRecord::Other(rec) => {
                self.play(alloc, node, &NodeEvent::Arrive { from, rec }, entry)
            }
        }
    }

    /// The node is declared. No record is forced for it: all that it wants is memory. Without memory nothing is said of the site:
    /// the world has ended, and is thrown away.
    pub(crate) fn declare(
        &mut self,
        alloc: Global,
        node: u16,
        superior: &Option<Addr>,
    ) -> Result<(), NoMemory>
        ensures { OnOk result (Declares self.old node superior.now self.new) }
    {
        let _rec: Option<&PeerRecord> = None;
        let _request: Option<&Request> = None;
        let event = NodeEvent::Declare {
            superior: *superior,
        };
        let mut entry = Entry::new(alloc);
        match self.play(alloc, node, &event, &mut entry) {
            Ok(_answer) => Ok(()),
            Err(_fault) => Err(NoMemory),
        }
    }
}
