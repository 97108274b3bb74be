//! A started store as a member of its node.
ghost use Rattle.std.specs.Prelude.{◌≡◌, ◌≢◌, ◌⊎◌, ◌++◌, ◌∷◌, [], Some, None, IfOk, OnErr};
ghost use Rattle.tp_outside.specs.Story.{Story};
ghost use Rattle.tp_journal.specs.Log.{IsBody, StandsForEither};
ghost use Rattle.tp_journal.specs.Gates.{face};
ghost use Rattle.tp_journal.specs.Started.{IsStarted};
ghost use Rattle.tp_journal.specs.Told.{LeavesOnly};
ghost use Rattle.tp_bound.specs.Says.{IsShutBy, Says, speaker};
ghost use Rattle.tp_bound.specs.Told.{Answers, Appended, dropping, keeping, preparing, gathering, wish, Tells, OpensThroughout};

use super::Bound;
use crate::current::Current;
use crate::encode::{drop_text, keep_text};
use crate::store::Store;
use std::alloc::Global;
use tp_journal::{ForceFault, Gates};
use tp_names::{Aaid, NoMemory};
use tp_outside::Disk;
use tp_records::{Indication, Member, Request};

// What decides a Bind is to have room after it.
const ROOM: u64 = 256;

// Adds a body. False says that the disk failed, in this call or in an earlier one.
fn append<D: Disk>(alloc: Global, gates: &mut Gates<D>, body: &[u8]) -> Result<bool, NoMemory>
    requires { IsBody body.now }
    ensures appended { IfOk result (Appended (face gates.old (D.fault_count gates.old.disk)) body.now (face gates.new (D.fault_count gates.new.disk))) }
    ensures again { gates.old.shut ≢ None → gates.new.disk ≡ gates.old.disk }
    ensures unchanged { OnErr result (gates.new ≡ gates.old) }
    ensures moments { gates.old.shut ≡ None → (s : Story) → D.told gates.old.disk ≡ Some s
        → LeavesOnly (StandsForEither gates.old.bodies (gates.old.bodies ++ body.now ∷ [])) (D.told gates.old.disk) (D.told gates.new.disk) }
{
    match gates.append(alloc, body) {
        Ok(_) => Ok(true),
        Err(fault) => match fault {
            ForceFault::DiskFault { .. } | ForceFault::Shut { .. } => Ok(false),
            ForceFault::Full { .. } | ForceFault::NoMemory => Err(NoMemory),
        },
    }
}

impl<D: Disk> Bound<D> {
    /// Tells the store what its node's user would be told. Without memory nothing changes.
    pub fn told(
        &mut self,
        alloc: Global,
        node: u16,
        ind: &Indication,
    ) -> Result<Option<Request>, NoMemory>
        // The indications of other nodes are nothing to it.
        ensures others { IfOk result (λ told. node ≢ self.old.node → (told ≡ None) × (self.new ≡ self.old)) }
        // A body that is needed is added, and the answer follows; or the disk has failed.
        // Promise 8.8: What a store does with an indication of its own node, and what it answers,
        //   is the table of SERVICE; where a body is missing (8.9), what it holds stays as it
        //   was, and it answers what is said below the table
        // Promise 8.9: A body that was needed is missing only where the disk's count rose in the
        //   call, or the log was shut before
        // Promise 8.11 [clauses tells shuts forced]: When a call has answered and the disk's count
        //   of faults has not risen since the store was opened, all bodies are on the disk: the
        //   Bind before the answer `commit`, the Keep of a Bind that was undecided before the
        //   answer `done` to `commit`
        ensures tells { IfOk result (λ told. node ≡ self.old.node
            → Tells (wish self.old.store self.old.current self.old.gate ind.now) self.old (D.fault_count self.old.disk) told self.new
            (D.fault_count self.new.disk)) }
        // So it is one of the answers that a store may give.
        // Promise 8.17 [clauses says shuts]: In a box a store answers as it may, one answer after
        //   the other; a fault answer comes only where its disk's count rose, or after such an
        //   answer
        ensures says { IfOk result (λ told. Says (speaker self.old) (record { node = node; indication = ind.now; request = told }) (speaker self.new)) }
        // It is shut only where the disk failed.
        ensures shuts { IsShutBy D.fault_count (speaker self.old) self.old.disk (speaker self.new) self.new.disk }
        ensures unchanged { OnErr result (self.new ≡ self.old) }
        // Whatever moment the machine stops at, the disk opens to the content from before the call, or to that with it.
        // Promise 8.10: While a store is not shut, whatever moment of a call with an indication of
        //   its own node the machine stops at, a disk that tells its story opens to the content
        //   from before the call, or to that with the writes of the Bind that it keeps
        ensures moments { node ≡ self.old.node
            → OpensThroughout (wish self.old.store self.old.current self.old.gate ind.now) self.old (D.told self.old.disk) (D.told self.new.disk) }
        // Where no call of the disk has failed, all bodies are on the disk, that which was added too.
        ensures forced { IsStarted (D.told self.new.disk) self.new.gate self.new.bodies self.new.shut }
    {
        let _count = self.gates.count();
        if node != self.node {
            return Ok(None);
        }
        let answer = self.hear(alloc, ind)?;
        let _count = self.gates.count();
        Ok(answer)
    }

    // What its own node is told.
    fn hear(&mut self, alloc: Global, ind: &Indication) -> Result<Option<Request>, NoMemory>
        ensures tells { IfOk result (λ told. Tells (wish self.old.store self.old.current self.old.gate ind.now) self.old
            (D.fault_count self.old.disk) told self.new (D.fault_count self.new.disk)) }
        ensures unchanged { OnErr result (self.new ≡ self.old) }
        ensures moments { (self.new.disk ≡ self.old.disk)
            ⊎ OpensThroughout (wish self.old.store self.old.current self.old.gate ind.now) self.old (D.told self.old.disk) (D.told self.new.disk) }
    {
        match ind {
            Indication::BeginDialogue { units, .. } => Ok(Some(Request::Accept {
                units: units.bits(),
            })),
            Indication::Handshake { peer } | Indication::HandshakeGrant { peer } => {
                Ok(Some(Request::Respond { peer: *peer }))
            }
            Indication::BeginTransaction { aaid, .. } => {
                self.drop_undecided(alloc, None, Some(Current::new(alloc, *aaid)))
            }
            Indication::UserData { octets, .. } => self.add(alloc, octets.as_slice()),
            Indication::Prepare => self.prepare(alloc),
            Indication::Commit => self.commit(alloc),
            Indication::Rollback => self.drop_undecided(alloc, Some(Request::Done), None),
            Indication::BegunDialogue { .. }
            | Indication::Rejected { .. }
            | Indication::EndDialogue { .. }
            | Indication::UError { .. }
            | Indication::UAbort { .. }
            | Indication::PAbort { .. }
            | Indication::Grant { .. }
            | Indication::AskControl { .. }
            | Indication::HandshakeConfirm { .. }
            | Indication::DeferEnd { .. }
            | Indication::DeferGrant { .. }
            | Indication::Ready { .. }
            | Indication::CommitComplete { .. }
            | Indication::RollbackComplete { .. }
            | Indication::HeuristicReport { .. }
            | Indication::Left { .. } => Ok(None),
        }
    }

    // An undecided Bind gets its Drop; then this is current, and this is the answer.
    fn drop_undecided(
        &mut self,
        alloc: Global,
        answer: Option<Request>,
        current: Option<Current>,
    ) -> Result<Option<Request>, NoMemory>
        ensures tells { IfOk result (λ told. Tells (dropping self.old.store.undecided answer current) self.old (D.fault_count self.old.disk)
            told self.new (D.fault_count self.new.disk)) }
        ensures unchanged { OnErr result (self.new ≡ self.old) }
        ensures moments { (self.new.disk ≡ self.old.disk)
            ⊎ OpensThroughout (dropping self.old.store.undecided answer current) self.old (D.told self.old.disk) (D.told self.new.disk) }
    {
        let _count = self.gates.count();
        let Some(pending) = &self.store.undecided else {
            self.current = current;
            return Ok(answer);
        };
        let text = drop_text(alloc, &pending.aaid)?;
        if !append(alloc, &mut self.gates, text.as_slice())? {
            return Ok(None);
        }
        self.store.undecided = None;
        self.current = current;
        Ok(answer)
    }

    fn add(&mut self, alloc: Global, octets: &[u8]) -> Result<Option<Request>, NoMemory>
        ensures tells { IfOk result (λ told. Tells (Answers None (gathering self.old.current octets.now)) self.old
            (D.fault_count self.old.disk) told self.new (D.fault_count self.new.disk)) }
        ensures unchanged { OnErr result (self.new ≡ self.old) }
        ensures same { self.new.disk ≡ self.old.disk }
    {
        if let Some(current) = &mut self.current {
            current.add(alloc, octets)?;
        }
        Ok(None)
    }

    fn prepare(&mut self, alloc: Global) -> Result<Option<Request>, NoMemory>
        ensures tells { IfOk result (λ told. Tells (preparing self.old.gate self.old.current) self.old (D.fault_count self.old.disk) told
            self.new (D.fault_count self.new.disk)) }
        ensures unchanged { OnErr result (self.new ≡ self.old) }
        ensures moments { (self.new.disk ≡ self.old.disk)
            ⊎ OpensThroughout (preparing self.old.gate self.old.current) self.old (D.told self.old.disk) (D.told self.new.disk) }
    {
        let _count = self.gates.count();
        let Some(current) = &self.current else {
            return Ok(Some(Request::Rollback));
        };
        if current.is_spoilt() {
            return Ok(Some(Request::Rollback));
        }
        let text = current.text(alloc)?;
        if !self.gates.fits(text.len() as u64 + ROOM) {
            return Ok(Some(Request::Rollback));
        }
        if !append(alloc, &mut self.gates, text.as_slice())? {
            return Ok(Some(Request::Rollback));
        }
        let Some(current) = self.current.take() else {
            unreachable!()
        };
        self.store.undecided = Some(current.into_pending());
        Ok(Some(Request::Commit))
    }

    fn commit(&mut self, alloc: Global) -> Result<Option<Request>, NoMemory>
        ensures tells { IfOk result (λ told. Tells (keeping self.old.store.undecided self.old.current) self.old
            (D.fault_count self.old.disk) told self.new (D.fault_count self.new.disk)) }
        ensures unchanged { OnErr result (self.new ≡ self.old) }
        ensures moments { (self.new.disk ≡ self.old.disk)
            ⊎ OpensThroughout (keeping self.old.store.undecided self.old.current) self.old (D.told self.old.disk) (D.told self.new.disk) }
    {
        let _count = self.gates.count();
        let Some(pending) = &self.store.undecided else {
            return Ok(Some(Request::Done));
        };
        let text = keep_text(alloc, &pending.aaid)?;
        // What the Keep makes is made before it stands, since nothing may fail after it.
        let content = self.store.content.with(alloc, pending.writes.as_slice())?;
        if !append(alloc, &mut self.gates, text.as_slice())? {
            return Ok(None);
        }
        self.store = Store {
            content,
            undecided: None,
        };
        Ok(Some(Request::Done))
    }
}

impl<D: Disk + Drop> Member for Bound<D> {
    ghost use Rattle.tp_bound.specs.Says.{CanSay, speaker};

    ghost allowed = { λ b answers. CanSay D.fault_count b.disk (speaker b) answers };

    fn told(
        &mut self,
        alloc: Global,
        node: u16,
        ind: &Indication,
    ) -> Result<Option<Request>, NoMemory> {
        Bound::told(self, alloc, node, ind)
    }
}
