//! Copies of what outputs say, and of the records in them.
ghost use Rattle.std.specs.Prelude.{◌≡◌, IfOk};
ghost use Rattle.tp_records.specs.declared.indication.Indication.{Indication as IndicationValue};
ghost use Rattle.tp_records.specs.declared.dialogue.DialogueRecord.{DialogueRecord as DialogueValue};
ghost use Rattle.tp_records.specs.declared.peer.PeerRecord.{PeerRecord as PeerValue};

use std::alloc::Global;
use tp_names::{Aaid, BranchId, Mark, NoMemory, Octets};
use tp_records::{DialogueRecord, Holder, Indication, PeerRecord};

/// Of an indication.
#[inline(always)]
pub fn indication(alloc: Global, indication: &Indication) -> Result<Indication, NoMemory>
    ensures { IfOk result (λ copy. copy ≡ indication.now) }
{
    Ok(match indication {
        Indication::BeginDialogue { peer, units } => Indication::BeginDialogue {
            peer: *peer,
            units: *units,
        },
        Indication::BegunDialogue { peer, units } => Indication::BegunDialogue {
            peer: *peer,
            units: *units,
        },
        Indication::Rejected { peer } => Indication::Rejected { peer: *peer },
        Indication::EndDialogue { peer } => Indication::EndDialogue { peer: *peer },
        Indication::UserData { peer, octets } => return user_data(alloc, *peer, octets),
        Indication::UError { peer } => Indication::UError { peer: *peer },
        Indication::UAbort { peer } => Indication::UAbort { peer: *peer },
        Indication::PAbort { peer } => Indication::PAbort { peer: *peer },
        Indication::Grant { peer } => Indication::Grant { peer: *peer },
        Indication::AskControl { peer } => Indication::AskControl { peer: *peer },
        Indication::Handshake { peer } => Indication::Handshake { peer: *peer },
        Indication::HandshakeConfirm { peer } => Indication::HandshakeConfirm { peer: *peer },
        Indication::HandshakeGrant { peer } => Indication::HandshakeGrant { peer: *peer },
        Indication::BeginTransaction { peer, aaid } => return Ok(begin_transaction(*peer, aaid)),
        Indication::DeferEnd { peer } => Indication::DeferEnd { peer: *peer },
        Indication::DeferGrant { peer } => Indication::DeferGrant { peer: *peer },
        Indication::Prepare => Indication::Prepare,
        Indication::Ready { peer } => Indication::Ready { peer: *peer },
        Indication::Commit => Indication::Commit,
        Indication::CommitComplete { report } => Indication::CommitComplete { report: *report },
        Indication::Rollback => Indication::Rollback,
        Indication::RollbackComplete { report } => Indication::RollbackComplete { report: *report },
        Indication::HeuristicReport { peer, report } => Indication::HeuristicReport {
            peer: *peer,
            report: *report,
        },
        Indication::Left { peer } => Indication::Left { peer: *peer },
    })
}

fn user_data(alloc: Global, peer: u16, octets: &Octets) -> Result<Indication, NoMemory>
    ensures { IfOk result (λ copy. copy ≡ IndicationValue.UserData peer octets.now) }
{
    let octets = Octets::from_slice(alloc, octets.as_slice())?;
    Ok(Indication::UserData { peer, octets })
}

fn begin_transaction(peer: u16, aaid: &Aaid) -> Indication
    ensures { result ≡ IndicationValue.BeginTransaction peer aaid.now }
{
    Indication::BeginTransaction { peer, aaid: *aaid }
}

/// Of a record on an association.
#[inline(always)]
pub fn dialogue(alloc: Global, dialogue: &DialogueRecord) -> Result<DialogueRecord, NoMemory>
    ensures { IfOk result (λ copy. copy ≡ dialogue.now) }
{
    Ok(match dialogue {
        DialogueRecord::EndDialogue => DialogueRecord::EndDialogue,
        DialogueRecord::UserData { octets } => return data(alloc, octets),
        DialogueRecord::UError => DialogueRecord::UError,
        DialogueRecord::UAbort => DialogueRecord::UAbort,
        DialogueRecord::Grant => DialogueRecord::Grant,
        DialogueRecord::AskControl => DialogueRecord::AskControl,
        DialogueRecord::Handshake => DialogueRecord::Handshake,
        DialogueRecord::HandshakeGrant => DialogueRecord::HandshakeGrant,
        DialogueRecord::Response => DialogueRecord::Response,
        DialogueRecord::DeferEnd => DialogueRecord::DeferEnd,
        DialogueRecord::DeferGrant => DialogueRecord::DeferGrant,
        DialogueRecord::Begin {
            aaid,
            branch,
            holder,
        } => return Ok(begin(aaid, branch, *holder)),
        DialogueRecord::Prepare => DialogueRecord::Prepare,
        DialogueRecord::Ready => DialogueRecord::Ready,
        DialogueRecord::Commit => DialogueRecord::Commit,
        DialogueRecord::Done { report } => DialogueRecord::Done { report: *report },
        DialogueRecord::Rollback => DialogueRecord::Rollback,
        DialogueRecord::RolledBack { report } => DialogueRecord::RolledBack { report: *report },
        DialogueRecord::Left => DialogueRecord::Left,
        DialogueRecord::LeftEnd => DialogueRecord::LeftEnd,
    })
}

fn data(alloc: Global, octets: &Octets) -> Result<DialogueRecord, NoMemory>
    ensures { IfOk result (λ copy. copy ≡ DialogueValue.UserData octets.now) }
{
    let octets = Octets::from_slice(alloc, octets.as_slice())?;
    Ok(DialogueRecord::UserData { octets })
}

fn begin(aaid: &Aaid, branch: &BranchId, holder: Holder) -> DialogueRecord
    ensures { result ≡ DialogueValue.Begin aaid.now branch.now holder }
{
    DialogueRecord::Begin {
        aaid: *aaid,
        branch: *branch,
        holder,
    }
}

/// Of a record between nodes.
#[inline(always)]
pub fn peer(alloc: Global, peer: &PeerRecord) -> Result<PeerRecord, NoMemory>
    ensures { IfOk result (λ copy. copy ≡ peer.now) }
{
    Ok(match peer {
        PeerRecord::OpenAssoc { x, units } => PeerRecord::OpenAssoc {
            x: *x,
            units: *units,
        },
        PeerRecord::AcceptAssoc { x, y, units } => PeerRecord::AcceptAssoc {
            x: *x,
            y: *y,
            units: *units,
        },
        PeerRecord::ShutAssoc { x, y } => PeerRecord::ShutAssoc { x: *x, y: *y },
        PeerRecord::OnAssoc { x, y, seq, rec } => return on_assoc(alloc, x, y, *seq, rec),
        PeerRecord::RecReady { aaid, branch } => PeerRecord::RecReady {
            aaid: *aaid,
            branch: *branch,
        },
        PeerRecord::RecCommit { aaid, branch } => PeerRecord::RecCommit {
            aaid: *aaid,
            branch: *branch,
        },
        PeerRecord::RecReply {
            aaid,
            branch,
            state,
        } => PeerRecord::RecReply {
            aaid: *aaid,
            branch: *branch,
            state: *state,
        },
        PeerRecord::Forget { aaid, branch } => PeerRecord::Forget {
            aaid: *aaid,
            branch: *branch,
        },
    })
}

fn on_assoc(
    alloc: Global,
    x: &Mark,
    y: &Mark,
    seq: u64,
    rec: &DialogueRecord,
) -> Result<PeerRecord, NoMemory>
    ensures { IfOk result (λ copy. copy ≡ PeerValue.OnAssoc x.now y.now seq rec.now) }
{
    Ok(PeerRecord::OnAssoc {
        x: *x,
        y: *y,
        seq,
        rec: dialogue(alloc, rec)?,
    })
}
