//! Which peer records have a text: all but those with more of a user's octets than fit.
ghost use Rattle.tp_names.specs.Bytes.{byte_bytes, mark_bytes, maybe_bytes};
ghost use Rattle.tp_names.specs.Reading.{read_mark, read_maybe};
ghost use Rattle.tp_names.specs.Grammar.{HasText};
ghost use Rattle.tp_records.specs.declared.peer.PeerRecord.{PeerRecord};
ghost use Rattle.tp_records.specs.Bodies.{dialogue_bytes};
ghost use Rattle.tp_records.specs.BodyReading.{read_units, read_dialogue, peer_grammar};
ghost use Rattle.tp_texts.specs.Texts.{Takes};
ghost use Rattle.tp_texts.specs.PeerTexts.{HasPeerText, HasFewOctets, CarriesFew};

use crate::parts::{aaid_reads, branch_reads, mark_reads};
use tp_names::{Aaid, BranchId, Mark};
use tp_records::{DialogueRecord, PeerRecord, RecState};
use tp_units::Units;

// Promise 2.20, part 2
/// A record that carries no more of a user's octets than fit has a text. It shows that, and answers nothing.
pub fn few_has_text(rec: &PeerRecord)
    requires { CarriesFew rec.now }
    ensures { HasText peer_grammar rec.now }
{
    kind_has_text(rec);
}

/// Kind by kind.
fn kind_has_text(rec: &PeerRecord)
    requires { CarriesFew rec.now }
    ensures { HasPeerText rec.now }
{
    match rec {
        PeerRecord::OpenAssoc { x, units } => open_has_text(*x, *units),
        PeerRecord::AcceptAssoc { x, y, units } => accept_has_text(*x, *y, *units),
        PeerRecord::ShutAssoc { x, y } => shut_has_text(*x, *y),
        PeerRecord::OnAssoc { x, y, seq, rec } => on_assoc_has_text(*x, *y, *seq, rec),
        PeerRecord::RecReady { aaid, branch } => names_have_text(*aaid, *branch),
        PeerRecord::RecCommit { aaid, branch } => names_have_text(*aaid, *branch),
        PeerRecord::RecReply {
            aaid,
            branch,
            state,
        } => reply_has_text(*aaid, *branch, *state),
        PeerRecord::Forget { aaid, branch } => names_have_text(*aaid, *branch),
    }
}

#[tactic(auto, using(crate::proofs::PeerTexts::on_assoc_text))]
fn on_assoc_has_text(x: Mark, y: Mark, seq: u64, rec: &DialogueRecord)
    requires { HasFewOctets rec.now }
    ensures { HasPeerText (PeerRecord.OnAssoc x y seq rec.now) }
{
    mark_reads(x);
    mark_reads(y);
    dialogue_reads(rec);
}

#[tactic(auto, using(crate::proofs::PeerTexts::open_text))]
fn open_has_text(x: Mark, units: Units)
    ensures { HasPeerText (PeerRecord.OpenAssoc x units) }
{
    mark_reads(x);
    units_read(units);
}

#[tactic(auto, using(crate::proofs::PeerTexts::accept_text))]
fn accept_has_text(x: Mark, y: Mark, units: Units)
    ensures { HasPeerText (PeerRecord.AcceptAssoc x y units) }
{
    mark_reads(x);
    mark_reads(y);
    units_read(units);
}

#[tactic(auto, using(crate::proofs::PeerTexts::shut_text))]
fn shut_has_text(x: Mark, y: Option<Mark>)
    ensures { HasPeerText (PeerRecord.ShutAssoc x y) }
{
    mark_reads(x);
    maybe_mark_reads(y);
}

/// The three kinds that tell nothing but the names of a transaction and of a branch.
#[tactic(auto, using(crate::proofs::PeerTexts::ready_text, crate::proofs::PeerTexts::commit_text, crate::proofs::PeerTexts::forget_text))]
fn names_have_text(aaid: Aaid, branch: BranchId)
    ensures ready { HasPeerText (PeerRecord.RecReady aaid branch) }
    ensures commit { HasPeerText (PeerRecord.RecCommit aaid branch) }
    ensures forget { HasPeerText (PeerRecord.Forget aaid branch) }
{
    aaid_reads(aaid);
    branch_reads(branch);
}

#[tactic(auto, using(crate::proofs::PeerTexts::reply_text))]
fn reply_has_text(aaid: Aaid, branch: BranchId, state: RecState)
    ensures { HasPeerText (PeerRecord.RecReply aaid branch state) }
{
    aaid_reads(aaid);
    branch_reads(branch);
}

#[tactic(auto, using(crate::proofs::PeerParts::no_mark_taken, crate::proofs::PeerParts::some_mark_taken))]
fn maybe_mark_reads(mark: Option<Mark>)
    ensures { Takes (read_maybe read_mark) (maybe_bytes mark_bytes mark) mark }
{
    if let Some(mark) = mark {
        mark_reads(mark);
    }
}

/// A permitted set of units is one: its bits say so.
#[tactic(auto, using(crate::proofs::PeerParts::units_taken))]
fn units_read(units: Units)
    ensures { Takes read_units (byte_bytes units) units }
{
    let _bits = units.bits();
}

/// A record of a dialogue is read back where what it carries of a user's octets fits.
fn dialogue_reads(rec: &DialogueRecord)
    requires { HasFewOctets rec.now }
    ensures { Takes read_dialogue (dialogue_bytes rec.now) rec.now }
{
    match rec {
        DialogueRecord::Begin { aaid, branch, .. } => {
            aaid_reads(*aaid);
            branch_reads(*branch);
        }
        DialogueRecord::UserData { .. } => {}
        _ => {}
    }
}
