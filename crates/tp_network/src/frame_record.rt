//! The record that a frame carries. Most are a word on an association, and are kept in little room.
ghost use Rattle.std.specs.Prelude.{◌≡◌, IfOk, IfSome};
ghost use Rattle.tp_network.specs.FrameRecord.{said, record_of};

use std::alloc::Global;
use tp_names::{Mark, NoMemory, Report};
use tp_node_state::copies;
use tp_records::{DialogueRecord, PeerRecord};

/// A record of a dialogue that carries neither an identifier nor octets.
#[derive(Clone, Copy)]
pub enum DialogueWord {
    EndDialogue,
    UError,
    UAbort,
    Grant,
    AskControl,
    Handshake,
    HandshakeGrant,
    Response,
    DeferEnd,
    DeferGrant,
    Prepare,
    Ready,
    Commit,
    Done { report: Report },
    Rollback,
    RolledBack { report: Report },
    Left,
    LeftEnd,
}

/// A record from node to node, as a frame keeps it.
#[derive(Drop)]
pub enum FrameRecord {
    /// A word on an association.
    Word {
        word: DialogueWord,
        x: Mark,
        y: Mark,
        seq: u64,
    },
    Other(Box<PeerRecord>),
}

impl DialogueWord {
    // The record as a word, where it is one.
    fn of(rec: &DialogueRecord) -> Option<DialogueWord>
        ensures { IfSome result (λ word. said word ≡ rec.now) }
    {
        match rec {
            DialogueRecord::EndDialogue => Some(DialogueWord::EndDialogue),
            DialogueRecord::UserData { .. } | DialogueRecord::Begin { .. } => None,
            DialogueRecord::UError => Some(DialogueWord::UError),
            DialogueRecord::UAbort => Some(DialogueWord::UAbort),
            DialogueRecord::Grant => Some(DialogueWord::Grant),
            DialogueRecord::AskControl => Some(DialogueWord::AskControl),
            DialogueRecord::Handshake => Some(DialogueWord::Handshake),
            DialogueRecord::HandshakeGrant => Some(DialogueWord::HandshakeGrant),
            DialogueRecord::Response => Some(DialogueWord::Response),
            DialogueRecord::DeferEnd => Some(DialogueWord::DeferEnd),
            DialogueRecord::DeferGrant => Some(DialogueWord::DeferGrant),
            DialogueRecord::Prepare => Some(DialogueWord::Prepare),
            DialogueRecord::Ready => Some(DialogueWord::Ready),
            DialogueRecord::Commit => Some(DialogueWord::Commit),
            DialogueRecord::Done { report } => Some(DialogueWord::Done { report: *report }),
            DialogueRecord::Rollback => Some(DialogueWord::Rollback),
            DialogueRecord::RolledBack { report } => {
                Some(DialogueWord::RolledBack { report: *report })
            }
            DialogueRecord::Left => Some(DialogueWord::Left),
            DialogueRecord::LeftEnd => Some(DialogueWord::LeftEnd),
        }
    }

    /// The record that the word is.
    #[inline(always)]
    pub fn said(self) -> DialogueRecord
        ensures { result ≡ said self }
    {
        match self {
            DialogueWord::EndDialogue => DialogueRecord::EndDialogue,
            DialogueWord::UError => DialogueRecord::UError,
            DialogueWord::UAbort => DialogueRecord::UAbort,
            DialogueWord::Grant => DialogueRecord::Grant,
            DialogueWord::AskControl => DialogueRecord::AskControl,
            DialogueWord::Handshake => DialogueRecord::Handshake,
            DialogueWord::HandshakeGrant => DialogueRecord::HandshakeGrant,
            DialogueWord::Response => DialogueRecord::Response,
            DialogueWord::DeferEnd => DialogueRecord::DeferEnd,
            DialogueWord::DeferGrant => DialogueRecord::DeferGrant,
            DialogueWord::Prepare => DialogueRecord::Prepare,
            DialogueWord::Ready => DialogueRecord::Ready,
            DialogueWord::Commit => DialogueRecord::Commit,
            DialogueWord::Done { report } => DialogueRecord::Done { report },
            DialogueWord::Rollback => DialogueRecord::Rollback,
            DialogueWord::RolledBack { report } => DialogueRecord::RolledBack { report },
            DialogueWord::Left => DialogueRecord::Left,
            DialogueWord::LeftEnd => DialogueRecord::LeftEnd,
        }
    }
}

// The record as a word on an association, where it is one.
fn word_in(rec: &PeerRecord) -> Option<FrameRecord>
    ensures { IfSome result (λ kept. record_of kept ≡ rec.now) }
{
    match rec {
        PeerRecord::OnAssoc { x, y, seq, rec } => {
            let word = DialogueWord::of(rec)?;
            Some(FrameRecord::Word {
                word,
                x: *x,
                y: *y,
                seq: *seq,
            })
        }
        _ => None,
    }
}

// The record as it is.
fn boxed(alloc: Global, rec: &PeerRecord) -> Result<FrameRecord, NoMemory>
    ensures { IfOk result (λ kept. record_of kept ≡ rec.now) }
{
    let rec = copies::peer(alloc, rec)?;
    Ok(FrameRecord::Other(Box::new(alloc, rec)?))
}

impl FrameRecord {
    /// The record as a frame keeps it.
    pub fn of(alloc: Global, rec: &PeerRecord) -> Result<FrameRecord, NoMemory>
        ensures { IfOk result (λ kept. record_of kept ≡ rec.now) }
    {
        match word_in(rec) {
            Some(kept) => Ok(kept),
            None => boxed(alloc, rec),
        }
    }
}
