//! The bytes of dialogue records.
ghost use Rattle.std.specs.Prelude.{◌≡◌, ◌++◌, ◌∷◌, OnOk, OnErr};
ghost use Rattle.tp_names.specs.Scanning.{Gives, GivesUnlessFull, scan_make, ◌with◌, scan_aaid, scan_branch};
ghost use Rattle.tp_names.specs.Bytes.{aaid_bytes, branch_bytes};
ghost use Rattle.tp_names.specs.Writing.{Keeps};
ghost use Rattle.tp_records.specs.Bodies.{holder_bytes, dialogue_bytes};
ghost use Rattle.tp_records.specs.Octets.{IsShortDialogue};
ghost use Rattle.tp_records.specs.BodyScanning.{scan_holder, scan_dialogue};
ghost use Rattle.tp_records.specs.declared.dialogue.DialogueRecord.{DialogueRecord};

use super::{DialogueRecord, Holder};
use std::alloc::Global;
use tp_names::{
    Aaid, BadBytes, BranchId, Cursor, NoMemory, Octets, ReadFault, write_aaid, write_branch,
    write_octets, write_report,
};

/// Reads a record of a dialogue.
#[tactic(auto, unfolding(crate::specs::BodyScanning::scan_dialogue))]
pub(crate) fn read_dialogue(alloc: Global, from: &mut Cursor) -> Result<DialogueRecord, ReadFault>
    ensures { GivesUnlessFull result from.new (scan_dialogue from.old) }
{
    let left = from.left();
    match from.code()? {
        1 => Ok(DialogueRecord::EndDialogue),
        2 => Ok(DialogueRecord::UserData {
            octets: from.octets(alloc, 1024)?,
        }),
        3 => Ok(DialogueRecord::UError),
        4 => Ok(DialogueRecord::UAbort),
        5 => Ok(DialogueRecord::Grant),
        6 => Ok(DialogueRecord::AskControl),
        7 => Ok(DialogueRecord::Handshake),
        8 => Ok(DialogueRecord::HandshakeGrant),
        9 => Ok(DialogueRecord::Response),
        10 => Ok(DialogueRecord::DeferEnd),
        11 => Ok(DialogueRecord::DeferGrant),
        12 => begin(from),
        13 => Ok(DialogueRecord::Prepare),
        14 => Ok(DialogueRecord::Ready),
        15 => Ok(DialogueRecord::Commit),
        16 => Ok(DialogueRecord::Done {
            report: from.report()?,
        }),
        17 => Ok(DialogueRecord::Rollback),
        18 => Ok(DialogueRecord::RolledBack {
            report: from.report()?,
        }),
        19 => Ok(DialogueRecord::Left),
        20 => Ok(DialogueRecord::LeftEnd),
        _ => Err(ReadFault::Bad(BadBytes { left })),
    }
}

fn begin(from: &mut Cursor) -> Result<DialogueRecord, ReadFault>
    ensures { GivesUnlessFull result from.new ((scan_make (λ a b h. DialogueRecord.Begin a b h) with scan_aaid with scan_branch with scan_holder) from.old) }
{
    let aaid = from.aaid()?;
    let branch = from.branch()?;
    let holder = read_holder(from)?;
    Ok(DialogueRecord::Begin {
        aaid,
        branch,
        holder,
    })
}

#[tactic(auto, unfolding(crate::specs::BodyScanning::scan_holder))]
pub(crate) fn read_holder(from: &mut Cursor) -> Result<Holder, BadBytes>
    ensures { Gives result from.new (scan_holder from.old) }
{
    let left = from.left();
    match from.code()? {
        0 => Ok(Holder::None),
        1 => Ok(Holder::Superior),
        2 => Ok(Holder::Subordinate),
        _ => Err(BadBytes { left }),
    }
}

/// Writes a record of a dialogue.
pub(crate) fn write_dialogue(
    alloc: Global,
    rec: &DialogueRecord,
    out: &mut Octets,
) -> Result<(), NoMemory>
    requires { IsShortDialogue rec.now }
    ensures ok { OnOk result (out.new ≡ out.old ++ dialogue_bytes rec.now) }
    ensures err { OnErr result (Keeps out.old out.new) }
{
    match rec {
        DialogueRecord::EndDialogue => out.push(alloc, 1),
        DialogueRecord::UserData { octets } => {
            out.push(alloc, 2)?;
            write_octets(alloc, octets, out)
        }
        DialogueRecord::UError => out.push(alloc, 3),
        DialogueRecord::UAbort => out.push(alloc, 4),
        DialogueRecord::Grant => out.push(alloc, 5),
        DialogueRecord::AskControl => out.push(alloc, 6),
        DialogueRecord::Handshake => out.push(alloc, 7),
        DialogueRecord::HandshakeGrant => out.push(alloc, 8),
        DialogueRecord::Response => out.push(alloc, 9),
        DialogueRecord::DeferEnd => out.push(alloc, 10),
        DialogueRecord::DeferGrant => out.push(alloc, 11),
        DialogueRecord::Begin {
            aaid,
            branch,
            holder,
        } => write_begin(alloc, aaid, branch, *holder, out),
        DialogueRecord::Prepare => out.push(alloc, 13),
        DialogueRecord::Ready => out.push(alloc, 14),
        DialogueRecord::Commit => out.push(alloc, 15),
        DialogueRecord::Done { report } => {
            out.push(alloc, 16)?;
            write_report(alloc, *report, out)
        }
        DialogueRecord::Rollback => out.push(alloc, 17),
        DialogueRecord::RolledBack { report } => {
            out.push(alloc, 18)?;
            write_report(alloc, *report, out)
        }
        DialogueRecord::Left => out.push(alloc, 19),
        DialogueRecord::LeftEnd => out.push(alloc, 20),
    }
}

fn write_begin(
    alloc: Global,
    aaid: &Aaid,
    branch: &BranchId,
    holder: Holder,
    out: &mut Octets,
) -> Result<(), NoMemory>
    ensures ok { OnOk result (out.new ≡ out.old ++ (12 ∷ aaid_bytes aaid.now ++ branch_bytes branch.now ++ holder_bytes holder)) }
    ensures err { OnErr result (Keeps out.old out.new) }
{
    out.push(alloc, 12)?;
    write_aaid(alloc, aaid, out)?;
    write_branch(alloc, branch, out)?;
    write_holder(alloc, holder, out)
}

fn write_holder(alloc: Global, holder: Holder, out: &mut Octets) -> Result<(), NoMemory>
    ensures ok { OnOk result (out.new ≡ out.old ++ holder_bytes holder) }
    ensures err { OnErr result (Keeps out.old out.new) }
{
    let code = match holder {
        Holder::None => 0,
        Holder::Superior => 1,
        Holder::Subordinate => 2,
    };
    out.push(alloc, code)?;
    Ok(())
}
