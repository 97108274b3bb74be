//! Which records of a log have a text.
ghost use Rattle.std.specs.Prelude.{◌≡◌, ◌++◌, ◌↔◌, IsTrue};
ghost use Rattle.tp_names.specs.Bytes.{branch_bytes, maybe_bytes, key_bytes, outcome_bytes, report_bytes};
ghost use Rattle.tp_names.specs.Grammar.{HasText};
ghost use Rattle.tp_logrec.specs.RecordText.{superior_bytes, key_and_superior_bytes, children_bytes};
ghost use Rattle.tp_logrec.specs.RecordReading.{read_some_branch, read_branch_key, read_branch_and_superior, read_key_and_superior, read_judgement, read_children, record_grammar};
ghost use Rattle.tp_logrec.specs.declared.record.LogRec.{LogRec};
ghost use Rattle.tp_texts.specs.Texts.{Takes, IsGiven, HasRecordText, most_children};

use crate::parts::{aaid_reads, addr_reads, branch_reads, each_child_reads, key_reads};
use tp_logrec::{LogRec, LogVersion};
use tp_names::{Addr, BranchId, Children, NodeKey, Outcome, Report};

// Promise 2.19: A record of a log is known to have a text exactly where it has one
/// The record has a text in a log of that version: its key has a branch where it must, it names a
/// superior exactly where its key has a branch, it has no more children than fit, and a damage has
/// a report.
pub fn has_text(version: LogVersion, rec: &LogRec) -> bool
    ensures { IsTrue result ↔ HasText (record_grammar version) rec.now }
{
    record_has_text(version, rec)
}

/// The answer, kind by kind.
fn record_has_text(version: LogVersion, rec: &LogRec) -> bool
    ensures { IsTrue result ↔ HasRecordText version rec.now }
{
    match rec {
        LogRec::Boot { boot } => {
            boot_has_text(version, *boot);
            true
        }
        LogRec::Ready {
            node,
            key,
            superior,
            children,
        } => ready_has_text(version, *node, *key, *superior, children),
        LogRec::Heuristic { node, key, outcome } => {
            heuristic_has_text(version, *node, *key, *outcome)
        }
        LogRec::Commit {
            node,
            key,
            superior,
            children,
        } => commit_has_text(version, *node, *key, *superior, children),
        LogRec::Damage {
            node,
            key,
            superior,
            side,
            report,
            owed,
        } => damage_has_text(version, *node, *key, *superior, (*side, *report), owed),
        LogRec::End { node, key, outcome } => {
            end_has_text(version, *node, *key, *outcome);
            true
        }
    }
}

#[tactic(auto, using(crate::proofs::RecordTexts::boot_text))]
fn boot_has_text(version: LogVersion, boot: u64)
    ensures { HasRecordText version (LogRec.Boot boot) }
{}

fn ready_has_text(
    version: LogVersion,
    node: u16,
    key: NodeKey,
    superior: Addr,
    children: &Children,
) -> bool
    ensures { IsTrue result ↔ HasRecordText version (LogRec.Ready node key superior children.now) }
{
    addr_reads(superior);
    branch_key_reads(key) && children_read(version, children)
}

#[tactic(auto, using(crate::proofs::RecordTexts::heuristic_text, crate::proofs::RecordTexts::heuristic_key_given))]
fn heuristic_has_text(version: LogVersion, node: u16, key: NodeKey, outcome: Outcome) -> bool
    ensures { IsTrue result ↔ HasRecordText version (LogRec.Heuristic node key outcome) }
{
    branch_key_reads(key)
}

fn commit_has_text(
    version: LogVersion,
    node: u16,
    key: NodeKey,
    superior: Option<Addr>,
    children: &Children,
) -> bool
    ensures { IsTrue result ↔ HasRecordText version (LogRec.Commit node key superior children.now) }
{
    key_and_superior_read(key, superior) && children_read(version, children)
}

fn damage_has_text(
    version: LogVersion,
    node: u16,
    key: NodeKey,
    superior: Option<Addr>,
    judgement: (Outcome, Report),
    owed: &Children,
) -> bool
    ensures { IsTrue result ↔ HasRecordText version (LogRec.Damage node key superior judgement.0 judgement.1 owed.now) }
{
    key_and_superior_read(key, superior)
        && judgement_reads(judgement.0, judgement.1)
        && children_read(version, owed)
}

#[tactic(auto, using(crate::proofs::RecordTexts::end_text))]
fn end_has_text(version: LogVersion, node: u16, key: NodeKey, outcome: Outcome)
    ensures { HasRecordText version (LogRec.End node key outcome) }
{
    key_reads(key);
}

/// A key with a branch is read back from its bytes.
#[tactic(auto, using(crate::proofs::RecordParts::branch_key_taken, crate::proofs::RecordParts::branch_key_given))]
fn branch_key_reads(key: NodeKey) -> bool
    ensures reads { IsTrue result → Takes read_branch_key (key_bytes key) key }
    ensures only { IsGiven read_branch_key key → IsTrue result }
{
    aaid_reads(key.aaid);
    some_branch_reads(key.branch)
}

#[tactic(auto, using(crate::proofs::RecordParts::branch_there_taken, crate::proofs::RecordParts::no_branch_given))]
fn some_branch_reads(branch: Option<BranchId>) -> bool
    ensures reads { IsTrue result → Takes read_some_branch (maybe_bytes branch_bytes branch) branch }
    ensures only { IsGiven read_some_branch branch → IsTrue result }
{
    match branch {
        None => false,
        Some(branch) => {
            branch_reads(branch);
            true
        }
    }
}

/// A key is read back with the superior's address after it, where it has a branch exactly if there
/// is a superior.
#[tactic(auto, using(crate::proofs::RecordParts::key_and_superior_taken, crate::proofs::RecordParts::key_and_superior_given))]
fn key_and_superior_read(key: NodeKey, superior: Option<Addr>) -> bool
    ensures reads { IsTrue result → Takes read_key_and_superior (key_and_superior_bytes (key, superior)) (key, superior) }
    ensures only { IsGiven read_key_and_superior (key, superior) → IsTrue result }
{
    aaid_reads(key.aaid);
    branch_and_superior_read(key.branch, superior)
}

#[tactic(auto, using(crate::proofs::RecordParts::neither_taken, crate::proofs::RecordParts::pair_taken, crate::proofs::RecordParts::branch_alone_given, crate::proofs::RecordParts::superior_alone_given))]
fn branch_and_superior_read(branch: Option<BranchId>, superior: Option<Addr>) -> bool
    ensures reads { IsTrue result → Takes read_branch_and_superior (maybe_bytes branch_bytes branch ++ superior_bytes superior) (branch, superior) }
    ensures only { IsGiven read_branch_and_superior (branch, superior) → IsTrue result }
{
    match (branch, superior) {
        (None, None) => true,
        (Some(branch), Some(addr)) => {
            branch_reads(branch);
            addr_reads(addr);
            true
        }
        (None, Some(_)) | (Some(_), None) => false,
    }
}

/// A side and a report are read back where the report is one of damage.
#[tactic(auto, using(crate::proofs::RecordParts::hazard_taken, crate::proofs::RecordParts::mix_taken, crate::proofs::RecordParts::no_harm_given))]
fn judgement_reads(side: Outcome, report: Report) -> bool
    ensures reads { IsTrue result → Takes read_judgement (outcome_bytes side ++ report_bytes report) (side, report) }
    ensures only { IsGiven read_judgement (side, report) → IsTrue result }
{
    match report {
        Report::None => false,
        Report::Hazard | Report::Mix => true,
    }
}

/// As many children as fit are read back after their count.
#[tactic(auto, using(crate::proofs::RecordParts::children_taken, crate::proofs::RecordParts::children_length))]
fn children_read(version: LogVersion, children: &Children) -> bool
    ensures reads { IsTrue result → Takes (read_children version) (children_bytes version children.now) children.now }
    ensures only { IsGiven (read_children version) children.now → IsTrue result }
{
    if children.len() > most_children(version) {
        return false;
    }
    each_child_reads(children.as_slice());
    true
}

/// How many children fit.
fn most_children(version: LogVersion) -> usize
    ensures { result ≡ most_children version }
{
    match version {
        LogVersion::One => 32,
        LogVersion::Two => 256,
    }
}
