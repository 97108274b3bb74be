//! Records that are shaped as a text asks: each has one, since its type keeps its numbers and names within their bounds. A
//! function here answers nothing: it shows that.
ghost use Rattle.std.specs.Prelude.{◌≡◌, ◌≤◌, ◌++◌, true, false, length};
ghost use Rattle.tp_names.specs.Bytes.{branch_bytes, maybe_bytes, key_bytes, outcome_bytes, report_bytes};
ghost use Rattle.tp_names.specs.Grammar.{HasText};
ghost use Rattle.tp_names.specs.Reports.{is_report_none};
ghost use Rattle.tp_logrec.specs.RecordText.{superior_bytes, key_and_superior_bytes, children_bytes};
ghost use Rattle.tp_logrec.specs.RecordReading.{read_some_branch, read_branch_key, read_branch_and_superior, read_key_and_superior, read_judgement, read_children, record_grammar};
ghost use Rattle.tp_logrec.specs.declared.record.LogRec.{LogRec};
ghost use Rattle.tp_texts.specs.Texts.{Takes, HasRecordText, most_children};
ghost use Rattle.tp_texts.specs.Shapes.{is_there, has_branch, has_superior, IsShaped};

use crate::parts::{aaid_reads, addr_reads, branch_reads, each_child_reads, key_reads};
use tp_logrec::{LogRec, LogVersion};
use tp_names::{Addr, BranchId, Children, NodeKey, Outcome, Report};

// Promise 2.20: A record of a log that is shaped as a text asks has one, and so has a record
//   between nodes that carries no more of a user's octets than fit
/// A record that is shaped as a text in a log of that version asks has one.
#[inline(always)]
pub fn shaped_has_text(version: LogVersion, rec: &LogRec)
    requires { IsShaped version rec.now }
    ensures { HasText (record_grammar version) rec.now }
{
    shaped_kind_has_text(version, rec);
}

/// Kind by kind.
#[inline(always)]
fn shaped_kind_has_text(version: LogVersion, rec: &LogRec)
    requires { IsShaped version rec.now }
    ensures { HasRecordText version rec.now }
{
    match rec {
        LogRec::Boot { boot } => boot_has_text(version, *boot),
        LogRec::Ready {
            node,
            key,
            superior,
            children,
        } => ready_has_text(version, *node, *key, *superior, children),
        LogRec::Heuristic { node, key, outcome } => {
            heuristic_has_text(version, *node, *key, *outcome)
        }
        LogRec::Commit {
            node,
            key,
            superior,
            children,
        } => commit_has_text(version, *node, *key, *superior, children),
        LogRec::Damage {
            node,
            key,
            superior,
            side,
            report,
            owed,
        } => damage_has_text(version, *node, *key, *superior, (*side, *report), owed),
        LogRec::End { node, key, outcome } => end_has_text(version, *node, *key, *outcome),
    }
}

#[tactic(auto, using(crate::proofs::RecordTexts::boot_text))]
fn boot_has_text(version: LogVersion, boot: u64)
    ensures { HasRecordText version (LogRec.Boot boot) }
{}

#[tactic(auto, using(crate::proofs::RecordTexts::ready_text))]
fn ready_has_text(version: LogVersion, node: u16, key: NodeKey, superior: Addr, children: &Children)
    requires branch { has_branch key ≡ true }
    requires few { length children.now ≤ most_children version }
    ensures { HasRecordText version (LogRec.Ready node key superior children.now) }
{
    branch_key_reads(key);
    addr_reads(superior);
    children_read(version, children);
}

#[tactic(auto, using(crate::proofs::RecordTexts::heuristic_text))]
fn heuristic_has_text(version: LogVersion, node: u16, key: NodeKey, outcome: Outcome)
    requires { has_branch key ≡ true }
    ensures { HasRecordText version (LogRec.Heuristic node key outcome) }
{
    branch_key_reads(key);
}

#[tactic(auto, using(crate::proofs::RecordTexts::commit_text))]
fn commit_has_text(
    version: LogVersion,
    node: u16,
    key: NodeKey,
    superior: Option<Addr>,
    children: &Children,
)
    requires branch { has_superior superior ≡ has_branch key }
    requires few { length children.now ≤ most_children version }
    ensures { HasRecordText version (LogRec.Commit node key superior children.now) }
{
    key_and_superior_read(key, superior);
    children_read(version, children);
}

#[tactic(auto, using(crate::proofs::RecordTexts::damage_text))]
fn damage_has_text(
    version: LogVersion,
    node: u16,
    key: NodeKey,
    superior: Option<Addr>,
    judgement: (Outcome, Report),
    owed: &Children,
)
    requires branch { has_superior superior ≡ has_branch key }
    requires harm { is_report_none judgement.1 ≡ false }
    requires few { length owed.now ≤ most_children version }
    ensures { HasRecordText version (LogRec.Damage node key superior judgement.0 judgement.1 owed.now) }
{
    key_and_superior_read(key, superior);
    judgement_reads(judgement.0, judgement.1);
    children_read(version, owed);
}

#[tactic(auto, using(crate::proofs::RecordTexts::end_text))]
fn end_has_text(version: LogVersion, node: u16, key: NodeKey, outcome: Outcome)
    ensures { HasRecordText version (LogRec.End node key outcome) }
{
    key_reads(key);
}

/// A key with a branch is read back.
#[tactic(auto, using(crate::proofs::RecordParts::branch_key_taken))]
fn branch_key_reads(key: NodeKey)
    requires { has_branch key ≡ true }
    ensures { Takes read_branch_key (key_bytes key) key }
{
    aaid_reads(key.aaid);
    some_branch_reads(key.branch);
}

#[tactic(auto, using(crate::proofs::RecordParts::branch_there_taken))]
fn some_branch_reads(branch: Option<BranchId>)
    requires { is_there branch ≡ true }
    ensures { Takes read_some_branch (maybe_bytes branch_bytes branch) branch }
{
    if let Some(branch) = branch {
        branch_reads(branch);
    }
}

/// A key is read back with the superior's address after it, where it has a branch exactly if there is a superior.
#[tactic(auto, using(crate::proofs::RecordParts::key_and_superior_taken))]
fn key_and_superior_read(key: NodeKey, superior: Option<Addr>)
    requires { has_superior superior ≡ has_branch key }
    ensures { Takes read_key_and_superior (key_and_superior_bytes (key, superior)) (key, superior) }
{
    aaid_reads(key.aaid);
    branch_and_superior_read(key.branch, superior);
}

#[tactic(auto, using(crate::proofs::RecordParts::neither_taken, crate::proofs::RecordParts::pair_taken))]
fn branch_and_superior_read(branch: Option<BranchId>, superior: Option<Addr>)
    requires { has_superior superior ≡ is_there branch }
    ensures { Takes read_branch_and_superior (maybe_bytes branch_bytes branch ++ superior_bytes superior) (branch, superior) }
{
    if let (Some(branch), Some(addr)) = (branch, superior) {
        branch_reads(branch);
        addr_reads(addr);
    }
}

/// A side and a report of damage are read back.
#[tactic(auto, using(crate::proofs::RecordParts::hazard_taken, crate::proofs::RecordParts::mix_taken))]
fn judgement_reads(side: Outcome, report: Report)
    requires { is_report_none report ≡ false }
    ensures { Takes read_judgement (outcome_bytes side ++ report_bytes report) (side, report) }
{
    match report {
        Report::None | Report::Hazard | Report::Mix => {}
    }
}

/// As many children as fit are read back after their count.
#[tactic(auto, using(crate::proofs::RecordParts::children_taken))]
fn children_read(version: LogVersion, children: &Children)
    requires { length children.now ≤ most_children version }
    ensures { Takes (read_children version) (children_bytes version children.now) children.now }
{
    each_child_reads(children.as_slice());
}
