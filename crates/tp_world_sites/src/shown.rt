//! What lines show of records.
ghost use Rattle.std.specs.Prelude.{◌≡◌, ◌++◌, ◌∷◌, [], Some, IfOk, OnOk, OnErr};
ghost use Rattle.tp_model.specs.declared.out_line.OutLine.{OutLine};
ghost use Rattle.tp_model.specs.declared.out_line.SentWords.{SentWords};
ghost use Rattle.tp_model.specs.Happenings.{log_shown, sent_shown, refused_lines};
ghost use Rattle.tp_model.specs.Lines.{phase_shown, state_line};
ghost use Rattle.tp_model.specs.Refusal.{number_in};
ghost use Rattle.tp_model.specs.Trees.{placed};
ghost use Rattle.tp_site.specs.State.{state_of};
ghost use Rattle.tp_world_sites.specs.Placing.{boot_lines};
ghost use Rattle.tp_world_sites.specs.Shown.{forced_lines};

use std::alloc::Global;
use tp_logrec::LogRec;
use tp_model::{LogWords, NodeNumbers, OutLine, OutLines, Phase, PhaseWord, Refusal, SentWords};
use tp_names::{Addr, NoMemory, SiteName};
use tp_node_state::copies;
use tp_records::{DialogueRecord, Indication, PeerRecord};
use tp_site::NodeState;

/// What is shown of a record of a log is put there.
pub(crate) fn put_shown(rec: &LogRec, words: &mut Option<LogWords>)
    ensures { words.new ≡ Some (log_shown rec.now) }
{
    match rec {
        LogRec::Boot { boot } => *words = Some(LogWords::Boot { boot: *boot }),
        LogRec::Ready { node, key, .. } => {
            *words = Some(LogWords::Ready {
                node: *node,
                key: *key,
            });
        }
        LogRec::Heuristic { node, key, outcome } => {
            *words = Some(LogWords::Heuristic {
                node: *node,
                key: *key,
                outcome: *outcome,
            });
        }
        LogRec::Commit { node, key, .. } => {
            *words = Some(LogWords::Commit {
                node: *node,
                key: *key,
            });
        }
        LogRec::Damage {
            node,
            key,
            side,
            report,
            ..
        } => {
            *words = Some(LogWords::Damage {
                node: *node,
                key: *key,
                side: *side,
                report: *report,
            });
        }
        LogRec::End { node, key, outcome } => {
            *words = Some(LogWords::End {
                node: *node,
                key: *key,
                outcome: *outcome,
            });
        }
    }
}

// A record that is sent.
fn sent_shown(alloc: Global, rec: &PeerRecord) -> Result<SentWords, NoMemory>
    ensures { IfOk result (λ words. words ≡ sent_shown rec.now) }
{
    Ok(match rec {
        PeerRecord::OpenAssoc { x, units } => SentWords::OpenAssoc {
            x: *x,
            units: *units,
        },
        PeerRecord::AcceptAssoc { x, y, units } => SentWords::AcceptAssoc {
            x: *x,
            y: *y,
            units: *units,
        },
        PeerRecord::ShutAssoc { x, y } => SentWords::ShutAssoc { x: *x, y: *y },
        PeerRecord::OnAssoc { seq, rec, .. } => SentWords::OnAssoc {
            seq: *seq,
            rec: copies::dialogue(alloc, rec)?,
        },
        PeerRecord::RecReady { aaid, branch } => SentWords::RecReady {
            aaid: *aaid,
            branch: *branch,
        },
        PeerRecord::RecCommit { aaid, branch } => SentWords::RecCommit {
            aaid: *aaid,
            branch: *branch,
        },
        PeerRecord::RecReply {
            aaid,
            branch,
            state,
        } => SentWords::RecReply {
            aaid: *aaid,
            branch: *branch,
            state: *state,
        },
        PeerRecord::Forget { aaid, branch } => SentWords::Forget {
            aaid: *aaid,
            branch: *branch,
        },
    })
}

/// An indication of that node is shown. Without memory the lines stay what they were, as in the calls below.
pub fn show_told(
    alloc: Global,
    node: u16,
    indication: &Indication,
    lines: &mut OutLines,
) -> Result<(), NoMemory>
    ensures shown { OnOk result (lines.new ≡ lines.old ++ OutLine.Tell node indication.now ∷ []) }
    ensures same { OnErr result (lines.new ≡ lines.old) }
{
    lines.push(
        alloc,
        OutLine::Tell {
            node,
            indication: copies::indication(alloc, indication)?,
        },
    )
}

/// A record is shown that is sent from the one node to the other as that frame.
pub fn show_sent(
    alloc: Global,
    frame: u16,
    from: u16,
    to: u16,
    rec: &PeerRecord,
    lines: &mut OutLines,
) -> Result<(), NoMemory>
    ensures shown { OnOk result (lines.new ≡ lines.old ++ OutLine.Send frame from to (sent_shown rec.now) ∷ []) }
    ensures same { OnErr result (lines.new ≡ lines.old) }
{
    match rec {
        PeerRecord::OnAssoc { seq, rec, .. } => {
            show_said(alloc, frame, from, to, *seq, rec, lines)
        }
        _ => show_other(alloc, frame, from, to, rec, lines),
    }
}

// A record of a dialogue is shown.
fn show_said(
    alloc: Global,
    frame: u16,
    from: u16,
    to: u16,
    seq: u64,
    rec: &DialogueRecord,
    lines: &mut OutLines,
) -> Result<(), NoMemory>
    ensures shown { OnOk result (lines.new ≡ lines.old ++ OutLine.Send frame from to (SentWords.OnAssoc seq rec.now) ∷ []) }
    ensures same { OnErr result (lines.new ≡ lines.old) }
{
    lines.push(
        alloc,
        OutLine::Send {
            frame,
            from,
            to,
            rec: SentWords::OnAssoc {
                seq,
                rec: copies::dialogue(alloc, rec)?,
            },
        },
    )
}

// Any record is shown.
fn show_other(
    alloc: Global,
    frame: u16,
    from: u16,
    to: u16,
    rec: &PeerRecord,
    lines: &mut OutLines,
) -> Result<(), NoMemory>
    ensures shown { OnOk result (lines.new ≡ lines.old ++ OutLine.Send frame from to (sent_shown rec.now) ∷ []) }
    ensures same { OnErr result (lines.new ≡ lines.old) }
{
    lines.push(
        alloc,
        OutLine::Send {
            frame,
            from,
            to,
            rec: sent_shown(alloc, rec)?,
        },
    )
}

/// A refusal by that number is shown.
pub fn show_refused(alloc: Global, number: u8, lines: &mut OutLines) -> Result<(), NoMemory>
    ensures shown { OnOk result (lines.new ≡ lines.old ++ refused_lines (Some number)) }
    ensures same { OnErr result (lines.new ≡ lines.old) }
{
    lines.push(alloc, refused_shown(number))
}

// A refusal: 21 and 22 are dropped.
fn refused_shown(number: u8) -> OutLine
    ensures { refused_lines (Some number) ≡ result ∷ [] }
{
    if number == 21 || number == 22 {
        OutLine::Dropped { number }
    } else {
        OutLine::Refused { number }
    }
}

fn phase_shown(state: &NodeState) -> PhaseWord
    ensures { result ≡ phase_shown (state_of state.now) }
{
    match state.phase {
        Phase::Nil => PhaseWord::Nil,
        Phase::Active if state.asked => PhaseWord::Asked,
        Phase::Active => PhaseWord::Active,
        Phase::Ready => PhaseWord::Ready,
        Phase::Committing => PhaseWord::Committing,
        Phase::Rolling => PhaseWord::Rolling,
    }
}

/// What is shown of a node.
pub fn state_shown(node: u16, state: &NodeState) -> OutLine
    ensures { result ≡ state_line node (state_of state.now) }
{
    OutLine::State {
        node,
        phase: phase_shown(state),
        kept: state.kept,
    }
}

/// The numbers in ascending order, with one more.
#[tactic(auto, using(crate::proofs::Ascending::place_here, crate::proofs::Ascending::place_past, crate::proofs::Ascending::place_on))]
pub(crate) fn placed(
    alloc: Global,
    number: u16,
    numbers: &NodeNumbers,
) -> Result<NodeNumbers, NoMemory>
    ensures { IfOk result (λ all. all ≡ placed number numbers.now) }
{
    let mut all = NodeNumbers::new(alloc);
    let mut is_placed = false;
    for other in numbers.as_slice() {
        if !is_placed && number < *other {
            all.push(alloc, number)?;
            is_placed = true;
        }
        all.push(alloc, *other)?;
    }
    if !is_placed {
        all.push(alloc, number)?;
    }
    Ok(all)
}

/// The boot of a site that is new is shown.
pub fn show_boot(
    alloc: Global,
    site: SiteName,
    boot: Option<u64>,
    lines: &mut OutLines,
) -> Result<(), NoMemory>
    ensures shown { OnOk result (lines.new ≡ lines.old ++ boot_lines site boot) }
    ensures same { OnErr result (lines.new ≡ lines.old) }
{
    match boot {
        None => Ok(()),
        Some(boot) => {
            let rec = LogWords::Boot { boot };
            lines.push(alloc, OutLine::Log { site, rec })
        }
    }
}

/// A record that was forced is shown, where there is one.
#[inline(always)]
pub fn show_record(
    alloc: Global,
    at: &Addr,
    rec: &Option<LogWords>,
    lines: &mut OutLines,
) -> Result<(), NoMemory>
    ensures shown { OnOk result (lines.new ≡ lines.old ++ forced_lines at.now.site rec.now) }
    ensures same { OnErr result (lines.new ≡ lines.old) }
{
    match rec {
        None => Ok(()),
        Some(rec) => show_forced(alloc, at.site, rec, lines),
    }
}

// A record that was forced is shown.
#[inline(never)]
fn show_forced(
    alloc: Global,
    site: SiteName,
    rec: &LogWords,
    lines: &mut OutLines,
) -> Result<(), NoMemory>
    ensures shown { OnOk result (lines.new ≡ lines.old ++ OutLine.Log site rec.now ∷ []) }
    ensures same { OnErr result (lines.new ≡ lines.old) }
{
    lines.push(alloc, OutLine::Log { site, rec: *rec })
}

/// A refusal is shown.
pub fn show_refusal(
    alloc: Global,
    refusal: Option<Refusal>,
    lines: &mut OutLines,
) -> Result<(), NoMemory>
    ensures shown { OnOk result (lines.new ≡ lines.old ++ refused_lines (number_in refusal)) }
    ensures same { OnErr result (lines.new ≡ lines.old) }
{
    match refusal {
        None => Ok(()),
        Some(refusal) => show_refused(alloc, refusal.number(), lines),
    }
}
