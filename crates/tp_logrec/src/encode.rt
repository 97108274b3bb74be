//! Writing a record at the end of octets.
ghost use Rattle.std.specs.Prelude.{◌≡◌, ◌++◌, ◌∷◌, OnOk, OnErr};
ghost use Rattle.tp_names.specs.Writing.{Keeps};
ghost use Rattle.tp_names.specs.Bytes.{long_bytes, addr_bytes, outcome_bytes, report_bytes, each_child_bytes};
ghost use Rattle.tp_names.specs.Grammar.{HasText};
ghost use Rattle.tp_logrec.specs.RecordText.{children_bytes, count_bytes, superior_bytes, head_bytes, record_bytes};
ghost use Rattle.tp_logrec.specs.RecordReading.{record_grammar};

use crate::{LogRec, LogVersion};
use std::alloc::Global;
use tp_names::{
    Addr, Child, Children, NoMemory, NodeKey, Octets, Outcome, Report, write_addr, write_byte,
    write_child, write_key, write_long, write_outcome, write_report, write_short,
};

// Promise 2.13, part 2
/// Puts the record's text in that version at the end of `out`, where it has one. Without memory
/// `out` stays as it was.
#[inline(always)]
pub fn encode_log(
    alloc: Global,
    ver: LogVersion,
    v: &LogRec,
    out: &mut Octets,
) -> Result<(), NoMemory>
    requires { HasText (record_grammar ver) v.now }
    ensures ok { OnOk result (out.new ≡ out.old ++ record_bytes ver v.now) }
    ensures err { OnErr result (out.new ≡ out.old) }
{
    let len = out.len();
    let written = write_record(alloc, ver, v, out);
    if written.is_err() {
        out.truncate(len);
    }
    written
}

pub(crate) fn write_record(
    alloc: Global,
    ver: LogVersion,
    v: &LogRec,
    out: &mut Octets,
) -> Result<(), NoMemory>
    ensures ok { OnOk result (out.new ≡ out.old ++ record_bytes ver v.now) }
    ensures err { OnErr result (Keeps out.old out.new) }
{
    match v {
        LogRec::Boot { boot } => write_boot(alloc, *boot, out),
        LogRec::Ready {
            node,
            key,
            superior,
            children,
        } => { write_ready(alloc, ver, *node, key, superior, children, out) }
        LogRec::Heuristic { node, key, outcome } => {
            write_short_record(alloc, 3, *node, key, *outcome, out)
        }
        LogRec::Commit {
            node,
            key,
            superior,
            children,
        } => { write_commit(alloc, ver, *node, key, superior, children, out) }
        LogRec::Damage {
            node,
            key,
            superior,
            side,
            report,
            owed,
        } => {
            write_damage(
                alloc,
                ver,
                *node,
                key,
                superior,
                (*side, *report),
                owed,
                out,
            )
        }
        LogRec::End { node, key, outcome } => write_short_record(
            alloc, 6, *node, key, *outcome, out,
        ),
    }
}

fn write_boot(alloc: Global, boot: u64, out: &mut Octets) -> Result<(), NoMemory>
    ensures ok { OnOk result (out.new ≡ out.old ++ (1 ∷ long_bytes boot)) }
    ensures err { OnErr result (Keeps out.old out.new) }
{
    out.push(alloc, 1)?;
    write_long(alloc, boot, out)
}

/// A code, a node, and a key.
#[inline(always)]
fn write_head(
    alloc: Global,
    code: u8,
    node: u16,
    key: &NodeKey,
    out: &mut Octets,
) -> Result<(), NoMemory>
    ensures ok { OnOk result (out.new ≡ out.old ++ head_bytes code node key.now) }
    ensures err { OnErr result (Keeps out.old out.new) }
{
    out.push(alloc, code)?;
    write_short(alloc, node, out)?;
    write_key(alloc, key, out)
}

/// A code, a node, a key, and the superior's address where there is one.
#[inline(always)]
fn write_long_head(
    alloc: Global,
    code: u8,
    node: u16,
    key: &NodeKey,
    superior: &Option<Addr>,
    out: &mut Octets,
) -> Result<(), NoMemory>
    ensures ok { OnOk result (out.new ≡ out.old ++ (head_bytes code node key.now ++ superior_bytes superior.now)) }
    ensures err { OnErr result (Keeps out.old out.new) }
{
    write_head(alloc, code, node, key, out)?;
    write_superior(alloc, superior, out)
}

fn write_judgement(
    alloc: Global,
    side: Outcome,
    report: Report,
    out: &mut Octets,
) -> Result<(), NoMemory>
    ensures ok { OnOk result (out.new ≡ out.old ++ (outcome_bytes side ++ report_bytes report)) }
    ensures err { OnErr result (Keeps out.old out.new) }
{
    write_outcome(alloc, side, out)?;
    write_report(alloc, report, out)
}

fn write_ready(
    alloc: Global,
    ver: LogVersion,
    node: u16,
    key: &NodeKey,
    superior: &Addr,
    children: &Children,
    out: &mut Octets,
) -> Result<(), NoMemory>
    ensures ok { OnOk result (out.new ≡ out.old ++ (head_bytes 2 node key.now ++ addr_bytes superior.now ++ children_bytes ver children.now)) }
    ensures err { OnErr result (Keeps out.old out.new) }
{
    write_head(alloc, 2, node, key, out)?;
    write_addr(alloc, superior, out)?;
    write_children(alloc, ver, children, out)
}

/// A heuristic decision, or an end: a code, a node, a key, and an outcome.
fn write_short_record(
    alloc: Global,
    code: u8,
    node: u16,
    key: &NodeKey,
    outcome: Outcome,
    out: &mut Octets,
) -> Result<(), NoMemory>
    ensures ok { OnOk result (out.new ≡ out.old ++ (head_bytes code node key.now ++ outcome_bytes outcome)) }
    ensures err { OnErr result (Keeps out.old out.new) }
{
    write_head(alloc, code, node, key, out)?;
    write_outcome(alloc, outcome, out)
}

fn write_commit(
    alloc: Global,
    ver: LogVersion,
    node: u16,
    key: &NodeKey,
    superior: &Option<Addr>,
    children: &Children,
    out: &mut Octets,
) -> Result<(), NoMemory>
    ensures ok { OnOk result (out.new ≡ out.old ++ ((head_bytes 4 node key.now ++ superior_bytes superior.now) ++ children_bytes ver children.now)) }
    ensures err { OnErr result (Keeps out.old out.new) }
{
    write_long_head(alloc, 4, node, key, superior, out)?;
    write_children(alloc, ver, children, out)
}

fn write_damage(
    alloc: Global,
    ver: LogVersion,
    node: u16,
    key: &NodeKey,
    superior: &Option<Addr>,
    judgement: (Outcome, Report),
    owed: &Children,
    out: &mut Octets,
) -> Result<(), NoMemory>
    ensures ok { OnOk result (out.new ≡ out.old
        ++ ((head_bytes 5 node key.now ++ superior_bytes superior.now) ++ (outcome_bytes judgement.0 ++ report_bytes judgement.1)
        ++ children_bytes ver owed.now)) }
    ensures err { OnErr result (Keeps out.old out.new) }
{
    write_long_head(alloc, 5, node, key, superior, out)?;
    write_judgement(alloc, judgement.0, judgement.1, out)?;
    write_children(alloc, ver, owed, out)
}

/// The superior's address, where there is one.
fn write_superior(alloc: Global, superior: &Option<Addr>, out: &mut Octets) -> Result<(), NoMemory>
    ensures ok { OnOk result (out.new ≡ out.old ++ superior_bytes superior.now) }
    ensures err { OnErr result (Keeps out.old out.new) }
{
    match superior {
        None => Ok(()),
        Some(addr) => write_addr(alloc, addr, out),
    }
}

/// The children after their count, of which the lowest byte or the two lowest are written.
#[inline(always)]
fn write_children(
    alloc: Global,
    ver: LogVersion,
    children: &Children,
    out: &mut Octets,
) -> Result<(), NoMemory>
    ensures ok { OnOk result (out.new ≡ out.old ++ children_bytes ver children.now) }
    ensures err { OnErr result (Keeps out.old out.new) }
{
    write_child_count(alloc, ver, children.len(), out)?;
    write_each_child(alloc, children.as_slice(), out)
}

fn write_child_count(
    alloc: Global,
    ver: LogVersion,
    count: usize,
    out: &mut Octets,
) -> Result<(), NoMemory>
    ensures ok { OnOk result (out.new ≡ out.old ++ count_bytes ver count) }
    ensures err { OnErr result (Keeps out.old out.new) }
{
    match ver {
        LogVersion::One => write_byte(alloc, (count % 256) as u8, out),
        LogVersion::Two => write_short(alloc, (count % 65536) as u16, out),
    }
}

fn write_each_child(alloc: Global, children: &[Child], out: &mut Octets) -> Result<(), NoMemory>
    ensures ok { OnOk result (out.new ≡ out.old ++ each_child_bytes children.now) }
    ensures err { OnErr result (Keeps out.old out.new) }
{
    for child in children {
        write_child(alloc, child, out)?;
    }
    Ok(())
}
