//! Reading a line of a transcript.
ghost use Rattle.std.specs.Prelude.{◌≡◌};
ghost use Rattle.tp_model.specs.LineReading.{words_in, number, outcome, site, no_words, one_word, two_words};
ghost use Rattle.tp_schedule.specs.Answers.{read_as, Reads, pair, same};
ghost use Rattle.tp_transcript.specs.OutWords.{long, mark, aaid, branch, maybe, permitted, all_octets, report, holder, fate, small, three_words, made_key};
ghost use Rattle.tp_transcript.specs.OutReading.{trio, told_of_peer, log_reader, dialogue_reader, state_reader, sent_reader, told_reader, tree_reader, tree_words, out_reader, read_log, read_dialogue, read_state, read_sent, read_told, read_tree, read_image, read_state_line, read_send, candidate, candidate_in, by_numbers, echo_of, no_line, SaysOut, keyed, hex_word};
ghost use Rattle.tp_transcript.specs.declared.out_kinds.SentKind.{SentKind};
ghost use Rattle.tp_transcript.specs.declared.out_kinds.OutKind.{OutKind};

use crate::cutting::{only_three, three_words};
use crate::out_kinds::{
    DialogueKind, LogKind, OutKind, PeerTold, SentKind, StateKind, ToldKind, TreeKind,
    dialogue_kind, log_kind, out_kind, sent_kind, state_kind, told_kind, tree_kind,
};
use crate::out_line::write_out;
use crate::out_values::{
    read_aaid, read_all_octets, read_any_short, read_branch, read_fate, read_holder, read_key,
    read_long, read_mark, read_maybe_mark, read_numbers, read_permitted, read_phase, read_report,
    read_small,
};
use std::alloc::Global;
use tp_model::{LogWords, NodeNumbers, OutLine, SentWords};
use tp_names::{Aaid, BranchId, NodeKey, Octets, Outcome, Report};
use tp_records::{DialogueRecord, Holder, Indication, RecState};
use tp_schedule::LineFault;
use tp_schedule::cutting::{if_no_word, next_word, only_pair, only_word};
use tp_schedule::value::{
    both, is_word, one_number, read_hex, read_number, read_outcome, read_site,
};
use tp_units::Units;

// Promise 2.24: A line of a transcript is read exactly where the bytes are the text of one
/// The line of a transcript whose text these bytes are, without an end. `Word` comes exactly where they
/// are the text of none: in such a text one space parts two words, nodes and frames are numbered from
/// 1 to 65535 but for any u16 in a record of a log, and octets have their digits in full.
pub fn read_out(alloc: Global, bytes: &[u8]) -> Result<OutLine, LineFault>
    ensures { SaysOut bytes.now result }
{
    let line = match read_candidate(alloc, bytes) {
        Ok(line) => line,
        Err(fault) => return Err(no_line(fault)),
    };
    let mut text = Octets::new(alloc);
    write_out(alloc, &line, &mut text)?;
    if text.as_slice() == bytes {
        Ok(line)
    } else {
        Err(LineFault::Word)
    }
}

// Why no line has this text.
fn no_line(fault: LineFault) -> LineFault
    ensures { result ≡ no_line fault }
{
    match fault {
        LineFault::Long | LineFault::Word | LineFault::Number => LineFault::Word,
        LineFault::NoMemory => LineFault::NoMemory,
    }
}

// The one line that may have this text.
fn read_candidate(alloc: Global, bytes: &[u8]) -> Result<OutLine, LineFault>
    ensures { Reads (candidate bytes.now) result }
{
    match bytes {
        [b'>', b' ', text @ ..] => read_echo(alloc, text),
        _ => read_line_of_words(alloc, bytes),
    }
}

fn read_echo(alloc: Global, text: &[u8]) -> Result<OutLine, LineFault>
    ensures { Reads (echo_of text.now) result }
{
    let text = Octets::from_slice(alloc, text)?;
    Ok(OutLine::Echo(text))
}

fn read_line_of_words(alloc: Global, bytes: &[u8]) -> Result<OutLine, LineFault>
    ensures { Reads (candidate_in (words_in bytes.now)) result }
{
    let Some((word, rest)) = next_word(bytes) else {
        return Err(LineFault::Word);
    };
    match out_kind(word) {
        None => Err(LineFault::Word),
        Some(kind) => read_out_of(alloc, kind, rest),
    }
}

fn read_out_of(alloc: Global, kind: OutKind, rest: &[u8]) -> Result<OutLine, LineFault>
    ensures { Reads (out_reader kind (words_in rest.now)) result }
{
    match kind {
        OutKind::Log => read_logged(rest),
        OutKind::Take => Ok(OutLine::Take {
            frame: one_number(rest)?,
        }),
        OutKind::Send => read_sent_line(alloc, rest),
        OutKind::Tell => read_told_line(alloc, rest),
        OutKind::Refused => Ok(OutLine::Refused {
            number: one_small(rest)?,
        }),
        OutKind::Dropped => Ok(OutLine::Dropped {
            number: one_small(rest)?,
        }),
        OutKind::Nothing => if_no_word(rest, OutLine::Nothing),
        OutKind::Lost => Ok(OutLine::Lost {
            frame: one_number(rest)?,
        }),
        OutKind::Stopped => read_stopped(rest),
        OutKind::State => read_state_of(rest),
        OutKind::Image => read_image(alloc, rest),
        OutKind::Tree => read_tree(alloc, rest),
    }
}

fn one_small(rest: &[u8]) -> Result<u8, LineFault>
    ensures { result ≡ read_as (one_word same small (words_in rest.now)) }
{
    match only_word(rest) {
        None => Err(LineFault::Word),
        Some(word) => read_small(word),
    }
}

fn read_logged(rest: &[u8]) -> Result<OutLine, LineFault>
    ensures { result ≡ read_as (out_reader OutKind.Log (words_in rest.now)) }
{
    let Some((site, rest)) = next_word(rest) else {
        return Err(LineFault::Word);
    };
    let (site, rec) = both(read_site(site), read_log(rest))?;
    Ok(OutLine::Log { site, rec })
}

fn read_sent_line(alloc: Global, rest: &[u8]) -> Result<OutLine, LineFault>
    ensures { Reads (read_send (words_in rest.now)) result }
{
    let Some((frame, from, to, rest)) = three_words(rest) else {
        return Err(LineFault::Word);
    };
    let front = both(read_number(frame), read_number(from));
    let ends = both(front, read_number(to));
    let (((frame, from), to), rec) = both(ends, read_sent(alloc, rest))?;
    Ok(OutLine::Send {
        frame,
        from,
        to,
        rec,
    })
}

fn read_told_line(alloc: Global, rest: &[u8]) -> Result<OutLine, LineFault>
    ensures { Reads (out_reader OutKind.Tell (words_in rest.now)) result }
{
    let Some((node, rest)) = next_word(rest) else {
        return Err(LineFault::Word);
    };
    let (node, indication) = both(read_number(node), read_told(alloc, rest))?;
    Ok(OutLine::Tell { node, indication })
}

fn read_stopped(rest: &[u8]) -> Result<OutLine, LineFault>
    ensures { result ≡ read_as (two_words OutLine.Stopped site fate (words_in rest.now)) }
{
    let Some((site, fate)) = only_pair(rest) else {
        return Err(LineFault::Word);
    };
    let (site, fate) = both(read_site(site), read_fate(fate))?;
    Ok(OutLine::Stopped { site, fate })
}

fn read_state_of(rest: &[u8]) -> Result<OutLine, LineFault>
    ensures { result ≡ read_as (read_state_line (words_in rest.now)) }
{
    let Some((node, phase, word, rest)) = three_words(rest) else {
        return Err(LineFault::Word);
    };
    let Some(kept) = only_word(rest) else {
        return Err(LineFault::Word);
    };
    if !is_word(word, "kept") {
        return Err(LineFault::Word);
    }
    let shown = both(read_number(node), read_phase(phase));
    let ((node, phase), kept) = both(shown, read_long(kept))?;
    Ok(OutLine::State { node, phase, kept })
}

fn read_image(alloc: Global, rest: &[u8]) -> Result<OutLine, LineFault>
    ensures { Reads (read_image (words_in rest.now)) result }
{
    let Some((site, rest)) = next_word(rest) else {
        return Err(LineFault::Word);
    };
    let Some(_) = next_word(rest) else {
        let bytes = Octets::new(alloc);
        let site = read_site(site)?;
        return Ok(OutLine::Image { site, bytes });
    };
    let bytes = one_hex(alloc, rest);
    let (site, bytes) = both(read_site(site), bytes)?;
    Ok(OutLine::Image { site, bytes })
}

fn one_hex(alloc: Global, rest: &[u8]) -> Result<Octets, LineFault>
    ensures { Reads (one_word same hex_word (words_in rest.now)) result }
{
    match only_word(rest) {
        None => Err(LineFault::Word),
        Some(word) => read_hex(alloc, word),
    }
}

fn read_tree(alloc: Global, rest: &[u8]) -> Result<OutLine, LineFault>
    ensures { Reads (read_tree (words_in rest.now)) result }
{
    let Some((word, rest)) = next_word(rest) else {
        return Err(LineFault::Word);
    };
    match read_aaid(word) {
        Err(_) => Err(LineFault::Word),
        Ok(aaid) => read_tree_words(alloc, aaid, rest),
    }
}

fn read_tree_words(alloc: Global, aaid: Aaid, bytes: &[u8]) -> Result<OutLine, LineFault>
    ensures { Reads (tree_words aaid (words_in bytes.now)) result }
{
    let Some((word, rest)) = next_word(bytes) else {
        return Err(LineFault::Word);
    };
    match tree_kind(word) {
        None => Err(LineFault::Word),
        Some(kind) => read_tree_of(alloc, kind, aaid, rest),
    }
}

fn read_tree_of(
    alloc: Global,
    kind: TreeKind,
    aaid: Aaid,
    rest: &[u8],
) -> Result<OutLine, LineFault>
    ensures { Reads (tree_reader kind aaid (words_in rest.now)) result }
{
    match kind {
        TreeKind::Agreed => Ok(OutLine::Agreed {
            aaid,
            outcome: one_outcome(rest)?,
        }),
        TreeKind::Mixed => Ok(OutLine::Mixed {
            aaid,
            by: by_numbers(alloc, rest)?,
        }),
        TreeKind::Open => if_no_word(rest, OutLine::Open { aaid }),
    }
}

fn one_outcome(rest: &[u8]) -> Result<Outcome, LineFault>
    ensures { result ≡ read_as (one_word same outcome (words_in rest.now)) }
{
    match only_word(rest) {
        None => Err(LineFault::Word),
        Some(word) => read_outcome(word),
    }
}

fn by_numbers(alloc: Global, rest: &[u8]) -> Result<NodeNumbers, LineFault>
    ensures { Reads (by_numbers (words_in rest.now)) result }
{
    let Some((by, numbers)) = only_pair(rest) else {
        return Err(LineFault::Word);
    };
    if !is_word(by, "by") {
        return Err(LineFault::Word);
    }
    read_numbers(alloc, numbers)
}

// ---- what is told

fn read_told(alloc: Global, bytes: &[u8]) -> Result<Indication, LineFault>
    ensures { Reads (read_told (words_in bytes.now)) result }
{
    let Some((word, rest)) = next_word(bytes) else {
        return Err(LineFault::Word);
    };
    match told_kind(word) {
        None => Err(LineFault::Word),
        Some(kind) => read_told_of(alloc, kind, rest),
    }
}

fn read_told_of(alloc: Global, kind: ToldKind, rest: &[u8]) -> Result<Indication, LineFault>
    ensures { Reads (told_reader kind (words_in rest.now)) result }
{
    match kind {
        ToldKind::BeginDialogue => {
            let (peer, units) = number_and_units(rest)?;
            Ok(Indication::BeginDialogue { peer, units })
        }
        ToldKind::BegunDialogue => {
            let (peer, units) = number_and_units(rest)?;
            Ok(Indication::BegunDialogue { peer, units })
        }
        ToldKind::UserData => {
            let (peer, octets) = number_and_octets(alloc, rest)?;
            Ok(Indication::UserData { peer, octets })
        }
        ToldKind::BeginTransaction => {
            let (peer, aaid) = number_and_aaid(rest)?;
            Ok(Indication::BeginTransaction { peer, aaid })
        }
        ToldKind::Prepare => if_no_word(rest, Indication::Prepare),
        ToldKind::Commit => if_no_word(rest, Indication::Commit),
        ToldKind::CommitComplete => Ok(Indication::CommitComplete {
            report: one_report(rest)?,
        }),
        ToldKind::Rollback => if_no_word(rest, Indication::Rollback),
        ToldKind::RollbackComplete => Ok(Indication::RollbackComplete {
            report: one_report(rest)?,
        }),
        ToldKind::HeuristicReport => {
            let (peer, report) = number_and_report(rest)?;
            Ok(Indication::HeuristicReport { peer, report })
        }
        ToldKind::OfPeer(kind) => Ok(told_of_peer(kind, one_number(rest)?)),
    }
}

fn told_of_peer(kind: PeerTold, peer: u16) -> Indication
    ensures { result ≡ told_of_peer kind peer }
{
    match kind {
        PeerTold::Rejected => Indication::Rejected { peer },
        PeerTold::EndDialogue => Indication::EndDialogue { peer },
        PeerTold::UError => Indication::UError { peer },
        PeerTold::UAbort => Indication::UAbort { peer },
        PeerTold::PAbort => Indication::PAbort { peer },
        PeerTold::Grant => Indication::Grant { peer },
        PeerTold::AskControl => Indication::AskControl { peer },
        PeerTold::Handshake => Indication::Handshake { peer },
        PeerTold::HandshakeConfirm => Indication::HandshakeConfirm { peer },
        PeerTold::HandshakeGrant => Indication::HandshakeGrant { peer },
        PeerTold::DeferEnd => Indication::DeferEnd { peer },
        PeerTold::DeferGrant => Indication::DeferGrant { peer },
        PeerTold::Ready => Indication::Ready { peer },
        PeerTold::Left => Indication::Left { peer },
    }
}

fn number_and_units(rest: &[u8]) -> Result<(u16, Units), LineFault>
    ensures { result ≡ read_as (two_words pair number permitted (words_in rest.now)) }
{
    match only_pair(rest) {
        None => Err(LineFault::Word),
        Some((first, second)) => both(read_number(first), read_permitted(second)),
    }
}

fn number_and_octets(alloc: Global, rest: &[u8]) -> Result<(u16, Octets), LineFault>
    ensures { Reads (two_words pair number all_octets (words_in rest.now)) result }
{
    match only_pair(rest) {
        None => Err(LineFault::Word),
        Some((first, second)) => both(read_number(first), read_all_octets(alloc, second)),
    }
}

fn number_and_aaid(rest: &[u8]) -> Result<(u16, Aaid), LineFault>
    ensures { result ≡ read_as (two_words pair number aaid (words_in rest.now)) }
{
    match only_pair(rest) {
        None => Err(LineFault::Word),
        Some((first, second)) => both(read_number(first), read_aaid(second)),
    }
}

fn number_and_report(rest: &[u8]) -> Result<(u16, Report), LineFault>
    ensures { result ≡ read_as (two_words pair number report (words_in rest.now)) }
{
    match only_pair(rest) {
        None => Err(LineFault::Word),
        Some((first, second)) => both(read_number(first), read_report(second)),
    }
}

fn one_report(rest: &[u8]) -> Result<Report, LineFault>
    ensures { result ≡ read_as (one_word same report (words_in rest.now)) }
{
    match only_word(rest) {
        None => Err(LineFault::Word),
        Some(word) => read_report(word),
    }
}

// ---- what is sent

fn read_sent(alloc: Global, bytes: &[u8]) -> Result<SentWords, LineFault>
    ensures { Reads (read_sent (words_in bytes.now)) result }
{
    let Some((word, rest)) = next_word(bytes) else {
        return Err(LineFault::Word);
    };
    match sent_kind(word) {
        None => Err(LineFault::Word),
        Some(kind) => read_sent_of(alloc, kind, rest),
    }
}

fn read_sent_of(alloc: Global, kind: SentKind, rest: &[u8]) -> Result<SentWords, LineFault>
    ensures { Reads (sent_reader kind (words_in rest.now)) result }
{
    match kind {
        SentKind::OpenAssoc => read_open(rest),
        SentKind::AcceptAssoc => read_accept(rest),
        SentKind::ShutAssoc => read_shut(rest),
        SentKind::OnAssoc => read_on(alloc, rest),
        SentKind::RecReady => {
            let (aaid, branch) = kin(rest)?;
            Ok(SentWords::RecReady { aaid, branch })
        }
        SentKind::RecCommit => {
            let (aaid, branch) = kin(rest)?;
            Ok(SentWords::RecCommit { aaid, branch })
        }
        SentKind::RecReply => read_reply(rest),
        SentKind::Forget => {
            let (aaid, branch) = kin(rest)?;
            Ok(SentWords::Forget { aaid, branch })
        }
    }
}

fn read_open(rest: &[u8]) -> Result<SentWords, LineFault>
    ensures { result ≡ read_as (sent_reader SentKind.OpenAssoc (words_in rest.now)) }
{
    let Some((x, units)) = only_pair(rest) else {
        return Err(LineFault::Word);
    };
    let (x, units) = both(read_mark(x), read_permitted(units))?;
    Ok(SentWords::OpenAssoc { x, units })
}

fn read_accept(rest: &[u8]) -> Result<SentWords, LineFault>
    ensures { result ≡ read_as (sent_reader SentKind.AcceptAssoc (words_in rest.now)) }
{
    let Some((x, y, units)) = only_three(rest) else {
        return Err(LineFault::Word);
    };
    let marks = both(read_mark(x), read_mark(y));
    let ((x, y), units) = both(marks, read_permitted(units))?;
    Ok(SentWords::AcceptAssoc { x, y, units })
}

fn read_shut(rest: &[u8]) -> Result<SentWords, LineFault>
    ensures { result ≡ read_as (sent_reader SentKind.ShutAssoc (words_in rest.now)) }
{
    let Some((x, y)) = only_pair(rest) else {
        return Err(LineFault::Word);
    };
    let (x, y) = both(read_mark(x), read_maybe_mark(y))?;
    Ok(SentWords::ShutAssoc { x, y })
}

fn read_on(alloc: Global, rest: &[u8]) -> Result<SentWords, LineFault>
    ensures { Reads (sent_reader SentKind.OnAssoc (words_in rest.now)) result }
{
    let Some((seq, rest)) = next_word(rest) else {
        return Err(LineFault::Word);
    };
    let (seq, rec) = both(read_long(seq), read_dialogue(alloc, rest))?;
    Ok(SentWords::OnAssoc { seq, rec })
}

fn kin(rest: &[u8]) -> Result<(Aaid, BranchId), LineFault>
    ensures { result ≡ read_as (two_words pair aaid branch (words_in rest.now)) }
{
    match only_pair(rest) {
        None => Err(LineFault::Word),
        Some((first, second)) => both(read_aaid(first), read_branch(second)),
    }
}

fn read_reply(rest: &[u8]) -> Result<SentWords, LineFault>
    ensures { result ≡ read_as (sent_reader SentKind.RecReply (words_in rest.now)) }
{
    let Some((aaid, rest)) = next_word(rest) else {
        return Err(LineFault::Word);
    };
    let Some((branch, rest)) = next_word(rest) else {
        return Err(LineFault::Word);
    };
    let reply = both(read_branch(branch), read_state(rest));
    let (aaid, (branch, state)) = both(read_aaid(aaid), reply)?;
    Ok(SentWords::RecReply {
        aaid,
        branch,
        state,
    })
}

fn read_state(bytes: &[u8]) -> Result<RecState, LineFault>
    ensures { result ≡ read_as (read_state (words_in bytes.now)) }
{
    let Some((word, rest)) = next_word(bytes) else {
        return Err(LineFault::Word);
    };
    match state_kind(word) {
        None => Err(LineFault::Word),
        Some(kind) => read_state_kind(kind, rest),
    }
}

fn read_state_kind(kind: StateKind, rest: &[u8]) -> Result<RecState, LineFault>
    ensures { result ≡ read_as (state_reader kind (words_in rest.now)) }
{
    match kind {
        StateKind::Commit => if_no_word(rest, RecState::Commit),
        StateKind::Done => Ok(RecState::Done(one_report(rest)?)),
        StateKind::Unknown => if_no_word(rest, RecState::Unknown),
        StateKind::RetryLater => if_no_word(rest, RecState::RetryLater),
    }
}

fn read_dialogue(alloc: Global, bytes: &[u8]) -> Result<DialogueRecord, LineFault>
    ensures { Reads (read_dialogue (words_in bytes.now)) result }
{
    let Some((word, rest)) = next_word(bytes) else {
        return Err(LineFault::Word);
    };
    match dialogue_kind(word) {
        None => Err(LineFault::Word),
        Some(kind) => read_dialogue_of(alloc, kind, rest),
    }
}

fn read_dialogue_of(
    alloc: Global,
    kind: DialogueKind,
    rest: &[u8],
) -> Result<DialogueRecord, LineFault>
    ensures { Reads (dialogue_reader kind (words_in rest.now)) result }
{
    match kind {
        DialogueKind::EndDialogue => if_no_word(rest, DialogueRecord::EndDialogue),
        DialogueKind::UserData => Ok(DialogueRecord::UserData {
            octets: one_octets(alloc, rest)?,
        }),
        DialogueKind::UError => if_no_word(rest, DialogueRecord::UError),
        DialogueKind::UAbort => if_no_word(rest, DialogueRecord::UAbort),
        DialogueKind::Grant => if_no_word(rest, DialogueRecord::Grant),
        DialogueKind::AskControl => if_no_word(rest, DialogueRecord::AskControl),
        DialogueKind::Handshake => if_no_word(rest, DialogueRecord::Handshake),
        DialogueKind::HandshakeGrant => if_no_word(rest, DialogueRecord::HandshakeGrant),
        DialogueKind::Response => if_no_word(rest, DialogueRecord::Response),
        DialogueKind::DeferEnd => if_no_word(rest, DialogueRecord::DeferEnd),
        DialogueKind::DeferGrant => if_no_word(rest, DialogueRecord::DeferGrant),
        DialogueKind::Begin => {
            let ((aaid, branch), holder) = kin_and_holder(rest)?;
            Ok(DialogueRecord::Begin {
                aaid,
                branch,
                holder,
            })
        }
        DialogueKind::Prepare => if_no_word(rest, DialogueRecord::Prepare),
        DialogueKind::Ready => if_no_word(rest, DialogueRecord::Ready),
        DialogueKind::Commit => if_no_word(rest, DialogueRecord::Commit),
        DialogueKind::Done => Ok(DialogueRecord::Done {
            report: one_report(rest)?,
        }),
        DialogueKind::Rollback => if_no_word(rest, DialogueRecord::Rollback),
        DialogueKind::RolledBack => Ok(DialogueRecord::RolledBack {
            report: one_report(rest)?,
        }),
        DialogueKind::Left => if_no_word(rest, DialogueRecord::Left),
        DialogueKind::LeftEnd => if_no_word(rest, DialogueRecord::LeftEnd),
    }
}

fn one_octets(alloc: Global, rest: &[u8]) -> Result<Octets, LineFault>
    ensures { Reads (one_word same all_octets (words_in rest.now)) result }
{
    match only_word(rest) {
        None => Err(LineFault::Word),
        Some(word) => read_all_octets(alloc, word),
    }
}

fn kin_and_holder(rest: &[u8]) -> Result<((Aaid, BranchId), Holder), LineFault>
    ensures { result ≡ read_as (three_words trio aaid branch holder (words_in rest.now)) }
{
    match only_three(rest) {
        None => Err(LineFault::Word),
        Some((aaid, branch, holder)) => {
            let kin = both(read_aaid(aaid), read_branch(branch));
            both(kin, read_holder(holder))
        }
    }
}

// ---- records of a log

// A node's number, and the identifiers of its key.
type Named = (u16, (Aaid, Option<BranchId>));

fn made_key(key: (Aaid, Option<BranchId>)) -> NodeKey
    ensures { result ≡ made_key key }
{
    let (aaid, branch) = key;
    NodeKey { aaid, branch }
}

fn read_log(bytes: &[u8]) -> Result<LogWords, LineFault>
    ensures { result ≡ read_as (read_log (words_in bytes.now)) }
{
    let Some((word, rest)) = next_word(bytes) else {
        return Err(LineFault::Word);
    };
    match log_kind(word) {
        None => Err(LineFault::Word),
        Some(kind) => read_log_kind(kind, rest),
    }
}

fn read_log_kind(kind: LogKind, rest: &[u8]) -> Result<LogWords, LineFault>
    ensures { result ≡ read_as (log_reader kind (words_in rest.now)) }
{
    match kind {
        LogKind::Boot => one_long(rest).map(|boot| LogWords::Boot { boot }),
        LogKind::Ready => keyed(rest).map(|((node, key), ())| LogWords::Ready {
            node,
            key: made_key(key),
        }),
        LogKind::Heuristic => {
            keyed_outcome(rest).map(|((node, key), outcome)| LogWords::Heuristic {
                node,
                key: made_key(key),
                outcome,
            })
        }
        LogKind::Commit => keyed(rest).map(|((node, key), ())| LogWords::Commit {
            node,
            key: made_key(key),
        }),
        LogKind::Damage => {
            keyed_damage(rest).map(|((node, key), (side, report))| LogWords::Damage {
                node,
                key: made_key(key),
                side,
                report,
            })
        }
        LogKind::End => keyed_outcome(rest).map(|((node, key), outcome)| LogWords::End {
            node,
            key: made_key(key),
            outcome,
        }),
    }
}

fn one_long(rest: &[u8]) -> Result<u64, LineFault>
    ensures { result ≡ read_as (one_word same long (words_in rest.now)) }
{
    match only_word(rest) {
        None => Err(LineFault::Word),
        Some(word) => read_long(word),
    }
}

// A node and its key.
fn keyed(rest: &[u8]) -> Result<(Named, ()), LineFault>
    ensures { result ≡ read_as (keyed (no_words tt) (words_in rest.now)) }
{
    match three_words(rest) {
        None => Err(LineFault::Word),
        Some((node, aaid, branch, rest)) => {
            let named = both(read_any_short(node), read_key(aaid, branch));
            both(named, if_no_word(rest, ()))
        }
    }
}

// The same with an outcome after it.
fn keyed_outcome(rest: &[u8]) -> Result<(Named, Outcome), LineFault>
    ensures { result ≡ read_as (keyed (one_word same outcome) (words_in rest.now)) }
{
    match three_words(rest) {
        None => Err(LineFault::Word),
        Some((node, aaid, branch, rest)) => {
            let named = both(read_any_short(node), read_key(aaid, branch));
            both(named, one_outcome(rest))
        }
    }
}

// The same with a side and a report after it.
fn keyed_damage(rest: &[u8]) -> Result<(Named, (Outcome, Report)), LineFault>
    ensures { result ≡ read_as (keyed (two_words pair outcome report) (words_in rest.now)) }
{
    match three_words(rest) {
        None => Err(LineFault::Word),
        Some((node, aaid, branch, rest)) => {
            let named = both(read_any_short(node), read_key(aaid, branch));
            both(named, side_and_report(rest))
        }
    }
}

fn side_and_report(rest: &[u8]) -> Result<(Outcome, Report), LineFault>
    ensures { result ≡ read_as (two_words pair outcome report (words_in rest.now)) }
{
    match only_pair(rest) {
        None => Err(LineFault::Word),
        Some((side, report)) => both(read_outcome(side), read_report(report)),
    }
}
