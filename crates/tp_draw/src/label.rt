//! The words beside a shape.
ghost use Rattle.std.specs.Prelude.{◌≡◌, ◌++◌, ◌∷◌, [], OnOk, codes};
ghost use Rattle.tp_text_builder.specs.Written.{Adds};
ghost use Rattle.tp_model.specs.Words.{words};
ghost use Rattle.tp_model.specs.OutText.{dialogue_words, state_words, indication_words};
ghost use Rattle.tp_draw.specs.Reasons.{reason};
ghost use Rattle.tp_draw.specs.Labels.{label, log_label, sent_label, first_word};

use std::alloc::Global;
use tp_model::{LogWords, OutLine, SentWords};
use tp_names::{NoMemory, Octets};
use tp_records::{DialogueRecord, Indication, RecState};
use tp_text_builder::Text;

/// Puts the words beside the line's shape at the end of `out`.
pub(crate) fn write_label(alloc: Global, line: &OutLine, out: &mut Octets) -> Result<(), NoMemory>
    ensures { OnOk result (out.new ≡ out.old ++ label line.now) }
{
    let mut text = Text::after(alloc, out);
    put_label(line, &mut text);
    text.done(out)
}

fn put_label(line: &OutLine, text: &mut Text)
    ensures { Adds text.old (label line.now) text.new }
{
    match line {
        OutLine::Log { rec, .. } => put_log_label(rec, text),
        OutLine::Take { frame } => {
            text.number(u64::from(*frame));
            text.word(" again");
        }
        OutLine::Send { frame, rec, .. } => {
            text.number(u64::from(*frame));
            text.space();
            text.word(sent_words(rec));
        }
        OutLine::Tell { indication, .. } => text.word(told_word(indication)),
        OutLine::Refused { number } => {
            text.word("refused: ");
            text.word(reason(*number));
        }
        OutLine::Dropped { number } => {
            text.word("dropped: ");
            text.word(reason(*number));
        }
        OutLine::Lost { frame } => {
            text.number(u64::from(*frame));
            text.word(" lost");
        }
        OutLine::Stopped { fate, .. } => {
            text.word("crash: ");
            text.fate(*fate);
        }
        OutLine::State { phase, kept, .. } => {
            text.phase(*phase);
            text.word(" kept");
            text.next_number(*kept);
        }
        _ => {}
    }
}

// Why an event is refused, or a record dropped.
fn reason(number: u8) -> &'static str
    ensures { result.now ≡ reason number }
{
    match number {
        1 => "no dialogue",
        2 => "wrong phase",
        3 => "wrong control",
        4 => "unit absent",
        5 => "handshake open",
        6 => "no transaction",
        7 => "transaction open",
        8 => "not asked",
        9 => "already asked",
        10 => "not in ready",
        11 => "already decided",
        12 => "nothing owed",
        13 => "too many",
        14 => "not kept",
        15 => "still owed",
        16 => "no node",
        17 => "numbers spent",
        21 => "old association",
        22 => "out of order",
        23 => "wrong site",
        24 => "out of phase",
        _ => "bad record",
    }
}

fn put_log_label(rec: &LogWords, text: &mut Text)
    ensures { Adds text.old (log_label rec.now) text.new }
{
    match rec {
        LogWords::Boot { boot } => {
            text.word("boot");
            text.next_number(*boot);
        }
        LogWords::Ready { .. } => text.word("ready"),
        LogWords::Heuristic { outcome, .. } => {
            text.word("decides ");
            text.outcome(*outcome);
        }
        LogWords::Commit { .. } => text.word("commit"),
        LogWords::Damage { .. } => text.word("damage"),
        LogWords::End { .. } => text.word("end"),
    }
}

fn sent_words(rec: &SentWords) -> &'static str
    ensures { result.now ≡ sent_label rec.now }
{
    match rec {
        SentWords::OpenAssoc { .. } => "open",
        SentWords::AcceptAssoc { .. } => "accept",
        SentWords::ShutAssoc { .. } => "shut",
        SentWords::OnAssoc { rec, .. } => dialogue_word(rec),
        SentWords::RecReady { .. } => "rec-ready",
        SentWords::RecCommit { .. } => "rec-commit",
        SentWords::RecReply { state, .. } => reply_words(*state),
        SentWords::Forget { .. } => "forget",
    }
}

fn reply_words(state: RecState) -> &'static str
    ensures { result.now ≡ words (codes "rec-reply" ∷ first_word (state_words state) ∷ []) }
{
    match state {
        RecState::Commit => "rec-reply commit",
        RecState::Done(_) => "rec-reply done",
        RecState::Unknown => "rec-reply unknown",
        RecState::RetryLater => "rec-reply retry-later",
    }
}

fn dialogue_word(rec: &DialogueRecord) -> &'static str
    ensures { result.now ≡ first_word (dialogue_words rec.now) }
{
    match rec {
        DialogueRecord::EndDialogue => "end-dialogue",
        DialogueRecord::UserData { .. } => "user",
        DialogueRecord::UError => "u-error",
        DialogueRecord::UAbort => "u-abort",
        DialogueRecord::Grant => "grant",
        DialogueRecord::AskControl => "request-control",
        DialogueRecord::Handshake => "handshake",
        DialogueRecord::HandshakeGrant => "handshake-grant",
        DialogueRecord::Response => "response",
        DialogueRecord::DeferEnd => "deferred-end",
        DialogueRecord::DeferGrant => "deferred-grant",
        DialogueRecord::Begin { .. } => "begin",
        DialogueRecord::Prepare => "prepare",
        DialogueRecord::Ready => "ready",
        DialogueRecord::Commit => "commit",
        DialogueRecord::Done { .. } => "done",
        DialogueRecord::Rollback => "rollback",
        DialogueRecord::RolledBack { .. } => "rolled-back",
        DialogueRecord::Left => "left",
        DialogueRecord::LeftEnd => "left-end",
    }
}

fn told_word(indication: &Indication) -> &'static str
    ensures { result.now ≡ first_word (indication_words indication.now) }
{
    match indication {
        Indication::BeginDialogue { .. } => "begin-dialogue",
        Indication::BegunDialogue { .. } => "begun-dialogue",
        Indication::Rejected { .. } => "rejected",
        Indication::EndDialogue { .. } => "end-dialogue",
        Indication::UserData { .. } => "data",
        Indication::UError { .. } => "u-error",
        Indication::UAbort { .. } => "u-abort",
        Indication::PAbort { .. } => "p-abort",
        Indication::Grant { .. } => "grant-control",
        Indication::AskControl { .. } => "request-control",
        Indication::Handshake { .. } => "handshake",
        Indication::HandshakeConfirm { .. } => "handshake-confirm",
        Indication::HandshakeGrant { .. } => "handshake-and-grant",
        Indication::BeginTransaction { .. } => "begin-transaction",
        Indication::DeferEnd { .. } => "deferred-end",
        Indication::DeferGrant { .. } => "deferred-grant",
        Indication::Prepare => "prepare",
        Indication::Ready { .. } => "ready",
        Indication::Commit => "commit",
        Indication::CommitComplete { .. } => "commit-complete",
        Indication::Rollback => "rollback",
        Indication::RollbackComplete { .. } => "rollback-complete",
        Indication::HeuristicReport { .. } => "heuristic-report",
        Indication::Left { .. } => "left",
    }
}
