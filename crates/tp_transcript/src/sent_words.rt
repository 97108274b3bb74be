//! Writing the records that peers send.
ghost use Rattle.std.specs.Prelude.{◌++◌, ◌∷◌, []};
ghost use Rattle.tp_text_builder.specs.Written.{Adds};
ghost use Rattle.tp_model.specs.Words.{words, aaid_word, branch_word, report_word};
ghost use Rattle.tp_model.specs.OutText.{dialogue_words, state_words, sent_words};

use tp_model::SentWords;
use tp_names::{Aaid, BranchId, Report};
use tp_records::{DialogueRecord, RecState};
use tp_text_builder::Text;

/// The words of a record that is sent.
pub(crate) fn put_sent(rec: &SentWords, text: &mut Text)
    ensures { Adds text.old (words (sent_words rec.now)) text.new }
{
    match rec {
        SentWords::OpenAssoc { x, units } => {
            text.word("open ");
            text.mark(x);
            text.space();
            text.units(units.bits());
        }
        SentWords::AcceptAssoc { x, y, units } => {
            text.word("accept ");
            text.mark(x);
            text.space();
            text.mark(y);
            text.space();
            text.units(units.bits());
        }
        SentWords::ShutAssoc { x, y } => {
            text.word("shut ");
            text.mark(x);
            text.space();
            text.maybe_mark(y);
        }
        SentWords::OnAssoc { seq, rec } => {
            text.word("data");
            text.next_number(*seq);
            text.space();
            put_dialogue(rec, text);
        }
        SentWords::RecReady { aaid, branch } => put_kin("rec-ready ", aaid, branch, text),
        SentWords::RecCommit { aaid, branch } => put_kin("rec-commit ", aaid, branch, text),
        SentWords::RecReply {
            aaid,
            branch,
            state,
        } => {
            put_kin("rec-reply ", aaid, branch, text);
            text.space();
            put_state(*state, text);
        }
        SentWords::Forget { aaid, branch } => put_kin("forget ", aaid, branch, text),
    }
}

// A word with a space at its end, and the identifiers of a tree and of a branch.
#[inline(always)]
fn put_kin(word: &str, aaid: &Aaid, branch: &BranchId, text: &mut Text)
    ensures { Adds text.old (word.now ++ words (aaid_word aaid.now ∷ branch_word branch.now ∷ [])) text.new }
{
    text.word(word);
    text.aaid(aaid);
    text.space();
    text.branch(branch);
}

fn put_state(state: RecState, text: &mut Text)
    ensures { Adds text.old (words (state_words state)) text.new }
{
    match state {
        RecState::Commit => text.word("commit"),
        RecState::Done(report) => put_reported("done ", report, text),
        RecState::Unknown => text.word("unknown"),
        RecState::RetryLater => text.word("retry-later"),
    }
}

/// Puts a word with a space at its end, and a report.
#[inline(always)]
pub(crate) fn put_reported(word: &str, report: Report, text: &mut Text)
    ensures { Adds text.old (word.now ++ report_word report) text.new }
{
    text.word(word);
    text.report(report);
}

fn put_dialogue(rec: &DialogueRecord, text: &mut Text)
    ensures { Adds text.old (words (dialogue_words rec.now)) text.new }
{
    match rec {
        DialogueRecord::EndDialogue => text.word("end-dialogue"),
        DialogueRecord::UserData { octets } => {
            text.word("user ");
            text.octets(octets);
        }
        DialogueRecord::UError => text.word("u-error"),
        DialogueRecord::UAbort => text.word("u-abort"),
        DialogueRecord::Grant => text.word("grant"),
        DialogueRecord::AskControl => text.word("request-control"),
        DialogueRecord::Handshake => text.word("handshake"),
        DialogueRecord::HandshakeGrant => text.word("handshake-grant"),
        DialogueRecord::Response => text.word("response"),
        DialogueRecord::DeferEnd => text.word("deferred-end"),
        DialogueRecord::DeferGrant => text.word("deferred-grant"),
        DialogueRecord::Begin {
            aaid,
            branch,
            holder,
        } => {
            put_kin("begin ", aaid, branch, text);
            text.space();
            text.holder(*holder);
        }
        DialogueRecord::Prepare => text.word("prepare"),
        DialogueRecord::Ready => text.word("ready"),
        DialogueRecord::Commit => text.word("commit"),
        DialogueRecord::Done { report } => put_reported("done ", *report, text),
        DialogueRecord::Rollback => text.word("rollback"),
        DialogueRecord::RolledBack { report } => put_reported("rolled-back ", *report, text),
        DialogueRecord::Left => text.word("left"),
        DialogueRecord::LeftEnd => text.word("left-end"),
    }
}
