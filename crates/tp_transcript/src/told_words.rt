//! Writing what users are told.
ghost use Rattle.tp_text_builder.specs.Written.{Adds};
ghost use Rattle.tp_model.specs.Words.{words};
ghost use Rattle.tp_model.specs.OutText.{indication_words};

use crate::out_line::put_one;
use crate::sent_words::put_reported;
use tp_records::Indication;
use tp_text_builder::Text;

/// The words of an indication.
pub(crate) fn put_told(indication: &Indication, text: &mut Text)
    ensures { Adds text.old (words (indication_words indication.now)) text.new }
{
    match indication {
        Indication::BeginDialogue { peer, units } => {
            put_one("begin-dialogue", *peer, text);
            text.space();
            text.units(units.bits());
        }
        Indication::BegunDialogue { peer, units } => {
            put_one("begun-dialogue", *peer, text);
            text.space();
            text.units(units.bits());
        }
        Indication::Rejected { peer } => put_one("rejected", *peer, text),
        Indication::EndDialogue { peer } => put_one("end-dialogue", *peer, text),
        Indication::UserData { peer, octets } => {
            put_one("data", *peer, text);
            text.space();
            text.octets(octets);
        }
        Indication::UError { peer } => put_one("u-error", *peer, text),
        Indication::UAbort { peer } => put_one("u-abort", *peer, text),
        Indication::PAbort { peer } => put_one("p-abort", *peer, text),
        Indication::Grant { peer } => put_one("grant-control", *peer, text),
        Indication::AskControl { peer } => put_one("request-control", *peer, text),
        Indication::Handshake { peer } => put_one("handshake", *peer, text),
        Indication::HandshakeConfirm { peer } => put_one("handshake-confirm", *peer, text),
        Indication::HandshakeGrant { peer } => put_one("handshake-and-grant", *peer, text),
        Indication::BeginTransaction { peer, aaid } => {
            put_one("begin-transaction", *peer, text);
            text.space();
            text.aaid(aaid);
        }
        Indication::DeferEnd { peer } => put_one("deferred-end", *peer, text),
        Indication::DeferGrant { peer } => put_one("deferred-grant", *peer, text),
        Indication::Prepare => text.word("prepare"),
        Indication::Ready { peer } => put_one("ready", *peer, text),
        Indication::Commit => text.word("commit"),
        Indication::CommitComplete { report } => put_reported("commit-complete ", *report, text),
        Indication::Rollback => text.word("rollback"),
        Indication::RollbackComplete { report } => {
            put_reported("rollback-complete ", *report, text)
        }
        Indication::HeuristicReport { peer, report } => {
            put_one("heuristic-report", *peer, text);
            text.space();
            text.report(*report);
        }
        Indication::Left { peer } => put_one("left", *peer, text),
    }
}
