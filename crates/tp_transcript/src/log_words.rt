//! Writing identifiers, keys and the records of a log.
ghost use Rattle.std.specs.Prelude.{◌≡◌, ◌++◌, ◌∷◌, OnErr, OnOk};
ghost use Rattle.tp_text_builder.specs.Written.{Adds};
ghost use Rattle.tp_model.specs.Words.{words, decimal, aaid_word, key_words};
ghost use Rattle.tp_model.specs.OutText.{log_words};
ghost use Rattle.tp_model.specs.Happenings.{log_shown};

use std::alloc::Global;
use tp_logrec::LogRec;
use tp_model::LogWords;
use tp_names::{Aaid, NoMemory, NodeKey, Octets};
use tp_text_builder::Text;

// Promise 2.21, part 6
/// Puts the identifier's word at the end of `out`. Without memory `out` stays as it was.
pub fn write_aaid(alloc: Global, a: &Aaid, out: &mut Octets) -> Result<(), NoMemory>
    ensures ok { OnOk result (out.new ≡ out.old ++ aaid_word a.now) }
    ensures err { OnErr result (out.new ≡ out.old) }
{
    let mut text = Text::after(alloc, out);
    text.aaid(a);
    text.done(out)
}

// Promise 2.21, part 5
/// Puts the two words of a node's key at the end of `out`. Without memory `out` stays as it was.
pub fn write_key(alloc: Global, k: &NodeKey, out: &mut Octets) -> Result<(), NoMemory>
    ensures ok { OnOk result (out.new ≡ out.old ++ words (key_words k.now)) }
    ensures err { OnErr result (out.new ≡ out.old) }
{
    let mut text = Text::after(alloc, out);
    put_key(k, &mut text);
    text.done(out)
}

// Promise 2.21, part 4
/// Puts the words of a log record at the end of `out`. Without memory `out` stays as it was.
pub fn write_rec(alloc: Global, v: &LogRec, out: &mut Octets) -> Result<(), NoMemory>
    ensures ok { OnOk result (out.new ≡ out.old ++ words (log_words (log_shown v.now))) }
    ensures err { OnErr result (out.new ≡ out.old) }
{
    let mut text = Text::after(alloc, out);
    put_rec(v, &mut text);
    text.done(out)
}

// Promise 2.21, part 7
/// Puts the words of a log record at the end of a text.
pub fn put_rec(v: &LogRec, text: &mut Text)
    ensures { Adds text.old (words (log_words (log_shown v.now))) text.new }
{
    put_log(&shown(v), text);
}

fn shown(v: &LogRec) -> LogWords
    ensures { result ≡ log_shown v.now }
{
    match v {
        LogRec::Boot { boot } => LogWords::Boot { boot: *boot },
        LogRec::Ready { node, key, .. } => LogWords::Ready {
            node: *node,
            key: *key,
        },
        LogRec::Heuristic { node, key, outcome } => LogWords::Heuristic {
            node: *node,
            key: *key,
            outcome: *outcome,
        },
        LogRec::Commit { node, key, .. } => LogWords::Commit {
            node: *node,
            key: *key,
        },
        LogRec::Damage {
            node,
            key,
            side,
            report,
            ..
        } => LogWords::Damage {
            node: *node,
            key: *key,
            side: *side,
            report: *report,
        },
        LogRec::End { node, key, outcome } => LogWords::End {
            node: *node,
            key: *key,
            outcome: *outcome,
        },
    }
}

/// Puts the words of a record as a line shows it.
pub(crate) fn put_log(rec: &LogWords, text: &mut Text)
    ensures { Adds text.old (words (log_words rec.now)) text.new }
{
    match rec {
        LogWords::Boot { boot } => {
            text.word("boot");
            text.next_number(*boot);
        }
        LogWords::Ready { node, key } => put_keyed("ready", *node, key, text),
        LogWords::Heuristic { node, key, outcome } => {
            put_keyed("heuristic", *node, key, text);
            text.space();
            text.outcome(*outcome);
        }
        LogWords::Commit { node, key } => put_keyed("commit", *node, key, text),
        LogWords::Damage {
            node,
            key,
            side,
            report,
        } => {
            put_keyed("damage", *node, key, text);
            text.space();
            text.outcome(*side);
            text.space();
            text.report(*report);
        }
        LogWords::End { node, key, outcome } => {
            put_keyed("end", *node, key, text);
            text.space();
            text.outcome(*outcome);
        }
    }
}

// Promise 2.21, part 8
/// Puts the two words of a node's key at the end of a text.
pub fn put_key(key: &NodeKey, text: &mut Text)
    ensures { Adds text.old (words (key_words key.now)) text.new }
{
    text.aaid(&key.aaid);
    text.space();
    text.maybe_branch(&key.branch);
}

// A word, a node and its key.
#[inline(always)]
fn put_keyed(word: &str, node: u16, key: &NodeKey, text: &mut Text)
    ensures { Adds text.old (words (word.now ∷ decimal node ∷ key_words key.now)) text.new }
{
    text.word(word);
    text.next_short(node);
    text.space();
    put_key(key, text);
}
