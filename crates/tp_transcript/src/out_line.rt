//! Writing a line of a transcript.
ghost use Rattle.std.specs.Prelude.{◌≡◌, ◌++◌, ◌∷◌, [], OnErr, OnOk, codes};
ghost use Rattle.tp_text_builder.specs.Written.{Adds};
ghost use Rattle.tp_model.specs.OutText.{out_text};
ghost use Rattle.tp_model.specs.Words.{words, decimal, aaid_word};

use crate::log_words::put_log;
use crate::sent_words::put_sent;
use crate::told_words::put_told;
use std::alloc::Global;
use tp_model::{OutLine, PhaseWord, SentWords};
use tp_names::{Aaid, NoMemory, Octets, SiteName};
use tp_text_builder::Text;

// Promise 2.21, part 2
/// Puts the line's text at the end of `out`, without an end. Without memory `out` stays as it was.
pub fn write_out(alloc: Global, o: &OutLine, out: &mut Octets) -> Result<(), NoMemory>
    ensures ok { OnOk result (out.new ≡ out.old ++ out_text o.now) }
    ensures err { OnErr result (out.new ≡ out.old) }
{
    let mut text = Text::after(alloc, out);
    put_out(o, &mut text);
    text.done(out)
}

// Promise 2.21, part 3
/// Puts the line's text at the end of a text, without an end.
pub fn put_out(o: &OutLine, text: &mut Text)
    ensures { Adds text.old (out_text o.now) text.new }
{
    match o {
        OutLine::Echo(line) => {
            text.word("> ");
            text.put(line.as_slice());
        }
        OutLine::Log { site, rec } => {
            put_named("log ", site, text);
            put_log(rec, text);
        }
        OutLine::Take { frame } => put_one("take", *frame, text),
        OutLine::Send {
            frame,
            from,
            to,
            rec,
        } => put_send(*frame, *from, *to, rec, text),
        OutLine::Tell { node, indication } => {
            put_one("tell", *node, text);
            text.space();
            put_told(indication, text);
        }
        OutLine::Refused { number } => put_one("refused", u16::from(*number), text),
        OutLine::Dropped { number } => put_one("dropped", u16::from(*number), text),
        OutLine::Nothing => text.word("nothing"),
        OutLine::Lost { frame } => put_one("lost", *frame, text),
        OutLine::Stopped { site, fate } => {
            put_named("stopped ", site, text);
            text.fate(*fate);
        }
        OutLine::State { node, phase, kept } => put_state(*node, *phase, *kept, text),
        OutLine::Image { site, bytes } => {
            put_named("image ", site, text);
            text.hex(bytes);
        }
        OutLine::Agreed { aaid, outcome } => {
            put_tree(aaid, " agreed ", text);
            text.outcome(*outcome);
        }
        OutLine::Mixed { aaid, by } => {
            put_tree(aaid, " mixed by ", text);
            text.numbers(by);
        }
        OutLine::Open { aaid } => put_tree(aaid, " open", text),
    }
}

/// Puts a word and a number.
#[inline(always)]
pub(crate) fn put_one(word: &str, n: u16, text: &mut Text)
    ensures { Adds text.old (words (word.now ∷ decimal n ∷ [])) text.new }
{
    text.word(word);
    text.next_short(n);
}

// A word with a space at its end, the name of a site and a space.
#[inline(always)]
fn put_named(word: &str, site: &SiteName, text: &mut Text)
    ensures { Adds text.old (word.now ++ site.now ++ 32 ∷ []) text.new }
{
    text.word(word);
    text.site(site);
    text.space();
}

// The identifier of a tree, and what is told of it.
fn put_tree(aaid: &Aaid, told: &str, text: &mut Text)
    ensures { Adds text.old (codes "tree " ++ aaid_word aaid.now ++ told.now) text.new }
{
    text.word("tree ");
    text.aaid(aaid);
    text.word(told);
}

fn put_send(frame: u16, from: u16, to: u16, rec: &SentWords, text: &mut Text)
    ensures { Adds text.old (out_text (OutLine.Send frame from to rec.now)) text.new }
{
    text.word("send");
    text.next_short(frame);
    text.next_short(from);
    text.next_short(to);
    text.space();
    put_sent(rec, text);
}

fn put_state(node: u16, phase: PhaseWord, kept: u64, text: &mut Text)
    ensures { Adds text.old (out_text (OutLine.State node phase kept)) text.new }
{
    text.word("state");
    text.next_short(node);
    text.space();
    text.phase(phase);
    text.word(" kept");
    text.next_number(kept);
}
