//! Writing a line of a schedule.
ghost use Rattle.std.specs.Prelude.{◌≡◌, ◌++◌, ◌∷◌, [], Some, OnErr, OnOk, codes};
ghost use Rattle.tp_text_builder.specs.Written.{Adds};
ghost use Rattle.tp_model.specs.Words.{words, decimal, hex};
ghost use Rattle.tp_model.specs.LineText.{request_words, action_words, under_words, line_words, line_text};

use std::alloc::Global;
use tp_model::{Action, Line, LineRequest};
use tp_names::{NoMemory, Octets, Outcome, SiteName};
use tp_text_builder::Text;

// Promise 2.21: A line of a schedule, a line of a transcript, the words of a log record, a key and
//   the identifier of a tree are written to the byte
/// Puts the line's text at the end of `out`, without an end. Without memory `out` stays as it was.
pub fn write_line(alloc: Global, l: &Line, out: &mut Octets) -> Result<(), NoMemory>
    ensures ok { OnOk result (out.new ≡ out.old ++ line_text l.now) }
    ensures err { OnErr result (out.new ≡ out.old) }
{
    let mut text = Text::after(alloc, out);
    put_line(l, &mut text);
    text.done(out)
}

/// Puts the line's text at the end of a text, without an end.
pub fn put_line(l: &Line, text: &mut Text)
    ensures { Adds text.old (line_text l.now) text.new }
{
    match l {
        Line::Node { node, site, under } => put_node(*node, site, *under, text),
        Line::Do { node, request } => put_do(*node, request, text),
        Line::Pass { from, to } => put_two("pass", *from, *to, text),
        Line::Skip { from, to } => put_two("skip", *from, *to, text),
        Line::Again { frame } => put_one("again", *frame, text),
        Line::Drain => text.word("drain"),
        Line::Lose { node, peer } => put_two("lose", *node, *peer, text),
        Line::Heur { node, outcome } => put_heur(*node, *outcome, text),
        Line::GiveUp { node, peer } => put_two("giveup", *node, *peer, text),
        Line::Retry { node } => put_one("retry", *node, text),
        Line::Purge { node } => put_one("purge", *node, text),
        Line::Crash { site } => put_site("crash", site, text),
        Line::CrashIn {
            site,
            at,
            fill,
            action,
        } => put_crash_in(site, *at, *fill, action, text),
        Line::Show { node } => put_one("show", *node, text),
        Line::Image { site } => put_site("image", site, text),
        Line::Auto { node, member } => put_two("auto", *node, *member, text),
        Line::Leave { member } => put_one("leave", *member, text),
    }
}

fn put_action(action: &Action, text: &mut Text)
    ensures { Adds text.old (words (action_words action.now)) text.new }
{
    match action {
        Action::Do { node, request } => put_do(*node, request, text),
        Action::Pass { from, to } => put_two("pass", *from, *to, text),
        Action::Again { frame } => put_one("again", *frame, text),
        Action::Lose { node, peer } => put_two("lose", *node, *peer, text),
        Action::Heur { node, outcome } => put_heur(*node, *outcome, text),
        Action::GiveUp { node, peer } => put_two("giveup", *node, *peer, text),
        Action::Retry { node } => put_one("retry", *node, text),
        Action::Purge { node } => put_one("purge", *node, text),
    }
}

fn put_request(r: &LineRequest, text: &mut Text)
    ensures { Adds text.old (words (request_words r.now)) text.new }
{
    match r {
        LineRequest::BeginDialogue { peer, units } => put_begin(*peer, *units, text),
        LineRequest::Accept { units } => put_accept(*units, text),
        LineRequest::Reject => text.word("reject"),
        LineRequest::EndDialogue { peer } => put_one("end-dialogue", *peer, text),
        LineRequest::UserData { peer, octets } => put_data(*peer, octets, text),
        LineRequest::UError { peer } => put_one("u-error", *peer, text),
        LineRequest::UAbort { peer } => put_one("u-abort", *peer, text),
        LineRequest::Grant { peer } => put_one("grant-control", *peer, text),
        LineRequest::AskControl { peer } => put_one("request-control", *peer, text),
        LineRequest::Handshake { peer } => put_one("handshake", *peer, text),
        LineRequest::Respond { peer } => put_one("respond", *peer, text),
        LineRequest::HandshakeGrant { peer } => put_one("handshake-and-grant", *peer, text),
        LineRequest::BeginTransaction { peer } => put_one("begin-transaction", *peer, text),
        LineRequest::DeferEnd { peer } => put_one("deferred-end", *peer, text),
        LineRequest::DeferGrant { peer } => put_one("deferred-grant", *peer, text),
        LineRequest::Prepare { peer } => put_one("prepare", *peer, text),
        LineRequest::Commit => text.word("commit"),
        LineRequest::Done => text.word("done"),
        LineRequest::Rollback => text.word("rollback"),
        LineRequest::Unchanged => text.word("unchanged"),
    }
}

// A word and a number.
#[inline(always)]
fn put_one(word: &str, n: u16, text: &mut Text)
    ensures { Adds text.old (words (word.now ∷ decimal n ∷ [])) text.new }
{
    text.word(word);
    text.next_short(n);
}

// A word and two numbers.
fn put_two(word: &str, m: u16, n: u16, text: &mut Text)
    ensures { Adds text.old (words (word.now ∷ decimal m ∷ decimal n ∷ [])) text.new }
{
    text.word(word);
    text.next_short(m);
    text.next_short(n);
}

fn put_site(word: &str, site: &SiteName, text: &mut Text)
    ensures { Adds text.old (words (word.now ∷ site.now ∷ [])) text.new }
{
    text.word(word);
    text.space();
    text.site(site);
}

fn put_begin(peer: u16, units: u8, text: &mut Text)
    ensures { Adds text.old (words (request_words (LineRequest.BeginDialogue peer units))) text.new }
{
    put_one("begin-dialogue", peer, text);
    text.space();
    text.units(units);
}

fn put_accept(units: u8, text: &mut Text)
    ensures { Adds text.old (words (request_words (LineRequest.Accept units))) text.new }
{
    text.word("accept ");
    text.units(units);
}

fn put_data(peer: u16, octets: &Octets, text: &mut Text)
    ensures { Adds text.old (words (request_words (LineRequest.UserData peer octets.now))) text.new }
{
    put_one("data", peer, text);
    text.space();
    text.octets(octets);
}

fn put_do(node: u16, request: &LineRequest, text: &mut Text)
    ensures { Adds text.old (words (action_words (Action.Do node request.now))) text.new }
{
    put_one("do", node, text);
    text.space();
    put_request(request, text);
}

fn put_heur(node: u16, outcome: Outcome, text: &mut Text)
    ensures { Adds text.old (words (action_words (Action.Heur node outcome))) text.new }
{
    put_one("heur", node, text);
    text.space();
    text.outcome(outcome);
}

fn put_node(node: u16, site: &SiteName, under: Option<u16>, text: &mut Text)
    ensures { Adds text.old (words (line_words (Line.Node node site.now under))) text.new }
{
    put_one("node", node, text);
    text.space();
    match under {
        None => text.site(site),
        Some(superior) => put_under(site, superior, text),
    }
}

fn put_under(site: &SiteName, superior: u16, text: &mut Text)
    ensures { Adds text.old (words (site.now ∷ under_words (Some superior))) text.new }
{
    text.site(site);
    text.word(" under");
    text.next_short(superior);
}

fn put_crash_in(site: &SiteName, at: u8, fill: u8, action: &Action, text: &mut Text)
    ensures { Adds text.old (words (line_words (Line.CrashIn site.now at fill action.now))) text.new }
{
    put_stop(site, at, fill, text);
    text.space();
    put_action(action, text);
}

// Where a crash falls, and what fills the bytes that it leaves.
fn put_stop(site: &SiteName, at: u8, fill: u8, text: &mut Text)
    ensures { Adds text.old (words (codes "crash" ∷ site.now ∷ codes "at" ∷ decimal at ∷ codes "fill" ∷ hex (fill ∷ []) ∷ codes "in" ∷ [])) text.new }
{
    text.word("crash ");
    text.site(site);
    text.word(" at");
    text.next_short(u16::from(at));
    text.word(" fill ");
    text.octet(fill);
    text.word(" in");
}
