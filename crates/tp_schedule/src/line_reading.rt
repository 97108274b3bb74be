//! Reading a line of a schedule.
ghost use Rattle.std.specs.Prelude.{◌≡◌, ◌∷◌, length, IfSome};
ghost use Rattle.tp_model.specs.LineReading.{words_in, number, outcome, two_words, one_word, do_from, node_from, node_under, crash_from, crash_in, read_by, request_readers, action_readers, line_readers, is_comment, read_line};
ghost use Rattle.tp_schedule.specs.Answers.{read_as, Reads, filled, put_into, pair, same, answered};
ghost use Rattle.tp_schedule.specs.Keywords.{request_of_peer, request_reader, action_reader, line_reader};
ghost use Rattle.tp_schedule.specs.declared.schedule_words.LineWord.{LineWord};
ghost use Rattle.tp_schedule.specs.declared.schedule_words.RequestWord.{RequestWord};

use crate::LineFault;
use crate::cutting::{if_no_word, next_word, only_pair, only_word};
use crate::schedule_words::{
    ActionWord, LineWord, PeerRequest, RequestWord, action_word, line_word, request_word,
};
use crate::value::{
    both, digit_before, is_number_digit, is_word, one_number, read_call, read_fill, read_number,
    read_octets, read_outcome, read_site, read_units,
};
use std::alloc::Global;
use tp_model::{Action, Line, LineRequest};
use tp_names::Outcome;

/// The most bytes that a line may have, without its end.
const MAX_LINE: usize = 8192;

// Promise 2.22: A line of a schedule is read as the definitions read it: none at a blank line or a
//   comment, else the line, or the first fault that applies
/// The line whose text these bytes are, without an end: None for a line with no words and for a
/// comment. The first fault that applies is given: more than 8,192 bytes, for a comment too; a word
/// of a wrong form, wherever it stands; a numeral outside its range.
pub fn read_line(alloc: Global, bytes: &[u8]) -> Result<Option<Line>, LineFault>
    ensures { IfSome (answered result) (λ reading. reading ≡ read_line bytes.now) }
{
    let mut line = Line::Drain;
    match read_line_into(alloc, bytes, &mut line) {
        Ok(true) => Ok(Some(line)),
        Ok(false) => Ok(None),
        Err(fault) => Err(fault),
    }
}

// Promise 2.22, part 2
/// Reads as `read_line` does, and puts the line into `line`: true where there is one, false for a line with no words and
/// for a comment. Where it is not true, what stands in `line` is not said.
pub fn read_line_into(alloc: Global, bytes: &[u8], line: &mut Line) -> Result<bool, LineFault>
    ensures { IfSome (answered (put_into result line.new)) (λ reading. reading ≡ read_line bytes.now) }
{
    if bytes.len() > MAX_LINE {
        return Err(LineFault::Long);
    }
    if is_comment(bytes) {
        return Ok(false);
    }
    let Some((word, rest)) = next_word(bytes) else {
        return Ok(false);
    };
    read_words(alloc, word, rest, line)?;
    Ok(true)
}

fn is_comment(bytes: &[u8]) -> bool
    ensures { result ≡ is_comment bytes.now }
{
    matches!(bytes, [b'#', ..])
}

// Puts the line that begins with the word into `line`; where it does not read, what stands there is not said.
fn read_words(alloc: Global, word: &[u8], rest: &[u8], line: &mut Line) -> Result<(), LineFault>
    ensures { Reads (read_by line_readers (word.now ∷ words_in rest.now)) (filled result line.new) }
{
    match line_word(word) {
        None => Err(LineFault::Word),
        Some(kind) => read_line_of(alloc, kind, rest, line),
    }
}

fn read_line_of(
    alloc: Global,
    kind: LineWord,
    rest: &[u8],
    line: &mut Line,
) -> Result<(), LineFault>
    ensures { Reads (line_reader kind (words_in rest.now)) (filled result line.new) }
{
    match kind {
        LineWord::Node => read_node(rest, line),
        LineWord::Do => read_do_line(alloc, rest, line),
        LineWord::Pass => read_pass(rest, line),
        LineWord::Skip => read_skip(rest, line),
        LineWord::Again => read_again(rest, line),
        LineWord::Drain => read_drain(rest, line),
        LineWord::Lose => read_lose(rest, line),
        LineWord::Heur => read_heur(rest, line),
        LineWord::GiveUp => read_give_up(rest, line),
        LineWord::Retry => read_retry(rest, line),
        LineWord::Purge => read_purge(rest, line),
        LineWord::Crash => read_crash(alloc, rest, line),
        LineWord::Show => read_show(rest, line),
        LineWord::Image => read_image(rest, line),
        LineWord::Auto => read_auto(rest, line),
        LineWord::Leave => read_leave(rest, line),
    }
}

fn read_do_line(alloc: Global, rest: &[u8], line: &mut Line) -> Result<(), LineFault>
    ensures { Reads (line_reader LineWord.Do (words_in rest.now)) (filled result line.new) }
{
    let (node, request) = read_do(alloc, rest)?;
    *line = Line::Do { node, request };
    Ok(())
}

fn read_pass(rest: &[u8], line: &mut Line) -> Result<(), LineFault>
    ensures { Reads (line_reader LineWord.Pass (words_in rest.now)) (filled result line.new) }
{
    let (from, to) = two_numbers(rest)?;
    *line = Line::Pass { from, to };
    Ok(())
}

fn read_skip(rest: &[u8], line: &mut Line) -> Result<(), LineFault>
    ensures { Reads (line_reader LineWord.Skip (words_in rest.now)) (filled result line.new) }
{
    let (from, to) = two_numbers(rest)?;
    *line = Line::Skip { from, to };
    Ok(())
}

fn read_again(rest: &[u8], line: &mut Line) -> Result<(), LineFault>
    ensures { Reads (line_reader LineWord.Again (words_in rest.now)) (filled result line.new) }
{
    let frame = one_number(rest)?;
    *line = Line::Again { frame };
    Ok(())
}

fn read_drain(rest: &[u8], line: &mut Line) -> Result<(), LineFault>
    ensures { Reads (line_reader LineWord.Drain (words_in rest.now)) (filled result line.new) }
{
    if_no_word(rest, ())?;
    *line = Line::Drain;
    Ok(())
}

fn read_lose(rest: &[u8], line: &mut Line) -> Result<(), LineFault>
    ensures { Reads (line_reader LineWord.Lose (words_in rest.now)) (filled result line.new) }
{
    let (node, peer) = two_numbers(rest)?;
    *line = Line::Lose { node, peer };
    Ok(())
}

fn read_heur(rest: &[u8], line: &mut Line) -> Result<(), LineFault>
    ensures { Reads (line_reader LineWord.Heur (words_in rest.now)) (filled result line.new) }
{
    let (node, outcome) = number_and_outcome(rest)?;
    *line = Line::Heur { node, outcome };
    Ok(())
}

fn read_give_up(rest: &[u8], line: &mut Line) -> Result<(), LineFault>
    ensures { Reads (line_reader LineWord.GiveUp (words_in rest.now)) (filled result line.new) }
{
    let (node, peer) = two_numbers(rest)?;
    *line = Line::GiveUp { node, peer };
    Ok(())
}

fn read_retry(rest: &[u8], line: &mut Line) -> Result<(), LineFault>
    ensures { Reads (line_reader LineWord.Retry (words_in rest.now)) (filled result line.new) }
{
    let node = one_number(rest)?;
    *line = Line::Retry { node };
    Ok(())
}

fn read_purge(rest: &[u8], line: &mut Line) -> Result<(), LineFault>
    ensures { Reads (line_reader LineWord.Purge (words_in rest.now)) (filled result line.new) }
{
    let node = one_number(rest)?;
    *line = Line::Purge { node };
    Ok(())
}

fn read_show(rest: &[u8], line: &mut Line) -> Result<(), LineFault>
    ensures { Reads (line_reader LineWord.Show (words_in rest.now)) (filled result line.new) }
{
    let node = one_number(rest)?;
    *line = Line::Show { node };
    Ok(())
}

fn read_auto(rest: &[u8], line: &mut Line) -> Result<(), LineFault>
    ensures { Reads (line_reader LineWord.Auto (words_in rest.now)) (filled result line.new) }
{
    let (node, member) = two_numbers(rest)?;
    *line = Line::Auto { node, member };
    Ok(())
}

fn read_leave(rest: &[u8], line: &mut Line) -> Result<(), LineFault>
    ensures { Reads (line_reader LineWord.Leave (words_in rest.now)) (filled result line.new) }
{
    let member = one_number(rest)?;
    *line = Line::Leave { member };
    Ok(())
}

fn read_action(alloc: Global, bytes: &[u8]) -> Result<Action, LineFault>
    ensures { Reads (read_by action_readers (words_in bytes.now)) result }
{
    let Some((word, rest)) = next_word(bytes) else {
        return Err(LineFault::Word);
    };
    match action_word(word) {
        None => Err(LineFault::Word),
        Some(kind) => read_action_of(alloc, kind, rest),
    }
}

fn read_action_of(alloc: Global, kind: ActionWord, rest: &[u8]) -> Result<Action, LineFault>
    ensures { Reads (action_reader kind (words_in rest.now)) result }
{
    match kind {
        ActionWord::Do => {
            let (node, request) = read_do(alloc, rest)?;
            Ok(Action::Do { node, request })
        }
        ActionWord::Pass => {
            let (from, to) = two_numbers(rest)?;
            Ok(Action::Pass { from, to })
        }
        ActionWord::Again => Ok(Action::Again {
            frame: one_number(rest)?,
        }),
        ActionWord::Lose => {
            let (node, peer) = two_numbers(rest)?;
            Ok(Action::Lose { node, peer })
        }
        ActionWord::Heur => {
            let (node, outcome) = number_and_outcome(rest)?;
            Ok(Action::Heur { node, outcome })
        }
        ActionWord::GiveUp => {
            let (node, peer) = two_numbers(rest)?;
            Ok(Action::GiveUp { node, peer })
        }
        ActionWord::Retry => Ok(Action::Retry {
            node: one_number(rest)?,
        }),
        ActionWord::Purge => Ok(Action::Purge {
            node: one_number(rest)?,
        }),
    }
}

// A node, and a request of its user.
#[inline(always)]
fn read_do(alloc: Global, bytes: &[u8]) -> Result<(u16, LineRequest), LineFault>
    ensures { Reads (do_from pair (words_in bytes.now)) result }
{
    if let Some((node, rest)) = digit_before(bytes) {
        return both(Ok(node), read_request(alloc, rest));
    }
    let Some((node, rest)) = next_word(bytes) else {
        return Err(LineFault::Word);
    };
    let request = read_request(alloc, rest);
    both(read_number(node), request)
}

fn read_request(alloc: Global, bytes: &[u8]) -> Result<LineRequest, LineFault>
    ensures { Reads (read_by request_readers (words_in bytes.now)) result }
{
    let Some((word, rest)) = next_word(bytes) else {
        return Err(LineFault::Word);
    };
    match request_word(word) {
        None => Err(LineFault::Word),
        Some(kind) => read_request_of(alloc, kind, rest),
    }
}

fn read_request_of(alloc: Global, kind: RequestWord, rest: &[u8]) -> Result<LineRequest, LineFault>
    ensures { Reads (request_reader kind (words_in rest.now)) result }
{
    match kind {
        RequestWord::BeginDialogue => read_begin(rest),
        RequestWord::Accept => read_accept(rest),
        RequestWord::Reject => if_no_word(rest, LineRequest::Reject),
        RequestWord::UserData => read_data(alloc, rest),
        RequestWord::Commit => if_no_word(rest, LineRequest::Commit),
        RequestWord::Done => if_no_word(rest, LineRequest::Done),
        RequestWord::Rollback => if_no_word(rest, LineRequest::Rollback),
        RequestWord::Unchanged => if_no_word(rest, LineRequest::Unchanged),
        RequestWord::OfPeer(kind) => Ok(request_of_peer(kind, one_number(rest)?)),
    }
}

fn request_of_peer(kind: PeerRequest, peer: u16) -> LineRequest
    ensures { result ≡ request_of_peer kind peer }
{
    match kind {
        PeerRequest::EndDialogue => LineRequest::EndDialogue { peer },
        PeerRequest::UError => LineRequest::UError { peer },
        PeerRequest::UAbort => LineRequest::UAbort { peer },
        PeerRequest::Grant => LineRequest::Grant { peer },
        PeerRequest::AskControl => LineRequest::AskControl { peer },
        PeerRequest::Handshake => LineRequest::Handshake { peer },
        PeerRequest::Respond => LineRequest::Respond { peer },
        PeerRequest::HandshakeGrant => LineRequest::HandshakeGrant { peer },
        PeerRequest::BeginTransaction => LineRequest::BeginTransaction { peer },
        PeerRequest::DeferEnd => LineRequest::DeferEnd { peer },
        PeerRequest::DeferGrant => LineRequest::DeferGrant { peer },
        PeerRequest::Prepare => LineRequest::Prepare { peer },
    }
}

fn two_numbers(rest: &[u8]) -> Result<(u16, u16), LineFault>
    ensures { result ≡ read_as (two_words pair number number (words_in rest.now)) }
{
    if let Some((first, [b' ', second])) = digit_before(rest) {
        if is_number_digit(*second) {
            return Ok((first, u16::from(*second - b'0')));
        }
    }
    match only_pair(rest) {
        None => Err(LineFault::Word),
        Some((first, second)) => both(read_number(first), read_number(second)),
    }
}

fn number_and_outcome(rest: &[u8]) -> Result<(u16, Outcome), LineFault>
    ensures { result ≡ read_as (two_words pair number outcome (words_in rest.now)) }
{
    match only_pair(rest) {
        None => Err(LineFault::Word),
        Some((first, second)) => both(read_number(first), read_outcome(second)),
    }
}

fn read_begin(rest: &[u8]) -> Result<LineRequest, LineFault>
    ensures { Reads (request_reader RequestWord.BeginDialogue (words_in rest.now)) result }
{
    let Some((peer, units)) = only_pair(rest) else {
        return Err(LineFault::Word);
    };
    let (peer, units) = both(read_number(peer), read_units(units))?;
    Ok(LineRequest::BeginDialogue { peer, units })
}

fn read_accept(rest: &[u8]) -> Result<LineRequest, LineFault>
    ensures { Reads (request_reader RequestWord.Accept (words_in rest.now)) result }
{
    let Some(word) = only_word(rest) else {
        return Err(LineFault::Word);
    };
    let units = read_units(word)?;
    Ok(LineRequest::Accept { units })
}

fn read_data(alloc: Global, rest: &[u8]) -> Result<LineRequest, LineFault>
    ensures { Reads (request_reader RequestWord.UserData (words_in rest.now)) result }
{
    let Some((peer, octets)) = only_pair(rest) else {
        return Err(LineFault::Word);
    };
    let octets = read_octets(alloc, octets);
    let (peer, octets) = both(read_number(peer), octets)?;
    Ok(LineRequest::UserData { peer, octets })
}

fn read_image(rest: &[u8], line: &mut Line) -> Result<(), LineFault>
    ensures { Reads (line_reader LineWord.Image (words_in rest.now)) (filled result line.new) }
{
    let Some(word) = only_word(rest) else {
        return Err(LineFault::Word);
    };
    let site = read_site(word)?;
    *line = Line::Image { site };
    Ok(())
}

fn read_node(rest: &[u8], line: &mut Line) -> Result<(), LineFault>
    ensures { Reads (line_reader LineWord.Node (words_in rest.now)) (filled result line.new) }
{
    *line = node_in(rest)?;
    Ok(())
}

// The line that declares a node, of the words after the first.
fn node_in(bytes: &[u8]) -> Result<Line, LineFault>
    ensures { Reads (node_from (words_in bytes.now)) result }
{
    let Some((node, rest)) = next_word(bytes) else {
        return Err(LineFault::Word);
    };
    let Some((site, rest)) = next_word(rest) else {
        return Err(LineFault::Word);
    };
    let Some((under, rest)) = next_word(rest) else {
        let (node, site) = both(read_number(node), read_site(site))?;
        return Ok(Line::Node {
            node,
            site,
            under: None,
        });
    };
    let Some(superior) = only_word(rest) else {
        return Err(LineFault::Word);
    };
    if !is_word(under, "under") {
        return Err(LineFault::Word);
    }
    read_under(node, site, superior)
}

fn read_under(node: &[u8], site: &[u8], superior: &[u8]) -> Result<Line, LineFault>
    ensures { Reads (node_under node.now site.now superior.now) result }
{
    let named = both(read_number(node), read_site(site));
    let ((node, site), superior) = both(named, read_number(superior))?;
    Ok(Line::Node {
        node,
        site,
        under: Some(superior),
    })
}

fn read_crash(alloc: Global, rest: &[u8], line: &mut Line) -> Result<(), LineFault>
    ensures { Reads (line_reader LineWord.Crash (words_in rest.now)) (filled result line.new) }
{
    *line = crash_of(alloc, rest)?;
    Ok(())
}

// The line that stops a site, of the words after the first.
fn crash_of(alloc: Global, bytes: &[u8]) -> Result<Line, LineFault>
    ensures { Reads (crash_from (words_in bytes.now)) result }
{
    let Some((site, rest)) = next_word(bytes) else {
        return Err(LineFault::Word);
    };
    let Some((at, rest)) = next_word(rest) else {
        let site = read_site(site)?;
        return Ok(Line::Crash { site });
    };
    let Some((call, rest)) = next_word(rest) else {
        return Err(LineFault::Word);
    };
    let Some((fill, rest)) = next_word(rest) else {
        return Err(LineFault::Word);
    };
    let Some((octet, rest)) = next_word(rest) else {
        return Err(LineFault::Word);
    };
    let Some((within, rest)) = next_word(rest) else {
        return Err(LineFault::Word);
    };
    if !is_word(at, "at") || !is_word(fill, "fill") || !is_word(within, "in") {
        return Err(LineFault::Word);
    }
    read_crash_in(alloc, site, call, octet, rest)
}

// A stop at a site, in a changing call, with an octet for what was not written, and the line in
// which it comes.
fn read_crash_in(
    alloc: Global,
    site: &[u8],
    call: &[u8],
    octet: &[u8],
    rest: &[u8],
) -> Result<Line, LineFault>
    ensures { Reads (crash_in site.now call.now octet.now (words_in rest.now)) result }
{
    let place = both(read_site(site), read_call(call));
    let action = read_action(alloc, rest);
    let (((site, at), fill), action) = both(both(place, read_fill(octet)), action)?;
    Ok(Line::CrashIn {
        site,
        at,
        fill,
        action,
    })
}
