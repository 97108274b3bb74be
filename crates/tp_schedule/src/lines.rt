//! Lines out of a stream.
ghost use Rattle.std.specs.Prelude.{◌≡◌, ◌+◌, ◌<◌, ◌≤◌, ℕ, Err, true, length, take, IfOk, OnErr, MatchOption, slice_index};
ghost use Rattle.tp_outside.specs.Faults.{HasRisen};
ghost use Rattle.tp_model.specs.Transcript.{raw_lines, without_return};
ghost use Rattle.tp_schedule.specs.AtHand.{together, no_feed, EndsSo};
ghost use Rattle.tp_schedule.specs.LinesLeft.{first_of, fails, IsFor, IsAhead};
ghost use Rattle.tp_schedule.specs.LineCut.{Sought, IsCut};

use crate::LinesFault;
use crate::line_end::LineEnd;
use crate::window::Window;
use memchr::memchr;
use std::marker::Model;
use tp_outside::{Failed, Source};

/// The most bytes of a line, without its end.
const MAX_LINE: usize = 8192;

/// The most bytes of a schedule.
const MAX_SCHEDULE: usize = 1048576;

/// Reads a schedule line by line. Its only store for text is an array of 12,288 bytes. Contracts see
/// the bytes that were read and not handed out, how many were, and the fault that came.
#[derive(Drop)]
pub struct Lines {
    window: Window,
    used: usize,
    before: usize,
    fault: Option<LinesFault>,
}

impl Model for Lines {
    ghost use Rattle.std.specs.Prelude.{◌≤◌, length, drop};
    ghost use Rattle.tp_schedule.specs.LinesLeft.{Place};

    ghost Value = { Place };

    ghost view = { λ s. record { held = drop s.used s.window; before = s.before; fault = s.fault } };

    ghost invariant = { λ s. (s.used ≤ length s.window) × (s.before ≤ 1048576) };
}

/// A line at the front of the bytes at hand: its length, and that with its end.
#[derive(Clone, Copy)]
struct Cut {
    len: usize,
    taken: usize,
}

impl Lines {
    ghost use Rattle.std.specs.Prelude.{◌≡◌, ◌≤◌, ℕ, [], Some, None, Err, length, IfOk, IfSome};
    ghost use Rattle.std.specs.Borrow.{sem};
    ghost use Rattle.std.specs.Io.BufRead.{Rests};
    ghost use Rattle.tp_outside.specs.Faults.{HasRisen};
    ghost use Rattle.tp_schedule.specs.AtHand.{together};
    ghost use Rattle.tp_schedule.specs.LinesLeft.{answer, shown, IsFor, IsAhead, Leaves};
    ghost use Rattle.tp_schedule.specs.contracts.lines.Lines.{the_row};

    /// A reader at the start of a schedule.
    pub fn new() -> Lines
        ensures { result ≡ record { held = []; before = 0; fault = None } }
    {
        Lines {
            window: Window::new(),
            used: 0,
            before: 0,
            fault: None,
        }
    }

    /// The next line without its end, which is a line feed with a carriage return before it where one
    /// is there; None at the end of the input. `ReadFault` comes where a call of the source failed,
    /// `Limit` where byte 1,048,577 of the schedule stands in the line or in its end, `Long` where the
    /// line has more than 8,192 bytes and no limit is passed. After a fault each call answers the same
    /// fault and reads nothing. Every call is to be given the same source, of which it reads at most
    /// 12,288 bytes past the start of a line that it answers.
    pub fn next<S: Source>(&mut self, source: &mut S) -> Result<Option<&[u8]>, LinesFault>
        // Promise 2.26 [clauses line leaves]: A schedule out of a source that tells its bytes is
        //   handed out line by line, as the definitions cut them, up to the first fault
        // Promise 2.27 [clauses line leaves]: A line of it is `Long` exactly past 8,192 bytes, and
        //   `Limit`, which goes before, exactly where byte 1,048,577 stands in the line or in its
        //   end; unless the source fails in the line, or a fault came before
        ensures line { IsFor (answer self.old) (together self.old.held (S.left source.old)) (shown result) }
        ensures few { IfOk result (λ line. IfSome line (λ l. length l.now ≤ 8192)) }
        ensures again { (f : LinesFault) → self.old.fault ≡ Some f → result ≡ Err f }
        ensures unread { (f : LinesFault) → self.old.fault ≡ Some f → source.new ≡ source.old }
        // Promise 2.28 [clauses count risen again unread]: A fault of reading a line first comes
        //   only where the source's count rose, with the count; after a fault comes the same one,
        //   and nothing is read
        ensures count { (n : ℕ) → self.old.fault ≡ None → result ≡ Err (LinesFault.ReadFault n) → n ≡ S.fault_count source.new }
        ensures risen { (n : ℕ) → self.old.fault ≡ None → result ≡ Err (LinesFault.ReadFault n)
            → HasRisen (S.fault_count source.old) (S.fault_count source.new) }
        ensures kept { S.fault_count source.old ≤ S.fault_count source.new }
        // Promise 2.29: At most 12,288 bytes are read past the start of a line that is handed out,
        //   or past the end of one that is too long or passes the limit; of one in which the source
        //   fails the line feed is not read
        ensures ahead { self.old.fault ≡ None → IsAhead (together self.old.held (S.left source.old)) (S.left source.new) (shown result) }
        ensures* leaves { sem 𝓛 (Rests the_row self.entry (λ new. Leaves self.old (S.left source.old) (shown result) new (S.left source.new))) }
    {
        if let Some(fault) = self.fault {
            return Err(fault);
        }
        self.window.pass(self.used);
        self.used = 0;
        match seek(&mut self.window, self.before, source) {
            Ok(None) => Ok(None),
            Ok(Some(cut)) => {
                self.used = cut.taken;
                self.before += cut.taken;
                Ok(Some(&self.window.bytes()[..cut.len]))
            }
            Err(fault) => {
                self.fault = Some(fault);
                Err(fault)
            }
        }
    }
}

// Finds the line at the front, of the bytes at hand and those that the source has left.
fn seek<S: Source>(
    window: &mut Window,
    before: usize,
    source: &mut S,
) -> Result<Option<Cut>, LinesFault>
    requires { before ≤ 1048576 }
    ensures finds { Sought before (together window.old (S.left source.old)) window.new (S.left source.new) result }
    ensures count { (n : ℕ) → result ≡ Err (LinesFault.ReadFault n) → n ≡ S.fault_count source.new }
    ensures risen { (n : ℕ) → result ≡ Err (LinesFault.ReadFault n) → HasRisen (S.fault_count source.old) (S.fault_count source.new) }
    ensures kept { S.fault_count source.old ≤ S.fault_count source.new }
{
    match gather(window, source) {
        Ok(LineEnd::Feed(at)) => judge(before, line_len(&window.bytes()[..at]), at + 1),
        Ok(LineEnd::Input) => {
            let len = window.bytes().len();
            if len == 0 {
                return Ok(None);
            }
            judge(before, len, len)
        }
        Ok(LineEnd::Far) => Err(skip(window, before, source)),
        Err(Failed) => {
            let faults = source.faults();
            Err(LinesFault::ReadFault { faults })
        }
    }
}

// Reads until the line's end is at hand, or more bytes than a line has, or the input is at its end.
fn gather<S: Source>(window: &mut Window, source: &mut S) -> Result<LineEnd, Failed>
    ensures ends { IfOk result (λ end. EndsSo end window.new (S.left source.new)) }
    ensures same { together window.new (S.left source.new) ≡ together window.old (S.left source.old) }
    ensures unended { OnErr result (no_feed window.new ≡ true) }
    ensures kept { S.fault_count source.old ≤ S.fault_count source.new }
    ensures risen { OnErr result (HasRisen (S.fault_count source.old) (S.fault_count source.new)) }
{
    match find_feed(window.bytes()) {
        Some(at) => Ok(LineEnd::Feed(at)),
        None => read_on(window, source),
    }
}

// The same, where no line's end is at hand yet.
fn read_on<S: Source>(window: &mut Window, source: &mut S) -> Result<LineEnd, Failed>
    requires { no_feed window.old ≡ true }
    ensures ends { IfOk result (λ end. EndsSo end window.new (S.left source.new)) }
    ensures same { together window.new (S.left source.new) ≡ together window.old (S.left source.old) }
    ensures unended { OnErr result (no_feed window.new ≡ true) }
    ensures kept { S.fault_count source.old ≤ S.fault_count source.new }
    ensures risen { OnErr result (HasRisen (S.fault_count source.old) (S.fault_count source.new)) }
{
    let mut seen = window.bytes().len();
    loop {
        let bytes = window.bytes();
        let len = bytes.len();
        if let Some(at) = find_feed(&bytes[seen..]) {
            return Ok(LineEnd::Feed(seen + at));
        }
        if len > MAX_LINE + 1 {
            return Ok(LineEnd::Far);
        }
        if window.pull(source)? == 0 {
            return Ok(LineEnd::Input);
        }
        seen = len;
    }
}

// The line of that length, with its end, or why it is not handed out.
fn judge(before: usize, len: usize, taken: usize) -> Result<Option<Cut>, LinesFault>
    requires { before + taken < 2000000 }
    ensures { IsCut before len taken result }
{
    if before + taken > MAX_SCHEDULE {
        Err(LinesFault::Limit)
    } else if len > MAX_LINE {
        Err(LinesFault::Long)
    } else {
        Ok(Some(Cut { len, taken }))
    }
}

// Reads on in a line that is too long, as far as tells whether it passes the schedule's limit too.
fn skip<S: Source>(window: &mut Window, before: usize, source: &mut S) -> LinesFault
    requires limit { before ≤ 1048576 }
    requires unended { no_feed window.old ≡ true }
    requires long { 8193 < length window.old }
    ensures answer { IsFor (λ all. first_of before (raw_lines all)) (together window.old (S.left source.old)) (fails result) }
    ensures count { (n : ℕ) → result ≡ LinesFault.ReadFault n → n ≡ S.fault_count source.new }
    ensures risen { (n : ℕ) → result ≡ LinesFault.ReadFault n → HasRisen (S.fault_count source.old) (S.fault_count source.new) }
    ensures kept { S.fault_count source.old ≤ S.fault_count source.new }
    ensures ahead { IsAhead (together window.old (S.left source.old)) (S.left source.new) (fails result) }
{
    let mut taken = window.bytes().len();
    while before + taken <= MAX_SCHEDULE {
        window.clear();
        match window.pull(source) {
            Err(Failed) => {
                let faults = source.faults();
                return LinesFault::ReadFault { faults };
            }
            Ok(0) => return LinesFault::Long,
            Ok(count) => match find_feed(window.bytes()) {
                Some(at) if before + taken + at < MAX_SCHEDULE => return LinesFault::Long,
                Some(_) => return LinesFault::Limit,
                None => taken += count,
            },
        }
    }
    LinesFault::Limit
}

// The length of a line without a carriage return at its end.
fn line_len(line: &[u8]) -> usize
    ensures within { result ≤ length line.now }
    ensures value { take result line.now ≡ without_return line.now }
{
    let len = line.len();
    if len > 0 && line[len - 1] == b'\r' {
        len - 1
    } else {
        len
    }
}

// How many bytes stand before the first line feed.
#[tactic(auto, using(crate::proofs::LineCuts::feed_found))]
fn find_feed(bytes: &[u8]) -> Option<usize>
    ensures { MatchOption result (no_feed bytes.now ≡ true)
        (λ at. (at < length bytes.now) × (no_feed (take at bytes.now) ≡ true) × (slice_index bytes.now at ≡ 10)) }
{
    memchr(b'\n', bytes)
}
