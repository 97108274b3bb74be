//! The texts of lines of a transcript.
use crate::values::{aaid, branch, mark, octets, root_key, site};
use std::alloc::Global;
use tp_model::{LogWords, NodeNumbers, OutLine, PhaseWord, RecordFate, SentWords};
use tp_names::{Octets, Outcome, Report};
use tp_records::{DialogueRecord, Holder, Indication, RecState};
use tp_transcript::write_out;
use tp_units::Units;

/// The text of a line, after a bar.
fn written(alloc: Global, line: &OutLine) -> Option<Octets> {
    let mut out = octets(alloc, b"|")?;
    write_out(alloc, line, &mut out).ok()?;
    Some(out)
}

/// Whether the line has that text, which goes after what stood there.
fn shows(alloc: Global, line: OutLine, text: &str) -> bool {
    match written(alloc, &line) {
        Some(out) => match out.as_slice() {
            [b'|', found @ ..] => found == text.as_bytes(),
            _ => false,
        },
        None => false,
    }
}

/// The same of a line that is made where there is memory.
fn made_shows(alloc: Global, line: Option<OutLine>, text: &str) -> bool {
    match line {
        Some(line) => shows(alloc, line, text),
        None => false,
    }
}

#[test]
fn lines_of_frames(rt: HostRuntime) {
    let alloc = rt.alloc();
    assert!(rt; shows(alloc, OutLine::Take { frame: 1 }, "take 1"));
    assert!(rt; shows(alloc, OutLine::Refused { number: 12 }, "refused 12"));
    assert!(rt; shows(alloc, OutLine::Dropped { number: 21 }, "dropped 21"));
    assert!(rt; shows(alloc, OutLine::Nothing, "nothing"));
    assert!(rt; shows(alloc, OutLine::Lost { frame: 6 }, "lost 6"));
}

#[test]
fn lines_of_states(rt: HostRuntime) {
    let state = OutLine::State {
        node: 2,
        phase: PhaseWord::Committing,
        kept: 0,
    };
    assert!(rt; shows(rt.alloc(), state, "state 2 committing kept 0"));
}

fn echo(alloc: Global) -> Option<OutLine> {
    Some(OutLine::Echo(octets(alloc, b"drain")?))
}

fn stopped() -> Option<OutLine> {
    let site = site(b"a")?;
    let fate = RecordFate::Kept;
    Some(OutLine::Stopped { site, fate })
}

fn image(alloc: Global) -> Option<OutLine> {
    let site = site(b"a")?;
    let bytes = octets(alloc, b"OTPL\x01")?;
    Some(OutLine::Image { site, bytes })
}

#[test]
fn lines_of_a_site(rt: HostRuntime) {
    assert!(rt; made_shows(rt.alloc(), echo(rt.alloc()), "> drain"));
    assert!(rt; made_shows(rt.alloc(), stopped(), "stopped a kept"));
    assert!(rt; made_shows(rt.alloc(), image(rt.alloc()), "image a 4f54504c01"));
}

fn boot() -> Option<OutLine> {
    let site = site(b"a")?;
    let rec = LogWords::Boot { boot: 1 };
    Some(OutLine::Log { site, rec })
}

fn damage() -> Option<OutLine> {
    let site = site(b"a")?;
    let rec = LogWords::Damage {
        node: 1,
        key: root_key()?,
        side: Outcome::Commit,
        report: Report::Mix,
    };
    Some(OutLine::Log { site, rec })
}

#[test]
fn lines_of_a_log(rt: HostRuntime) {
    assert!(rt; made_shows(rt.alloc(), boot(), "log a boot 1"));
    let text = "log a damage 1 a.1.20.2 - commit mix";
    assert!(rt; made_shows(rt.alloc(), damage(), text));
}

fn agreed() -> Option<OutLine> {
    let aaid = aaid()?;
    let outcome = Outcome::Commit;
    Some(OutLine::Agreed { aaid, outcome })
}

fn mixed(alloc: Global) -> Option<OutLine> {
    let aaid = aaid()?;
    let mut by = NodeNumbers::new(alloc);
    by.push(alloc, 2).ok()?;
    by.push(alloc, 31).ok()?;
    by.push(alloc, 4).ok()?;
    Some(OutLine::Mixed { aaid, by })
}

fn open() -> Option<OutLine> {
    let aaid = aaid()?;
    Some(OutLine::Open { aaid })
}

#[test]
fn lines_that_close_a_transcript(rt: HostRuntime) {
    assert!(rt; made_shows(rt.alloc(), agreed(), "tree a.1.20.2 agreed commit"));
    let text = "tree a.1.20.2 mixed by 2,31,4";
    assert!(rt; made_shows(rt.alloc(), mixed(rt.alloc()), text));
    assert!(rt; made_shows(rt.alloc(), open(), "tree a.1.20.2 open"));
}

fn sent(rec: SentWords) -> OutLine {
    OutLine::Send {
        frame: 7,
        from: 1,
        to: 2,
        rec,
    }
}

fn opened() -> Option<OutLine> {
    let units = Units::check(41).ok()?;
    let x = mark(1);
    Some(sent(SentWords::OpenAssoc { x, units }))
}

fn shut() -> Option<OutLine> {
    let (x, y) = (mark(1), None);
    Some(sent(SentWords::ShutAssoc { x, y }))
}

fn begin() -> Option<OutLine> {
    let rec = DialogueRecord::Begin {
        aaid: aaid()?,
        branch: branch()?,
        holder: Holder::Superior,
    };
    Some(sent(SentWords::OnAssoc { seq: 3, rec }))
}

fn user(alloc: Global) -> Option<OutLine> {
    let octets = octets(alloc, b"A")?;
    let rec = DialogueRecord::UserData { octets };
    Some(sent(SentWords::OnAssoc { seq: 3, rec }))
}

fn reply() -> Option<OutLine> {
    Some(sent(SentWords::RecReply {
        aaid: aaid()?,
        branch: branch()?,
        state: RecState::Done(Report::Hazard),
    }))
}

#[test]
fn records_of_associations(rt: HostRuntime) {
    assert!(rt; made_shows(rt.alloc(), opened(), "send 7 1 2 open 1.20.1 scu"));
    assert!(rt; made_shows(rt.alloc(), shut(), "send 7 1 2 shut 1.20.1 -"));
}

#[test]
fn records_of_a_transaction(rt: HostRuntime) {
    let text = "send 7 1 2 data 3 begin a.1.20.2 s16.1.20.18446744073709551615 superior";
    assert!(rt; made_shows(rt.alloc(), begin(), text));
    assert!(rt; made_shows(rt.alloc(), user(rt.alloc()), "send 7 1 2 data 3 user 41"));
    let text = "send 7 1 2 rec-reply a.1.20.2 s16.1.20.18446744073709551615 done hazard";
    assert!(rt; made_shows(rt.alloc(), reply(), text));
}

fn told(indication: Indication) -> Option<OutLine> {
    Some(OutLine::Tell {
        node: 2,
        indication,
    })
}

fn begun() -> Option<OutLine> {
    let units = Units::check(26).ok()?;
    told(Indication::BegunDialogue { peer: 1, units })
}

#[test]
fn what_users_are_told(rt: HostRuntime) {
    assert!(rt; made_shows(rt.alloc(), begun(), "tell 2 begun-dialogue 1 pck"));
    let commit = told(Indication::Commit);
    assert!(rt; made_shows(rt.alloc(), commit, "tell 2 commit"));
    let (peer, report) = (3, Report::Mix);
    let report = told(Indication::HeuristicReport { peer, report });
    assert!(rt; made_shows(rt.alloc(), report, "tell 2 heuristic-report 3 mix"));
}
