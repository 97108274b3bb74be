//! The texts of lines of a schedule.
use crate::values::{octets, site};
use std::alloc::Global;
use tp_model::{Action, Line, LineRequest};
use tp_names::{Octets, Outcome, SiteName};
use tp_schedule::write_line;

/// The text of a line, after a bar.
fn written(alloc: Global, line: &Line) -> Option<Octets> {
    let mut out = octets(alloc, b"|")?;
    write_line(alloc, line, &mut out).ok()?;
    Some(out)
}

/// Whether the line has that text, which goes after what stood there.
fn shows(alloc: Global, line: Line, text: &str) -> bool {
    match written(alloc, &line) {
        Some(out) => match out.as_slice() {
            [b'|', found @ ..] => found == text.as_bytes(),
            _ => false,
        },
        None => false,
    }
}

fn node(alloc: Global, node: u16, site: SiteName, under: Option<u16>, text: &str) -> bool {
    shows(alloc, Line::Node { node, site, under }, text)
}

#[test]
fn lines_of_nodes(rt: HostRuntime) {
    let alloc = rt.alloc();
    assert!(rt; shows(alloc, Line::Show { node: 3 }, "show 3"));
    assert!(rt; shows(alloc, Line::Auto { node: 3, member: 1 }, "auto 3 1"));
    assert!(rt; shows(alloc, Line::Leave { member: 2 }, "leave 2"));
}

#[test]
fn lines_of_frames(rt: HostRuntime) {
    let alloc = rt.alloc();
    assert!(rt; shows(alloc, Line::Pass { from: 1, to: 2 }, "pass 1 2"));
    assert!(rt; shows(alloc, Line::Skip { from: 2, to: 1 }, "skip 2 1"));
    assert!(rt; shows(alloc, Line::Again { frame: 10 }, "again 10"));
    assert!(rt; shows(alloc, Line::Drain, "drain"));
    assert!(rt; shows(alloc, Line::Lose { node: 1, peer: 2 }, "lose 1 2"));
}

#[test]
fn lines_of_a_site(rt: HostRuntime) {
    let alloc = rt.alloc();
    let outcome = Outcome::Rollback;
    assert!(rt; shows(alloc, Line::Heur { node: 2, outcome }, "heur 2 rollback"));
    assert!(rt; shows(alloc, Line::GiveUp { node: 1, peer: 2 }, "giveup 1 2"));
    assert!(rt; shows(alloc, Line::Retry { node: 1 }, "retry 1"));
    assert!(rt; shows(alloc, Line::Purge { node: 1 }, "purge 1"));
}

#[test]
fn lines_with_a_name(rt: HostRuntime) {
    let Some(site) = site(b"b") else {
        panic!(rt; "a name")
    };
    assert!(rt; node(rt.alloc(), 2, site, None, "node 2 b"));
    assert!(rt; node(rt.alloc(), 65535, site, Some(1), "node 65535 b under 1"));
    assert!(rt; shows(rt.alloc(), Line::Image { site }, "image b"));
    assert!(rt; shows(rt.alloc(), Line::Crash { site }, "crash b"));
}

fn crash_in(alloc: Global, at: u8, fill: u8, action: Action, text: &str) -> Option<bool> {
    let site = site(b"a")?;
    let line = Line::CrashIn {
        site,
        at,
        fill,
        action,
    };
    Some(shows(alloc, line, text))
}

#[test]
fn lines_of_stops(rt: HostRuntime) {
    let request = LineRequest::Commit;
    let asked = Action::Do { node: 1, request };
    let holds = crash_in(
        rt.alloc(),
        2,
        15,
        asked,
        "crash a at 2 fill 0f in do 1 commit",
    );
    assert!(rt; matches!(holds, Some(true)));
    let outcome = Outcome::Commit;
    let decided = Action::Heur { node: 2, outcome };
    let holds = crash_in(
        rt.alloc(),
        99,
        0,
        decided,
        "crash a at 99 fill 00 in heur 2 commit",
    );
    assert!(rt; matches!(holds, Some(true)));
}

fn asks(alloc: Global, request: LineRequest, text: &str) -> bool {
    shows(alloc, Line::Do { node: 1, request }, text)
}

fn data(alloc: Global, bytes: &[u8], text: &str) -> Option<bool> {
    let octets = octets(alloc, bytes)?;
    let request = LineRequest::UserData { peer: 2, octets };
    Some(shows(alloc, Line::Do { node: 1, request }, text))
}

#[test]
fn requests(rt: HostRuntime) {
    let (alloc, peer) = (rt.alloc(), 2);
    let begin = LineRequest::BeginDialogue { peer, units: 63 };
    assert!(rt; asks(alloc, begin, "do 1 begin-dialogue 2 sphcku"));
    let accept = LineRequest::Accept { units: 41 };
    assert!(rt; asks(alloc, accept, "do 1 accept scu"));
    let grant = LineRequest::Grant { peer };
    assert!(rt; asks(alloc, grant, "do 1 grant-control 2"));
    let handshake = LineRequest::HandshakeGrant { peer };
    assert!(rt; asks(alloc, handshake, "do 1 handshake-and-grant 2"));
    assert!(rt; asks(alloc, LineRequest::Unchanged, "do 1 unchanged"));
}

#[test]
fn requests_with_octets(rt: HostRuntime) {
    let bytes = [0, 9, 10, 159, 160, 255];
    let holds = data(rt.alloc(), &bytes, "do 1 data 2 00090a9fa0ff");
    assert!(rt; matches!(holds, Some(true)));
    let holds = data(rt.alloc(), &[], "do 1 data 2 -");
    assert!(rt; matches!(holds, Some(true)));
}
