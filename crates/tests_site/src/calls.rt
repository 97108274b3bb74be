//! Calls that no program makes.
use std::alloc::Global;
use tp_audit::Audit;
use tp_journal::{Journal, format};
use tp_logrec::LogRec;
use tp_names::{Octets, SiteName};
use tp_outside::MemDisk;
use tp_records::{PeerRecord, Request};
use tp_site::{NodeEvent, Site};

// Whether a site on a fresh log takes an event. The types that an event lends are named here: the prover asks for them.
fn plays(alloc: Global) -> Option<bool> {
    let _request: Option<&Request> = None;
    let _rec: Option<&PeerRecord> = None;
    let mut disk = MemDisk::from(alloc, Octets::new(alloc));
    format(&mut disk).ok()?;
    let journal = Journal::start(alloc, disk).ok()?;
    let mut site = Site::start(alloc, journal, SiteName::new(b"a")?).ok()?;
    let played = site
        .play(alloc, 1, &NodeEvent::Declare { superior: None })
        .ok()?;
    Some(played.refusal.is_none())
}

#[test]
fn a_site_plays_an_event(rt: HostRuntime) {
    assert!(rt; plays(rt.alloc()) == Some(true));
}

// Whether an audit takes a log as a list of records.
fn adds(alloc: Global) -> Option<bool> {
    let mut audit = Audit::new(alloc);
    let list = [LogRec::Boot { boot: 1 }];
    Some(audit.add(alloc, &SiteName::new(b"a")?, &list).is_ok())
}

#[test]
fn an_audit_takes_a_list(rt: HostRuntime) {
    assert!(rt; adds(rt.alloc()) == Some(true));
}
