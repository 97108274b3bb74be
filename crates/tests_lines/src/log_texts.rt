//! The texts of identifiers, keys and records of a log.
use crate::values::{aaid, branch, key, root_key, site};
use std::alloc::Global;
use tp_logrec::LogRec;
use tp_names::{Addr, Children, NodeKey, Octets};
use tp_transcript::{write_aaid, write_key, write_rec};

fn aaid_text(alloc: Global) -> Option<Octets> {
    let mut out = Octets::new(alloc);
    write_aaid(alloc, &aaid()?, &mut out).ok()?;
    Some(out)
}

fn key_text(alloc: Global) -> Option<Octets> {
    let aaid = aaid()?;
    let branch = Some(branch()?);
    let key = NodeKey { aaid, branch };
    let mut out = Octets::new(alloc);
    write_key(alloc, &key, &mut out).ok()?;
    Some(out)
}

fn is_text(found: &Option<Octets>, text: &str) -> bool {
    match found {
        Some(found) => found.as_slice() == text.as_bytes(),
        None => false,
    }
}

#[test]
fn identifiers(rt: HostRuntime) {
    assert!(rt; is_text(&aaid_text(rt.alloc()), "a.1.20.2"));
}

#[test]
fn keys(rt: HostRuntime) {
    let text = "a.1.20.2 s16.1.20.18446744073709551615";
    assert!(rt; is_text(&key_text(rt.alloc()), text));
}

fn text_of(alloc: Global, rec: &LogRec) -> Option<Octets> {
    let mut out = Octets::new(alloc);
    write_rec(alloc, rec, &mut out).ok()?;
    Some(out)
}

fn commit_text(alloc: Global) -> Option<Octets> {
    let commit = LogRec::Commit {
        node: 0,
        key: root_key()?,
        superior: None,
        children: Children::new(alloc),
    };
    text_of(alloc, &commit)
}

fn ready_text(alloc: Global) -> Option<Octets> {
    let site = site(b"a")?;
    let ready = LogRec::Ready {
        node: 2,
        key: key()?,
        superior: Addr { site, node: 1 },
        children: Children::new(alloc),
    };
    text_of(alloc, &ready)
}

#[test]
fn records_of_a_log(rt: HostRuntime) {
    assert!(rt; is_text(&commit_text(rt.alloc()), "commit 0 a.1.20.2 -"));
    let text = "ready 2 a.1.20.2 s16.1.20.18446744073709551615";
    assert!(rt; is_text(&ready_text(rt.alloc()), text));
}
