//! Names of sites, marks, reports, and lists.
use std::alloc::Global;
use std::fmt::Display;
use std::slice;
use tp_names::{Aaid, Addr, BranchId, Child, Children, Counter, Mark, Octets, Report, SiteName};

fn is_name(name: &str) -> bool {
    SiteName::new(name.as_bytes()).is_some()
}

const NAMES: &[&str] = &["a", "bank7", "0", "abcdefghijklmnop"];

const NO_NAMES: &[&str] = &["", "A", "a b", "a-b", "abcdefghijklmnopq"];

#[test]
fn names_of_sites(rt: HostRuntime) {
    for name in NAMES {
        assert!(rt; is_name(name), "{name}");
    }
    for name in NO_NAMES {
        assert!(rt; !is_name(name), "{name}");
    }
}

fn drawn(counter: &mut Counter) -> Option<Mark> {
    counter.draw().ok()
}

fn is_shown_as(alloc: Global, value: &impl Display, text: &str) -> bool {
    match value.to_string(alloc) {
        Ok(shown) => shown.as_str() == text,
        Err(_) => false,
    }
}

fn draws(alloc: Global, counter: &mut Counter, text: &str) -> bool {
    match drawn(counter) {
        Some(mark) => is_shown_as(alloc, &mark, text),
        None => false,
    }
}

const DRAWN: &[&str] = &["1.1.1", "1.1.2", "1.1.3", "1.1.4"];

// The root of the plain commitment, at site a, draws its marks in the first boot.
#[test]
fn marks_are_printed_as_they_are_drawn(rt: HostRuntime) {
    let mut counter = Counter::from(1, 1, 0);
    for text in DRAWN {
        assert!(rt; draws(rt.alloc(), &mut counter, text));
    }
    assert!(rt; counter.left() == u64::MAX - 4);
}

const MARK: Mark = Mark {
    boot: 1,
    node: 1,
    count: 5,
};

fn identifiers_are(alloc: Global, site: &str, text: &str) -> bool {
    let Some(site) = SiteName::new(site.as_bytes()) else {
        return false;
    };
    let transaction = Aaid {
        owner: site,
        mark: MARK,
    };
    let branch = BranchId {
        superior: site,
        mark: MARK,
    };
    is_shown_as(alloc, &transaction, text) && is_shown_as(alloc, &branch, text)
}

#[test]
fn identifiers_are_printed(rt: HostRuntime) {
    assert!(rt; identifiers_are(rt.alloc(), "a", "a.1.1.5"));
}

#[test]
fn the_last_number_is_drawn_once(rt: HostRuntime) {
    let mut counter = Counter::from(1, 2, u64::MAX - 1);
    assert!(rt; counter.left() == 1);
    let last = drawn(&mut counter);
    assert!(rt; last.is_some_and(|mark| mark.count == u64::MAX));
    assert!(rt; counter.left() == 0);
    assert!(rt; drawn(&mut counter).is_none());
    assert!(rt; drawn(&mut counter).is_none());
}

#[test]
fn reports_are_joined_to_the_greater(rt: HostRuntime) {
    assert!(rt; Report::None.join(Report::None) == Report::None);
    assert!(rt; Report::None.join(Report::Hazard) == Report::Hazard);
    assert!(rt; Report::Mix.join(Report::Hazard) == Report::Mix);
}

fn grown(alloc: Global) -> Option<Octets> {
    let mut octets = Octets::from_slice(alloc, b"ab").ok()?;
    octets.push(alloc, b'c').ok()?;
    octets.extend_from_slice(alloc, b"de").ok()?;
    Some(octets)
}

// What is left of them after a cut, a copy, and a way there and back.
fn shrunk(octets: &mut Octets) -> Option<Octets> {
    octets.truncate(1);
    let copy = octets.clone().ok()?;
    Some(Octets::from_vec(copy.into_vec()))
}

#[test]
fn octets_grow_at_the_end(rt: HostRuntime) {
    assert!(rt; Octets::new(rt.alloc()).is_empty());
    let Some(mut octets) = grown(rt.alloc()) else {
        panic!(rt; "no memory")
    };
    assert!(rt; octets.as_slice() == b"abcde".as_slice());
    let Some(left) = shrunk(&mut octets) else {
        panic!(rt; "no memory")
    };
    assert!(rt; octets.len() == 1);
    assert!(rt; left.as_slice() == b"a".as_slice());
}

fn child() -> Option<Child> {
    let site = SiteName::new(b"b")?;
    let addr = Addr { site, node: 2 };
    let branch = BranchId {
        superior: site,
        mark: MARK,
    };
    Some(Child { addr, branch })
}

// A list of that child, once and once more.
fn twice(alloc: Global, child: Child) -> Option<Children> {
    let mut children = Children::new(alloc);
    children.push(alloc, child).ok()?;
    children
        .extend_from_slice(alloc, slice::from_ref(&child))
        .ok()?;
    Some(children)
}

fn copied(alloc: Global, children: &Children) -> Option<Children> {
    let copy = children.clone().ok()?;
    let copy = Children::from_slice(alloc, copy.as_slice()).ok()?;
    Some(Children::from_vec(copy.into_vec()))
}

fn is_twice(children: &Option<Children>, child: &Child) -> bool {
    match children {
        Some(children) => match children.as_slice() {
            [one, two] => *one == *child && *two == *child,
            _ => false,
        },
        None => false,
    }
}

fn grow_at_the_end(alloc: Global) -> Option<bool> {
    let child = child()?;
    let children = twice(alloc, child)?;
    let copy = copied(alloc, &children);
    Some(children.len() == 2 && !children.is_empty() && is_twice(&copy, &child))
}

#[test]
fn children_grow_at_the_end(rt: HostRuntime) {
    assert!(rt; Children::new(rt.alloc()).is_empty());
    assert!(rt; grow_at_the_end(rt.alloc()).is_some_and(|grows| grows));
}
