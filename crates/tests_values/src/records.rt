//! Worked texts of bodies and of peer records, each sort of them both ways, and where bytes are
//! bad.
use std::alloc::Global;
use tp_names::{Addr, Mark, NoMemory, Octets, RecordFault};
use tp_records::{
    Body, Event, Indication, Output, PeerRecord, Request, decode_body, decode_peer, encode_body,
    encode_peer,
};

// Declare node 2 under node 1 of site a.
const DECLARE: &[u8] = b"\x01\0\x02\x01\x01a\0\x01";
// Open an association with the mark 1.1.1, shared, commit, unchained.
const OPEN: &[u8] = b"\x01\0\0\0\0\0\0\0\x01\0\x01\0\0\0\0\0\0\0\x01\x29";
// That record goes from node 1 of site a to node 2 of site b.
const ARRIVE: &[u8] =
    b"\x03\x01a\0\x01\x01b\0\x02\0\x14\x01\0\0\0\0\0\0\0\x01\0\x01\0\0\0\0\0\0\0\x01\x29";
// The user of node 2 accepts.
const ACCEPT: &[u8] = b"\x02\0\x02\x02\x29";
// Node 2 is told of the offer, and sends its answer.
const TELL: &[u8] = b"\x10\0\x02\x01\0\x01\x29";

const ANSWER: &[u8] =
    b"\x02\0\0\0\0\0\0\0\x01\0\x01\0\0\0\0\0\0\0\x01\0\0\0\0\0\0\0\x01\0\x02\0\0\0\0\0\0\0\x01\x29";

const SEND: &[u8] =
    b"\x11\x01b\0\x02\x01a\0\x01\0\x26\x02\0\0\0\0\0\0\0\x01\0\x01\0\0\0\0\0\0\0\x01\0\0\0\0\0\0\0\x01\0\x02\0\0\0\0\0\0\0\x01\x29";

const OVER: &[u8] = b"\x13";

const BODIES: &[&[u8]] = &[
    DECLARE,
    b"\x01\0\x02\0",
    ACCEPT,
    ARRIVE,
    b"\x04\0\x02\0\x01",
    b"\x05\0\x02\x01",
    b"\x05\0\x02\x02",
    b"\x06\0\x01\0\x02",
    b"\x07\0\x02",
    b"\x08\0\x02",
    TELL,
    SEND,
    b"\x12\x19",
    OVER,
];

// What stands after each code of requests, of indications, and of records of a dialogue: from
// one code to another.
const REQUESTS: &[(u8, u8, &[u8])] = &[
    (1, 1, b"\x01b\0\x02\xff"),
    (2, 2, b"\0"),
    (3, 3, b""),
    (4, 4, b"\0\x02"),
    (5, 5, b"\0\x02\0\x02hi"),
    (6, 16, b"\0\x02"),
    (17, 20, b""),
];

const INDICATIONS: &[(u8, u8, &[u8])] = &[
    (1, 1, b"\0\x01\x29"),
    (2, 2, b"\0\x01\x2d"),
    (3, 4, b"\0\x01"),
    (5, 5, b"\0\x01\0\x01x"),
    (6, 13, b"\0\x01"),
    (
        14,
        14,
        b"\0\x01\x01a\0\0\0\0\0\0\0\x01\0\x01\0\0\0\0\0\0\0\x02",
    ),
    (15, 16, b"\0\x01"),
    (17, 17, b""),
    (18, 18, b"\0\x01"),
    (19, 19, b""),
    (20, 20, b"\0"),
    (21, 21, b""),
    (22, 22, b"\x01"),
    (23, 23, b"\0\x01\x02"),
    (24, 24, b"\0\x01"),
];

// The marks 1.1.1 and 1.2.1, and the number 7, after the code of a record on an association.
const ON: &[u8] =
    b"\x04\0\0\0\0\0\0\0\x01\0\x01\0\0\0\0\0\0\0\x01\0\0\0\0\0\0\0\x01\0\x02\0\0\0\0\0\0\0\x01\0\0\0\0\0\0\0\x07";

const DIALOGUE: &[(u8, u8, &[u8])] = &[
    (1, 1, b""),
    (2, 2, b"\0\x02ok"),
    (3, 11, b""),
    // Transactions begin: a.1.1.3 with the branch a.1.1.4, and a.1.1.1 with the branch bb.1.1.1 of another site.
    (
        12,
        12,
        b"\x01a\0\0\0\0\0\0\0\x01\0\x01\0\0\0\0\0\0\0\x03\x01a\0\0\0\0\0\0\0\x01\0\x01\0\0\0\0\0\0\0\x04\0",
    ),
    (
        12,
        12,
        b"\x01a\0\0\0\0\0\0\0\x01\0\x01\0\0\0\0\0\0\0\x01\x02bb\0\0\0\0\0\0\0\x01\0\x01\0\0\0\0\0\0\0\x01\x02",
    ),
    (13, 15, b""),
    (16, 16, b"\0"),
    (16, 16, b"\x02"),
    (17, 17, b""),
    (18, 18, b"\x01"),
    (19, 20, b""),
];

// The transaction a.1.1.3 and its branch a.1.1.4.
const NAMES: &[u8] =
    b"\x01a\0\0\0\0\0\0\0\x01\0\x01\0\0\0\0\0\0\0\x03\x01a\0\0\0\0\0\0\0\x01\0\x01\0\0\0\0\0\0\0\x04";

// The same with each state of an answer.
const STATES: &[&[u8]] = &[b"\x01", b"\x02\x01", b"\x03", b"\x04"];

// What stands after the code of every other peer record.
const OTHERS: &[(u8, u8, &[u8])] = &[
    (1, 1, b"\0\0\0\0\0\0\0\x01\0\x01\0\0\0\0\0\0\0\x01\x29"),
    (
        2,
        2,
        b"\0\0\0\0\0\0\0\x01\0\x01\0\0\0\0\0\0\0\x01\0\0\0\0\0\0\0\x01\0\x02\0\0\0\0\0\0\0\x01\x29",
    ),
    (3, 3, b"\0\0\0\0\0\0\0\x01\0\x01\0\0\0\0\0\0\0\x01\0"),
    (
        3,
        3,
        b"\0\0\0\0\0\0\0\x01\0\x01\0\0\0\0\0\0\0\x01\x01\0\0\0\0\0\0\0\x01\0\x01\0\0\0\0\0\0\0\x01",
    ),
    (5, 6, NAMES),
    (8, 8, NAMES),
];

// On an association a transaction begins.
const BEGIN: &[u8] =
    b"\x04\0\0\0\0\0\0\0\x01\0\x01\0\0\0\0\0\0\0\x01\0\0\0\0\0\0\0\x01\0\x02\0\0\0\0\0\0\0\x01\0\0\0\0\0\0\0\x07\x0c\x01a\0\0\0\0\0\0\0\x01\0\x01\0\0\0\0\0\0\0\x03\x01a\0\0\0\0\0\0\0\x01\0\x01\0\0\0\0\0\0\0\x04\0";

// An answer about that branch, with a report.
const REPLY: &[u8] =
    b"\x07\x01a\0\0\0\0\0\0\0\x01\0\x01\0\0\0\0\0\0\0\x03\x01a\0\0\0\0\0\0\0\x01\0\x01\0\0\0\0\0\0\0\x04\x02\x01";

fn joined(alloc: Global, front: &[u8], rest: &[u8]) -> Result<Octets, NoMemory> {
    let mut all = Octets::from_slice(alloc, front)?;
    all.extend_from_slice(alloc, rest)?;
    Ok(all)
}

/// Bytes with that code between them.
fn coded(alloc: Global, front: &[u8], code: u8, rest: &[u8]) -> Result<Octets, NoMemory> {
    let mut all = Octets::from_slice(alloc, front)?;
    all.push(alloc, code)?;
    all.extend_from_slice(alloc, rest)?;
    Ok(all)
}

/// A body's text, encoded after two other bytes, from bytes that it stands before; and its length.
fn body_again(alloc: Global, bytes: &[u8]) -> Option<(Octets, usize)> {
    let (body, len) = decode_body(alloc, bytes).ok()?;
    let mut out = Octets::from_slice(alloc, b"..").ok()?;
    encode_body(alloc, &body, &mut out).ok()?;
    Some((out, len))
}

/// The same of a peer record.
fn peer_again(alloc: Global, bytes: &[u8]) -> Option<(Octets, usize)> {
    let (rec, len) = decode_peer(alloc, bytes).ok()?;
    let mut out = Octets::from_slice(alloc, b"..").ok()?;
    encode_peer(alloc, &rec, &mut out).ok()?;
    Some((out, len))
}

fn is_after_two(text: &Octets, bytes: &[u8]) -> bool {
    match text.as_slice() {
        [b'.', b'.', text @ ..] => text == bytes,
        _ => false,
    }
}

/// Whether what is decoded of the bytes and something after them is encoded as them again.
fn body_returns(alloc: Global, bytes: &[u8]) -> bool {
    let Ok(longer) = joined(alloc, bytes, b"\x01\x02") else {
        return false;
    };
    match body_again(alloc, longer.as_slice()) {
        Some((text, len)) => len == bytes.len() && is_after_two(&text, bytes),
        None => false,
    }
}

fn peer_returns(alloc: Global, bytes: &[u8]) -> bool {
    let Ok(longer) = joined(alloc, bytes, b"\x01\x02") else {
        return false;
    };
    match peer_again(alloc, longer.as_slice()) {
        Some((text, len)) => len == bytes.len() && is_after_two(&text, bytes),
        None => false,
    }
}

fn is_node(addr: &Addr, site: u8, node: u16) -> bool {
    match addr.site.bytes() {
        [byte] => *byte == site && addr.node == node,
        _ => false,
    }
}

/// The mark 1.N.1 of that node.
fn is_mark(mark: &Mark, node: u16) -> bool {
    mark.boot == 1 && mark.node == node && mark.count == 1
}

/// The body before the bytes, where it has that length.
fn body(alloc: Global, bytes: &[u8], len: usize) -> Option<Body> {
    match decode_body(alloc, bytes) {
        Ok((body, found)) if found == len => Some(body),
        _ => None,
    }
}

fn is_declaration(body: &Body) -> bool {
    match body {
        Body::Event(
            Event::Declare {
                node: 2,
                superior: Some(above),
            },
        ) => is_node(above, b'a', 1),
        _ => false,
    }
}

fn is_request(body: &Body) -> bool {
    match body {
        Body::Event(Event::Do { node: 2, request }) => {
            matches!(request, Request::Accept { units: 41 })
        }
        _ => false,
    }
}

fn is_offer(body: &Body) -> bool {
    match body {
        Body::Output(
            Output::Tell {
                node: 2,
                indication: Indication::BeginDialogue { peer: 1, units },
            },
        ) => units.bits() == 41,
        _ => false,
    }
}

fn is_over(body: &Body) -> bool {
    matches!(body, Body::Output(Output::Over))
}

/// From node 1 of site a to node 2 of site b, with the record that opens an association.
fn is_arrival(body: &Body) -> bool {
    match body {
        Body::Event(Event::Arrive { from, to, octets }) => {
            is_node(from, b'a', 1) && is_node(to, b'b', 2) && octets.as_slice() == OPEN
        }
        _ => false,
    }
}

fn is_sending(body: &Body) -> bool {
    match body {
        Body::Output(Output::Send { from, to, octets }) => {
            is_node(from, b'b', 2) && is_node(to, b'a', 1) && octets.as_slice() == ANSWER
        }
        _ => false,
    }
}

#[test]
fn worked_events(rt: HostRuntime) {
    let alloc = rt.alloc();
    assert!(rt; body(alloc, DECLARE, 8).as_ref().is_some_and(is_declaration));
    assert!(rt; body(alloc, ACCEPT, 5).as_ref().is_some_and(is_request));
    assert!(rt; body(alloc, ARRIVE, 31).as_ref().is_some_and(is_arrival));
}

#[test]
fn worked_outputs(rt: HostRuntime) {
    let alloc = rt.alloc();
    assert!(rt; body(alloc, TELL, 7).as_ref().is_some_and(is_offer));
    assert!(rt; body(alloc, SEND, 49).as_ref().is_some_and(is_sending));
    assert!(rt; body(alloc, OVER, 1).as_ref().is_some_and(is_over));
}

/// The peer record before the bytes, where it has that length.
fn peer(alloc: Global, bytes: &[u8], len: usize) -> Option<PeerRecord> {
    match decode_peer(alloc, bytes) {
        Ok((rec, found)) if found == len => Some(rec),
        _ => None,
    }
}

fn opens(rec: &PeerRecord) -> bool {
    match rec {
        PeerRecord::OpenAssoc { x, units } => is_mark(x, 1) && units.bits() == 41,
        _ => false,
    }
}

fn accepts(rec: &PeerRecord) -> bool {
    match rec {
        PeerRecord::AcceptAssoc { x, y, units } => {
            is_mark(x, 1) && is_mark(y, 2) && units.bits() == 41
        }
        _ => false,
    }
}

#[test]
fn worked_records(rt: HostRuntime) {
    let alloc = rt.alloc();
    assert!(rt; peer(alloc, OPEN, 20).as_ref().is_some_and(opens));
    assert!(rt; peer(alloc, ANSWER, 38).as_ref().is_some_and(accepts));
}

#[test]
fn bodies_return(rt: HostRuntime) {
    for bytes in BODIES {
        assert!(rt; body_returns(rt.alloc(), bytes), "{bytes:?}");
    }
}

/// The first code of those after which the bytes do not return, in bodies that begin so.
fn first_that_differs(alloc: Global, front: &[u8], rows: &[(u8, u8, &[u8])]) -> Option<u8> {
    for (first, last, rest) in rows {
        for code in *first..=*last {
            match coded(alloc, front, code, rest) {
                Ok(bytes) if body_returns(alloc, bytes.as_slice()) => {}
                _ => return Some(code),
            }
        }
    }
    None
}

#[test]
fn requests_and_indications_return(rt: HostRuntime) {
    let differs = first_that_differs(rt.alloc(), b"\x02\0\x02", REQUESTS);
    assert!(rt; differs.is_none());
    let differs = first_that_differs(rt.alloc(), b"\x10\0\x02", INDICATIONS);
    assert!(rt; differs.is_none());
}

/// The first code of those after which a record that begins so does not return.
fn first_peer_that_differs(alloc: Global, front: &[u8], rows: &[(u8, u8, &[u8])]) -> Option<u8> {
    for (first, last, rest) in rows {
        for code in *first..=*last {
            match coded(alloc, front, code, rest) {
                Ok(bytes) if peer_returns(alloc, bytes.as_slice()) => {}
                _ => return Some(code),
            }
        }
    }
    None
}

/// Whether an answer about that branch returns.
fn answer_returns(alloc: Global, state: &[u8]) -> bool {
    match coded(alloc, b"", 7, NAMES) {
        Ok(front) => match joined(alloc, front.as_slice(), state) {
            Ok(bytes) => peer_returns(alloc, bytes.as_slice()),
            Err(_) => false,
        },
        Err(_) => false,
    }
}

#[test]
fn records_of_a_dialogue_return(rt: HostRuntime) {
    let differs = first_peer_that_differs(rt.alloc(), ON, DIALOGUE);
    assert!(rt; differs.is_none());
}

#[test]
fn other_records_return(rt: HostRuntime) {
    let differs = first_peer_that_differs(rt.alloc(), b"", OTHERS);
    assert!(rt; differs.is_none());
    for state in STATES {
        assert!(rt; answer_returns(rt.alloc(), state), "{state:?}");
    }
}

fn place_of_body(alloc: Global, bytes: &[u8]) -> Option<usize> {
    match decode_body(alloc, bytes) {
        Err(RecordFault::BadRecord { at }) => Some(at),
        _ => None,
    }
}

fn place_of_peer(alloc: Global, bytes: &[u8]) -> Option<usize> {
    match decode_peer(alloc, bytes) {
        Err(RecordFault::BadRecord { at }) => Some(at),
        _ => None,
    }
}

/// The first cut of a body that is not refused at its end.
fn cut_that_passes(alloc: Global, bytes: &[u8]) -> Option<usize> {
    for len in 0..bytes.len() {
        match place_of_body(alloc, &bytes[..len]) {
            Some(at) if at == len => {}
            _ => return Some(len),
        }
    }
    None
}

#[test]
fn a_cut_is_refused_at_its_end(rt: HostRuntime) {
    for bytes in BODIES {
        let passes = cut_that_passes(rt.alloc(), bytes);
        assert!(rt; passes.is_none(), "{bytes:?}");
    }
}

/// The first cut of a peer record that is not refused at its end.
fn cut_of_a_peer_that_passes(alloc: Global, bytes: &[u8]) -> Option<usize> {
    for len in 0..bytes.len() {
        match place_of_peer(alloc, &bytes[..len]) {
            Some(at) if at == len => {}
            _ => return Some(len),
        }
    }
    None
}

// A record that opens an association, one on it by which a transaction begins, and a reply with a report.
const CUTS: &[&[u8]] = &[OPEN, BEGIN, REPLY];

#[test]
fn a_cut_peer_record_is_refused_at_its_end(rt: HostRuntime) {
    for bytes in CUTS {
        let passes = cut_of_a_peer_that_passes(rt.alloc(), bytes);
        assert!(rt; passes.is_none(), "{bytes:?}");
    }
}

// Bytes, and how many of them are the front of a text.
const WRONG: &[(&[u8], usize)] = &[
    (b"\x09", 0),
    (b"\x14", 0),
    (b"\x02\0\x02\x15", 3),
    (b"\x10\0\x02\x01\0\x01\x40", 6),
    (b"\x10\0\x02\x14\x03", 4),
    (b"\x12\x12", 1),
    (b"\x01\0\x02\x01\0", 4),
    (b"\x01\0\x02\x01\x02aA", 6),
    (b"\x03\x01a\0\x01\x01b\0\x02\x07\xd1", 10),
    (b"\x03\x01a\0\x01\x01b\0\x02\x08", 9),
    // In what is sent, after the two addresses.
    (b"\x11\x01a\0\x01\x01b\0\x02\0\x15", 10),
    (b"\x11\x01a\0\x01\x01b\0\x02\x05", 9),
    (b"\x11\x01a\0\x01\x01b\0\x02\0\x14\x02", 11),
    (b"\x11\x01a\0\x01\x01b\0\x02\0\x29\x05\x02", 12),
    // Octets after a record.
    (
        b"\x11\x01a\0\x01\x01b\0\x02\0\x15\x01\0\0\0\0\0\0\0\x01\0\x01\0\0\0\0\0\0\0\x01\x29\0",
        10,
    ),
];

#[test]
fn the_first_wrong_byte_is_told(rt: HostRuntime) {
    for (bytes, at) in WRONG {
        let place = place_of_body(rt.alloc(), bytes);
        assert!(rt; place.is_some_and(|place| place == *at), "{bytes:?}");
    }
}
