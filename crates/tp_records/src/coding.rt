//! The texts of bodies and of peer records: what is appended, and what is found before bytes.
ghost use Rattle.std.specs.Prelude.{◌≡◌, ◌≤◌, ◌++◌, ℕ, length, IfOk, IfErr, OnOk, OnErr};
ghost use Rattle.tp_names.specs.Grammar.{HasText, Begins, IsFaultOf, IsGrammar};
ghost use Rattle.tp_records.specs.Bodies.{peer_bytes, body_bytes};
ghost use Rattle.tp_records.specs.BodyReading.{peer_grammar, body_grammar};

use crate::body::bytes::{read_body, write_body};
use crate::peer::bytes::{read_peer, write_peer_record};
use crate::{Body, PeerRecord};
use std::alloc::Global;
use tp_names::{Cursor, NoMemory, Octets, ReadFault, RecordFault};

// Promise 2.7: They are encoded to that text, and an output is written so at the end of what is
//   there
/// Appends the text of a body, which it must have. Without memory `out` is as it was.
pub fn encode_body(alloc: Global, v: &Body, out: &mut Octets) -> Result<(), NoMemory>
    requires { HasText body_grammar v.now }
    ensures ok { OnOk result (out.new ≡ out.old ++ body_bytes v.now) }
    ensures err { OnErr result (out.new ≡ out.old) }
{
    let len = out.len();
    let written = write_body(alloc, v, out);
    if written.is_err() {
        out.truncate(len);
    }
    written
}

// Promise 2.7, part 2
/// Appends the text of a peer record, which it must have. Without memory `out` is as it was.
pub fn encode_peer(alloc: Global, v: &PeerRecord, out: &mut Octets) -> Result<(), NoMemory>
    requires { HasText peer_grammar v.now }
    ensures ok { OnOk result (out.new ≡ out.old ++ peer_bytes v.now) }
    ensures err { OnErr result (out.new ≡ out.old) }
{
    let len = out.len();
    let written = write_peer_record(alloc, v, out);
    if written.is_err() {
        out.truncate(len);
    }
    written
}

/// The body whose text stands before the bytes, and that text's length.
///
/// A fault is told at the length of the longest front of the bytes that some text begins with.
pub fn decode_body(alloc: Global, bytes: &[u8]) -> Result<(Body, usize), RecordFault>
    ensures ok { IfOk result (λ found. Begins body_grammar found.0 found.1 bytes.now) }
    // Promise 2.8 [clauses ok bad]: They are decoded exactly where a prefix of the bytes is a text,
    //   and else the exact place is told where the bytes are bad
    ensures bad { IfErr result (λ fault. IsFaultOf body_grammar bytes.now fault) }
{
    let mut from = Cursor::new(bytes);
    match read_body(alloc, &mut from) {
        Ok(v) => {
            let left = from.left();
            Ok((v, bytes.len() - left))
        }
        Err(ReadFault::Bad(bad)) => Err(RecordFault::BadRecord {
            at: bytes.len() - bad.left,
        }),
        Err(ReadFault::NoMemory) => Err(RecordFault::NoMemory),
    }
}

/// The peer record whose text stands before the bytes, and that text's length.
///
/// A fault is told at the length of the longest front of the bytes that some text begins with.
pub fn decode_peer(alloc: Global, bytes: &[u8]) -> Result<(PeerRecord, usize), RecordFault>
    ensures ok { IfOk result (λ found. Begins peer_grammar found.0 found.1 bytes.now) }
    // Promise 2.8, part 2 [clauses ok bad]
    ensures bad { IfErr result (λ fault. IsFaultOf peer_grammar bytes.now fault) }
{
    let mut from = Cursor::new(bytes);
    match read_peer(alloc, &mut from) {
        Ok(v) => {
            let left = from.left();
            Ok((v, bytes.len() - left))
        }
        Err(ReadFault::Bad(bad)) => Err(RecordFault::BadRecord {
            at: bytes.len() - bad.left,
        }),
        Err(ReadFault::NoMemory) => Err(RecordFault::NoMemory),
    }
}

// Promise 2.6: A body and a peer record have one text for each value that has one, the value is
//   read back from it, and no text is a proper prefix of another
/// A value is read back from its text, whatever follows; what is read of bytes is a text; and no
/// text is a proper front of another.
pub fn texts_are_grammars()
    ensures bodies { IsGrammar body_grammar }
    ensures peers { IsGrammar peer_grammar }
{}
