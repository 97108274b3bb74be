//! The bytes of events, outputs and bodies.
ghost use Rattle.std.specs.Prelude.{◌≡◌, ◌++◌, ◌∷◌, OnOk, OnErr};
ghost use Rattle.tp_names.specs.Scanning.{GivesUnlessFull, scan_make, ◌with◌, scan_byte_that, scan_short, scan_maybe, scan_addr, scan_octets, scan_outcome};
ghost use Rattle.tp_names.specs.Bytes.{short_bytes, addr_bytes, octets_bytes};
ghost use Rattle.tp_names.specs.Writing.{Keeps};
ghost use Rattle.tp_records.specs.Bodies.{event_bytes, output_bytes, body_bytes};
ghost use Rattle.tp_records.specs.BodyReading.{is_refusal};
ghost use Rattle.tp_records.specs.BodyScanning.{scan_request, scan_indication};
ghost use Rattle.tp_records.specs.SentScanning.{scan_sent};
ghost use Rattle.tp_records.specs.WholeScanning.{scan_body};
ghost use Rattle.tp_records.specs.declared.body.Event.{Event};
ghost use Rattle.tp_records.specs.declared.body.Output.{Output};
ghost use Rattle.tp_records.specs.declared.body.Body.{Body};

use super::{Body, Event, Output};
use crate::fields::{write_counted, write_numbered};
use crate::indication::bytes::{read_indication, write_indication};
use crate::peer::sized::read_peer_octets;
use crate::request::bytes::{read_request, write_request};
use std::alloc::Global;
use tp_names::{
    Addr, BadBytes, Cursor, NoMemory, Octets, ReadFault, write_addr, write_byte, write_maybe_addr,
    write_outcome, write_short,
};

/// Reads a body.
#[tactic(auto, unfolding(crate::specs::WholeScanning::scan_body))]
pub(crate) fn read_body(alloc: Global, from: &mut Cursor) -> Result<Body, ReadFault>
    ensures { GivesUnlessFull result from.new (scan_body from.old) }
{
    let left = from.left();
    match from.code()? {
        1 => declare(from),
        2 => request(alloc, from),
        3 => arrive(alloc, from),
        4 => lose(from),
        5 => heur(from),
        6 => give_up(from),
        7 => Ok(Body::Event(Event::Retry {
            node: from.short()?,
        })),
        8 => Ok(Body::Event(Event::Purge {
            node: from.short()?,
        })),
        16 => tell(alloc, from),
        17 => send(alloc, from),
        18 => refused(from),
        19 => Ok(Body::Output(Output::Over)),
        _ => Err(ReadFault::Bad(BadBytes { left })),
    }
}

fn declare(from: &mut Cursor) -> Result<Body, ReadFault>
    ensures { GivesUnlessFull result from.new ((scan_make (λ n s. Body.Event (Event.Declare n s)) with scan_short with scan_maybe scan_addr) from.old) }
{
    let node = from.short()?;
    let superior = from.maybe_addr()?;
    Ok(Body::Event(Event::Declare { node, superior }))
}

fn request(alloc: Global, from: &mut Cursor) -> Result<Body, ReadFault>
    ensures { GivesUnlessFull result from.new ((scan_make (λ n r. Body.Event (Event.Do n r)) with scan_short with scan_request) from.old) }
{
    let node = from.short()?;
    let request = read_request(alloc, from)?;
    Ok(Body::Event(Event::Do { node, request }))
}

fn arrive(alloc: Global, start: &mut Cursor) -> Result<Body, ReadFault>
    ensures { GivesUnlessFull result start.new
        ((scan_make (λ from to xs. Body.Event (Event.Arrive from to xs)) with scan_addr with scan_addr with scan_octets 2000) start.old) }
{
    let from = start.addr()?;
    let to = start.addr()?;
    let octets = start.octets(alloc, 2000)?;
    Ok(Body::Event(Event::Arrive { from, to, octets }))
}

fn lose(from: &mut Cursor) -> Result<Body, ReadFault>
    ensures { GivesUnlessFull result from.new ((scan_make (λ n p. Body.Event (Event.Lose n p)) with scan_short with scan_short) from.old) }
{
    let node = from.short()?;
    let peer = from.short()?;
    Ok(Body::Event(Event::Lose { node, peer }))
}

fn heur(from: &mut Cursor) -> Result<Body, ReadFault>
    ensures { GivesUnlessFull result from.new ((scan_make (λ n o. Body.Event (Event.Heur n o)) with scan_short with scan_outcome) from.old) }
{
    let node = from.short()?;
    let outcome = from.outcome()?;
    Ok(Body::Event(Event::Heur { node, outcome }))
}

fn give_up(from: &mut Cursor) -> Result<Body, ReadFault>
    ensures { GivesUnlessFull result from.new ((scan_make (λ n p. Body.Event (Event.GiveUp n p)) with scan_short with scan_short) from.old) }
{
    let node = from.short()?;
    let peer = from.short()?;
    Ok(Body::Event(Event::GiveUp { node, peer }))
}

fn tell(alloc: Global, from: &mut Cursor) -> Result<Body, ReadFault>
    ensures { GivesUnlessFull result from.new ((scan_make (λ n i. Body.Output (Output.Tell n i)) with scan_short with scan_indication) from.old) }
{
    let node = from.short()?;
    let indication = read_indication(alloc, from)?;
    Ok(Body::Output(Output::Tell { node, indication }))
}

fn send(alloc: Global, start: &mut Cursor) -> Result<Body, ReadFault>
    ensures { GivesUnlessFull result start.new
        ((scan_make (λ from to xs. Body.Output (Output.Send from to xs)) with scan_addr with scan_addr with scan_sent) start.old) }
{
    let from = start.addr()?;
    let to = start.addr()?;
    let octets = read_peer_octets(alloc, start)?;
    Ok(Body::Output(Output::Send { from, to, octets }))
}

fn refused(from: &mut Cursor) -> Result<Body, ReadFault>
    ensures { GivesUnlessFull result from.new ((scan_make (λ k. Body.Output (Output.Refused k)) with scan_byte_that is_refusal) from.old) }
{
    let left = from.left();
    let number = from.code()?;
    if matches!(number, 1..=17 | 21..=25) {
        Ok(Body::Output(Output::Refused { number }))
    } else {
        Err(ReadFault::Bad(BadBytes { left }))
    }
}

/// Writes a body.
pub(crate) fn write_body(alloc: Global, body: &Body, out: &mut Octets) -> Result<(), NoMemory>
    ensures ok { OnOk result (out.new ≡ out.old ++ body_bytes body.now) }
    ensures err { OnErr result (Keeps out.old out.new) }
{
    match body {
        Body::Event(event) => write_event(alloc, event, out),
        Body::Output(output) => write_output(alloc, output, out),
    }
}

fn write_event(alloc: Global, event: &Event, out: &mut Octets) -> Result<(), NoMemory>
    ensures ok { OnOk result (out.new ≡ out.old ++ event_bytes event.now) }
    ensures err { OnErr result (Keeps out.old out.new) }
{
    match event {
        Event::Declare { node, superior } => {
            write_numbered(alloc, 1, *node, out)?;
            write_maybe_addr(alloc, superior, out)
        }
        Event::Do { node, request } => {
            write_numbered(alloc, 2, *node, out)?;
            write_request(alloc, request, out)
        }
        Event::Arrive { from, to, octets } => write_carried(alloc, 3, from, to, octets, out),
        Event::Lose { node, peer } => write_at_peer(alloc, 4, *node, *peer, out),
        Event::Heur { node, outcome } => {
            write_numbered(alloc, 5, *node, out)?;
            write_outcome(alloc, *outcome, out)
        }
        Event::GiveUp { node, peer } => write_at_peer(alloc, 6, *node, *peer, out),
        Event::Retry { node } => write_numbered(alloc, 7, *node, out),
        Event::Purge { node } => write_numbered(alloc, 8, *node, out),
    }
}

// Promise 2.7, part 3
/// Puts the text of an output at the end of `out`. Without memory a part of it may be there. Octets that are too many for a
/// count of two bytes are answered as if there were no memory.
pub fn write_output(alloc: Global, output: &Output, out: &mut Octets) -> Result<(), NoMemory>
    ensures ok { OnOk result (out.new ≡ out.old ++ output_bytes output.now) }
    ensures err { OnErr result (Keeps out.old out.new) }
{
    match output {
        Output::Tell { node, indication } => {
            write_numbered(alloc, 16, *node, out)?;
            write_indication(alloc, indication, out)
        }
        Output::Send { from, to, octets } => write_carried(alloc, 17, from, to, octets, out),
        Output::Refused { number } => {
            out.push(alloc, 18)?;
            write_byte(alloc, *number, out)
        }
        Output::Over => out.push(alloc, 19),
    }
}

/// A code, the numbers of a node and of its peer.
fn write_at_peer(
    alloc: Global,
    code: u8,
    node: u16,
    peer: u16,
    out: &mut Octets,
) -> Result<(), NoMemory>
    ensures ok { OnOk result (out.new ≡ out.old ++ (code ∷ short_bytes node ++ short_bytes peer)) }
    ensures err { OnErr result (Keeps out.old out.new) }
{
    write_numbered(alloc, code, node, out)?;
    write_short(alloc, peer, out)
}

/// A code, and octets that go from one node to another.
fn write_carried(
    alloc: Global,
    code: u8,
    from: &Addr,
    to: &Addr,
    octets: &Octets,
    out: &mut Octets,
) -> Result<(), NoMemory>
    ensures ok { OnOk result (out.new ≡ out.old ++ (code ∷ addr_bytes from.now ++ addr_bytes to.now ++ octets_bytes octets.now)) }
    ensures err { OnErr result (Keeps out.old out.new) }
{
    out.push(alloc, code)?;
    write_addr(alloc, from, out)?;
    write_addr(alloc, to, out)?;
    write_counted(alloc, octets, out)
}
