//! Events of a worked stream, and the limits of a program.
use crate::streams::pieces::{Pieces, STREAM};
use std::alloc::Global;
use std::test::Fail;
use tp_model::{What, Why};
use tp_names::NoMemory;
use tp_records::Event;
use tp_streams::{EventIntake, Stop};

// One more event, or the end.
fn next(
    alloc: Global,
    intake: &mut EventIntake,
    source: &mut Pieces,
) -> Result<Option<Event>, Stop> {
    intake.next(alloc, source)
}

// How many events come, of at most so many, and what ends them.
fn read_all(alloc: Global, bytes: &[u8], most: u64, times: usize) -> (usize, Result<(), Stop>) {
    let mut intake = EventIntake::new(alloc, most);
    let mut source = Pieces::new(bytes, 7, 64, 0);
    for events in 0..times {
        match next(alloc, &mut intake, &mut source) {
            Ok(Some(_)) => {}
            Ok(None) => return (events, Ok(())),
            Err(stop) => return (events, Err(stop)),
        }
    }
    (times, Ok(()))
}

#[test]
fn three_events(rt: HostRuntime) -> Result<(), Fail> {
    let mut intake = EventIntake::new(rt.alloc(), 3);
    let mut source = Pieces::new(&STREAM, 64, 64, 0);
    let first = next(rt.alloc(), &mut intake, &mut source);
    assert!(rt;
        matches!(
            first,
            Ok(Some(Event::Declare {
                node: 2,
                superior: Some(_)
            }))
        )
    );
    let second = next(rt.alloc(), &mut intake, &mut source);
    assert!(rt; matches!(second, Ok(Some(Event::Arrive { .. }))));
    let third = next(rt.alloc(), &mut intake, &mut source);
    assert!(rt; matches!(third, Ok(Some(Event::Do { node: 2, .. }))));
    assert_eq!(rt; intake.at(), 3);
    let end = next(rt.alloc(), &mut intake, &mut source);
    assert!(rt; matches!(end, Ok(None)));
    Ok(())
}

#[test]
fn one_event_too_many(rt: HostRuntime) {
    let limit = Stop::Limit {
        what: What::Events,
        at: 3,
    };
    assert!(rt; read_all(rt.alloc(), &STREAM, 2, 5) == (2, Err(limit)));
}

#[test]
fn a_body_is_one_event(rt: HostRuntime) {
    let bad = Stop::BadInput {
        at: 1,
        why: Why::Body,
    };
    // an output; an event with a byte after it; and one that lacks its last byte
    assert!(rt; read_all(rt.alloc(), &[0, 1, 19], 9, 5) == (0, Err(bad)));
    assert!(rt; read_all(rt.alloc(), &[0, 4, 7, 0, 1, 0], 9, 5) == (0, Err(bad)));
    assert!(rt; read_all(rt.alloc(), &[0, 2, 7, 0], 9, 5) == (0, Err(bad)));
    // a bad body comes before the limit of events
    assert!(rt; read_all(rt.alloc(), &[0, 1, 19], 0, 5) == (0, Err(bad)));
}

// Frames that each declare node 1 as a root, so many times.
fn declarations(alloc: Global, times: usize) -> Result<Vec<u8>, NoMemory> {
    let mut bytes = Vec::new(alloc);
    for _ in 0..times {
        bytes.extend_from_slice(&[0, 4, 1, 0, 1, 0])?;
    }
    Ok(bytes)
}

#[test]
fn declarations_count_again_and_again(rt: HostRuntime) -> Result<(), Fail> {
    let few = declarations(rt.alloc(), 256)?;
    assert!(rt; read_all(rt.alloc(), few.as_slice(), 1000, 300) == (256, Ok(())));
    let many = declarations(rt.alloc(), 257)?;
    let limit = Stop::Limit {
        what: What::Nodes,
        at: 257,
    };
    assert!(rt; read_all(rt.alloc(), many.as_slice(), 1000, 300) == (256, Err(limit)));
    Ok(())
}
