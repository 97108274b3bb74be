//! Bodies of a worked stream, however it is cut, and what stops a reader.
use crate::streams::pieces::{ENDS, Pieces, STREAM};
use std::alloc::Global;
use std::test::Fail;
use tp_model::Why;
use tp_names::{NoMemory, Octets};
use tp_outside::MemSource;
use tp_streams::{Intake, Stop};

/// What came of a stream: how many bodies, whether each was the one that stands there and had its number, and the end.
#[derive(Drop)]
struct Came {
    bodies: usize,
    right: bool,
    end: Result<(), Stop>,
}

// One more body, or the end.
fn next(alloc: Global, intake: &mut Intake, source: &mut Pieces) -> Result<Option<Octets>, Stop> {
    intake.next(alloc, source)
}

// Whether the body is the one with that number in the worked stream.
fn is_body(body: &[u8], number: usize) -> bool {
    match number {
        1 => body == &STREAM[2..10],
        2 => body == &STREAM[12..43],
        3 => body == &STREAM[45..50],
        _ => false,
    }
}

// Reads to the end, of at most five frames.
fn read_all(alloc: Global, intake: &mut Intake, source: &mut Pieces) -> Came {
    let mut right = true;
    for bodies in 0..5 {
        match next(alloc, intake, source) {
            Ok(Some(body)) => {
                right = right
                    && intake.at() == bodies as u64 + 1
                    && is_body(body.as_slice(), bodies + 1);
            }
            Ok(None) => return Came {
                bodies,
                right,
                end: Ok(()),
            },
            Err(stop) => return Came {
                bodies,
                right,
                end: Err(stop),
            },
        }
    }
    Came {
        bodies: 5,
        right,
        end: Ok(()),
    }
}

// How many frames of the worked stream stand whole in so many of its bytes.
fn whole_frames(bytes: usize) -> usize {
    ENDS.iter().filter(|end| **end <= bytes).count()
}

#[test]
fn cut_in_two_at_each_place(rt: HostRuntime) -> Result<(), Fail> {
    for cut in 1..STREAM.len() {
        let mut intake = Intake::new(rt.alloc());
        let mut source = Pieces::new(&STREAM, cut, 64, 0);
        let came = read_all(rt.alloc(), &mut intake, &mut source);
        assert!(rt;
            came.right && came.bodies == 3 && came.end == Ok(()),
            "cut after {cut}"
        );
    }
    Ok(())
}

#[test]
fn a_stream_that_ends_at_each_place(rt: HostRuntime) -> Result<(), Fail> {
    for end in 0..=STREAM.len() {
        let mut intake = Intake::new(rt.alloc());
        let mut source = Pieces::new(&STREAM[..end], 1, 1, 0);
        let came = read_all(rt.alloc(), &mut intake, &mut source);
        let whole = whole_frames(end);
        assert!(rt; came.right && came.bodies == whole);
        if end == 0 || ENDS.contains(&end) {
            assert!(rt; came.end == Ok(()), "ends after {end}");
        } else {
            let short = Stop::BadInput {
                at: (whole as u64).saturating_add(1),
                why: Why::Short,
            };
            assert!(rt; came.end == Err(short), "ends after {end}");
            let again = next(rt.alloc(), &mut intake, &mut source);
            assert!(rt; again.err() == Some(short));
        }
    }
    Ok(())
}

#[test]
fn a_source_that_fails_at_each_read(rt: HostRuntime) -> Result<(), Fail> {
    for call in 1..=STREAM.len() + 1 {
        let mut intake = Intake::new(rt.alloc());
        let mut source = Pieces::new(&STREAM, 1, 1, call as u64);
        let came = read_all(rt.alloc(), &mut intake, &mut source);
        let fault = Stop::ReadFault { faults: 1 };
        assert!(rt; came.right && came.bodies == whole_frames(call - 1));
        assert!(rt; came.end == Err(fault), "call {call} fails");
        let again = next(rt.alloc(), &mut intake, &mut source);
        assert!(rt; again.err() == Some(fault));
    }
    Ok(())
}

// A body out of memory that tells what it has left.
fn next_told(
    alloc: Global,
    intake: &mut Intake,
    source: &mut MemSource,
) -> Result<Option<Octets>, Stop> {
    intake.next(alloc, source)
}

#[test]
fn a_bad_length_is_bad_for_good(rt: HostRuntime) -> Result<(), Fail> {
    let bytes = Octets::from_slice(rt.alloc(), &[0, 1, 9, 0, 0, 1])?;
    let mut source = MemSource::new(rt.alloc(), bytes, Octets::new(rt.alloc()));
    let mut intake = Intake::new(rt.alloc());
    let body = next_told(rt.alloc(), &mut intake, &mut source);
    assert!(rt; matches!(body, Ok(Some(_))));
    let bad = Stop::BadInput {
        at: 2,
        why: Why::Length,
    };
    for _ in 0..2 {
        let stopped = next_told(rt.alloc(), &mut intake, &mut source);
        assert!(rt; stopped.err() == Some(bad));
    }
    assert_eq!(rt; intake.at(), 1);
    Ok(())
}

#[test]
fn memory_is_a_stop(rt: HostRuntime) {
    assert!(rt; Stop::from(NoMemory) == Stop::NoMemory);
}
