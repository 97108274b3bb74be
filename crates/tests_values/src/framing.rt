//! Frames cut in every way, bad lengths at their places, and a large run.
ghost use Rattle.std.specs.Prelude.{◌≡◌, ◌+◌, ◌^◌, ◌<◌, ◌≤◌, length};
ghost use Rattle.tp_framing.specs.Fed.{fed_so_far};

use std::alloc::Global;
use tp_framing::{BadFrame, Frames, LONGEST};
use tp_names::NoMemory;

/// Takes all bodies that can be had to the end of a list, and tells the place of the bad length after them.
fn take_all(
    alloc: Global,
    frames: &mut Frames,
    out: &mut Vec<Vec<u8>>,
) -> Result<Option<u64>, NoMemory>
    ensures { fed_so_far frames.new ≡ fed_so_far frames.old }
{
    loop {
        match frames.next() {
            Err(bad) => return Ok(Some(bad.at)),
            Ok(None) => return Ok(None),
            Ok(Some(body)) => out.push(body.to_vec(alloc)?)?,
        }
    }
}

/// What came of bytes that were fed in two pieces: the bodies, the places of a bad length after each
/// piece, and how many bytes are pending.
#[derive(Drop)]
struct Taken {
    bodies: Vec<Vec<u8>>,
    bad: (Option<u64>, Option<u64>),
    pending: usize,
}

fn fed(alloc: Global, bytes: &[u8], cut: usize) -> Result<Taken, NoMemory>
    requires { cut ≤ length bytes.now }
{
    let mut frames = Frames::new(alloc);
    let mut bodies = Vec::new(alloc);
    let (one, two) = bytes.split_at(cut);
    frames.feed(alloc, one)?;
    let first = take_all(alloc, &mut frames, &mut bodies)?;
    frames.feed(alloc, two)?;
    let last = take_all(alloc, &mut frames, &mut bodies)?;
    Ok(Taken {
        bodies,
        bad: (first, last),
        pending: frames.pending(),
    })
}

const STREAM: &[u8] = &[0, 3, 1, 2, 3, 0, 1, 9, 0, 2, 0, 0];

fn is_that_stream(bodies: &[Vec<u8>]) -> bool {
    match bodies {
        [a, b, c] => a.as_slice() == [1, 2, 3].as_slice()
            && b.as_slice() == [9].as_slice()
            && c.as_slice() == [0, 0].as_slice(),
        _ => false,
    }
}

fn is_whole(taken: &Result<Taken, NoMemory>) -> bool {
    match taken {
        Ok(
            Taken {
                bodies,
                bad: (None, None),
                pending: 0,
            },
        ) => is_that_stream(bodies),
        _ => false,
    }
}

#[test]
fn cut_after_each_byte(rt: HostRuntime) {
    for cut in 0..=STREAM.len() {
        assert!(rt; is_whole(&fed(rt.alloc(), STREAM, cut)), "cut after {cut}");
    }
}

/// How many bodies came of what is no more than a front of frames, and how many bytes are pending.
fn part(alloc: Global, bytes: &[u8]) -> Option<(usize, usize)> {
    let fed = fed(alloc, bytes, 0).ok()?;
    match fed.bad {
        (None, None) => Some((fed.bodies.len(), fed.pending)),
        _ => None,
    }
}

#[test]
fn part_of_a_frame_is_pending(rt: HostRuntime) {
    let part = part(rt.alloc(), &STREAM[..11]);
    assert!(rt; matches!(part, Some((2, 3))));
}

/// How many bodies came before a bad length, and its place as it is told after each piece.
fn bad(alloc: Global, bytes: &[u8], cut: usize) -> Option<(usize, u64, u64)>
    requires { cut ≤ length bytes.now }
{
    let fed = fed(alloc, bytes, cut).ok()?;
    let (first, last) = fed.bad;
    Some((fed.bodies.len(), first?, last?))
}

#[test]
fn zero_is_a_bad_length(rt: HostRuntime) {
    let bad = bad(rt.alloc(), &[0, 0], 2);
    assert!(rt; matches!(bad, Some((0, 0, 0))));
}

#[test]
fn one_past_the_longest_is_a_bad_length_for_good(rt: HostRuntime) {
    // A stream of frames comes after it.
    let bytes = [0, 3, 7, 7, 7, 8, 1, 0, 3, 1, 2, 3, 0, 1, 9];
    let bad = bad(rt.alloc(), &bytes, 7);
    assert!(rt; matches!(bad, Some((1, 5, 5))));
}

fn is_shown_as(alloc: Global, bad: BadFrame, text: &str) -> bool {
    match bad.to_string(alloc) {
        Ok(shown) => shown.as_str() == text,
        Err(_) => false,
    }
}

#[test]
fn a_bad_length_has_a_text(rt: HostRuntime) {
    let bad = BadFrame { at: 5 };
    assert!(rt; is_shown_as(rt.alloc(), bad, "bad length of a frame at byte 5"));
}

/// Whether the longest body, of such bytes, comes whole.
fn comes_whole(alloc: Global, byte: u8) -> Result<bool, NoMemory> {
    let mut stream = Vec::new(alloc);
    stream.extend_from_slice(&[8, 0])?;
    for _ in 0..LONGEST {
        stream.push(byte)?;
    }
    let taken = fed(alloc, stream.as_slice(), 0)?;
    match taken.bodies.as_slice() {
        [body] => Ok(body.len() == LONGEST && body.iter().all(|b| *b == byte)),
        _ => Ok(false),
    }
}

#[test]
fn the_longest_body(rt: HostRuntime) {
    assert!(rt; matches!(comes_whole(rt.alloc(), 5), Ok(true)));
}

/// Feeds a small frame and takes it, so many times; the number of bodies that came.
fn small_frames(alloc: Global, frames: &mut Frames, times: u32) -> Result<u32, NoMemory>
    requires { fed_so_far frames.old < 2 ^ 32 }
{
    let mut taken = 0;
    for _round in 0..times {
        frames.feed(alloc, &[0, 1, 4])?;
        if let Ok(Some([4])) = frames.next() {
            taken += 1;
        }
    }
    Ok(taken)
}

#[test]
fn a_million_small_frames(rt: HostRuntime) {
    let mut frames = Frames::new(rt.alloc());
    let taken = small_frames(rt.alloc(), &mut frames, 1_000_000);
    assert!(rt; matches!(taken, Ok(1_000_000)));
    assert!(rt; frames.pending() == 0);
}

fn small_frames_at_once(alloc: Global, times: u32) -> Result<usize, NoMemory> {
    let mut stream = Vec::new(alloc);
    for _ in 0..times {
        stream.extend_from_slice(&[0, 1, 4])?;
    }
    let taken = fed(alloc, stream.as_slice(), 0)?;
    Ok(taken.bodies.len())
}

#[test]
fn a_million_small_frames_at_once(rt: HostRuntime) {
    let taken = small_frames_at_once(rt.alloc(), 1_000_000);
    assert!(rt; matches!(taken, Ok(1_000_000)));
}
