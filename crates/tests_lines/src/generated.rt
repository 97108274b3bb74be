//! Schedules made of a number, beside those of another program.
use crate::values::octets;
use std::alloc::Global;
use tp_generate::{Schedule, make, schedule_of};
use tp_outside::MemSink;
use tp_streams::Stop;

const OF_TWO: &str =
    "node 1 s1\nnode 2 s2 under 1\ndo 1 begin-dialogue 2 scu\ndrain\ndo 2 accept scu\ndrain\ndo 1 begin-transaction 2\ndrain\ndo 1 commit\ndrain\ndo 2 commit\ndrain\ndo 1 done\ndrain\ndo 2 done\ndrain\n";

// How making the first schedule ends where these calls of the sink fail, and the sink.
fn made(alloc: Global, fails: &[u8]) -> Option<(Result<(), Stop>, MemSink)> {
    let mut sink = MemSink::new(alloc, octets(alloc, fails)?);
    let end = make(alloc, 1, 2, 1, &mut sink);
    Some((end, sink))
}

#[test]
fn a_schedule_is_written(rt: HostRuntime) {
    let (end, sink) = made(rt.alloc(), &[]).expect(&rt, "in memory");
    assert!(rt; end.is_ok() && sink.bytes() == OF_TWO.as_bytes());
    let (end, sink) = made(rt.alloc(), &[1]).expect(&rt, "in memory");
    assert!(rt; matches!(end, Err(Stop::WriteFault { faults: 1 })) && sink.bytes().is_empty());
}

const LATE_DRAWS: &str =
    "heur 3 commit\ndrain\ndo 1 done\ndrain\ndo 2 done\ndrain\ndo 3 done\ndrain\n";

fn ends_so(schedule: &Schedule, end: &str) -> bool {
    schedule.text.as_slice().ends_with(end.as_bytes())
}

#[test]
fn draws_go_on(rt: HostRuntime) {
    let late = schedule_of(rt.alloc(), u64::MAX, 3, 2).expect(&rt, "in memory");
    assert!(rt; ends_so(&late, LATE_DRAWS));
    let many = schedule_of(rt.alloc(), 7, 17, 2).expect(&rt, "in memory");
    assert!(rt; many.lines == 251 && many.text.len() == 3211);
}
