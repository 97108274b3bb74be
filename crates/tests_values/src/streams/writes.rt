//! Bytes that go out whole, or stop with the fault of the sink.
use std::alloc::Global;
use std::test::Fail;
use tp_names::Octets;
use tp_outside::MemSink;
use tp_streams::{Stop, write_all};

// Writes three bytes and then two to a sink in memory, whose listed calls fail.
fn write_twice(alloc: Global, fails: Octets) -> (MemSink, Result<(), Stop>) {
    let mut sink = MemSink::new(alloc, fails);
    if let Err(stop) = write_all(&mut sink, &[1, 2, 3]) {
        return (sink, Err(stop));
    }
    let end = write_all(&mut sink, &[4, 5]);
    (sink, end)
}

#[test]
fn all_is_written(rt: HostRuntime) {
    let (sink, end) = write_twice(rt.alloc(), Octets::new(rt.alloc()));
    assert!(rt; end == Ok(()));
    assert!(rt; sink.bytes() == [1, 2, 3, 4, 5].as_slice());
}

#[test]
fn a_write_fails(rt: HostRuntime) -> Result<(), Fail> {
    let (sink, end) = write_twice(rt.alloc(), Octets::from_slice(rt.alloc(), &[2])?);
    assert!(rt; end == Err(Stop::WriteFault { faults: 1 }));
    assert!(rt; sink.bytes() == [1, 2, 3].as_slice());
    Ok(())
}
