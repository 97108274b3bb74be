//! A line of a schedule, which a program plays with its members alone.
use std::alloc::Global;
use tp_schedule::read_line;
use tp_world::World;

// How many lines a world shows of the declaration of a node.
fn shown(alloc: Global) -> Option<usize> {
    let line = read_line(alloc, b"node 1 a").ok()??;
    let mut world = World::new(alloc);
    let lines = world.line(alloc, &line).ok()?;
    Some(lines.as_slice().len())
}

#[test]
fn a_line_is_played(rt: HostRuntime) {
    assert!(rt; shown(rt.alloc()) == Some(2));
}
