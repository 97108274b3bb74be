//! What no clause says: one association from its call to its loss, with numbers from outside.
use crate::values::mark;
use tp_link::{Link, LinkState};
use tp_names::Mark;

// The mark of the node that answers.
const Y: Mark = Mark {
    boot: 1,
    node: 2,
    count: 1,
};

// A call whose answer is awaited.
fn called(x: Mark) -> Link {
    let mut caller = Link::idle();
    caller.call(x);
    caller
}

// The number by which an answer is dropped, 0 where it is not.
fn bound(caller: &mut Link, x: Mark, y: Mark) -> u8 {
    match caller.bound(x, y) {
        Ok(()) => 0,
        Err(dropped) => dropped.refusal().number(),
    }
}

// The same of a record with that number.
fn taken(caller: &mut Link, x: Mark, y: Mark, sequence: u64) -> u8 {
    match caller.take(x, y, sequence) {
        Ok(()) => 0,
        Err(dropped) => dropped.refusal().number(),
    }
}

#[test]
fn a_call_is_answered_once(rt: HostRuntime) {
    let x = mark(1);
    let mut caller = called(x);
    assert!(rt; caller.marks() == (Some(x), None));
    assert!(rt; bound(&mut caller, Y, Y) == 21);
    assert!(rt; bound(&mut caller, x, Y) == 0);
    assert!(rt; caller.left() == u64::MAX);
}

#[test]
fn records_are_taken_in_turn_up_to_the_loss(rt: HostRuntime) {
    let x = mark(1);
    let mut caller = called(x);
    assert!(rt; bound(&mut caller, x, Y) == 0);
    assert!(rt; taken(&mut caller, x, Y, 1) == 22);
    assert!(rt; taken(&mut caller, x, Y, 0) == 0);
    assert!(rt; taken(&mut caller, x, Y, 0) == 22);
    assert!(rt; taken(&mut caller, x, x, 1) == 21);
    caller.lose();
    assert!(rt; caller.state() == LinkState::Idle);
    assert!(rt; taken(&mut caller, x, Y, 1) == 21);
}
