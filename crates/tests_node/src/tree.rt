//! What no clause says: that there is room for all subordinates with ample memory, and one node's arcs
//! from the first to the last.
use crate::values::{at_b, mark, units};
use std::alloc::Global;
use tp_dialogue::Dialogue;
use tp_link::LinkState;
use tp_model::Side;
use tp_names::Addr;
use tp_tree::{Invocation, Tie};

// A node with room for so many subordinates, 256 or else 32.
fn made(alloc: Global, node: u16, superior: Option<Addr>, room: u16) -> Option<Invocation> {
    if room == 256 {
        Invocation::new(alloc, node, superior, 256).ok()
    } else {
        Invocation::new(alloc, node, superior, 32).ok()
    }
}

// Node 2 under node 1 of site b.
fn under(alloc: Global, room: u16) -> Option<Invocation> {
    made(alloc, 2, Some(at_b(1)?), room)
}

// Adds an arc where it may be added.
fn add(tree: &mut Invocation, node: u16, bits: u8, side: Side) -> Option<()> {
    let addr = at_b(node)?;
    let units = units(bits)?;
    if tree.get(addr.node).is_some() || !tree.has_room(side) {
        return None;
    }
    tree.add(addr, units, side).ok()
}

// Whether the subordinates have those numbers, in that order.
fn has_below(tree: &Invocation, numbers: &[u16]) -> bool {
    are(tree.subordinates(), numbers)
}

fn are(ties: &[Tie], numbers: &[u16]) -> bool {
    for (tie, number) in ties.iter().zip(numbers) {
        if tie.addr().node != *number {
            return false;
        }
    }
    ties.len() == numbers.len()
}

// Arcs to the subordinates 7, 3 and 5, and before the last to the superior.
fn with_arcs(alloc: Global) -> Option<Invocation> {
    let mut tree = under(alloc, 32)?;
    add(&mut tree, 7, 46, Side::Superior)?;
    add(&mut tree, 3, 1, Side::Superior)?;
    add(&mut tree, 1, 46, Side::Subordinate)?;
    add(&mut tree, 5, 2, Side::Superior)?;
    Some(tree)
}

#[test]
fn a_node_is_under_its_superior(rt: HostRuntime) {
    let Some(tree) = under(rt.alloc(), 32) else {
        panic!(rt; "no memory")
    };
    assert!(rt; tree.node() == 2);
    assert!(rt; tree.superior() == at_b(1));
    assert!(rt; tree.may_root());
}

// An arc is removed, one that is not there too, and it is added again.
fn moved_back(tree: &mut Invocation) -> Option<()> {
    tree.remove(3);
    tree.remove(4);
    add(tree, 3, 1, Side::Superior)
}

#[test]
fn arcs_stand_in_the_order_of_their_asking(rt: HostRuntime) {
    let Some(mut tree) = with_arcs(rt.alloc()) else {
        panic!(rt; "no memory")
    };
    assert!(rt; !tree.has_room(Side::Subordinate));
    assert!(rt; has_below(&tree, &[7, 3, 5]));
    assert!(rt; moved_back(&mut tree).is_some());
    assert!(rt; has_below(&tree, &[7, 5, 3]));
}

// The copy of a tree.
fn copied(alloc: Global, tree: &Invocation) -> Option<Invocation> {
    tree.copy(alloc).ok()
}

#[test]
fn a_copy_has_the_same_arcs(rt: HostRuntime) {
    let Some(tree) = with_arcs(rt.alloc()) else {
        panic!(rt; "no memory")
    };
    let Some(copy) = copied(rt.alloc(), &tree) else {
        panic!(rt; "no memory")
    };
    assert!(rt; has_below(&copy, &[7, 3, 5]));
}

// Whether the dialogue with that node is a fresh one of those units.
fn is_fresh(tree: &Invocation, node: u16, bits: u8) -> Option<bool> {
    let fresh = Dialogue::new(units(bits)?, Side::Superior);
    Some(*tree.find(node)? == fresh)
}

fn has_tie(tree: &mut Invocation, node: u16) -> bool {
    tree.tie(node).is_some()
}

#[test]
fn a_dialogue_is_found_by_its_node(rt: HostRuntime) {
    let Some(mut tree) = with_arcs(rt.alloc()) else {
        panic!(rt; "no memory")
    };
    assert!(rt; matches!(is_fresh(&tree, 7, 46), Some(true)));
    assert!(rt; tree.find(4).is_none());
    assert!(rt; !has_tie(&mut tree, 4));
}

// A call comes on the arc with that node.
fn offer(tree: &mut Invocation, node: u16) -> Option<()> {
    let up = tree.tie(node)?;
    if up.link.state() == LinkState::Idle {
        up.link.offered(mark(1));
    }
    Some(())
}

// And it is answered.
fn accept(tree: &mut Invocation, node: u16) -> Option<()> {
    let up = tree.tie(node)?;
    if up.link.state() == LinkState::Offered {
        up.link.accept(mark(1));
    }
    Some(())
}

// Its dialogue gets other units.
fn change(tree: &mut Invocation, node: u16, bits: u8) -> Option<()> {
    let dialogue = Dialogue::new(units(bits)?, Side::Subordinate);
    let up = tree.tie(node)?;
    up.dialogue = dialogue;
    Some(())
}

#[test]
fn a_live_superior_with_commit_keeps_a_node_from_the_root(rt: HostRuntime) {
    let Some(mut tree) = under(rt.alloc(), 256) else {
        panic!(rt; "no memory")
    };
    assert!(rt; add(&mut tree, 1, 46, Side::Subordinate).is_some());
    assert!(rt; tree.may_root());
    assert!(rt; offer(&mut tree, 1).is_some() && tree.may_root());
    assert!(rt; accept(&mut tree, 1).is_some() && !tree.may_root());
    assert!(rt; change(&mut tree, 1, 6).is_some() && tree.may_root());
}

#[test]
fn a_superior_is_removed(rt: HostRuntime) {
    let Some(mut tree) = with_arcs(rt.alloc()) else {
        panic!(rt; "no memory")
    };
    tree.remove(1);
    assert!(rt; tree.get(1).is_none());
    assert!(rt; tree.has_room(Side::Subordinate));
}

// As many subordinates as there is room for.
fn filled(alloc: Global, room: u16) -> Option<Invocation> {
    let mut tree = made(alloc, 9, None, room)?;
    for node in 0..room {
        add(&mut tree, node.saturating_add(10), 25, Side::Superior)?;
    }
    Some(tree)
}

// Whether so many subordinates have room, and no more.
fn has_room_for(alloc: Global, room: u16) -> Option<bool> {
    let tree = filled(alloc, room)?;
    let count = tree.subordinates().len();
    let is_full = !tree.has_room(Side::Superior) && tree.has_room(Side::Subordinate);
    Some(is_full && count == usize::from(room))
}

#[test]
fn there_is_room_for_all(rt: HostRuntime) {
    assert!(rt; matches!(has_room_for(rt.alloc(), 32), Some(true)));
    assert!(rt; matches!(has_room_for(rt.alloc(), 256), Some(true)));
}
