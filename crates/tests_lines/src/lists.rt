//! The lists of the definitions grow, and causes and limits have texts.
use std::alloc::Global;
use std::fmt::Display;
use tp_model::{NodeNumbers, OutLine, OutLines, TxOut, TxOuts, What, Why};
use tp_records::Indication;

// The number of outputs after one is put into an empty list.
fn outputs(alloc: Global) -> Option<usize> {
    let mut outs = TxOuts::new(alloc);
    outs.push(alloc, TxOut::Tell(Indication::Commit)).ok()?;
    Some(outs.as_slice().len())
}

// The same of lines.
fn lines(alloc: Global) -> Option<usize> {
    let mut lines = OutLines::new(alloc);
    lines.push(alloc, OutLine::Take { frame: 7 }).ok()?;
    Some(lines.as_slice().len())
}

// The last of a hundred numbers.
fn last_number(alloc: Global) -> Option<u16> {
    let mut numbers = NodeNumbers::new(alloc);
    for number in 1..=100u16 {
        numbers.push(alloc, number).ok()?;
    }
    numbers.as_slice().last().copied()
}

#[test]
fn lists_grow(rt: HostRuntime) {
    assert!(rt; matches!(outputs(rt.alloc()), Some(1)));
    assert!(rt; matches!(lines(rt.alloc()), Some(1)));
    assert!(rt; matches!(last_number(rt.alloc()), Some(100)));
}

fn is_shown_as(alloc: Global, value: &impl Display, text: &str) -> bool {
    match value.to_string(alloc) {
        Ok(shown) => shown.as_str() == text,
        Err(_) => false,
    }
}

const CAUSES: &[(Why, &str)] = &[
    (Why::Long, "long"),
    (Why::Word, "word"),
    (Why::Number, "number"),
    (Why::Name, "name"),
    (Why::Short, "short"),
    (Why::Length, "length"),
    (Why::Body, "body"),
];

#[test]
fn causes_have_texts(rt: HostRuntime) {
    for (why, text) in CAUSES {
        assert!(rt; is_shown_as(rt.alloc(), why, text));
    }
}

const LIMITS: &[(What, &str)] = &[
    (What::Schedule, "schedule"),
    (What::Sites, "sites"),
    (What::Nodes, "nodes"),
    (What::Frames, "frames"),
    (What::Answers, "answers"),
    (What::Events, "events"),
    (What::Log, "log"),
    (What::Boots, "boots"),
];

#[test]
fn limits_have_texts(rt: HostRuntime) {
    for (what, text) in LIMITS {
        assert!(rt; is_shown_as(rt.alloc(), what, text));
    }
}
