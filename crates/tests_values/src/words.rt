//! Words of the command line.
use std::alloc::Global;
use tp_words::{Command, Plan, WordsFault, read};

fn is_refused(alloc: Global, words: &[&str]) -> bool {
    matches!(read(alloc, words), Err(WordsFault::Usage))
}

fn plan_of(alloc: Global, words: &[&str]) -> Option<Plan> {
    match read(alloc, words) {
        Ok(Command::Make(plan)) => Some(plan),
        _ => None,
    }
}

#[test]
fn options_and_defaults(rt: HostRuntime) {
    let alloc = rt.alloc();
    let plan = plan_of(alloc, &["make", "--rounds", "30", "--nodes", "256"]).expect(&rt, "taken");
    assert!(rt; plan.number == 1 && plan.nodes == 256 && plan.rounds == 30);
    let plan = plan_of(alloc, &["--number=7", "make"]).expect(&rt, "taken");
    assert!(rt; plan.number == 7 && plan.nodes == 2 && plan.rounds == 1);
}

#[test]
fn no_command_lines(rt: HostRuntime) {
    let alloc = rt.alloc();
    assert!(rt; is_refused(alloc, &[]));
    assert!(rt; is_refused(alloc, &["play"]));
    assert!(rt; is_refused(alloc, &["replay", "--help"]));
    assert!(rt; is_refused(alloc, &["replay", "again"]));
    assert!(rt; is_refused(alloc, &["replay", "--name"]));
    assert!(rt; is_refused(alloc, &["replay", "--name", "A"]));
    assert!(rt; is_refused(alloc, &["make", "--nodes", "257"]));
    assert!(rt; is_refused(alloc, &["make", "--rounds", "0"]));
    assert!(rt; is_refused(alloc, &["make", "--nodes", "2", "--nodes", "2"]));
}
