//! How the schedule of a number is made, line by line.
ghost use Rattle.std.specs.Prelude.{◌≡◌, ◌≤◌, ◌-◌, ◌++◌, ◌∷◌, [], suc, IfOk, OnOk};
ghost use Rattle.tp_model.specs.declared.line.Line.{Line};
ghost use Rattle.tp_model.specs.Generator.{from_on, round, round_lines, votes, vote_lines};
ghost use Rattle.tp_generate.specs.Parts.{part_lines, node_lines_of};
ghost use Rattle.tp_generate.specs.Making.{so_far, with_line, with_lines, opening_lines, IsScheduleOf};

use crate::draws::{drawn, next_state};
use crate::lines::part_line;
use crate::part::Part;
use crate::schedule::Schedule;
use std::alloc::Global;
use tp_model::{Line, LineRequest};
use tp_names::{NoMemory, Outcome};
use tp_schedule::write_line;

// Promise 2.35: The schedule of a number is made as the definitions make it, to the byte, and its
//   lines are counted
/// The schedule of this number, for a tree of `nodes` nodes, 256 at most, that ends a transaction in each of `rounds`
/// rounds.
pub fn schedule_of(alloc: Global, number: u64, nodes: u16, rounds: u8) -> Result<Schedule, NoMemory>
    requires { nodes ≤ 256 }
    ensures { IfOk result (IsScheduleOf number nodes rounds) }
{
    let mut made = Schedule::new(alloc);
    write_opening(alloc, nodes, &mut made)?;
    write_rounds(alloc, number, nodes, rounds, &mut made)?;
    Ok(made)
}

// The nodes and their dialogues.
fn write_opening(alloc: Global, nodes: u16, made: &mut Schedule) -> Result<(), NoMemory>
    requires { nodes ≤ 256 }
    ensures { OnOk result (so_far made.new ≡ with_lines (so_far made.old) (opening_lines nodes)) }
{
    write_part(alloc, Part::Declared, 1, nodes, made)?;
    write_part(alloc, Part::Opened, 2, nodes, made)?;
    put(alloc, &Line::Drain, made)?;
    write_part(alloc, Part::Accepted, 2, nodes, made)?;
    put(alloc, &Line::Drain, made)?;
    Ok(())
}

fn write_rounds(
    alloc: Global,
    number: u64,
    nodes: u16,
    rounds: u8,
    made: &mut Schedule,
) -> Result<(), NoMemory>
    requires { nodes ≤ 256 }
    ensures { OnOk result (so_far made.new ≡ with_lines (so_far made.old) (round_lines rounds nodes number)) }
{
    let mut state = number;
    for turn in 0..rounds {
        state = write_round(alloc, state, nodes, made)?;
    }
    Ok(())
}

// One transaction of the whole tree: the state of the draws after it.
fn write_round(alloc: Global, state: u64, nodes: u16, made: &mut Schedule) -> Result<u64, NoMemory>
    requires { nodes ≤ 256 }
    ensures state { IfOk result (λ s. s ≡ (round nodes state).state) }
    ensures lines { OnOk result (so_far made.new ≡ with_lines (so_far made.old) (round nodes state).lines) }
{
    write_part(alloc, Part::Begun, 2, nodes, made)?;
    put_do(alloc, 1, LineRequest::Commit, made)?;
    put(alloc, &Line::Drain, made)?;
    let state = write_votes(alloc, state, nodes, made)?;
    write_part(alloc, Part::Done, 1, nodes, made)?;
    Ok(state)
}

// What each node below the root does by its draw: the state of the draws after it.
fn write_votes(alloc: Global, state: u64, nodes: u16, made: &mut Schedule) -> Result<u64, NoMemory>
    requires { nodes ≤ 256 }
    ensures state { IfOk result (λ s. s ≡ (votes nodes state (from_on 2 (nodes - 1))).state) }
    ensures lines { OnOk result (so_far made.new ≡ with_lines (so_far made.old) (votes nodes state (from_on 2 (nodes - 1))).lines) }
{
    let mut state = state;
    for node in 2..nodes + 1 {
        state = next_state(state);
        write_vote(alloc, node, drawn(state) % (8 * u64::from(nodes)), made)?;
    }
    Ok(state)
}

fn write_vote(alloc: Global, node: u16, draw: u64, made: &mut Schedule) -> Result<(), NoMemory>
    ensures { OnOk result (so_far made.new ≡ with_lines (so_far made.old) (vote_lines node draw ++ Line.Drain ∷ [])) }
{
    if draw == 0 {
        put_do(alloc, node, LineRequest::Rollback, made)?;
    } else {
        put_do(alloc, node, LineRequest::Commit, made)?;
    }
    if draw == 1 {
        put_heuristic(alloc, node, Outcome::Rollback, made)?;
    } else if draw == 2 {
        put_heuristic(alloc, node, Outcome::Commit, made)?;
    }
    put(alloc, &Line::Drain, made)
}

// The lines of a part, from this node to the last.
fn write_part(
    alloc: Global,
    part: Part,
    first: u16,
    nodes: u16,
    made: &mut Schedule,
) -> Result<(), NoMemory>
    requires few { nodes ≤ 256 }
    requires first { 1 ≤ first }
    ensures { OnOk result (so_far made.new ≡ with_lines (so_far made.old) (part_lines part (from_on first (suc nodes - first)))) }
{
    for node in first..nodes + 1 {
        write_node(alloc, part, node, made)?;
    }
    Ok(())
}

fn write_node(alloc: Global, part: Part, node: u16, made: &mut Schedule) -> Result<(), NoMemory>
    requires { 1 ≤ node }
    ensures { OnOk result (so_far made.new ≡ with_lines (so_far made.old) (node_lines_of part node)) }
{
    put(alloc, &part_line(part, node), made)?;
    match part {
        Part::Begun | Part::Done => put(alloc, &Line::Drain, made),
        Part::Declared | Part::Opened | Part::Accepted => Ok(()),
    }
}

fn put_do(
    alloc: Global,
    node: u16,
    request: LineRequest,
    made: &mut Schedule,
) -> Result<(), NoMemory>
    ensures { OnOk result (so_far made.new ≡ with_line (so_far made.old) (Line.Do node request)) }
{
    put(alloc, &Line::Do { node, request }, made)
}

fn put_heuristic(
    alloc: Global,
    node: u16,
    outcome: Outcome,
    made: &mut Schedule,
) -> Result<(), NoMemory>
    ensures { OnOk result (so_far made.new ≡ with_line (so_far made.old) (Line.Heur node outcome)) }
{
    put(alloc, &Line::Heur { node, outcome }, made)
}

// One line, with its end.
fn put(alloc: Global, line: &Line, made: &mut Schedule) -> Result<(), NoMemory>
    ensures { OnOk result (so_far made.new ≡ with_line (so_far made.old) line.now) }
{
    write_line(alloc, line, &mut made.text)?;
    made.text.push(alloc, b'\n')?;
    // Each line has a byte, and bytes are counted: so are lines.
    let _bytes = made.text.len();
    made.lines += 1;
    Ok(())
}
