//! What the replay of a schedule came to, in six counts.
ghost use Rattle.std.specs.Prelude.{◌≡◌, ◌++◌, OnOk, OnErr};
ghost use Rattle.tp_names.specs.Writing.{Keeps};
ghost use Rattle.tp_model.specs.Generator.{summary_line};
ghost use Rattle.tp_generate.specs.Counts.{summary_of_counts, AreCounts, IsUpTo, with_line};

use itoa::Buffer;
use std::alloc::Global;
use tp_model::OutLine;
use tp_names::{NoMemory, Octets, Outcome};

/// Of how many trees all nodes committed, all rolled back, some did otherwise, and some have not ended.
#[derive(Clone, Copy)]
struct Endings {
    commits: u64,
    rollbacks: u64,
    mixed: u64,
    open_trees: u64,
}

// Promise 2.37: The summary of a replay of so many lines and frames tells these numbers, and how
//   many trees ended each way by its closing lines, to the byte
/// Puts the summary of a replay of so many lines, which sent so many frames and was closed by these lines, at the end of
/// `out`: how many lines and frames there were, and of how many trees all nodes committed, all rolled back, some did
/// otherwise, and some have not ended. Each count stands on a line after its word. Without memory part of it may
/// stand there.
pub fn write_summary(
    alloc: Global,
    lines: u64,
    frames: u64,
    closing: &[OutLine],
    out: &mut Octets,
) -> Result<(), NoMemory>
    ensures ok { OnOk result (out.new ≡ out.old ++ summary_of_counts lines frames closing.now) }
    ensures err { OnErr result (Keeps out.old out.new) }
{
    let endings = count(closing);
    write_count(alloc, "lines", lines, out)?;
    write_count(alloc, "frames", frames, out)?;
    write_count(alloc, "commit", endings.commits, out)?;
    write_count(alloc, "rollback", endings.rollbacks, out)?;
    write_count(alloc, "mixed", endings.mixed, out)?;
    write_count(alloc, "open", endings.open_trees, out)?;
    Ok(())
}

fn count(closing: &[OutLine]) -> Endings
    ensures { AreCounts closing.now result }
{
    let mut endings = Endings {
        commits: 0,
        rollbacks: 0,
        mixed: 0,
        open_trees: 0,
    };
    for line in closing {
        endings = counted_with(endings, line);
    }
    endings
}

fn counted_with(endings: Endings, line: &OutLine) -> Endings
    requires { IsUpTo 18446744073709551614 endings }
    ensures { result ≡ with_line endings line.now }
{
    match line {
        OutLine::Agreed {
            outcome: Outcome::Commit,
            ..
        } => Endings {
            commits: endings.commits + 1,
            ..endings
        },
        OutLine::Agreed {
            outcome: Outcome::Rollback,
            ..
        } => Endings {
            rollbacks: endings.rollbacks + 1,
            ..endings
        },
        OutLine::Mixed { .. } => Endings {
            mixed: endings.mixed + 1,
            ..endings
        },
        OutLine::Open { .. } => Endings {
            open_trees: endings.open_trees + 1,
            ..endings
        },
        _ => endings,
    }
}

// A word and a count, on a line.
#[tactic(auto, using(crate::proofs::Counting::count_written))]
fn write_count(alloc: Global, word: &str, count: u64, out: &mut Octets) -> Result<(), NoMemory>
    ensures ok { OnOk result (out.new ≡ out.old ++ summary_line word.now count) }
    ensures err { OnErr result (Keeps out.old out.new) }
{
    let mut digits = Buffer::new();
    out.extend_from_slice(alloc, word.as_bytes())?;
    out.push(alloc, b' ')?;
    out.extend_from_slice(alloc, digits.format(count).as_bytes())?;
    out.push(alloc, b'\n')?;
    Ok(())
}
