//! The lines that close a recording: what each node did in trees, as its site is played, and one line for each tree.
//!
//! What happened first at two sites is not recorded. No closing line depends on it.
#![tactic(auto)]

mod trees;

ghost use Rattle.tp_closing.specs.Closing.{ClosesEveryRun};

pub use trees::{Shown, Trees, words_behind};

// Promise 22.30 [tp_closing/specs/Closing.antt]: **No closing line depends on what happened first
//   at two sites**: what each node went through tells the trees of every run that the deeds of a
//   recording are, each once, and for each of them the closing line of that run
/// Every run that the deeds of a recording are closes with the lines that are told of the recording, in whatever order the deeds of
/// its sites happened.
pub fn closing_lines_are_those_of_every_run()
    ensures { ClosesEveryRun }
{}
