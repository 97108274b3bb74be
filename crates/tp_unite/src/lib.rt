//! The streams of several sites are one deployment, checked: each site is played again from what its processes were given, and its
//! steps are woven into one order, in which each record that a node takes was said to it before.
#![tactic(auto)]

mod letters;
mod placing;
mod playing;
mod recording;
mod verdict;

pub use verdict::{Verdict, unite};
