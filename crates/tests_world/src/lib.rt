//! Tests of a world under a schedule, also with members, and of whole runs of commands.
//!
//! They call what the crates below offer to all, and show what no clause says: that calls succeed with ample memory, and that
//! their answers are those of worked examples. Each module has one subject.
#![tactic(auto)]

#[cfg(test)]
mod commands;
#[cfg(test)]
mod driven;
#[cfg(test)]
mod world;
