//! Tests of the definitions' lists, of the two languages of lines, and of schedules made of a number.
//!
//! They call what the crates below offer to all, and show what no clause says: texts from outside, worked
//! examples, and that calls succeed. Each module has one subject.
#![tactic(auto)]

#[cfg(test)]
mod generated;
#[cfg(test)]
mod lists;
#[cfg(test)]
mod log_texts;
#[cfg(test)]
mod schedule_examples;
#[cfg(test)]
mod schedule_faults;
#[cfg(test)]
mod schedule_texts;
#[cfg(test)]
mod streams;
#[cfg(test)]
mod transcript_examples;
#[cfg(test)]
mod transcript_faults;
#[cfg(test)]
mod transcript_texts;
#[cfg(test)]
mod values;
