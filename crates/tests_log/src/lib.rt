//! Tests of the log's crates, over their public calls: files and standard streams, a log on a file, and the store that is
//! bound to a log.
#![tactic(auto)]

#[cfg(test)]
mod bound;
#[cfg(test)]
mod journal;
#[cfg(test)]
mod outside;
