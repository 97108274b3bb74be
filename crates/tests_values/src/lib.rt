//! Tests of the values and their texts: names, words, units, records, frames, and records of a log; and of streams of frames.
//!
//! It holds tests alone, over the public calls of the crates that it stands on. Each tests what no
//! contract says: worked examples, printed text, that each call can succeed, and what is read of a source that tells
//! nothing of its bytes, comes in pieces, or fails.
#![tactic(auto)]

#[cfg(test)]
mod framing;
#[cfg(test)]
mod logrec;
#[cfg(test)]
mod names;
#[cfg(test)]
mod records;
#[cfg(test)]
mod streams;
#[cfg(test)]
mod units;
#[cfg(test)]
mod words;
