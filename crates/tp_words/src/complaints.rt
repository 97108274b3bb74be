//! What is wrong with words that are no command line. No clause says what the sentence is.
use crate::{command_line, drive_line};
use clap::Error;
use std::alloc::Global;
use tp_names::SiteName;

/// What is wrong with the words after the name of `tpnode`, where they ask for nothing.
pub fn complaint(alloc: Global, words: &[&str]) -> Option<String> {
    match command_line::parse(alloc, words) {
        Ok(given) => unknown(alloc, given.name, given.word),
        Err(error) => sentence(alloc, &error),
    }
}

/// What is wrong with the words after the name of `tpdrive`, where they ask for nothing.
pub fn drive_complaint(alloc: Global, words: &[&str]) -> Option<String> {
    match drive_line::parse(alloc, words) {
        Ok(_) => String::from_str(alloc, "error: there can be no site of that name").ok(),
        Err(error) => sentence(alloc, &error),
    }
}

// The word that clap takes and that names nothing.
fn unknown(alloc: Global, name: &str, word: &str) -> Option<String> {
    match SiteName::new(name.as_bytes()) {
        None => format!(in alloc; "error: there can be no site '{name}'").ok(),
        Some(_) => format!(in alloc; "error: there is no command '{word}'").ok(),
    }
}

// What clap says, without its own lines on usage.
fn sentence(alloc: Global, error: &Error) -> Option<String> {
    let text = format!(in alloc; "{error}").ok()?;
    let first = text.split("\n\n").next()?;
    String::from_str(alloc, first).ok()
}
