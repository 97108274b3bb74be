//! What the programs share at the edge: their words, what they say on standard error, and the code that they end with. No
//! clause here says what the system does.
use crate::cause::Cause;
use std::alloc::{Alloc, AllocError, Global};
use std::env::{self, Env};
use std::fmt::Display;
use std::io::{self, Eprint, Print};
use std::process::ExitCode;

/// The version of the programs.
pub const VERSION: &str = "0.1.0";

/// What a line of words can ask for in place of a run.
#[derive(Clone, Copy, PartialEq, Eq)]
pub enum About {
    Help,
    Version,
}

impl About {
    /// `--help` or `-h` as the only word, or after one other, and `--version` or `-V` as the only word.
    pub fn asked(words: &[&str]) -> Option<About> {
        match words {
            [word] if *word == "--version" || *word == "-V" => Some(About::Version),
            [word] | [_, word] if *word == "--help" || *word == "-h" => Some(About::Help),
            _ => None,
        }
    }
}

/// The words after the program's name.
pub fn words_given<R: Env + Alloc<A = Global>>(rt: &R) -> io::Result<Vec<String>> {
    let mut words = Vec::new(rt.alloc());
    for word in env::args(rt)?.skip(1) {
        words.push(word)?;
    }
    Ok(words)
}

/// The texts of words.
pub fn texts_of(alloc: Global, words: &[String]) -> Result<Vec<&str>, AllocError> {
    let mut texts = Vec::new(alloc);
    for word in words {
        texts.push(word.as_str())?;
    }
    Ok(texts)
}

/// Writes a text to standard error. Where that fails nothing else can be said, and the exit code tells alone how the run ended.
pub fn say<P: Eprint, D: Display + Drop>(rt: &P, text: D) {
    let _written = rt.eprint(text);
}

/// Says how a run of that program ended, where its code is not 0, and gives the code.
pub fn say_end<P: Eprint, S: Display>(rt: &P, program: &str, status: &S, code: u8) -> ExitCode {
    if code != 0 {
        say(rt, format_args!("{program}: {status}\n"));
    }
    ExitCode::from(code)
}

/// Says why the file or stream of that name failed, where that is known.
pub fn say_cause<P: Eprint>(rt: &P, name: &str, cause: Option<Cause>) {
    if let Some(cause) = cause {
        say(rt, format_args!("{name}: {cause}\n"));
    }
}

/// Writes what is asked about that program to standard output.
pub fn tell<P: Print>(rt: &P, about: About, program: &str, usage: &str) -> Result<(), Cause> {
    let written = match about {
        About::Help => print!(rt; "{usage}"),
        About::Version => print!(rt; "{program} {VERSION}\n"),
    };
    Cause::of("write", written)
}
