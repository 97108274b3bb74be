//! The frame of a program.
use crate::NoRun;
use std::alloc::{Alloc, AllocError, Global};
use std::env::Env;
use std::fmt::Display;
use std::io::{Eprint, Print};
use std::process::ExitCode;
use tp_outside::{About, Cause, say_cause, say_end, tell, texts_of, words_given};

/// A program, by its name and what can be typed.
#[derive(Clone, Copy)]
pub struct Program {
    pub name: &'static str,
    pub usage: &'static str,
}

impl Program {
    /// Runs on the words after the program's name, which are given on to `run`; or tells about itself, where that is asked.
    pub fn start<R: Env + Alloc<A = Global> + Print + Eprint, F: FnOnce(&[&str]) -> ExitCode>(
        self,
        rt: &R,
        run: F,
    ) -> ExitCode
        requires { F.IsAlwaysCallable run }
    {
        let words = match words_given(rt) {
            Ok(words) => words,
            Err(fault) => return self.no_run(rt, NoRun::wordless(&fault), "", None),
        };
        let texts = match texts_of(rt.alloc(), &words) {
            Ok(texts) => texts,
            Err(AllocError) => return self.no_run(rt, NoRun::NoMemory, "", None),
        };
        let Some(about) = About::asked(&texts) else {
            return run(&texts);
        };
        match tell(rt, about, self.name, self.usage) {
            Ok(()) => ExitCode::SUCCESS,
            Err(cause) => self.no_run(rt, NoRun::WriteFault, "standard output", Some(cause)),
        }
    }

    /// Ends it without a run.
    pub fn no_run<P: Eprint>(
        self,
        rt: &P,
        ending: NoRun,
        name: &str,
        cause: Option<Cause>,
    ) -> ExitCode {
        self.end(rt, &ending, ending.code(), name, cause)
    }

    /// Ends a run with that status and its exit code. Why the file or stream of that name failed is said where it is known.
    pub fn end<P: Eprint, S: Display>(
        self,
        rt: &P,
        status: &S,
        code: u8,
        name: &str,
        cause: Option<Cause>,
    ) -> ExitCode {
        let code = say_end(rt, self.name, status, code);
        say_cause(rt, name, cause);
        code
    }
}
