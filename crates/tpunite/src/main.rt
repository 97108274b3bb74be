//! `tpunite`: reads from standard input what the processes of several sites were given, and tells on standard output whether they are
//! one deployment.
#![tactic(auto)]

mod status;
mod top;

pub use status::Status;
use std::alloc::AllocError;
use std::io;
use std::process::ExitCode;
pub use top::run;
use tp_outside::{
    About, Cause, StdSink, StdSource, say, say_cause, say_end, tell, texts_of, words_given,
};

/// What can be typed.
const USAGE: &str = "\
usage: tpunite

  reads what the processes of several sites were given, tells whether they are one deployment
";

// Ends a run. Why its stream failed is said where it is known.
fn end(rt: &HostRuntime, status: Status, name: &str, cause: Option<Cause>) -> ExitCode {
    let code = say_end(rt, "tpunite", &status, status.code());
    say_cause(rt, name, cause);
    code
}

// How a run ends that has no words: they are no text, or memory is wanting for them.
fn wordless(fault: &io::Error) -> Status {
    match fault.kind() {
        io::ErrorKind::InvalidData => Status::Usage,
        _ => Status::NoMemory,
    }
}

fn run_words(rt: &HostRuntime, words: &[&str]) -> ExitCode {
    let mut source = StdSource::new(rt);
    let mut sink = StdSink::new(rt);
    let status = run(rt.alloc(), words, &mut source, &mut sink);
    let (name, cause) = match status {
        Status::ReadFault { .. } => ("standard input", source.cause()),
        Status::WriteFault { .. } => ("standard output", sink.cause()),
        _ => ("", None),
    };
    let code = end(rt, status, name, cause);
    if status == Status::Usage {
        say(rt, USAGE);
    }
    code
}

fn main(rt: HostRuntime) -> ExitCode {
    let words = match words_given(&rt) {
        Ok(words) => words,
        Err(fault) => return end(&rt, wordless(&fault), "", None),
    };
    let texts = match texts_of(rt.alloc(), &words) {
        Ok(texts) => texts,
        Err(AllocError) => return end(&rt, Status::NoMemory, "", None),
    };
    let Some(about) = About::asked(&texts) else {
        return run_words(&rt, &texts);
    };
    match tell(&rt, about, "tpunite", USAGE) {
        Ok(()) => ExitCode::SUCCESS,
        Err(cause) => {
            let status = Status::WriteFault { faults: 1 };
            end(&rt, status, "standard output", Some(cause))
        }
    }
}
