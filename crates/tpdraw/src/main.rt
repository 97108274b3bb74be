//! `tpdraw`: reads a transcript from standard input, and writes it to standard output as a picture: a sequence diagram
//! with a lane for each node, as SVG, or as Mermaid text.
#![tactic(auto)]

mod asking;
mod intake;
mod next_line;
mod node_list;
mod reading;
mod status;
mod top;

pub use status::Status;
use std::process::ExitCode;
pub use top::run;
use tp_outside::{StdSink, StdSource, say};
use tp_program::Program;

/// What can be typed.
const USAGE: &str = "\
usage: tpdraw [--mermaid | --html] [--lanes] [--fold] [--from N] [--to N] [--nodes N,..]

  reads a transcript, writes it as a picture in SVG

  --mermaid    writes text from which Mermaid makes the picture
  --html       writes a page with the picture and the lines, which a slider steps through
  --lanes      leaves out the text of the lines, except events and outcomes
  --fold       one row for all lines before the first transaction
  --from N     begins with line N
  --to N       ends with line N; without it at most 200 lines are shown
  --nodes N,.. leaves out lines that speak of other nodes than these, at most 16; --from and --to count what is left
";

const TPDRAW: Program = Program {
    name: "tpdraw",
    usage: USAGE,
};

fn run_words(rt: &HostRuntime, words: &[&str]) -> ExitCode {
    let mut source = StdSource::new(rt);
    let mut sink = StdSink::new(rt);
    let status = run(rt.alloc(), words, &mut source, &mut sink);
    let (name, cause) = match status {
        Status::ReadFault { .. } => ("standard input", source.cause()),
        Status::WriteFault { .. } => ("standard output", sink.cause()),
        _ => ("", None),
    };
    let code = TPDRAW.end(rt, &status, status.code(), name, cause);
    if status == Status::Usage {
        say(rt, USAGE);
    }
    code
}

fn main(rt: HostRuntime) -> ExitCode {
    TPDRAW.start(&rt, |words| run_words(&rt, words))
}
