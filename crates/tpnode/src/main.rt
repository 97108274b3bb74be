//! `tpnode`: replays a schedule over a tree of commitment nodes, and writes the exact transcript; makes schedules and
//! tries them; runs one site on its log over frames of events, or a root's face of one over frames of calls; makes fresh
//! logs, shows, checks and shortens a log; lists the keys of a store; judges the logs of several sites together.
//!
//! In a schedule, member 1 is willing, member 2 unwilling, and member 3 the store of node 2 on `bound.log`.
#![tactic(auto)]

use std::alloc::AllocError;
use std::io::IsTerminal;
use std::process::ExitCode;
use tp_audit::Mismatch;
use tp_commands::audit_logs;
pub use tp_commands::run;
use tp_explain::{Remembering, explain};
use tp_greeting::{LOG, SEALS, bar, greet, renew};
use tp_names::{Addr, SiteName};
use tp_outside::{Cause, FileDisk, HeldStreams, NULL, StdSink, StdSource, say};
use tp_program::{NoRun, Program};
pub use tp_replay::Status;
use tp_replay::{Participant, open_store, participants, status_of};
use tp_seal::{Barred, Duty, Guard};
use tp_words::{Command, USAGE, WordsFault, complaint, read};

const TPNODE: Program = Program {
    name: "tpnode",
    usage: USAGE,
};

/// The log of a bound store, in the current folder.
const STORE: &str = "bound.log";

/// The most bytes of a schedule, which are remembered so that a bad line can be explained.
const MOST_BYTES: usize = 1048576;

/// The node of the store that is member 3.
const STORE_NODE: u16 = 2;

// Ends a run. Why its file or stream failed is said where it is known.
fn end(rt: &HostRuntime, status: Status, name: &str, cause: Option<Cause>) -> ExitCode {
    TPNODE.end(rt, &status, status.code(), name, cause)
}

// What is wrong with the words, and what can be typed.
fn say_usage(rt: &HostRuntime, words: &[&str]) {
    if let Some(sentence) = complaint(rt.alloc(), words) {
        say(rt, format_args!("{sentence}\n"));
    }
    say(rt, USAGE);
}

// The file that a command works on.
fn file_for(command: &Option<Command>) -> &'static str {
    match command {
        Some(Command::Keys) => STORE,
        _ => LOG,
    }
}

// Its disk.
fn disk_for<'a>(rt: &'a HostRuntime, command: &Option<Command>) -> FileDisk<'a, HostRuntime> {
    let file = file_for(command);
    match command {
        Some(Command::Format) => FileDisk::new(rt, file),
        Some(Command::Show | Command::Check | Command::Keys) => FileDisk::to_read(rt, file),
        _ => FileDisk::to_change(rt, file),
    }
}

// How much of what it reads is remembered.
fn remembered_for(command: &Option<Command>) -> usize {
    match command {
        Some(Command::Replay) => MOST_BYTES,
        _ => 0,
    }
}

// Says why the line is bad that ended a replay of that text.
fn say_why(rt: &HostRuntime, status: &Status, text: &[u8]) {
    let Status::BadInput { at, why } = *status else {
        return;
    };
    if let Some(explanation) = explain(rt.alloc(), text, at, why) {
        say(rt, format_args!("line {at}: {explanation}\n"));
    }
}

// The site that a command runs.
fn site_of(command: &Option<Command>) -> Option<SiteName> {
    match command {
        Some(Command::Node(name) | Command::Tx(name)) => Some(*name),
        _ => None,
    }
}

type Members<'a> = Vec<Participant<FileDisk<'a, HostRuntime>>>;

// The members, of whom `replay` alone has the store.
fn members_for<'a>(
    rt: &'a HostRuntime,
    command: &Option<Command>,
) -> Result<Members<'a>, (Status, Option<Cause>)> {
    let store = match command {
        Some(Command::Replay) => {
            let disk = FileDisk::to_change_perhaps(rt, STORE);
            match open_store(rt.alloc(), disk, STORE_NODE) {
                Ok(store) => Some(store),
                Err((disk, fault)) => return Err((status_of(fault), disk.cause())),
            }
        }
        _ => None,
    };
    match participants(rt.alloc(), store) {
        Ok(members) => Ok(members),
        Err(AllocError) => Err((Status::NoMemory, None)),
    }
}

// What a command does to a log.
fn duty_of(command: &Option<Command>) -> Option<Duty> {
    match command {
        Some(Command::Node(name) | Command::Tx(name)) => Some(Duty::Grow(*name)),
        Some(Command::Show | Command::Check) => Some(Duty::Read),
        Some(Command::Compact | Command::Migrate) => Some(Duty::Shorten),
        Some(Command::Format) => Some(Duty::Make),
        _ => None,
    }
}

// Lets a command at its log, where seals are kept.
fn guard_for<'a>(
    rt: &'a HostRuntime,
    command: &Option<Command>,
    log: &mut FileDisk<'_, HostRuntime>,
) -> Result<Option<Guard<'a, HostRuntime>>, Barred> {
    match duty_of(command) {
        Some(duty) => Guard::admit(rt, SEALS, duty, log),
        None => Ok(None),
    }
}

// The stream that failed, and why.
fn failed_stream(
    status: Status,
    source: &StdSource<HostRuntime>,
    sink: &StdSink<'_, HostRuntime>,
) -> (&'static str, Option<Cause>) {
    match status {
        Status::ReadFault { .. } => ("standard input", source.cause()),
        Status::WriteFault { .. } => ("standard output", sink.cause()),
        _ => ("", None),
    }
}

// Says which logs do not belong together.
fn say_mismatch(rt: &HostRuntime, mismatch: &Mismatch) {
    let Mismatch {
        aaid,
        committed,
        doubtful,
    } = *mismatch;
    let root = aaid.owner;
    let Addr { site, node } = committed;
    say(
        rt,
        format_args!(
            "tpnode: the logs of {root} and {site} do not belong together: {site} {node} committed {aaid}"
        ),
    );
    let Addr { site, node } = doubtful;
    say(
        rt,
        format_args!(", {root} has no commit of that root, and {site} {node} is in doubt\n"),
    );
}

// Runs `audit`, of which more is said than its status.
fn run_audit(rt: &HostRuntime) -> ExitCode {
    let mut source = StdSource::new(rt);
    let mut sink = StdSink::new(rt);
    let (status, mismatches) = audit_logs(rt.alloc(), &mut source, &mut sink);
    let (name, cause) = failed_stream(status, &source, &sink);
    let code = end(rt, status, name, cause);
    for mismatch in &mismatches {
        say_mismatch(rt, mismatch);
    }
    code
}

fn run_words(rt: &HostRuntime, words: &[&str]) -> ExitCode {
    let command = match read(rt.alloc(), words) {
        Ok(command) => Some(command),
        Err(WordsFault::Usage) => None,
        Err(WordsFault::NoMemory) => return end(rt, Status::NoMemory, "", None),
    };
    if let Some(Command::Audit) = command {
        return run_audit(rt);
    }
    let members = match members_for(rt, &command) {
        Ok(members) => members,
        Err((status, cause)) => return end(rt, status, STORE, cause),
    };
    let mut disk = disk_for(rt, &command);
    let guard = match guard_for(rt, &command, &mut disk) {
        Ok(guard) => guard,
        Err(barred) => return bar(rt, TPNODE, &barred, disk.cause()),
    };
    if let Some(name) = site_of(&command) {
        greet(rt, TPNODE, name, rt.stderr().is_terminal());
    }
    let kept = remembered_for(&command);
    let mut source = Remembering::new(rt.alloc(), StdSource::new(rt), kept);
    let mut sink = StdSink::new(rt);
    let (status, disk) = run(rt.alloc(), words, &mut source, &mut sink, disk, members);
    let (name, cause) = match status {
        Status::DiskFault { .. } => (file_for(&command), disk.cause()),
        _ => failed_stream(status, source.source(), &sink),
    };
    let code = end(rt, status, name, cause);
    say_why(rt, &status, source.text());
    match status {
        Status::Usage => say_usage(rt, words),
        Status::DiskFault { .. } => {}
        _ => renew(rt, guard, disk),
    }
    code
}

fn main(rt: HostRuntime) -> ExitCode {
    // (to the end: a log that is opened meanwhile has no stream's number)
    let _streams = match HeldStreams::hold(&rt) {
        Ok(streams) => streams,
        Err(cause) => return TPNODE.no_run(&rt, NoRun::DiskFault, NULL, Some(cause)),
    };
    TPNODE.start(&rt, |words| run_words(&rt, words))
}
