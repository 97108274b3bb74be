//! `tpdrive`: runs one site's events on worker threads that share one locked log, and gives the answer of one thread.
#![tactic(auto)]

use std::io::IsTerminal;
use std::process::ExitCode;
use tp_drive::OpenGate;
use tp_drive_tool::{Status, run_drive};
use tp_greeting::{LOG, SEALS, bar, greet, renew};
use tp_outside::{FileDisk, HeldStreams, NULL, StdSink, StdSource, say};
use tp_program::{NoRun, Program};
use tp_seal::{Barred, Duty, Guard};
use tp_words::{DRIVE_USAGE, drive_complaint, read_drive};

const TPDRIVE: Program = Program {
    name: "tpdrive",
    usage: DRIVE_USAGE,
};

// What is wrong with the words, and what can be typed.
fn say_usage(rt: &HostRuntime, words: &[&str]) {
    if let Some(sentence) = drive_complaint(rt.alloc(), words) {
        say(rt, format_args!("{sentence}\n"));
    }
    say(rt, DRIVE_USAGE);
}

// Lets the site at its log, where seals are kept.
fn guard_for<'a>(
    rt: &'a HostRuntime,
    words: &[&str],
    log: &mut FileDisk<'_, HostRuntime>,
) -> Result<Option<Guard<'a, HostRuntime>>, Barred> {
    match read_drive(rt.alloc(), words) {
        Ok(drive) => Guard::admit(rt, SEALS, Duty::Grow(drive.name), log),
        Err(_) => Ok(None),
    }
}

fn main(rt: HostRuntime) -> ExitCode {
    // (to the end: a log that is opened meanwhile has no stream's number)
    let _streams = match HeldStreams::hold(&rt) {
        Ok(streams) => streams,
        Err(cause) => return TPDRIVE.no_run(&rt, NoRun::DiskFault, NULL, Some(cause)),
    };
    TPDRIVE.start(&rt, |words| {
        let mut disk = FileDisk::to_change(&rt, LOG);
        let guard = match guard_for(&rt, words, &mut disk) {
            Ok(guard) => guard,
            Err(barred) => return bar(&rt, TPDRIVE, &barred, disk.cause()),
        };
        if let Ok(drive) = read_drive(rt.alloc(), words) {
            greet(&rt, TPDRIVE, drive.name, rt.stderr().is_terminal());
        }
        let mut source = StdSource::new(&rt);
        let mut sink = StdSink::new(&rt);
        let (status, disk) = run_drive(
            &rt,
            rt.alloc(),
            words,
            &mut source,
            &mut sink,
            disk,
            &OpenGate,
        );
        let (name, cause) = match &status {
            Status::ReadFault { .. } => ("standard input", source.cause()),
            Status::WriteFault { .. } => ("standard output", sink.cause()),
            Status::DiskFault { .. } => (LOG, disk.cause()),
            _ => ("", None),
        };
        let code = TPDRIVE.end(&rt, &status, status.code(), name, cause);
        match &status {
            Status::Usage => say_usage(&rt, words),
            Status::DiskFault { .. } | Status::LogDiffers { .. } => {}
            _ => renew(&rt, guard, disk),
        }
        code
    })
}
