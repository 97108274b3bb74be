//! What the programs of a site do at its log before a run and after it.
use crate::beginning::Beginning;
use crate::watched::is_watched;
use std::alloc::{Alloc, Global};
use std::env::Env;
use std::fs::File;
use std::io::Eprint;
use std::process::ExitCode;
use std::rt::Files;
use tp_names::SiteName;
use tp_outside::{Cause, FileDisk, say};
use tp_program::{NoRun, Program};
use tp_seal::{Barred, Guard, Refusal, SealFault};

/// The log of a site, in the current folder.
pub const LOG: &str = "tp.log";

/// The seals of the log, where this file is in the current folder.
pub const SEALS: &str = "tp.seal";

/// Says what the site of that name starts with, where somebody watches.
pub fn greet<R: Env + Files<File = File> + Alloc<A = Global> + Eprint>(
    rt: &R,
    program: Program,
    name: SiteName,
    is_terminal: bool,
) {
    if !is_watched(rt, is_terminal) {
        return;
    }
    if let Some(beginning) = Beginning::on(rt.alloc(), FileDisk::to_read(rt, LOG)) {
        let program = program.name;
        say(rt, format_args!("{program}: site {name}, {beginning}\n"));
    }
}

/// Ends a run that was not let at its log.
pub fn bar<P: Eprint>(
    rt: &P,
    program: Program,
    barred: &Barred,
    log_cause: Option<Cause>,
) -> ExitCode {
    let ending = match barred.refusal {
        Refusal::Fault(SealFault::NoMemory) => NoRun::NoMemory,
        _ => NoRun::DiskFault,
    };
    let code = program.no_run(rt, ending, "", None);
    barred.say(rt, SEALS, LOG, log_cause);
    code
}

/// Seals the log after a run.
pub fn renew(rt: &HostRuntime, guard: Option<Guard<HostRuntime>>, log: FileDisk<HostRuntime>) {
    let Some(mut guard) = guard else {
        return;
    };
    let mut log = log;
    if let Err(barred) = guard.renew(rt.alloc(), &mut log) {
        barred.say(rt, SEALS, LOG, log.cause());
    }
}
