//! The trusted edge: the seals of a log in a file, where that is kept. No clause here says what the system does.
use crate::duty::Duty;
use crate::fault::SealFault;
use crate::refusal::Refusal;
use crate::seal_file::SealFile;
use std::alloc::{Alloc, Global};
use std::fs::File;
use std::io::{Eprint, ErrorKind};
use std::rt::Files;
use tp_outside::{Cause, Disk, FileDisk, say};

/// The seals of a log in a file, and what is done to the log.
#[derive(Drop)]
pub struct Guard<'a, R: Files<File = File> + Alloc<A = Global>> {
    seals: SealFile<FileDisk<'a, R>>,
    duty: Duty,
}

/// Why a command was not let at a log, and the cause where the file of the seals failed.
#[derive(Clone, Copy)]
pub struct Barred {
    pub refusal: Refusal,
    pub cause: Option<Cause>,
}

impl Barred {
    /// Says why: what the log failed by, if it did, or else what the seals found.
    pub fn say<P: Eprint>(&self, rt: &P, seals: &str, log: &str, log_cause: Option<Cause>) {
        match (self.cause, log_cause) {
            (Some(cause), _) => say(rt, format_args!("{seals}: {cause}\n")),
            (None, Some(cause)) => say(rt, format_args!("{log}: {cause}\n")),
            (None, None) => say(rt, format_args!("{seals}: {}\n", self.refusal)),
        }
    }
}

// Whether there is a file of that name.
fn is_there<R: Files<File = File>>(files: &R, path: &str) -> Result<bool, Cause> {
    match files.metadata(path) {
        Ok(_) => Ok(true),
        Err(error) => match error.kind() {
            ErrorKind::NotFound => Ok(false),
            _ => Err(Cause::new("open", error)),
        },
    }
}

impl<'a, R: Files<File = File> + Alloc<A = Global>> Guard<'a, R> {
    /// Lets a command at the log that a disk holds, by the seals in the file of that name. Where no such file is kept there is no guard,
    /// and each command is let at it.
    pub fn admit<L: Disk>(
        files: &'a R,
        path: &'a str,
        duty: Duty,
        log: &mut L,
    ) -> Result<Option<Guard<'a, R>>, Barred> {
        match is_there(files, path) {
            Ok(true) => Guard::open(files, path, duty, log),
            Ok(false) => Ok(None),
            Err(cause) => Err(Barred {
                refusal: Refusal::Fault(SealFault::Failed),
                cause: Some(cause),
            }),
        }
    }

    fn open<L: Disk>(
        files: &'a R,
        path: &'a str,
        duty: Duty,
        log: &mut L,
    ) -> Result<Option<Guard<'a, R>>, Barred> {
        let disk = match &duty {
            Duty::Read => FileDisk::to_read(files, path),
            _ => FileDisk::new(files, path),
        };
        let seals = match SealFile::open(files.alloc(), disk) {
            Ok(seals) => seals,
            Err((disk, fault)) => {
                return Err(Barred {
                    refusal: Refusal::Fault(fault),
                    cause: disk.cause(),
                });
            }
        };
        let mut guard = Guard { seals, duty };
        guard.ask(files.alloc(), log)?;
        Ok(Some(guard))
    }

    // Asks the seals for the log.
    fn ask<L: Disk>(&mut self, alloc: Global, log: &mut L) -> Result<(), Barred> {
        match self.seals.admit(alloc, self.duty, log) {
            Ok(()) => Ok(()),
            Err(refusal) => Err(Barred {
                refusal,
                cause: self.seals.lent().cause(),
            }),
        }
    }

    /// Seals the log after the command.
    pub fn renew<L: Disk>(&mut self, alloc: Global, log: &mut L) -> Result<(), Barred> {
        match self.seals.renew(alloc, self.duty, log) {
            Ok(()) => Ok(()),
            Err(fault) => Err(Barred {
                refusal: Refusal::Fault(fault),
                cause: self.seals.lent().cause(),
            }),
        }
    }
}
