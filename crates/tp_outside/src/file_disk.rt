//! The trusted edge: a file of the system as a disk. It tells no story, so no clause here says what the file holds.
use crate::cause::Cause;
use crate::file_bytes::{FileBytes, Purpose};
use crate::{Disk, Failed};
use std::alloc::{Alloc, Global};
use std::fs::File;
use std::rt::Files;

/// A file that is opened at the first call. As long as the disk is there no other process works on it, where each of them
/// takes the lock of the file.
#[derive(Drop)]
pub struct FileDisk<'a, R: Files<File = File> + Alloc<A = Global>> {
    bytes: FileBytes<'a, R>,
    faults: u64,
    cause: Option<Cause>,
}

impl<'a, R: Files<File = File> + Alloc<A = Global>> FileDisk<'a, R> {
    fn opened_for(files: &'a R, path: &'a str, purpose: Purpose) -> FileDisk<'a, R> {
        FileDisk {
            bytes: FileBytes::new(files, path, purpose),
            faults: 0,
            cause: None,
        }
    }

    /// To be changed. It is made where there is none. Where another process has its lock, each call fails.
    pub fn new(files: &'a R, path: &'a str) -> FileDisk<'a, R> {
        FileDisk::opened_for(files, path, Purpose::Make)
    }

    /// To be changed. Where there is none it has no bytes, and it is made at the first change after a sync. Where another
    /// process has its lock, each call fails.
    pub fn to_change(files: &'a R, path: &'a str) -> FileDisk<'a, R> {
        FileDisk::opened_for(files, path, Purpose::Change)
    }

    /// The same, but where another process has its lock the bytes are read once, and changes alone fail.
    pub fn to_change_perhaps(files: &'a R, path: &'a str) -> FileDisk<'a, R> {
        FileDisk::opened_for(files, path, Purpose::ChangePerhaps)
    }

    /// To be read. Where there is none it has no bytes, and none is made. Where it may not be written, or another process has
    /// its lock, the bytes are read once, and changes are made in memory alone.
    pub fn to_read(files: &'a R, path: &'a str) -> FileDisk<'a, R> {
        FileDisk::opened_for(files, path, Purpose::Read)
    }
}

impl<R: Files<File = File> + Alloc<A = Global>> FileDisk<'_, R> {
    ghost use Rattle.std.specs.Prelude.{◌≤◌};
    ghost use Rattle.tp_outside.specs.Faults.{HasRisen};

    /// Why the last call failed that did.
    pub fn cause(&self) -> Option<Cause> {
        self.cause
    }

    // A call failed.
    fn fail(&mut self, cause: Cause) -> Failed
        ensures kept { self.old.faults ≤ self.new.faults }
        ensures risen { HasRisen (self.old.faults) (self.new.faults) }
    {
        self.faults = self.faults.saturating_add(1);
        self.cause = Some(cause);
        Failed
    }
}

impl<R: Files<File = File> + Alloc<A = Global>> Disk for FileDisk<'_, R> {
    ghost use Rattle.std.specs.Prelude.{None};

    ghost told = { λ _. None };

    ghost fuse = { λ _. None };

    ghost fault_count = { λ f. f.faults };

    fn len(&mut self) -> Result<u64, Failed> {
        match self.bytes.len() {
            Ok(len) => Ok(len),
            Err(cause) => Err(self.fail(cause)),
        }
    }

    fn read(&mut self, at: u64, buf: &mut [u8]) -> Result<usize, Failed> {
        match self.bytes.read(at, buf) {
            Ok(n) => Ok(n),
            Err(cause) => Err(self.fail(cause)),
        }
    }

    fn write_at(&mut self, at: u64, piece: &[u8]) -> Result<(), Failed> {
        match self.bytes.write(at, piece) {
            Ok(()) => Ok(()),
            Err(cause) => Err(self.fail(cause)),
        }
    }

    fn cut(&mut self, len: u64) -> Result<(), Failed> {
        match self.bytes.cut(len) {
            Ok(()) => Ok(()),
            Err(cause) => Err(self.fail(cause)),
        }
    }

    fn sync(&mut self) -> Result<(), Failed> {
        match self.bytes.sync() {
            Ok(()) => Ok(()),
            Err(cause) => Err(self.fail(cause)),
        }
    }

    fn faults(&self) -> u64 {
        self.faults
    }
}
