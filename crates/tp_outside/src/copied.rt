//! The bytes of a file in memory, where the file itself is left alone.
ghost use Rattle.std.specs.Prelude.{◌≤◌, ◌≡◌, length, drop};

use crate::cause::Cause;
use crate::changes::{overwrite, resize};
use crate::mem_source::copy_front;
use std::alloc::Global;
use std::fs::File;
use std::io::{self, Read};

/// What becomes of a change.
#[derive(Clone, Copy)]
pub(crate) enum Fate {
    /// It is made in memory alone.
    Kept,
    /// It is made in memory up to the first sync. After that the file is made first, with these bytes.
    Made,
    /// It fails.
    Refused(Cause),
}

/// The bytes that a file had, or none where there was no file.
#[derive(Drop)]
pub(crate) struct Copied {
    bytes: Vec<u8>,
    fate: Fate,
    synced: bool,
}

impl Copied {
    /// Of no file.
    pub(crate) fn new(alloc: Global, fate: Fate) -> Copied {
        Copied {
            bytes: Vec::new(alloc),
            fate,
            synced: false,
        }
    }

    /// What is read of a file up to its end.
    pub(crate) fn of(alloc: Global, file: File, fate: Fate) -> Result<Copied, Cause> {
        let mut file = file;
        let mut bytes = Vec::new(alloc);
        let _count = Cause::of("read", file.read_to_end(&mut bytes))?;
        Ok(Copied {
            bytes,
            fate,
            synced: false,
        })
    }

    /// The bytes that the file is to be made with, where it is to be made before the next change.
    pub(crate) fn owed(&self) -> Option<&[u8]> {
        match self.fate {
            Fate::Made if self.synced => Some(&self.bytes),
            _ => None,
        }
    }

    pub(crate) fn len(&self) -> u64 {
        self.bytes.len() as u64
    }

    pub(crate) fn read(&self, at: u64, buf: &mut [u8]) -> usize
        ensures fits { result ≤ length buf.old }
        ensures rest { drop result buf.new ≡ drop result buf.old }
    {
        let from = (at as usize).min(self.bytes.len());
        copy_front(&self.bytes[from..], buf)
    }

    pub(crate) fn write(&mut self, at: u64, piece: &[u8]) -> Result<(), Cause> {
        self.may_change()?;
        match overwrite(&mut self.bytes, at as usize, piece) {
            Ok(()) => Ok(()),
            Err(error) => Err(Cause::new("write", io::Error::from(error))),
        }
    }

    pub(crate) fn cut(&mut self, len: u64) -> Result<(), Cause> {
        self.may_change()?;
        match resize(&mut self.bytes, len as usize) {
            Ok(()) => Ok(()),
            Err(error) => Err(Cause::new("cut", io::Error::from(error))),
        }
    }

    pub(crate) fn sync(&mut self) {
        self.synced = true;
    }

    fn may_change(&self) -> Result<(), Cause> {
        match self.fate {
            Fate::Refused(cause) => Err(cause),
            _ => Ok(()),
        }
    }
}
