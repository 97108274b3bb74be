//! The trusted edge: how a file is opened, and where its bytes are. No clause here says what they are.
ghost use Rattle.std.specs.Prelude.{◌≤◌, ◌≡◌, length, drop, IsSome, IfOk, OnOk};

use crate::cause::Cause;
use crate::copied::{Copied, Fate};
use crate::locked_file::{LockedFile, busy, find, find_to_read, lock};
use std::alloc::{Alloc, Global};
use std::fs::File;
use std::io::ErrorKind;
use std::rt::Files;

/// What a file is opened for, as `FileDisk` says it.
#[derive(Clone, Copy)]
pub(crate) enum Purpose {
    Make,
    Change,
    ChangePerhaps,
    Read,
}

// The file under its lock, or its bytes in memory.
#[derive(Drop)]
enum Held {
    File(LockedFile),
    Copy(Copied),
}

/// A file that is opened at the first call.
#[derive(Drop)]
pub(crate) struct FileBytes<'a, R: Files<File = File> + Alloc<A = Global>> {
    files: &'a R,
    path: &'a str,
    purpose: Purpose,
    held: Option<Held>,
}

impl<'a, R: Files<File = File> + Alloc<A = Global>> FileBytes<'a, R> {
    pub(crate) fn new(files: &'a R, path: &'a str, purpose: Purpose) -> FileBytes<'a, R> {
        FileBytes {
            files,
            path,
            purpose,
            held: None,
        }
    }
}

impl<R: Files<File = File> + Alloc<A = Global>> FileBytes<'_, R> {
    fn open(&mut self) -> Result<(), Cause>
        ensures { OnOk result (IsSome self.new.held) }
    {
        if self.held.is_none() {
            let held = match self.purpose {
                Purpose::Read => self.open_to_read()?,
                _ => self.open_to_change()?,
            };
            self.held = Some(held);
        }
        Ok(())
    }

    fn open_to_change(&self) -> Result<Held, Cause> {
        match Cause::of("open", find(self.files, self.path))? {
            Some(file) => self.locked(file),
            None => self.missing(),
        }
    }

    // The file that was found.
    fn locked(&self, file: File) -> Result<Held, Cause> {
        if lock(&file)? {
            return Ok(Held::File(LockedFile::new(file, false)?));
        }
        match self.purpose {
            Purpose::ChangePerhaps => self.copied(file, Fate::Refused(busy())),
            _ => Err(busy()),
        }
    }

    // No file was found.
    fn missing(&self) -> Result<Held, Cause> {
        match self.purpose {
            Purpose::Make => Ok(Held::File(LockedFile::make(self.files, self.path)?)),
            _ => Ok(self.nothing(Fate::Made)),
        }
    }

    // The bytes of no file.
    fn nothing(&self, fate: Fate) -> Held {
        Held::Copy(Copied::new(self.files.alloc(), fate))
    }

    fn copied(&self, file: File, fate: Fate) -> Result<Held, Cause> {
        Ok(Held::Copy(Copied::of(self.files.alloc(), file, fate)?))
    }

    fn open_to_read(&self) -> Result<Held, Cause> {
        match find(self.files, self.path) {
            Ok(Some(file)) => match lock(&file) {
                Ok(true) => Ok(Held::File(LockedFile::new(file, false)?)),
                _ => self.copied(file, Fate::Kept),
            },
            Ok(None) => Ok(self.nothing(Fate::Kept)),
            Err(error) => match error.kind() {
                ErrorKind::PermissionDenied | ErrorKind::ReadOnlyFilesystem => {
                    self.open_unwritable()
                }
                _ => Err(Cause::new("open", error)),
            },
        }
    }

    // The file may not be written.
    fn open_unwritable(&self) -> Result<Held, Cause> {
        match Cause::of("open", find_to_read(self.files, self.path))? {
            Some(file) => self.copied(file, Fate::Kept),
            None => Ok(self.nothing(Fate::Kept)),
        }
    }

    // Makes the file that bytes in memory are for, where a change is to go into it.
    fn make_owed(&mut self) -> Result<(), Cause>
        ensures { IsSome self.old.held → IsSome self.new.held }
    {
        let Some(Held::Copy(copied)) = &self.held else {
            return Ok(());
        };
        let Some(bytes) = copied.owed() else {
            return Ok(());
        };
        let mut file = LockedFile::make(self.files, self.path)?;
        file.write(0, bytes)?;
        file.sync(self.files, self.path)?;
        self.held = Some(Held::File(file));
        Ok(())
    }

    pub(crate) fn len(&mut self) -> Result<u64, Cause> {
        self.open()?;
        match &self.held {
            Some(Held::File(file)) => file.len(),
            Some(Held::Copy(copied)) => Ok(copied.len()),
            None => unreachable!(),
        }
    }

    pub(crate) fn read(&mut self, at: u64, buf: &mut [u8]) -> Result<usize, Cause>
        ensures fits { IfOk result (λ n. n ≤ length buf.old) }
        ensures rest { IfOk result (λ n. drop n buf.new ≡ drop n buf.old) }
    {
        self.open()?;
        match &self.held {
            Some(Held::File(file)) => file.read(at, buf),
            Some(Held::Copy(copied)) => Ok(copied.read(at, buf)),
            None => unreachable!(),
        }
    }

    pub(crate) fn write(&mut self, at: u64, piece: &[u8]) -> Result<(), Cause> {
        self.open()?;
        self.make_owed()?;
        match &mut self.held {
            Some(Held::File(file)) => file.write(at, piece),
            Some(Held::Copy(copied)) => copied.write(at, piece),
            None => unreachable!(),
        }
    }

    pub(crate) fn cut(&mut self, len: u64) -> Result<(), Cause> {
        self.open()?;
        self.make_owed()?;
        match &mut self.held {
            Some(Held::File(file)) => file.cut(len),
            Some(Held::Copy(copied)) => copied.cut(len),
            None => unreachable!(),
        }
    }

    pub(crate) fn sync(&mut self) -> Result<(), Cause> {
        self.open()?;
        match &mut self.held {
            Some(Held::File(file)) => file.sync(self.files, self.path),
            Some(Held::Copy(copied)) => {
                copied.sync();
                Ok(())
            }
            None => unreachable!(),
        }
    }
}
