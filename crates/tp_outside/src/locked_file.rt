//! The trusted edge: a file of the system under an exclusive advisory lock. No clause here says what the file holds.
ghost use Rattle.std.specs.Prelude.{◌≤◌, ◌≡◌, length, drop, IfOk};

use crate::cause::Cause;
use std::fs::{File, OpenOptions, TryLockError};
use std::io;
use std::os::unix::fs::FileExt;
use std::path::Path;
use std::rt::Files;

/// A file that no other process works on while this value is there, where each of them takes the lock.
#[derive(Drop)]
pub(crate) struct LockedFile {
    file: File,
    len: u64,
    // What the next sync owes besides the bytes: the rest of what the system keeps of the file, and the name in its folder.
    owes_all: bool,
    owes_name: bool,
}

/// Another process has the lock.
pub(crate) fn busy() -> Cause {
    let words = "another process works on it";
    Cause::new("lock", io::Error::new(io::ErrorKind::WouldBlock, words))
}

/// The file of that name for reading and writing, where there is one.
pub(crate) fn find<R: Files<File = File>>(files: &R, path: &str) -> io::Result<Option<File>> {
    let mut how = OpenOptions::new();
    how.read(true);
    how.write(true);
    if_there(how.open(files, path))
}

/// The file of that name for reading, where there is one.
pub(crate) fn find_to_read<R: Files<File = File>>(
    files: &R,
    path: &str,
) -> io::Result<Option<File>> {
    if_there(File::open(files, path))
}

// What was opened, where there is a file of that name.
fn if_there(opened: io::Result<File>) -> io::Result<Option<File>> {
    match opened {
        Ok(file) => Ok(Some(file)),
        Err(error) => match error.kind() {
            io::ErrorKind::NotFound => Ok(None),
            _ => Err(error),
        },
    }
}

/// Takes the lock of a file until it is closed. `false`: another process has it.
pub(crate) fn lock(file: &File) -> Result<bool, Cause> {
    match file.try_lock() {
        Ok(()) => Ok(true),
        Err(TryLockError::WouldBlock) => Ok(false),
        Err(TryLockError::Error(error)) => Err(Cause::new("lock", error)),
    }
}

// Reads as many bytes as fit into the buffer and stand before the end.
fn read_part(file: &File, at: u64, buf: &mut [u8]) -> io::Result<usize>
    ensures fits { IfOk result (λ n. n ≤ length buf.old) }
    ensures rest { IfOk result (λ n. drop n buf.new ≡ drop n buf.old) }
{
    let left = file.metadata()?.len().saturating_sub(at);
    let n = left.min(buf.len() as u64) as usize;
    file.read_exact_at(&mut buf[..n], at)?;
    Ok(n)
}

// The names in the folder of that file are on the disk afterwards.
fn sync_folder<R: Files<File = File>>(files: &R, path: &str) -> io::Result<()> {
    let folder = match Path::new(path).parent() {
        Some(folder) if !folder.to_string_lossy().is_empty() => folder,
        _ => Path::new("."),
    };
    File::open(files, folder)?.sync_all()
}

impl LockedFile {
    /// A file whose lock was taken, and whether it was made just now.
    pub(crate) fn new(file: File, made: bool) -> Result<LockedFile, Cause> {
        let len = Cause::of("length", file.metadata())?.len();
        Ok(LockedFile {
            file,
            len,
            owes_all: true,
            owes_name: made,
        })
    }

    /// Makes a file of that name and takes its lock. It fails where there is one.
    pub(crate) fn make<R: Files<File = File>>(files: &R, path: &str) -> Result<LockedFile, Cause> {
        let file = Cause::of("make", File::create_new(files, path))?;
        if !lock(&file)? {
            return Err(busy());
        }
        LockedFile::new(file, true)
    }

    pub(crate) fn len(&self) -> Result<u64, Cause> {
        Ok(Cause::of("length", self.file.metadata())?.len())
    }

    pub(crate) fn read(&self, at: u64, buf: &mut [u8]) -> Result<usize, Cause>
        ensures fits { IfOk result (λ n. n ≤ length buf.old) }
        ensures rest { IfOk result (λ n. drop n buf.new ≡ drop n buf.old) }
    {
        match read_part(&self.file, at, buf) {
            Ok(n) => Ok(n),
            Err(error) => Err(Cause::new("read", error)),
        }
    }

    /// Where it fails, the file gives back what it grew by.
    pub(crate) fn write(&mut self, at: u64, piece: &[u8]) -> Result<(), Cause> {
        match self.file.write_all_at(piece, at) {
            Ok(()) => {
                self.len = self.len.max(at.saturating_add(piece.len() as u64));
                Ok(())
            }
            Err(error) => {
                let _cut = self.file.set_len(self.len);
                Err(Cause::new("write", error))
            }
        }
    }

    pub(crate) fn cut(&mut self, len: u64) -> Result<(), Cause> {
        self.owes_all = true;
        Cause::of("cut", self.file.set_len(len))?;
        self.len = len;
        Ok(())
    }

    pub(crate) fn sync<R: Files<File = File>>(
        &mut self,
        files: &R,
        path: &str,
    ) -> Result<(), Cause> {
        if !self.owes_all {
            return Cause::of("sync", self.file.sync_data());
        }
        Cause::of("sync", self.file.sync_all())?;
        if self.owes_name {
            Cause::of("sync of the folder", sync_folder(files, path))?;
        }
        self.owes_all = false;
        self.owes_name = false;
        Ok(())
    }
}
