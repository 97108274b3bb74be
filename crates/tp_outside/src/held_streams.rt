//! The trusted edge: the numbers of the three standard streams. No clause here says what the system does.
use crate::Cause;
use std::fs::{File, OpenOptions};
use std::rt::Files;

/// The null device.
pub const NULL: &str = "/dev/null";

/// The null device, open three times, so that no file which is opened later gets the number of a standard stream. A process
/// that is started with one of its streams closed would else have its log under that number, and write over it what is meant
/// for the stream.
#[derive(Drop)]
pub struct HeldStreams {
    input: File,
    output: File,
    error: File,
}

impl HeldStreams {
    /// From now on each stream that is closed is the null device, as long as this value is there.
    pub fn hold<R: Files<File = File>>(files: &R) -> Result<HeldStreams, Cause> {
        let mut how = OpenOptions::new();
        how.read(true);
        how.write(true);
        Ok(HeldStreams {
            input: Cause::of("open", how.open(files, NULL))?,
            output: Cause::of("open", how.open(files, NULL))?,
            error: Cause::of("open", how.open(files, NULL))?,
        })
    }
}
