//! The outside: sources, sinks and disks as traits, ones in memory that fail or stop where a test wants it, and the real
//! ones.
#![tactic(auto)]

mod cause;
mod changes;
mod copied;
mod disk;
mod due;
mod failed;
mod file_bytes;
mod file_disk;
mod fuse_disk;
mod held_streams;
mod laws;
mod locked_file;
mod mem_disk;
mod mem_sink;
mod mem_source;
mod program;
mod sink;
mod source;
mod standard;

pub use cause::Cause;
pub use disk::Disk;
pub use failed::Failed;
pub use file_disk::FileDisk;
pub use fuse_disk::FuseDisk;
pub use held_streams::{HeldStreams, NULL};
pub use laws::{a_fuse_leaves_an_image, reads_give_an_image};
pub use mem_disk::MemDisk;
pub use mem_sink::MemSink;
pub use mem_source::MemSource;
pub use program::{About, VERSION, say, say_cause, say_end, tell, texts_of, words_given};
pub use sink::Sink;
pub use source::Source;
pub use standard::{StdSink, StdSource};
