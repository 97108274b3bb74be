//! A stream of frames: each a body of 1 to 2,048 bytes after its length.
//!
//! [`Frames`] is fed the stream in whatever pieces it comes, and hands out the bodies one by one.
//! It knows nothing of what stands in a body.
#![tactic(auto)]

mod bad_frame;
mod frames;
mod head;
pub mod laws;

pub use bad_frame::BadFrame;
pub use frames::Frames;

/// The greatest length of a body.
pub const LONGEST: usize = 2048;
