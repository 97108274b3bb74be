//! Frames and events out of a source, and whole writes into a sink.
mod events;
mod frames;
mod pieces;
mod writes;
