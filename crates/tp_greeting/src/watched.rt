//! Whether somebody watches a program start.
use std::alloc::{Alloc, Global};
use std::env::{self, Env};

/// Standard error is a terminal, or the environment has `TPNODE_SAY=1`.
pub fn is_watched<R: Env + Alloc<A = Global>>(rt: &R, is_terminal: bool) -> bool {
    is_terminal || matches!(env::var(rt, "TPNODE_SAY"), Ok(text) if text.as_str() == "1")
}
