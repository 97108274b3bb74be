//! What a process was given, by what it took and said.
ghost use Rattle.std.specs.Prelude.{◌≡◌, [], None};

use crate::Letter;
use std::alloc::Global;

/// One deed of a site: the frame that told it, the letter without which it may not come, and those that its node said.
#[derive(Drop)]
pub struct Step {
    pub at: u64,
    pub needs: Option<Letter>,
    pub says: Vec<Letter>,
}

impl Step {
    /// One that takes no letter and says none.
    pub fn plain(alloc: Global, at: u64) -> Step
        ensures at { result.at ≡ at }
        ensures needs { result.needs ≡ None }
        ensures says { result.says.items ≡ [] }
    {
        Step {
            at,
            needs: None,
            says: Vec::new(alloc),
        }
    }
}
