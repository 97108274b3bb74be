//! Tests of what stands on a site, over public calls: whole runs over frames, calls that no program makes, and workers.
//!
//! A test shows what no clause says: that calls succeed with ample memory, and that two workers run at once.
#![tactic(auto)]

#[cfg(test)]
mod calls;
#[cfg(test)]
mod driven;
#[cfg(test)]
mod frames;
