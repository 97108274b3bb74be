//! Tests of the parts of a node, over their public calls.
//!
//! A test shows what no clause says: that calls succeed with ample memory, and that their answers are those
//! of worked examples and of an independent machine.
#![tactic(auto)]

#[cfg(test)]
mod arcs;
#[cfg(test)]
mod calls;
#[cfg(test)]
mod commit;
#[cfg(test)]
mod dialogue;
#[cfg(test)]
mod link;
#[cfg(test)]
mod recover;
#[cfg(test)]
mod table;
#[cfg(test)]
mod tree;
#[cfg(test)]
mod values;
