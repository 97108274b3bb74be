//! What the processes of several sites were given, as frames, and the one order in which it may have happened.
//!
//! A recording tells where nodes stand, and of each site what its processes were given, one process after the other. It does not tell
//! what happened first at two sites. [`weave`] finds an order in which no node takes a record before it was said. What a site does
//! with what it is given is no matter of this crate: a [`Step`] tells which record it took, and which it said.
#![tactic(auto)]

mod frame;
mod lane;
mod letter;
mod order;
mod places;
mod said;
mod step;

pub use frame::{Frame, read_frame};
pub use lane::Lane;
pub use letter::Letter;
pub use order::{Woven, weave};
pub use places::{Place, Places};
pub use step::Step;
