//! The bodies of a bound store.
use crate::write::Writes;
use tp_names::Aaid;

/// What stands in the log of a store: the writes that are bound to a transaction, and that they are kept or dropped.
#[derive(Drop)]
pub enum Body {
    Bind { aaid: Aaid, writes: Writes },
    Keep { aaid: Aaid },
    Drop { aaid: Aaid },
}
