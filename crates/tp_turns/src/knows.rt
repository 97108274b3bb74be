//! What a pass knows. No value of these types is made.

use std::collections::LinkedList;

/// What was put under one number, in order.
pub struct Claim<I> {
    pub tag: u64,
    pub list: LinkedList<I>,
}

/// Whether the pass has the value, the items that it has seen there, and its claims.
pub struct Knows<I> {
    pub stage: u64,
    pub seen: LinkedList<I>,
    pub claims: LinkedList<Claim<I>>,
}
