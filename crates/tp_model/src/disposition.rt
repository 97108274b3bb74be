//! What comes of a record.

/// What comes of a record that was taken on an association.
#[derive(Clone, Copy, Debug, PartialEq, Eq)]
pub enum Disposition {
    /// It acts.
    Acts,
    /// Nothing happens.
    Nothing,
    /// Nobody may send it now: it ends its association.
    OutOfPhase,
}
