//! The parts of a schedule in which each node has a line of the same form.

/// What each node of a part does.
#[derive(Clone, Copy)]
pub enum Part {
    /// It is declared.
    Declared,
    /// Its superior begins a dialogue with it.
    Opened,
    /// It accepts the dialogue.
    Accepted,
    /// Its superior begins a transaction with it. The world is drained after each.
    Begun,
    /// Its user is done. The world is drained after each.
    Done,
}
