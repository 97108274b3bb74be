//! What stands after the first words of lines and of requests.

/// What stands after the first word of a line or of a request.
#[derive(Clone, Copy)]
pub(crate) enum Tail {
    Nothing,
    Number,
    Numbers,
    NumberAndOctets,
    NumberAndOutcome,
    NumberAndUnits,
    Site,
    Units,
    /// A node, and a request of its user.
    Request,
    /// A node, its site, and perhaps its superior.
    Node,
    /// A site, and perhaps the event in which it stops.
    Crash,
}

/// The lines of an event.
pub(crate) const EVENTS: [(&str, Tail); 8] = [
    ("do", Tail::Request),
    ("pass", Tail::Numbers),
    ("again", Tail::Number),
    ("lose", Tail::Numbers),
    ("heur", Tail::NumberAndOutcome),
    ("giveup", Tail::Numbers),
    ("retry", Tail::Number),
    ("purge", Tail::Number),
];

/// The other lines.
pub(crate) const OTHERS: [(&str, Tail); 8] = [
    ("node", Tail::Node),
    ("skip", Tail::Numbers),
    ("drain", Tail::Nothing),
    ("crash", Tail::Crash),
    ("show", Tail::Number),
    ("image", Tail::Site),
    ("auto", Tail::Numbers),
    ("leave", Tail::Number),
];

/// The requests.
pub(crate) const REQUESTS: [(&str, Tail); 20] = [
    ("begin-dialogue", Tail::NumberAndUnits),
    ("accept", Tail::Units),
    ("reject", Tail::Nothing),
    ("end-dialogue", Tail::Number),
    ("data", Tail::NumberAndOctets),
    ("u-error", Tail::Number),
    ("u-abort", Tail::Number),
    ("grant-control", Tail::Number),
    ("request-control", Tail::Number),
    ("handshake", Tail::Number),
    ("respond", Tail::Number),
    ("handshake-and-grant", Tail::Number),
    ("begin-transaction", Tail::Number),
    ("deferred-end", Tail::Number),
    ("deferred-grant", Tail::Number),
    ("prepare", Tail::Number),
    ("commit", Tail::Nothing),
    ("done", Tail::Nothing),
    ("rollback", Tail::Nothing),
    ("unchanged", Tail::Nothing),
];
