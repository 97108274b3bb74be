//! Events that are given to a site, and the outputs that it gives.
pub(crate) mod bytes;

use crate::{Indication, Request};
use tp_names::{Addr, Octets, Outcome};

/// An event of one node of a site.
#[derive(Drop)]
pub enum Event {
    Declare {
        node: u16,
        superior: Option<Addr>,
    },
    Do {
        node: u16,
        request: Request,
    },
    Arrive {
        from: Addr,
        to: Addr,
        octets: Octets,
    },
    Lose {
        node: u16,
        peer: u16,
    },
    Heur {
        node: u16,
        outcome: Outcome,
    },
    GiveUp {
        node: u16,
        peer: u16,
    },
    Retry {
        node: u16,
    },
    Purge {
        node: u16,
    },
}

/// An output of a site. `Over` ends the outputs of one event.
#[derive(Drop)]
pub enum Output {
    Tell {
        node: u16,
        indication: Indication,
    },
    Send {
        from: Addr,
        to: Addr,
        octets: Octets,
    },
    Refused {
        number: u8,
    },
    Over,
}

/// What stands in a frame.
#[derive(Drop)]
pub enum Body {
    Event(Event),
    Output(Output),
}
