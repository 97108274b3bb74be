//! The primitives of a dialogue: requests that name a live arc, and records that the dialogue judges.
ghost use Rattle.std.specs.Prelude.{◌≡◌};
ghost use Rattle.tp_model.specs.Dialogues.{asked_of, heard_of};
ghost use Rattle.tp_dialogue.specs.Kinds.{asked_values, heard_values};

/// A request that names a live arc.
#[derive(Clone, Copy, Debug, PartialEq, Eq)]
pub enum Asked {
    End,
    Data,
    Error,
    Abort,
    Grant,
    Control,
    Handshake,
    Respond,
    HandshakeGrant,
    Begin,
    DeferEnd,
    DeferGrant,
    Prepare,
}

impl Asked {
    /// The request with that code, of those from 4 to 16.
    pub fn of(code: u8) -> Option<Asked>
        ensures { asked_values result ≡ asked_of code }
    {
        match code {
            4 => Some(Asked::End),
            5 => Some(Asked::Data),
            6 => Some(Asked::Error),
            7 => Some(Asked::Abort),
            8 => Some(Asked::Grant),
            9 => Some(Asked::Control),
            10 => Some(Asked::Handshake),
            11 => Some(Asked::Respond),
            12 => Some(Asked::HandshakeGrant),
            13 => Some(Asked::Begin),
            14 => Some(Asked::DeferEnd),
            15 => Some(Asked::DeferGrant),
            16 => Some(Asked::Prepare),
            _ => None,
        }
    }
}

/// A record that the dialogue judges.
#[derive(Clone, Copy, Debug, PartialEq, Eq)]
pub enum Heard {
    End,
    Data,
    Error,
    Grant,
    Control,
    Handshake,
    HandshakeGrant,
    Response,
    DeferEnd,
    DeferGrant,
}

impl Heard {
    /// The record with that code, of those from 1 to 11 but the abort.
    pub fn of(code: u8) -> Option<Heard>
        ensures { heard_values result ≡ heard_of code }
    {
        match code {
            1 => Some(Heard::End),
            2 => Some(Heard::Data),
            3 => Some(Heard::Error),
            5 => Some(Heard::Grant),
            6 => Some(Heard::Control),
            7 => Some(Heard::Handshake),
            8 => Some(Heard::HandshakeGrant),
            9 => Some(Heard::Response),
            10 => Some(Heard::DeferEnd),
            11 => Some(Heard::DeferGrant),
            _ => None,
        }
    }
}
