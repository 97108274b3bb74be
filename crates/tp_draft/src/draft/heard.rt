//! What the dialogue with a peer hears that the user is told. Each record has a function of its own: an event pays for the
//! locals of that one alone.
ghost use Rattle.tp_records.specs.declared.indication.Indication.{Indication as IndicationValue};
ghost use Rattle.tp_model.specs.Dialogues.{Hear_data, Hear_error, Hear_grant, Hear_control, Hear_handshake, Hear_handshake_grant, Hear_response};
ghost use Rattle.tp_draft.specs.Draft.{Plays};
ghost use Rattle.tp_draft.specs.Talk.{telling_heard};

use crate::draft::Draft;
use std::alloc::Global;
use tp_dialogue::Heard;
use tp_names::Octets;
use tp_node::Halt;
use tp_records::Indication;

impl Draft {
    pub(crate) fn hear_data(
        &mut self,
        alloc: Global,
        peer: u16,
        octets: &Octets,
    ) -> Result<(), Halt>
        ensures { Plays result self.old self.new (telling_heard peer Hear_data (IndicationValue.UserData peer octets.now)) }
    {
        let octets = Octets::from_slice(alloc, octets.as_slice())?;
        self.hear(peer, Heard::Data, Indication::UserData { peer, octets })
    }

    pub(crate) fn hear_error(&mut self, peer: u16) -> Result<(), Halt>
        ensures { Plays result self.old self.new (telling_heard peer Hear_error (IndicationValue.UError peer)) }
    {
        self.hear(peer, Heard::Error, Indication::UError { peer })
    }

    pub(crate) fn hear_grant(&mut self, peer: u16) -> Result<(), Halt>
        ensures { Plays result self.old self.new (telling_heard peer Hear_grant (IndicationValue.Grant peer)) }
    {
        self.hear(peer, Heard::Grant, Indication::Grant { peer })
    }

    pub(crate) fn hear_control(&mut self, peer: u16) -> Result<(), Halt>
        ensures { Plays result self.old self.new (telling_heard peer Hear_control (IndicationValue.AskControl peer)) }
    {
        self.hear(peer, Heard::Control, Indication::AskControl { peer })
    }

    pub(crate) fn hear_handshake(&mut self, peer: u16) -> Result<(), Halt>
        ensures { Plays result self.old self.new (telling_heard peer Hear_handshake (IndicationValue.Handshake peer)) }
    {
        self.hear(peer, Heard::Handshake, Indication::Handshake { peer })
    }

    pub(crate) fn hear_handshake_grant(&mut self, peer: u16) -> Result<(), Halt>
        ensures { Plays result self.old self.new (telling_heard peer Hear_handshake_grant (IndicationValue.HandshakeGrant peer)) }
    {
        self.hear(
            peer,
            Heard::HandshakeGrant,
            Indication::HandshakeGrant { peer },
        )
    }

    pub(crate) fn hear_response(&mut self, peer: u16) -> Result<(), Halt>
        ensures { Plays result self.old self.new (telling_heard peer Hear_response (IndicationValue.HandshakeConfirm peer)) }
    {
        self.hear(peer, Heard::Response, Indication::HandshakeConfirm { peer })
    }
}
