//! What a user asks for on an arc or of the transaction. Each request has a function of its own: an event pays for the
//! locals of that one alone.
ghost use Rattle.tp_records.specs.declared.request.Request.{Request as RequestValue};
ghost use Rattle.tp_model.specs.Requests.{do_request};
ghost use Rattle.tp_draft.specs.Draft.{Plays};

use crate::draft::Draft;
use std::alloc::Global;
use tp_dialogue::Asked;
use tp_model::TxEvent;
use tp_names::Octets;
use tp_node::Halt;
use tp_records::{DialogueRecord, Request};

impl Draft {
    // ---- said on an arc

    pub(crate) fn say_data(&mut self, alloc: Global, peer: u16, octets: &Octets) -> Result<(), Halt>
        ensures { Plays result self.old self.new (λ who. do_request who (RequestValue.UserData peer octets.now)) }
    {
        let octets = Octets::from_slice(alloc, octets.as_slice())?;
        self.speak_on(peer, Asked::Data, DialogueRecord::UserData { octets })
    }

    pub(crate) fn say_error(&mut self, peer: u16) -> Result<(), Halt>
        ensures { Plays result self.old self.new (λ who. do_request who (RequestValue.UError peer)) }
    {
        self.speak_on(peer, Asked::Error, DialogueRecord::UError)
    }

    pub(crate) fn say_grant(&mut self, peer: u16) -> Result<(), Halt>
        ensures { Plays result self.old self.new (λ who. do_request who (RequestValue.Grant peer)) }
    {
        self.speak_on(peer, Asked::Grant, DialogueRecord::Grant)
    }

    pub(crate) fn ask_control(&mut self, peer: u16) -> Result<(), Halt>
        ensures { Plays result self.old self.new (λ who. do_request who (RequestValue.AskControl peer)) }
    {
        self.speak_on(peer, Asked::Control, DialogueRecord::AskControl)
    }

    pub(crate) fn say_handshake(&mut self, peer: u16) -> Result<(), Halt>
        ensures { Plays result self.old self.new (λ who. do_request who (RequestValue.Handshake peer)) }
    {
        self.speak_on(peer, Asked::Handshake, DialogueRecord::Handshake)
    }

    pub(crate) fn respond(&mut self, peer: u16) -> Result<(), Halt>
        ensures { Plays result self.old self.new (λ who. do_request who (RequestValue.Respond peer)) }
    {
        self.speak_on(peer, Asked::Respond, DialogueRecord::Response)
    }

    pub(crate) fn say_handshake_grant(&mut self, peer: u16) -> Result<(), Halt>
        ensures { Plays result self.old self.new (λ who. do_request who (RequestValue.HandshakeGrant peer)) }
    {
        self.speak_on(peer, Asked::HandshakeGrant, DialogueRecord::HandshakeGrant)
    }

    // ---- deferred on an arc

    pub(crate) fn defer_end(&mut self, alloc: Global, peer: u16) -> Result<(), Halt>
        ensures { Plays result self.old self.new (λ who. do_request who (RequestValue.DeferEnd peer)) }
    {
        let event = TxEvent::User(Request::DeferEnd { peer });
        self.defer(alloc, peer, Asked::DeferEnd, &event)
    }

    pub(crate) fn defer_grant(&mut self, alloc: Global, peer: u16) -> Result<(), Halt>
        ensures { Plays result self.old self.new (λ who. do_request who (RequestValue.DeferGrant peer)) }
    {
        let event = TxEvent::User(Request::DeferGrant { peer });
        self.defer(alloc, peer, Asked::DeferGrant, &event)
    }

    // ---- of the transaction

    pub(crate) fn ask_prepare(&mut self, alloc: Global, peer: u16) -> Result<(), Halt>
        ensures { Plays result self.old self.new (λ who. do_request who (RequestValue.Prepare peer)) }
    {
        self.transact(alloc, &TxEvent::User(Request::Prepare { peer }))
    }

    pub(crate) fn ask_commit(&mut self, alloc: Global) -> Result<(), Halt>
        ensures { Plays result self.old self.new (λ who. do_request who RequestValue.Commit) }
    {
        self.transact(alloc, &TxEvent::User(Request::Commit))
    }

    pub(crate) fn say_done(&mut self, alloc: Global) -> Result<(), Halt>
        ensures { Plays result self.old self.new (λ who. do_request who RequestValue.Done) }
    {
        self.transact(alloc, &TxEvent::User(Request::Done))
    }

    pub(crate) fn ask_rollback(&mut self, alloc: Global) -> Result<(), Halt>
        ensures { Plays result self.old self.new (λ who. do_request who RequestValue.Rollback) }
    {
        self.transact(alloc, &TxEvent::User(Request::Rollback))
    }

    pub(crate) fn say_unchanged(&mut self, alloc: Global) -> Result<(), Halt>
        ensures { Plays result self.old self.new (λ who. do_request who RequestValue.Unchanged) }
    {
        self.transact(alloc, &TxEvent::User(Request::Unchanged))
    }
}
