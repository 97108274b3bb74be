//! What a node's user has written in the transaction that goes on.
ghost use Rattle.std.specs.Prelude.{◌≡◌, ◌+◌, ◌≤◌, ◌<◌, true, Some, length, IfOk, OnOk, OnErr};
ghost use Rattle.tp_names.specs.Grammar.{HasText};
ghost use Rattle.tp_bound.specs.declared.body.Body.{Body};
ghost use Rattle.tp_bound.specs.Bodies.{write_bytes, each_write_bytes, body_bytes, body_in};
ghost use Rattle.tp_bound.specs.Gathered.{write_grammar, HaveTexts, none_yet, with_write, with_data};

use crate::decode::decode_write;
use crate::encode::{aaid_reads, coded};
use crate::store::Pending;
use crate::write::{Write, Writes};
use std::alloc::Global;
use std::marker::Model;
use tp_names::{Aaid, NoMemory, Octets, write_short};

// The most bytes that the texts of one transaction's writes may have.
const MOST_WRITTEN: usize = 60_000;

/// The writes of a transaction, with their texts one after the other. Data that is no write spoils them, and so does a
/// write that is one too many.
#[derive(Drop)]
pub struct Current {
    aaid: Aaid,
    writes: Writes,
    texts: Octets,
    spoilt: bool,
}

impl Model for Current {
    ghost use Rattle.std.specs.Prelude.{◌≡◌, ◌≤◌, length};
    ghost use Rattle.tp_bound.specs.Bodies.{each_write_bytes};
    ghost use Rattle.tp_bound.specs.Gathered.{Gathered, HaveTexts};

    ghost Value = { Gathered };

    ghost view = { λ c. record { aaid = c.aaid; writes = c.writes; spoilt = c.spoilt } };

    ghost invariant = { λ c. HaveTexts c.writes × (c.texts ≡ each_write_bytes c.writes) × (length c.texts ≤ 60000) };
}

impl Current {
    /// No writes yet.
    pub fn new(alloc: Global, aaid: Aaid) -> Current
        ensures { result ≡ none_yet aaid }
    {
        Current {
            aaid,
            writes: Writes::new(alloc),
            texts: Octets::new(alloc),
            spoilt: false,
        }
    }

    pub fn is_spoilt(&self) -> bool
        ensures { result ≡ self.now.spoilt }
    {
        self.spoilt
    }

    /// Adds the write that the data is, or is spoilt. Without memory nothing changes.
    pub fn add(&mut self, alloc: Global, octets: &[u8]) -> Result<(), NoMemory>
        ensures ok { OnOk result (self.new ≡ with_data self.old octets.now) }
        ensures err { OnErr result (self.new ≡ self.old) }
    {
        match decode_write(alloc, octets)? {
            Some(write) if octets.len() <= MOST_WRITTEN - self.texts.len() => {
                self.push(alloc, write, octets)
            }
            _ => {
                self.spoilt = true;
                Ok(())
            }
        }
    }

    fn push(&mut self, alloc: Global, write: Write, text: &[u8]) -> Result<(), NoMemory>
        requires has_text { HasText write_grammar write }
        requires is_text { text.now ≡ write_bytes write }
        requires room { length (each_write_bytes self.old.writes) + length text.now ≤ 60000 }
        ensures ok { OnOk result (self.new ≡ with_write self.old write true) }
        ensures err { OnErr result (self.new ≡ self.old) }
    {
        let len = self.texts.len();
        self.texts.extend_from_slice(alloc, text)?;
        match self.writes.push(alloc, write) {
            Ok(()) => Ok(()),
            Err(no_memory) => {
                self.texts.truncate(len);
                Err(no_memory)
            }
        }
    }

    /// The text of the Bind of these writes.
    pub fn text(&self, alloc: Global) -> Result<Octets, NoMemory>
        ensures is { IfOk result (λ text. text ≡ body_bytes (Body.Bind self.now.aaid self.now.writes)) }
        ensures read { IfOk result (λ text. body_in text ≡ Some (Body.Bind self.now.aaid self.now.writes)) }
        ensures some { IfOk result (λ text. 0 < length text) }
        ensures short { IfOk result (λ text. length text ≤ 60038) }
    {
        aaid_reads(&self.aaid);
        let text = self.written(alloc)?;
        Ok(text)
    }

    fn written(&self, alloc: Global) -> Result<Octets, NoMemory>
        ensures is { IfOk result (λ text. text ≡ body_bytes (Body.Bind self.now.aaid self.now.writes)) }
        ensures texts { HaveTexts self.now.writes }
        ensures few { length (each_write_bytes self.now.writes) ≤ 60000 }
    {
        let mut text = coded(alloc, 1, &self.aaid)?;
        write_short(alloc, self.writes.len() as u16, &mut text)?;
        text.extend_from_slice(alloc, self.texts.as_slice())?;
        Ok(text)
    }

    /// The writes as those of a Bind.
    pub fn into_pending(self) -> Pending
        ensures { result ≡ record { aaid = self.aaid; writes = self.writes } }
    {
        let Current {
            aaid,
            writes,
            texts: _,
            spoilt: _,
        } = self;
        Pending { aaid, writes }
    }
}
