//! The outputs of a node.
ghost use Rattle.std.specs.Prelude.{◌≡◌, ◌<◌, [], ◌∷◌, ◌++◌, OnOk, OnErr, Some, map, vec_len, vec_capacity};
ghost use Rattle.tp_model.specs.Parts.{Tell, Send};
ghost use Rattle.tp_model.specs.Events.{is_past_numbers, some_past_numbers, says_nothing};
ghost use Rattle.tp_node_state.specs.Outs.{out_of, outs_of_option, outs_with};

use std::alloc::Global;
use std::marker::Model;
use tp_names::{Addr, Mark, NoMemory};
use tp_records::{DialogueRecord, Indication, PeerRecord};

/// An output of a node: an indication to its user, or a record to another node.
#[derive(Drop)]
pub enum Out {
    Tell(Indication),
    Send { to: Addr, rec: PeerRecord },
}

/// Where a record goes on an association, and its pair and number there.
#[derive(Clone, Copy, Debug)]
pub struct Next {
    pub(crate) to: Addr,
    pub(crate) x: Mark,
    pub(crate) y: Mark,
    pub(crate) seq: u64,
}

/// A list of outputs, which contracts see as that of the definitions.
#[derive(Drop)]
pub struct Outs {
    items: Vec<Out>,
}

impl Model for Outs {
    ghost use Rattle.std.specs.Prelude.{List};
    ghost use Rattle.tp_model.specs.Parts.{Out as OutValue};

    ghost Value = { List OutValue };

    ghost use Rattle.tp_node_state.specs.Outs.{outs_of};

    ghost view = { outs_of };
}

impl Outs {
    /// No output.
    pub fn new(alloc: Global) -> Outs
        ensures { result ≡ [] }
    {
        Outs {
            items: Vec::new(alloc),
        }
    }

    /// Puts an output at the end. Without memory nothing changes, as in the calls below.
    #[inline(always)]
    pub fn push(&mut self, out: Out) -> Result<(), NoMemory>
        ensures added { OnOk result (self.new ≡ self.old ++ out_of out ∷ []) }
        ensures same { OnErr result (self.new ≡ self.old) }
    {
        make_room(&mut self.items)?;
        self.items.push_reserved(out);
        Ok(())
    }

    /// Puts an output at the end, where there is one.
    pub fn extend(&mut self, out: Option<Out>) -> Result<(), NoMemory>
        ensures added { OnOk result (self.new ≡ self.old ++ outs_of_option out) }
        ensures same { OnErr result (self.new ≡ self.old) }
    {
        match out {
            None => Ok(()),
            Some(out) => self.push(out),
        }
    }

    /// An indication to the user.
    #[inline(always)]
    pub fn tell(&mut self, indication: Indication) -> Result<(), NoMemory>
        ensures added { OnOk result (self.new ≡ self.old ++ Tell indication ∷ []) }
        ensures same { OnErr result (self.new ≡ self.old) }
    {
        make_room(&mut self.items)?;
        self.items.push_reserved(Out::Tell(indication));
        Ok(())
    }

    /// A record to another node.
    pub fn send(&mut self, to: Addr, rec: PeerRecord) -> Result<(), NoMemory>
        ensures added { OnOk result (self.new ≡ self.old ++ Send to rec ∷ []) }
        ensures same { OnErr result (self.new ≡ self.old) }
    {
        make_room(&mut self.items)?;
        self.items.push_reserved(Out::Send { to, rec });
        Ok(())
    }

    /// A record on an association.
    #[inline(always)]
    pub fn carry(&mut self, next: &Next, rec: DialogueRecord) -> Result<(), NoMemory>
        ensures added { OnOk result (self.new ≡ self.old ++ outs_with (Some next.now) rec) }
        ensures same { OnErr result (self.new ≡ self.old) }
    {
        make_room(&mut self.items)?;
        self.items.push_reserved(Out::Send {
            to: next.to,
            rec: PeerRecord::OnAssoc {
                x: next.x,
                y: next.y,
                seq: next.seq,
                rec,
            },
        });
        Ok(())
    }

    /// The outputs, in order.
    pub fn as_slice(&self) -> &[Out]
        ensures { map out_of result.now ≡ self.now }
    {
        self.items.as_slice()
    }

    /// The outputs, in order. It takes no memory.
    pub fn into_vec(self) -> Vec<Out>
        ensures { map out_of result.items ≡ self }
    {
        let Outs { items } = self;
        items
    }

    /// There is none any more; the memory stays for the next ones.
    pub fn clear(&mut self)
        ensures { self.new ≡ [] }
    {
        self.items.clear();
    }

    /// There is none.
    pub fn is_empty(&self) -> bool
        ensures { result ≡ says_nothing self.now }
    {
        self.items.is_empty()
    }

    /// One of them is a record whose association has no number for it.
    pub fn is_spent(&self) -> bool
        ensures { result ≡ some_past_numbers self.now }
    {
        for out in self.items.as_slice() {
            if is_past_numbers(out) {
                return true;
            }
        }
        false
    }
}

// There is room for one more.
fn make_room(items: &mut Vec<Out>) -> Result<(), NoMemory>
    ensures same { items.new.items ≡ items.old.items }
    ensures room { OnOk result (vec_len items.new < vec_capacity items.new) }
{
    if items.len() == items.capacity() {
        items.reserve(1)?;
    }
    Ok(())
}

// A record on an association has a number below the greatest.
fn is_past_numbers(out: &Out) -> bool
    ensures { result ≡ is_past_numbers (out_of out.now) }
{
    match out {
        Out::Send {
            rec: PeerRecord::OnAssoc { seq, .. },
            ..
        } => *seq == u64::MAX,
        _ => false,
    }
}
