//! Where the arcs of a node stand, by their peers.
ghost use Rattle.std.specs.Prelude.{◌≡◌, [], OnOk, OnErr};
ghost use Rattle.tp_node_state.specs.Directory.{place_in};

use indexmap::IndexSet;
use std::alloc::Global;
use std::marker::Model;
use std::sync::Arc;
use tp_names::NoMemory;
use tp_tree::Tie;

/// The peers of the arcs to subordinates, in the order of these: where the arc with a peer is looked for first. Copies of a node
/// share it. What it says is a guess: who looks there sees whether the arc is the one.
#[derive(Debug, Drop)]
pub(crate) struct Directory {
    peers: Option<Arc<IndexSet<u16>>>,
}

impl Model for Directory {
    ghost use Rattle.std.specs.Prelude.{ℕ, List};
    ghost use Rattle.tp_node_state.specs.Directory.{peers_of};

    ghost Value = { List ℕ };

    ghost view = { peers_of };
}

impl Directory {
    /// No peer is known.
    pub(crate) fn new() -> Directory
        ensures { result ≡ [] }
    {
        Directory { peers: None }
    }

    /// Becomes the same one, shared.
    pub(crate) fn copy_from(&mut self, other: &Directory) -> Result<(), NoMemory>
        ensures copy { OnOk result (self.new ≡ other.now) }
        ensures same { OnErr result (self.new ≡ self.old) }
    {
        match &other.peers {
            None => self.forget(),
            Some(peers) => self.peers = Some(Arc::try_clone(peers)?),
        }
        Ok(())
    }

    /// The place where the arc with that peer is looked for first; the one after all that are known where it is not known.
    #[inline(always)]
    pub(crate) fn of(&self, peer: u16) -> usize
        ensures { result ≡ place_in self.now peer }
    {
        let Some(peers) = &self.peers else {
            return 0;
        };
        match peers.get_index_of(&peer) {
            None => peers.len(),
            Some(place) => place,
        }
    }

    /// Every peer is forgotten.
    pub(crate) fn forget(&mut self)
        ensures { self.new ≡ [] }
    {
        if self.peers.is_some() {
            self.peers = None;
        }
    }

    /// Learns the peers of those arcs that stand after the known ones; not all without memory, and none where others share it.
    pub(crate) fn learn(&mut self, alloc: Global, ties: &[Tie]) {
        if self.peers.is_none() {
            let Ok(peers) = Arc::new(alloc, IndexSet::new(alloc)) else {
                return;
            };
            self.peers = Some(peers);
        }
        let Some(shared) = &mut self.peers else {
            return;
        };
        let Some(peers) = Arc::get_mut(shared) else {
            return;
        };
        for place in peers.len()..ties.len() {
            if peers.insert(ties[place].addr().node).is_err() {
                return;
            }
        }
    }
}
