//! A Ready or a Done that is only noted on its branch.
ghost use Rattle.std.specs.Prelude.{◌≡◌};
ghost use Rattle.tp_node.specs.Begins.{with_digest};
ghost use Rattle.tp_node.specs.Noted.{only_counts, only_ends, counted_in, ended_in};

use crate::node::Node;
use tp_model::Phase;
use tp_names::Report;

impl Node {
    /// A Ready of that branch is only noted: the transaction is active, and the node has not asked, or waits for another
    /// branch.
    pub fn only_counts(&self, peer: u16) -> bool
        ensures { result ≡ only_counts self.now.digest peer }
    {
        match &self.current {
            None => false,
            Some(branch) => {
                branch.phase() == Phase::Active
                    && (!branch.has_asked() || branch.waits_beside(peer))
            }
        }
    }

    /// A Done of that branch is only noted: commit was ordered, and the user owes its done, or another branch does.
    pub fn only_ends(&self, peer: u16) -> bool
        ensures { result ≡ only_ends self.now.digest peer }
    {
        match &self.current {
            None => false,
            Some(branch) => {
                branch.phase() == Phase::Committing && (branch.owes() || branch.owes_beside(peer))
            }
        }
    }

    /// The branch with that peer is counted, where there is one.
    pub fn count(&mut self, peer: u16)
        ensures { self.new ≡ with_digest self.old (record self.old.digest { current = counted_in self.old.digest.current peer }) }
    {
        if let Some(branch) = &mut self.current {
            branch.count(peer);
        }
    }

    /// The branch with that peer is done, with that report, where there is one.
    pub fn end(&mut self, peer: u16, report: Report)
        ensures { self.new ≡ with_digest self.old (record self.old.digest { current = ended_in self.old.digest.current peer report }) }
    {
        if let Some(branch) = &mut self.current {
            branch.end(peer, report);
        }
    }
}
