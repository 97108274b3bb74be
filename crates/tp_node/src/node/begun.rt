//! A Begin for which nothing can be wanting.
ghost use Rattle.std.specs.Prelude.{◌≡◌, true, [], ◌∷◌, IfSome};
ghost use Rattle.tp_node_state.specs.Outs.{out_of};
ghost use Rattle.tp_node.specs.Begins.{can_begin, begun_sent, has_place_below, with_digest};

use crate::node::{Node, named_holder};
use tp_names::{BranchId, Mark};
use tp_node_state::{Out, next_on, sent};
use tp_records::DialogueRecord;

/// For so many branches a transaction has the memory from its start on.
const ROOM: usize = 256;

impl Node {
    // The current transaction has the memory for one branch more.
    #[tactic(auto, using(crate::proofs::Begun::as_many))]
    fn has_place_below(&self) -> bool
        ensures { result ≡ has_place_below self.now.digest.current }
    {
        match &self.current {
            None => false,
            Some(branch) => branch.branches() < ROOM,
        }
    }

    /// What goes out for a Begin on the arc with that peer; none where Begin may not be sent, and where a number or memory
    /// could be wanting for it.
    #[tactic(auto, using(crate::proofs::Begun::sure, crate::proofs::Begun::says))]
    pub fn plan_begin(&self, peer: u16) -> Option<Out>
        ensures sure { IfSome result (λ out. can_begin self.now.who peer self.now.digest ≡ true) }
        ensures out { IfSome result (λ out. (begun_sent self.now.who peer self.now.digest).1 ≡ out_of out ∷ []) }
    {
        let (Some(aaid), Some(tie)) = (self.aaid(), self.tie(peer)) else {
            return None;
        };
        if !self.has_place_below() || self.drawn == u64::MAX || !self.may_begin_on(tie) {
            return None;
        }
        let mut link = tie.link;
        let Ok(next) = next_on(&mut link) else {
            return None;
        };
        let branch = BranchId {
            superior: self.site,
            mark: Mark {
                boot: self.boot,
                node: self.number,
                count: self.drawn + 1,
            },
        };
        let holder = named_holder(&tie.dialogue);
        let rec = DialogueRecord::Begin {
            aaid,
            branch,
            holder,
        };
        sent(tie.addr(), next, rec)
    }

    /// A Begin for which nothing can be wanting: the branch begins on the arc with that peer, and the record is counted there.
    pub fn begin_planned(&mut self, peer: u16)
        requires { can_begin self.old.who peer self.old.digest ≡ true }
        ensures { self.new ≡ with_digest self.old (begun_sent self.old.who peer self.old.digest).0 }
    {
        let Ok(begun) = self.begin_branch(peer) else {
            unreachable!()
        };
        if let Some(_) = begun {
            let Ok(_) = self.number_next(peer) else {
                unreachable!()
            };
        }
    }
}
