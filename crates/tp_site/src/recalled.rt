//! The nodes of a site as the records of its log alone tell them, for a judge of logs.
ghost use Rattle.std.specs.Prelude.{◌≡◌, Some, IfOk};
ghost use Rattle.tp_site.specs.Recalled.{IsRecalled, log_at, recalled_answer};

use crate::nodes::Nodes;
use std::alloc::Global;
use std::marker::Model;
use tp_logrec::{LogRec, LogVersion};
use tp_model::Question;
use tp_names::{Aaid, BranchId, NoMemory, SiteName};
use tp_records::RecState;
use tp_recover::answer;

/// The nodes of a site as a start on its log finds them, where nothing has happened since.
#[derive(Debug, Drop)]
pub struct Recalled {
    nodes: Nodes,
}

impl Model for Recalled {
    ghost use Rattle.tp_site.specs.Recalled.{Recalled as RecalledValue};

    ghost Value = { RecalledValue };

    ghost view = { λ r. record { nodes = r.nodes } };
}

impl Recalled {
    // Promise 11.13: What the records of a site's log make a node answer to a ready branch that
    //   asks is what the definitions answer after a start on that log, where they do not refuse
    //   who asks as one at another address
    /// The nodes of the site of that name, from the records of its log, oldest first. No answer depends on the boot number of
    /// a start, so none is asked for.
    #[tactic(auto, using(crate::proofs::Recalling::recalled))]
    pub fn from_records(
        alloc: Global,
        site: SiteName,
        version: LogVersion,
        records: &[LogRec],
    ) -> Result<Recalled, NoMemory>
        ensures { IfOk result (IsRecalled (log_at site version records.now)) }
    {
        let nodes = Nodes::from_records(alloc, site, 0, version, records)?;
        Ok(Recalled { nodes })
    }

    // Promise 11.13, part 2
    /// What the node of that number answers to a ready branch that asks what became of its transaction, whoever asks: the
    /// outcome, that it is to ask later, or that nothing is known.
    #[tactic(auto, using(crate::proofs::Numbered::found, crate::proofs::Recalling::unfound_answer, crate::proofs::Recalling::answers_ready))]
    pub fn answer(&self, node: u16, aaid: &Aaid, branch: &BranchId) -> RecState
        ensures { Some result ≡ recalled_answer self.now node aaid.now branch.now }
    {
        let Some(node) = self.nodes.find(node) else {
            return RecState::Unknown;
        };
        match answer(node.known_by_branch(aaid, branch), Question::RecReady) {
            Some(state) => state,
            None => unreachable!(),
        }
    }
}
