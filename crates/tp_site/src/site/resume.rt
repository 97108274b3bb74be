//! A site that goes on over a log that was started already, with the nodes of one lane.
ghost use Rattle.std.specs.Prelude.{◌≡◌, ◌<◌, ◌++◌, ◌∷◌, List, [], IfOk, OnOk};
ghost use Rattle.tp_logrec.specs.declared.record.LogRec.{LogRec as LogRecord};
ghost use Rattle.tp_model.specs.NodeRun.{Opening};
ghost use Rattle.tp_model.specs.Lanes.{records_in};
ghost use Rattle.tp_site.specs.Nodes.{AreFrom, IsSameSite};
ghost use Rattle.tp_site.specs.Events.{IsAt};
ghost use Rattle.tp_site.specs.Shaped.{AreShapedNodes};
ghost use Rattle.tp_site.specs.Resume.{is_in_lane, is_record_in, IsLaneOf, IsStartedOn, Resumes};

use crate::nodes::Nodes;
use crate::site::{Site, version_of};
use std::alloc::Global;
use tp_journal::Keeper;
use tp_logrec::LogRec;
use tp_names::{NoMemory, SiteName};

// The record is one of a node of that lane.
fn is_in_lane(rec: &LogRec, lane: u16, lanes: u16) -> bool
    requires { lane < lanes }
    ensures { result ≡ is_record_in lane lanes rec.now }
{
    match rec.owner() {
        None => false,
        Some(owner) => owner.node % lanes == lane,
    }
}

// One more record of the log, where it is of a node of that lane.
#[tactic(auto, using(crate::proofs::Lanes::more_in, crate::proofs::Lanes::more_out))]
fn recover(
    alloc: Global,
    nodes: &mut Nodes,
    rec: &LogRec,
    lane: u16,
    lanes: u16,
) -> Result<(), NoMemory>
    requires { lane < lanes }
    ensures recovered { OnOk result
        ((rs : List LogRecord) → AreFrom (records_in lane lanes rs) nodes.old → AreFrom (records_in lane lanes (rs ++ rec.now ∷ [])) nodes.new) }
    ensures site { IsSameSite nodes.old nodes.new }
{
    if !is_in_lane(rec, lane, lanes) {
        return Ok(());
    }
    match nodes.recover(alloc, rec) {
        Ok(()) => Ok(()),
        Err(error) => Err(error),
    }
}

/// What the records of a log tell of the nodes of that lane.
pub(crate) fn lane_of<K: Keeper>(
    alloc: Global,
    keeper: &K,
    name: SiteName,
    boot: u64,
    lane: u16,
    lanes: u16,
) -> Result<Nodes, NoMemory>
    requires { lane < lanes }
    ensures lane { IfOk result (IsLaneOf (K.standing keeper.now) name boot lane lanes) }
    ensures shaped { IfOk result AreShapedNodes }
{
    keeper.texts();
    let mut nodes = Nodes::new(alloc, name, boot, version_of(keeper));
    for i in 0..keeper.count() {
        recover(alloc, &mut nodes, keeper.rec(i), lane, lanes)?;
    }
    Ok(nodes)
}

impl<K: Keeper> Site<K> {
    // Promise 11.12: A site goes on over a log that was started already, for the nodes of one lane,
    //   with nothing forced
    /// Goes on over a log that was started already with that boot number, for the nodes of one lane: those whose number is
    /// `lane` modulo `lanes`. Nothing is forced. Of other nodes' records nothing is looked at, so only events of nodes of the lane
    /// are answered as the definitions say.
    pub fn resume(
        alloc: Global,
        keeper: K,
        name: SiteName,
        boot: u64,
        lane: u16,
        lanes: u16,
    ) -> Result<Site<K>, (K, NoMemory)>
        requires { lane < lanes }
        ensures resumed { Resumes K.standing keeper name boot lane lanes result }
        ensures at { IfOk result (λ s. (o : Opening) → IsStartedOn (K.standing keeper) name boot o → IsAt K.standing (is_in_lane lane lanes) o [] s) }
    {
        match lane_of(alloc, &keeper, name, boot, lane, lanes) {
            Ok(nodes) => Ok(Site {
                keeper,
                nodes,
                spare: None,
                shut: None,
            }),
            Err(fault) => Err((keeper, fault)),
        }
    }
}
