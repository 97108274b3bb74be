//! Events that are run on their node itself, and not on a draft of it: what they say is known before anything is so.
ghost use Rattle.std.specs.Prelude.{◌≡◌, true, false, None, Some, Ok, IfOk, OnOk};
ghost use Rattle.tp_model.specs.declared.refusal.Refusal.{Refusal};
ghost use Rattle.tp_model.specs.Arrivals.{refused_arrival};
ghost use Rattle.tp_model.specs.Parts.{Do, Arrive};
ghost use Rattle.tp_model.specs.Events.{refused_plainly};
ghost use Rattle.tp_draft.specs.Answers.{IsPlain};
ghost use Rattle.tp_node.specs.declared.event.NodeEvent.{NodeEvent};
ghost use Rattle.tp_node.specs.Begins.{with_digest};
ghost use Rattle.tp_node.specs.NodeEvent.{refused_at_once};
ghost use Rattle.tp_records.specs.declared.request.Request.{Request as Asks};
ghost use Rattle.tp_site.specs.InPlace.{IsPlanned, run_in_place, can_run, arrived_in_place, asked_in_place, can_ask, is_only_noted, told_of};

use tp_model::Disposition;
use tp_names::{Addr, NoMemory, Report};
use tp_node::{Node, NodeEvent};
use tp_node_state::Outs;
use tp_records::{DialogueRecord, Indication, PeerRecord, Request};

// A Ready or a Done that is only noted on its branch.
fn is_only_noted(node: &Node, peer: u16, rec: &DialogueRecord) -> bool
    ensures { result ≡ is_only_noted node.now.digest peer rec.now }
{
    match rec {
        DialogueRecord::Ready => node.only_counts(peer),
        DialogueRecord::Done { .. } => node.only_ends(peer),
        _ => false,
    }
}

// What the user is told of a Ready or of a Done stands there then.
fn tell(peer: u16, rec: &DialogueRecord, outs: &mut Outs) -> Result<(), NoMemory>
    ensures { OnOk result (outs.new ≡ told_of peer rec.now) }
{
    outs.clear();
    match rec {
        DialogueRecord::Ready => outs.tell(Indication::Ready { peer })?,
        DialogueRecord::Done { report } => {
            let report = *report;
            if report != Report::None {
                outs.tell(Indication::HeuristicReport { peer, report })?;
            }
        }
        _ => {}
    }
    Ok(())
}

// Of a record that arrives.
fn plan_arrival(
    node: &Node,
    from: &Addr,
    rec: &PeerRecord,
    outs: &mut Outs,
) -> Result<bool, NoMemory>
    ensures plain { (x : Refusal) → refused_plainly node.now.who node.now.digest (Arrive from.now rec.now) ≡ Some x → result ≡ Ok false }
    ensures planned { IfOk result (λ planned. planned ≡ true → IsPlanned node.now (NodeEvent.Arrive from.now rec.entry) outs.new) }
{
    let PeerRecord::OnAssoc { rec: said, .. } = rec else {
        return Ok(false);
    };
    let _drawn = node.drawn();
    let peer = from.node;
    if !is_only_noted(node, peer, said) {
        return Ok(false);
    }
    let Ok(Some(Disposition::Acts)) = node.judge_arrival(from, rec) else {
        return Ok(false);
    };
    tell(peer, said, outs)?;
    Ok(true)
}

// Of a request: a Begin for which nothing can be wanting.
fn plan_request(node: &Node, request: &Request, outs: &mut Outs) -> Result<bool, NoMemory>
    ensures plain { (x : Refusal) → refused_plainly node.now.who node.now.digest (Do request.now) ≡ Some x → result ≡ Ok false }
    ensures planned { IfOk result (λ planned. planned ≡ true → IsPlanned node.now (NodeEvent.Do request.entry) outs.new) }
{
    match request {
        Request::BeginTransaction { peer } => plan_begin(node, *peer, request, outs),
        _ => Ok(false),
    }
}

// Of that request, which is to begin a transaction with that peer.
fn plan_begin(node: &Node, peer: u16, request: &Request, outs: &mut Outs) -> Result<bool, NoMemory>
    requires { request.now ≡ Asks.BeginTransaction peer }
    ensures plain { (x : Refusal) → refused_plainly node.now.who node.now.digest (Do request.now) ≡ Some x → result ≡ Ok false }
    ensures planned { IfOk result (λ planned. planned ≡ true → IsPlanned node.now (NodeEvent.Do request.entry) outs.new) }
{
    let Some(out) = node.plan_begin(peer) else {
        return Ok(false);
    };
    if let Some(_refusal) = node.refused_do(request) {
        return Ok(false);
    }
    outs.clear();
    outs.push(out)?;
    Ok(true)
}

/// Whether the event is one that is run on its node itself, and not on a draft; what it says stands there then.
pub(crate) fn plan(node: &Node, event: &NodeEvent<'_>, outs: &mut Outs) -> Result<bool, NoMemory>
    ensures plain { (x : Refusal) → IsPlain node.now event.now x → result ≡ Ok false }
    ensures planned { IfOk result (λ planned. planned ≡ true → IsPlanned node.now event.now outs.new) }
{
    match event {
        NodeEvent::Do { request } => plan_request(node, request, outs),
        NodeEvent::Arrive { from, rec } => plan_arrival(node, from, rec, outs),
        _ => Ok(false),
    }
}

// A record that arrives.
fn apply_arrival(node: &mut Node, from: Addr, rec: &PeerRecord)
    requires { refused_arrival node.old.who node.old.digest from rec.now ≡ None }
    ensures { node.new ≡ with_digest node.old (arrived_in_place from.node rec.now node.old.digest) }
{
    let PeerRecord::OnAssoc { x, y, seq, rec } = rec else {
        return;
    };
    let peer = from.node;
    match rec {
        DialogueRecord::Ready => {
            node.take(peer, *x, *y, *seq, rec);
            node.count(peer);
        }
        DialogueRecord::Done { report } => {
            node.take(peer, *x, *y, *seq, rec);
            node.end(peer, *report);
        }
        _ => {}
    }
}

// A request.
fn apply_request(node: &mut Node, request: &Request)
    requires { can_ask node.old.who request.now node.old.digest ≡ true }
    ensures { node.new ≡ with_digest node.old (asked_in_place node.old.who request.now node.old.digest) }
{
    match request {
        Request::BeginTransaction { peer } => node.begin_planned(*peer),
        _ => {}
    }
}

/// An event that is planned happens.
pub(crate) fn apply(node: &mut Node, event: &NodeEvent<'_>)
    requires refused { refused_at_once node.old.who node.old.digest event.now ≡ None }
    requires sure { can_run node.old.who event.now node.old.digest ≡ true }
    ensures { node.new ≡ with_digest node.old (run_in_place node.old.who event.now node.old.digest) }
{
    match event {
        NodeEvent::Do { request } => apply_request(node, request),
        NodeEvent::Arrive { from, rec } => apply_arrival(node, *from, rec),
        _ => {}
    }
}
