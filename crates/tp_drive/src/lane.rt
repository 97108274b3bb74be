//! One worker's nodes: a site over a share of the log, what it put out, and where it stopped.
ghost use Rattle.std.specs.Prelude.{ℕ, Bool, ◌≡◌, ◌<◌, ◌∷◌, ◌++◌, [], true, None, List, IfOk, IfErr, OnErr, OnOk, length};
ghost use Rattle.tp_records.specs.declared.body.Event.{Event as Given};
ghost use Rattle.tp_model.specs.NodeRun.{node_of};
ghost use Rattle.tp_drive.specs.Begun.{IsBegun};
ghost use Rattle.tp_drive.specs.Works.{Did, HasOnePart, IsBackedBy, IsFresh, Worked};

use crate::Gate;
use crate::answering::answer;
use crate::begun::Begun;
use crate::event_nodes::lane_of;
use crate::stop::{Cause, Stop};
use std::alloc::Global;
use std::collections::VecDeque;
use std::marker::Model;
use std::sync::Wait;
use std::sync::ledger::Ledger;
use tp_names::{NoMemory, SiteName};
use tp_outside::Disk;
use tp_records::{Event, Outputs};
use tp_shared_log::LogShare;
use tp_site::Site;

/// One worker's nodes.
#[derive(Drop)]
pub struct Lane<'a, D: Disk, R: Wait + Sync, L: Begun, M: Ledger> {
    site: Site<LogShare<'a, D, R, L, M>>,
    outs: VecDeque<Outputs>,
    stop: Option<Stop>,
}

impl<'a, D: Disk, R: Wait + Sync, L: Begun, M: Ledger> Model for Lane<'a, D, R, L, M> {
    ghost use Rattle.tp_drive.specs.Works.{Working};

    ghost Value = { Working };

    ghost view = { λ l. record { site = l.site; outs = l.outs.items; stop = l.stop } };
}

impl<'a, D: Disk, R: Wait + Sync, L: Begun, M: Ledger> Lane<'a, D, R, L, M> {
    /// A lane that has done nothing, over a share that has forced nothing: of the nodes whose number is `own` modulo `lanes`,
    /// at a site that has started with that boot number.
    pub fn new(
        alloc: Global,
        share: LogShare<'a, D, R, L, M>,
        name: SiteName,
        boot: u64,
        own: u16,
        lanes: u16,
    ) -> Result<Lane<'a, D, R, L, M>, (LogShare<'a, D, R, L, M>, NoMemory)>
        requires own { own < lanes }
        requires begun { IsBegun L.stood L.wide L.opening name boot }
        requires share { (share.receipts ≡ []) × (share.parts ≡ 1) × (share.stake_parts ≡ 1) }
        ensures fresh { IfOk result (λ l. IsFresh L.stood L.wide L.opening lanes own l) }
        ensures of { IfOk result (λ l. l.site.keeper.of ≡ share.entry.of) }
        ensures err { IfErr result (λ e. e.0 ≡ share.entry) }
    {
        Ok(Lane {
            site: Site::resume(alloc, share, name, boot, own, lanes)?,
            outs: VecDeque::new(alloc),
            stop: None,
        })
    }

    // Gives one event to the site, between the two calls of the gate.
    fn give<G: Gate>(
        &mut self,
        alloc: Global,
        event: &Event,
        number: u64,
        gate: &G,
    ) -> Result<(), Cause>
        requires open { self.old.site.shut ≡ None }
        ensures done { OnOk result ((mine : ℕ → Bool) (gs : List Given) → mine (node_of event.now) ≡ true
            → Did L.stood L.wide L.opening mine self.old gs → Did L.stood L.wide L.opening mine self.new (gs ++ event.now ∷ [])) }
        ensures stopped { OnErr result
            ((mine : ℕ → Bool) (gs : List Given) → mine (node_of event.now) ≡ true → Did L.stood L.wide L.opening mine self.old gs
            → Did L.stood L.wide L.opening mine self.new gs) }
        ensures backed { IfErr result (λ cause. IsBackedBy cause self.new.site.keeper) }
        ensures open { OnOk result (self.new.site.shut ≡ None) }
        ensures stop { self.new.stop ≡ self.old.stop }
        ensures parts { HasOnePart self.old → HasOnePart self.new }
        ensures of { self.new.site.keeper.of ≡ self.old.site.keeper.of }
    {
        if self.outs.reserve(1).is_err() {
            return Err(Cause::Memory);
        }
        gate.before(number);
        let answer = answer(alloc, &mut self.site, event);
        gate.after(number);
        let outs = match answer {
            Ok(outs) => outs,
            Err(cause) => return Err(cause),
        };
        self.outs.push_back_reserved(outs);
        Ok(())
    }

    /// Does the events of one lane in turn, up to the first fault.
    pub fn work<G: Gate>(
        &mut self,
        alloc: Global,
        events: &[Event],
        lanes: usize,
        own: usize,
        gate: &G,
    )
        requires lanes { 0 < lanes }
        requires fresh { IsFresh L.stood L.wide L.opening lanes own self.old }
        ensures worked { Worked L.stood L.wide L.opening lanes own events.now self.new }
        ensures of { self.new.site.keeper.of ≡ self.old.site.keeper.of }
    {
        for i in 0..events.len() {
            if lane_of(&events[i], lanes) != own {
                continue;
            }
            let number = i as u64 + 1;
            if let Err(cause) = self.give(alloc, &events[i], number, gate) {
                self.stop = Some(Stop {
                    event: number,
                    cause,
                });
                return;
            }
        }
    }

    /// What it put out, where it stopped, and its share of the log.
    pub fn close(self) -> (VecDeque<Outputs>, Option<Stop>, LogShare<'a, D, R, L, M>)
        ensures outs { result.0.items ≡ self.entry.outs }
        ensures stop { result.1 ≡ self.entry.stop }
        ensures share { result.2 ≡ self.entry.site.keeper }
    {
        let Lane { site, outs, stop } = self;
        (outs, stop, site.keeper())
    }
}
