//! One end of a dialogue.
ghost use Rattle.std.specs.Prelude.{◌≡◌, IsSome, OnOk, OnErr, not, ◌&&◌, ◌||◌};
ghost use Rattle.tp_model.specs.Dialogues.{asked_of, heard_of, refused_act, refused_on_arc, is_late_arc, is_past_work, is_spoken, is_silenced, lacks_control, has_open_handshake, is_polarized, has_handshake, has_commit, is_chained, is_unchained, is_superior_side, is_deferred, is_due, arrived, working, fresh_dialogue, Ask_grant, Ask_begin, Ask_defer_end, Ask_defer_grant, Ask_prepare, said, heard, cleared, begun_by, completed, rested, woken, is_late, without_control, acts_or_out};
ghost use Rattle.tp_model.specs.declared.arc.Deferral.{Deferral};
ghost use Rattle.tp_dialogue.specs.Kinds.{asked_value, heard_value};
ghost use Rattle.tp_model.specs.Refusal.{refusal_answered};
ghost use Rattle.tp_model.specs.Disposition.{sight_value};
ghost use Rattle.tp_dialogue.specs.Dialogue.{after_request, arrival, sight_of, sight_at, woken_by, due_value, deferral_sight};

use crate::OutOfPhase;
use crate::kinds::{Asked, Heard};
use std::marker::Model;
use tp_model::Refusal::{
    AlreadyAsked, HandshakeOpen, NoTransaction, NotAsked, TooMany, TransactionOpen, UnitAbsent,
    WrongControl, WrongPhase,
};
use tp_model::{Act, Deferral, Disposition, Phase, Refusal, Side, Situation};
use tp_names::Outcome;
use tp_records::Holder;
use tp_units::{CHAINED, COMMIT, HANDSHAKE, POLARIZED, UNCHAINED, Units};

/// The response that this end owes.
#[derive(Clone, Copy, Debug, PartialEq, Eq)]
enum Due {
    None,
    Response,
    /// It gives this end control, too.
    ResponseWithControl,
}

/// What comes of a record that is not out of phase.
#[derive(Clone, Copy, Debug, PartialEq, Eq)]
pub enum Seen {
    /// It acts, and the user is told.
    Told,
    /// Nothing happens.
    Nothing,
}

/// One end of a dialogue, which contracts see as the dialogue of the definitions, with its side.
#[derive(Clone, Copy, Debug, PartialEq, Eq)]
pub struct Dialogue {
    units: Units,
    side: Side,
    holds: bool,
    awaits: bool,
    due: Due,
    deferral: Deferral,
    rests: bool,
}

impl Model for Dialogue {
    ghost use Rattle.tp_dialogue.specs.Dialogue.{End, end_of, inside_of, inside_of-end_of};

    ghost Value = { End };

    ghost view = { end_of };

    ghost inverse = { inside_of };

    ghost inverse_ok = { λ d h. inside_of-end_of d };
}

impl Dialogue {
    /// A dialogue on which nothing was said; where it is polarized the superior side holds control.
    pub fn new(units: Units, side: Side) -> Dialogue
        ensures { result ≡ record { side = side; dialogue = fresh_dialogue units side } }
    {
        Dialogue {
            units,
            side,
            holds: units.has(POLARIZED) && side == Side::Superior,
            awaits: false,
            due: Due::None,
            deferral: Deferral::None,
            rests: false,
        }
    }

    /// The units that the dialogue was made with.
    pub fn units(&self) -> Units
        ensures { result ≡ self.now.dialogue.units }
    {
        self.units
    }

    /// Whether this end holds control; never where the dialogue is shared.
    pub fn has_control(&self) -> bool
        ensures { result ≡ (is_polarized self.now.dialogue && self.now.dialogue.holds) }
    {
        self.units.has(POLARIZED) && self.holds
    }

    /// The deferral that stands or waits on the arc.
    pub fn deferral(&self) -> Deferral
        ensures { result ≡ self.now.dialogue.deferral }
    {
        self.deferral
    }

    /// This end holds no control, and no handshake is open at it.
    #[tactic(auto, unfolding(tp_model::specs::Dialogues::cleared))]
    pub fn clear(&mut self)
        ensures { self.new ≡ record self.old { dialogue = cleared self.old.dialogue } }
    {
        self.holds = false;
        self.awaits = false;
        self.due = Due::None;
    }

    /// A transaction begins on the arc: no deferral stands or waits; where the dialogue is polarized this
    /// end holds control exactly where the holder is its side. A response that is owed stays owed, and
    /// gives control no more.
    #[tactic(auto, unfolding(tp_model::specs::Dialogues::begun_by))]
    pub fn begin(&mut self, holder: Holder)
        ensures { self.new ≡ record self.old { dialogue = begun_by holder self.old.side self.old.dialogue } }
    {
        let is_holder = match (holder, self.side) {
            (Holder::Superior, Side::Superior) | (Holder::Subordinate, Side::Subordinate) => true,
            _ => false,
        };
        self.holds = self.units.has(POLARIZED) && is_holder;
        self.due = without_control(self.due);
        self.deferral = Deferral::None;
        self.rests = false;
    }

    /// The transaction of the arc is over: where the dialogue is polarized the superior side holds
    /// control; after a rollback, and after a commitment on an unchained arc, no deferral stands.
    pub fn complete(&mut self, outcome: Outcome)
        ensures { self.new ≡ record self.old { dialogue = completed outcome self.old.side self.old.dialogue } }
    {
        self.complete_as(self.side, outcome);
    }

    /// The same, as at an end of that side.
    #[tactic(auto, unfolding(tp_model::specs::Dialogues::completed))]
    pub fn complete_as(&mut self, side: Side, outcome: Outcome)
        ensures { self.new ≡ record self.old { dialogue = completed outcome side self.old.dialogue } }
    {
        let is_superior = side == Side::Superior;
        self.holds = self.units.has(POLARIZED) && is_superior;
        if is_superior {
            self.due = without_control(self.due);
        }
        if outcome == Outcome::Rollback || self.units.has(UNCHAINED) {
            self.deferral = Deferral::None;
        }
    }

    /// No deferral stands or waits: a rollback forgets what was deferred.
    pub fn forget_deferral(&mut self)
        ensures { self.new ≡ record self.old { dialogue = record self.old.dialogue { deferral = Deferral.None } } }
    {
        self.deferral = Deferral::None;
    }

    /// Gives control away, as a Grant does, whatever the situation: a deferred grant is given so.
    pub fn grant(&mut self)
        ensures { self.new ≡ record self.old { dialogue = said Ask_grant self.old.dialogue } }
    {
        self.say(Asked::Grant);
    }

    /// Clears the arc, which then rests.
    #[tactic(auto, unfolding(tp_model::specs::Dialogues::rested, tp_model::specs::Dialogues::cleared))]
    pub fn rest(&mut self)
        ensures { self.new ≡ record self.old { dialogue = rested self.old.dialogue } }
    {
        self.clear();
        self.rests = true;
    }

    /// Ends the rest.
    #[tactic(auto, unfolding(tp_model::specs::Dialogues::woken))]
    pub fn wake(&mut self)
        ensures { self.new ≡ record self.old { dialogue = woken self.old.dialogue } }
    {
        self.rests = false;
    }

    fn lacks_control(&self) -> bool
        ensures { result ≡ lacks_control self.now.dialogue }
    {
        self.units.has(POLARIZED) && !self.holds
    }

    fn has_open_handshake(&self) -> bool
        ensures { result ≡ has_open_handshake self.now.dialogue }
    {
        self.awaits || self.due != Due::None
    }

    fn is_late(&self, s: &Situation) -> bool
        ensures { result ≡ is_late_arc self.now.dialogue s.now }
    {
        is_past_work(s) || self.rests
    }

    // Promise 10.3: A dialogue refuses a request that names a live arc exactly by its table
    /// Why this end refuses a request in a situation: the refusal with the least number of its row that applies. The
    /// length is that of the octets that are asked to be sent. It takes no memory.
    #[tactic(auto, unfolding(tp_model::specs::Dialogues::refused_on_arc))]
    pub fn refused(&self, s: &Situation, octets: u16, asked: Asked) -> Option<Refusal>
        ensures { result ≡ refused_on_arc self.now.side self.now.dialogue s.now octets (asked_value asked) }
    {
        let late = self.is_late(s);
        let spoken = is_spoken(s);
        let open = self.has_open_handshake();
        let no_control = self.lacks_control();
        let shared = !self.units.has(POLARIZED);
        let no_handshake = !self.units.has(HANDSHAKE);
        let no_branch = self.units.has(CHAINED) && !s.branch;
        match asked {
            Asked::End => Refusal::first(&[
                (self.rests, WrongPhase),
                (no_control, WrongControl),
                (open, HandshakeOpen),
                (s.branch, TransactionOpen),
            ]),
            Asked::Data => Refusal::first(&[
                (late, WrongPhase),
                (no_control, WrongControl),
                (open, HandshakeOpen),
                (no_branch, NoTransaction),
                (spoken, AlreadyAsked),
                (octets > 1024, TooMany),
            ]),
            Asked::Error => Refusal::first(&[(late, WrongPhase), (spoken, AlreadyAsked)]),
            Asked::Abort => Refusal::first(&[(is_past_work(s), WrongPhase)]),
            Asked::Grant => Refusal::first(&[
                (late, WrongPhase),
                (no_control, WrongControl),
                (shared, UnitAbsent),
                (open, HandshakeOpen),
                (no_branch, NoTransaction),
                (spoken, AlreadyAsked),
            ]),
            Asked::Control => Refusal::first(&[
                (late, WrongPhase),
                (!shared && self.holds, WrongControl),
                (shared, UnitAbsent),
                (spoken, AlreadyAsked),
            ]),
            Asked::Handshake => Refusal::first(&[
                (late, WrongPhase),
                (no_control, WrongControl),
                (no_handshake, UnitAbsent),
                (open, HandshakeOpen),
                (spoken, AlreadyAsked),
            ]),
            Asked::Respond => Refusal::first(&[
                (late, WrongPhase),
                (no_handshake, UnitAbsent),
                (self.due == Due::None, NotAsked),
            ]),
            Asked::HandshakeGrant => Refusal::first(&[
                (late, WrongPhase),
                (no_control, WrongControl),
                (no_handshake || shared, UnitAbsent),
                (open, HandshakeOpen),
                (no_branch, NoTransaction),
                (spoken, AlreadyAsked),
            ]),
            Asked::Begin => self.refused_begin(s),
            Asked::DeferEnd => self.refused_defer_end(s),
            Asked::DeferGrant => self.refused_defer_grant(s),
            Asked::Prepare => self.refused_prepare(s),
        }
    }

    // Of a begin-transaction.
    #[tactic(auto, unfolding(tp_model::specs::Dialogues::refused_on_arc))]
    fn refused_begin(&self, s: &Situation) -> Option<Refusal>
        ensures { result ≡ refused_on_arc self.now.side self.now.dialogue s.now 0 Ask_begin }
    {
        let below = self.side == Side::Subordinate;
        Refusal::first(&[
            (is_late_phase(s.phase) || self.rests, WrongPhase),
            (self.lacks_control(), WrongControl),
            (below || !self.units.has(UNCHAINED), UnitAbsent),
            (s.branch, TransactionOpen),
            (s.asked, AlreadyAsked),
        ])
    }

    // The end is not the superior's, or there are no transactions on the dialogue.
    fn lacks_branches(&self) -> bool
        ensures { result ≡ (not (is_superior_side self.now.side) || not (has_commit self.now.dialogue)) }
    {
        self.side == Side::Subordinate || !self.units.has(COMMIT)
    }

    // Of a deferred end.
    #[tactic(auto, unfolding(tp_model::specs::Dialogues::refused_on_arc))]
    fn refused_defer_end(&self, s: &Situation) -> Option<Refusal>
        ensures { result ≡ refused_on_arc self.now.side self.now.dialogue s.now 0 Ask_defer_end }
    {
        let deferred = self.deferral != Deferral::None;
        Refusal::first(&[
            (self.is_late(s), WrongPhase),
            (self.lacks_branches(), UnitAbsent),
            (!s.branch, NoTransaction),
            (is_spoken(s) || deferred, AlreadyAsked),
        ])
    }

    // Of a deferred grant.
    #[tactic(auto, unfolding(tp_model::specs::Dialogues::refused_on_arc))]
    fn refused_defer_grant(&self, s: &Situation) -> Option<Refusal>
        ensures { result ≡ refused_on_arc self.now.side self.now.dialogue s.now 0 Ask_defer_grant }
    {
        let deferred = self.deferral != Deferral::None;
        let shared = !self.units.has(POLARIZED);
        Refusal::first(&[
            (self.is_late(s), WrongPhase),
            (self.lacks_branches() || shared, UnitAbsent),
            (!s.branch, NoTransaction),
            (is_spoken(s) || deferred, AlreadyAsked),
        ])
    }

    // Of a prepare.
    #[tactic(auto, unfolding(tp_model::specs::Dialogues::refused_on_arc))]
    fn refused_prepare(&self, s: &Situation) -> Option<Refusal>
        ensures { result ≡ refused_on_arc self.now.side self.now.dialogue s.now 0 Ask_prepare }
    {
        Refusal::first(&[
            (self.is_late(s), WrongPhase),
            (self.lacks_branches(), UnitAbsent),
            (!s.branch, NoTransaction),
            (is_spoken(s), AlreadyAsked),
        ])
    }

    /// Says what is asked, whatever the situation: what an accepted request makes of this end.
    #[tactic(auto, unfolding(tp_model::specs::Dialogues::said))]
    pub fn say(&mut self, asked: Asked)
        ensures { self.new ≡ record self.old { dialogue = said (asked_value asked) self.old.dialogue } }
    {
        match asked {
            Asked::Grant => self.holds = false,
            Asked::Handshake => self.awaits = true,
            Asked::Respond => {
                self.holds = self.holds || self.due == Due::ResponseWithControl;
                self.due = Due::None;
            }
            Asked::HandshakeGrant => {
                self.awaits = true;
                self.holds = false;
            }
            Asked::DeferEnd => self.deferral = Deferral::End,
            Asked::DeferGrant => self.deferral = Deferral::Grant,
            Asked::End
            | Asked::Data
            | Asked::Error
            | Asked::Abort
            | Asked::Control
            | Asked::Begin
            | Asked::Prepare => {}
        }
    }

    // Promise 10.3, part 2
    /// The user asks. The primitive is a request that names a live arc, by its code from 4 to 16, with
    /// the length of its octets. It is refused by the least number of its row that applies in the
    /// situation, and then changes nothing.
    pub fn request(&mut self, s: Situation, act: Act) -> Result<(), Refusal>
        requires { IsSome (asked_of act.code) }
        ensures answer { refusal_answered result ≡ refused_act self.old.side self.old.dialogue s act }
        ensures said { OnOk result (self.new ≡ after_request act self.old) }
        ensures same { OnErr result (self.new ≡ self.old) }
    {
        let Some(asked) = Asked::of(act.code) else {
            return Ok(());
        };
        if let Some(refusal) = self.refused(&s, act.octets, asked) {
            return Err(refusal);
        }
        self.say(asked);
        Ok(())
    }

    // Work on a branch that has gone past it does nothing, unless the branch is over.
    fn working(&self, s: &Situation, out_of_phase: bool) -> Disposition
        ensures { sight_value result ≡ working s.now out_of_phase }
    {
        if is_silenced(s) {
            Disposition::Nothing
        } else {
            acts_or_out(!out_of_phase)
        }
    }

    // What comes of a record. Rest is not looked at.
    #[tactic(auto, unfolding(tp_model::specs::Dialogues::arrived))]
    fn arrived(&self, s: &Situation, heard: Heard) -> Disposition
        ensures { sight_value result ≡ arrived self.now.side self.now.dialogue s.now (heard_value heard) }
    {
        let shared = !self.units.has(POLARIZED);
        let no_handshake = !self.units.has(HANDSHAKE);
        let no_branch = self.units.has(CHAINED) && !s.branch;
        let owes = self.due != Due::None;
        let may_defer = s.branch && s.phase == Phase::Active && self.deferral == Deferral::None;
        match heard {
            Heard::End => acts_or_out((!s.branch || s.done || s.left) && !self.holds),
            Heard::Data => self.working(s, self.holds || no_branch),
            Heard::Error => self.working(s, false),
            Heard::Grant => self.working(s, self.holds || no_branch || shared),
            Heard::Control => self.working(s, shared),
            Heard::Handshake => self.working(s, self.holds || no_handshake || owes),
            Heard::HandshakeGrant => self.working(
                s,
                self.holds || no_branch || shared || no_handshake || owes,
            ),
            Heard::Response => self.working(s, no_handshake || !self.awaits),
            Heard::DeferEnd => self.deferred(s, may_defer),
            Heard::DeferGrant => self.deferred(s, may_defer && !shared),
        }
    }

    // A deferral comes from the superior alone; it acts, or, while the transaction rolls, does nothing.
    fn deferred(&self, s: &Situation, acts: bool) -> Disposition
        ensures { sight_value result ≡ deferral_sight self.now.side s.now acts }
    {
        if self.side == Side::Superior {
            Disposition::OutOfPhase
        } else if acts {
            Disposition::Acts
        } else if s.phase == Phase::Rolling {
            Disposition::Nothing
        } else {
            Disposition::OutOfPhase
        }
    }

    // Promise 10.4: A record of work, a deferral or an end of the dialogue acts, does nothing, or
    //   is out of phase exactly by the table
    /// What comes of a record in a situation. A response on a resting arc does nothing.
    pub fn disposition(&self, s: &Situation, heard: Heard) -> Disposition
        ensures { sight_value result ≡ sight_at self.now s.now (heard_value heard) }
    {
        if self.rests && heard == Heard::Response {
            return Disposition::Nothing;
        }
        self.arrived(s, heard)
    }

    /// Hears a record that acts, whatever the situation; a rest is not ended by it.
    #[tactic(auto, unfolding(tp_model::specs::Dialogues::heard))]
    pub fn hear(&mut self, kind: Heard)
        ensures { self.new ≡ record self.old { dialogue = heard (heard_value kind) self.old.dialogue } }
    {
        match kind {
            Heard::Grant => {
                self.holds = true;
                self.due = without_control(self.due);
            }
            Heard::Handshake => self.due = Due::Response,
            Heard::HandshakeGrant => self.due = Due::ResponseWithControl,
            Heard::Response => self.awaits = false,
            Heard::DeferEnd => self.deferral = Deferral::End,
            Heard::DeferGrant => self.deferral = Deferral::Grant,
            Heard::End | Heard::Data | Heard::Error | Heard::Control => {}
        }
    }

    // Any record but a response ends the rest.
    fn wake_by(&mut self, kind: Heard)
        ensures { self.new ≡ record self.old { dialogue = woken_by (heard_value kind) self.old.dialogue } }
    {
        if kind != Heard::Response {
            self.wake();
        }
    }

    // Promise 10.4, part 2
    /// A record arrives that the dialogue judges, by its code from 1 to 11 but the abort's, with the
    /// length of its octets. It acts, or nothing happens, or it is out of phase, which changes nothing. A
    /// response on a resting arc does nothing; any other record that is not out of phase ends the rest.
    pub fn arrive(&mut self, s: Situation, act: Act) -> Result<Seen, OutOfPhase>
        requires { IsSome (heard_of act.code) }
        ensures answer { sight_of result ≡ (arrival self.old s act).0 }
        ensures state { self.new ≡ (arrival self.old s act).1 }
    {
        let Some(heard) = Heard::of(act.code) else {
            return Ok(Seen::Nothing);
        };
        match self.disposition(&s, heard) {
            Disposition::OutOfPhase => Err(OutOfPhase),
            Disposition::Nothing => {
                self.wake_by(heard);
                Ok(Seen::Nothing)
            }
            Disposition::Acts => {
                self.wake_by(heard);
                self.hear(heard);
                Ok(Seen::Told)
            }
        }
    }
}

fn acts_or_out(acts: bool) -> Disposition
    ensures { sight_value result ≡ acts_or_out acts }
{
    if acts {
        Disposition::Acts
    } else {
        Disposition::OutOfPhase
    }
}

// Past work on a branch that is not over.
fn is_silenced(s: &Situation) -> bool
    ensures { result ≡ is_silenced s.now }
{
    let is_over = s.done || s.left && (s.phase == Phase::Committing || s.phase == Phase::Rolling);
    is_past_work(s) && !is_over
}

fn is_late_phase(phase: Phase) -> bool
    ensures { result ≡ is_late phase }
{
    match phase {
        Phase::Nil | Phase::Active => false,
        Phase::Ready | Phase::Committing | Phase::Rolling => true,
    }
}

// The arc's transaction has gone past work on it.
fn is_past_work(s: &Situation) -> bool
    ensures { result ≡ is_past_work s.now }
{
    s.branch && (is_late_phase(s.phase) || s.left)
}

// The node has asked, or told the arc to prepare.
fn is_spoken(s: &Situation) -> bool
    ensures { result ≡ is_spoken s.now }
{
    s.branch && s.asked || s.prepared
}

// A response that is owed gives no control any more.
fn without_control(due: Due) -> Due
    ensures { due_value result ≡ without_control (due_value due) }
{
    match due {
        Due::None => Due::None,
        Due::Response | Due::ResponseWithControl => Due::Response,
    }
}
