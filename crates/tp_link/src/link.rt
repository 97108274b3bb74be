//! One end of an association.
ghost use Rattle.std.specs.Prelude.{◌≡◌, ◌<◌, OnErr, OnOk, IsTrue};
ghost use Rattle.tp_model.specs.Parts.{Idle, Opening, Offered};
ghost use Rattle.tp_model.specs.Links.{is_idle, is_offered, dropped_by, with_one_taken};
ghost use Rattle.tp_link.specs.Link.{state_of, caller_mark, answerer_mark, left_of, with_answer, bound_by, refusal_answered, is_next, with_one_sent};

use crate::{Dropped, LinkState};
use std::marker::Model;
use tp_names::Mark;

/// What an end keeps. Of a live association, how many records were sent and taken.
#[derive(Clone, Copy, Debug, PartialEq, Eq)]
enum End {
    Idle,
    Opening {
        x: Mark,
    },
    Offered {
        x: Mark,
    },
    Live {
        x: Mark,
        y: Mark,
        sent: u64,
        taken: u64,
    },
}

/// One end of an association, which contracts see as the link of the definitions.
///
/// `x` is the caller's mark, `y` the answerer's. Records are numbered from 0, each way by itself.
#[derive(Clone, Copy, Debug, PartialEq, Eq)]
pub struct Link {
    end: End,
}

impl Model for Link {
    ghost use Rattle.tp_model.specs.Parts.{Link as LinkValue};

    ghost Value = { LinkValue };

    ghost use Rattle.tp_link.specs.Link.{link_of, inside_of, inside_of-link_of};

    ghost view = { link_of };

    ghost inverse = { inside_of };

    ghost inverse_ok = { λ l h. inside_of-link_of l };
}

impl Link {
    /// No association.
    pub fn idle() -> Link
        ensures { result ≡ Idle }
    {
        Link { end: End::Idle }
    }

    /// The state of this end.
    pub fn state(&self) -> LinkState
        ensures { result ≡ state_of self.now }
    {
        match self.end {
            End::Idle => LinkState::Idle,
            End::Opening { .. } => LinkState::Opening,
            End::Offered { .. } => LinkState::Offered,
            End::Live { .. } => LinkState::Live,
        }
    }

    /// The caller's mark where there is an association, and the answerer's where it is live.
    pub fn marks(&self) -> (Option<Mark>, Option<Mark>)
        ensures caller { result.0 ≡ caller_mark self.now }
        ensures answerer { result.1 ≡ answerer_mark self.now }
    {
        match self.end {
            End::Idle => (None, None),
            End::Opening { x } | End::Offered { x } => (Some(x), None),
            End::Live { x, y, .. } => (Some(x), Some(y)),
        }
    }

    /// How many more records can be sent: none where the link is not live.
    pub fn left(&self) -> u64
        ensures { result ≡ left_of self.now }
    {
        match self.end {
            End::Live { sent, .. } => u64::MAX - sent,
            End::Idle | End::Opening { .. } | End::Offered { .. } => 0,
        }
    }

    /// This end calls, with its mark.
    pub fn call(&mut self, x: Mark)
        requires { IsTrue (is_idle self.old) }
        ensures { self.new ≡ Opening x }
    {
        self.end = End::Opening { x };
    }

    /// The peer has called, with its mark.
    pub fn offered(&mut self, x: Mark)
        requires { IsTrue (is_idle self.old) }
        ensures { self.new ≡ Offered x }
    {
        self.end = End::Offered { x };
    }

    /// This end answers the call, with its mark; nothing was sent or taken yet.
    pub fn accept(&mut self, y: Mark)
        requires { IsTrue (is_offered self.old) }
        ensures { self.new ≡ with_answer y self.old }
    {
        if let End::Offered { x } = self.end {
            self.end = End::Live {
                x,
                y,
                sent: 0,
                taken: 0,
            };
        }
    }

    /// The peer answers the call: live exactly where this end is opening with that mark, else dropped
    /// by 21 and unchanged.
    pub fn bound(&mut self, x: Mark, y: Mark) -> Result<(), Dropped>
        ensures answer { refusal_answered result ≡ (bound_by self.old x y).0 }
        ensures state { self.new ≡ (bound_by self.old x y).1 }
    {
        let End::Opening { x: own } = self.end else {
            return Err(Dropped::OldAssociation);
        };
        if own != x {
            return Err(Dropped::OldAssociation);
        }
        self.end = End::Live {
            x,
            y,
            sent: 0,
            taken: 0,
        };
        Ok(())
    }

    /// The association is gone.
    pub fn lose(&mut self)
        ensures { self.new ≡ Idle }
    {
        self.end = End::Idle;
    }

    /// The pair and the number of the next record that this end sends; the count rises by one.
    pub fn send(&mut self) -> (Mark, Mark, u64)
        requires { 0 < left_of self.old }
        ensures next { IsTrue (is_next self.old result.0 result.1 result.2) }
        ensures counted { self.new ≡ with_one_sent self.old }
    {
        match self.end {
            End::Live { x, y, sent, taken } => {
                self.end = End::Live {
                    x,
                    y,
                    sent: sent + 1,
                    taken,
                };
                (x, y, sent)
            }
            End::Idle | End::Opening { .. } | End::Offered { .. } => unreachable!(),
        }
    }

    // Promise 10.2: An association takes a record exactly where it is live, and the record has its
    //   pair and the next number, which is not the greatest u64
    /// Takes a record with this pair and number: dropped by 21 exactly where the link is not live with
    /// this pair, else by 22 exactly where the number is not the count of records taken or is the
    /// greatest; unchanged when dropped.
    pub fn take(&mut self, x: Mark, y: Mark, seq: u64) -> Result<(), Dropped>
        ensures answer { refusal_answered result ≡ dropped_by self.old x y seq }
        ensures taken { OnOk result (self.new ≡ with_one_taken self.old) }
        ensures same { OnErr result (self.new ≡ self.old) }
    {
        let End::Live {
            x: own_x,
            y: own_y,
            sent,
            taken,
        } = self.end
        else {
            return Err(Dropped::OldAssociation);
        };
        if own_x != x || own_y != y {
            return Err(Dropped::OldAssociation);
        }
        if seq != taken || seq == u64::MAX {
            return Err(Dropped::OutOfOrder);
        }
        self.end = End::Live {
            x,
            y,
            sent,
            taken: taken + 1,
        };
        Ok(())
    }
}
