//! One branch of a transaction, and its arc as far as the transaction sees it.
ghost use Rattle.std.specs.Prelude.{◌≡◌, false};
ghost use Rattle.tp_model.specs.Transactions.{fresh_branch, child_of, report_of_branch};
ghost use Rattle.tp_commit.specs.Row.{noted};
ghost use Rattle.tp_commit.specs.Branch.{standing_row, seen_at};

use std::marker::Model;
use tp_names::{Addr, BranchId, Child, Report};

/// A branch: Prepare was sent, Ready was taken, it left, it is done or rolled back with its report, it was
/// given up. Of its arc, whether it is live, and whether a deferred end stands on it.
#[derive(Clone, Copy, Debug)]
pub(crate) struct Row {
    pub(crate) peer: Addr,
    pub(crate) id: BranchId,
    pub(crate) prepared: bool,
    pub(crate) counted: bool,
    pub(crate) left: bool,
    pub(crate) ended: bool,
    pub(crate) given_up: bool,
    pub(crate) report: Report,
    pub(crate) live: bool,
    pub(crate) ends: bool,
}

impl Model for Row {
    ghost use Rattle.tp_model.specs.Transactions.{Row as RowValue};

    ghost Value = { RowValue };

    ghost use Rattle.tp_commit.specs.Row.{row_of, inside_of};

    ghost view = { row_of };

    ghost inverse = { inside_of };
}

/// What is noted on a branch.
#[derive(Clone, Copy, Debug)]
pub(crate) enum Note {
    Prepared,
    Counted,
    Left,
    Ended(Report),
    GivenUp,
    Lost,
    Ending,
}

impl Row {
    /// A branch of which nothing is known but whether its arc is live.
    pub(crate) fn fresh(child: &Child, live: bool) -> Row
        ensures { result ≡ record { branch = fresh_branch child.now; live = live; ends = false } }
    {
        Row {
            peer: child.addr,
            id: child.branch,
            prepared: false,
            counted: false,
            left: false,
            ended: false,
            given_up: false,
            report: Report::None,
            live,
            ends: false,
        }
    }

    pub(crate) fn child(&self) -> Child
        ensures { result ≡ child_of self.now.branch }
    {
        Child {
            addr: self.peer,
            branch: self.id,
        }
    }

    /// The report taken, and hazard where the branch was given up.
    pub(crate) fn report_of_branch(&self) -> Report
        ensures { result ≡ report_of_branch self.now.branch }
    {
        if self.given_up {
            self.report.join(Report::Hazard)
        } else {
            self.report
        }
    }

    /// Whether its arc is live matters as long as it is neither ended nor left; a rollback has forgotten
    /// what was deferred.
    pub(crate) fn stand(&mut self, rolls: bool)
        ensures { self.new ≡ standing_row rolls self.old }
    {
        self.live = self.live && !(self.ended || self.left);
        self.ends = self.ends && !rolls;
    }

    /// Sees its arc anew.
    pub(crate) fn see(&mut self, live: bool, ends: bool)
        ensures { self.new ≡ seen_at live ends self.old }
    {
        self.live = live && !(self.ended || self.left);
        self.ends = ends;
    }

    pub(crate) fn note(&mut self, note: Note)
        ensures { self.new ≡ noted note self.old }
    {
        match note {
            Note::Prepared => self.prepared = true,
            Note::Counted => self.counted = true,
            Note::Left => self.left = true,
            Note::Ended(report) => {
                self.ended = true;
                self.report = report;
            }
            Note::GivenUp => {
                self.given_up = true;
                self.live = false;
                self.ends = false;
            }
            Note::Lost => {
                self.live = false;
                self.ends = false;
            }
            Note::Ending => self.ends = true,
        }
    }
}
