//! How a transaction ends, and what is reported of its branches.
ghost use Rattle.std.specs.Prelude.{◌≡◌, max};
ghost use Rattle.tp_names.specs.Reports.{join, rank};
ghost use Rattle.tp_names.specs.declared.outcome.Report.{Report};

use std::fmt;

/// How a transaction ends.
#[derive(Clone, Copy, Debug, PartialEq, Eq)]
pub enum Outcome {
    Commit,
    Rollback,
}

/// What is known of damage, from the least to the greatest.
#[derive(Clone, Copy, Debug, PartialEq, Eq)]
pub enum Report {
    None,
    Hazard,
    Mix,
}

impl Report {
    // Promise 2.3, part 2
    /// The greater of two reports.
    pub fn join(self, other: Report) -> Report
        ensures value { result ≡ join self other }
        ensures greater { rank result ≡ max (rank self) (rank other) }
    {
        match (self, other) {
            (Report::Mix, _) | (_, Report::Mix) => Report::Mix,
            (Report::Hazard, _) | (_, Report::Hazard) => Report::Hazard,
            (Report::None, Report::None) => Report::None,
        }
    }
}

// Promise 2.3: Reports join to the greater of two, in any order
/// Reports join in any order and grouping, a report joins itself to itself, and `None` adds nothing.
pub fn reports_join()
    ensures commutative { (a b : Report) → join a b ≡ join b a }
    ensures associative { (a b c : Report) → join (join a b) c ≡ join a (join b c) }
    ensures idempotent { (a : Report) → join a a ≡ a }
    ensures unit { (a : Report) → join Report.None a ≡ a }
{}

impl fmt::Display for Outcome {
    fn fmt<W: fmt::Write>(&self, f: &mut fmt::Formatter<W>) -> fmt::Result {
        match self {
            Outcome::Commit => f.write_str("commit"),
            Outcome::Rollback => f.write_str("rollback"),
        }
    }
}

impl fmt::Display for Report {
    fn fmt<W: fmt::Write>(&self, f: &mut fmt::Formatter<W>) -> fmt::Result {
        match self {
            Report::None => f.write_str("none"),
            Report::Hazard => f.write_str("hazard"),
            Report::Mix => f.write_str("mix"),
        }
    }
}
