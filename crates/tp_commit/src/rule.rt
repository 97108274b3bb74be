//! The rules of a transaction by name, and which of them an event sets off.
ghost use Rattle.std.specs.Prelude.{◌≡◌};
ghost use Rattle.tp_model.specs.Transactions.{Transaction, and_then};
ghost use Rattle.tp_commit.specs.Rules.{turn_of, run};

use tp_names::{Outcome, Report};

/// A rule. Each says something, at most by one record of the log, and changes something.
#[derive(Clone, Copy, Debug)]
pub(crate) enum Rule {
    Nothing,
    /// The user's requests.
    Prepare { arc: u16 },
    DeferEnd { arc: u16 },
    DeferGrant { arc: u16 },
    Abort { arc: u16 },
    AskCommit,
    Finish,
    Leave,
    /// What the superior says.
    TakePrepare,
    TakeDeferEnd { arc: u16 },
    TakeDeferGrant { arc: u16 },
    NoteRollback,
    /// What a branch says.
    CountBranch { arc: u16 },
    EndBranch { arc: u16, report: Report },
    BranchLeft { arc: u16 },
    CloseArc { arc: u16 },
    /// An arc is gone.
    Aborted { arc: u16 },
    Lost { arc: u16 },
    /// What follows where it may.
    Settle,
    Order,
    BeginRolling { asked: bool },
    CompleteCommit,
    CompleteRollback,
    /// Local events.
    Decide(Outcome),
    GiveUp { arc: u16 },
    Retry,
}

/// What an event sets off: three rules, each at what the one before it leaves.
#[derive(Clone, Copy, Debug)]
pub(crate) struct Course {
    pub(crate) first: Rule,
    pub(crate) second: Rule,
    pub(crate) third: Rule,
}

impl Course {
    #[tactic(auto, using(crate::proofs::Courses::one_rule))]
    pub(crate) fn one(first: Rule) -> Course
        ensures { (t : Transaction) → run result t ≡ turn_of first t }
    {
        Course {
            first,
            second: Rule::Nothing,
            third: Rule::Nothing,
        }
    }

    #[tactic(auto, using(crate::proofs::Courses::two_rules))]
    pub(crate) fn two(first: Rule, second: Rule) -> Course
        ensures { (t : Transaction) → run result t ≡ and_then (turn_of first t) (turn_of second) }
    {
        Course {
            first,
            second,
            third: Rule::Nothing,
        }
    }

    pub(crate) fn three(first: Rule, second: Rule, third: Rule) -> Course
        ensures { (t : Transaction) → run result t ≡ and_then (turn_of first t) (λ u. and_then (turn_of second u) (turn_of third)) }
    {
        Course {
            first,
            second,
            third,
        }
    }
}
