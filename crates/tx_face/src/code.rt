//! How a transaction ended.
ghost use Rattle.std.specs.Prelude.{◌≡◌};
ghost use Rattle.tx_face.specs.Codes.{committed, rolled_back, code_by, code_given, code_given_one};

use tp_names::Report;
use tp_records::{Indication, Output};

/// How a transaction ended, by what its completion reported.
#[derive(Clone, Copy, Debug, PartialEq, Eq)]
pub enum Code {
    /// It committed, and all that was to commit did.
    Committed,
    /// It committed, and part of it may not have.
    CommittedHazard,
    /// It committed, and part of it did not.
    CommittedMixed,
    /// It rolled back, and all that was to roll back did.
    RolledBack,
    /// It rolled back, and part of it may not have.
    RolledBackHazard,
    /// It rolled back, and part of it did not.
    RolledBackMixed,
}

impl Code {
    // A commitment that reported this.
    fn committed(report: Report) -> Code
        ensures { result ≡ committed report }
    {
        match report {
            Report::None => Code::Committed,
            Report::Hazard => Code::CommittedHazard,
            Report::Mix => Code::CommittedMixed,
        }
    }

    // A rollback that reported this.
    fn rolled_back(report: Report) -> Code
        ensures { result ≡ rolled_back report }
    {
        match report {
            Report::None => Code::RolledBack,
            Report::Hazard => Code::RolledBackHazard,
            Report::Mix => Code::RolledBackMixed,
        }
    }

    // The code once that is told, after the one from before.
    fn after(indication: &Indication, before: Option<Code>) -> Option<Code>
        ensures { result ≡ code_by indication.now before }
    {
        match indication {
            Indication::CommitComplete { report } => Some(Code::committed(*report)),
            Indication::RollbackComplete { report } => Some(Code::rolled_back(*report)),
            _ => before,
        }
    }

    /// The code once these outputs are given, of which the node with that number is told its own.
    pub(crate) fn given(outputs: &[Output], node: u16, before: Option<Code>) -> Option<Code>
        ensures { result ≡ code_given node outputs.now before }
    {
        let mut code = before;
        for output in outputs {
            code = Code::given_one(output, node, code);
        }
        code
    }

    // The code once that output is given.
    fn given_one(output: &Output, node: u16, before: Option<Code>) -> Option<Code>
        ensures { result ≡ code_given_one node output.now before }
    {
        match output {
            Output::Tell {
                node: told,
                indication,
            } => {
                if *told == node {
                    Code::after(indication, before)
                } else {
                    before
                }
            }
            _ => before,
        }
    }
}
