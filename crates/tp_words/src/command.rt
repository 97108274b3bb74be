//! What a command line asks for.
ghost use Rattle.std.specs.Prelude.{◌≤◌};

use tp_names::SiteName;

/// What a schedule is made of: its number, how many nodes it has, and how often its tree commits.
#[derive(Clone, Copy)]
pub struct Plan {
    /// The number that all draws come from.
    pub number: u64,
    /// The nodes of the tree, 2 to 256.
    pub nodes: u16,
    /// The rounds, 1 to 30. Each is one transaction of the whole tree.
    pub rounds: u8,
    pub ghost least_nodes: { 2 ≤ nodes },
    pub ghost most_nodes: { nodes ≤ 256 },
    pub ghost least_rounds: { 1 ≤ rounds },
    pub ghost most_rounds: { rounds ≤ 30 },
}

/// A command, with the options that it uses.
#[derive(Clone, Copy)]
pub enum Command {
    /// Reads a schedule and writes its transcript.
    Replay,
    /// Runs the site of this name on the log: reads events and writes their outputs.
    Node(SiteName),
    /// Makes the log a fresh one.
    Format,
    /// Writes each record of the log.
    Show,
    /// Writes the damages that the log still holds, and counts them.
    Check,
    /// Writes the schedule that is made by the plan.
    Make(Plan),
    /// Replays the schedule that is made by the plan, and writes a summary.
    Trial(Plan),
    /// Leaves in the log what still stands.
    Compact,
    /// Makes the log one of version 2.
    Migrate,
    /// Writes the keys of a bound store.
    Keys,
    /// Is a user's face of node 1 of the site of this name: reads its calls and writes the answers.
    Tx(SiteName),
    /// Reads the logs of several sites and writes whether they agree.
    Audit,
}
