//! The programs that run a site on the file of its log are processes of the site: what is said of processes and deployments is said of
//! them. Each law is the contract of a function with an empty body.
#![tactic(auto)]

ghost use Rattle.tp_programs.specs.Runs.{NodeIsAProcess, FaceIsAProcess};
ghost use Rattle.tp_programs.specs.Batches.{BatchIsAProcess};

// Promise 22.13 [tp_programs/specs/Runs.antt]: **A run of `node` is such a process**, on every disk
//   that tells its story and holds a log, whenever and however it stopped: what a crash leaves then
//   is the log of a list of events, all that was written was written of the first of these, and
//   where the log was not opened nothing was read or written
/// What `serve` says of a run makes it a process of its site, on every disk that tells its story and holds a log: whatever a crash leaves
/// where the run has ended, however that was, is the log of a list of events, or what was found, where its boot does not stand; and all that
/// was written was written of the first of these events. Where the log was not opened nothing was read or written.
pub fn a_run_of_node_is_a_process()
    ensures { NodeIsAProcess }
{}

// Promise 22.14 [tp_programs/specs/Runs.antt]: **So is a run of `tx`**: what a crash leaves is the
//   log of a list of events; where the root's node was declared, these begin with the declaration
//   and the events that its frames asked for, and all that was written answers these frames; where
//   it was not, or the log was not opened, nothing was read or written
/// So does what `transact` says.
pub fn a_run_of_tx_is_a_process()
    ensures { FaceIsAProcess }
{}

// Promise 22.23 [tp_programs/specs/Batches.antt]: **So is a batch of `tpdrive`**, on every disk
//   that tells its story and holds a log, whenever and however it stopped, also where memory ran
//   out: what a crash leaves then is the log of one process, which was given the first of each
//   worker's events, or all of them where the batch wrote anything, with the outputs that one
//   thread gives; where the log was not opened it stays as it is
/// And so does what `run_drive` says: its workers are one process, to which the events were given in the order of their records, those of each
/// worker in their order. Where it wrote anything, it was given all events, and they give the outputs that one thread gives. It is so however
/// the run ended.
pub fn a_batch_of_tpdrive_is_a_process()
    ensures { BatchIsAProcess }
{}
