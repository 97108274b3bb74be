//! Processes on the files of logs: what those of one site leave is the log of one site, and those of several sites are a run of one world.
//! Each law is the contract of a function with an empty body.
#![tactic(auto)]

ghost use Rattle.tp_processes.specs.Versions.{VersionsActAlike};
ghost use Rattle.tp_processes.specs.Processes.{ProcessesLeaveTheLog, ProcessesLeaveItWhole, ProcessesActAlike};
ghost use Rattle.tp_processes.specs.Deployed.{ProcessesKeep, SentencesHold};
ghost use Rattle.tp_processes.specs.Octets.{SaidIsReadBack, OctetsCarryRecords};

// Promise 22.24 [tp_processes/specs/Versions.antt]: **A log of version 1 is as one of version 2**:
//   what a site does on it, it does on one of version 2 with the same records, given the same
//   events without those that it refused for want of room (a node of it has 32 subordinates at
//   most, where one of version 2 has 256); the outputs for these events, the histories and the
//   records are the same
/// A site on a log of version 1 does what it does on a log of version 2 with the same records, given the same events without those that the
/// first refused for want of room, as a node there has no more than 32 subordinates: the outputs for these events, the histories of the nodes
/// and the records of the log are the same.
pub fn a_log_of_version_1_is_as_one_of_version_2()
    ensures { VersionsActAlike }
{}

/// One process of a site after the other starts on the file that the one before it left, or on a compaction of it, the first on a log without
/// records; each finds a log of either version, and leaves the log of the events that it was given, or what it found, where it stopped before
/// its boot stood. Then a start on the file that is left is a start on the log of the site over all that happened in its processes, with a
/// stop between two of them, and nothing in it is foreign; each record of it that is of a node stands in that log, and where nothing was
/// compacted the file is that very log.
pub fn processes_leave_the_log()
    // Promise 22.8 [tp_processes/specs/Processes.antt]: Where each process of a site finds the file
    //   that the one before it left, or a compaction of it, each time a log of either version, the
    //   file that the last one leaves is a log on whose records, in version 2, the next start knows
    //   what it would know on the log of all that happened; none of its records is foreign, and
    //   each that is of a node stands in that log. On a log of version 1, what a process refused
    //   for want of room has not happened (22.24)
    ensures leaves { ProcessesLeaveTheLog }
    // Promise 22.9 [tp_processes/specs/Processes.antt]: Where nothing was compacted, it is that log
    ensures whole { ProcessesLeaveItWhole }
{}

// Promise 22.10 [tp_processes/specs/Processes.antt]: Each process gives for the events that happen
//   in it the outputs that the whole life of its site gives
/// Whatever was compacted before it, a process gives for the events that happen in it the outputs that the site gives which has lived
/// through all of them, on a log of either version.
pub fn processes_act_as_one()
    ensures { ProcessesActAlike }
{}

// Promise 22.11 [tp_processes/specs/Deployed.antt]: **Where the deeds of a deployment are what
//   happened in such processes, they are a run of one world**, of which 16.57 holds; and the log
//   that the last process of a site left has of each number what its node forced, in that order,
//   where it was never compacted
/// Where the deeds of a deployment are what happened in such processes, the deployment is a run of one world; the log that the newest
/// process of each site left has of each number what its node forced, in that order, where it was never compacted; and of the world of that
/// run holds what is promised of every run.
pub fn processes_keep_the_promises()
    ensures { ProcessesKeep }
{}

// Promise 22.12 [tp_processes/specs/Deployed.antt]: **The first two sentences, of the nodes where
//   they stand** and of all that happened to them, with no run named: different outcomes have a
//   decision between them, Commit stands alone, and where a commitment is complete at the root with
//   no report every node that stays was told commit
/// In every deployment, of the nodes where they stand and of all that happened to them: no two nodes of a tree are told different outcomes
/// but where one logged a decision of its own, Commit stands alone, and where a commitment is complete at the root with no report every node
/// that stays was told commit.
pub fn deployments_keep_the_sentences()
    ensures { SentencesHold }
{}

/// What is carried is octets. Whatever a deployment's nodes have said, in records whose numbers and names a program's types hold, is read
/// back from its octets; so a carrier that brings a node only octets that a process wrote for it, of such records, brings it only records
/// that were said to it, and what is asked of a deployment holds.
pub fn octets_carry_records()
    // Promise 22.16 [tp_processes/specs/Octets.antt, clauses reads carried]: **A carrier of octets
    //   is one of records**: whatever the nodes of a deployment said, in records whose numbers and
    //   names the types of a program hold, is read back from its octets; so where octets that a
    //   node takes are an output, from the address that they are said to be from and for its own,
    //   of a process of that site some time before, and what was said in them is of such records,
    //   the carrier is as asked; all else is asked as above
    ensures reads { SaidIsReadBack }
    ensures carried { OctetsCarryRecords }
{}
