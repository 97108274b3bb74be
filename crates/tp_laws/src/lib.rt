//! The laws of the service, on one page: what holds of every run of a world, of every schedule, and of every legal history
//! of a node. Each is the contract of a function with an empty body, and is proved in the crate below that is named for its
//! subject; docs/LAWS.md has the index. A crate above names nothing of the laws but this page.
#![tactic(auto)]

ghost use Rattle.std.specs.Prelude.{ℕ, ◌≡◌, ◌≤◌, ◌+◌, Option, Some, List, [], true};
ghost use Rattle.tp_model.specs.History.{digest, again, crashed};
ghost use Rattle.tp_records.specs.declared.body.Event.{Event as Given};
ghost use Rattle.tp_model.specs.NodeRun.{Opening, boot_of};
ghost use Rattle.tp_model.specs.Lanes.{IsOwnHistory};
ghost use Rattle.tp_model.specs.Happenings.{Happening, run};
ghost use Rattle.tp_model.specs.Promises.{AllLegal, IsIn, PrefixTaken, WhatUsersSee, OneHolder, OneOutcome, DrainedCommits, Headline, ParentAndChild, MixedIsNamed, Promised, ReportFree, Reports};
ghost use Rattle.tp_model.specs.World.{Node, Site, find_site, empty_world};
ghost use Rattle.tp_model.specs.Legal.{is_start, are_in_order, RestartIsCrash, RecordsFollow, StartsAgain, DigestAgrees};
ghost use Rattle.tp_histories.specs.Members.{IsUnique};
ghost use Rattle.tp_runs.specs.Hanging.{HangsTogether};
ghost use Rattle.tp_site_logs.specs.SiteLogs.{DisksTell, DisksStart, next_opening, stops};
ghost use Rattle.tp_failure_free.specs.DrainedTrees.{SettledCloses, SettledTreeCommits, SettledTreeCloses, SettledInItsTime};
ghost use Rattle.tp_agreement.specs.Logs.{CommitsAlone, LogsAgree};
ghost use Rattle.tp_reports.specs.Reports.{ReportFreeCommits, ReportFreeCloses, DoneBelow};
ghost use Rattle.tp_records.specs.declared.request.Request.{Request};
ghost use Rattle.tp_model.specs.declared.line.Line.{Line};
ghost use Rattle.tp_model.specs.Trees.{closing};
ghost use Rattle.tp_model.specs.Transcript.{transcript_with};
ghost use Rattle.tp_model.specs.Expand.{played_all, IsExpanded};
ghost use Rattle.tp_members.specs.Expansion.{LeavesItsWorld, ClosesAlike, IsWrittenOut, SpeaksOfNone, IsOfRun};
ghost use Rattle.tp_runs.specs.RolledSeen.{RolledIsSeen};
ghost use Rattle.tp_laws.specs.Whole.{AllPromised};
ghost use Rattle.tp_finishing.specs.Doubt.{DoubtEnds};
ghost use Rattle.tp_finishing.specs.Quiet.{StopsQuieten};
ghost use Rattle.tp_finishing.specs.Cuts.{CutsQuieten};
ghost use Rattle.tp_finishing.specs.Finishing.{OverIsClosed, NoRunIsStuck, EveryRunEnds, CutsEnd};
ghost use Rattle.tp_finishing.specs.Again.{LostIsSaidAgain};
ghost use Rattle.tp_laws.specs.Deployed.{DeploymentsKeep, DeploymentsStay};

// Promise 16.1, part 2
/// In every run, every node's history is one that grew from an empty log by events that were accepted.
pub fn all_legal()
    ensures { (es : List Happening) → AllLegal (run es) }
{}

// Promise 16.3: What one end took with a pair of marks is a prefix of what the other end sent with
//   it
/// In every run, what one end took with a pair of marks, with what it answered out of phase, is a prefix of what the other
/// end sent with it.
pub fn prefix_taken()
    ensures { (es : List Happening) → PrefixTaken (run es) }
{}

// Promise 16.14: A node takes the Begin of a tree at most once, and never that of a tree that it
//   started itself
/// In every run, a node takes the Begin of a tree at most once and never that of a tree of its own, and the node that drew
/// a tree's identifier was declared no later than each node that knows it.
pub fn trees_are_entered_once()
    ensures { (es : List Happening) → IsUnique (run es).nodes }
{}

// Promise 16.16: Each node of a tree but its root is a branch of a node of the tree
/// In every run, each node of a tree but its root took its Begin from a node of the tree: it is a branch of it.
pub fn trees_hang_together()
    ensures { (es : List Happening) → HangsTogether (run es) }
{}

// Promise 16.29: A user is told commit only where it is logged, rollback only where the node
//   rolled, never both
/// In every run, a user is told commit only where Commit is logged, is told rollback only where the node rolled, and no
/// node both logs Commit and rolls in one tree.
pub fn users_see()
    ensures { (es : List Happening) → WhatUsersSee (run es) }
{}

// Promise 16.11: **Two live ends of one polarized dialogue never both hold control**
/// In every run, two live ends of one polarized dialogue never both hold control.
pub fn one_holder()
    ensures { (es : List Happening) → OneHolder (run es) }
{}

// Promise 16.20: What a node counts of a branch, the branch logged; one that rolled without Ready
//   is never counted; and this with 16.21 to 16.25, as one record
/// In every run, all that is promised between a node and its branches: Commit goes up, Ready and leaving go down, what is
/// counted is logged, a ready branch rolls only with its superior, one that rolled without Ready is never counted, and a node
/// that left neither logged nor rolled.
pub fn parent_and_child()
    ensures { (es : List Happening) → ParentAndChild (run es) }
{}

// Promise 16.26: **Of two nodes of one tree told different outcomes at least one logged a
//   decision**
/// In every run, with recovery, decisions, giving up, chained transactions and leaving: of two nodes of one tree told different
/// outcomes at least one logged a decision of its own.
pub fn one_outcome()
    ensures { (es : List Happening) → OneOutcome (run es) }
{}

// Promise 16.30: Where a node of a tree logged Commit, none of its nodes rolled, whatever was
//   decided
/// In every run, Commit stands alone: where a node of a tree logged Commit none of its nodes rolled, whatever was decided.
pub fn commits_stand_alone()
    ensures { (es : List Happening) → CommitsAlone (run es) }
{}

// Promise 16.31: The logs of all nodes agree: where one has Commit of a tree, none has its end or
//   its damage with rollback
/// In every run, the logs agree: where one has Commit of a tree, none has its end or its damage with rollback, whatever was
/// decided.
pub fn logs_agree()
    ensures { (es : List Happening) → LogsAgree (run es) }
{}

// Promise 16.37: **A commit completion with no report at the root means that every staying node
//   committed**
/// In every run, a commit completion with no report at the root means that every node that did not leave was told commit.
pub fn a_clear_root_has_committed_below()
    ensures { (es : List Happening) → ReportFree (run es) }
{}

// Promise 16.37, part 2 [clauses nodes]
// Promise 16.38: In such a tree every staying node logged Commit and was complete with no report
//   itself, and the closing line says that all agree on commitment
/// In every run, in a tree whose root's user was told that the commitment is complete with no report, every node that did not
/// leave logged Commit and was complete with no report itself, and the tree's closing line says that all agree on commitment.
pub fn a_report_free_tree_has_committed()
    ensures nodes { (es : List Happening) → ReportFreeCommits (run es) }
    ensures line { (es : List Happening) → ReportFreeCloses (run es) }
{}

// Promise 16.39: While a node's user was not told that its commitment is complete, a Done with no
//   report of one of its branches means that every staying node at and below that branch committed
//   and was complete with no report
/// In every run, while a node's user was not told that its commitment is complete, a Done with no report that one of its
/// branches sent means that every node at and below that branch that did not leave was told commit, logged it, and was
/// complete with no report.
pub fn a_done_with_no_report_speaks_for_its_branch()
    ensures told { (es : List Happening) → Reports (run es) }
    ensures nodes { (es : List Happening) → DoneBelow (run es) }
{}

// Promise 16.48: **A tree whose nodes never failed and whose frames were all taken, and whose users
//   all asked for commitment, or left, and owe no done, has committed at every staying node**, each
//   with no report
/// In every run, a drained tree without failure whose users all asked for commitment, or left, has committed: where each frame that
/// its nodes sent was taken and no user owes its done, every node that stays logged Commit and was told that it is complete, with no
/// report; and the tree's closing line says that all agree on commitment.
pub fn a_drained_tree_has_committed()
    ensures nodes { (es : List Happening) → DrainedCommits (run es) }
    ensures line { (es : List Happening) → SettledCloses (run es) }
{}

// Promise 16.60: **So has a settled tree**, whatever failed at its nodes before it or after it, or
//   of other dialogues, and whatever frames of these wait; and its closing line says so. A tree as
//   in 16.48 is one
/// So it is where this is asked of what is the tree's alone: its words were taken, and nothing failed in it while it was current at
/// its nodes. A failure at a node before the tree began there or after it was over, or of another dialogue, does not count, nor do
/// the frames of it. What is said of the whole life of the nodes is a case of it.
pub fn a_settled_tree_has_committed()
    ensures nodes { (es : List Happening) → SettledTreeCommits (run es) }
    ensures line { (es : List Happening) → SettledTreeCloses (run es) }
    ensures whole { (es : List Happening) → SettledInItsTime (run es) }
{}

// Promise 16.32: A closing line that says a tree is mixed names a node that logged a decision
/// In every run, a tree whose closing line says that it is mixed names there at least one node that logged a decision.
pub fn mixed_is_named()
    ensures { (es : List Happening) → MixedIsNamed (run es) }
{}

// Promise 16.53: The three sentences of the headline together
/// In every run, the headline. Of two nodes of one tree told different outcomes at least one logged a decision of its own; a commit
/// completion with no report at the root means that every node that stays committed; and a drained tree without failure whose users
/// all asked for commitment, or left, has committed at every node that stays.
pub fn headline()
    ensures { (es : List Happening) → Headline (run es) }
{}

// Promise 16.54: The definitions' own promises together: legal histories, associations, control,
//   the headline, what users see, a node and its branches, reports, mixed trees
/// In every run, all that is promised of a world: legal histories, associations, control, the headline, what users see, a node and
/// its branches, reports, and the closing line of a mixed tree.
pub fn the_promises_are_kept()
    ensures { (es : List Happening) → Promised (run es) }
{}

// Promise 16.57 [tp_laws/specs/Whole.antt]: **What holds of the world that a run leaves**, as one
//   record: 16.4, 16.17, 16.19, 16.28, 16.33, 16.38, 16.39, 16.41, 16.42, 16.48 to 16.52, 16.54,
//   16.55, 16.58, 16.59, what 16.60 says of a settled tree, what the closing line says of a tree as
//   in 16.48, and 23.6 to 23.8
/// In every run, what is promised of the world that it leaves, as one record: the promises above, and of the nodes of each tree what
/// they are told, log, force and report.
pub fn all_that_is_promised_is_kept()
    ensures { (es : List Happening) → AllPromised (run es) }
{}

/// A deployment keeps what is promised of runs. Processes on machines, each site run by one process after the other on its own log,
/// stopped at any moment, with a carrier that brings a node only what was said to it: they are a run of one world, whose nodes have the
/// histories that the processes gave them, and of that world holds what is promised of every run. As the deployment goes on, what a
/// node was told or decided in a tree, that it logged Commit, rolled, left or was complete with no report, stays so.
pub fn a_deployment_keeps_the_promises()
    // Promise 22.4 [tp_laws/specs/Deployed.antt]: **So it keeps what is promised of runs**: 16.57
    //   holds of that run, the three sentences among it
    ensures kept { DeploymentsKeep }
    // Promise 22.5 [tp_laws/specs/Deployed.antt]: And what a node was told or decided in a tree,
    //   that it logged Commit, rolled, left or was complete with no report, stays so, whatever
    //   happens after it (16.34)
    ensures stays { DeploymentsStay }
{}

// Promise 23.1 [tp_finishing/specs/Doubt.antt]: A node in doubt whose superior is neither active
//   nor in doubt commits or rolls back after one retry of its own and the delivery of two frames
//   that were sent since, and no association need be lost for it, as long as each of its own that
//   is live has a number left for a record to each branch and one more
/// In every run, a node in doubt whose superior is neither active nor in doubt hears how its tree ended by one retry and the delivery of
/// two frames that were sent since, and no association need be lost for it: it commits, or it rolls back.
pub fn doubt_ends()
    ensures { DoubtEnds }
{}

/// No run is stuck. Whatever happened in it, at most as many stops as there are sites, or so many cuts of associations, leave no association
/// and no node that is active or rolls back; from there, so many lines of recovery alone end every transaction; and then no tree is open. Cuts ask for
/// numbers that are left, and nothing else.
pub fn no_run_is_stuck()
    ensures stops { StopsQuieten }
    ensures cuts { CutsQuieten }
    ensures recovery { NoRunIsStuck }
    ensures ends { EveryRunEnds }
    ensures ends_by_cuts { CutsEnd }
    ensures closed { OverIsClosed }
{}

// Promise 23.7 [tp_finishing/specs/Again.antt]: **What a stop may have swallowed is said again**: a
//   node whose site stops and starts, that is declared and retries, tells its user to commit and
//   orders its branches to that did not leave, where it commits; asks its superior, where it is in
//   doubt; of each commitment that it keeps it orders the branches that are owed, and reports to its
//   superior. What was active or rolled back is over. Where nothing is current, a user that asks to commit or
//   to roll back, or says that it changed nothing or has finished, is refused with `NoTransaction`
/// In every run, what a stop may have swallowed is said again once the node is declared and retries: to commit, to its user and its branches,
/// where it commits; the question to its superior, where it is in doubt; and of each commitment that it keeps, the order to the branches that
/// it owes and the report to its superior. What was active or rolled back is over.
pub fn what_was_lost_is_said_again()
    ensures { (es : List Happening) → LostIsSaidAgain (run es) }
{}

// Promise 17.5: What a schedule leaves is the world of a run, with members or without, also where a
//   line ends it
/// What lines leave, for every number of members and every list of answers, is what a list of happenings leaves; so is what
/// the bytes of a schedule leave, also where they are at fault or a line ends the run. So what holds of every run holds of
/// every schedule with members.
pub fn schedules_are_runs()
    ensures lines { (members : ℕ) (ls : List Line) (answers : List (Option Request)) → IsOfRun (played_all members answers empty_world ls).world }
    ensures bytes { (members : ℕ) (schedule : List ℕ) (answers : List (Option Request)) → IsOfRun (transcript_with members schedule answers).world }
{}

/// What members do can be written out. For every number of members, every list of lines and every list of answers, no line
/// of the expansion speaks of members; and where no line ends the run, the expansion shows without members the lines that
/// are shown with them, leaves the same world but for its members, and has the same closing lines. So the transcript of the
/// bytes of a schedule that comes to its end is what the expansion of its lines writes without members.
pub fn members_can_be_written_out()
    // Promise 17.1: Where no line ends the run, the expansion shows without members the lines that
    //   the schedule shows with them
    ensures shown { (members : ℕ) (ls : List Line) (answers : List (Option Request)) → IsExpanded members ls answers }
    // Promise 17.2 [clauses world closing]: There it leaves the same nodes, sites, frames and
    //   trees, with no member, and has the same closing lines
    ensures world { (members : ℕ) (ls : List Line) (answers : List (Option Request)) → LeavesItsWorld members ls answers }
    ensures closing { (members : ℕ) (ls : List Line) (answers : List (Option Request)) → ClosesAlike members ls answers }
    // Promise 17.3: A transcript that comes to its end is what the expansion of its schedule's
    //   lines writes without members
    ensures written { (members : ℕ) (schedule : List ℕ) (answers : List (Option Request)) → IsWrittenOut members schedule answers }
    // Promise 17.4: No line of the expansion speaks of members
    ensures none { (members : ℕ) (ls : List Line) (answers : List (Option Request)) → SpeaksOfNone members ls answers }
{}

// Promise 17.6: So what is promised of every run in `tp_model/specs/Promises.antt` holds of it
/// So of every schedule with members: every history is legal, what one end of an association took is a prefix of what
/// the other end sent, users are told what the log and the rolls say, two live ends of a dialogue never both hold control, a
/// node and its branches are as promised, of two nodes of one tree told different outcomes at least one logged a decision, a
/// commit completion with no report at the root means that every staying node committed, a drained tree without failure whose
/// users all asked for commitment, or left, has committed at every staying node, a Done with no report speaks for its branch,
/// and a closing line that says that a tree is mixed names one that decided.
pub fn schedules_keep_the_laws()
    ensures legal { (members : ℕ) (schedule : List ℕ) (answers : List (Option Request)) → AllLegal (transcript_with members schedule answers).world }
    ensures taken { (members : ℕ) (schedule : List ℕ) (answers : List (Option Request)) → PrefixTaken (transcript_with members schedule answers).world }
    ensures users { (members : ℕ) (schedule : List ℕ) (answers : List (Option Request)) → WhatUsersSee (transcript_with members schedule answers).world }
    ensures control { (members : ℕ) (schedule : List ℕ) (answers : List (Option Request)) → OneHolder (transcript_with members schedule answers).world }
    ensures family { (members : ℕ) (schedule : List ℕ) (answers : List (Option Request)) → ParentAndChild (transcript_with members schedule answers).world }
    ensures outcome { (members : ℕ) (schedule : List ℕ) (answers : List (Option Request)) → OneOutcome (transcript_with members schedule answers).world }
    ensures free { (members : ℕ) (schedule : List ℕ) (answers : List (Option Request)) → ReportFree (transcript_with members schedule answers).world }
    ensures drained { (members : ℕ) (schedule : List ℕ) (answers : List (Option Request)) → DrainedCommits (transcript_with members schedule answers).world }
    ensures reports { (members : ℕ) (schedule : List ℕ) (answers : List (Option Request)) → Reports (transcript_with members schedule answers).world }
    ensures mixed { (members : ℕ) (schedule : List ℕ) (answers : List (Option Request)) → MixedIsNamed (transcript_with members schedule answers).world }
{}

// Promise 12.7: The events of one worker alone give the outputs and the records that they give in a
//   run of the events of all, in the same order
/// Of the events that a site is given, dealt to any number of workers: a worker that has its events alone writes what it
/// writes in a run of all, and forces the same records in the same order. So what a node answers depends on its own history
/// alone.
pub fn own_history()
    ensures { (o : Opening) (es : List Given) (i w : ℕ) → IsOwnHistory o es i w }
{}

/// A start over the records of a log, with the next boot number, leaves the same as a crash: in every legal history, and
/// in every run.
pub fn restart_is_a_crash()
    // Promise 12.12: A start over the log's records leaves the same as a crash
    ensures history { RestartIsCrash }
    // Promise 16.5: A start over the records of a node's log leaves the same as a crash
    ensures run { (es : List Happening) (x : Node) → IsIn (run es) x → digest (again x.origin x.history) [] ≡ digest x.origin (crashed x.history) }
{}

/// The records of a node's log stay in order after its last boot, each following those before it: in every legal history,
/// and in every run.
pub fn records_stay_in_order()
    // Promise 12.13: The records stay in order after the last boot
    ensures history { RecordsFollow }
    // Promise 16.6: The records of a node's log stay in order after its last boot, and are such as
    //   its next start may find
    ensures run { (es : List Happening) (x : Node) → IsIn (run es) x → are_in_order x.origin x.history ≡ true }
{}

/// The records of a node's log are such as its next start may find: in every legal history, and in every run.
pub fn the_next_start_finds_its_records()
    // Promise 12.14: The records are such as the next start may find
    ensures history { StartsAgain }
    // Promise 16.6, part 2
    ensures run { (es : List Happening) (x : Node) → IsIn (run es) x → is_start (again x.origin x.history) ≡ true }
{}

// Promise 16.7: The log of a site has of each of its nodes the records that the node forced, in
//   their order, and one Boot for each start
/// In every run, the log of a site tells its nodes: of each number at which a node of the site stands it has the records that
/// the node forced, in their order, and of every other number none; it has one Boot for each start of the site, the last of
/// which is the start that its nodes are in; each record follows those before it, and only branches have voted.
pub fn a_sites_log_tells_its_nodes()
    ensures { (es : List Happening) → DisksTell (run es) }
{}

// Promise 16.8: The next start of a site on its log finds no record out of place and each node as
//   after a crash, with a boot number that is the next one
/// In every run, the next start of a site on its log: no record is foreign to it, its boot number is the next one, each of the
/// site's nodes is as after a crash, every other number as one that was never declared, and the history of each is legal again.
/// The boot number is at most by two above the stops of all sites before, and at most by one above the records of the log; so it
/// is below 2^64 in every run that has fewer stops, or on a log that has fewer records.
pub fn a_site_starts_again_on_its_log()
    ensures starts { (es : List Happening) → DisksStart (run es) }
    ensures stopped { (es : List Happening) (s : List ℕ) (x : Site) → find_site (run es).sites s ≡ Some x → boot_of (next_opening x) ≤ stops es + 2 }
{}

// Promise 12.27: That the node rolled in a tree is seen from what is current before and after each
//   entry, and from who left
/// In every legal history of a node whose log was empty at first, that the node rolled in a tree is seen from what is current before
/// and after each entry: it rolls after it, or was active or ready, does not go on, and did not leave. No event is looked at.
pub fn rolling_is_seen()
    ensures { RolledIsSeen }
{}

// Promise 12.23: **All that is known of a node**, part by part, as 12.17 to 12.22 ask it: each is
//   equal to what the questions answer, each arc has the address at which its dialogue was last
//   asked for or offered and the units that were last proposed or agreed on it, every key but the
//   current one is in no phase, and the version of the log is that of the start
/// In every legal history, all that is known of the node is what the questions to its whole history answer.
pub fn the_whole_is_known()
    ensures { DigestAgrees }
{}
