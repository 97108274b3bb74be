//! Laws of a site's log as one list: what it tells of the site's nodes, and what the next start finds on it. Each is the
//! contract of a function with an empty body.
#![tactic(auto)]

ghost use Rattle.std.specs.Prelude.{ℕ, ◌≡◌, true, List};
ghost use Rattle.tp_records.specs.declared.body.Event.{Event as Given};
ghost use Rattle.tp_model.specs.NodeRun.{Opening, log_after};
ghost use Rattle.tp_site_logs.specs.Lives.{Life, LivesOn};
ghost use Rattle.tp_site_logs.specs.SiteLogs.{is_in_order, HistoriesAreLegal};

// Promise 12.35: Where a site starts on a log in which each record follows those before it and only
//   branches have voted, whoever wrote it, the whole log is so again after every list of events
/// The log of a site stays in order. For every log on which a site may start, whoever wrote it, and every list of events that the
/// site is given then: where each record of the log follows those before it and only branches have voted, so it is of the whole
/// log after them. So it is after every further start, too.
pub fn a_sites_log_stays_in_order()
    ensures { (o : Opening) (es : List Given) → is_in_order o.records ≡ true → is_in_order (log_after o es) ≡ true }
{}

// Promise 12.36: Every list of events that a site is given leaves each of its nodes a history that
//   grew under one superior, and a legal one where the node's records are a start
/// Every list of events that a site is given leaves each of its nodes a history that grew under one superior: each entry is of an
/// event that was accepted then, and is what the event does. So it is a legal history, for which every law of histories holds,
/// wherever the records of that node are a start: where they follow each other after the boot, are the node's own of earlier boots,
/// and the children of one record differ. Only a log that was made up has others.
pub fn a_sites_histories_are_legal()
    ensures { (o : Opening) (es : List Given) → HistoriesAreLegal o es }
{}

// Promise 22.1 [tp_site_logs/specs/Lives.antt]: A site that is started again and again on its log
//   is one site: whatever its processes were given, each knows of each node what one history of it
//   tells, with a stop between one process and the next, and the log has of each number what that
//   history forced
/// A site that is started again and again, each time on the log that the process before it left, is one site: whatever the processes were
/// given, each knows of every node what one history of it tells, from an empty log on, with a stop between one process and the next; and
/// the log has of every number what that history forced.
pub fn a_site_lives_on()
    ensures { (s : List ℕ) (gs : List Given) (life : Life) (n : ℕ) → LivesOn s gs life n }
{}
