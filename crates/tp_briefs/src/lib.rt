//! Laws of logs that were made short: what the next start finds on them, and that nothing tells that it was done. Each is the contract of a
//! function with an empty body.
#![tactic(auto)]

ghost use Rattle.tp_briefs.specs.Starts.{BriefsStartAlike, AlikeRunAlike};

// Promise 22.6 [tp_briefs/specs/Starts.antt]: A site that starts on the brief of a log, as a
//   compaction leaves it (4.7), takes the boot number that it would take on the log, and knows of
//   each node what it would know; on every log in order, in both versions
/// A site that starts on the brief of a log, as a compaction leaves it, takes the boot number that it would take on the log, and knows of
/// each node what it would know: whether it has a transaction, which one is current, in which phase, with which branches and which decision,
/// and which are kept for their damage, in which order.
pub fn a_start_on_a_brief_is_a_start_on_the_log()
    ensures { BriefsStartAlike }
{}

// Promise 22.7 [tp_briefs/specs/Starts.antt]: **A compaction is not seen**: where two starts know
//   the same, the site gives the same outputs for whatever it is given, each node has the same
//   history then, the same records are forced, and the next start knows the same again
/// Where two starts know the same, all that comes after them is the same: whatever the site is given, it gives the same outputs and forces
/// the same records, and the next start on what it leaves knows the same again. So no output tells whether a log was compacted before.
pub fn a_compaction_is_not_seen()
    ensures { AlikeRunAlike }
{}
