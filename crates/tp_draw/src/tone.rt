//! The colors of lines.
ghost use Rattle.std.specs.Prelude.{◌≡◌};
ghost use Rattle.tp_draw.specs.Tones.{tone_of, tone_of_outcome, tone_of_report, tone_of_log, tone_of_sent, tone_of_state, tone_of_dialogue, tone_of_told, tone_name};

use tp_model::{LogWords, OutLine, SentWords};
use tp_names::{Outcome, Report};
use tp_records::{DialogueRecord, Indication, RecState};

/// The color of a line: that of the outcome that it tells of.
#[derive(Clone, Copy)]
pub(crate) enum Tone {
    /// Of no outcome.
    Plain,
    /// Of what goes with other lines: a take, an answer.
    Faint,
    /// Of a commitment.
    Commit,
    /// Of a rollback.
    Rollback,
    /// Of outcomes that differ, or may differ.
    Damage,
}

/// The tone of a line.
pub(crate) fn tone_of(line: &OutLine) -> Tone
    ensures { result ≡ tone_of line.now }
{
    match line {
        OutLine::Echo(_) => Tone::Plain,
        OutLine::Log { rec, .. } => tone_of_log(rec),
        OutLine::Take { .. } => Tone::Faint,
        OutLine::Send { rec, .. } => tone_of_sent(rec),
        OutLine::Tell { indication, .. } => tone_of_told(indication),
        OutLine::Refused { .. } => Tone::Plain,
        OutLine::Dropped { .. } => Tone::Plain,
        OutLine::Nothing => Tone::Faint,
        OutLine::Lost { .. } => Tone::Plain,
        OutLine::Stopped { .. } => Tone::Plain,
        OutLine::State { .. } => Tone::Plain,
        OutLine::Image { .. } => Tone::Faint,
        OutLine::Agreed { outcome, .. } => tone_of_outcome(*outcome),
        OutLine::Mixed { .. } => Tone::Damage,
        OutLine::Open { .. } => Tone::Plain,
    }
}

fn tone_of_outcome(outcome: Outcome) -> Tone
    ensures { result ≡ tone_of_outcome outcome }
{
    match outcome {
        Outcome::Commit => Tone::Commit,
        Outcome::Rollback => Tone::Rollback,
    }
}

// Of an end with that report, which is clear or tells of damage.
fn tone_of_report(report: Report, clear: Tone) -> Tone
    ensures { result ≡ tone_of_report report clear }
{
    match report {
        Report::None => clear,
        Report::Hazard => Tone::Damage,
        Report::Mix => Tone::Damage,
    }
}

fn tone_of_log(rec: &LogWords) -> Tone
    ensures { result ≡ tone_of_log rec.now }
{
    match rec {
        LogWords::Boot { .. } => Tone::Plain,
        LogWords::Ready { .. } => Tone::Plain,
        LogWords::Heuristic { outcome, .. } => tone_of_outcome(*outcome),
        LogWords::Commit { .. } => Tone::Commit,
        LogWords::Damage { .. } => Tone::Damage,
        LogWords::End { outcome, .. } => tone_of_outcome(*outcome),
    }
}

/// The tone of what is sent.
pub(crate) fn tone_of_sent(rec: &SentWords) -> Tone
    ensures { result ≡ tone_of_sent rec.now }
{
    match rec {
        SentWords::OnAssoc { rec, .. } => tone_of_dialogue(rec),
        SentWords::RecCommit { .. } => Tone::Commit,
        SentWords::RecReply { state, .. } => tone_of_state(*state),
        _ => Tone::Plain,
    }
}

fn tone_of_state(state: RecState) -> Tone
    ensures { result ≡ tone_of_state state }
{
    match state {
        RecState::Commit => Tone::Commit,
        RecState::Done(report) => tone_of_report(report, Tone::Commit),
        RecState::Unknown => Tone::Rollback,
        RecState::RetryLater => Tone::Plain,
    }
}

fn tone_of_dialogue(rec: &DialogueRecord) -> Tone
    ensures { result ≡ tone_of_dialogue rec.now }
{
    match rec {
        DialogueRecord::Commit => Tone::Commit,
        DialogueRecord::Done { report } => tone_of_report(*report, Tone::Commit),
        DialogueRecord::Rollback => Tone::Rollback,
        DialogueRecord::RolledBack { report } => tone_of_report(*report, Tone::Rollback),
        _ => Tone::Plain,
    }
}

fn tone_of_told(indication: &Indication) -> Tone
    ensures { result ≡ tone_of_told indication.now }
{
    match indication {
        Indication::Commit => Tone::Commit,
        Indication::CommitComplete { report } => tone_of_report(*report, Tone::Commit),
        Indication::Rollback => Tone::Rollback,
        Indication::RollbackComplete { report } => tone_of_report(*report, Tone::Rollback),
        Indication::HeuristicReport { .. } => Tone::Damage,
        _ => Tone::Plain,
    }
}

/// The name of a tone in a file.
pub(crate) fn tone_name(tone: Tone) -> &'static str
    ensures { result.now ≡ tone_name tone }
{
    match tone {
        Tone::Plain => "p",
        Tone::Faint => "f",
        Tone::Commit => "c",
        Tone::Rollback => "r",
        Tone::Damage => "d",
    }
}
