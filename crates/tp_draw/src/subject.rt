//! Whom a line speaks of.
ghost use Rattle.std.specs.Prelude.{◌≡◌, IfOk};
ghost use Rattle.tp_draw.specs.Subjects.{subject_of, subject_of_event, subject_of_log};

use crate::event::event_of;
use crate::lanes::node_of;
use std::alloc::Global;
use tp_model::{Line, LogWords, OutLine};
use tp_names::{NoMemory, SiteName};

/// Whom a line speaks of.
#[derive(Clone, Copy)]
pub(crate) enum Subject {
    /// No node and no site.
    Nobody,
    /// A node.
    Node(u16),
    /// Two nodes.
    Pair(u16, u16),
    /// The nodes between which a frame was sent.
    Frame(u16),
    /// All nodes of a site.
    Site(SiteName),
    /// Whom the line before speaks of.
    Before,
}

/// Whom the line speaks of.
pub(crate) fn subject_of(alloc: Global, line: &OutLine) -> Result<Subject, NoMemory>
    ensures { IfOk result (λ subject. subject ≡ subject_of line.now) }
{
    match line {
        OutLine::Echo(_) => {
            let event = event_of(alloc, line)?;
            Ok(subject_of_event(&event))
        }
        OutLine::Log { site, rec } => Ok(subject_of_log(site, rec)),
        OutLine::Take { frame } => Ok(Subject::Frame(*frame)),
        OutLine::Send { from, to, .. } => Ok(Subject::Pair(*from, *to)),
        OutLine::Tell { node, .. } => Ok(Subject::Node(*node)),
        OutLine::Refused { .. } => Ok(Subject::Before),
        OutLine::Dropped { .. } => Ok(Subject::Before),
        OutLine::Nothing => Ok(Subject::Before),
        OutLine::Lost { frame } => Ok(Subject::Frame(*frame)),
        OutLine::Stopped { site, .. } => Ok(Subject::Site(*site)),
        OutLine::State { node, .. } => Ok(Subject::Node(*node)),
        OutLine::Image { site, .. } => Ok(Subject::Site(*site)),
        _ => Ok(Subject::Nobody),
    }
}

// A start is of all nodes of its site.
fn subject_of_log(site: &SiteName, rec: &LogWords) -> Subject
    ensures { result ≡ subject_of_log site.now rec.now }
{
    match node_of(rec) {
        Some(node) => Subject::Node(node),
        None => Subject::Site(*site),
    }
}

fn subject_of_event(event: &Option<Line>) -> Subject
    ensures { result ≡ subject_of_event event.now }
{
    match event {
        Some(Line::Node { node, .. }) => Subject::Node(*node),
        Some(Line::Do { node, .. }) => Subject::Node(*node),
        Some(Line::Pass { from, to }) => Subject::Pair(*from, *to),
        Some(Line::Skip { from, to }) => Subject::Pair(*from, *to),
        Some(Line::Again { frame }) => Subject::Frame(*frame),
        Some(Line::Lose { node, .. }) => Subject::Node(*node),
        Some(Line::Heur { node, .. }) => Subject::Node(*node),
        Some(Line::GiveUp { node, .. }) => Subject::Node(*node),
        Some(Line::Retry { node }) => Subject::Node(*node),
        Some(Line::Purge { node }) => Subject::Node(*node),
        Some(Line::Crash { site }) => Subject::Site(*site),
        Some(Line::CrashIn { site, .. }) => Subject::Site(*site),
        Some(Line::Show { node }) => Subject::Node(*node),
        Some(Line::Image { site }) => Subject::Site(*site),
        _ => Subject::Nobody,
    }
}
