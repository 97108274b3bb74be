//! What the lines before a bad one have declared.
use crate::absent::Absent;
use std::alloc::{AllocError, Global};
use tp_model::{Action, Line, LineRequest};
use tp_names::SiteName;
use tp_names::same::is_name;

/// The nodes, with their sites.
#[derive(Drop)]
pub(crate) struct Declared {
    nodes: Vec<(u16, SiteName)>,
}

impl Declared {
    /// None.
    pub(crate) fn new(alloc: Global) -> Declared {
        Declared {
            nodes: Vec::new(alloc),
        }
    }

    /// Takes the next line.
    pub(crate) fn take(&mut self, line: &Line) -> Result<(), AllocError> {
        if let Line::Node { node, site, .. } = line {
            self.nodes.push((*node, *site))?;
        }
        Ok(())
    }

    fn site_of(&self, node: u16) -> Option<&SiteName> {
        for (number, site) in &self.nodes {
            if *number == node {
                return Some(site);
            }
        }
        None
    }

    fn node(&self, node: u16) -> Option<Absent> {
        match self.site_of(node) {
            Some(_) => None,
            None => Some(Absent::Node { node }),
        }
    }

    fn nodes(&self, first: u16, second: u16) -> Option<Absent> {
        self.node(first).or(self.node(second))
    }

    fn site(&self, name: &SiteName) -> Option<Absent> {
        for (_, site) in &self.nodes {
            if is_name(site, name) {
                return None;
            }
        }
        Some(Absent::Site { site: *name })
    }

    fn request(&self, node: u16, request: &LineRequest) -> Option<Absent> {
        match peer_of(request) {
            Some(peer) => self.nodes(node, peer),
            None => self.node(node),
        }
    }

    // What the event names that is not there.
    fn event(&self, action: &Action) -> Option<Absent> {
        match action {
            Action::Do { node, request } => self.request(*node, request),
            Action::Pass { from, to } => self.nodes(*from, *to),
            Action::Again { .. } => None,
            Action::Lose { node, peer } | Action::GiveUp { node, peer } => self.nodes(*node, *peer),
            Action::Heur { node, .. } | Action::Retry { node } | Action::Purge { node } => {
                self.node(*node)
            }
        }
    }

    // The event's node, where it is at another site.
    fn elsewhere(&self, name: &SiteName, action: &Action) -> Option<Absent> {
        let node = match action {
            Action::Again { frame } => {
                return Some(Absent::FrameTo {
                    frame: *frame,
                    site: *name,
                });
            }
            Action::Pass { to, .. } => *to,
            Action::Do { node, .. }
            | Action::Lose { node, .. }
            | Action::Heur { node, .. }
            | Action::GiveUp { node, .. }
            | Action::Retry { node }
            | Action::Purge { node } => *node,
        };
        if is_name(self.site_of(node)?, name) {
            return None;
        }
        Some(Absent::NodeAt { node, site: *name })
    }

    /// What the line names that is taken or not there. All else is the fault of what members answer.
    pub(crate) fn missing(&self, line: &Line) -> Absent {
        let found = match line {
            Line::Node { node, .. } if self.site_of(*node).is_some() => {
                Some(Absent::Taken { node: *node })
            }
            Line::Node { under, .. } => match under {
                Some(superior) => self.node(*superior),
                None => None,
            },
            Line::Do { node, request } => self.request(*node, request),
            Line::Pass { from, to } | Line::Skip { from, to } => self.nodes(*from, *to),
            Line::Lose { node, peer } | Line::GiveUp { node, peer } => self.nodes(*node, *peer),
            Line::Heur { node, .. }
            | Line::Retry { node }
            | Line::Purge { node }
            | Line::Show { node } => self.node(*node),
            Line::Again { frame } => Some(Absent::Frame { frame: *frame }),
            Line::Crash { site } | Line::Image { site } => self.site(site),
            Line::CrashIn { site, action, .. } => self
                .site(site)
                .or(self.event(action))
                .or(self.elsewhere(site, action)),
            Line::Auto { node, member } => self
                .node(*node)
                .or(Some(Absent::Member { member: *member })),
            Line::Leave { member } => Some(Absent::Member { member: *member }),
            Line::Drain => None,
        };
        found.unwrap_or(Absent::Answered)
    }
}

// The peer that a request names.
fn peer_of(request: &LineRequest) -> Option<u16> {
    match request {
        LineRequest::BeginDialogue { peer, .. }
        | LineRequest::EndDialogue { peer }
        | LineRequest::UserData { peer, .. }
        | LineRequest::UError { peer }
        | LineRequest::UAbort { peer }
        | LineRequest::Grant { peer }
        | LineRequest::AskControl { peer }
        | LineRequest::Handshake { peer }
        | LineRequest::Respond { peer }
        | LineRequest::HandshakeGrant { peer }
        | LineRequest::BeginTransaction { peer }
        | LineRequest::DeferEnd { peer }
        | LineRequest::DeferGrant { peer }
        | LineRequest::Prepare { peer } => Some(*peer),
        LineRequest::Accept { .. }
        | LineRequest::Reject
        | LineRequest::Commit
        | LineRequest::Done
        | LineRequest::Rollback
        | LineRequest::Unchanged => None,
    }
}
