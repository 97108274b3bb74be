//! What a line names that is taken or not there.
use std::fmt::{self, Display, Formatter};
use tp_names::SiteName;

/// What a line names that is taken or not there.
#[derive(Clone, Copy)]
pub enum Absent {
    /// The number of a new node has another.
    Taken { node: u16 },
    /// The node.
    Node { node: u16 },
    /// The site.
    Site { site: SiteName },
    /// The frame.
    Frame { frame: u16 },
    /// The member.
    Member { member: u16 },
    /// The event's node, at that site.
    NodeAt { node: u16, site: SiteName },
    /// The frame, to a node of that site.
    FrameTo { frame: u16, site: SiteName },
    /// A node that a member's answer names.
    Answered,
}

impl Display for Absent {
    fn fmt<W: fmt::Write>(&self, f: &mut Formatter<W>) -> fmt::Result {
        match self {
            Absent::Taken { node } => write!(f, "there is a node {node} already"),
            Absent::Node { node } => write!(f, "there is no node {node}"),
            Absent::Site { site } => write!(f, "there is no site {site}"),
            Absent::Frame { frame } => write!(f, "there is no frame {frame}"),
            Absent::Member { member } => write!(f, "there is no member {member}"),
            Absent::NodeAt { node, site } => write!(f, "node {node} is not at site {site}"),
            Absent::FrameTo { frame, site } => {
                write!(f, "there is no frame {frame} to a node of site {site}")
            }
            Absent::Answered => {
                f.write_str("a member answers with a request that names a node that is not there")
            }
        }
    }
}
