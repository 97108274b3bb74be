//! A node's place in the picture.
use tp_names::SiteName;

/// A lane: a node, and its site where the transcript tells it.
#[derive(Clone, Copy)]
pub(crate) struct Lane {
    pub node: u16,
    pub site: Option<SiteName>,
}
