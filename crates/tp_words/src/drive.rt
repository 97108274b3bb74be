//! What the command line of `tpdrive` asks for.
ghost use Rattle.std.specs.Prelude.{◌≤◌};

use tp_names::SiteName;

/// A site whose events are done by workers.
#[derive(Clone, Copy)]
pub struct Drive {
    /// The site's name.
    pub name: SiteName,
    /// How many workers there are, 1 to 16.
    pub workers: u16,
    pub ghost least_workers: { 1 ≤ workers },
    pub ghost most_workers: { workers ≤ 16 },
}
