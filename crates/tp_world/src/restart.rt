//! A site stops and starts again.
ghost use Rattle.std.specs.Prelude.{ℕ, ◌≡◌, ◌<◌, List, length};
ghost use Rattle.tp_model.specs.Happenings.{crash_turn};
ghost use Rattle.tp_model.specs.Lines.{within_limits};
ghost use Rattle.tp_model.specs.World.{World as WorldValue};
ghost use Rattle.tp_laws.specs.SiteLogs.{DisksTell, DisksStart};
ghost use Rattle.tp_world_sites.specs.Sites.{place_of_site};
ghost use Rattle.tp_world_sites.specs.declared.site_slot.SiteSlot.{SiteSlot};
ghost use Rattle.tp_world.specs.Halts.{HasStoppedAs};
ghost use Rattle.tp_world.specs.World.{Mirrors, Gives};

use crate::world::World;
use std::alloc::Global;
use tp_journal::Journal;
use tp_model::{LogWords, OutLine, OutLines};
use tp_outside::MemDisk;
use tp_world_sites::{LostEntry, SiteSlot, WorldFault, restart_nodes};

impl World {
    /// The stopped site at that place starts again on that journal, and its nodes are declared again; only a lost entry is gone.
    pub(crate) fn restart(
        &mut self,
        alloc: Global,
        place: usize,
        journal: Journal<MemDisk>,
        lost: &Option<LostEntry>,
        lines: &mut OutLines,
    ) -> Result<(), WorldFault>
        requires { place < length self.old.sites.items }
        ensures { (w : WorldValue) (s : List ℕ) (x : SiteSlot) → DisksTell w → DisksStart w → place ≡ place_of_site self.old.sites.items s
            → HasStoppedAs w self.old place lost.now journal x → Gives (within_limits (crash_turn w s)) lines.old result lines.new self.new }
    {
        let mut next = self.sites[place].started_on(alloc, journal)?;
        let site = next.name();
        let rec = LogWords::Boot { boot: next.boot() };
        lines.push(alloc, OutLine::Log { site, rec })?;
        restart_nodes(alloc, &mut self.nodes, &self.sites[place], lost, &mut next)?;
        self.sites[place] = next;
        Ok(())
    }

    /// The site at that place stops, and starts again on its disk; its nodes are declared again.
    pub(crate) fn crash(
        &mut self,
        alloc: Global,
        place: usize,
        lines: &mut OutLines,
    ) -> Result<(), WorldFault>
        requires { place < length self.old.sites.items }
        ensures { (w : WorldValue) (s : List ℕ) → DisksTell w → DisksStart w → Mirrors w self.old
            → place ≡ place_of_site self.old.sites.items s → Gives (within_limits (crash_turn w s)) lines.old result lines.new self.new }
    {
        let journal = self.sites[place].reopened(alloc)?;
        self.restart(alloc, place, journal, &None, lines)
    }
}
