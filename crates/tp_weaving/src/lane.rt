//! The steps of one site.
ghost use Rattle.std.specs.Prelude.{◌≡◌, ◌++◌, ◌∷◌, [], OnOk};

use crate::Step;
use std::alloc::Global;
use tp_names::{NoMemory, SiteName};

/// The steps of the site of that name, in order, of which so many were taken.
#[derive(Drop)]
pub struct Lane {
    pub name: SiteName,
    pub(crate) steps: Vec<Step>,
    pub(crate) taken: usize,
}

impl Lane {
    /// No steps.
    pub fn new(alloc: Global, name: SiteName) -> Lane
        ensures name { result.name ≡ name }
        ensures steps { result.steps.items ≡ [] }
        ensures taken { result.taken ≡ 0 }
    {
        Lane {
            name,
            steps: Vec::new(alloc),
            taken: 0,
        }
    }

    /// Puts a step after the others. Without memory the lane is thrown away.
    pub fn push(&mut self, step: Step) -> Result<(), NoMemory>
        ensures steps { OnOk result (self.new.steps.items ≡ self.old.steps.items ++ step ∷ []) }
        ensures name { self.new.name ≡ self.old.name }
        ensures taken { self.new.taken ≡ self.old.taken }
    {
        self.steps.push(step)?;
        Ok(())
    }
}
