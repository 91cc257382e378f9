// What is to be done to an output.
ghost use Rattle.std.specs.Prelude.{◌≡◌, ◌==◌, ◌++◌, ◌∷◌, [], OnOk, length, map};
ghost use Rattle.out_tree.specs.Device.{path_of};
ghost use Rattle.out_tree.specs.Plan.{Sketch, steps_of};

use crate::{State, Step};
use site_base::{Memory, PathMap, SitePath};
use std::marker::Model;

/// A step, and its path for the list of those that failed.
#[derive(Drop)]
pub(crate) struct Planned {
    pub(crate) step: Step,
    pub(crate) path: SitePath,
    ghost same: { path ≡ path_of step },
}

/// What is to be done to an output, with all the memory that it takes.
#[derive(Drop)]
pub struct Plan {
    pub(crate) removals: Vec<Planned>,
    pub(crate) writes: Vec<Planned>,
    // how many paths are believed
    pub(crate) believed: usize,
    // for the belief and one more path a step
    pub(crate) spare: PathMap<State>,
    // for the paths that fail
    pub(crate) failed: Vec<SitePath>,
}

impl Model for Plan {
    ghost use Rattle.std.specs.Prelude.{map};
    ghost use Rattle.out_tree.specs.Plan.{Sketch};

    ghost Value = { Sketch };

    ghost use Rattle.out_tree.specs.PlanRoom.{HasRoom};

    ghost view = { λ plan. record {
      believed = plan.believed;
      removals = map (λ p. p.step) plan.removals.items;
      writes = map (λ p. p.step) plan.writes.items;
    } };

    ghost invariant = { HasRoom };
}

impl Plan {
    /// How many files are to be written.
    pub fn written(&self) -> u64
        ensures { result ≡ length self.now.writes }
    {
        self.writes.len() as u64
    }

    /// How many files are to be removed.
    pub fn removed(&self) -> u64
        ensures { result ≡ length self.now.removals }
    {
        self.removals.len() as u64
    }

    /// Whether nothing is to be done.
    pub fn is_empty(&self) -> bool
        ensures { result ≡ (length (steps_of self.now) == 0) }
    {
        self.removals.is_empty() && self.writes.is_empty()
    }
}

// Adds a step at the end.
pub(crate) fn push_step(steps: &mut Vec<Planned>, step: Step, path: SitePath) -> Result<(), Memory>
    requires { path ≡ path_of step }
    ensures { OnOk result (
        map (λ p. p.step) steps.new.items ≡ map (λ p. p.step) steps.old.items ++ step ∷ []) }
{
    match steps.push(Planned { step, path }) {
        Ok(()) => Ok(()),
        Err(_) => Err(Memory),
    }
}
