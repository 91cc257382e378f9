// What is believed of an output, and how it is made equal to a tree.
ghost use Rattle.std.specs.Prelude.{◌≡◌, ◌≤◌, ◌<◌, ◌∷◌, [], ℕ, List, length, is_some, true, slice_index_or, IfOk, OnOk, OnErr, IsOk, IsSome, Some, None, if◌then◌else◌};
ghost use Rattle.std.specs.FinMap as finmap;
ghost use Rattle.std.specs.Option.{option_copied};
ghost use Rattle.site_base.specs.Places.{Files, is_listed, AllDiffer};
ghost use Rattle.site_base.specs.Ends.{HasCauseOf};
ghost use Rattle.site_base.specs.PathMap.{as_map};
ghost use Rattle.out_tree.specs.Device.{Calls};
ghost use Rattle.out_tree.specs.Belief.{believed, state_of, all_marked, after, HoldsOf};
ghost use Rattle.out_tree.specs.Plan.{steps_of, plan_of, planned, removals, writes};
ghost use Rattle.out_tree.specs.Tries.{InOrder, DoneBut, StaysTrue, CallsFor, RoseBy};
ghost use Rattle.out_tree.specs.Exact.{MadeBut, MarksThose, Settles};
ghost use Rattle.out_tree.specs.declared.state.State.TheVariants.{Marked};
ghost use Rattle.out_tree.specs.declared.step.Call.TheVariants as call;

use crate::attempts::try_all;
use crate::planning::plan_for;
use crate::{KeepList, OutTree, Plan, State, Tree};
use site_base::{ListError, Memory, PathList, PathMap, SharedBytes, SitePath};
use std::alloc::Global;
use std::marker::Model;

/// What is believed of an output. Nothing is believed until it has been listed.
#[derive(Drop)]
pub struct OutKeeper {
    belief: Option<PathMap<State>>,
}

impl Model for OutKeeper {
    ghost use Rattle.std.specs.Prelude.{Option, List, ℕ};
    ghost use Rattle.std.specs.Option.{option_map};
    ghost use Rattle.site_base.specs.PathMap.{as_map};
    ghost use Rattle.out_tree.specs.Belief.{Belief};
    ghost use Rattle.out_tree.specs.BeliefCode.{belief_code};

    ghost Value = { Option Belief };

    ghost coded = { belief_code };

    ghost view = { λ keeper. option_map as_map keeper.belief };
}

/// What was done to an output.
#[derive(Drop)]
pub struct Applied {
    /// How many writes were tried.
    pub written: u64,
    /// How many removals were tried.
    pub removed: u64,
    /// The paths whose write or removal failed, in the order tried.
    pub failed: PathList,
}

impl OutKeeper {
    /// The keeper of an output that has not been listed; it takes no memory.
    pub fn open() -> OutKeeper
        ensures { result ≡ None }
    {
        OutKeeper { belief: None }
    }

    /// Whether the output has been listed.
    pub fn has_listed(&self) -> bool
        ensures { result ≡ is_some self.now }
    {
        self.belief.is_some()
    }

    /// How many paths are believed; 0 where the output has not been listed.
    pub fn entries(&self) -> u64
        ensures { result ≡ finmap.len (believed self.now) }
    {
        match &self.belief {
            Some(belief) => belief.len() as u64,
            None => 0,
        }
    }

    /// The believed path at a place of the byte order, counted from 0, with its bytes; `None` where it is marked.
    pub fn entry(&self, place: u64) -> (&SitePath, Option<&[u8]>)
        requires { place < finmap.len (believed self.now) }
        ensures { (result.0.now, state_of (option_copied result.1)) ≡ slice_index_or
            (finmap.entries (believed self.now)) place (result.0.now, state_of (option_copied result.1)) }
    {
        let (path, bytes) = self.shared_entry(place);
        match bytes {
            Some(bytes) => (path, Some(bytes.as_slice())),
            None => (path, None),
        }
    }

    /// The same with the holder of the bytes.
    pub fn shared_entry(&self, place: u64) -> (&SitePath, Option<&SharedBytes>)
        requires { place < finmap.len (believed self.now) }
        ensures { (result.0.now, state_of (option_copied result.1)) ≡ slice_index_or
            (finmap.entries (believed self.now)) place (result.0.now, state_of (option_copied result.1)) }
    {
        match &self.belief {
            Some(belief) => entry_of(belief, place as usize),
            None => unreachable!(),
        }
    }

    /// Whether the path is believed: known, or marked.
    pub fn has(&self, path: &SitePath) -> bool
        ensures { result ≡ finmap.contains_key (believed self.now) path.now }
    {
        match &self.belief {
            Some(belief) => belief.get(path).is_some(),
            None => false,
        }
    }

    /// Lists the output, unless that has succeeded before: every path that is there becomes marked.
    pub fn list_once<O: OutTree>(&mut self, alloc: Global, device: &mut O) -> Result<(), ListError>
        // Where it has succeeded before, nothing happens.
        ensures again { IsSome self.old
            → IsOk result × (self.new ≡ self.old) × (device.new ≡ device.old) }

        ensures listed { OnOk result (IsSome self.new) }
        ensures marked { self.old ≡ None
            → OnOk result ((files : Files) → O.contents device.old ≡ Some files
            → self.new ≡ Some (all_marked files)) }
        ensures holds { (files : Files)
            → O.contents device.old ≡ Some files → HoldsOf self.old files
            → HoldsOf self.new files }
        ensures err { OnErr result (self.new ≡ self.old) }
        ensures same { O.contents device.new ≡ O.contents device.old }
        ensures calls { self.old ≡ None
            → Calls (O.calls device.old) (O.calls device.new) (call.List ∷ []) }
        ensures cause { HasCauseOf ListError.Failed
            (O.failures device.old) (O.failures device.new) result }
    {
        if self.belief.is_some() {
            return Ok(());
        }
        let paths = match device.list(alloc) {
            Ok(paths) => paths,
            Err(error) => return Err(error),
        };
        let belief = match all_marked(alloc, paths) {
            Ok(belief) => belief,
            Err(Memory) => return Err(ListError::Memory),
        };
        self.belief = Some(belief);
        Ok(())
    }

    /// What makes the output equal to the tree, with all the memory that it takes.
    pub fn plan(&self, alloc: Global, tree: &Tree, keep: &KeepList) -> Result<Plan, Memory>
        requires { IsSome self.now }
        ensures { IfOk result (λ plan. plan ≡ plan_of (believed self.now) tree.now keep.now) }
    {
        match &self.belief {
            Some(belief) => plan_for(alloc, belief, tree, keep),
            None => unreachable!(),
        }
    }

    /// Makes the output equal to the tree, kept paths aside. After `Memory` nothing was done.
    pub fn make_equal<O: OutTree>(
        &mut self,
        alloc: Global,
        tree: &Tree,
        keep: &KeepList,
        device: &mut O,
    ) -> Result<Applied, Memory>
        requires { IsSome self.old }
        ensures err { OnErr result ((self.new ≡ self.old) × (device.new ≡ device.old)) }
        ensures written { IfOk result (λ applied.
            applied.written ≡ length (writes (believed self.old) tree.now)) }
        ensures removed { IfOk result (λ applied.
            applied.removed ≡ length (removals (believed self.old) tree.now keep.now)) }
        ensures in_order { IfOk result (λ applied.
            InOrder (planned (believed self.old) tree.now keep.now) applied.failed) }
        ensures belief { IfOk result (λ applied. self.new ≡ Some (after (believed self.old)
            (planned (believed self.old) tree.now keep.now) applied.failed)) }
        ensures contents { IfOk result (λ applied.
            DoneBut applied.failed (planned (believed self.old) tree.now keep.now)
            (O.contents device.old) (O.contents device.new)) }
        ensures truth { OnOk result (StaysTrue (believed self.old) (believed self.new)
            (O.contents device.old) (O.contents device.new)) }
        ensures calls { OnOk result (CallsFor (planned (believed self.old) tree.now keep.now)
            (O.calls device.old) (O.calls device.new)) }
        ensures cause { IfOk result (λ applied.
            RoseBy (length applied.failed) (O.failures device.old) (O.failures device.new)) }
        ensures later { O.failures device.old ≤ O.failures device.new }
        ensures steady { IfOk result (λ applied. applied.failed ≡ [] → O.failures device.new ≡ O.failures device.old) }
        ensures idle { planned (believed self.old) tree.now keep.now ≡ [] → device.new ≡ device.old }

        // Where the belief was true of the output, it is now exactly the tree, but for the paths that failed.
        ensures made { IfOk result (λ applied.
            MadeBut applied.failed (believed self.old) tree.now keep.now
            (O.contents device.old) (O.contents device.new)) }
        ensures marked { IfOk result (λ applied.
            MarksThose applied.failed keep.now (believed self.old) (believed self.new)) }
        ensures settled { IfOk result (λ applied.
            Settles applied.failed (believed self.new) tree.now keep.now) }
    {
        let plan = self.plan(alloc, tree, keep)?;
        Ok(self.apply(device, plan))
    }

    /// Tries every step of a plan that was made for what is believed now. It takes no memory.
    pub fn apply<O: OutTree>(&mut self, device: &mut O, plan: Plan) -> Applied
        requires listed { IsSome self.old }
        requires present { plan.believed ≡ finmap.len (believed self.old) }
        ensures written { result.written ≡ length plan.writes }
        ensures removed { result.removed ≡ length plan.removals }
        ensures in_order { InOrder (steps_of plan) result.failed }
        ensures belief { self.new ≡ Some (after (believed self.old) (steps_of plan) result.failed) }
        ensures contents { DoneBut result.failed (steps_of plan)
            (O.contents device.old) (O.contents device.new) }
        ensures truth { StaysTrue
            (believed self.old) (believed self.new) (O.contents device.old)
            (O.contents device.new) }
        ensures calls { CallsFor (steps_of plan) (O.calls device.old) (O.calls device.new) }
        ensures cause { RoseBy (length result.failed) (O.failures device.old) (O.failures device.new) }
        ensures later { O.failures device.old ≤ O.failures device.new }
        ensures steady { result.failed ≡ [] → O.failures device.new ≡ O.failures device.old }
        ensures idle { steps_of plan ≡ [] → device.new ≡ device.old }
    {
        let Plan {
            removals,
            writes,
            believed: _,
            spare,
            failed,
        } = plan;
        let mut failed = failed;
        let removed = removals.len() as u64;
        let written = writes.len() as u64;
        match &mut self.belief {
            Some(belief) => {
                belief.move_to(spare);
                try_all(belief, device, removals, &mut failed);
                try_all(belief, device, writes, &mut failed);
            }
            None => unreachable!(),
        }
        Applied {
            written,
            removed,
            failed: PathList::from_vec(failed),
        }
    }
}

// The path at a place of a belief, with the holder of its bytes where they are known.
fn entry_of(belief: &PathMap<State>, place: usize) -> (&SitePath, Option<&SharedBytes>)
    requires { place < finmap.len (as_map belief.now) }
    ensures { (result.0.now, state_of (option_copied result.1)) ≡ slice_index_or
        (finmap.entries (as_map belief.now)) place (result.0.now, state_of (option_copied result.1)) }
{
    let (path, state) = belief.at(place);
    match state {
        State::Known(bytes) => (path, Some(bytes)),
        State::Marked => (path, None),
    }
}

// The belief in which these paths are marked.
fn all_marked(alloc: Global, paths: Vec<SitePath>) -> Result<PathMap<State>, Memory>
    requires { AllDiffer paths.items }
    ensures { IfOk result (λ belief.
        (q : List ℕ)
        → finmap.get (as_map belief) q ≡ (if is_listed q paths.items then Some Marked else None)) }
{
    let mut entries = match Vec::with_capacity(alloc, paths.len()) {
        Ok(entries) => entries,
        Err(_) => return Err(Memory),
    };
    for path in paths {
        entries.push((path, State::Marked))?;
    }
    match PathMap::from_entries(entries) {
        Some(belief) => Ok(belief),
        None => unreachable!(),
    }
}
