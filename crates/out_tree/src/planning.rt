// What is to be done to make an output equal to a tree.
ghost use Rattle.std.specs.Prelude.{◌≡◌, IfOk, map};
ghost use Rattle.std.specs.FinMap as finmap;
ghost use Rattle.site_base.specs.PathMap.{as_map};
ghost use Rattle.out_tree.specs.Plan.{plan_of, removals, writes, is_known_as, is_surplus};

use crate::keep::is_kept;
use crate::plan::{Planned, push_step};
use crate::{KeepList, Plan, State, Step, Tree};
use site_base::{Memory, PathMap, SharedBytes, SitePath};
use std::alloc::Global;

/// What makes an output of which this is believed equal to the tree, with all the memory that it takes.
pub(crate) fn plan_for(
    alloc: Global,
    belief: &PathMap<State>,
    tree: &Tree,
    keep: &KeepList,
) -> Result<Plan, Memory>
    ensures { IfOk result (λ plan. plan ≡ plan_of (as_map belief.now) tree.now keep.now) }
{
    let removals = all_removals(alloc, belief, tree, keep)?;
    let writes = all_writes(alloc, belief, tree)?;
    let Some(steps) = removals.len().checked_add(writes.len()) else {
        return Err(Memory);
    };
    let Some(most) = belief.len().checked_add(steps) else {
        return Err(Memory);
    };
    let mut spare = PathMap::new(alloc);
    spare.reserve(most)?;
    let failed = match Vec::with_capacity(alloc, steps) {
        Ok(failed) => failed,
        Err(_) => return Err(Memory),
    };
    Ok(Plan {
        removals,
        writes,
        believed: belief.len(),
        spare,
        failed,
    })
}

// A removal of each path that is believed and surplus.
fn all_removals(
    alloc: Global,
    belief: &PathMap<State>,
    tree: &Tree,
    keep: &KeepList,
) -> Result<Vec<Planned>, Memory>
    ensures { IfOk result (λ steps.
        map (λ p. p.step) steps.items ≡ removals (as_map belief.now) tree.now keep.now) }
{
    let mut steps = Vec::new(alloc);
    for place in 0..belief.len() {
        let (path, _) = belief.at(place);
        if is_surplus(tree, keep, path) {
            push_step(
                &mut steps,
                Step::Remove(path.copy(alloc)?),
                path.copy(alloc)?,
            )?;
        }
    }
    Ok(steps)
}

// A write of each file of the tree that is not known to be there.
fn all_writes(alloc: Global, belief: &PathMap<State>, tree: &Tree) -> Result<Vec<Planned>, Memory>
    ensures { IfOk result (λ steps.
        map (λ p. p.step) steps.items ≡ writes (as_map belief.now) tree.now) }
{
    let mut steps = Vec::new(alloc);
    for place in 0..tree.len() {
        let (path, bytes) = tree.shared_at(place);
        if !is_known(belief, path, bytes) {
            let step = Step::Write(path.copy(alloc)?, bytes.share()?);
            push_step(&mut steps, step, path.copy(alloc)?)?;
        }
    }
    Ok(steps)
}

// Whether no file of the tree has the path, and no entry keeps it.
fn is_surplus(tree: &Tree, keep: &KeepList, path: &SitePath) -> bool
    ensures { result ≡ is_surplus tree.now keep.now path.now }
{
    tree.get(path).is_none() && !is_kept(keep, path)
}

// Whether the path is believed to have these bytes.
fn is_known(belief: &PathMap<State>, path: &SitePath, bytes: &SharedBytes) -> bool
    ensures { result ≡ is_known_as (finmap.get (as_map belief.now) path.now) bytes.now }
{
    match belief.get(path) {
        Some(State::Known(known)) => known.as_slice() == bytes.as_slice(),
        Some(State::Marked) => false,
        None => false,
    }
}
