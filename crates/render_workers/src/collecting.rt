// The collector: what workers brought back, in render order, and the rest of the round.
ghost use Rattle.std.specs.Prelude.{◌≡◌, ◌<◌, ◌++◌, [], IfSome, length, slice_get};
ghost use Rattle.std.specs.FinMap.{get};
ghost use Rattle.round_core.specs.Meant.{given_by};
ghost use Rattle.render_workers.specs.Brought.{IsFresh, IsRight, name_in};
ghost use Rattle.render_workers.specs.Folds.{AreDone};
ghost use Rattle.render_workers.specs.Tallies.{Grows};
ghost use Rattle.render_workers.specs.Turns.{IsTurn};
ghost use Rattle.render_workers.specs.Worked.{IsGathered, IsWorked};

use crate::part::{Part, Work};
use crate::placing::{place_all, take_from};
use crate::progress::Progress;
use crate::serial::{add_shared, closed, next_item};
use crate::{Round, RoundError};
use memo_table::{Memo, NotedMemo};
use read_record::{ItemMeaning, ReadShares, Renderer, Tally, World};
use std::alloc::Global;

#[tactic(auto, using(crate::proofs::TallyLaws::grows_none, crate::proofs::TallyLaws::grows_more, crate::proofs::TallyLaws::grows_traced))]
/// Goes through the items in render order. What nobody brought back is kept or rendered now. The round ends at the first fault, and the
/// entries of the items before it are kept.
pub(crate) fn collect<R: Renderer, W: World>(
    alloc: Global,
    renderer: &R,
    world: &W,
    memo: &mut Memo<R::Meaning>,
    all: Part<R::Meaning>,
    tally: &mut Tally,
) -> Result<Round, RoundError>
    requires { IsGathered (given_by (W.names world.now) (W.sight world.now) R.Meaning.item memo.old) all }
    ensures grows { Grows tally.old tally.new }
    ensures worked { IsWorked (given_by (W.names world.now) (W.sight world.now) R.Meaning.item memo.old) (W.fixed world.now) result memo.new tally.old tally.new }
{
    let Part {
        seat: _,
        tally: rendered,
        brought,
    } = all;
    let mut places = place_all(alloc, brought, world.items())?;
    tally.join(rendered)?;
    let mut progress = Progress::new(alloc, world.fixed_bytes());
    let mut shares = ReadShares::new(alloc);
    let mut noted = memo.noted(alloc, world)?;
    for item in 0..world.items() {
        let work = take_from(&mut places, item);
        match collect_next(
            alloc,
            renderer,
            world,
            &mut noted,
            item,
            work,
            &mut progress,
            tally,
            &mut shares,
        ) {
            Ok(()) => {}
            Err(error) => {
                noted.give_back(memo);
                return Err(error);
            }
        }
    }
    noted.give_back(memo);
    Ok(closed(world, memo, progress))
}

#[tactic(auto, using(crate::proofs::TallyLaws::grows_none, crate::proofs::TallyLaws::grows_more, crate::proofs::TallyLaws::grows_traced))]
/// Adds the next item, behind those that are done. Its name joins the tally where it is rendered now.
fn collect_next<R: Renderer, W: World>(
    alloc: Global,
    renderer: &R,
    world: &W,
    noted: &mut NotedMemo<'_, R::Meaning, W>,
    item: u32,
    work: Option<Work<R::Meaning>>,
    progress: &mut Progress,
    tally: &mut Tally,
    shares: &mut ReadShares,
) -> Result<(), RoundError>
    requires world { noted.old.world ≡ world.now }
    requires item { item < length (W.names world.now) }
    requires done { AreDone item (slice_get progress.old.outs) }
    requires right { IfSome (slice_get (W.names world.now) item)
        (λ name. IfSome work (IsRight (get noted.old.entries name) (W.sight world.now item (slice_get progress.old.outs)) name (R.Meaning.item name))) }
    ensures world { noted.new.world ≡ world.now }
    ensures grows { Grows tally.old tally.new }
    // With the name of an item that a worker rendered, the tally is as if it were rendered now.
    ensures turn { IfSome (slice_get (W.names world.now) item)
        (λ name. IsTurn (W.sight world.now item (slice_get progress.old.outs)) name (R.Meaning.item name) result progress.old progress.new noted.old.entries noted.new.entries tally.old (tally.new ++ name_in work)) }
{
    match work {
        Some(Work::New(entry, why)) => add_shared(alloc, world, noted, progress, &entry, why),
        Some(Work::Kept) => add_kept(alloc, world, noted, item, progress),
        None => next_item(alloc, renderer, world, noted, item, progress, tally, shares),
    }
}

/// Adds an item of which what is kept stays.
fn add_kept<M: ItemMeaning, W: World>(
    alloc: Global,
    world: &W,
    noted: &NotedMemo<'_, M, W>,
    item: u32,
    progress: &mut Progress,
) -> Result<(), RoundError>
    requires item { item < length (W.names world.now) }
    requires right { IfSome (slice_get (W.names world.now) item)
        (λ name. IsFresh (get noted.now.entries name) (W.sight world.now item (slice_get progress.old.outs)) name (M.item name)) }
    ensures { IfSome (slice_get (W.names world.now) item)
        (λ name. IsTurn (W.sight world.now item (slice_get progress.old.outs)) name (M.item name) result progress.old progress.new noted.now.entries noted.now.entries [] []) }
{
    let Some(entry) = noted.entry(world.name(item)) else {
        // A worker kept it.
        unreachable!()
    };
    let outcome = entry.outcome().copy(alloc)?;
    progress.add(alloc, entry.name(), outcome)
}
