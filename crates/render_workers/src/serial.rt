// A round of one item after another.
ghost use Rattle.std.specs.Prelude.{◌≡◌, ◌+◌, ◌<◌, ◌≤◌, IfSome, length, slice_get};
ghost use Rattle.std.specs.FinMap.{get};
ghost use Rattle.memo_table.specs.Entries.{of_names};
ghost use Rattle.round_core.specs.Meant.{given_by};
ghost use Rattle.render_workers.specs.Folds.{AreDone, IsTold, fold_of};
ghost use Rattle.render_workers.specs.Rounds.{IsRound};
ghost use Rattle.render_workers.specs.Tallies.{Grows};
ghost use Rattle.render_workers.specs.Turns.{IsAddedNew, IsTurn};

use crate::progress::{Progress, round_of};
use crate::settling::{Settled, settle, with_check};
use crate::{Round, RoundError, Why};
use memo_table::{Memo, NotedMemo};
use read_record::{Entry, ItemMeaning, ReadShares, Renderer, SharedEntry, Tally, World};
use std::alloc::Global;

/// Keeps or renders the items one after another. The error `Fault` is the first fault of rendering them all anew, and comes
/// exactly where there is one; the entries of the items before it are kept then, and all other entries stay. Without a fault
/// each item of the world has its entry, and no other name has one. The names of the items that were rendered join the
/// tally, each once. After want of memory every entry that is kept is still certified, by its type. However it ends, what only
/// replaced entries had read is let go.
pub fn regenerate_serial<R: Renderer, W: World>(
    alloc: Global,
    renderer: &R,
    world: &W,
    memo: &mut Memo<R::Meaning>,
    tally: &mut Tally,
) -> Result<Round, RoundError>
    ensures round { IsRound (given_by (W.names world.now) (W.sight world.now) R.Meaning.item memo.old) (W.fixed world.now) result memo.new tally.old tally.new }
    // The tally keeps the names that it had, also where memory is wanting.
    ensures grows { Grows tally.old tally.new }

    // Rendering them one after another never waits for an item.
    ensures told { IsTold (fold_of (given_by (W.names world.now) (W.sight world.now) R.Meaning.item memo.old) (W.fixed world.now)) }
{
    never_waits(world, memo);
    let round = go_over(alloc, renderer, world, memo, tally);
    let_go(memo);
    round
}

/// Lets those entries go that were replaced.
pub(crate) fn let_go<M: ItemMeaning>(memo: &mut Memo<M>)
    ensures { memo.new ≡ memo.old }
{
    memo.pool();
}

// A law of worlds, which takes no time: rendering one item after another never waits for an item.
pub(crate) fn never_waits<M: ItemMeaning, W: World>(world: &W, memo: &Memo<M>)
    ensures { IsTold (fold_of (given_by (W.names world.now) (W.sight world.now) M.item memo.now) (W.fixed world.now)) }
{}

#[tactic(auto, using(crate::proofs::TallyLaws::grows_none))]
fn go_over<R: Renderer, W: World>(
    alloc: Global,
    renderer: &R,
    world: &W,
    memo: &mut Memo<R::Meaning>,
    tally: &mut Tally,
) -> Result<Round, RoundError>
    ensures round { IsRound (given_by (W.names world.now) (W.sight world.now) R.Meaning.item memo.old) (W.fixed world.now) result memo.new tally.old tally.new }
    ensures grows { Grows tally.old tally.new }
{
    let mut progress = Progress::new(alloc, world.fixed_bytes());
    let mut shares = ReadShares::new(alloc);
    let mut noted = memo.noted(alloc, world)?;
    for item in 0..world.items() {
        match next_item(
            alloc,
            renderer,
            world,
            &mut noted,
            item,
            &mut progress,
            tally,
            &mut shares,
        ) {
            Ok(()) => {}
            Err(error) => {
                noted.give_back(memo);
                return Err(error);
            }
        }
    }
    noted.give_back(memo);
    Ok(closed(world, memo, progress))
}

/// The round once all items are done. The names that no item has are forgotten.
pub(crate) fn closed<M: ItemMeaning, W: World>(
    world: &W,
    memo: &mut Memo<M>,
    progress: Progress,
) -> Round
    requires { length progress.why ≤ length (W.names world.now) }
    ensures outs { result.outs ≡ progress.outs }
    ensures why { result.why ≡ progress.why }
    ensures reused { result.reused + length progress.why ≡ length (W.names world.now) }
    ensures kept { memo.new ≡ of_names (W.names world.now) memo.old }
{
    memo.forget_missing(world);
    round_of(progress, world.items())
}

#[tactic(auto, using(crate::proofs::TallyLaws::grows_none, crate::proofs::TallyLaws::grows_more, crate::proofs::TallyLaws::grows_traced, crate::proofs::TryLaws::asks_on))]
/// Keeps or renders the next item, behind those that are done.
pub(crate) fn next_item<R: Renderer, W: World>(
    alloc: Global,
    renderer: &R,
    world: &W,
    noted: &mut NotedMemo<'_, R::Meaning, W>,
    item: u32,
    progress: &mut Progress,
    tally: &mut Tally,
    shares: &mut ReadShares,
) -> Result<(), RoundError>
    requires world { noted.old.world ≡ world.now }
    requires item { item < length (W.names world.now) }
    requires done { AreDone item (slice_get progress.old.outs) }
    ensures world { noted.new.world ≡ world.now }
    ensures grows { Grows tally.old tally.new }
    ensures turn { IfSome (slice_get (W.names world.now) item)
        (λ name. IsTurn (W.sight world.now item (slice_get progress.old.outs)) name (R.Meaning.item name) result progress.old progress.new noted.old.entries noted.new.entries tally.old tally.new) }
{
    let name = world.name(item);
    let checked = noted.checked(name, item, progress);
    let found = with_check(noted.entry(name), checked);
    match settle(alloc, renderer, world, item, progress, found, tally, shares) {
        Settled::Kept(entry) => {
            let outcome = entry.outcome().copy(alloc)?;
            progress.add(alloc, entry.name(), outcome)
        }
        Settled::New(entry, why) => add_new(alloc, world, noted, progress, entry, why),
        // All items before it are done.
        Settled::Needs(_) => unreachable!(),
        Settled::Memory => Err(RoundError::Memory),
    }
}

/// Adds an item that was rendered anew. Its entry is kept, unless the round ends with its fault.
fn add_new<M: ItemMeaning, W: World>(
    alloc: Global,
    world: &W,
    noted: &mut NotedMemo<'_, M, W>,
    progress: &mut Progress,
    entry: Entry<M>,
    why: Why,
) -> Result<(), RoundError>
    requires { noted.old.world ≡ world.now }
    ensures world { noted.new.world ≡ world.now }
    ensures added { IsAddedNew entry why result progress.old progress.new noted.old.entries noted.new.entries }
{
    let entry = SharedEntry::new(alloc, entry)?;
    add_shared(alloc, world, noted, progress, &entry, why)
}

#[tactic(auto, using(crate::proofs::TryLaws::joins, crate::proofs::TryLaws::asks_on, crate::proofs::TryLaws::keeps_on))]
/// The same of an entry that its cell holds too.
pub(crate) fn add_shared<M: ItemMeaning, W: World>(
    alloc: Global,
    world: &W,
    noted: &mut NotedMemo<'_, M, W>,
    progress: &mut Progress,
    shared: &SharedEntry<M>,
    why: Why,
) -> Result<(), RoundError>
    requires { noted.old.world ≡ world.now }
    ensures world { noted.new.world ≡ world.now }
    ensures added { IsAddedNew shared.now why result progress.old progress.new noted.old.entries noted.new.entries }
{
    let entry = shared.as_entry();
    let outcome = entry.outcome().copy(alloc)?;
    match progress.add_rendered(alloc, entry.name(), outcome, why) {
        Ok(()) => {}
        Err(error) => return Err(error),
    }
    noted.merge_shared(alloc, shared)?;
    Ok(())
}
