// One event.
ghost use Rattle.std.specs.Prelude.{◌≡◌, ◌<◌, Some, None, IfSome, OnOk, length};
ghost use Rattle.read_record.specs.Records.{Certifies};
ghost use Rattle.read_record.specs.Outcomes.{met_of};
ghost use Rattle.round_core.specs.Meant.{given_by, kept_at};
ghost use Rattle.round_core.specs.States.{at, outs, with_cell};
ghost use Rattle.round_core.specs.Steps.{Differs, IsStepped, OnDone};
ghost use Rattle.round_core.specs.Facts.{KeptCertified};

use crate::outs::{Outs, cell_entry, kept};
use crate::{Core, Event, Made};
use memo_table::Memo;
use read_record::{
    Checked, Entry, ItemMeaning, Renderer, SharedEntry, Tally, Traced, World, render_traced,
};
use site_base::Memory;
use std::alloc::Global;

/// What an event came to.
#[derive(Drop)]
pub(crate) enum Stepped {
    Done,
    /// The state does not allow it, and is as before.
    Refused,
    Memory,
}

/// A site with what is kept of it, and how many workers there are.
#[derive(Drop)]
pub(crate) struct Round<'a, M: ItemMeaning, W: World> {
    pub(crate) world: &'a W,
    pub(crate) memo: &'a Memo<M>,
    pub(crate) workers: u32,
}

/// The worker claims the item, which nobody has claimed.
pub(crate) fn claim<M: ItemMeaning, W: World>(
    round: &Round<M, W>,
    core: &mut Core<M>,
    worker: u32,
    item: u32,
) -> Stepped
    ensures { IsStepped (given_by (W.names round.now.world.now) (W.sight round.now.world.now) M.item round.now.memo.now) round.now.workers result core.old (Event.Claim worker item) core.new }
{
    if worker >= round.workers || item >= round.world.items() {
        return Stepped::Refused;
    }
    match core.claimant(item) {
        Some(_) => Stepped::Refused,
        None => match core.add_claim(worker, item) {
            Ok(()) => Stepped::Done,
            Err(_) => Stepped::Memory,
        },
    }
}

/// The worker, which does not know the item, takes note of what its cell holds, where that agrees with what it knows.
pub(crate) fn take<M: ItemMeaning, W: World>(
    alloc: Global,
    round: &Round<M, W>,
    core: &mut Core<M>,
    worker: u32,
    item: u32,
) -> Stepped
    ensures { IsStepped (given_by (W.names round.now.world.now) (W.sight round.now.world.now) M.item round.now.memo.now) round.now.workers result core.old (Event.Take worker item) core.new }
{
    if worker >= round.workers || item >= round.world.items() || core.knows(worker, item) {
        return Stepped::Refused;
    }
    let Some(shown) = cell_entry(round.world, round.memo, core, item) else {
        return Stepped::Refused;
    };
    let outs = Outs::new(round.world, round.memo, core, worker);
    match shown.check(round.world, item, &outs) {
        Checked::Agrees => match core.add_known(alloc, worker, item) {
            Ok(()) => Stepped::Done,
            Err(_) => Stepped::Memory,
        },
        Checked::Differs(_) => Stepped::Refused,
        Checked::Needs(_) => Stepped::Refused,
    }
}

/// The worker sets the empty cell of an item that it has claimed to what is kept of it, where that agrees with what it knows.
pub(crate) fn keep<M: ItemMeaning, W: World>(
    round: &Round<M, W>,
    core: &mut Core<M>,
    worker: u32,
    item: u32,
) -> Stepped
    ensures step { IsStepped (given_by (W.names round.now.world.now) (W.sight round.now.world.now) M.item round.now.memo.now) round.now.workers result core.old (Event.Keep worker item) core.new }
    ensures sound { OnDone result (KeptCertified (given_by (W.names round.now.world.now) (W.sight round.now.world.now) M.item round.now.memo.now) item) }
{
    if worker >= round.workers || item >= round.world.items() {
        return Stepped::Refused;
    }
    if core.claimant(item) != Some(worker) || core.cell(item).is_some() {
        return Stepped::Refused;
    }
    let Some(entry) = kept(round.world, round.memo, item) else {
        return Stepped::Refused;
    };
    let outs = Outs::new(round.world, round.memo, core, worker);
    match entry.check(round.world, item, &outs) {
        Checked::Agrees => match core.add_cell(item, Made::Kept) {
            Ok(()) => Stepped::Done,
            Err(_) => Stepped::Memory,
        },
        Checked::Differs(_) => Stepped::Refused,
        Checked::Needs(_) => Stepped::Refused,
    }
}

/// Sets the cell of an item to an entry that was made.
fn set_cell<M: ItemMeaning>(
    alloc: Global,
    core: &mut Core<M>,
    item: u32,
    entry: Entry<M>,
) -> Result<(), Memory>
    ensures { OnOk result (core.new ≡ with_cell item (Made.New entry) core.old) }
{
    let shared = SharedEntry::new(alloc, entry)?;
    core.add_cell(item, Made::New(shared))
}

/// Renders an item that may be finished, and sets its cell.
fn render<R: Renderer, W: World>(
    alloc: Global,
    renderer: &R,
    round: &Round<R::Meaning, W>,
    core: &mut Core<R::Meaning>,
    worker: u32,
    item: u32,
) -> Stepped
    requires worker { worker < round.now.workers }
    requires item { item < length (W.names round.now.world.now) }
    requires mine { at item core.old.claims ≡ Some worker }
    requires empty { at item core.old.cells ≡ None }
    requires stale { let given = given_by (W.names round.now.world.now) (W.sight round.now.world.now) R.Meaning.item round.now.memo.now in Differs (kept_at given item) (W.sight round.now.world.now item (outs given core.old worker)) }
    ensures { IsStepped (given_by (W.names round.now.world.now) (W.sight round.now.world.now) R.Meaning.item round.now.memo.now) round.now.workers result core.old (Event.Finish worker item) core.new }
{
    let mut tally = Tally::new(alloc);
    let outs = Outs::new(round.world, round.memo, core, worker);
    match render_traced(alloc, renderer, round.world, item, &outs, &mut tally) {
        Traced::Entry(entry) => match set_cell(alloc, core, item, entry) {
            Ok(()) => Stepped::Done,
            Err(_) => Stepped::Memory,
        },
        Traced::Needs(_) => Stepped::Refused,
        Traced::Memory => Stepped::Memory,
    }
}

/// The worker renders an item that it has claimed, whose cell is empty and of which nothing is kept that agrees with what it
/// knows.
pub(crate) fn finish<R: Renderer, W: World>(
    alloc: Global,
    renderer: &R,
    round: &Round<R::Meaning, W>,
    core: &mut Core<R::Meaning>,
    worker: u32,
    item: u32,
) -> Stepped
    ensures { IsStepped (given_by (W.names round.now.world.now) (W.sight round.now.world.now) R.Meaning.item round.now.memo.now) round.now.workers result core.old (Event.Finish worker item) core.new }
{
    if worker >= round.workers || item >= round.world.items() {
        return Stepped::Refused;
    }
    if core.claimant(item) != Some(worker) || core.cell(item).is_some() {
        return Stepped::Refused;
    }
    let Some(old) = kept(round.world, round.memo, item) else {
        return render(alloc, renderer, round, core, worker, item);
    };
    let outs = Outs::new(round.world, round.memo, core, worker);
    match old.check(round.world, item, &outs) {
        Checked::Agrees => Stepped::Refused,
        Checked::Differs(_) => render(alloc, renderer, round, core, worker, item),
        Checked::Needs(_) => Stepped::Refused,
    }
}
