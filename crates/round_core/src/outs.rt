// What a worker knows of a state.
ghost use Rattle.std.specs.Prelude.{◌≡◌};
ghost use Rattle.round_core.specs.States.{at, shown};
ghost use Rattle.round_core.specs.Meant.{given_by, kept_in};
ghost use Rattle.round_core.specs.Facts.{KeptCertified};

use crate::{Core, Made};
use memo_table::Memo;
use read_record::{Finished, ItemMeaning, KeptEntry, Outcome, World};

/// The entry that is kept of an item.
pub(crate) fn kept<'a, M: ItemMeaning, W: World>(
    world: &W,
    memo: &'a Memo<M>,
    item: u32,
) -> Option<KeptEntry<'a, M>>
    ensures kept { result ≡ kept_in (W.names world.now) memo.now item }
    ensures certified { KeptCertified (given_by (W.names world.now) (W.sight world.now) M.item memo.now) item }
{
    if item >= world.items() {
        return None;
    }
    let entry = memo.entry(world.name(item))?;
    // The name tells that the entry is certified.
    let _name = entry.name();
    Some(entry)
}

/// The entry that an item's cell stands for.
pub(crate) fn cell_entry<'a, M: ItemMeaning, W: World>(
    world: &W,
    memo: &'a Memo<M>,
    core: &'a Core<M>,
    item: u32,
) -> Option<KeptEntry<'a, M>>
    ensures { result ≡ shown (kept_in (W.names world.now) memo.now item) (at item core.now.cells) }
{
    match core.cell(item) {
        None => None,
        Some(Made::Kept) => kept(world, memo, item),
        Some(Made::New(entry)) => Some(KeptEntry::whole(entry.as_entry())),
    }
}

/// The outcomes of the items that a worker knows.
#[derive(Drop)]
pub(crate) struct Outs<'a, M: ItemMeaning, W: World> {
    world: &'a W,
    memo: &'a Memo<M>,
    core: &'a Core<M>,
    worker: u32,
}

impl<'a, M: ItemMeaning, W: World> Outs<'a, M, W> {
    pub(crate) fn new(
        world: &'a W,
        memo: &'a Memo<M>,
        core: &'a Core<M>,
        worker: u32,
    ) -> Outs<'a, M, W>
        ensures world { result.world.now ≡ world.now }
        ensures memo { result.memo.now ≡ memo.now }
        ensures core { result.core.now ≡ core.now }
        ensures worker { result.worker ≡ worker }
    {
        Outs {
            world,
            memo,
            core,
            worker,
        }
    }
}

impl<'a, M: ItemMeaning, W: World> Finished for Outs<'a, M, W> {
    ghost use Rattle.round_core.specs.States.{outs};
    ghost use Rattle.round_core.specs.Meant.{given_by};

    ghost outcomes = { λ s. outs (given_by (W.names s.world.now) (W.sight s.world.now) M.item s.memo.now) s.core.now s.worker };

    fn done(&self, item: u32) -> Option<&Outcome> {
        if !self.core.knows(self.worker, item) {
            return None;
        }
        match cell_entry(self.world, self.memo, self.core, item) {
            Some(entry) => Some(entry.outcome()),
            None => None,
        }
    }
}
