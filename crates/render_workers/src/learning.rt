// What a worker learns of the items that others made.
ghost use Rattle.std.specs.Prelude.{◌≡◌, ◌<◌, ◌≤◌, None, Some, length, slice_get};
ghost use Rattle.round_core.specs.Meant.{given_by};
ghost use Rattle.render_workers.specs.Worked.{StaysRight};

use crate::cells::Cells;
use memo_table::{Lent, Memo};
use read_record::{Checked, Finished, ItemMeaning, KeptEntry, SharedEntry, World};
use round_core::{Hand, Made};
use std::sync::Wait;

/// What came of the try to take an item.
#[derive(Clone, Copy)]
enum Took {
    /// It is known now.
    Known,
    /// This earlier item has to be known first.
    Needs(u32),
    /// It was known before, or what the cell holds does not agree.
    Nothing,
}

/// Takes what a cell holds, once it was checked over what is known.
fn take<'a, M: ItemMeaning, W: World>(
    world: &W,
    memo: &'a Memo<M>,
    lent: &mut Lent<'a, M, W>,
    made: &'a Made<M>,
    hand: &mut Hand<'a, M>,
    item: u32,
) -> Took
    requires lent { lent.old ≡ record { entries = memo.now; world = world.now } }
    requires item { item < length (W.names world.now) }
    requires room { length hand.old ≡ length (W.names world.now) }
    ensures lent { lent.new ≡ record { entries = memo.now; world = world.now } }
    ensures hand { StaysRight (given_by (W.names world.now) (W.sight world.now) M.item memo.now) hand.old hand.new }
{
    if hand.done(item).is_some() {
        return Took::Nothing;
    }
    let checked = match made {
        Made::Kept => take_kept(world, memo, lent, hand, item),
        Made::New(entry) => take_new(world, memo, entry, hand, item),
    };
    match checked {
        Some(Checked::Agrees) => Took::Known,
        Some(Checked::Differs(_)) => Took::Nothing,
        Some(Checked::Needs(needed)) => Took::Needs(needed),
        None => Took::Nothing,
    }
}

/// Takes what is kept of an item, if anything is.
fn take_kept<'a, M: ItemMeaning, W: World>(
    world: &W,
    memo: &'a Memo<M>,
    lent: &mut Lent<'a, M, W>,
    hand: &mut Hand<'a, M>,
    item: u32,
) -> Option<Checked>
    requires lent { lent.old ≡ record { entries = memo.now; world = world.now } }
    requires item { item < length (W.names world.now) }
    requires room { length hand.old ≡ length (W.names world.now) }
    requires unknown { slice_get hand.old item ≡ Some None }
    ensures lent { lent.new ≡ record { entries = memo.now; world = world.now } }
    ensures hand { StaysRight (given_by (W.names world.now) (W.sight world.now) M.item memo.now) hand.old hand.new }
{
    hand.take_kept(lent, item)
}

#[tactic(auto, using(crate::proofs::WorkerLaws::takes))]
/// Takes an entry that another worker made, where it is one of this item.
fn take_new<'a, M: ItemMeaning, W: World>(
    world: &W,
    memo: &Memo<M>,
    made: &'a SharedEntry<M>,
    hand: &mut Hand<'a, M>,
    item: u32,
) -> Option<Checked>
    requires item { item < length (W.names world.now) }
    requires room { length hand.old ≡ length (W.names world.now) }
    requires unknown { slice_get hand.old item ≡ Some None }
    ensures { StaysRight (given_by (W.names world.now) (W.sight world.now) M.item memo.now) hand.old hand.new }
{
    let entry = made.as_entry();
    if entry.name() == world.name(item) {
        Some(hand.take(world, item, KeptEntry::whole(entry)))
    } else {
        None
    }
}

/// Takes what the cells of these items hold, where they are set, without waiting.
pub(crate) fn catch_up<'a, M: ItemMeaning, W: World>(
    world: &W,
    memo: &'a Memo<M>,
    lent: &mut Lent<'a, M, W>,
    cells: &'a Cells<M>,
    hand: &mut Hand<'a, M>,
    from: u32,
    to: u32,
)
    requires lent { lent.old ≡ record { entries = memo.now; world = world.now } }
    requires to { to ≤ length (W.names world.now) }
    requires room { length hand.old ≡ length (W.names world.now) }
    ensures lent { lent.new ≡ record { entries = memo.now; world = world.now } }
    ensures hand { StaysRight (given_by (W.names world.now) (W.sight world.now) M.item memo.now) hand.old hand.new }
{
    for item in from..to {
        if let Some(made) = cells.get(item) {
            take(world, memo, lent, made, hand, item);
        }
    }
}

/// Waits for an item that another one needs, and takes it, after those that it needs itself. It answers whether the item is known then.
pub(crate) fn fetch<'a, H: Wait, M: ItemMeaning, W: World>(
    rt: &H,
    world: &W,
    memo: &'a Memo<M>,
    lent: &mut Lent<'a, M, W>,
    cells: &'a Cells<M>,
    hand: &mut Hand<'a, M>,
    needed: u32,
    reader: u32,
) -> bool
    requires lent { lent.old ≡ record { entries = memo.now; world = world.now } }
    requires needed { needed < length (W.names world.now) }
    requires room { length hand.old ≡ length (W.names world.now) }
    ensures lent { lent.new ≡ record { entries = memo.now; world = world.now } }
    ensures hand { StaysRight (given_by (W.names world.now) (W.sight world.now) M.item memo.now) hand.old hand.new }
{
    let mut wanted = needed;
    for _ in rt.forever() {
        let Some(made) = cells.wait_for(rt, wanted, reader) else {
            return false;
        };
        match take(world, memo, lent, made, hand, wanted) {
            Took::Known if wanted == needed => return true,
            Took::Known => wanted = needed,
            Took::Needs(earlier) if earlier < wanted => wanted = earlier,
            _ => {
                cells.leave(rt);
                return false;
            }
        }
    }
    unreachable!()
}
