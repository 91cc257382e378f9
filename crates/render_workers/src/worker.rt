// One worker.
ghost use Rattle.std.specs.Prelude.{◌≡◌, ◌<◌, ◌≤◌, length, OnOk, IfOk};
ghost use Rattle.claim_table.specs.Counts.{times};
ghost use Rattle.claim_table.specs.Seats.{empty_seat};
ghost use Rattle.round_core.specs.Meant.{given_by};
ghost use Rattle.render_workers.specs.Worked.{IsWork, IsWorked, StaysRight};
ghost use Rattle.render_workers.specs.Brought.{IsPart};

use crate::cells::{Cells, has_fault};
use crate::learning::{catch_up, fetch};
use crate::part::{Part, Work};
use crate::settling::{Settled, settle_lent};
use claim_table::{ClaimSeat, ClaimTable, Claimed};
use memo_table::{Lent, Memo};
use read_record::{Finished, ItemMeaning, ReadShares, Renderer, SharedEntry, World};
use round_core::{Hand, Made};
use site_base::Memory;
use std::alloc::Global;
use std::sync::Wait;

/// A worker with what it has done and what it knows.
#[derive(Drop)]
struct Worker<'a, M: ItemMeaning, W: World> {
    part: Part<M>,
    hand: Hand<'a, M>,
    /// What is kept, with notes of what was found of the world.
    lent: Lent<'a, M, W>,
    /// What the entries that it makes have read.
    shares: ReadShares,
    /// The cells of the items below were looked at.
    looked_at: u32,
}

/// What a worker brings back that goes through the items in order, and claims what is free. The one error is want of memory.
pub(crate) fn work<H: Wait, R: Renderer, W: World>(
    rt: &H,
    alloc: Global,
    renderer: &R,
    world: &W,
    memo: &Memo<R::Meaning>,
    table: &ClaimTable,
    cells: &Cells<R::Meaning>,
    seat: ClaimSeat,
) -> Result<Part<R::Meaning>, Memory>
    requires words { length (W.names world.now) ≤ table.now.words }
    requires seat { seat ≡ empty_seat table.now }
    ensures { IfOk result (λ part. IsPart (given_by (W.names world.now) (W.sight world.now) R.Meaning.item memo.now) table.now part.seat part.tally part.brought.items) }
{
    match go_through(rt, alloc, renderer, world, memo, table, cells, seat) {
        Ok(part) => Ok(part),
        Err(error) => {
            cells.lack_memory(rt);
            Err(error)
        }
    }
}

fn go_through<'a, H: Wait, R: Renderer, W: World>(
    rt: &H,
    alloc: Global,
    renderer: &R,
    world: &'a W,
    memo: &'a Memo<R::Meaning>,
    table: &ClaimTable,
    cells: &'a Cells<R::Meaning>,
    seat: ClaimSeat,
) -> Result<Part<R::Meaning>, Memory>
    requires words { length (W.names world.now) ≤ table.now.words }
    requires seat { seat ≡ empty_seat table.now }
    ensures { IfOk result (λ part. IsPart (given_by (W.names world.now) (W.sight world.now) R.Meaning.item memo.now) table.now part.seat part.tally part.brought.items) }
{
    let mut worker = Worker {
        part: Part::new(alloc, seat),
        hand: Hand::new(alloc, world)?,
        lent: memo.lend(alloc, world)?,
        shares: ReadShares::new(alloc),
        looked_at: 0,
    };
    for item in 0..world.items() {
        match table.try_claim(&mut worker.part.seat, item) {
            Claimed::Mine => {
                // Above a fault nobody needs an item, so this one is left.
                if cells.is_over(rt, item) {
                    break;
                }
                make(
                    rt,
                    alloc,
                    renderer,
                    world,
                    memo,
                    table,
                    cells,
                    &mut worker,
                    item,
                )?;
            }
            Claimed::Taken => {}
            Claimed::Finished => {}
        }
    }
    let Worker {
        part,
        hand: _,
        lent: _,
        shares: _,
        looked_at: _,
    } = worker;
    Ok(part)
}

/// Keeps or renders an item that the seat has claimed. Where it needs an item that nobody shows, it is left to the collector.
fn make<'a, H: Wait, R: Renderer, W: World>(
    rt: &H,
    alloc: Global,
    renderer: &R,
    world: &W,
    memo: &'a Memo<R::Meaning>,
    table: &ClaimTable,
    cells: &'a Cells<R::Meaning>,
    worker: &mut Worker<'a, R::Meaning, W>,
    item: u32,
) -> Result<(), Memory>
    requires item { item < length (W.names world.now) }
    requires mine { 0 < times item worker.old.part.seat.mine }
    requires lent { worker.old.lent ≡ record { entries = memo.now; world = world.now } }
    requires work { IsWork (given_by (W.names world.now) (W.sight world.now) R.Meaning.item memo.now) table.now worker.old }
    ensures lent { worker.new.lent ≡ record { entries = memo.now; world = world.now } }
    ensures work { OnOk result (IsWork (given_by (W.names world.now) (W.sight world.now) R.Meaning.item memo.now) table.now worker.new) }
{
    // The place of what is made of it, before anything is rendered into the tally.
    worker.part.brought.reserve(1)?;
    for _ in rt.forever() {
        match settle_lent(
            alloc,
            renderer,
            world,
            memo,
            &mut worker.lent,
            item,
            &worker.hand,
            &mut worker.part.tally,
            &mut worker.shares,
        ) {
            Settled::Kept(entry) => {
                let shown = Box::new(alloc, Made::Kept)?;
                let has_fault = has_fault(entry.outcome());
                worker.part.add(table, item, Work::Kept)?;
                cells.show(rt, world, memo, &worker.hand, item, shown, has_fault);
                return Ok(());
            }
            Settled::New(entry, why) => {
                let entry = SharedEntry::new(alloc, entry)?;
                let shown = Box::new(alloc, Made::New(entry.share()?))?;
                let has_fault = has_fault(entry.as_entry().outcome());
                worker.part.add(table, item, Work::New(entry, why))?;
                cells.show(rt, world, memo, &worker.hand, item, shown, has_fault);
                return Ok(());
            }
            Settled::Needs(needed) => {
                if !learn(rt, world, memo, cells, worker, needed, item) {
                    return Ok(());
                }
            }
            Settled::Memory => return Err(Memory),
        }
    }
    unreachable!()
}

/// Learns an item that another one needs, with all that others have made before that one. It answers whether that one is worth another try.
fn learn<'a, H: Wait, M: ItemMeaning, W: World>(
    rt: &H,
    world: &W,
    memo: &'a Memo<M>,
    cells: &'a Cells<M>,
    worker: &mut Worker<'a, M, W>,
    needed: u32,
    reader: u32,
) -> bool
    requires reader { reader < length (W.names world.now) }
    requires room { length worker.old.hand ≡ length (W.names world.now) }
    requires lent { worker.old.lent ≡ record { entries = memo.now; world = world.now } }
    ensures lent { worker.new.lent ≡ record { entries = memo.now; world = world.now } }
    ensures part { worker.new.part ≡ worker.old.part }
    ensures hand { StaysRight (given_by (W.names world.now) (W.sight world.now) M.item memo.now) worker.old.hand worker.new.hand }
{
    if needed >= reader {
        cells.leave(rt);
        return false;
    }
    catch_up(
        world,
        memo,
        &mut worker.lent,
        cells,
        &mut worker.hand,
        worker.looked_at,
        reader,
    );
    worker.looked_at = reader;
    match worker.hand.done(needed) {
        // An item that needs one with a fault is never done.
        Some(outcome) => !has_fault(outcome),
        None => fetch(
            rt,
            world,
            memo,
            &mut worker.lent,
            cells,
            &mut worker.hand,
            needed,
            reader,
        ),
    }
}
