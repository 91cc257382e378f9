// Workers in threads of their own, and what they bring back together.
ghost use Rattle.std.specs.Prelude.{◌≡◌, ◌≤◌, [], All, IfOk, OnOk, length};
ghost use Rattle.claim_table.specs.Counts.{EachOnce};
ghost use Rattle.claim_table.specs.Seats.{empty_seat};
ghost use Rattle.round_core.specs.Meant.{given_by};
ghost use Rattle.render_workers.specs.Brought.{IsPart};
ghost use Rattle.render_workers.specs.Worked.{IsGathered};

use crate::cells::Cells;
use crate::part::Part;
use crate::worker::work;
use claim_table::{ClaimSeat, ClaimTable};
use memo_table::Memo;
use read_record::{ItemMeaning, Renderer, World};
use site_base::Memory;
use std::alloc::{AllocError, Global};
use std::sync::Wait;
use std::thread;
use std::thread::Threads;

/// What this number of workers brings back.
pub(crate) fn work_all<H: Threads + Wait + Sync, R: Renderer + Sync, W: World + Sync>(
    rt: &H,
    alloc: Global,
    renderer: &R,
    world: &W,
    memo: &Memo<R::Meaning>,
    jobs: u32,
) -> Result<Part<R::Meaning>, Memory>
where
    R::Meaning: Send + Sync,
    ensures { IfOk result (IsGathered (given_by (W.names world.now) (W.sight world.now) R.Meaning.item memo.now)) }
{
    let items = world.items();
    let (table, mut first) = ClaimTable::new(alloc, items)?;
    let workers = jobs.min(items);
    let cells = Cells::new(alloc, items, workers)?;
    let seats = seats(alloc, &table, &mut first, workers)?;
    let parts = spread(rt, alloc, renderer, world, memo, &table, &cells, seats)?;
    gather(world, memo, &table, Part::new(alloc, first), parts)
}

/// So many seats beside the first.
fn seats(
    alloc: Global,
    table: &ClaimTable,
    first: &mut ClaimSeat,
    count: u32,
) -> Result<Vec<ClaimSeat>, Memory>
    requires table { first.old.table ≡ table.now }
    ensures same { first.new ≡ first.old }
    ensures seats { IfOk result (λ made. All (λ seat. seat ≡ empty_seat table.now) made.items) }
{
    let mut made = Vec::with_capacity(alloc, count as usize)?;
    for _ in 0..count {
        made.push(table.split(first))?;
    }
    Ok(made)
}

/// Each worker works in a thread of its own.
fn spread<H: Threads + Wait + Sync, R: Renderer + Sync, W: World + Sync>(
    rt: &H,
    alloc: Global,
    renderer: &R,
    world: &W,
    memo: &Memo<R::Meaning>,
    table: &ClaimTable,
    cells: &Cells<R::Meaning>,
    seats: Vec<ClaimSeat>,
) -> Result<Vec<Result<Part<R::Meaning>, Memory>>, AllocError>
where
    R::Meaning: Send + Sync,
    requires words { length (W.names world.now) ≤ table.now.words }
    requires seats { All (λ seat. seat ≡ empty_seat table.now) seats.items }
    ensures { IfOk result (λ parts. All (λ part. IfOk part (λ p. IsPart (given_by (W.names world.now) (W.sight world.now) R.Meaning.item memo.now) table.now p.seat p.tally p.brought.items)) parts.items) }
{
    thread::map_vec(
        rt,
        seats,
        &|seat: ClaimSeat| -> Result<Part<R::Meaning>, Memory>
            requires { (length (W.names world.now) ≤ table.now.words) × (seat ≡ empty_seat table.now) }
            ensures { IfOk result (λ p. IsPart (given_by (W.names world.entry.now) (W.sight world.entry.now) R.Meaning.item memo.entry.now) table.entry.now p.seat p.tally p.brought.items) }
        { work(rt, alloc, renderer, world, memo, table, cells, seat) },
    )
}

/// All that the workers bring back, unless one of them lacked memory.
fn gather<M: ItemMeaning, W: World>(
    world: &W,
    memo: &Memo<M>,
    table: &ClaimTable,
    mut all: Part<M>,
    mut parts: Vec<Result<Part<M>, Memory>>,
) -> Result<Part<M>, Memory>
    requires all { (all.seat ≡ empty_seat table.now) × (all.tally ≡ []) × (all.brought.items ≡ []) }
    requires parts { All (λ part. IfOk part (λ p. IsPart (given_by (W.names world.now) (W.sight world.now) M.item memo.now) table.now p.seat p.tally p.brought.items)) parts.items }
    ensures { IfOk result (IsGathered (given_by (W.names world.now) (W.sight world.now) M.item memo.now)) }
{
    while let Some(part) = parts.pop() {
        let part = part?;
        join(world, memo, table, &mut all, part)?;
    }
    Ok(all)
}

/// Adds what a worker brings back. The seats are joined, so no item is there twice.
fn join<M: ItemMeaning, W: World>(
    world: &W,
    memo: &Memo<M>,
    table: &ClaimTable,
    all: &mut Part<M>,
    part: Part<M>,
) -> Result<(), Memory>
    requires all { IsPart (given_by (W.names world.now) (W.sight world.now) M.item memo.now) table.now all.old.seat all.old.tally all.old.brought.items }
    requires part { IsPart (given_by (W.names world.now) (W.sight world.now) M.item memo.now) table.now part.seat part.tally part.brought.items }
    ensures part { OnOk result (IsPart (given_by (W.names world.now) (W.sight world.now) M.item memo.now) table.now all.new.seat all.new.tally all.new.brought.items) }
    ensures once { OnOk result (EachOnce all.new.seat.mine all.new.seat.done) }
{
    let Part {
        seat,
        tally,
        mut brought,
    } = part;
    table.join(&mut all.seat, seat);
    all.tally.join(tally)?;
    all.brought.append(&mut brought)?;
    Ok(())
}
