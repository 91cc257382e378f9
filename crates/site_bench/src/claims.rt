// A million claims by several threads, timed.
ghost use Rattle.std.specs.Prelude.{◌≡◌, ◌≤◌, All, IfOk};

use claim_table::{ClaimSeat, ClaimTable, Claimed};
use std::alloc::{AllocError, Global};
use std::rt::Clock;
use std::thread;
use std::thread::Threads;
use std::time::{Duration, Instant};

const ITEMS: u32 = 1_000_000;

/// How long so many threads take, each of which tries to claim a million items in order, and how many claims succeed.
pub fn timed<R: Threads + Clock + Sync>(
    rt: &R,
    alloc: Global,
    threads: u32,
) -> Option<(Duration, u64)> {
    let (table, mut first) = ClaimTable::new(alloc, ITEMS).ok()?;
    let seats = seats(alloc, &table, &mut first, threads).ok()?;
    let started = Instant::now(rt).ok()?;
    let claimed = spread(rt, &table, seats).ok()?;
    let taken = started.elapsed(rt).ok()?;
    Some((taken, total(claimed.as_slice())))
}

// So many seats beside the first.
fn seats(
    alloc: Global,
    table: &ClaimTable,
    first: &mut ClaimSeat,
    count: u32,
) -> Result<Vec<ClaimSeat>, AllocError>
    requires { first.old.table ≡ table.now }
    ensures { IfOk result (λ made. All (λ seat. seat.table ≡ table.now) made.items) }
{
    let mut made = Vec::new(alloc);
    for _ in 0..count {
        made.push(table.split(first))?;
    }
    Ok(made)
}

// How many claims each seat had, in a thread of its own.
fn spread<R: Threads + Sync>(
    rt: &R,
    table: &ClaimTable,
    seats: Vec<ClaimSeat>,
) -> Result<Vec<u32>, AllocError>
    requires seats { All (λ seat. seat.table ≡ table.now) seats.items }
    requires items { ITEMS ≤ table.now.words }
{
    thread::map_vec(
        rt,
        seats,
        &|seat: ClaimSeat| -> u32
            requires { (seat.table ≡ table.now) × (ITEMS ≤ table.now.words) }
        { claims(table, seat) },
    )
}

// How many items the seat claims.
fn claims(table: &ClaimTable, mut seat: ClaimSeat) -> u32
    requires seat { seat.table ≡ table.now }
    requires items { ITEMS ≤ table.now.words }
{
    let mut claimed = 0;
    for item in 0..ITEMS {
        if table.try_claim(&mut seat, item) == Claimed::Mine {
            claimed += 1;
        }
    }
    claimed
}

fn total(counts: &[u32]) -> u64 {
    let mut sum: u64 = 0;
    for count in counts {
        sum = sum.saturating_add(u64::from(*count));
    }
    sum
}
