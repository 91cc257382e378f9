// Claims by several threads.
ghost use Rattle.std.specs.Prelude.{◌≡◌, ◌≤◌, ◌<◌, All, IfOk, OnOk, IfSome};
ghost use Rattle.claim_table.specs.Counts.{EachOnce};
ghost use Rattle.claim_table.specs.Seats.{empty_seat};

use super::*;
use std::alloc::{AllocError, Global};
use std::thread;
use std::thread::Threads;

// What a thread brings back: its seat, and the items that it finished.
#[derive(Drop)]
struct Part {
    seat: ClaimSeat,
    had: Vec<u32>,
}

// Claims and finishes each item that is free.
fn work(alloc: Global, table: &ClaimTable, mut seat: ClaimSeat, items: u32) -> Option<Part>
    requires seat { seat ≡ empty_seat table.now }
    requires items { items ≤ table.now.words }
    ensures table { IfSome result (λ part. part.seat.table ≡ table.now) }
    ensures had { IfSome result (λ part. part.seat.done ≡ part.had.items) }
{
    let mut had = Vec::new(alloc);
    for item in 0..items {
        if ends_and_notes(table, &mut seat, item, &mut had).is_err() {
            return None;
        }
    }
    Some(Part { seat, had })
}

// Claims and finishes the item where it is free, and then adds it to what was had.
fn ends_and_notes(
    table: &ClaimTable,
    seat: &mut ClaimSeat,
    item: u32,
    had: &mut Vec<u32>,
) -> Result<(), AllocError>
    requires table { seat.old.table ≡ table.now }
    requires item { item < table.now.words }
    requires had { seat.old.done ≡ had.old.items }
    ensures table { seat.new.table ≡ seat.old.table }
    ensures had { OnOk result (seat.new.done ≡ had.new.items) }
{
    match table.try_claim(seat, item) {
        Claimed::Mine => {
            table.finish(seat, item);
            had.push(item)?;
            Ok(())
        }
        _ => Ok(()),
    }
}

// So many seats beside the first.
fn seats(
    alloc: Global,
    table: &ClaimTable,
    first: &mut ClaimSeat,
    count: u32,
) -> Result<Vec<ClaimSeat>, AllocError>
    requires table { first.old.table ≡ table.now }
    ensures same { first.new ≡ first.old }
    ensures seats { IfOk result (λ made. All (λ seat. seat ≡ empty_seat table.now) made.items) }
{
    let mut made = Vec::new(alloc);
    for _ in 0..count {
        made.push(table.split(first))?;
    }
    Ok(made)
}

// Each seat works in a thread of its own.
fn spread<R: Threads + Sync>(
    rt: &R,
    alloc: Global,
    table: &ClaimTable,
    seats: Vec<ClaimSeat>,
    items: u32,
) -> Result<Vec<Option<Part>>, AllocError>
    requires seats { All (λ seat. seat ≡ empty_seat table.now) seats.items }
    requires items { items ≤ table.now.words }
    ensures { IfOk result (λ parts. All (λ part. IfSome part (λ p. (p.seat.table ≡ table.now) × (p.seat.done ≡ p.had.items))) parts.items) }
{
    thread::map_vec(
        rt,
        seats,
        &|seat: ClaimSeat| -> Option<Part>
            requires { (seat ≡ empty_seat table.now) × (items ≤ table.now.words) }
            ensures { IfSome result (λ p. (p.seat.table ≡ table.entry.now) × (p.seat.done ≡ p.had.items)) }
        { work(alloc, table, seat, items) },
    )
}

// Adds what a thread brings back.
fn gather(table: &ClaimTable, all: &mut Part, part: Part) -> Result<(), AllocError>
    requires all { (all.old.seat.table ≡ table.now) × (all.old.seat.done ≡ all.old.had.items) }
    requires part { (part.seat.table ≡ table.now) × (part.seat.done ≡ part.had.items) }
    ensures table { OnOk result (all.new.seat.table ≡ table.now) }
    ensures had { OnOk result (all.new.seat.done ≡ all.new.had.items) }
    ensures once { OnOk result (EachOnce all.new.seat.mine all.new.seat.done) }
{
    let Part { seat, had } = part;
    table.join(&mut all.seat, seat);
    all.had.extend_from_slice(had.as_slice())?;
    Ok(())
}

// All that the threads bring back. Their seats are joined, so that no item is there twice.
fn gathered(
    alloc: Global,
    table: &ClaimTable,
    seat: ClaimSeat,
    mut parts: Vec<Option<Part>>,
) -> Option<Part>
    requires seat { seat ≡ empty_seat table.now }
    requires parts { All (λ part. IfSome part (λ p. (p.seat.table ≡ table.now) × (p.seat.done ≡ p.had.items))) parts.items }
    ensures had { IfSome result (λ all. all.seat.done ≡ all.had.items) }
    ensures once { IfSome result (λ all. EachOnce all.seat.mine all.seat.done) }
{
    let mut all = Part {
        seat,
        had: Vec::new(alloc),
    };
    while let Some(part) = parts.pop() {
        let Some(part) = part else {
            return None;
        };
        if gather(table, &mut all, part).is_err() {
            return None;
        }
    }
    Some(all)
}

fn shared_out<R: Threads + Sync>(rt: &R, alloc: Global, threads: u32, items: u32) -> Option<Part>
    ensures had { IfSome result (λ all. all.seat.done ≡ all.had.items) }
    ensures once { IfSome result (λ all. EachOnce all.seat.mine all.seat.done) }
{
    let Ok((table, mut seat)) = ClaimTable::new(alloc, items) else {
        return None;
    };
    let Ok(seats) = seats(alloc, &table, &mut seat, threads) else {
        return None;
    };
    let Ok(parts) = spread(rt, alloc, &table, seats, items) else {
        return None;
    };
    gathered(alloc, &table, seat, parts)
}

// Whether these are the items below the count, each once, in some order.
fn is_each_once(mut all: Vec<u32>, items: u32) -> bool {
    all.sort_unstable();
    all.iter().copied().eq(0..items)
}

#[test]
fn threads_have_each_item_once(rt: HostRuntime) {
    for threads in 2..=8 {
        let is_right = match shared_out(&rt, rt.alloc(), threads, 100_000) {
            Some(all) => is_each_once(all.had, 100_000),
            None => false,
        };
        assert!(rt; is_right, "{threads} threads");
    }
}

// A table and its seat, moved to another thread.
fn claims_elsewhere(rt: &impl Threads, table: ClaimTable, seat: ClaimSeat) -> Option<Claimed>
    requires table { seat.table ≡ table }
    requires items { 0 < table.words }
{
    let child = thread::spawn(
        rt,
        move || -> Claimed
            requires { (seat.table ≡ table) × (0 < table.words) }
        {
            let mut seat = seat;
            table.try_claim(&mut seat, 0)
        },
    )
    .ok()?;
    Some(child.join(rt))
}

// A table of no items has one word.
fn new_claims_elsewhere(rt: &impl Threads, alloc: Global) -> Option<Claimed> {
    match ClaimTable::new(alloc, 0) {
        Ok((table, seat)) => claims_elsewhere(rt, table, seat),
        Err(_) => None,
    }
}

#[test]
fn goes_to_another_thread(rt: HostRuntime) {
    assert!(rt; new_claims_elsewhere(&rt, rt.alloc()) == Some(Claimed::Mine));
}
