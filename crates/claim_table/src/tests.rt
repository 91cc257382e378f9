// Claims by several seats.
ghost use Rattle.std.specs.Prelude.{◌≡◌, ◌<◌, All};

use super::*;
use site_base::Memory;
use std::alloc::Global;

// Items, each with the answer of its claim, once all are finished.
const ENDED: &[(u32, Claimed)] = &[
    (0, Claimed::Finished),
    (1, Claimed::Finished),
    (2, Claimed::Finished),
];

// Whether the claims of these items, one after another, have these answers.
fn answers(table: &ClaimTable, seat: &mut ClaimSeat, rows: &[(u32, Claimed)]) -> bool
    requires table { seat.old.table ≡ table.now }
    requires items { All (λ row. row.0 < table.now.words) rows.now }
{
    for &(item, answer) in rows {
        if table.try_claim(seat, item) != answer {
            return false;
        }
    }
    true
}

// One item and two seats: the first to claim it has it, until it is finished for all.
fn one_item(alloc: Global) -> Result<bool, Memory> {
    let (table, mut first) = ClaimTable::new(alloc, 1)?;
    let mut second = table.split(&mut first);
    let Claimed::Mine = table.try_claim(&mut first, 0) else {
        return Ok(false);
    };
    let before = table.try_claim(&mut second, 0);
    table.finish(&mut first, 0);
    let after = table.try_claim(&mut second, 0);
    Ok(before == Claimed::Taken && after == Claimed::Finished)
}

// Two seats and three items: the second claims and finishes items 1 and 0 while the first is at item 2.
fn three_items(alloc: Global) -> Result<bool, Memory> {
    let (table, mut first) = ClaimTable::new(alloc, 3)?;
    let mut second = table.split(&mut first);
    let Claimed::Mine = table.try_claim(&mut first, 2) else {
        return Ok(false);
    };
    let is_free = ends(&table, &mut second, 1) && ends(&table, &mut second, 0);
    let taken = table.try_claim(&mut second, 2);
    table.finish(&mut first, 2);
    Ok(is_free && taken == Claimed::Taken && answers(&table, &mut second, ENDED))
}

// Whether the seat claims the item, which it then finishes.
fn ends(table: &ClaimTable, seat: &mut ClaimSeat, item: u32) -> bool
    requires table { seat.old.table ≡ table.now }
    requires item { item < table.now.words }
    ensures table { seat.new.table ≡ seat.old.table }
{
    match table.try_claim(seat, item) {
        Claimed::Mine => {
            table.finish(seat, item);
            true
        }
        _ => false,
    }
}

#[test]
fn tells_what_stands(rt: HostRuntime) {
    assert!(rt; one_item(rt.alloc()) == Ok(true), "one item");
    assert!(rt; three_items(rt.alloc()) == Ok(true), "three items");
}
