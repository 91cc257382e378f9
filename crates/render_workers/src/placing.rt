// What workers brought back, each at the place of its item.
ghost use Rattle.std.specs.Prelude.{◌≡◌, ◌<◌, All, IfOk, Some, None, length, replicate, slice_get, slice_set};
ghost use Rattle.render_workers.specs.Brought.{all_placed};

use crate::part::{Brought, Work};
use read_record::ItemMeaning;
use site_base::Memory;
use std::alloc::Global;

/// Moves what was made of each item to its place among so many items.
pub(crate) fn place_all<M: ItemMeaning>(
    alloc: Global,
    mut brought: Vec<Brought<M>>,
    items: u32,
) -> Result<Vec<Option<Work<M>>>, Memory>
    requires { All (λ b. b.item < items) brought.items }
    ensures { IfOk result (λ places. places.items ≡ all_placed brought.items (replicate items None)) }
{
    let mut places = empty_places(alloc, items)?;
    while let Some(last) = brought.pop() {
        let Brought { item, work } = last;
        put(&mut places[item as usize], work);
    }
    Ok(places)
}

// What stood there is dropped here, so that no other function goes by its cases.
fn put<M: ItemMeaning>(place: &mut Option<Work<M>>, work: Work<M>)
    ensures { place.new ≡ Some work }
{
    *place = Some(work);
}

/// Takes what stands at a place, and leaves nothing there.
pub(crate) fn take_from<M: ItemMeaning>(
    places: &mut Vec<Option<Work<M>>>,
    item: u32,
) -> Option<Work<M>>
    requires { item < length places.old.items }
    ensures taken { slice_get places.old.items item ≡ Some result }
    ensures rest { places.new.items ≡ slice_set places.old.items item None }
{
    places[item as usize].take()
}

fn empty_places<M: ItemMeaning>(alloc: Global, items: u32) -> Result<Vec<Option<Work<M>>>, Memory>
    ensures { IfOk result (λ places. places.items ≡ replicate items None) }
{
    let mut places = Vec::with_capacity(alloc, items as usize)?;
    for _ in 0..items {
        places.push(None)?;
    }
    Ok(places)
}
