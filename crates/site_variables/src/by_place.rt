// The documents of each collection, by its place.
ghost use Rattle.std.specs.Prelude.{◌≡◌, IfOk, OnOk, length, replicate};
ghost use Rattle.site_base.specs.Plain.{no_items};
ghost use Rattle.site_variables.specs.Choosing.{ArePlaced, with_item};

use crate::lists::named;
use site_base::{List, Memory};
use site_reader::{Site, SiteItem};
use std::alloc::Global;

/// The documents of each collection in their order, by its place. Of each list further holders take little more.
pub(crate) fn documents_by_place(alloc: Global, site: &Site) -> Result<Vec<List>, Memory>
    ensures { IfOk result (λ made. ArePlaced site.now.items (length site.now.config.collections) made.items) }
{
    let mut lists = empty_lists(alloc, site.config.collections.len())?;
    for item in site.items.as_slice() {
        add(alloc, &mut lists, item)?;
    }
    shared(alloc, lists)
}

fn empty_lists(alloc: Global, count: u64) -> Result<Vec<List>, Memory>
    ensures { IfOk result (λ made. made.items ≡ replicate count no_items) }
{
    let mut lists = Vec::new(alloc);
    for _place in 0..count {
        lists.push(List::new(alloc))?;
    }
    Ok(lists)
}

// Adds an item to the list of its group, where it has one.
fn add(alloc: Global, lists: &mut Vec<List>, item: &SiteItem) -> Result<(), Memory>
    ensures { OnOk result (lists.new.items ≡ with_item item.now lists.old.items) }
{
    let place = item.group as usize;
    if place < lists.len() {
        let value = named(alloc, item)?;
        return lists[place].push(value);
    }
    Ok(())
}

fn shared(alloc: Global, lists: Vec<List>) -> Result<Vec<List>, Memory>
    ensures { IfOk result (λ made. made.items ≡ lists.items) }
{
    let mut made = Vec::with_capacity(alloc, lists.len())?;
    for list in lists {
        made.push(list.into_shared()?)?;
    }
    Ok(made)
}
