// Pages that are made, among the items of a site.
ghost use Rattle.std.specs.Prelude.{◌≡◌, ◌==◌, ◌++◌, IfOk, OnOk, filter, map, not};
ghost use Rattle.site_reader.specs.Making.{by_name, generated_group, in_names, merged, named, with_made};

use crate::rank::document_groups;
use crate::site::SiteItems;
use crate::site_item::SiteItem;
use crate::values::values;
use site_base::{ItemName, Memory, Sequence};
use site_config::Config;
use std::alloc::Global;
use std::collections::BTreeMap;

/// The group of the pages that are generated, which stands after that of pages.
pub(crate) fn generated_group(config: &Config) -> u64
    ensures { result ≡ generated_group config.now }
{
    document_groups(config) + 1
}

/// The items with further pages. After all others stand those that are generated, by their path and part, whoever made
/// them.
pub(crate) fn with_made(
    alloc: Global,
    config: &Config,
    items: SiteItems,
    pages: Vec<SiteItem>,
) -> Result<SiteItems, Memory>
    ensures { IfOk result (λ made. made ≡ with_made config.now items pages.items) }
{
    if pages.is_empty() {
        return Ok(items);
    }
    merged(alloc, config, items, pages)
}

fn merged(
    alloc: Global,
    config: &Config,
    items: SiteItems,
    pages: Vec<SiteItem>,
) -> Result<SiteItems, Memory>
    ensures { IfOk result (λ made. made ≡ merged config.now items pages.items) }
{
    let group = generated_group(config);
    let mut own = Vec::new(alloc);
    let mut generated = Vec::new(alloc);
    part(items, group, &mut own, &mut generated)?;
    push_all(&mut generated, pages)?;
    push_all(&mut own, by_name(alloc, generated)?.into_vec())?;
    Ok(Sequence::from_vec(own))
}

// Parts items of a group from all others.
fn part(
    items: SiteItems,
    group: u64,
    own: &mut Vec<SiteItem>,
    generated: &mut Vec<SiteItem>,
) -> Result<(), Memory>
    ensures own { OnOk result (own.new.items ≡ own.old.items ++ filter (λ i. not (i.group == group)) items) }
    ensures generated { OnOk result (generated.new.items ≡ generated.old.items ++ filter (λ i. i.group == group) items) }
{
    for item in items.into_vec() {
        if item.group == group {
            generated.push(item)?;
        } else {
            own.push(item)?;
        }
    }
    Ok(())
}

fn push_all(items: &mut Vec<SiteItem>, more: Vec<SiteItem>) -> Result<(), Memory>
    ensures { OnOk result (items.new.items ≡ items.old.items ++ more.items) }
{
    for item in more {
        items.push(item)?;
    }
    Ok(())
}

// The items by their path and part.
fn by_name(alloc: Global, items: Vec<SiteItem>) -> Result<SiteItems, Memory>
    ensures { IfOk result (λ made. made ≡ by_name items.items) }
{
    let named = named(alloc, items)?;
    let sorted = sorted(alloc, named)?;
    values(alloc, sorted)
}

fn named(alloc: Global, items: Vec<SiteItem>) -> Result<Vec<(ItemName, SiteItem)>, Memory>
    ensures { IfOk result (λ made. made.items ≡ map named items.items) }
{
    let mut made = Vec::with_capacity(alloc, items.len())?;
    for item in items {
        made.push((item.name.copy(alloc)?, item))?;
    }
    Ok(made)
}

fn sorted(
    alloc: Global,
    items: Vec<(ItemName, SiteItem)>,
) -> Result<BTreeMap<ItemName, SiteItem>, Memory>
    ensures { IfOk result (λ made. made.entries ≡ in_names items.items) }
{
    Ok(items.into_iter().collect(alloc)?)
}
