// Items with their neighbours.
ghost use Rattle.std.specs.Prelude.{◌≡◌, ◌∷◌, ◌++◌, [], IfOk, None, OnOk, length};
ghost use Rattle.std.specs.Option.{option_copied};
ghost use Rattle.site_base.specs.Plain.{set};
ghost use Rattle.site_base.specs.View.{plain};
ghost use Rattle.site_reader.specs.Neighbours.{first_rank, neighbour, site_item_of, site_items};

use crate::rank::{Rank, document_groups};
use crate::site_item::SiteItem;
use site_base::{Hash, ItemName, Memory, Sequence, Text, Value};
use site_config::Config;
use site_items::Item;
use std::alloc::Global;
use std::collections::BTreeMap;

/// The items of a site in their order, documents with their neighbours.
pub(crate) fn site_items(
    alloc: Global,
    config: &Config,
    mut ranked: BTreeMap<Rank, Item>,
) -> Result<Sequence<SiteItem>, Memory>
    ensures { IfOk result (λ made. made ≡ site_items (length config.now.collections) None ranked.entries) }
{
    let documents = document_groups(config);
    let mut done = Vec::with_capacity(alloc, ranked.len())?;
    let mut before = None;
    // Each leaves the map before the next is made, so that no item stands twice in memory.
    while let Some((rank, item)) = ranked.pop_first() {
        push_item(
            alloc,
            documents,
            &mut done,
            &rank,
            before.as_ref(),
            first_rank(&ranked),
            item,
        )?;
        before = Some(rank);
    }
    Ok(Sequence::from_vec(done))
}

fn first_rank(ranked: &BTreeMap<Rank, Item>) -> Option<&Rank>
    ensures { option_copied result ≡ first_rank ranked.now.entries }
{
    match ranked.first_key_value() {
        Some((rank, _)) => Some(rank),
        None => None,
    }
}

fn push_item(
    alloc: Global,
    documents: u64,
    done: &mut Vec<SiteItem>,
    rank: &Rank,
    before: Option<&Rank>,
    behind: Option<&Rank>,
    item: Item,
) -> Result<(), Memory>
    ensures { OnOk result (done.new.items
        ≡ done.old.items ++ site_item_of documents rank.now (option_copied before.entry) (option_copied behind.entry) item ∷ []) }
{
    let made = site_item(alloc, documents, rank, before, behind, item)?;
    Ok(done.push(made)?)
}

fn site_item(
    alloc: Global,
    documents: u64,
    rank: &Rank,
    before: Option<&Rank>,
    behind: Option<&Rank>,
    item: Item,
) -> Result<SiteItem, Memory>
    ensures { IfOk result (λ made. made ≡ site_item_of documents rank.now (option_copied before.entry) (option_copied behind.entry) item) }
{
    let mut vars = item.vars;
    if rank.group < documents {
        set_neighbour(alloc, &mut vars, "next", rank, behind)?;
        set_neighbour(alloc, &mut vars, "previous", rank, before)?;
    }
    Ok(SiteItem {
        name: ItemName {
            path: rank.path.copy(alloc)?,
            part: 0,
        },
        group: rank.group,
        body: item.body,
        vars: Value::Hash(vars),
        url: item.url,
        dest: item.dest,
        paginator: Value::Nil,
    })
}

fn set_neighbour(
    alloc: Global,
    vars: &mut Hash,
    name: &str,
    rank: &Rank,
    other: Option<&Rank>,
) -> Result<(), Memory>
    ensures { OnOk result (vars.new ≡ set name.now (neighbour rank.now (option_copied other.entry)) vars.old) }
{
    let value = neighbour(alloc, rank, other)?;
    vars.set(Text::copy(alloc, name)?, value)
}

// An item of the same group, by its name.
fn neighbour(alloc: Global, rank: &Rank, other: Option<&Rank>) -> Result<Value, Memory>
    ensures { IfOk result (λ made. plain made ≡ neighbour rank.now (option_copied other.entry)) }
{
    match other {
        Some(other) => {
            if other.group == rank.group {
                Ok(Value::Item(ItemName {
                    path: other.path.copy(alloc)?,
                    part: 0,
                }))
            } else {
                Ok(Value::Nil)
            }
        }
        None => Ok(Value::Nil),
    }
}
