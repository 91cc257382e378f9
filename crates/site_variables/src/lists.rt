// Items in lists, by their names.
ghost use Rattle.std.specs.Prelude.{◌≡◌, IfOk, OnOk, filter};
ghost use Rattle.site_base.specs.Plain.{onto};
ghost use Rattle.site_base.specs.View.{plain, items_of};
ghost use Rattle.site_variables.specs.Choosing.{named_if, takes};
ghost use Rattle.site_variables.specs.Gathering.{backwards};
ghost use Rattle.site_variables.specs.Lists.{each, named};

use crate::choice::Choice;
use site_base::{List, Memory, Value, copy};
use site_config::Config;
use site_reader::SiteItem;
use std::alloc::Global;

/// The items that a list has, in their order.
pub(crate) fn chosen(
    alloc: Global,
    choice: Choice,
    config: &Config,
    items: &[SiteItem],
) -> Result<List, Memory>
    ensures { IfOk result (λ made. made ≡ each named (filter (takes choice config.now) items.now)) }
{
    let mut list = List::new(alloc);
    for item in items {
        push_if(alloc, &mut list, choice.takes(config, item), item)?;
    }
    Ok(list)
}

#[tactic(auto, using(data_files::proofs::ItemLaws::onto_nothing))]
fn push_if(alloc: Global, list: &mut List, belongs: bool, item: &SiteItem) -> Result<(), Memory>
    ensures { OnOk result (list.new ≡ onto list.old (named_if belongs item.now)) }
{
    if belongs {
        list.push(named(alloc, item)?)?;
    }
    Ok(())
}

/// An item by its name.
pub(crate) fn named(alloc: Global, item: &SiteItem) -> Result<Value, Memory>
    ensures { IfOk result (λ value. plain value ≡ named item.now) }
{
    Ok(Value::Item(item.name.copy(alloc)?))
}

/// Values in reverse.
pub(crate) fn backwards(alloc: Global, values: &[Value]) -> Result<List, Memory>
    ensures { IfOk result (λ made. made ≡ backwards (items_of values.now)) }
{
    let mut list = List::with_capacity(alloc, values.len())?;
    for place in (0..values.len()).rev() {
        list.push(copy(alloc, &values[place])?)?;
    }
    Ok(list)
}
