// Elements in groups by a property.
#![tactic(auto, using(filter_base::proofs::CallLaws::binds))]

ghost use Rattle.std.specs.Prelude.{◌≡◌, IfOk, OnOk, map};
ghost use Rattle.site_base.specs.Plain.{no_pairs, get, taken};
ghost use Rattle.site_base.specs.Values.{value_text};
ghost use Rattle.site_base.specs.View.{plain, pairs_of};
ghost use Rattle.filter_base.specs.Answers.{Gives, Makes};
ghost use Rattle.filter_base.specs.Taken.{entry_of, source_of};
ghost use Rattle.jekyll_filters.specs.Groups.{items_in, items_found, added, groups, size_of, group, shown_groups, grouped, grouped_by, group_by};

use filter_base::{Entry, Source, Stop, fit, one};
use read_record::Look;
use site_base::{FaultKind, Hash, List, Memory, Pair, Text, Value, copy, value_text};
use std::alloc::Global;

/// A hash of `name`, `items` and `size` for each text that a property of an element has.
pub(crate) fn group_by<L: Look>(
    alloc: Global,
    input: &Value,
    args: &[Value],
    look: &mut L,
) -> Result<Value, Stop>
    ensures same { L.view look.new ≡ L.view look.old }
    ensures gives { Gives (L.view look.old) (L.trace look.old) (group_by (plain input.now) (map plain args.now)) result (L.trace look.new) }
{
    let name = value_text(alloc, one(args)?)?;
    grouped_by(alloc, name, input, look)
}

fn grouped_by<L: Look>(
    alloc: Global,
    name: Text,
    input: &Value,
    look: &mut L,
) -> Result<Value, Stop>
    ensures same { L.view look.new ≡ L.view look.old }
    ensures gives { Gives (L.view look.old) (L.trace look.old) (grouped_by name (plain input.now)) result (L.trace look.new) }
{
    let source = Source::keyed(alloc, input, Some(name), look)?;
    grouped(alloc, source)
}

fn grouped(alloc: Global, source: Source<'_>) -> Result<Value, Stop>
    ensures { Makes (grouped (source_of source.entry)) result }
{
    let entries = source.entries(alloc)?;
    let groups = groups(alloc, entries.as_slice())?;
    shown_groups(alloc, groups.as_slice())
}

// Elements by the texts of their keys.
fn groups(alloc: Global, entries: &[Entry<'_>]) -> Result<Hash, Memory>
    ensures { IfOk result (λ made. made ≡ groups (map entry_of entries.now) no_pairs) }
{
    let mut made = Hash::new(alloc);
    for entry in entries {
        add(alloc, &mut made, entry.key, entry.value)?;
    }
    Ok(made)
}

#[tactic(auto, using(site_base::proofs::ValueLaws::set_taken))]
fn add(alloc: Global, groups: &mut Hash, key: &Value, value: &Value) -> Result<(), Memory>
    ensures { OnOk result (groups.new ≡ added (value_text (plain key.now)) (plain value.now) groups.old) }
{
    let name = value_text(alloc, key)?;
    let mut members = take_items(alloc, groups, name.as_str())?;
    members.push(copy(alloc, value)?)?;
    groups.set(name, Value::List(members))
}

// The items of a group, out of whose place they are taken.
fn take_items(alloc: Global, groups: &mut Hash, name: &str) -> Result<List, Memory>
    ensures items { IfOk result (λ items. items ≡ items_found (get name.now groups.old)) }
    ensures rest { OnOk result (groups.new ≡ taken name.now groups.old) }
{
    match groups.take(name)? {
        Some(members) => Ok(items_in(alloc, members)),
        None => Ok(List::new(alloc)),
    }
}

fn items_in(alloc: Global, value: Value) -> List
    ensures { result ≡ items_in (plain value) }
{
    match value {
        Value::List(items) => items,
        _ => List::new(alloc),
    }
}

fn shown_groups(alloc: Global, groups: &[Pair]) -> Result<Value, Stop>
    ensures { Makes (shown_groups (pairs_of groups.now)) result }
{
    let mut list = List::with_capacity(alloc, groups.len())?;
    for pair in groups {
        let size = size_of(&pair.value)?;
        list.push(group(alloc, pair, size)?)?;
    }
    Ok(Value::List(list))
}

fn size_of(members: &Value) -> Result<i64, FaultKind>
    ensures { result ≡ size_of (plain members.now) }
{
    match members {
        Value::List(items) => fit(i128::from(items.len())),
        _ => Ok(0),
    }
}

fn group(alloc: Global, pair: &Pair, size: i64) -> Result<Value, Memory>
    ensures { IfOk result (λ made. plain made ≡ group pair.now.key (plain pair.now.value) size) }
{
    let mut hash = Hash::with_capacity(alloc, 3)?;
    hash.push(
        Text::copy(alloc, "name")?,
        Value::Text(Text::copy(alloc, pair.key.as_str())?),
    )?;
    hash.push(Text::copy(alloc, "items")?, copy(alloc, &pair.value)?)?;
    hash.push(Text::copy(alloc, "size")?, Value::Int(size))?;
    Ok(Value::Hash(hash))
}
