// The order of keys, and sorting by it.
ghost use Rattle.std.specs.Prelude.{◌≡◌, IfOk, is_some, map};
ghost use Rattle.std.specs.List.{filter, list_all};
ghost use Rattle.site_base.specs.Plain.{item_list};
ghost use Rattle.site_base.specs.Values.{order};
ghost use Rattle.site_base.specs.View.{plain, items_of};
ghost use Rattle.filter_base.specs.Keyed.{values};
ghost use Rattle.filter_base.specs.Taken.{entry_of};
ghost use Rattle.list_filters.specs.Choosing.{is_filled};
ghost use Rattle.list_filters.specs.KeyOrder.{are_alike, key_order, nil_rank, or_equal, rank, sorted};

use crate::choosing::is_filled;
use filter_base::Entry;
use site_base::{List, Memory, Value, compare, copy};
use std::alloc::Global;
use std::cmp::Ordering;

/// Where nil stands among the keys.
#[derive(Clone, Copy, Debug, PartialEq, Eq)]
pub(crate) enum NilPlace {
    First,
    Last,
}

/// Whether the keys but nil are numbers alone, or texts alone, or only one.
pub(crate) fn are_alike(keys: &[Value]) -> bool
    ensures { result ≡ are_alike (items_of keys.now) }
{
    for (place, key) in keys.iter().enumerate() {
        if is_filled(key) {
            return all_ordered(key, &keys[place + 1..]);
        }
    }
    true
}

// Whether each key but nil has an order with this one.
fn all_ordered(first: &Value, keys: &[Value]) -> bool
    ensures { result ≡ list_all (λ key. is_some (order (plain first.now) key)) (filter is_filled (item_list (items_of keys.now))) }
{
    for key in keys {
        if is_filled(key) && compare(first, key).is_err() {
            return false;
        }
    }
    true
}

/// The elements by their keys; those whose keys tie stand as before.
pub(crate) fn sorted(
    alloc: Global,
    nils: NilPlace,
    mut entries: Vec<Entry<'_>>,
) -> Result<List, Memory>
    ensures { IfOk result (λ list. list ≡ sorted nils (map entry_of entries.entry.items)) }
{
    entries.sort_by(|left, right| key_order(nils, left.key, right.key))?;
    values(alloc, entries.as_slice())
}

fn values(alloc: Global, entries: &[Entry<'_>]) -> Result<List, Memory>
    ensures { IfOk result (λ list. list ≡ values (map entry_of entries.entry.now)) }
{
    let mut list = List::with_capacity(alloc, entries.len())?;
    for entry in entries {
        list.push(copy(alloc, entry.value)?)?;
    }
    Ok(list)
}

// By kind, and two numbers or two texts by their order.
fn key_order(nils: NilPlace, left: &Value, right: &Value) -> Ordering
    ensures { result ≡ key_order nils (plain left.now) (plain right.now) }
{
    match rank(nils, left).cmp(&rank(nils, right)) {
        Ordering::Equal => order_or_equal(left, right),
        unequal => unequal,
    }
}

fn rank(nils: NilPlace, key: &Value) -> u8
    ensures { result ≡ rank nils (plain key.now) }
{
    match key {
        Value::Nil => nil_rank(nils),
        Value::Int(_) => 1,
        Value::Text(_) => 2,
        _ => 3,
    }
}

// Before all kinds, or behind them.
fn nil_rank(nils: NilPlace) -> u8
    ensures { result ≡ nil_rank nils }
{
    match nils {
        NilPlace::First => 0,
        NilPlace::Last => 4,
    }
}

fn order_or_equal(left: &Value, right: &Value) -> Ordering
    ensures { result ≡ or_equal (order (plain left.now) (plain right.now)) }
{
    match compare(left, right) {
        Ok(ordering) => ordering,
        Err(_) => Ordering::Equal,
    }
}
