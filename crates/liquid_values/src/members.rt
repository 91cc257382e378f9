// The members of values that need no look-up, where they have them.
ghost use Rattle.std.specs.Prelude.{◌≡◌, IfOk};
ghost use Rattle.std.specs.Option.{option_map};
ghost use Rattle.site_base.specs.Plain.{count, item_list};
ghost use Rattle.site_base.specs.View.{plain};
ghost use Rattle.liquid_values.specs.Members.{hash_member, list_member, text_member, size_of, member_value, place_in, element_of, element_at};

use crate::loop_values::count_value;
use filter_base::{char_count, first_of, last_of};
use site_base::{Hash, List, Memory, Text, Value, copy};
use std::alloc::Global;

/// The member of a value that is no item, where it has one of the name.
pub(crate) fn member_value(
    alloc: Global,
    value: &Value,
    name: &str,
) -> Result<Option<Value>, Memory>
    ensures { IfOk result (λ made. option_map plain made ≡ member_value name.now (plain value.now)) }
{
    match value {
        Value::Hash(hash) => hash_member(alloc, hash, name),
        Value::List(list) => list_member(alloc, list, name),
        Value::Text(text) => Ok(text_member(text.as_str(), name)),
        _ => Ok(None),
    }
}

fn hash_member(alloc: Global, hash: &Hash, name: &str) -> Result<Option<Value>, Memory>
    ensures { IfOk result (λ made. option_map plain made ≡ hash_member name.now hash.now) }
{
    match hash.get(name) {
        Some(value) => Ok(Some(copy(alloc, value)?)),
        None => Ok(size_of(name, u128::from(hash.len()))),
    }
}

// The member `size`.
fn size_of(name: &str, count: u128) -> Option<Value>
    ensures { option_map plain result ≡ size_of name.now count }
{
    if name == "size" {
        Some(count_value(count))
    } else {
        None
    }
}

fn list_member(alloc: Global, list: &List, name: &str) -> Result<Option<Value>, Memory>
    ensures { IfOk result (λ made. option_map plain made ≡ list_member name.now list.now) }
{
    match name {
        "first" => Ok(Some(first_of(alloc, list.as_slice())?)),
        "last" => Ok(Some(last_of(alloc, list.as_slice())?)),
        _ => Ok(size_of(name, u128::from(list.len()))),
    }
}

fn text_member(text: &str, name: &str) -> Option<Value>
    ensures { option_map plain result ≡ text_member name.now text.now }
{
    size_of(name, char_count(text) as u128)
}

/// The element of a list at a place, from the end where it is negative; nil where there is none. Only lists have places.
pub(crate) fn element_at(alloc: Global, value: &Value, place: i64) -> Result<Option<Value>, Memory>
    ensures { IfOk result (λ made. option_map plain made ≡ element_at place (plain value.now)) }
{
    match value {
        Value::List(list) => Ok(Some(element(alloc, list, place)?)),
        _ => Ok(None),
    }
}

fn element(alloc: Global, list: &List, place: i64) -> Result<Value, Memory>
    ensures { IfOk result (λ made. plain made ≡ element_of (place_in place (count list.now)) (item_list list.now)) }
{
    match place_in(list.len(), place) {
        Some(place) => copy(alloc, list.at(place)),
        None => Ok(Value::Nil),
    }
}

// The place from the front, where so many values have it.
fn place_in(len: u64, place: i64) -> Option<u64>
    ensures { result ≡ place_in place len }
{
    let from_front = if place < 0 {
        i128::from(place) + i128::from(len)
    } else {
        i128::from(place)
    };
    if 0 <= from_front && from_front < i128::from(len) {
        Some(from_front as u64)
    } else {
        None
    }
}
