// Properties: what a filter asks of each element where it is given a name.
ghost use Rattle.std.specs.Prelude.{◌≡◌, IfOk};
ghost use Rattle.std.specs.Option.{option_map, option_copied};
ghost use Rattle.site_base.specs.View.{plain, items_of};
ghost use Rattle.read_record.specs.Queries.{run};
ghost use Rattle.filter_base.specs.Answers.{Finds, given, in_plain};
ghost use Rattle.filter_base.specs.Properties.{or_nil, property_key, property, properties};

use crate::stop::Stop;
use read_record::{Key, Look, ask};
use site_base::{ItemName, List, Memory, Text, Value, copy};
use std::alloc::Global;

/// The property of each value, in their order; each is asked once.
pub fn properties<L: Look>(
    alloc: Global,
    name: &str,
    values: &[Value],
    look: &mut L,
) -> Result<List, Stop>
    ensures same { L.view look.new ≡ L.view look.old }
    ensures gives { Finds (run (L.view look.old) (L.trace look.old) (properties name.now (items_of values.now))) result (L.trace look.new) }
{
    let mut found = List::with_capacity(alloc, values.len())?;
    for value in values {
        found.push(property(alloc, name, value, look)?)?;
    }
    Ok(found)
}

/// What stands in a hash under the name, or what of an item is looked up; nil of any other value.
pub(crate) fn property<L: Look>(
    alloc: Global,
    name: &str,
    value: &Value,
    look: &mut L,
) -> Result<Value, Stop>
    ensures same { L.view look.new ≡ L.view look.old }
    ensures gives { Finds (run (L.view look.old) (L.trace look.old) (property name.now (plain value.now))) (in_plain result) (L.trace look.new) }
{
    match value {
        Value::Hash(hash) => Ok(value_or_nil(alloc, hash.get(name))?),
        Value::Item(item) => {
            let key = property_key(alloc, item, name)?;
            ask(alloc, &key, look)
        }
        _ => Ok(Value::Nil),
    }
}

fn value_or_nil(alloc: Global, value: Option<&Value>) -> Result<Value, Memory>
    ensures { IfOk result (λ made. plain made ≡ or_nil (given value.entry)) }
{
    match value {
        Some(value) => copy(alloc, value),
        None => Ok(Value::Nil),
    }
}

fn property_key(alloc: Global, item: &ItemName, name: &str) -> Result<Key, Memory>
    ensures { IfOk result (λ key. key ≡ property_key item.now name.now) }
{
    let item = item.copy(alloc)?;
    if name == "content" {
        Ok(Key::Content(item))
    } else if name == "output" {
        Ok(Key::Output(item))
    } else {
        Ok(Key::Var(item, Text::copy(alloc, name)?))
    }
}
