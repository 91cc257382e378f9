// The filters that choose among elements, or give one value of each.
#![tactic(auto, using(filter_base::proofs::CallLaws::binds))]

ghost use Rattle.std.specs.Prelude.{◌≡◌, map};
ghost use Rattle.site_base.specs.View.{plain};
ghost use Rattle.read_record.specs.Queries.{run};
ghost use Rattle.filter_base.specs.Answers.{Finds, Gives, given};
ghost use Rattle.list_filters.specs.Selections.{compact, map_property, mapped, selection_filter, uniq, where_property};

use crate::choosing::{Test, chosen, first_of_each, wanted_of};
use filter_base::{Elements, Source, Stop, one, one_or_none, properties, two};
use read_record::Look;
use site_base::{List, Value, value_text};
use std::alloc::Global;

/// A filter that chooses among elements, or gives one value of each.
#[derive(Clone, Copy, Debug, PartialEq, Eq)]
pub enum Selection {
    Compact,
    Map,
    Uniq,
    Where,
}

/// What a filter that chooses makes of an input and arguments, by the properties that it looks up. FilterArgument comes where it
/// takes another number of arguments.
pub fn selection_filter<L: Look>(
    alloc: Global,
    selection: Selection,
    input: &Value,
    args: &[Value],
    look: &mut L,
) -> Result<Value, Stop>
    ensures same { L.view look.new ≡ L.view look.old }
    ensures gives { Gives (L.view look.old) (L.trace look.old) (selection_filter selection (plain input.now) (map plain args.now)) result (L.trace look.new) }
{
    match selection {
        Selection::Compact => compact(alloc, input, one_or_none(args)?, look),
        Selection::Map => map_property(alloc, input, one(args)?, look),
        Selection::Uniq => uniq(alloc, input, one_or_none(args)?, look),
        Selection::Where => {
            let (property, wanted) = two(args)?;
            where_property(alloc, input, property, wanted, look)
        }
    }
}

fn compact<L: Look>(
    alloc: Global,
    input: &Value,
    property: Option<&Value>,
    look: &mut L,
) -> Result<Value, Stop>
    ensures same { L.view look.new ≡ L.view look.old }
    ensures gives { Gives (L.view look.old) (L.trace look.old) (compact (plain input.now) (given property.entry)) result (L.trace look.new) }
{
    let source = Source::keyed_by(alloc, input, property, look)?;
    Ok(Value::List(chosen(alloc, &source, &Test::Filled)?))
}

fn map_property<L: Look>(
    alloc: Global,
    input: &Value,
    property: &Value,
    look: &mut L,
) -> Result<Value, Stop>
    ensures same { L.view look.new ≡ L.view look.old }
    ensures gives { Gives (L.view look.old) (L.trace look.old) (map_property (plain input.now) (plain property.now)) result (L.trace look.new) }
{
    let name = value_text(alloc, property)?;
    Ok(Value::List(mapped(alloc, input, name.as_str(), look)?))
}

fn mapped<L: Look>(alloc: Global, input: &Value, name: &str, look: &mut L) -> Result<List, Stop>
    ensures same { L.view look.new ≡ L.view look.old }
    ensures gives { Finds (run (L.view look.old) (L.trace look.old) (mapped name.now (plain input.now))) result (L.trace look.new) }
{
    let elements = Elements::of(alloc, input)?;
    properties(alloc, name, elements.as_slice(), look)
}

fn uniq<L: Look>(
    alloc: Global,
    input: &Value,
    property: Option<&Value>,
    look: &mut L,
) -> Result<Value, Stop>
    ensures same { L.view look.new ≡ L.view look.old }
    ensures gives { Gives (L.view look.old) (L.trace look.old) (uniq (plain input.now) (given property.entry)) result (L.trace look.new) }
{
    let source = Source::keyed_by(alloc, input, property, look)?;
    Ok(Value::List(first_of_each(alloc, &source)?))
}

fn where_property<L: Look>(
    alloc: Global,
    input: &Value,
    property: &Value,
    wanted: &Value,
    look: &mut L,
) -> Result<Value, Stop>
    ensures same { L.view look.new ≡ L.view look.old }
    ensures gives { Gives (L.view look.old) (L.trace look.old) (where_property (plain input.now) (plain property.now) (plain wanted.now)) result (L.trace look.new) }
{
    let name = value_text(alloc, property)?;
    let source = Source::keyed(alloc, input, Some(name), look)?;
    Ok(Value::List(wanted_of(alloc, &source, wanted)?))
}
