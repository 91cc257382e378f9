// The filters of lists that look nothing up.
ghost use Rattle.std.specs.Prelude.{◌≡◌, ◌<◌, Ok, IfOk, map};
ghost use Rattle.site_base.specs.Plain.{text};
ghost use Rattle.site_base.specs.View.{plain, items_of};
ghost use Rattle.filter_base.specs.Answers.{Makes, given};
ghost use Rattle.filter_base.specs.Writing.{Writes};
ghost use Rattle.jekyll_filters.specs.Lists.{without_last, without_first, pop, push, shift, unshift, before_last, words_before, sentence, connector_text, array_to_sentence_string, list_filter};

use filter_base::{Elements, Stop, Writer, no_more, one, one_or_none, push_copies};
use site_base::{List, Memory, Text, Value, copy, value_text};
use std::alloc::Global;

/// A filter of lists that looks nothing up.
#[derive(Clone, Copy, Debug, PartialEq, Eq)]
pub enum ListFilter {
    ArrayToSentenceString,
    Pop,
    Push,
    Shift,
    Unshift,
}

pub(crate) fn list_filter(
    alloc: Global,
    filter: ListFilter,
    input: &Value,
    args: &[Value],
) -> Result<Value, Stop>
    ensures { Makes (list_filter filter (plain input.now) (map plain args.now)) result }
{
    match filter {
        ListFilter::ArrayToSentenceString => {
            array_to_sentence_string(alloc, input, one_or_none(args)?)
        }
        ListFilter::Pop => {
            no_more(args)?;
            pop(alloc, input)
        }
        ListFilter::Push => push(alloc, input, one(args)?),
        ListFilter::Shift => {
            no_more(args)?;
            shift(alloc, input)
        }
        ListFilter::Unshift => unshift(alloc, input, one(args)?),
    }
}

fn pop(alloc: Global, input: &Value) -> Result<Value, Stop>
    ensures { Makes (pop (plain input.now)) result }
{
    let elements = Elements::of(alloc, input)?;
    Ok(Value::List(without_last(alloc, elements.as_slice())?))
}

fn without_last(alloc: Global, values: &[Value]) -> Result<List, Memory>
    ensures { IfOk result (λ list. list ≡ without_last (items_of values.now)) }
{
    match values {
        [] => Ok(List::new(alloc)),
        [front @ .., _] => list_of(alloc, front),
    }
}

// With a value behind the last element.
fn push(alloc: Global, input: &Value, value: &Value) -> Result<Value, Stop>
    ensures { Makes (push (plain input.now) (plain value.now)) result }
{
    let elements = Elements::of(alloc, input)?;
    let mut list = list_of(alloc, elements.as_slice())?;
    list.push(copy(alloc, value)?)?;
    Ok(Value::List(list))
}

fn shift(alloc: Global, input: &Value) -> Result<Value, Stop>
    ensures { Makes (shift (plain input.now)) result }
{
    let elements = Elements::of(alloc, input)?;
    Ok(Value::List(without_first(alloc, elements.as_slice())?))
}

fn without_first(alloc: Global, values: &[Value]) -> Result<List, Memory>
    ensures { IfOk result (λ list. list ≡ without_first (items_of values.now)) }
{
    match values {
        [] => Ok(List::new(alloc)),
        [_, rest @ ..] => list_of(alloc, rest),
    }
}

// With a value before the first element.
fn unshift(alloc: Global, input: &Value, value: &Value) -> Result<Value, Stop>
    ensures { Makes (unshift (plain input.now) (plain value.now)) result }
{
    let elements = Elements::of(alloc, input)?;
    let mut list = List::new(alloc);
    list.push(copy(alloc, value)?)?;
    push_copies(alloc, &mut list, elements.as_slice())?;
    Ok(Value::List(list))
}

fn list_of(alloc: Global, values: &[Value]) -> Result<List, Memory>
    ensures { IfOk result (λ list. list ≡ items_of values.now) }
{
    let mut list = List::with_capacity(alloc, values.len())?;
    push_copies(alloc, &mut list, values)?;
    Ok(list)
}

fn array_to_sentence_string(
    alloc: Global,
    input: &Value,
    connector: Option<&Value>,
) -> Result<Value, Stop>
    ensures { Makes (array_to_sentence_string (plain input.now) (given connector.entry)) result }
{
    let elements = Elements::of(alloc, input)?;
    let connector = connector_text(alloc, connector)?;
    sentence(alloc, connector.as_str(), elements.as_slice())
}

fn connector_text(alloc: Global, connector: Option<&Value>) -> Result<Text, Memory>
    ensures { IfOk result (λ made. made ≡ connector_text (given connector.entry)) }
{
    match connector {
        Some(connector) => value_text(alloc, connector),
        None => Text::copy(alloc, "and"),
    }
}

fn sentence(alloc: Global, connector: &str, values: &[Value]) -> Result<Value, Stop>
    ensures { Makes (Ok (text (sentence connector.now (items_of values.now)))) result }
{
    let mut writer = Writer::new(alloc);
    for (place, value) in values.iter().enumerate() {
        push_words_before(&mut writer, connector, place, values.len())?;
        writer.push_value(alloc, value)?;
    }
    Ok(Value::Text(writer.finish()?))
}

// What stands before the element at this place of so many.
fn push_words_before(
    writer: &mut Writer,
    connector: &str,
    place: usize,
    count: usize,
) -> Result<(), Stop>
    requires { place < count }
    ensures { Writes writer.old writer.new (words_before connector.now place count) result }
{
    if place == 0 {
        Ok(())
    } else if place + 1 < count {
        writer.push(", ")
    } else {
        push_before_last(writer, connector, count)
    }
}

fn push_before_last(writer: &mut Writer, connector: &str, count: usize) -> Result<(), Stop>
    ensures { Writes writer.old writer.new (before_last connector.now count) result }
{
    writer.push(if count == 2 { " " } else { ", " })?;
    writer.push(connector)?;
    writer.push(" ")
}
