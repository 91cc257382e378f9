// The filters of lists that look nothing up.
ghost use Rattle.std.specs.Prelude.{◌≡◌, ◌++◌, Ok, IfOk, OnOk, map, length};
ghost use Rattle.std.specs.Str.{chars};
ghost use Rattle.site_base.specs.Plain.{onto, text};
ghost use Rattle.site_base.specs.Values.{value_text};
ghost use Rattle.site_base.specs.View.{plain, items_of};
ghost use Rattle.filter_base.specs.Answers.{Makes, given};
ghost use Rattle.filter_base.specs.Writing.{Writes};
ghost use Rattle.filter_base.specs.Lists.{between_text, joined, reversed, first_item, last_item, listed, is_blank, concat, default, first, join, last, reverse, count_of, size, list_filter};

use crate::arguments::{no_more, one, one_or_none};
use crate::elements::{Elements, range_count};
use crate::numerals::fit;
use crate::stop::Stop;
use crate::writer::Writer;
use site_base::{FaultKind, List, Memory, Text, Value, copy, value_text};
use std::alloc::Global;

/// A filter of lists that looks nothing up.
#[derive(Clone, Copy, Debug, PartialEq, Eq)]
pub enum ListFilter {
    Concat,
    Default,
    First,
    Join,
    Last,
    Reverse,
    Size,
}

/// What a filter of lists makes of an input and arguments. FilterArgument comes where it takes another number of them, or where
/// `concat` is given no list; RangeTooLong where a range has too many numbers to be gone through.
pub fn list_filter(
    alloc: Global,
    filter: ListFilter,
    input: &Value,
    args: &[Value],
) -> Result<Value, Stop>
    ensures { Makes (list_filter filter (plain input.now) (map plain args.now)) result }
{
    match filter {
        ListFilter::Concat => concat(alloc, input, one(args)?),
        ListFilter::Default => default(alloc, input, one(args)?),
        ListFilter::First => {
            no_more(args)?;
            first(alloc, input)
        }
        ListFilter::Join => join(alloc, input, one_or_none(args)?),
        ListFilter::Last => {
            no_more(args)?;
            last(alloc, input)
        }
        ListFilter::Reverse => {
            no_more(args)?;
            reverse(alloc, input)
        }
        ListFilter::Size => {
            no_more(args)?;
            size(input)
        }
    }
}

fn concat(alloc: Global, input: &Value, other: &Value) -> Result<Value, Stop>
    ensures { Makes (concat (plain input.now) (plain other.now)) result }
{
    let elements = Elements::of(alloc, input)?;
    match other {
        Value::List(others) => {
            let mut list = List::new(alloc);
            push_copies(alloc, &mut list, elements.as_slice())?;
            push_copies(alloc, &mut list, others.as_slice())?;
            Ok(Value::List(list))
        }
        _ => Err(Stop::Fault(FaultKind::FilterArgument)),
    }
}

/// Adds copies of values at the end of a list.
pub fn push_copies(alloc: Global, list: &mut List, values: &[Value]) -> Result<(), Memory>
    ensures { OnOk result (list.new ≡ onto list.old (items_of values.now)) }
{
    for value in values {
        list.push(copy(alloc, value)?)?;
    }
    Ok(())
}

fn default(alloc: Global, input: &Value, other: &Value) -> Result<Value, Stop>
    ensures { Makes (default (plain input.now) (plain other.now)) result }
{
    if is_blank(input) {
        Ok(copy(alloc, other)?)
    } else {
        Ok(copy(alloc, input)?)
    }
}

/// Whether a value is nil, false or empty.
pub fn is_blank(value: &Value) -> bool
    ensures { result ≡ is_blank (plain value.now) }
{
    match value {
        Value::Nil => true,
        Value::Bool(is_set) => !*is_set,
        Value::Text(text) => text.len() == 0,
        Value::List(list) => list.len() == 0,
        Value::Hash(hash) => hash.len() == 0,
        _ => false,
    }
}

fn first(alloc: Global, input: &Value) -> Result<Value, Stop>
    ensures { Makes (first (plain input.now)) result }
{
    let elements = Elements::of(alloc, input)?;
    Ok(first_of(alloc, elements.as_slice())?)
}

/// The first of some values; nil where there is none.
pub fn first_of(alloc: Global, values: &[Value]) -> Result<Value, Memory>
    ensures { IfOk result (λ value. plain value ≡ first_item (items_of values.now)) }
{
    match values {
        [] => Ok(Value::Nil),
        [value, ..] => copy(alloc, value),
    }
}

fn last(alloc: Global, input: &Value) -> Result<Value, Stop>
    ensures { Makes (last (plain input.now)) result }
{
    let elements = Elements::of(alloc, input)?;
    Ok(last_of(alloc, elements.as_slice())?)
}

/// The last of some values; nil where there is none.
pub fn last_of(alloc: Global, values: &[Value]) -> Result<Value, Memory>
    ensures { IfOk result (λ value. plain value ≡ last_item (items_of values.now)) }
{
    match values {
        [] => Ok(Value::Nil),
        [.., value] => copy(alloc, value),
    }
}

fn reverse(alloc: Global, input: &Value) -> Result<Value, Stop>
    ensures { Makes (reverse (plain input.now)) result }
{
    let elements = Elements::of(alloc, input)?;
    Ok(Value::List(reversed(alloc, elements.as_slice())?))
}

fn reversed(alloc: Global, values: &[Value]) -> Result<List, Memory>
    ensures { IfOk result (λ list. list ≡ reversed (items_of values.now)) }
{
    let mut list = List::new(alloc);
    let mut place = values.len();
    while place > 0 {
        place -= 1;
        list.push(copy(alloc, &values[place])?)?;
    }
    Ok(list)
}

fn join(alloc: Global, input: &Value, between: Option<&Value>) -> Result<Value, Stop>
    ensures { Makes (join (plain input.now) (given between.entry)) result }
{
    let elements = Elements::of(alloc, input)?;
    let between = between_text(alloc, between)?;
    joined(alloc, between.as_str(), elements.as_slice())
}

fn between_text(alloc: Global, between: Option<&Value>) -> Result<Text, Memory>
    ensures { IfOk result (λ made. made ≡ between_text (given between.entry)) }
{
    match between {
        Some(between) => value_text(alloc, between),
        None => Text::copy(alloc, " "),
    }
}

fn joined(alloc: Global, between: &str, values: &[Value]) -> Result<Value, Stop>
    ensures { Makes (Ok (text (joined between.now (items_of values.now)))) result }
{
    let mut writer = Writer::new(alloc);
    let mut before = "";
    for value in values {
        push_behind(alloc, &mut writer, before, value)?;
        before = between;
    }
    Ok(Value::Text(writer.finish()?))
}

fn push_behind(alloc: Global, writer: &mut Writer, between: &str, value: &Value) -> Result<(), Stop>
    ensures { Writes writer.old writer.new (between.now ++ value_text (plain value.now)) result }
{
    writer.push(between)?;
    writer.push_value(alloc, value)
}

fn size(input: &Value) -> Result<Value, Stop>
    ensures { Makes (size (plain input.now)) result }
{
    let count = count_of(input)?;
    Ok(Value::Int(fit(i128::from(count))?))
}

// How many characters, items, pairs or numbers.
fn count_of(input: &Value) -> Result<u64, FaultKind>
    ensures { result ≡ count_of (plain input.now) }
{
    match input {
        Value::Text(text) => Ok(char_count(text.as_str()) as u64),
        Value::List(list) => Ok(list.len()),
        Value::Hash(hash) => Ok(hash.len()),
        Value::Range(first, last) => range_count(*first, *last),
        _ => Ok(0),
    }
}

/// How many characters a text has.
pub fn char_count(text: &str) -> usize
    ensures { result ≡ length (chars text.now) }
{
    text.chars().count()
}
