// The filters that keep a part of a text or a list.
ghost use Rattle.std.specs.Prelude.{◌≡◌, ◌≤◌, IfOk, IfSome, length, map};
ghost use Rattle.site_base.specs.Plain.{count};
ghost use Rattle.site_base.specs.View.{plain, items_of};
ghost use Rattle.filter_base.specs.Answers.{Makes, given};
ghost use Rattle.text_filters.specs.Spans.{extent, is_longer, items_from, items_upto, kept, list_part, number_or, place, slice, sliced, span_filter, text_or, text_slice, truncate, truncated};

use crate::characters::{chars_from, chars_upto};
use filter_base::{Stop, char_count, num, one_or_two, push_copies, up_to_two};
use site_base::{FaultKind, List, Memory, Text, Value, value_text};
use std::alloc::Global;

/// A filter that keeps a part of a text or a list.
#[derive(Clone, Copy, Debug, PartialEq, Eq)]
pub enum Span {
    Slice,
    Truncate,
}

/// The part of an input that a filter keeps, by its arguments. FilterArgument comes where it takes another number of them; one
/// that counts as no number has the fault of `num`.
pub fn span_filter(
    alloc: Global,
    filter: Span,
    input: &Value,
    args: &[Value],
) -> Result<Value, Stop>
    ensures { Makes (span_filter filter (plain input.now) (map plain args.now)) result }
{
    match filter {
        Span::Slice => {
            let (start, len) = one_or_two(args)?;
            slice(alloc, input, start, len)
        }
        Span::Truncate => {
            let (number, ending) = up_to_two(args)?;
            truncate(alloc, input, number, ending)
        }
    }
}

/// The number that an argument counts as, or this one where there is none.
pub(crate) fn number_or(number: i64, written: Option<&Value>) -> Result<i64, FaultKind>
    ensures { result ≡ number_or number (given written.entry) }
{
    match written {
        Some(value) => num(value),
        None => Ok(number),
    }
}

fn slice(alloc: Global, input: &Value, start: &Value, len: Option<&Value>) -> Result<Value, Stop>
    ensures { Makes (slice (plain input.now) (plain start.now, given len.entry)) result }
{
    let start = num(start)?;
    let len = number_or(1, len)?;
    Ok(sliced(alloc, start, len, input)?)
}

fn sliced(alloc: Global, start: i64, len: i64, input: &Value) -> Result<Value, Memory>
    ensures { IfOk result (λ made. plain made ≡ sliced start len (plain input.now)) }
{
    match input {
        Value::List(list) => Ok(Value::List(list_slice(alloc, start, len, list)?)),
        other => text_slice(alloc, start, len, value_text(alloc, other)?.as_str()),
    }
}

fn list_slice(alloc: Global, start: i64, len: i64, list: &List) -> Result<List, Memory>
    ensures { IfOk result (λ made. made ≡ list_part (extent start len (count list.now)) list.now) }
{
    let mut made = List::new(alloc);
    if let Some((place, len)) = extent(start, len, list.len()) {
        push_copies(alloc, &mut made, part(list.as_slice(), place, len))?;
    }
    Ok(made)
}

// So many values from a place on, or as many as there are.
fn part(values: &[Value], place: u64, len: u64) -> &[Value]
    requires { place ≤ length values.now }
    ensures { items_of result.now ≡ items_upto len (items_from place (items_of values.now)) }
{
    let behind = &values[place as usize..];
    &behind[..behind.len().min(len as usize)]
}

fn text_slice(alloc: Global, start: i64, len: i64, whole: &str) -> Result<Value, Memory>
    ensures { IfOk result (λ made. plain made ≡ text_slice start len whole.now) }
{
    match extent(start, len, char_count(whole) as u64) {
        Some((place, len)) => Ok(Value::Text(Text::copy(
            alloc,
            chars_upto(chars_from(whole, place), len),
        )?)),
        None => Ok(Value::Text(Text::new(alloc))),
    }
}

// Where a part begins, and how many belong to it.
fn extent(start: i64, len: i64, count: u64) -> Option<(u64, u64)>
    ensures value { result ≡ extent start len count }
    ensures within { IfSome result (λ e. e.0 ≤ count) }
{
    if len < 0 {
        return None;
    }
    let place = place(start, count)?;
    Some((place, len.unsigned_abs()))
}

fn place(start: i64, count: u64) -> Option<u64>
    ensures value { result ≡ place start count }
    ensures within { IfSome result (λ place. place ≤ count) }
{
    let distance = start.unsigned_abs();
    if count < distance {
        return None;
    }
    if start < 0 {
        Some(count - distance)
    } else {
        Some(distance)
    }
}

fn truncate(
    alloc: Global,
    input: &Value,
    number: Option<&Value>,
    ending: Option<&Value>,
) -> Result<Value, Stop>
    ensures { Makes (truncate (plain input.now) (given number.entry, given ending.entry)) result }
{
    let number = number_or(50, number)?;
    let ending = text_or(alloc, "...", ending)?;
    let whole = value_text(alloc, input)?;
    let made = truncated(alloc, number, ending.as_str(), whole.as_str())?;
    Ok(Value::Text(made))
}

/// The text of an argument, or this one where there is none.
pub(crate) fn text_or(alloc: Global, text: &str, written: Option<&Value>) -> Result<Text, Memory>
    ensures { IfOk result (λ made. made ≡ text_or text.now (given written.entry)) }
{
    match written {
        Some(value) => value_text(alloc, value),
        None => Text::copy(alloc, text),
    }
}

fn truncated(alloc: Global, number: i64, ending: &str, whole: &str) -> Result<Text, Memory>
    ensures { IfOk result (λ made. made ≡ truncated number ending.now whole.now) }
{
    if !is_longer(char_count(whole) as u64, number) {
        return Text::copy(alloc, whole);
    }
    let mut made = Text::copy(
        alloc,
        chars_upto(whole, kept(number, char_count(ending) as u64)),
    )?;
    made.push_str(ending)?;
    Ok(made)
}

fn is_longer(count: u64, number: i64) -> bool
    ensures { result ≡ is_longer count number }
{
    number < 0 || number.unsigned_abs() < count
}

fn kept(number: i64, ending: u64) -> u64
    ensures { result ≡ kept number ending }
{
    if number < 0 {
        0
    } else {
        number.unsigned_abs().saturating_sub(ending)
    }
}
