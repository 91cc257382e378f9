// What a filter of lists takes its input for.
ghost use Rattle.std.specs.Prelude.{◌≡◌, ◌^◌, pos, ◌+ℤ◌, ◌≤ℤ◌, ◌<ℤ◌, IfOk};
ghost use Rattle.site_base.specs.Plain.{range};
ghost use Rattle.site_base.specs.View.{plain, items_of};
ghost use Rattle.filter_base.specs.Elements.{counted, range_len, range_count, elements};
ghost use Rattle.filter_base.specs.Taken.{item_values, MakesElements};

use crate::limits::MOST_COUNTED;
use crate::stop::Stop;
use site_base::{FaultKind, List, Memory, Value};
use std::alloc::Global;
use std::slice;

/// The values of a list, or the numbers of a range.
#[derive(Drop)]
pub enum Elements<'a> {
    Lent(&'a [Value]),
    Made(List),
}

impl<'a> Elements<'a> {
    /// Those of a list, the numbers of a range, none of nil, and any other value by itself.
    pub fn of(alloc: Global, input: &'a Value) -> Result<Elements<'a>, Stop>
        ensures { MakesElements (elements (plain input.now)) result }
    {
        match input {
            Value::Nil => Ok(Elements::Lent(&[])),
            Value::List(list) => Ok(Elements::Lent(list.as_slice())),
            Value::Range(first, last) => Elements::laid_out(alloc, *first, *last),
            _ => Ok(Elements::Lent(slice::from_ref(input))),
        }
    }
}

impl<'a> Elements<'a> {
    fn laid_out(alloc: Global, first: i64, last: i64) -> Result<Elements<'a>, Stop>
        ensures { MakesElements (elements (range first last)) result }
    {
        let count = range_count(first, last)?;
        Ok(Elements::Made(counted(alloc, first, count)?))
    }

    /// The values themselves.
    pub fn as_slice(&self) -> &[Value]
        ensures { items_of result.now ≡ item_values self.now }
    {
        match self {
            Elements::Lent(values) => values,
            Elements::Made(list) => list.as_slice(),
        }
    }
}

/// How many numbers a range has, of which there may be only so many.
pub fn range_count(first: i64, last: i64) -> Result<u64, FaultKind>
    ensures { result ≡ range_count (range_len first last) }
{
    let count = range_len(first, last);
    if count > MOST_COUNTED as u128 {
        Err(FaultKind::RangeTooLong)
    } else {
        Ok(count as u64)
    }
}

fn range_len(first: i64, last: i64) -> u128
    ensures { result ≡ range_len first last }
{
    if first <= last {
        (i128::from(last) - i128::from(first)) as u128 + 1
    } else {
        0
    }
}

// So many numbers from the first on.
#[tactic(auto, using(crate::proofs::ItemLaws::counted_more, crate::proofs::ItemLaws::onto_nothing))]
fn counted(alloc: Global, first: i64, count: u64) -> Result<List, Memory>
    requires { (first +ℤ pos count) ≤ℤ pos (2 ^ 63) }
    ensures { IfOk result (λ list. list ≡ counted first count) }
{
    let mut list = List::new(alloc);
    for place in 0..count {
        list.push(Value::Int(number_at(first, place)))?;
    }
    Ok(list)
}

fn number_at(first: i64, place: u64) -> i64
    requires { (first +ℤ pos place) <ℤ pos (2 ^ 63) }
    ensures { result ≡ first +ℤ pos place }
{
    (i128::from(first) + i128::from(place)) as i64
}
