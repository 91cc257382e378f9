// What a loop goes over.
ghost use Rattle.std.specs.Prelude.{◌≡◌, ◌<◌, ◌==◌, ◌^◌, pos, ◌+ℤ◌, ◌<ℤ◌, IfOk, Some, None, length, slice_get};
ghost use Rattle.std.specs.List.{list_any};
ghost use Rattle.site_base.specs.Plain.{count_pairs, range};
ghost use Rattle.site_base.specs.View.{plain};
ghost use Rattle.read_record.specs.Queries.{run};
ghost use Rattle.read_record.specs.Answers.{Finds};
ghost use Rattle.liquid_grammar.specs.Tags.{has_key};
ghost use Rattle.liquid_values.specs.Answers.{FoundAt};
ghost use Rattle.liquid_values.specs.Standing.{place_of};
ghost use Rattle.liquid_tags.specs.Elements as definitions;
ghost use Rattle.liquid_tags.specs.Sources.{passed, kept};

use crate::expressions::expression;
use crate::tools::Tools;
use filter_base::range_count;
use liquid_grammar::{Expr, Loop, LoopKey, LoopPart};
use liquid_values::{Excerpts, Place, Stop};
use markdown_grammar::Convert;
use read_record::Look;
use site_base::{FaultKind, Hash, List, Memory, Pair, Text, Value, copy};
use std::alloc::Global;
use std::marker::Model;

/// All that a value gives a loop, which clauses see as a list. A list or a hash is shared, and the numbers of a range are not laid out.
#[derive(Drop)]
pub(crate) struct Whole {
    source: Source,
}

#[derive(Drop)]
enum Source {
    Nothing,
    /// A text by itself, where it is not empty.
    Text(Text),
    List(List),
    Pairs(Hash),
    /// So many numbers from the first on.
    Numbers(i64, u64),
}

impl Model for Whole {
    ghost use Rattle.std.specs.Prelude.{pos, ◌^◌, ◌≤ℤ◌};
    ghost use Rattle.liquid_tags.specs.ValueLists.{Values, values_code};

    ghost Value = { Values };

    ghost coded = { values_code };

    ghost use Rattle.liquid_tags.specs.Sources.{all_of, next_number};

    ghost view = { λ w. all_of w.source };

    ghost invariant = { λ w. next_number w.source ≤ℤ pos (2 ^ 63) };
}

impl Whole {
    /// Of a list its elements, of a hash its pairs, of a range its numbers, a text by itself where it is not empty, and nothing of any
    /// other value. A range of too many numbers is refused.
    pub(crate) fn of(value: Value) -> Result<Whole, FaultKind>
        ensures { result ≡ definitions.elements (plain value) }
    {
        match value {
            Value::List(list) => Ok(Whole {
                source: Source::List(list),
            }),
            Value::Hash(hash) => Ok(Whole {
                source: Source::Pairs(hash),
            }),
            Value::Range(first, last) => Whole::of_range(first, last),
            Value::Text(text) => Ok(Whole {
                source: Source::Text(text),
            }),
            _ => Ok(Whole {
                source: Source::Nothing,
            }),
        }
    }

    #[tactic(auto, using(crate::proofs::ElementLaws::range_top))]
    fn of_range(first: i64, last: i64) -> Result<Whole, FaultKind>
        ensures { result ≡ definitions.elements (range first last) }
    {
        let count = range_count(first, last)?;
        Ok(Whole {
            source: Source::Numbers(first, count),
        })
    }

    #[tactic(auto, using(crate::proofs::ElementLaws::count_items, crate::proofs::ElementLaws::count_pair_list, crate::proofs::ElementLaws::counted_len))]
    fn len(&self) -> u64
        ensures { result ≡ length self.now }
    {
        match &self.source {
            Source::Nothing => 0,
            Source::Text(text) => lone_len(text),
            Source::List(list) => list.len(),
            Source::Pairs(hash) => hash.len(),
            Source::Numbers(_, count) => *count,
        }
    }

    #[tactic(auto, using(crate::proofs::ElementLaws::lone_at, crate::proofs::ElementLaws::number_at))]
    fn at(&self, alloc: Global, place: u64) -> Result<Value, Memory>
        requires { place < length self.now }
        ensures { IfOk result (λ value. slice_get self.now place ≡ Some (plain value)) }
    {
        match &self.source {
            Source::Nothing => Ok(Value::Nil),
            Source::Text(text) => Ok(Value::Text(text.share(alloc)?)),
            Source::List(list) => copy(alloc, list.at(place)),
            Source::Pairs(hash) => pair_at(alloc, hash, place),
            Source::Numbers(first, _) => Ok(Value::Int(number_at(*first, place))),
        }
    }
}

#[tactic(auto, using(crate::proofs::ElementLaws::lone_none, crate::proofs::ElementLaws::lone_one))]
fn lone_len(text: &Text) -> u64
    ensures { result ≡ length (definitions.lone_text text.now) }
{
    if text.is_empty() { 0 } else { 1 }
}

#[tactic(auto, using(crate::proofs::ElementLaws::pair_there, site_base::proofs::ValueLaws::count_pairs_length))]
fn pair_at(alloc: Global, hash: &Hash, place: u64) -> Result<Value, Memory>
    requires { place < count_pairs hash.now }
    ensures { IfOk result (λ value. slice_get (definitions.pair_list hash.now) place ≡ Some (plain value)) }
{
    pair_value(alloc, &hash.as_slice()[place as usize])
}

// A key and its value, as a list of two.
fn pair_value(alloc: Global, pair: &Pair) -> Result<Value, Memory>
    ensures { IfOk result (λ value. plain value ≡ definitions.pair_value pair.now.key (plain pair.now.value)) }
{
    let mut list = List::with_capacity(alloc, 2)?;
    list.push(Value::Text(pair.key.share(alloc)?))?;
    list.push(copy(alloc, &pair.value)?)?;
    Ok(Value::List(list))
}

fn number_at(first: i64, place: u64) -> i64
    requires { (first +ℤ pos place) <ℤ pos (2 ^ 63) }
    ensures { result ≡ first +ℤ pos place }
{
    (i128::from(first) + i128::from(place)) as i64
}

/// What a loop goes over, which clauses see as the list of its elements.
#[derive(Drop)]
pub struct Elements {
    whole: Whole,
    /// Those that are gone over: so many from a place on.
    start: u64,
    len: u64,
    is_reversed: bool,
}

impl Model for Elements {
    ghost use Rattle.std.specs.Prelude.{◌+◌, ◌<◌, ◌≤◌, ◌^◌, length, take, drop};
    ghost use Rattle.liquid_tags.specs.ValueLists.{Values, values_code};

    ghost Value = { Values };

    ghost coded = { values_code };

    ghost use Rattle.liquid_tags.specs.Elements.{turned_round};

    ghost view = { λ e. turned_round e.is_reversed (take e.len (drop e.start e.whole)) };

    ghost invariant = { λ e. (e.start + e.len ≤ length e.whole) × (e.start + e.len < 2 ^ 64) };
}

impl Elements {
    /// Cut at the front, then to a length, and then turned round.
    #[tactic(auto, using(crate::proofs::ElementLaws::cut_is, crate::proofs::ElementLaws::passed_within, crate::proofs::ElementLaws::kept_within))]
    pub(crate) fn cut(whole: Whole, numbers: &Numbers, is_reversed: bool) -> Elements
        ensures { result ≡ definitions.cut numbers.now is_reversed whole }
    {
        let all = whole.len();
        let start = passed(numbers.offset, all);
        let len = kept(numbers.limit, all - start);
        Elements {
            whole,
            start,
            len,
            is_reversed,
        }
    }

    /// How many elements there are.
    #[tactic(auto, using(crate::proofs::ElementLaws::turned_len))]
    pub fn len(&self) -> u64
        ensures { result ≡ length self.now }
    {
        self.len
    }

    /// Whether there is none.
    #[tactic(auto, using(crate::proofs::ElementLaws::turned_len))]
    pub fn is_empty(&self) -> bool
        ensures { result ≡ (length self.now == 0) }
    {
        self.len == 0
    }

    /// The element at a place.
    #[tactic(auto, using(crate::proofs::ElementLaws::turned_len, crate::proofs::ElementLaws::at_front, crate::proofs::ElementLaws::at_back))]
    pub fn at(&self, alloc: Global, place: u64) -> Result<Value, Memory>
        requires { place < length self.now }
        ensures { IfOk result (λ value. slice_get self.now place ≡ Some (plain value)) }
    {
        if self.is_reversed {
            self.whole.at(alloc, self.start + (self.len - 1 - place))
        } else {
            self.whole.at(alloc, self.start + place)
        }
    }
}

// How many of so many elements are passed over at the front.
fn passed(offset: Option<u64>, len: u64) -> u64
    ensures { result ≡ passed offset len }
{
    match offset {
        None => 0,
        Some(offset) => offset.min(len),
    }
}

// How many of so many elements are kept.
fn kept(limit: Option<u64>, len: u64) -> u64
    ensures { result ≡ kept limit len }
{
    match limit {
        None => len,
        Some(limit) => limit.min(len),
    }
}

/// What a `for` goes over: the elements of its list, cut at the front by `offset`, then to the length of `limit`, and then turned round
/// where it is `reversed`.
///
/// It stops at the first fault: those of expressions, RangeTooLong for a range of more than a million numbers, and FilterArgument where
/// `offset` or `limit` is no number.
#[tactic(auto, using(read_record::proofs::CallLaws::binds))]
pub fn loop_elements<'a, 'c, X: Excerpts, C: Convert, L: Look>(
    alloc: Global,
    tools: &mut Tools<'c, X, C>,
    place: &Place<'a>,
    assigned: &Hash,
    tag: &Loop,
    look: &mut L,
) -> Result<Elements, Stop>
    ensures same { L.view look.new ≡ L.view look.old }
    ensures gives { Finds (run (L.view look.old) (L.trace look.old) (definitions.loop_elements (X.excerpts place.now.levels) (place_of place.now) assigned.now tag.now)) result (L.trace look.new) }
{
    let value = expression(alloc, tools, place, assigned, &tag.list, look)?;
    cut_elements(alloc, tools, place, assigned, tag, value, look)
}

#[tactic(auto, using(liquid_values::proofs::PlaceLaws::settles))]
fn cut_elements<'a, 'c, X: Excerpts, C: Convert, L: Look>(
    alloc: Global,
    tools: &mut Tools<'c, X, C>,
    place: &Place<'a>,
    assigned: &Hash,
    tag: &Loop,
    value: Value,
    look: &mut L,
) -> Result<Elements, Stop>
    ensures same { L.view look.new ≡ L.view look.old }
    ensures gives { Finds (run (L.view look.old) (L.trace look.old) (definitions.cut_elements (X.excerpts place.now.levels) (place_of place.now) assigned.now tag.now (plain value))) result (L.trace look.new) }
{
    let whole = place.found(alloc, Whole::of(value))?;
    let numbers = given_numbers(alloc, tools, place, assigned, tag.parts.as_slice(), look)?;
    Ok(Elements::cut(whole, &numbers, is_reversed(tag.parts.as_slice())))
}

pub(crate) fn is_reversed(parts: &[LoopPart]) -> bool
    ensures { result ≡ list_any (has_key None) parts.now }
{
    parts.iter().any(|part| turns_round(part))
}

fn turns_round(part: &LoopPart) -> bool
    ensures { result ≡ has_key None part.now }
{
    matches!(part, LoopPart::Reversed)
}

/// The numbers that a loop is given.
#[derive(Clone, Copy)]
pub(crate) struct Numbers {
    pub(crate) limit: Option<u64>,
    pub(crate) offset: Option<u64>,
    pub(crate) columns: Option<u64>,
}

impl Numbers {
    fn none() -> Numbers
        ensures { result ≡ definitions.no_numbers }
    {
        Numbers {
            limit: None,
            offset: None,
            columns: None,
        }
    }

    fn with_number(&self, key: LoopKey, number: u64) -> Numbers
        ensures { result ≡ definitions.with_number key number self.now }
    {
        match key {
            LoopKey::Limit => Numbers {
                limit: Some(number),
                ..*self
            },
            LoopKey::Offset => Numbers {
                offset: Some(number),
                ..*self
            },
            LoopKey::Columns => Numbers {
                columns: Some(number),
                ..*self
            },
        }
    }
}

/// The numbers of a loop, in the order in which they stand. A number below 0 counts as 0, and what is none is a fault.
pub(crate) fn given_numbers<'a, 'c, X: Excerpts, C: Convert, L: Look>(
    alloc: Global,
    tools: &mut Tools<'c, X, C>,
    place: &Place<'a>,
    assigned: &Hash,
    parts: &[LoopPart],
    look: &mut L,
) -> Result<Numbers, Stop>
    ensures same { L.view look.new ≡ L.view look.old }
    ensures gives { Finds (run (L.view look.old) (L.trace look.old) (definitions.numbers (X.excerpts place.now.levels) (place_of place.now) assigned.now definitions.no_numbers parts.now)) result (L.trace look.new) }
{
    let mut numbers = Numbers::none();
    for part in parts {
        numbers = with_part(alloc, tools, place, assigned, &numbers, part, look)?;
    }
    Ok(numbers)
}

#[tactic(auto, using(read_record::proofs::CallLaws::binds))]
fn with_part<'a, 'c, X: Excerpts, C: Convert, L: Look>(
    alloc: Global,
    tools: &mut Tools<'c, X, C>,
    place: &Place<'a>,
    assigned: &Hash,
    numbers: &Numbers,
    part: &LoopPart,
    look: &mut L,
) -> Result<Numbers, Stop>
    ensures same { L.view look.new ≡ L.view look.old }
    ensures gives { Finds (run (L.view look.old) (L.trace look.old) (definitions.with_part (X.excerpts place.now.levels) (place_of place.now) assigned.now numbers.now part.now)) result (L.trace look.new) }
{
    match part {
        LoopPart::Reversed => Ok(*numbers),
        LoopPart::Number(key, expr) => {
            let number = given_number(alloc, tools, place, assigned, expr, look)?;
            Ok(numbers.with_number(*key, number))
        }
    }
}

#[tactic(auto, using(liquid_values::proofs::PlaceLaws::settles))]
fn given_number<'a, 'c, X: Excerpts, C: Convert, L: Look>(
    alloc: Global,
    tools: &mut Tools<'c, X, C>,
    place: &Place<'a>,
    assigned: &Hash,
    expr: &Expr,
    look: &mut L,
) -> Result<u64, Stop>
    ensures same { L.view look.new ≡ L.view look.old }
    ensures gives { Finds (run (L.view look.old) (L.trace look.old) (definitions.given_number (X.excerpts place.now.levels) (place_of place.now) assigned.now expr.now)) result (L.trace look.new) }
{
    let value = expression(alloc, tools, place, assigned, expr, look)?;
    number_in(alloc, place, &value)
}

fn number_in<'a>(alloc: Global, place: &Place<'a>, value: &Value) -> Result<u64, Stop>
    ensures { FoundAt (place_of place.now) (definitions.whole (plain value.now)) result }
{
    place.found(alloc, count_of(value))
}

fn count_of(value: &Value) -> Result<u64, FaultKind>
    ensures { result ≡ definitions.whole (plain value.now) }
{
    match value {
        Value::Int(number) => Ok(count(*number)),
        _ => Err(FaultKind::FilterArgument),
    }
}

// A number below 0 counts as 0.
fn count(number: i64) -> u64
    ensures { result ≡ definitions.count number }
{
    match u64::try_from(number) {
        Ok(count) => count,
        Err(_) => 0,
    }
}
